//! The sink over a writer.
ghost use Rattle.std.specs.Prelude.{◌≡◌, ◌+◌, ◌≤◌, None, IsErrOf, OnOk};
ghost use Rattle.shelf.specs.Faults.{count_end};
ghost use Rattle.std.specs.Io.KnownBytes.{Appends};

use crate::fault::SayFault;
use crate::sink::Sink;
use std::io;
use std::io::Write;

/// What is written to a writer, such as standard output. It tells no text and is never sure: what the
/// writer does with the bytes is the system's word, and nothing is proved of it. Each error that the
/// writer answers counts as a fault. Where no further fault can be counted, it answers want of memory and
/// writes nothing.
#[derive(Drop)]
pub struct PlainSink<W> {
    out: W,
    faults: u64,
}

/// Writes all bytes and flushes the writer. A write that takes nothing of a piece is an error.
fn write_whole<W: Write>(out: &mut W, bytes: &[u8]) -> io::Result<()>
    ensures { OnOk result (Appends (W.contents out.old) (W.contents out.new) bytes.now) }
{
    out.write_all(bytes)?;
    out.flush()
}

impl<W: Write> PlainSink<W> {
    ghost use Rattle.shelf.specs.PlainSink.{fault_count};

    /// A sink without faults.
    pub fn new(out: W) -> PlainSink<W>
        ensures { fault_count result ≡ 0 }
    {
        PlainSink { out, faults: 0 }
    }

    /// How many faults came so far.
    pub fn faults(&self) -> u64
        ensures { result ≡ fault_count self.now }
    {
        self.faults
    }
}

impl<W: Write> Sink for PlainSink<W> {
    ghost use Rattle.shelf.specs.PlainSink.{fault_count, writer_of};

    ghost text = { λ _. None };

    ghost faults = { λ s. s.faults };

    ghost sure = { λ _. ⊥ };

    fn say(&mut self, bytes: &[u8]) -> Result<(), SayFault>
        // Where the writer tells what it holds, that has grown by the bytes.
        ensures written { OnOk result (Appends (W.contents (writer_of self.old)) (W.contents (writer_of self.new)) bytes.now) }
        ensures no_fault { ¬ IsErrOf result SayFault.Failed → fault_count self.new ≡ fault_count self.old }
        ensures failed { IsErrOf result SayFault.Failed → fault_count self.new ≡ fault_count self.old + 1 }
        ensures count { fault_count self.old ≤ fault_count self.new }
        ensures memory { IsErrOf result SayFault.Memory → fault_count self.old ≡ count_end }
    {
        if self.faults == u64::MAX {
            return Err(SayFault::Memory);
        }
        if write_whole(&mut self.out, bytes).is_err() {
            self.faults += 1;
            return Err(SayFault::Failed);
        }
        Ok(())
    }
}
