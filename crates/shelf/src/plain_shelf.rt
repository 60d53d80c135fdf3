//! The shelf of the file system.
ghost use Rattle.std.specs.Prelude.{◌≡◌, ◌+◌, ◌-◌, ◌^◌, ◌<◌, ◌≤◌, min, None, take, vec_len, IfOk, IfSome, IsErrOf, IsTrue, IsFalse};
ghost use Rattle.shelf.specs.Faults.{count_end};
ghost use Rattle.shelf.specs.Shelf.{IfLong};

use crate::fault::{PutFault, TakeFault};
use crate::shelf::Shelf;
use std::alloc::Global;
use std::io::{ErrorKind, Read, Write};
use std::rt::Files;
use std::{fs, io};

/// The files of a runtime, named by their paths. It tells none of them and is never sure: what a file
/// holds is the system's word, and nothing is proved of it. Each error that the system answers counts
/// as a fault, but for want of memory at a take. Where no further fault can be counted, a put answers want
/// of memory and writes nothing, and a take answers it in place of a fault. A take asks for no more than
/// `limit` bytes and one.
#[derive(Drop)]
pub struct PlainShelf<R> {
    rt: R,
    faults: u64,
}

/// The bytes that a reader has left, but at most `limit` and one more.
fn read_past<F: Read + Drop>(alloc: Global, file: F, limit: u64) -> io::Result<Vec<u8>>
    ensures { IfOk result (λ bytes. IfSome (F.remaining file) (λ left. bytes.items ≡ take (min (limit + 1) (2 ^ 64 - 1)) left)) }
{
    let mut bytes = Vec::new(alloc);
    file.take(limit.saturating_add(1)).read_to_end(&mut bytes)?;
    Ok(bytes)
}

impl<R: Files> PlainShelf<R> {
    ghost use Rattle.shelf.specs.PlainShelf.{fault_count};

    /// A shelf without faults.
    pub fn new(rt: R) -> PlainShelf<R>
        ensures { fault_count result ≡ 0 }
    {
        PlainShelf { rt, faults: 0 }
    }

    /// How many faults came so far.
    pub fn faults(&self) -> u64
        ensures { result ≡ fault_count self.now }
    {
        self.faults
    }

    /// Whether no further fault can be counted.
    fn is_full(&self) -> bool
        ensures full { IsTrue result → fault_count self.now ≡ count_end }
        ensures room { IsFalse result → fault_count self.now < count_end }
    {
        self.faults == u64::MAX
    }

    fn count_fault(&mut self)
        requires { fault_count self.old < count_end }
        ensures { fault_count self.new ≡ fault_count self.old + 1 }
    {
        self.faults += 1;
    }

    /// The first `limit` bytes of a file and one more, or all where it has fewer.
    fn read(&self, alloc: Global, name: &str, limit: u64) -> io::Result<Vec<u8>> {
        read_past(alloc, fs::open(&self.rt, name)?, limit)
    }

    /// Writes a file anew.
    fn write(&self, name: &str, bytes: &[u8]) -> io::Result<()> {
        let mut file = fs::create(&self.rt, name)?;
        file.write_all(bytes)?;
        file.flush()
    }
}

impl<R: Files> Shelf for PlainShelf<R> {
    ghost use Rattle.shelf.specs.PlainShelf.{fault_count};

    ghost told = { λ _. None };

    ghost faults = { λ s. s.faults };

    ghost sure = { λ _. ⊥ };

    ghost sure_tells = { λ _ h. absurd h };

    fn take(&mut self, alloc: Global, name: &str, limit: u64) -> Result<Vec<u8>, TakeFault>
        ensures within { IfOk result (λ bytes. vec_len bytes ≤ limit) }
        ensures above { IfLong result (λ read. limit < read) }
        ensures failed { IsErrOf result TakeFault.Failed → fault_count self.new ≡ fault_count self.old + 1 }
        ensures no_fault { ¬ IsErrOf result TakeFault.Failed → fault_count self.new ≡ fault_count self.old }
        ensures count { fault_count self.old ≤ fault_count self.new }
    {
        match self.read(alloc, name, limit) {
            Ok(bytes) => {
                let read = bytes.len() as u64;
                if read > limit {
                    return Err(TakeFault::Long { read });
                }
                Ok(bytes)
            }
            Err(e) if self.is_full() || e.kind() == ErrorKind::OutOfMemory => {
                Err(TakeFault::Memory)
            }
            Err(_) => {
                self.count_fault();
                Err(TakeFault::Failed)
            }
        }
    }

    fn put(&mut self, name: &str, bytes: &[u8]) -> Result<(), PutFault>
        ensures no_fault { ¬ IsErrOf result PutFault.Failed → fault_count self.new ≡ fault_count self.old }
        ensures failed { IsErrOf result PutFault.Failed → fault_count self.new ≡ fault_count self.old + 1 }
        ensures count { fault_count self.old ≤ fault_count self.new }
        ensures memory { IsErrOf result PutFault.Memory → fault_count self.old ≡ count_end }
    {
        if self.is_full() {
            return Err(PutFault::Memory);
        }
        if self.write(name, bytes).is_err() {
            self.count_fault();
            return Err(PutFault::Failed);
        }
        Ok(())
    }
}
