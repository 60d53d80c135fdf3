//! A sink in memory, for tests.
ghost use Rattle.std.specs.Prelude.{◌≡◌, ◌++◌, ◌≤◌, [], Some, IsErrOf, IsTrue, IsFalse, OnOk, OnErr};
ghost use Rattle.shelf.specs.Calls.{uncalled, called, is_failing};
ghost use Rattle.shelf.specs.Faults.{HasRisen};
ghost use Rattle.shelf.specs.MemSink.{after_say};

use crate::calls::{Calls, first_half};
use crate::fault::SayFault;
use crate::sink::Sink;
use rt_base::Memory;
use std::alloc::Global;
use std::marker::Model;

/// A text in memory. The calls with the given numbers fail, counted from 0, and add the first half of
/// their bytes, rounded down. Where no further fault can be counted, such a call answers want of memory
/// and adds nothing. It tells its text, and is sure where no call fails.
#[derive(Drop)]
pub struct MemSink {
    text: Vec<u8>,
    calls: Calls,
}

impl Model for MemSink {
    ghost use Rattle.shelf.specs.MemSink.{SinkState};

    ghost Value = { SinkState };

    ghost view = { λ s. record { text = s.text.items; calls = s.calls } };
}

/// Adds bytes at the end.
fn add(text: &mut Vec<u8>, bytes: &[u8]) -> Result<(), Memory>
    ensures ok { OnOk result (text.new.items ≡ text.old.items ++ bytes.now) }
    ensures err { OnErr result (text.new.items ≡ text.old.items) }
{
    Ok(text.extend_from_slice(bytes)?)
}

impl MemSink {
    /// A sink that said nothing. The calls with the listed numbers fail. Takes no memory.
    pub fn new(alloc: Global, fails: Vec<u32>) -> MemSink
        ensures text { result.text ≡ [] }
        ensures calls { result.calls ≡ uncalled fails.items }
    {
        MemSink {
            text: Vec::new(alloc),
            calls: Calls::new(fails),
        }
    }

    /// What was said so far.
    pub fn text(&self) -> &[u8]
        ensures { result.now ≡ self.now.text }
    {
        &self.text
    }
}

impl Sink for MemSink {
    ghost text = { λ s. Some s.text };

    ghost faults = { λ s. s.calls.faults };

    ghost sure = { λ s. s.calls.fails ≡ [] };

    fn say(&mut self, bytes: &[u8]) -> Result<(), SayFault>
        ensures ok { OnOk result (IsFalse (is_failing self.old.calls) × (self.new ≡ after_say self.old bytes.now)) }
        ensures failed { IsErrOf result SayFault.Failed → IsTrue (is_failing self.old.calls) × HasRisen self.old.calls.faults self.new.calls.faults × (self.new ≡ after_say self.old bytes.now) }
        ensures memory { IsErrOf result SayFault.Memory → self.new ≡ record self.old { calls = called self.old.calls } }
        ensures count { self.old.calls.faults ≤ self.new.calls.faults }
    {
        if self.calls.is_next_failing() {
            if self.calls.is_full() {
                return Err(SayFault::Memory);
            }
            add(&mut self.text, first_half(bytes))?;
            self.calls.count_fault();
            return Err(SayFault::Failed);
        }
        add(&mut self.text, bytes)?;
        Ok(())
    }
}
