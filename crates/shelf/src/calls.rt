//! Calls that come one after another, some of which fail.
ghost use Rattle.std.specs.Prelude.{◌≡◌, ◌/◌, ◌<◌, take, length, IsTrue, IsFalse};
ghost use Rattle.shelf.specs.Faults.{count_end, HasRisen};
ghost use Rattle.shelf.specs.Calls.{uncalled, is_failing, called, faulted};

use std::marker::Model;

/// The numbers of the calls that fail, how many calls came, and the count of faults.
#[derive(Drop)]
pub(crate) struct Calls {
    fails: Vec<u32>,
    came: u64,
    faults: u64,
}

impl Model for Calls {
    ghost use Rattle.shelf.specs.Calls.{CallState};

    ghost Value = { CallState };

    ghost view = { λ s. record { fails = s.fails.items; came = s.came; faults = s.faults } };
}

impl Calls {
    /// Before the first call, which has the number 0.
    pub(crate) fn new(fails: Vec<u32>) -> Calls
        ensures { result ≡ uncalled fails.items }
    {
        Calls {
            fails,
            came: 0,
            faults: 0,
        }
    }

    /// Counts a call, and says whether it is one of those that fail.
    pub(crate) fn is_next_failing(&mut self) -> bool
        ensures failing { result ≡ is_failing self.old }
        ensures counted { self.new ≡ called self.old }
    {
        let number = self.came;
        self.came = number.saturating_add(1);
        self.fails.iter().any(|fails| u64::from(*fails) == number)
    }

    /// Whether no further fault can be counted.
    pub(crate) fn is_full(&self) -> bool
        ensures full { IsTrue result → self.now.faults ≡ count_end }
        ensures room { IsFalse result → self.now.faults < count_end }
    {
        self.faults == u64::MAX
    }

    /// Counts a fault.
    pub(crate) fn count_fault(&mut self)
        requires { self.old.faults < count_end }
        ensures counted { self.new ≡ faulted self.old }
        ensures risen { HasRisen self.old.faults self.new.faults }
    {
        self.faults += 1;
    }
}

/// What a call that fails still writes: the first half of the bytes, rounded down.
pub(crate) fn first_half(bytes: &[u8]) -> &[u8]
    ensures { result.now ≡ take (length bytes.now / 2) bytes.now }
{
    &bytes[..bytes.len() / 2]
}
