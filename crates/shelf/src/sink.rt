//! Sinks for what a program says.
ghost use Rattle.std.specs.Prelude.{◌≡◌, ℕ, ◌≤◌, List, Option, IsErrOf, OnOk};
ghost use Rattle.shelf.specs.Faults.{HasRisen};
ghost use Rattle.shelf.specs.Sink.{with_more, IsPartlySaid};

use crate::fault::SayFault;

/// A text that grows at its end. A sink may tell its text, it counts its faults, and it may be sure.
/// One that does not tell its text promises nothing of what was written.
pub trait Sink {
    /// What was said so far, where the sink tells it.
    ghost text: { Self → Option (List ℕ) };

    /// How many faults came so far.
    ghost faults: { Self → ℕ };

    /// A sure sink has no fault.
    ghost sure: { Self → Type 0 };

    /// Adds bytes at the end of the text.
    ///
    /// `Failed` comes only with a fault, and then some first bytes were added. After `Memory` the text
    /// is as before.
    fn say(&mut self, bytes: &[u8]) -> Result<(), SayFault>
        ensures ok { OnOk result (text self.new ≡ with_more (text self.old) bytes.now) }
        ensures failed { IsErrOf result SayFault.Failed → HasRisen (faults self.old) (faults self.new) }
        ensures part { IsErrOf result SayFault.Failed → IsPartlySaid (text self.old) (text self.new) bytes.now }
        ensures memory { IsErrOf result SayFault.Memory → text self.new ≡ text self.old }

        ensures count { faults self.old ≤ faults self.new }
        ensures stays_sure { sure self.old → sure self.new }
        ensures sure_count { sure self.old → faults self.new ≡ faults self.old }
        ensures sure_answer { sure self.old → ¬ IsErrOf result SayFault.Failed };
}
