//! Shelves of named files.
ghost use Rattle.std.specs.Prelude.{◌≡◌, ◌≢◌, ℕ, ◌<◌, ◌≤◌, List, Option, IsSome, IfOk, IsErrOf, OnOk, vec_len};
ghost use Rattle.shelf.specs.Faults.{HasRisen};
ghost use Rattle.shelf.specs.Shelf.{Files, with_file, IsCutShort, IsHeld, HoldsBytes, HoldsAtLeast, IfLong};

use crate::fault::{PutFault, TakeFault};
use std::alloc::Global;

/// Files by name. A shelf may tell what its names hold, it counts its faults, and it may be sure.
/// One that does not tell its files promises nothing of what a file holds.
pub trait Shelf {
    /// What the names hold, where the shelf tells it.
    ghost told: { Self → Option Files };

    /// How many faults came so far.
    ghost faults: { Self → ℕ };

    /// A sure shelf has no fault but at a take of a name that it does not hold.
    ghost sure: { Self → Type 0 };

    /// All bytes of a file, where they are at most `limit`. The files stay as they are.
    ///
    /// `Failed` comes only with a fault. `Long` comes where the file has more than `limit` bytes, with
    /// a count of bytes that is above `limit` and at most theirs.
    fn take(&mut self, alloc: Global, name: &str, limit: u64) -> Result<Vec<u8>, TakeFault>
        ensures bytes { IfOk result (λ bytes. HoldsBytes (told self.old) name.now bytes.items) }
        ensures within { IfOk result (λ bytes. vec_len bytes ≤ limit) }
        ensures failed { IsErrOf result TakeFault.Failed → HasRisen (faults self.old) (faults self.new) }
        ensures above { IfLong result (λ read. limit < read) }
        ensures long { IfLong result (λ read. HoldsAtLeast (told self.old) name.now read) }

        ensures same { told self.new ≡ told self.old }
        ensures count { faults self.old ≤ faults self.new }
        ensures stays_sure { sure self.old → sure self.new }
        ensures sure_count { sure self.old → IsHeld (told self.old) name.now → faults self.new ≡ faults self.old }
        ensures sure_answer { sure self.old → IsHeld (told self.old) name.now → ¬ IsErrOf result TakeFault.Failed };

    /// Stores bytes under a name, in place of those that it held. The other names stay as they are.
    ///
    /// `Failed` comes only with a fault. The name then holds some first bytes, or what it held. After
    /// `Memory` the files are as before.
    fn put(&mut self, name: &str, bytes: &[u8]) -> Result<(), PutFault>
        ensures ok { OnOk result (told self.new ≡ with_file (told self.old) name.now bytes.now) }
        ensures failed { IsErrOf result PutFault.Failed → HasRisen (faults self.old) (faults self.new) }
        ensures cut { IsErrOf result PutFault.Failed → IsCutShort (told self.old) (told self.new) name.now bytes.now }
        ensures memory { IsErrOf result PutFault.Memory → told self.new ≡ told self.old }

        ensures count { faults self.old ≤ faults self.new }
        ensures stays_sure { sure self.old → sure self.new }
        ensures sure_count { sure self.old → faults self.new ≡ faults self.old }
        ensures sure_answer { sure self.old → ¬ IsErrOf result PutFault.Failed };

    /// A sure shelf tells its files.
    ghost sure_tells: { (s : Self) → sure s → IsSome (told s) };
}
