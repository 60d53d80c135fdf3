//! Files that are read: their bytes, cut into tokens.
ghost use Rattle.std.specs.Prelude.{◌≡◌, ◌≢◌, ◌<◌, ◌≤◌, ◌^◌, length, Err, IfOk, IfErr};
ghost use Rattle.rt_base.specs.declared.scan.ScanError.TheVariants.{Memory as OutOfMemory};
ghost use Rattle.rt_base.specs.Scan.{IsCutInto, Reads};
ghost use Rattle.shelf.specs.Shelf.{IsHeld};
ghost use Rattle.router.specs.Outcomes.{IsSource};
ghost use Rattle.router.specs.Sources.{IsSourceFault};

use rt_base::{Memory, ScanError, Seq, Token, tokens};
use shelf::{Shelf, TakeFault};
use std::alloc::Global;

/// A file's bytes and the tokens that they are cut into.
#[derive(Debug, Drop)]
pub struct Source {
    pub text: Seq<u8>,
    pub tokens: Seq<Token>,
}

/// Why a file gave no tokens.
#[derive(Clone, Copy, Debug)]
pub(crate) enum SourceFault {
    /// The file could not be read.
    Failed,
    /// The file is above its limit: so many bytes of it were counted.
    Long { read: u64 },
    /// The bytes have no tokens. Never want of memory.
    Scan(ScanError),
    /// Memory ran out.
    Memory,
}

impl From<Memory> for SourceFault {
    ghost use Rattle.router.specs.declared.source.SourceFault.TheVariants as faults;

    ghost from_gives = { λ _ e. e ≡ faults.Memory };

    fn from(_error: Memory) -> SourceFault {
        SourceFault::Memory
    }
}

impl From<TakeFault> for SourceFault {
    ghost use Rattle.router.specs.Sources.{of_take};

    ghost from_gives = { λ fault e. e ≡ of_take fault };

    fn from(fault: TakeFault) -> SourceFault {
        match fault {
            TakeFault::Failed => SourceFault::Failed,
            TakeFault::Long { read } => SourceFault::Long { read },
            TakeFault::Memory => SourceFault::Memory,
        }
    }
}

impl From<ScanError> for SourceFault {
    ghost use Rattle.router.specs.Sources.{of_scan};

    ghost from_gives = { λ fault e. e ≡ of_scan fault };

    fn from(fault: ScanError) -> SourceFault {
        match fault {
            ScanError::UnclosedQuote { line } => {
                SourceFault::Scan(ScanError::UnclosedQuote { line })
            }
            ScanError::NotText { line } => SourceFault::Scan(ScanError::NotText { line }),
            ScanError::Memory => SourceFault::Memory,
        }
    }
}

/// The tokens of a text.
fn cut(alloc: Global, text: Vec<u8>) -> Result<Source, ScanError>
    requires { length text.items < 2 ^ 32 }
    ensures found { IfOk result (λ s. (s.text ≡ text.items) × IsCutInto text.items s.tokens) }
    ensures fault { IfErr result (λ e. e ≢ OutOfMemory → Reads text.items (Err e)) }
{
    let tokens = tokens(alloc, &text)?;
    Ok(Source {
        text: Seq::from_vec(text),
        tokens: Seq::from_vec(tokens),
    })
}

/// Takes a file of at most `most` bytes, and cuts it into tokens.
pub(crate) fn take_source<F: Shelf>(
    alloc: Global,
    files: &mut F,
    name: &str,
    most: u64,
) -> Result<Source, SourceFault>
    requires { most < 2 ^ 32 }
    ensures found { IfOk result (IsSource (F.told files.old) name.now most) }
    ensures fault { IfErr result (IsSourceFault (F.told files.old) (F.faults files.old) (F.faults files.new) name.now most) }
    ensures same { F.told files.new ≡ F.told files.old }
    ensures count { F.faults files.old ≤ F.faults files.new }
    ensures stays_sure { F.sure files.old → F.sure files.new }
    ensures sure_count { F.sure files.old → IsHeld (F.told files.old) name.now → F.faults files.new ≡ F.faults files.old }
{
    let text = files.take(alloc, name, most)?;
    Ok(cut(alloc, text)?)
}
