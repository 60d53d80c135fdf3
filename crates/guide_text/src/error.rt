//! Why a guide text isn't read.
ghost use Rattle.std.specs.Prelude.{◌≡◌};
ghost use Rattle.guide_text.specs.declared.error.GuideError.TheVariants as guide_errors;

use rt_base::{Memory, Name, ScanError};
use rt_forms::Fault;
use thiserror::Error;

/// Why a guide text isn't read. Lines count from 1. Words are read from left to right, and the first
/// one that isn't admitted decides.
#[derive(Debug, Drop, Error)]
pub enum GuideError {
    /// The text has no tokens. The fault is never want of memory, which is `Memory`.
    #[error("{0}")]
    Scan(ScanError),
    /// Another word is expected.
    #[error("line {line}: another word is expected")]
    Expected { line: u32 },
    /// A number is expected: a sign or none, and digits, at most 2^30 in absolute value.
    #[error("line {line}: a number is expected")]
    Number { line: u32 },
    /// An upper end of a box is below its lower end. The line is that of the upper end, the one in x
    /// where both are so.
    #[error("line {line}: the box is empty")]
    EmptyBox { line: u32 },
    /// A net has a second guide, on this line.
    #[error("line {line}: {name} stands twice")]
    Twice { line: u32, name: Name },
    /// The text ends inside a guide, behind a last token on this line.
    #[error("line {line}: the text ends")]
    Unended { line: u32 },
    /// Memory ran out.
    #[error("out of memory")]
    Memory,
}

impl From<Memory> for GuideError {
    ghost from_gives = { λ _ e. e ≡ guide_errors.Memory };

    fn from(_error: Memory) -> GuideError {
        GuideError::Memory
    }
}

impl Fault for GuideError {
    ghost use Rattle.guide_text.specs.Faults.{guide_faults};

    ghost faults = { guide_faults };

    fn ended(line: u32) -> GuideError {
        GuideError::Unended { line }
    }

    fn expected(line: u32) -> GuideError {
        GuideError::Expected { line }
    }
}
