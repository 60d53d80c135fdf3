//! Why a DEF text isn't read.
ghost use Rattle.std.specs.Prelude.{◌≡◌};
ghost use Rattle.def_text.specs.declared.error.DefError.TheVariants as def_errors;

use rt_base::{Memory, Name, ScanError};
use rt_forms::Fault;
use rt_words::NumberFault;
use thiserror::Error;

/// Why a DEF text isn't read. Lines count from 1. Words are read from left to right, and the first
/// one that isn't admitted decides.
#[derive(Debug, Drop, Error)]
pub enum DefError {
    /// The text has no tokens. The fault is never want of memory, which is `Memory`.
    #[error("{0}")]
    Scan(ScanError),
    /// Another word is expected.
    #[error("line {line}: another word is expected")]
    Expected {
        line: u32,
    },
    /// No statement begins with this word.
    #[error("line {line}: no such statement")]
    Unknown {
        line: u32,
    },
    /// A number is expected, or one in range.
    #[error("line {line}: {fault}")]
    Number {
        line: u32,
        fault: NumberFault,
    },
    /// `UNITS`, `DIEAREA` or a section stands twice, or two items of one section have this name. The
    /// line is that of the second.
    #[error("line {line}: {name} stands twice")]
    Twice {
        line: u32,
        name: Name,
    },
    /// This word isn't supported.
    #[error("line {line}: {word} is refused")]
    Refused {
        line: u32,
        word: Name,
    },
    /// The text ends too early, behind a last token on this line, 1 where there is none.
    #[error("line {line}: the text ends")]
    Unended {
        line: u32,
    },
    /// A section says that it has so many items, and has another number, which is found at its `END`.
    #[error("{section} says {said} and has {found}")]
    Count {
        section: Name,
        said: u64,
        found: u64,
    },
    /// The die has a third point.
    #[error("line {line}: the die is no rectangle")]
    DiePolygon {
        line: u32,
    },
    /// At `END DESIGN` the text has no `UNITS` (`units`), or else no `DIEAREA` (`die-area`).
    #[error("{what} is missing")]
    Missing {
        what: Name,
    },
    /// Memory ran out.
    #[error("out of memory")]
    Memory,
}

impl From<Memory> for DefError {
    ghost from_gives = { λ _ e. e ≡ def_errors.Memory };

    fn from(_error: Memory) -> DefError {
        DefError::Memory
    }
}

impl Fault for DefError {
    ghost use Rattle.def_text.specs.Faults.{def_faults};

    ghost faults = { def_faults };

    fn ended(line: u32) -> DefError {
        DefError::Unended { line }
    }

    fn expected(line: u32) -> DefError {
        DefError::Expected { line }
    }
}
