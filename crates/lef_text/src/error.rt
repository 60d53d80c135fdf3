//! Why a LEF text isn't read.
ghost use Rattle.std.specs.Prelude.{◌≡◌};
ghost use Rattle.lef_text.specs.declared.error.LefError.TheVariants.{Memory as OutOfMemory};

use rt_base::{Memory, Name, ScanError};
use rt_forms::Fault;
use rt_words::NumberFault;
use thiserror::Error;

/// What a routing layer lacks at its end, in the order in which it is tested.
#[derive(Clone, Copy, Debug, PartialEq, Eq, Error)]
pub enum What {
    #[error("direction")]
    Direction,
    #[error("width")]
    Width,
    #[error("spacing")]
    Spacing,
}

/// Why a LEF text isn't read. A `line` counts from 1 and is that of the word that isn't admitted.
#[derive(Debug, Drop, Error)]
pub enum LefError {
    /// The text has no words. Never want of memory.
    #[error("{0}")]
    Scan(ScanError),
    /// Another word should stand here.
    #[error("line {line}: another word is expected")]
    Expected { line: u32 },
    /// No statement, or no line of this part of the text, begins so.
    #[error("line {line}: no such statement")]
    Unknown { line: u32 },
    /// A number should stand here, or one in another range.
    #[error("line {line}: {fault}")]
    Number { line: u32, fault: NumberFault },
    /// The second layer, via, macro, pin of one macro, or table of one layer of this name.
    #[error("line {line}: {name} stands twice")]
    Twice { line: u32, name: Name },
    /// No layer of this name stands before.
    #[error("line {line}: no layer {name}")]
    NoLayer { line: u32, name: Name },
    /// A routing layer ends without this.
    #[error("layer {name} without {what}")]
    LayerWithout { name: Name, what: What },
    /// A routing layer has the direction of the routing layer before it.
    #[error("layers {lower} and {upper} have one direction")]
    SameDirection { lower: Name, upper: Name },
    /// The width of a routing layer isn't even in DEF units.
    #[error("the width of layer {name} is odd")]
    OddWidth { name: Name },
    /// A word that is known and not taken.
    #[error("line {line}: {word} is refused")]
    Refused { line: u32, word: Name },
    /// The text ends inside a statement. The line is that of its last word, 1 where there is none.
    #[error("line {line}: the text ends")]
    Unended { line: u32 },
    #[error("out of memory")]
    Memory,
}

impl From<Memory> for LefError {
    ghost from_gives = { λ _ e. e ≡ OutOfMemory };

    fn from(_error: Memory) -> LefError {
        LefError::Memory
    }
}

impl Fault for LefError {
    ghost use Rattle.lef_text.specs.Faults.{lef_faults};

    ghost faults = { lef_faults };

    fn ended(line: u32) -> LefError {
        LefError::Unended { line }
    }

    fn expected(line: u32) -> LefError {
        LefError::Expected { line }
    }
}
