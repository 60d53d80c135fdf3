//! Why wiring or a via of DEF isn't read.
ghost use Rattle.std.specs.Prelude.{◌≡◌};
ghost use Rattle.def_wires.specs.declared.error.WireFault.TheVariants as wire_errors;

use rt_base::Memory;
use rt_forms::Fault;
use thiserror::Error;

/// Why wiring or a via of DEF isn't read. Lines count from 1. Words are read from left to right, and
/// the first one that isn't admitted decides.
#[derive(Clone, Copy, Debug, PartialEq, Eq, Error)]
pub enum WireFault {
    /// Another word is expected, or a further one behind the last, which is on this line. The line is
    /// 1 where there are no words.
    #[error("line {line}: another word is expected")]
    Expected { line: u32 },
    /// A number is expected, or one in range.
    #[error("line {line}: no such number")]
    Number { line: u32 },
    /// No layer has this name, or the layer of a path isn't a routing layer.
    #[error("line {line}: no such layer")]
    NoSuchLayer { line: u32 },
    /// No via has this name.
    #[error("line {line}: no such via")]
    NoSuchVia { line: u32 },
    /// The first point of a path has `*`.
    #[error("line {line}: a first point has no point before it")]
    FirstStar { line: u32 },
    /// A point differs from the one before in both coordinates. The line is that of its y.
    #[error("line {line}: the segment isn't along x or y")]
    Diagonal { line: u32 },
    /// The via's rectangles aren't on exactly two routing layers, or the current layer is neither.
    #[error("line {line}: the via isn't on the current layer")]
    ViaOffLayer { line: u32 },
    /// This word isn't supported.
    #[error("line {line}: the word is refused")]
    Refused { line: u32 },
    /// Memory ran out.
    #[error("out of memory")]
    Memory,
}

impl From<Memory> for WireFault {
    ghost from_gives = { λ _ e. e ≡ wire_errors.Memory };

    fn from(_error: Memory) -> WireFault {
        WireFault::Memory
    }
}

impl Fault for WireFault {
    ghost use Rattle.def_wires.specs.Faults.{wire_faults};

    ghost faults = { wire_faults };

    fn ended(line: u32) -> WireFault {
        WireFault::Expected { line }
    }

    fn expected(line: u32) -> WireFault {
        WireFault::Expected { line }
    }
}
