//! Why no design is built.
ghost use Rattle.std.specs.Prelude.{◌≡◌};
ghost use Rattle.build.specs.declared.error.BuildError.TheVariants.{Memory as OutOfMemory};

use def_wires::WireFault;
use rt_base::{Memory, Name};
use thiserror::Error;

/// What is counted against a limit.
#[derive(Clone, Copy, Debug, PartialEq, Eq, Error)]
pub enum Limited {
    /// ROUTING layers of LEF.
    #[error("routing-layers")]
    RoutingLayers,
    /// Vias of LEF and of DEF together.
    #[error("vias")]
    Vias,
    /// Usable vias of LEF.
    #[error("usable-vias")]
    UsableVias,
    /// Track lines of one level, as its statements say, equal lines counted each.
    #[error("tracks")]
    Tracks,
    /// Nets of NETS.
    #[error("nets")]
    Nets,
    /// Shapes of the input.
    #[error("fixed-shapes")]
    FixedShapes,
    /// The largest absolute coordinate of a shape of the input.
    #[error("coordinate")]
    Coordinate,
    /// Entries of all pins of all nets.
    #[error("entries")]
    Entries,
    /// Tiles of the die.
    #[error("tiles")]
    Tiles,
    /// Pairs of a tile and a shape of the input that meets it.
    #[error("tile-shapes")]
    TileShapes,
}

/// Why no design is built.
#[derive(Debug, Drop, Error)]
pub enum BuildError {
    /// DEF's database units per micron don't divide LEF's.
    #[error("the units {def} of DEF don't divide the units {lef} of LEF")]
    Scale {
        lef: u32,
        def: u32,
    },
    /// LEF has no macro of the name that a component has.
    #[error("no macro {name}")]
    NoMacro {
        name: Name,
    },
    /// A net names a component that COMPONENTS hasn't.
    #[error("no component {name}")]
    NoComponent {
        name: Name,
    },
    /// A net names a pin that PINS, or the macro of the component, hasn't.
    #[error("no pin {name}")]
    NoPin {
        name: Name,
    },
    /// A statement of DEF, or a box of the guides, names a layer that LEF hasn't.
    #[error("no layer {name}")]
    NoLayer {
        name: Name,
    },
    /// Two nets name this pin.
    #[error("two nets name the pin {name}")]
    PinTwice {
        name: Name,
    },
    /// The guides have an entry for a net that NETS hasn't.
    #[error("no net {name}")]
    NoNet {
        name: Name,
    },
    /// Wiring of a net, or a via of VIAS, isn't read. The fault is never want of memory.
    #[error("{fault}")]
    Wiring {
        fault: WireFault,
    },
    /// No TRACKS statement is used for this routing layer.
    #[error("layer {layer} has no tracks")]
    NoTracks {
        layer: Name,
    },
    /// A count is above its most.
    #[error("{what}: {count} is more than {most}")]
    Limit {
        what: Limited,
        count: u128,
        most: u64,
    },
    #[error("out of memory")]
    Memory,
}

impl From<Memory> for BuildError {
    ghost from_gives = { λ _ e. e ≡ OutOfMemory };

    fn from(_error: Memory) -> BuildError {
        BuildError::Memory
    }
}

impl From<WireFault> for BuildError {
    ghost use Rattle.build.specs.WireErrors.{wiring_error};

    ghost from_gives = { λ fault e. e ≡ wiring_error fault };

    fn from(fault: WireFault) -> BuildError {
        match fault {
            WireFault::Memory => BuildError::Memory,
            fault => BuildError::Wiring { fault },
        }
    }
}
