//! Why a call of a shelf or of a sink gave up.
ghost use Rattle.shelf.specs.declared.fault.TakeFault.TheVariants.{Memory as take_memory};
ghost use Rattle.std.specs.Prelude.{◌≡◌};

use rt_base::Memory;
use thiserror::Error;

/// Why a take gave no bytes.
#[derive(Clone, Copy, Debug, PartialEq, Eq, Error)]
pub enum TakeFault {
    /// The file could not be read.
    #[error("cannot read the file")]
    Failed,
    /// The file is longer than the limit: `read` bytes of it were counted.
    #[error("the file has {read} bytes or more")]
    Long { read: u64 },
    /// Memory ran out.
    #[error("out of memory")]
    Memory,
}

/// Why a put did not store the bytes.
#[derive(Clone, Copy, Debug, PartialEq, Eq, Error)]
pub enum PutFault {
    /// The file could not be written. It may hold some first bytes.
    #[error("cannot write the file")]
    Failed,
    /// Memory ran out, and nothing was written.
    #[error("out of memory")]
    Memory,
}

/// Why a text was not said.
#[derive(Clone, Copy, Debug, PartialEq, Eq, Error)]
pub enum SayFault {
    /// The text could not be written, or some first bytes of it alone.
    #[error("cannot write the text")]
    Failed,
    /// Memory ran out, and nothing was written.
    #[error("out of memory")]
    Memory,
}

impl From<Memory> for TakeFault {
    ghost from_gives = { λ _ e. e ≡ take_memory };

    fn from(_error: Memory) -> TakeFault {
        TakeFault::Memory
    }
}

impl From<Memory> for PutFault {
    ghost use Rattle.shelf.specs.declared.fault.PutFault.TheVariants.{Memory as put_memory};

    ghost from_gives = { λ _ e. e ≡ put_memory };

    fn from(_error: Memory) -> PutFault {
        PutFault::Memory
    }
}

impl From<Memory> for SayFault {
    ghost use Rattle.shelf.specs.declared.fault.SayFault.TheVariants.{Memory as say_memory};

    ghost from_gives = { λ _ e. e ≡ say_memory };

    fn from(_error: Memory) -> SayFault {
        SayFault::Memory
    }
}
