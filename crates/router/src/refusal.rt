//! Why a run is refused.
ghost use Rattle.std.specs.Prelude.{◌≡◌};
ghost use Rattle.router.specs.Refusals.{build_status};

use crate::words::WordsFault;
use build::BuildError;
use def_text::DefError;
use guide_text::GuideError;
use lef_text::LefError;
use rt_base::{Memory, Name};

/// The most bytes of a LEF text.
pub const LEF_MOST: u64 = 67_108_864;

/// The most bytes of a DEF text.
pub const DEF_MOST: u64 = 268_435_456;

/// The most bytes of a guide text.
pub const GUIDE_MOST: u64 = 268_435_456;

/// Why a run is refused. What is wrong with a text or a design is never want of memory, which has a
/// variant of its own.
#[derive(Debug, Drop)]
pub enum Refusal {
    /// The words are no command line.
    Words(WordsFault),
    /// LEF has more than [`LEF_MOST`] bytes: so many of them were counted.
    LefBytes { read: u64 },
    /// DEF has more than [`DEF_MOST`] bytes: so many of them were counted.
    DefBytes { read: u64 },
    /// The guides have more than [`GUIDE_MOST`] bytes: so many of them were counted.
    GuideBytes { read: u64 },
    /// LEF isn't in its grammar.
    Lef(LefError),
    /// DEF isn't in its grammar.
    Def(DefError),
    /// The guides aren't in their grammar.
    Guide(GuideError),
    /// The texts give no design, or one above a limit.
    Build(BuildError),
    /// The file could not be read.
    Read { name: Name },
    /// The file could not be written.
    Write { name: Name },
    /// Memory ran out.
    Memory,
}

impl From<Memory> for Refusal {
    ghost use Rattle.router.specs.declared.refusal.Refusal.TheVariants as refusals;

    ghost from_gives = { λ _ e. e ≡ refusals.Memory };

    fn from(_error: Memory) -> Refusal {
        Refusal::Memory
    }
}

impl From<LefError> for Refusal {
    ghost use Rattle.router.specs.Refusals.{of_lef};

    ghost from_gives = { λ error e. e ≡ of_lef error };

    fn from(error: LefError) -> Refusal {
        match error {
            LefError::Memory => Refusal::Memory,
            error => Refusal::Lef(error),
        }
    }
}

impl From<DefError> for Refusal {
    ghost use Rattle.router.specs.Refusals.{of_def};

    ghost from_gives = { λ error e. e ≡ of_def error };

    fn from(error: DefError) -> Refusal {
        match error {
            DefError::Memory => Refusal::Memory,
            error => Refusal::Def(error),
        }
    }
}

impl From<GuideError> for Refusal {
    ghost use Rattle.router.specs.Refusals.{of_guide};

    ghost from_gives = { λ error e. e ≡ of_guide error };

    fn from(error: GuideError) -> Refusal {
        match error {
            GuideError::Memory => Refusal::Memory,
            error => Refusal::Guide(error),
        }
    }
}

impl From<BuildError> for Refusal {
    ghost use Rattle.router.specs.Refusals.{of_build};

    ghost from_gives = { λ error e. e ≡ of_build error };

    fn from(error: BuildError) -> Refusal {
        match error {
            BuildError::Memory => Refusal::Memory,
            error => Refusal::Build(error),
        }
    }
}

/// The status of a design's refusal: 6, or 7 where a count is above its most.
fn build_status(error: &BuildError) -> u8
    ensures { result ≡ build_status error.now }
{
    match error {
        BuildError::Limit { .. } => 7,
        BuildError::Memory => 10,
        BuildError::Scale { .. }
        | BuildError::NoMacro { .. }
        | BuildError::NoComponent { .. }
        | BuildError::NoPin { .. }
        | BuildError::NoLayer { .. }
        | BuildError::NoNet { .. }
        | BuildError::PinTwice { .. }
        | BuildError::Wiring { .. }
        | BuildError::NoTracks { .. } => 6,
    }
}

impl Refusal {
    ghost use Rattle.router.specs.Refusals.{status_of};

    /// The status with which a refused run ends.
    pub fn status(&self) -> u8
        ensures { result ≡ status_of self.now }
    {
        match self {
            Refusal::Words(_) => 2,
            Refusal::Lef(_) => 3,
            Refusal::Def(_) => 4,
            Refusal::Guide(_) => 5,
            Refusal::Build(error) => build_status(error),
            Refusal::LefBytes { .. } | Refusal::DefBytes { .. } | Refusal::GuideBytes { .. } => 7,
            Refusal::Read { .. } => 8,
            Refusal::Write { .. } => 9,
            Refusal::Memory => 10,
        }
    }
}
