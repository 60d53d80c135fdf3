//! The reader of DEF.
#![tactic(auto)]

mod blockages;
mod components;
mod def;
mod error;
mod kinds;
mod nets;
mod parts;
mod pins;
mod polygons;
mod read;
mod sections;
mod special;
mod statements;
#[cfg(test)]
mod tests;
mod tracks;
mod vias;
mod wiring;

pub use def::{Component, Def, DefNet, DefVia, IoPin, TrackRow};
pub use error::DefError;
pub use read::{read_def, read_def_tokens, read_units, read_units_tokens};
