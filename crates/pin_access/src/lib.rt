//! Entries of pins: where the wires of a net may start and finish.
#![tactic(auto)]

mod area;
mod bands;
mod counting;
mod die_tracks;
mod listing;

pub use counting::count_entries;
pub use die_tracks::{DieTracks, ascend};
pub use listing::entries;
