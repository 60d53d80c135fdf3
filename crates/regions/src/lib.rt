//! The parts of track lines in a net's guide, the halo, and the tiles that a guide with the halo
//! around it meets.
#![tactic(auto)]

mod cover;
mod margin;
mod spans;
#[cfg(test)]
mod tests;
mod tiles;

pub use cover::{Line, covered, covered_along};
pub use margin::halo;
pub use spans::maximal_spans;
pub use tiles::tiles_of;
