//! Where wires of a net may stand along a track line, by arithmetic on spans in place of a test at each
//! position.
#![tactic(auto)]

mod band;
mod blocked;
mod found;
mod mover;
mod owner;
mod row;
mod rule;

pub use blocked::Blocked;
pub use mover::Mover;
pub use owner::{OtherOwner, Others};
pub use rule::{WireRule, forbidden};
