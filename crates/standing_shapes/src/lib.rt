//! The shapes that stand in a state, in a store of shapes.
#![tactic(auto)]

mod block;
mod put;
mod take;

pub use block::add_block;
pub use put::{add_shapes, add_state, add_walk, stored};
pub use take::{take_shapes, take_walks};
