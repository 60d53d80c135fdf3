//! The nets that a walk crosses, by one pass over its shapes in a store of shapes.
#![tactic(auto)]

mod near;
mod nets;

pub use nets::crossed;
