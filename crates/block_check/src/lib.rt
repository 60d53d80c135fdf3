//! Whether a block is right in a state.
#![tactic(auto)]

mod check;
mod cost;
mod least;
mod rightness;
mod starts;

pub use rightness::{right, right_in};
