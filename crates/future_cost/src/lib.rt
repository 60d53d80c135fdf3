//! A bound from below on what a walk to one of some targets costs.
//!
//! The bound of a vertex is how far its point is from the smallest rectangle round the targets, in x
//! and in y, and beside that the cost of a via for each level that it is below or above the targets.
//! Over a step between two vertices it falls by at most what the step costs, as long as a unit of a
//! wire costs 1 at least and a change of level costs `via` at least. So a search may go by it.
#![tactic(auto)]

mod bound;

pub use bound::Bound;
