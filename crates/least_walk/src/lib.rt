//! A route of least cost in a graph that is given by a trait, sought towards its targets.
#![tactic(auto)]

mod answer;
mod ends;
mod explore;
mod flood;
mod graph;
mod known;
mod label;
mod queue;
mod search;
mod tables;
#[cfg(test)]
mod tests;

pub use answer::least_walk;
pub use graph::{Graph, Stop};
pub use tables::Tables;
