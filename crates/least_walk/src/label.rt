//! Labels: what a search has reached so far. Costs of edges and stops are less than 2^64 and there are
//! less than 2^64 labels, so no distance is too great for a `u128`.
use crate::graph::Stop;
use crate::known::Known;
use crate::queue::Queue;
use rt_base::{EdgeKind, Vertex};

/// How a label's vertex was reached.
#[derive(Clone, Copy, Debug)]
pub enum Origin {
    /// From nowhere: it is that of the source with this number.
    Source(usize),
    /// By an edge of this kind from the vertex of the label with this number.
    After(usize, EdgeKind),
}

/// A vertex, what it costs to reach it, and that cost with the bound at the vertex added.
#[derive(Clone, Copy, Debug)]
pub struct Label {
    pub vertex: Vertex,
    pub dist: u128,
    pub key: u128,
    pub origin: Origin,
}

/// All labels so far, whether each is settled, the least label of each vertex that was met, and the
/// labels that wait by their keys.
#[derive(Drop)]
pub struct Search {
    pub labels: Vec<Label>,
    pub settled: Vec<bool>,
    pub known: Known,
    pub queue: Queue,
}

/// A target, the number of the label that it is reached by, and what a walk there costs.
#[derive(Clone, Copy, Debug)]
pub struct Best {
    pub cost: u128,
    pub number: usize,
    pub target: Stop,
}
