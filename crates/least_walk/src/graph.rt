//! Graphs and stops.
ghost use Rattle.std.specs.Prelude.{◌≡◌, ◌≤◌, ℕ, List, OnOk, IfSome, IfNone, Contains};
ghost use Rattle.rt_base.specs.declared.walk.Vertex.{Vertex as OfVertex};
ghost use Rattle.rt_base.specs.declared.walk.Edge.{Edge as OfEdge};
ghost use Rattle.least_walk.specs.Routes.{HoldsEdges};

use rt_base::{Edge, Entry, Memory, Seq, Vertex};

/// A place where a walk may start or finish, at a cost.
#[derive(Clone, Copy, Debug, PartialEq, Eq)]
pub struct Stop {
    pub entry: Entry,
    pub cost: u64,
}

/// A graph that is asked for its edges, and is never built.
pub trait Graph {
    /// What the calls below need of the graph.
    ghost IsWhole: { Self → Type 0 };

    /// Its vertices.
    ghost vertices: { Self → List OfVertex };

    /// Whether an edge leads on from a vertex at this cost.
    ghost HasEdge: { Self → OfVertex → OfEdge → ℕ → Type 0 };

    /// A number that is at most the cost from a vertex to any target.
    ghost bound_of: { Self → OfVertex → ℕ };

    /// Adds to `edges` all edges that lead on from a vertex, and perhaps others, in any order. The
    /// error comes for want of memory alone; some may have been added then.
    fn edges(&self, from: Vertex, edges: &mut Seq<Edge>) -> Result<(), Memory>
        requires whole { IsWhole self.now }
        requires from { Contains (vertices self.now) from }
        ensures all { OnOk result (HoldsEdges (HasEdge self.now) from edges.new) };

    /// What it costs to follow an edge from a vertex, `None` where it doesn't lead on from there.
    /// Takes no memory.
    fn cost(&self, from: Vertex, edge: &Edge) -> Option<u64>
        requires whole { IsWhole self.now }
        requires from { Contains (vertices self.now) from }
        ensures some { IfSome result (HasEdge self.now from edge.now) }
        ensures none { IfNone result ((c : ℕ) → HasEdge self.now from edge.now c → ⊥) };

    /// A number that is at most what it costs to follow an edge from a vertex. Takes no memory.
    fn least(&self, from: Vertex, edge: &Edge) -> u64
        requires whole { IsWhole self.now }
        requires from { Contains (vertices self.now) from }
        ensures { (c : ℕ) → HasEdge self.now from edge.now c → result ≤ c };

    /// A number that is at most the cost from a vertex to any target. Takes no memory.
    fn bound(&self, from: Vertex) -> u64
        requires whole { IsWhole self.now }
        requires from { Contains (vertices self.now) from }
        ensures { result ≡ bound_of self.now from };
}
