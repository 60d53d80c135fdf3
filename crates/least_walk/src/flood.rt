//! A flood from the targets, which finds out whether they are walled in.
ghost use Rattle.std.specs.Prelude.{◌≡◌, ◌+◌, ◌<◌, ◌∷◌, [], List, length, IfOk, Contains};
ghost use Rattle.std.specs.Bool.{OnTrue};
ghost use Rattle.rt_base.specs.declared.walk.Vertex.{Vertex as OfVertex};
ghost use Rattle.least_walk.specs.Routes.{IsGraph, AreStarts, HasNoRoute};
ghost use Rattle.least_walk.specs.Flood.{AreKnown, IsFlood, Reaches, Spreads, IsFloodFrom};

use crate::graph::{Graph, Stop};
use crate::known::Known;
use rt_base::{Edge, Memory, Seq, Vertex};
use std::alloc::Global;

/// The vertices that a flood has reached: a table of them, and all in the order in which they were
/// met.
#[derive(Drop)]
pub struct Flood {
    pub reached: Known,
    pub queue: Vec<Vertex>,
}

impl Flood {
    /// Nothing is reached. Takes no memory.
    pub fn new(alloc: Global) -> Flood {
        Flood {
            reached: Known::new(alloc),
            queue: Vec::new(alloc),
        }
    }

    /// Takes all vertices away, and keeps the memory.
    fn clear(&mut self)
        ensures reached { self.new.reached ≡ [] }
        ensures queue { self.new.queue.items ≡ [] }
    {
        self.reached.clear();
        self.queue.clear();
    }

    /// Reaches a vertex. False where others met it.
    fn reach(&mut self, met: &Known, vertex: Vertex) -> Result<bool, Memory>
        ensures { (vertices : List OfVertex) → IsFlood vertices met.now self.old → Contains vertices vertex → IfOk result (λ apart. OnTrue apart (Reaches vertices met.now vertex self.old self.new)) }
    {
        if self.reached.get(vertex).is_some() {
            return Ok(true);
        }
        if met.get(vertex).is_some() {
            return Ok(false);
        }
        self.reached.set(vertex, self.queue.len())?;
        self.queue.push(vertex)?;
        Ok(true)
    }

    /// Reaches what an edge from a vertex leads to. False where others met it.
    fn follow<G: Graph>(
        &mut self,
        graph: &G,
        met: &Known,
        from: Vertex,
        edge: Edge,
    ) -> Result<bool, Memory>
        requires whole { G.IsWhole graph.now }
        requires graph { IsGraph (G.vertices graph.now) (G.HasEdge graph.now) (G.bound_of graph.now) }
        requires from { Contains (G.vertices graph.now) from }
        requires flood { IsFlood (G.vertices graph.now) met.now self.old }
        ensures { IfOk result (λ apart. OnTrue apart (Spreads (G.vertices graph.now) (G.HasEdge graph.now) met.now from (edge ∷ []) self.old self.new)) }
    {
        if self.reached.get(edge.to).is_some() {
            return Ok(true);
        }
        if graph.cost(from, &edge).is_none() {
            return Ok(true);
        }
        self.reach(met, edge.to)
    }

    /// Reaches what these edges from a vertex lead to. False where others met one of that.
    fn spread<G: Graph>(
        &mut self,
        graph: &G,
        met: &Known,
        from: Vertex,
        edges: &[Edge],
    ) -> Result<bool, Memory>
        requires whole { G.IsWhole graph.now }
        requires graph { IsGraph (G.vertices graph.now) (G.HasEdge graph.now) (G.bound_of graph.now) }
        requires from { Contains (G.vertices graph.now) from }
        requires flood { IsFlood (G.vertices graph.now) met.now self.old }
        ensures { IfOk result (λ apart. OnTrue apart (Spreads (G.vertices graph.now) (G.HasEdge graph.now) met.now from edges.now self.old self.new)) }
    {
        for edge in edges {
            if !self.follow(graph, met, from, *edge)? {
                return Ok(false);
            }
        }
        Ok(true)
    }

    /// Reaches what the edges from a vertex of the queue lead to. False where others met one of that.
    fn expand<G: Graph>(
        &mut self,
        graph: &G,
        targets: &[Stop],
        met: &Known,
        edges: &mut Seq<Edge>,
        place: usize,
    ) -> Result<bool, Memory>
        requires whole { G.IsWhole graph.now }
        requires graph { IsGraph (G.vertices graph.now) (G.HasEdge graph.now) (G.bound_of graph.now) }
        requires place { place < length self.old.queue.items }
        requires flood { IsFloodFrom (G.vertices graph.now) (G.HasEdge graph.now) met.now targets.now place self.old }
        ensures { IfOk result (λ apart. OnTrue apart (IsFloodFrom (G.vertices graph.now) (G.HasEdge graph.now) met.now targets.now (place + 1) self.new)) }
    {
        let from = self.queue[place];
        edges.items.clear();
        graph.edges(from, edges)?;
        self.spread(graph, met, from, edges.as_slice())
    }

    /// Reaches the targets alone. False where others met one.
    fn start<G: Graph>(&mut self, graph: &G, targets: &[Stop], met: &Known) -> Result<bool, Memory>
        requires targets { AreStarts (G.vertices graph.now) targets.now }
        ensures { IfOk result (λ apart. OnTrue apart (IsFloodFrom (G.vertices graph.now) (G.HasEdge graph.now) met.now targets.now 0 self.new)) }
    {
        self.clear();
        for target in targets {
            if !self.reach(met, target.entry.vertex)? {
                return Ok(false);
            }
        }
        Ok(true)
    }

    /// Whether the targets are found to be walled in: what can be reached from them has at most so
    /// many vertices, and others met none of these. Where the answer is false, nothing is said.
    pub fn is_cut_off<G: Graph>(
        &mut self,
        graph: &G,
        sources: &[Stop],
        targets: &[Stop],
        met: &Known,
        edges: &mut Seq<Edge>,
        most: usize,
    ) -> Result<bool, Memory>
        requires whole { G.IsWhole graph.now }
        requires graph { IsGraph (G.vertices graph.now) (G.HasEdge graph.now) (G.bound_of graph.now) }
        requires sources { AreStarts (G.vertices graph.now) sources.now }
        requires targets { AreStarts (G.vertices graph.now) targets.now }
        requires met { AreKnown met.now sources.now }
        ensures { IfOk result (λ cut. OnTrue cut (HasNoRoute (G.HasEdge graph.now) sources.now targets.now)) }
    {
        if !self.start(graph, targets, met)? {
            return Ok(false);
        }
        for place in 0..most {
            if place == self.queue.len() {
                return Ok(true);
            }
            if !self.expand(graph, targets, met, edges, place)? {
                return Ok(false);
            }
        }
        Ok(self.queue.len() <= most)
    }
}
