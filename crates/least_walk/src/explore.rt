//! The search from the sources on.
ghost use Rattle.std.specs.Prelude.{◌≡◌, ◌+◌, ◌<◌, ◌++◌, ◌∷◌, [], length, OnOk, IfOk, option_map, List};
ghost use Rattle.rt_base.specs.declared.walk.Edge.{Edge as OfEdge};
ghost use Rattle.least_walk.specs.Routes.{IsGraph, AreStarts, HoldsEdges};
ghost use Rattle.least_walk.specs.Queue.{NoneBelow};
ghost use Rattle.std.specs.Bool.{OnFalse, OnTrue};
ghost use Rattle.least_walk.specs.Search.{IsSound, IsMid, IsStarted, Keeps, open_count};
ghost use Rattle.least_walk.specs.Ends.{IsEnds, IsUnderway};

use crate::ends::limit_of;
use crate::graph::{Graph, Stop};
use crate::known::Known;
use crate::label::{Best, Label, Origin, Search};
use rt_base::{Edge, Memory, Seq};

impl Search {
    /// Adds a label for what an edge from a settled vertex leads to, unless that is settled or has a
    /// label that is as near. The cost of the edge is asked for only where its least cost would lead
    /// nearer.
    fn follow<G: Graph>(
        &mut self,
        graph: &G,
        sources: &[Stop],
        number: usize,
        edge: Edge,
    ) -> Result<(), Memory>
        requires whole { G.IsWhole graph.now }
        requires graph { IsGraph (G.vertices graph.now) (G.HasEdge graph.now) (G.bound_of graph.now) }
        requires mid { IsMid (G.vertices graph.now) (G.HasEdge graph.now) (G.bound_of graph.now) sources.now self.old number [] }
        ensures mid { OnOk result ((done : List OfEdge) → IsMid (G.vertices graph.now) (G.HasEdge graph.now) (G.bound_of graph.now) sources.now self.old number done → IsMid (G.vertices graph.now) (G.HasEdge graph.now) (G.bound_of graph.now) sources.now self.new number (done ++ edge ∷ [])) }
        ensures extends { OnOk result (Keeps self.old self.new) }
    {
        let met = self.known.get(edge.to);
        if self.is_settled(met) {
            return Ok(());
        }
        let labels = self.labels.as_slice();
        let from = labels[number];
        let nearest = from.dist + graph.least(from.vertex, &edge) as u128;
        if !self.is_nearer(met, nearest) {
            return Ok(());
        }
        let Some(cost) = graph.cost(from.vertex, &edge) else {
            return Ok(());
        };
        let dist = from.dist + cost as u128;
        if !self.is_nearer(met, dist) {
            return Ok(());
        }
        self.add(Label {
            vertex: edge.to,
            dist,
            key: dist + graph.bound(edge.to) as u128,
            origin: Origin::After(number, edge.kind),
        })?;
        Ok(())
    }

    /// Follows edges from a settled vertex.
    fn relax<G: Graph>(
        &mut self,
        graph: &G,
        sources: &[Stop],
        number: usize,
        edges: &[Edge],
    ) -> Result<(), Memory>
        requires whole { G.IsWhole graph.now }
        requires graph { IsGraph (G.vertices graph.now) (G.HasEdge graph.now) (G.bound_of graph.now) }
        requires mid { IsMid (G.vertices graph.now) (G.HasEdge graph.now) (G.bound_of graph.now) sources.now self.old number [] }
        ensures mid { OnOk result (IsMid (G.vertices graph.now) (G.HasEdge graph.now) (G.bound_of graph.now) sources.now self.new number edges.now) }
        ensures extends { OnOk result (Keeps self.old self.new) }
    {
        for edge in edges {
            self.follow(graph, sources, number, *edge)?;
        }
        Ok(())
    }

    /// Follows all edges from the vertex that was settled last.
    fn expand<G: Graph>(
        &mut self,
        graph: &G,
        sources: &[Stop],
        number: usize,
        edges: &mut Seq<Edge>,
    ) -> Result<(), Memory>
        requires whole { G.IsWhole graph.now }
        requires graph { IsGraph (G.vertices graph.now) (G.HasEdge graph.now) (G.bound_of graph.now) }
        requires mid { IsMid (G.vertices graph.now) (G.HasEdge graph.now) (G.bound_of graph.now) sources.now self.old number [] }
        ensures sound { OnOk result (IsSound (G.vertices graph.now) (G.HasEdge graph.now) (G.bound_of graph.now) sources.now self.new) }
        ensures extends { OnOk result (Keeps self.old self.new) }
    {
        edges.items.clear();
        graph.edges(self.labels[number].vertex, edges)?;
        self.relax(graph, sources, number, edges.as_slice())?;
        Ok(())
    }

    /// Adds a label for a source, unless its vertex has one that is as near.
    fn start_at<G: Graph>(
        &mut self,
        graph: &G,
        sources: &[Stop],
        place: usize,
    ) -> Result<(), Memory>
        requires whole { G.IsWhole graph.now }
        requires sources { AreStarts (G.vertices graph.now) sources.now }
        requires place { place < length sources.now }
        requires started { IsStarted (G.vertices graph.now) (G.HasEdge graph.now) (G.bound_of graph.now) sources.now place self.old }
        ensures { OnOk result (IsStarted (G.vertices graph.now) (G.HasEdge graph.now) (G.bound_of graph.now) sources.now (place + 1) self.new) }
    {
        let source = sources[place];
        let vertex = source.entry.vertex;
        let dist = source.cost as u128;
        if !self.is_nearer(self.known.get(vertex), dist) {
            return Ok(());
        }
        self.add(Label {
            vertex,
            dist,
            key: dist + graph.bound(vertex) as u128,
            origin: Origin::Source(place),
        })?;
        Ok(())
    }

    /// Takes all labels away, and adds those of the sources.
    pub fn start<G: Graph>(&mut self, graph: &G, sources: &[Stop]) -> Result<(), Memory>
        requires whole { G.IsWhole graph.now }
        requires sources { AreStarts (G.vertices graph.now) sources.now }
        ensures { OnOk result (IsStarted (G.vertices graph.now) (G.HasEdge graph.now) (G.bound_of graph.now) sources.now (length sources.now) self.new) }
    {
        self.clear();
        for place in 0..sources.len() {
            self.start_at(graph, sources, place)?;
        }
        Ok(())
    }

    /// Settles a vertex of least key, where that is below the cost of the best finish, and follows its
    /// edges. False where there is none.
    fn step<G: Graph>(
        &mut self,
        graph: &G,
        sources: &[Stop],
        targets: &[Stop],
        ends: &Known,
        edges: &mut Seq<Edge>,
        best: &mut Option<Best>,
    ) -> Result<bool, Memory>
        requires whole { G.IsWhole graph.now }
        requires graph { IsGraph (G.vertices graph.now) (G.HasEdge graph.now) (G.bound_of graph.now) }
        requires ends { IsEnds targets.now (length targets.now) ends.now }
        requires underway { IsUnderway (G.vertices graph.now) (G.HasEdge graph.now) (G.bound_of graph.now) sources.now targets.now self.old best.old }
        ensures underway { OnOk result (IsUnderway (G.vertices graph.now) (G.HasEdge graph.now) (G.bound_of graph.now) sources.now targets.now self.new best.new) }
        ensures fewer { IfOk result (λ more. OnTrue more (open_count self.new.settled.items self.new.known (G.vertices graph.now) < open_count self.old.settled.items self.old.known (G.vertices graph.now))) }
        ensures done { IfOk result (λ more. OnFalse more (NoneBelow (option_map (λ b. b.cost) best.new) self.new.queue)) }
    {
        let Some(number) = self.settle_next(limit_of(*best)) else {
            return Ok(false);
        };
        *best = self.improve(ends, targets, number, *best);
        self.expand(graph, sources, number, edges)?;
        Ok(true)
    }

    /// Settles at most so many vertices in the order of their keys, and says whether none is below the
    /// cost of the best finish then.
    pub fn try_run<G: Graph>(
        &mut self,
        graph: &G,
        sources: &[Stop],
        targets: &[Stop],
        ends: &Known,
        edges: &mut Seq<Edge>,
        best: &mut Option<Best>,
        most: usize,
    ) -> Result<bool, Memory>
        requires whole { G.IsWhole graph.now }
        requires graph { IsGraph (G.vertices graph.now) (G.HasEdge graph.now) (G.bound_of graph.now) }
        requires ends { IsEnds targets.now (length targets.now) ends.now }
        requires underway { IsUnderway (G.vertices graph.now) (G.HasEdge graph.now) (G.bound_of graph.now) sources.now targets.now self.old best.old }
        ensures underway { OnOk result (IsUnderway (G.vertices graph.now) (G.HasEdge graph.now) (G.bound_of graph.now) sources.now targets.now self.new best.new) }
        ensures done { IfOk result (λ done. OnTrue done (NoneBelow (option_map (λ b. b.cost) best.new) self.new.queue)) }
    {
        'steps: for _ in 0..most {
            if !self.step(graph, sources, targets, ends, edges, best)? {
                return Ok(true);
            }
        }
        Ok(false)
    }

    /// Settles vertices in the order of their keys until none is below the cost of the best finish.
    pub fn run<G: Graph>(
        &mut self,
        graph: &G,
        sources: &[Stop],
        targets: &[Stop],
        ends: &Known,
        edges: &mut Seq<Edge>,
        best: &mut Option<Best>,
    ) -> Result<(), Memory>
        requires whole { G.IsWhole graph.now }
        requires graph { IsGraph (G.vertices graph.now) (G.HasEdge graph.now) (G.bound_of graph.now) }
        requires ends { IsEnds targets.now (length targets.now) ends.now }
        requires underway { IsUnderway (G.vertices graph.now) (G.HasEdge graph.now) (G.bound_of graph.now) sources.now targets.now self.old best.old }
        ensures underway { OnOk result (IsUnderway (G.vertices graph.now) (G.HasEdge graph.now) (G.bound_of graph.now) sources.now targets.now self.new best.new) }
        ensures done { OnOk result (NoneBelow (option_map (λ b. b.cost) best.new) self.new.queue) }
    {
        'steps: while self.step(graph, sources, targets, ends, edges, best)? {}
        Ok(())
    }
}
