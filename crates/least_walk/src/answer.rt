//! The answer of a search.
ghost use Rattle.std.specs.Prelude.{◌<◌, length, OnOk, IfOk, IfSome, IfNone};
ghost use Rattle.least_walk.specs.Routes.{IsGraph, AreStarts, AreEnds, IsLeastRoute, HasNoRoute};
ghost use Rattle.least_walk.specs.Labels.{OriginsFall, IsTrailFrom};
ghost use Rattle.least_walk.specs.Search.{IsSound};
ghost use Rattle.least_walk.specs.Ends.{IsLeastFinish};

use crate::ends::note_ends;
use crate::graph::{Graph, Stop};
use crate::label::{Best, Label, Origin};
use crate::tables::Tables;
use rt_base::{Edge, Memory, Seq, Walk};
use std::alloc::Global;

/// The number of the source that a label was reached from, and the edges from there to its vertex.
fn trace(alloc: Global, labels: &[Label], number: usize) -> Result<(usize, Seq<Edge>), Memory>
    requires falls { OriginsFall labels.now }
    requires number { number < length labels.now }
    ensures { IfOk result (λ w. IsTrailFrom labels.now w.0 w.1 number) }
{
    let mut edges = Vec::new(alloc);
    let mut at = number;
    loop {
        match labels[at].origin {
            Origin::Source(place) => {
                edges.reverse();
                return Ok((place, Seq::from_vec(edges)));
            }
            Origin::After(before, kind) => {
                edges.push(Edge {
                    kind,
                    to: labels[at].vertex,
                })?;
                at = before;
            }
        }
    }
}

/// How many vertices a search settles before it looks whether its targets are walled in, and how many
/// that look goes through.
const BRIEF: usize = 1_000;

/// A finish of least cost, or `None` where there is no route. After so many vertices the search looks
/// once whether its targets are walled in by no more.
fn best_finish<G: Graph>(
    graph: &G,
    sources: &[Stop],
    targets: &[Stop],
    tables: &mut Tables,
    brief: usize,
) -> Result<Option<Best>, Memory>
    requires whole { G.IsWhole graph.now }
    requires graph { IsGraph (G.vertices graph.now) (G.HasEdge graph.now) (G.bound_of graph.now) }
    requires sources { AreStarts (G.vertices graph.now) sources.now }
    requires targets { AreEnds (G.vertices graph.now) (G.bound_of graph.now) targets.now }
    ensures sound { OnOk result (IsSound (G.vertices graph.now) (G.HasEdge graph.now) (G.bound_of graph.now) sources.now tables.new.search) }
    ensures least { IfOk result (λ best. IfSome best (IsLeastFinish (G.HasEdge graph.now) sources.now targets.now tables.new.search)) }
    ensures none { IfOk result (λ best. IfNone best (HasNoRoute (G.HasEdge graph.now) sources.now targets.now)) }
{
    let Tables {
        search,
        ends,
        flood,
        edges,
    } = tables;
    note_ends(ends, targets)?;
    search.start(graph, sources)?;
    let mut best = None;
    if search.try_run(graph, sources, targets, ends, edges, &mut best, brief)? {
        return Ok(best);
    }
    if flood.is_cut_off(graph, sources, targets, &search.known, edges, brief)? {
        return Ok(None);
    }
    search.run(graph, sources, targets, ends, edges, &mut best)?;
    Ok(best)
}

/// A walk of least cost from a source to a target, or `None` where no walk leads from any source to
/// any target. A walk costs what its start, its edges and its finish cost together; it may have no
/// edge. Where several walks cost least, any of them is answered. The tables may be any, before and
/// after. `Memory` comes for want of memory alone.
pub fn least_walk<G: Graph>(
    alloc: Global,
    graph: &G,
    sources: &[Stop],
    targets: &[Stop],
    tables: &mut Tables,
) -> Result<Option<Walk>, Memory>
    requires whole { G.IsWhole graph.now }
    requires graph { IsGraph (G.vertices graph.now) (G.HasEdge graph.now) (G.bound_of graph.now) }
    requires sources { AreStarts (G.vertices graph.now) sources.now }
    requires targets { AreEnds (G.vertices graph.now) (G.bound_of graph.now) targets.now }
    ensures least { IfOk result (λ answer. IfSome answer (IsLeastRoute (G.HasEdge graph.now) sources.now targets.now)) }
    ensures none { IfOk result (λ answer. IfNone answer (HasNoRoute (G.HasEdge graph.now) sources.now targets.now)) }
{
    let Some(best) = best_finish(graph, sources, targets, tables, BRIEF)? else {
        return Ok(None);
    };
    let (place, edges) = trace(alloc, tables.search.labels.as_slice(), best.number)?;
    Ok(Some(Walk {
        start: sources[place].entry,
        edges,
        finish: best.target.entry,
    }))
}
