//! Bounds on the cost from a vertex to the targets of a search, one for the targets of each pin.
ghost use Rattle.std.specs.Prelude.{◌≡◌, ◌<◌, ◌≤◌, ◌^◌, length, map, All, IfOk};
ghost use Rattle.future_cost.specs.Laws.{IsNear};
ghost use Rattle.future_cost.specs.Under.{under};
ghost use Rattle.future_cost.specs.declared.bound.Bound.{Bound as OfBound};
ghost use Rattle.least_walk.specs.declared.graph.Stop.{Stop as OfStop};
ghost use Rattle.track_graph.specs.Entries.{pin_of};
ghost use Rattle.plain_route.specs.Guided.{AreAimedAt, IsAimedAt, to_stops};

use future_cost::Bound;
use least_walk::Stop;
use rt_base::{EntryKind, Memory, Seq, Vertex};
use std::alloc::Global;
use track_graph::{Design, is_level_horizontal};

/// The pin that an entry of this kind is of.
fn pin_of(kind: EntryKind) -> Option<u32>
    ensures { result ≡ pin_of kind }
{
    match kind {
        EntryKind::Pin { pin } => Some(pin),
        EntryKind::Stub { pin, .. } => Some(pin),
        EntryKind::Wire => None,
    }
}

/// How many of these stops, from the first on, follow each other and are of the first one's pin.
fn group_len(stops: &[Stop]) -> usize
    requires { 0 < length stops.now }
    ensures some { 0 < result }
    ensures within { result ≤ length stops.now }
{
    let pin = pin_of(stops[0].entry.kind);
    let mut end = 1;
    while end < stops.len() && pin_of(stops[end].entry.kind) == pin {
        end += 1;
    }
    end
}

/// The vertices of these stops.
fn stop_vertices(alloc: Global, stops: &[Stop]) -> Result<Vec<Vertex>, Memory>
    ensures { IfOk result (λ vs. vs.items ≡ map (λ (s : OfStop). s.entry.vertex) stops.now) }
{
    Ok(stops.iter().map(|s| s.entry.vertex).collect(alloc)?)
}

/// A bound on the cost from a vertex to any of these stops, at least one.
fn bound_to(alloc: Global, stops: &[Stop], via: u64) -> Result<Bound, Memory>
    requires some { 0 < length stops.now }
    requires near { All (λ (s : OfStop). IsNear s.entry.vertex) stops.now }
    requires via { via ≤ 2 ^ 20 }
    ensures { IfOk result (IsAimedAt stops.now via) }
{
    let vertices = stop_vertices(alloc, stops)?;
    Ok(Bound::new(&vertices, via))
}

/// Bounds on the cost from a vertex to these stops, one for each run of stops of one pin. The only
/// error is want of memory.
pub fn bounds_to(alloc: Global, stops: &[Stop], via: u64) -> Result<Seq<Bound>, Memory>
    requires near { All (λ (s : OfStop). IsNear s.entry.vertex) stops.now }
    requires via { via ≤ 2 ^ 20 }
    ensures { IfOk result (AreAimedAt stops.now via) }
{
    let mut bounds = Seq::new(alloc);
    let mut rest = stops;
    'groups: while !rest.is_empty() {
        let (group, others) = rest.split_at(group_len(rest));
        bounds.push(bound_to(alloc, group, via)?)?;
        rest = others;
    }
    Ok(bounds)
}

/// The least of these bounds of a vertex, the greatest `u64` where there are none. Takes no memory.
pub fn least_bound(design: &Design, bounds: &[Bound], from: &Vertex) -> u64
    requires via { design.now.options.via ≤ 2 ^ 20 }
    requires small { All (λ (b : OfBound). under b from.now < 2 ^ 62) bounds.now }
    ensures { result ≡ to_stops design.now bounds.now from.now }
{
    let horizontal = is_level_horizontal(&design.tech, from.level);
    let mut least = u64::MAX;
    'bounds: for bound in bounds {
        let turns = design.options.via * bound.turns(from, horizontal);
        least = least.min(bound.under(from) + turns);
    }
    least
}
