//! Least walks in the smallest graph.
ghost use Rattle.std.specs.Prelude.{◌≡◌, ◌↔◌, All, IsTrue};

use crate::flood::Flood;
use crate::known::Known;
use crate::{Graph, Stop, Tables, least_walk};
use rt_base::{Edge, Entry, EntryKind, Memory, Point, Seq, Vertex};
use std::alloc::Global;
use std::process::Abort;
use std::test::Fail;

/// A vertex from which no edge leads.
#[derive(Clone, Copy, Debug, PartialEq, Eq)]
struct Lone {
    vertex: Vertex,
}

impl Graph for Lone {
    ghost use Rattle.std.specs.Prelude.{⊤, [], ◌∷◌};

    ghost IsWhole = { λ _. ⊤ };

    ghost vertices = { λ g. g.vertex ∷ [] };

    ghost HasEdge = { λ g v e c. ⊥ };

    ghost bound_of = { λ g v. 0 };

    fn edges(&self, _from: Vertex, _edges: &mut Seq<Edge>) -> Result<(), Memory> {
        Ok(())
    }

    fn cost(&self, _from: Vertex, _edge: &Edge) -> Option<u64> {
        None
    }

    fn least(&self, _from: Vertex, _edge: &Edge) -> u64 {
        0
    }

    fn bound(&self, _from: Vertex) -> u64 {
        0
    }
}

/// A pin at a vertex.
fn stop(vertex: Vertex, pin: u32, cost: u64) -> Stop {
    Stop {
        entry: Entry {
            vertex,
            kind: EntryKind::Pin { pin },
        },
        cost,
    }
}

/// Whether each stop is at a vertex.
fn are_at(vertex: Vertex, stops: &[Stop]) -> bool
    ensures { IsTrue result ↔ All (λ s. s.entry.vertex ≡ vertex) stops.now }
{
    stops.iter().all(|s| s.entry.vertex == vertex)
}

/// Checks the ends of the least walk, or that there is none.
fn expect(
    rt: &impl Abort,
    alloc: Global,
    tables: &mut Tables,
    graph: &Lone,
    sources: &[Stop],
    targets: &[Stop],
    want: Option<(EntryKind, EntryKind)>,
) -> Result<(), Fail> {
    assert!(rt; are_at(graph.vertex, sources));
    assert!(rt; are_at(graph.vertex, targets));
    let walk = least_walk(alloc, graph, sources, targets, tables)?;
    let ends = walk.map(|w| (w.start.kind, w.finish.kind));
    assert_eq!(rt; ends, want);
    Ok(())
}

/// Checks whether a flood of at most so many vertices finds the targets walled in.
fn expect_cut_off(
    rt: &impl Abort,
    alloc: Global,
    graph: &Lone,
    targets: &[Stop],
    met: &Known,
    most: usize,
    want: bool,
) -> Result<(), Fail> {
    assert!(rt; are_at(graph.vertex, targets));
    let mut flood = Flood::new(alloc);
    let cut = flood.is_cut_off(graph, &[], targets, met, &mut Seq::new(alloc), most)?;
    assert_eq!(rt; cut, want);
    Ok(())
}

#[test]
fn cheaper_stops(rt: HostRuntime) -> Result<(), Fail> {
    let vertex = Vertex {
        level: 1,
        point: Point { x: 3, y: -4 },
    };
    let a = rt.alloc();
    let graph = Lone { vertex };
    let mut tables = Tables::new(a);
    let sources = [stop(vertex, 0, 7), stop(vertex, 1, 5), stop(vertex, 2, 6)];
    let targets = [stop(vertex, 3, 9), stop(vertex, 4, 2)];
    let want = Some((EntryKind::Pin { pin: 1 }, EntryKind::Pin { pin: 4 }));
    expect(&rt, a, &mut tables, &graph, &sources, &targets, want)?;
    expect(&rt, a, &mut tables, &graph, &sources, &[], None)?;
    expect(&rt, a, &mut tables, &graph, &[], &targets, None)
}

#[test]
fn walled_in_targets(rt: HostRuntime) -> Result<(), Fail> {
    let vertex = Vertex {
        level: 1,
        point: Point { x: 3, y: -4 },
    };
    let a = rt.alloc();
    let graph = Lone { vertex };
    let mut met = Known::new(a);
    let targets = [stop(vertex, 0, 7), stop(vertex, 1, 5)];
    expect_cut_off(&rt, a, &graph, &targets, &met, 0, false)?;
    expect_cut_off(&rt, a, &graph, &targets, &met, 1, true)?;
    expect_cut_off(&rt, a, &graph, &targets, &met, 2, true)?;
    met.set(vertex, 0)?;
    expect_cut_off(&rt, a, &graph, &targets, &met, 2, false)
}
