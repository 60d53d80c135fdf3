//! Strokes: a walk as straight runs and vias, as DEF writes wiring (DEF NETS, regular wiring).
ghost use Rattle.std.specs.Prelude.{◌≡◌, ◌++◌, ◌<◌, length, OnOk, IfOk};
ghost use Rattle.track_graph.specs.Designs.{IsDesign};
ghost use Rattle.rt_base.specs.Geometry.{nearest_point};
ghost use Rattle.track_graph.specs.Entries.{rect_of};
ghost use Rattle.track_graph.specs.NetWalks.{IsNetEntry, IsNetWalk};
ghost use Rattle.track_graph.specs.Strokes.{run_between, stub_strokes, entry_strokes, is_up, is_same_direction, goes_on, path_strokes, walk_strokes};

use crate::design::Design;
use crate::history::Stroke;
use crate::stubs::{corner, stub_point};
use rt_base::{Edge, EdgeKind, Entry, EntryKind, Memory, Point, Seq, Vertex, Walk};
use std::alloc::Global;

/// Whether b is to the right of a or above it.
fn is_up(a: Point, b: Point) -> bool
    ensures { result ≡ is_up a b }
{
    a.x < b.x || a.y < b.y
}

/// Whether from a to b and from b to c is one way.
fn is_same_direction(a: Point, b: Point, c: Point) -> bool
    ensures { result ≡ is_same_direction a b c }
{
    is_up(a, b) == is_up(b, c)
}

/// Whether the run from a to b goes on with the first of these edges.
fn goes_on(a: Point, b: Point, rest: &[Edge]) -> bool
    ensures { result ≡ goes_on a b rest.now }
{
    match rest.first() {
        Some(next) => next.kind == EdgeKind::Along && is_same_direction(a, b, next.to.point),
        None => false,
    }
}

/// Adds a run, none where its ends are one point.
fn push_run(strokes: &mut Seq<Stroke>, level: u8, a: Point, b: Point) -> Result<(), Memory>
    ensures { OnOk result (strokes.new ≡ strokes.old ++ run_between level a b) }
{
    if a == b {
        return Ok(());
    }
    strokes.push(Stroke::Run { level, a, b })
}

/// Adds the strokes of an entry of a net.
fn push_entry(
    strokes: &mut Seq<Stroke>,
    design: &Design,
    net: u32,
    entry: &Entry,
) -> Result<(), Memory>
    requires design { IsDesign design.now }
    requires entry { IsNetEntry design.now net entry.now }
    ensures { OnOk result (strokes.new ≡ strokes.old ++ entry_strokes design.now net entry.now) }
{
    match entry.kind {
        EntryKind::Pin { .. } => Ok(()),
        EntryKind::Stub { pin, rect } => {
            let v = entry.vertex;
            let from = stub_point(design, net, pin, rect, v.point);
            let turn = corner(from, v);
            push_run(strokes, v.level, from, turn)?;
            push_run(strokes, v.level, turn, v.point)
        }
        EntryKind::Wire => Ok(()),
    }
}

/// Adds the strokes of edges that follow each other from a vertex on.
fn push_path(strokes: &mut Seq<Stroke>, start: Vertex, edges: &[Edge]) -> Result<(), Memory>
    ensures { OnOk result (strokes.new ≡ strokes.old ++ path_strokes start edges.now) }
{
    let mut at = start;
    let mut from = start.point;
    for (i, e) in edges.iter().enumerate() {
        match e.kind {
            EdgeKind::Along => {
                if !goes_on(at.point, e.to.point, &edges[i + 1..]) {
                    strokes.push(Stroke::Run {
                        level: at.level,
                        a: from,
                        b: e.to.point,
                    })?;
                    from = e.to.point;
                }
            }
            EdgeKind::Via(via) => {
                strokes.push(Stroke::Via {
                    via,
                    point: at.point,
                })?;
                from = e.to.point;
            }
        }
        at = e.to;
    }
    Ok(())
}

/// The strokes of edges that follow each other from a vertex on: each maximal group of edges along
/// one track in one direction is one run, and each via is one via, in order. The only error is want
/// of memory.
pub fn edge_strokes(alloc: Global, start: Vertex, edges: &[Edge]) -> Result<Vec<Stroke>, Memory>
    ensures { IfOk result (λ strokes. strokes.items ≡ path_strokes start edges.now) }
{
    let mut strokes = Seq::new(alloc);
    push_path(&mut strokes, start, edges)?;
    Ok(strokes.into_vec())
}

/// The strokes of a walk of a net: those of its start, of its edges and of its finish. A stub has a
/// run in x and then one in y, each of them where it isn't empty. The only error is want of memory.
pub fn strokes(alloc: Global, design: &Design, net: u32, walk: &Walk) -> Result<Vec<Stroke>, Memory>
    requires design { IsDesign design.now }
    requires walk { IsNetWalk design.now net walk.now }
    ensures { IfOk result (λ strokes. strokes.items ≡ walk_strokes design.now net walk.now) }
{
    let mut strokes = Seq::new(alloc);
    push_entry(&mut strokes, design, net, &walk.start)?;
    push_path(&mut strokes, walk.start.vertex, walk.edges.as_slice())?;
    push_entry(&mut strokes, design, net, &walk.finish)?;
    Ok(strokes.into_vec())
}
