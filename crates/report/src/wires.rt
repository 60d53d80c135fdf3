//! How long the standing wires are, and how many vias they have.
ghost use Rattle.std.specs.Prelude.{◌≡◌, ◌+◌, IfOk, sum_by};
ghost use Rattle.std.specs.List.{enumerate_from};
ghost use Rattle.rt_base.specs.Geometry.{distance};
ghost use Rattle.track_graph.specs.Entries.{rect_of};
ghost use Rattle.report.specs.Lines.{kind_wire, edge_wire, path_wire, walk_wire, walk_vias, net_wire, net_vias, is_via};

use crate::counts::sum;
use rt_base::{Edge, EdgeKind, Entry, EntryKind, Memory, Point, Rect, Vertex, Walk};
use track_graph::{Design, NetState};

/// The distance in x plus the distance in y.
fn units_between(p: Point, q: Point) -> u128
    ensures { result ≡ distance p q }
{
    u128::from(p.x.abs_diff(q.x)) + u128::from(p.y.abs_diff(q.y))
}

/// A rectangle of a pin by its numbers; a point at (0, 0) where there is none.
fn pin_rect(design: &Design, net: usize, pin: u32, rect: u32) -> Rect
    ensures { result ≡ rect_of design.now net pin rect }
{
    let none = Rect {
        xl: 0,
        yl: 0,
        xh: 0,
        yh: 0,
    };
    let Some(net) = design.nets.as_slice().get(net) else {
        return none;
    };
    let Some(pin) = net.pins.as_slice().get(pin as usize) else {
        return none;
    };
    match pin.rects.as_slice().get(rect as usize) {
        Some(metal) => metal.1,
        None => none,
    }
}

/// The length of an entry's stub.
fn entry_wire(design: &Design, net: usize, entry: &Entry) -> u128
    ensures { result ≡ kind_wire design.now net entry.now.kind entry.now.vertex }
{
    match entry.kind {
        EntryKind::Pin { .. } => 0,
        EntryKind::Stub { pin, rect } => {
            let to = entry.vertex.point;
            units_between(pin_rect(design, net, pin, rect).nearest(to), to)
        }
        EntryKind::Wire => 0,
    }
}

fn edge_wire(v: Vertex, e: &Edge) -> u128
    ensures { result ≡ edge_wire e.now.kind v e.now.to }
{
    match e.kind {
        EdgeKind::Along => units_between(v.point, e.to.point),
        EdgeKind::Via(_) => 0,
    }
}

fn path_wire(start: Vertex, edges: &[Edge]) -> Result<u128, Memory>
    ensures { IfOk result (λ n. n ≡ path_wire start edges.now) }
{
    let mut total = 0;
    let mut at = start;
    for e in edges {
        total = sum(total, edge_wire(at, e))?;
        at = e.to;
    }
    Ok(total)
}

fn walk_wire(design: &Design, net: usize, walk: &Walk) -> Result<u128, Memory>
    ensures { IfOk result (λ n. n ≡ walk_wire design.now net walk.now) }
{
    let start = entry_wire(design, net, &walk.start);
    let path = path_wire(walk.start.vertex, walk.edges.as_slice())?;
    let finish = entry_wire(design, net, &walk.finish);
    sum(sum(start, path)?, finish)
}

fn net_wire(design: &Design, net: usize, state: &NetState) -> Result<u128, Memory>
    ensures { IfOk result (λ n. n ≡ net_wire design.now (net, state.now)) }
{
    let mut total = 0;
    for walk in state.walks.as_slice() {
        total = sum(total, walk_wire(design, net, walk)?)?;
    }
    Ok(total)
}

fn is_via(e: &Edge) -> bool
    ensures { result ≡ is_via e.now.kind }
{
    match e.kind {
        EdgeKind::Along => false,
        EdgeKind::Via(_) => true,
    }
}

fn walk_vias(walk: &Walk) -> usize
    ensures { result ≡ walk_vias walk.now }
{
    walk.edges.as_slice().iter().filter(|e| is_via(e)).count()
}

fn net_vias(state: &NetState) -> Result<u128, Memory>
    ensures { IfOk result (λ n. n ≡ net_vias state.now) }
{
    let mut total = 0;
    for walk in state.walks.as_slice() {
        total = sum(total, walk_vias(walk) as u128)?;
    }
    Ok(total)
}

/// The length of all standing walks along tracks and of their stubs.
pub fn wire(design: &Design, states: &[NetState]) -> Result<u128, Memory>
    ensures { IfOk result (λ n. n ≡ sum_by (net_wire design.now) (enumerate_from 0 states.now)) }
{
    let mut total = 0;
    for (i, state) in states.iter().enumerate() {
        total = sum(total, net_wire(design, i, state)?)?;
    }
    Ok(total)
}

/// The vias of all standing walks.
pub fn vias(states: &[NetState]) -> Result<u128, Memory>
    ensures { IfOk result (λ n. n ≡ sum_by net_vias states.now) }
{
    let mut total = 0;
    for state in states {
        total = sum(total, net_vias(state)?)?;
    }
    Ok(total)
}
