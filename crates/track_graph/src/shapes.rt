//! Shapes that edges, entries and walks put down.
ghost use Rattle.std.specs.Prelude.{◌≡◌, ℕ, ◌++◌, ◌^◌, ◌<◌, ◌≤ℤ◌, pos, length, OnOk, IfOk};
ghost use Rattle.track_graph.specs.Designs.{IsDesign, IsTech};
ghost use Rattle.rt_base.specs.Ranges.{IsPointWithin};
ghost use Rattle.track_graph.specs.Edges.{IsEdge, edge_metal};
ghost use Rattle.track_graph.specs.Entries.{piece_metal, stub_metal, entry_part};
ghost use Rattle.rt_base.specs.Geometry.{hull_of};
ghost use Rattle.track_graph.specs.Levels.{track_system_of, layer_no};
ghost use Rattle.track_graph.specs.Metal.{half_width, wire_metal, via_metal, shape_of, shapes_of};
ghost use Rattle.rt_base.specs.Geometry.{moved};
ghost use Rattle.track_graph.specs.NetWalks.{IsNetEntry, IsNetWalk};
ghost use Rattle.track_graph.specs.Walks.{IsPath, path_parts, parts_shapes, walk_shapes_of};

use crate::design::Design;
use crate::levels::level_layer;
use crate::stubs::{corner, stub_point};
use rt_base::{
    Edge, EdgeKind, Entry, EntryKind, LayerNo, Memory, Owner, Point, Rect, Seq, Shape, Tech,
    Vertex, Walk,
};
use std::alloc::Global;

/// The layer of a level.
fn layer_at(tech: &Tech, level: u8) -> LayerNo
    requires { IsTech tech.now }
    ensures { result.0 ≡ layer_no tech.now level }
{
    match level_layer(tech, level) {
        Some((number, _)) => LayerNo(number as u32),
        None => LayerNo(0),
    }
}

/// Half a level's width.
fn half_width(tech: &Tech, level: u8) -> i64
    requires { IsTech tech.now }
    ensures value { result ≡ half_width tech.now level }
    ensures low { pos 0 ≤ℤ result }
    ensures high { result ≤ℤ pos (2 ^ 31) }
{
    match level_layer(tech, level) {
        Some((_, layer)) => layer.width / 2,
        None => 0,
    }
}

/// The shape of a straight wire of a net between two points of a level: the hull of the two squares of
/// the level's width round them. Takes no memory.
pub fn wire_shape(tech: &Tech, net: u32, level: u8, p: Point, q: Point) -> Shape
    requires tech { IsTech tech.now }
    requires p { IsPointWithin (2 ^ 32) p }
    requires q { IsPointWithin (2 ^ 32) q }
    ensures { result ≡ shape_of net (wire_metal tech.now level p q) }
{
    Shape {
        layer: layer_at(tech, level),
        rect: Rect::hull(p, q).grown(half_width(tech, level)),
        owner: Owner::Net(net),
        fixed: false,
    }
}

/// Adds the shapes of a net's via at a point.
fn push_via(
    shapes: &mut Seq<Shape>,
    tech: &Tech,
    net: u32,
    via: u32,
    p: Point,
) -> Result<(), Memory>
    requires tech { IsTech tech.now }
    requires via { via < length tech.now.vias }
    requires point { IsPointWithin (2 ^ 32) p }
    ensures { OnOk result (shapes.new ≡ shapes.old ++ shapes_of net (via_metal tech.now via p)) }
{
    let rects = tech.vias.as_slice()[via as usize].rects.as_slice();
    for (layer, rect) in rects {
        shapes.push(Shape {
            layer: *layer,
            rect: rect.moved(p),
            owner: Owner::Net(net),
            fixed: false,
        })?;
    }
    Ok(())
}

/// Adds the shapes of a net's edge.
fn push_edge(
    shapes: &mut Seq<Shape>,
    design: &Design,
    net: u32,
    v: Vertex,
    e: &Edge,
) -> Result<(), Memory>
    requires design { IsDesign design.now }
    requires edge { IsEdge (track_system_of design.now) v e.now }
    ensures { OnOk result (shapes.new ≡ shapes.old ++ shapes_of net (edge_metal design.now v e.now)) }
{
    match e.kind {
        EdgeKind::Along => shapes.push(wire_shape(&design.tech, net, v.level, v.point, e.to.point)),
        EdgeKind::Via(via) => push_via(shapes, &design.tech, net, via, v.point),
    }
}

/// The shapes of a net's edge: the hull of the two squares of the level's width round its ends, or
/// the rectangles of its via there, in the via's order. The only error is want of memory.
pub fn edge_shapes(
    alloc: Global,
    design: &Design,
    net: u32,
    v: Vertex,
    e: &Edge,
) -> Result<Vec<Shape>, Memory>
    requires design { IsDesign design.now }
    requires edge { IsEdge (track_system_of design.now) v e.now }
    ensures { IfOk result (λ shapes. shapes.items ≡ shapes_of net (edge_metal design.now v e.now)) }
{
    let mut shapes = Seq::new(alloc);
    push_edge(&mut shapes, design, net, v, e)?;
    Ok(shapes.into_vec())
}

/// Adds the shape of a straight piece of a net's stub, none where its ends are one point.
fn push_piece(
    shapes: &mut Seq<Shape>,
    tech: &Tech,
    net: u32,
    level: u8,
    p: Point,
    q: Point,
) -> Result<(), Memory>
    requires tech { IsTech tech.now }
    requires p { IsPointWithin (2 ^ 32) p }
    requires q { IsPointWithin (2 ^ 32) q }
    ensures { OnOk result (shapes.new ≡ shapes.old ++ shapes_of net (piece_metal tech.now level p q)) }
{
    if p == q {
        return Ok(());
    }
    shapes.push(wire_shape(tech, net, level, p, q))
}

/// Adds the shapes of a net's stub from a point, first in x and then in y.
fn push_stub(
    shapes: &mut Seq<Shape>,
    tech: &Tech,
    net: u32,
    from: Point,
    v: Vertex,
) -> Result<(), Memory>
    requires tech { IsTech tech.now }
    requires from { IsPointWithin (2 ^ 32) from }
    requires v { IsPointWithin (2 ^ 32) v.point }
    ensures { OnOk result (shapes.new ≡ shapes.old ++ shapes_of net (stub_metal tech.now from v)) }
{
    let turn = corner(from, v);
    push_piece(shapes, tech, net, v.level, from, turn)?;
    push_piece(shapes, tech, net, v.level, turn, v.point)
}

/// Adds the shapes of an entry of a net.
fn push_entry(
    shapes: &mut Seq<Shape>,
    design: &Design,
    net: u32,
    entry: &Entry,
) -> Result<(), Memory>
    requires design { IsDesign design.now }
    requires entry { IsNetEntry design.now net entry.now }
    ensures { OnOk result (shapes.new ≡ shapes.old ++ shapes_of net (entry_part design.now net entry.now).1) }
{
    match entry.kind {
        EntryKind::Pin { .. } => Ok(()),
        EntryKind::Stub { pin, rect } => {
            let from = stub_point(design, net, pin, rect, entry.vertex.point);
            push_stub(shapes, &design.tech, net, from, entry.vertex)
        }
        EntryKind::Wire => Ok(()),
    }
}

/// Adds the shapes of edges that follow each other from a vertex on.
fn push_path(
    shapes: &mut Seq<Shape>,
    design: &Design,
    net: u32,
    start: Vertex,
    edges: &[Edge],
) -> Result<(), Memory>
    requires design { IsDesign design.now }
    requires path { IsPath (track_system_of design.now) start edges.now }
    ensures { OnOk result (shapes.new ≡ shapes.old ++ parts_shapes net (path_parts design.now start edges.now)) }
{
    let mut at = start;
    for e in edges {
        push_edge(shapes, design, net, at, e)?;
        at = e.to;
    }
    Ok(())
}

/// The shapes of an entry of a net: those of the pieces of its stub, none at a pin or on a wire.
/// The only error is want of memory.
pub fn entry_shapes(
    alloc: Global,
    design: &Design,
    net: u32,
    entry: &Entry,
) -> Result<Vec<Shape>, Memory>
    requires design { IsDesign design.now }
    requires entry { IsNetEntry design.now net entry.now }
    ensures { IfOk result (λ shapes. shapes.items ≡ shapes_of net (entry_part design.now net entry.now).1) }
{
    let mut shapes = Seq::new(alloc);
    push_entry(&mut shapes, design, net, entry)?;
    Ok(shapes.into_vec())
}

/// The shapes of a walk of a net: those of its start, of its finish and of each edge in order. The
/// only error is want of memory.
pub fn walk_shapes(
    alloc: Global,
    design: &Design,
    net: u32,
    walk: &Walk,
) -> Result<Vec<Shape>, Memory>
    requires design { IsDesign design.now }
    requires walk { IsNetWalk design.now net walk.now }
    ensures { IfOk result (λ shapes. shapes.items ≡ walk_shapes_of design.now net walk.now) }
{
    let mut shapes = Seq::new(alloc);
    push_entry(&mut shapes, design, net, &walk.start)?;
    push_entry(&mut shapes, design, net, &walk.finish)?;
    push_path(
        &mut shapes,
        design,
        net,
        walk.start.vertex,
        walk.edges.as_slice(),
    )?;
    Ok(shapes.into_vec())
}
