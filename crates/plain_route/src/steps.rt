//! The edges that may lead on from a vertex.
ghost use Rattle.std.specs.Prelude.{◌≡◌, ◌↔◌, ℕ, ◌+◌, ◌<◌, ◌^◌, ◌<ℤ◌, ◌++◌, IsTrue, length, map, option_to_list, Contains, AllPairs, OnOk};
ghost use Rattle.track_graph.specs.Designs.{IsDesign};
ghost use Rattle.track_graph.specs.Edges.{IsEdge};
ghost use Rattle.track_graph.specs.Levels.{layer_no, track_system_of};
ghost use Rattle.plain_route.specs.Steps.{along_edge, by_via, AreNear, StandsOn, HasNeighbours, HasAbove, HasBelow, HasVia, HasVias};

use crate::positions::{next_down, next_up};
use rt_base::{Edge, EdgeKind, Memory, Seq, Tech, Vertex, Via};
use track_graph::{Design, along_of, layer_number, level_lines, line_at, lines_under, vertex_at};

/// The edge along the track of a vertex to a position.
fn along_edge(tech: &Tech, v: Vertex, position: i64) -> Edge
    ensures { result ≡ along_edge tech.now v position }
{
    let line = line_at(tech, v.level, v.point);
    Edge {
        kind: EdgeKind::Along,
        to: vertex_at(tech, v.level, line, position),
    }
}

/// Adds the edge to a position, if there is one.
fn add_along(
    edges: &mut Seq<Edge>,
    tech: &Tech,
    v: Vertex,
    position: Option<i64>,
) -> Result<(), Memory>
    ensures { OnOk result (edges.new ≡ edges.old ++ map (along_edge tech.now v) (option_to_list position)) }
{
    if let Some(position) = position {
        edges.push(along_edge(tech, v, position))?;
    }
    Ok(())
}

/// Adds the edges to the next position on either side. The positions are those of two lists, which
/// ascend.
fn add_neighbours(
    edges: &mut Seq<Edge>,
    tech: &Tech,
    v: Vertex,
    under: &[i64],
    over: &[i64],
) -> Result<(), Memory>
    requires under { AllPairs (λ a b. a <ℤ b) under.now }
    requires over { AllPairs (λ a b. a <ℤ b) over.now }
    ensures { OnOk result (HasNeighbours tech.now v (under.now ++ over.now) edges.old edges.new) }
{
    let at = along_of(tech, v.level, v.point);
    add_along(edges, tech, v, next_up(under, over, at))?;
    add_along(edges, tech, v, next_down(under, over, at))
}

/// The edge by a via to a level.
fn by_via(v: Vertex, via: u32, level: u8) -> Edge
    ensures { result ≡ by_via v via level }
{
    Edge {
        kind: EdgeKind::Via(via),
        to: Vertex {
            level,
            point: v.point,
        },
    }
}

/// The numbers among all layers of those of a level and of the levels below and above it, 0 where
/// there is no such level.
#[derive(Clone, Copy, Debug)]
struct NearLayers {
    below: usize,
    here: usize,
    above: usize,
}

/// The number of a level's layer among all layers, 0 where there is no such level.
fn layer_no(tech: &Tech, level: u8) -> usize
    ensures { result ≡ layer_no tech.now level }
{
    layer_number(tech, level).unwrap_or(0)
}

/// The number of the layer of the level below, 0 where there is none.
fn layer_below(tech: &Tech, level: u8) -> usize
    ensures { (low : ℕ) → level ≡ low + 1 → result ≡ layer_no tech.now low }
{
    if level == 0 {
        return 0;
    }
    layer_no(tech, level - 1)
}

/// The number of the layer of the level above, 0 where there is none.
fn layer_above(tech: &Tech, level: u8) -> usize
    ensures { level < 255 → result ≡ layer_no tech.now (level + 1) }
{
    if level == u8::MAX {
        return 0;
    }
    layer_no(tech, level + 1)
}

/// The layers of a level and of those next to it.
fn near_layers(tech: &Tech, level: u8) -> NearLayers
    ensures { AreNear tech.now level result }
{
    NearLayers {
        below: layer_below(tech, level),
        here: layer_no(tech, level),
        above: layer_above(tech, level),
    }
}

/// Whether a via has a rectangle on the layer with this number.
fn stands_on(via: &Via, layer: usize) -> bool
    ensures { IsTrue result ↔ StandsOn via.now layer }
{
    via.rects.as_slice().iter().any(|r| r.0.0 as usize == layer)
}

/// Adds the edge by a via to the level above, if it stands on the layer there.
fn add_above(
    edges: &mut Seq<Edge>,
    v: Vertex,
    number: u32,
    via: &Via,
    layer: usize,
) -> Result<(), Memory>
    ensures { OnOk result (HasAbove v number via.now layer edges.old edges.new) }
{
    if v.level == u8::MAX {
        return Ok(());
    }
    if !stands_on(via, layer) {
        return Ok(());
    }
    edges.push(by_via(v, number, v.level + 1))
}

/// Adds the edge by a via to the level below, if it stands on the layer there.
fn add_below(
    edges: &mut Seq<Edge>,
    v: Vertex,
    number: u32,
    via: &Via,
    layer: usize,
) -> Result<(), Memory>
    ensures { OnOk result (HasBelow v number via.now layer edges.old edges.new) }
{
    if v.level == 0 {
        return Ok(());
    }
    if !stands_on(via, layer) {
        return Ok(());
    }
    edges.push(by_via(v, number, v.level - 1))
}

/// Adds the edges by a via to the levels above and below, if it is usable and joins those levels.
fn add_via(
    edges: &mut Seq<Edge>,
    v: Vertex,
    number: u32,
    via: &Via,
    layers: NearLayers,
) -> Result<(), Memory>
    ensures { OnOk result (HasVia v number via.now layers edges.old edges.new) }
{
    if !via.usable {
        return Ok(());
    }
    if !stands_on(via, layers.here) {
        return Ok(());
    }
    add_above(edges, v, number, via, layers.above)?;
    add_below(edges, v, number, via, layers.below)
}

/// Adds the edges by usable vias that join the level of a vertex and one next to it.
fn add_vias(edges: &mut Seq<Edge>, tech: &Tech, v: Vertex) -> Result<(), Memory>
    requires { length tech.now.vias < 2 ^ 32 }
    ensures { OnOk result (HasVias tech.now v (length tech.now.vias) edges.old edges.new) }
{
    let layers = near_layers(tech, v.level);
    for (k, via) in tech.vias.as_slice().iter().enumerate() {
        add_via(edges, v, k as u32, via, layers)?;
    }
    Ok(())
}

/// Adds at least the edges from a vertex.
pub fn add_steps(edges: &mut Seq<Edge>, design: &Design, v: Vertex) -> Result<(), Memory>
    requires { IsDesign design.now }
    ensures { OnOk result ((e : Edge) → IsEdge (track_system_of design.now) v e → Contains edges.new e) }
{
    let level = v.level as usize;
    let under = lines_under(&design.tracks, level);
    let over = level_lines(&design.tracks, level + 1);
    add_neighbours(edges, &design.tech, v, under, over)?;
    add_vias(edges, &design.tech, v)
}
