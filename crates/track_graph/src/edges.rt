//! Edges: along a track, and by a via.
ghost use Rattle.std.specs.Prelude.{◌≡◌, ◌↔◌, IsTrue};
ghost use Rattle.track_graph.specs.Designs.{IsDesign, IsTech};
ghost use Rattle.track_graph.specs.Edges.{AreNeighbours, IsAlong, Joins, IsVia, IsEdge, edge_cost_of};
ghost use Rattle.track_graph.specs.Levels.{IsAscending, NoneBetween, track_system_of, positions_of};

use crate::design::Design;
use crate::levels::{along_of, is_vertex, level_lines, line_at, lines_under};
use crate::lines::count_up_to;
use crate::vias::joins_levels;
use rt_base::{Edge, EdgeKind, Tech, Vertex};

/// Whether none of these numbers, which ascend, stands strictly between two.
fn is_gap(lines: &[i64], low: i64, high: i64) -> bool
    requires { IsAscending lines.now }
    ensures { IsTrue result ↔ NoneBetween lines.now low high }
{
    match lines.get(count_up_to(lines, low)) {
        Some(next) => high <= *next,
        None => true,
    }
}

/// Whether two numbers differ and no position of the level stands strictly between them.
fn are_neighbours(design: &Design, level: u8, a: i64, b: i64) -> bool
    requires { IsDesign design.now }
    ensures { IsTrue result ↔ AreNeighbours (positions_of design.now.tracks level) a b }
{
    if a == b {
        return false;
    }
    let low = a.min(b);
    let high = a.max(b);
    if !is_gap(lines_under(&design.tracks, level as usize), low, high) {
        return false;
    }
    is_gap(level_lines(&design.tracks, level as usize + 1), low, high)
}

/// Whether two points are neighbouring positions of one track.
fn is_along_edge(design: &Design, v: Vertex, w: Vertex) -> bool
    requires { IsDesign design.now }
    ensures { IsTrue result ↔ IsAlong (track_system_of design.now) v w }
{
    if v.level != w.level {
        return false;
    }
    let line = line_at(&design.tech, v.level, v.point);
    if line != line_at(&design.tech, v.level, w.point) {
        return false;
    }
    let from = along_of(&design.tech, v.level, v.point);
    let to = along_of(&design.tech, v.level, w.point);
    are_neighbours(design, v.level, from, to)
}

/// Whether a via is usable and joins a level and the next one up.
fn joins(tech: &Tech, via: u32, lower: u8) -> bool
    requires { IsTech tech.now }
    ensures { IsTrue result ↔ Joins tech.now via lower }
{
    let Some(via) = tech.vias.as_slice().get(via as usize) else {
        return false;
    };
    if !via.usable {
        return false;
    }
    joins_levels(tech, via.rects.as_slice(), lower)
}

/// Whether two neighbouring levels at one point are joined by the via.
fn is_via_edge(tech: &Tech, via: u32, v: Vertex, w: Vertex) -> bool
    requires { IsTech tech.now }
    ensures { IsTrue result ↔ IsVia tech.now via v w }
{
    if v.point != w.point {
        return false;
    }
    if v.level < w.level {
        return w.level - v.level == 1 && joins(tech, via, v.level);
    }
    v.level != w.level && v.level - w.level == 1 && joins(tech, via, w.level)
}

/// Whether the edge is one of the design's: it leads from a vertex to a vertex, along a track to a
/// neighbouring position, or by a usable via to a neighbouring level. Takes no memory.
pub fn is_edge(design: &Design, v: Vertex, e: &Edge) -> bool
    requires { IsDesign design.now }
    ensures { IsTrue result ↔ IsEdge (track_system_of design.now) v e.now }
{
    if !is_vertex(design, v) {
        return false;
    }
    if !is_vertex(design, e.to) {
        return false;
    }
    match e.kind {
        EdgeKind::Along => is_along_edge(design, v, e.to),
        EdgeKind::Via(via) => is_via_edge(&design.tech, via, v, e.to),
    }
}

/// What an edge costs: 1 for each unit along a track, and what the user chose for a via. Takes no
/// memory.
pub fn edge_cost(design: &Design, v: Vertex, e: &Edge) -> u64
    requires design { IsDesign design.now }
    requires edge { IsEdge (track_system_of design.now) v e.now }
    ensures { result ≡ edge_cost_of design.now v e.now }
{
    match e.kind {
        EdgeKind::Along => v.point.distance(e.to.point),
        EdgeKind::Via(_) => design.options.via,
    }
}
