//! Which edges lead on from a vertex that is known to be one.
ghost use Rattle.std.specs.Prelude.{◌↔◌, Contains, IsTrue};
ghost use Rattle.rt_base.specs.declared.walk.EdgeKind.TheVariants.{Along};
ghost use Rattle.track_graph.specs.Designs.{IsDesign};
ghost use Rattle.track_graph.specs.Edges.{IsEdge};
ghost use Rattle.track_graph.specs.Levels.{track_system_of};
ghost use Rattle.plain_route.specs.Vertices.{vertices_of};

use crate::positions::are_next;
use rt_base::{Edge, EdgeKind, Vertex};
use track_graph::{Design, along_of, is_edge, level_lines, line_at, lines_under};

/// Whether an edge along a track leads from one of the design's vertices to another.
fn is_along_from(design: &Design, v: Vertex, w: Vertex) -> bool
    requires design { IsDesign design.now }
    requires listed { Contains (vertices_of design.now) v }
    ensures { IsTrue result ↔ IsEdge (track_system_of design.now) v (record { kind = Along; to = w }) }
{
    if v.level != w.level {
        return false;
    }
    let line = line_at(&design.tech, v.level, v.point);
    if line != line_at(&design.tech, v.level, w.point) {
        return false;
    }
    if !design.grid.die.holds(v.point) {
        return false;
    }
    if !design.grid.die.holds(w.point) {
        return false;
    }
    let from = along_of(&design.tech, v.level, v.point);
    let to = along_of(&design.tech, v.level, w.point);
    let under = lines_under(&design.tracks, v.level as usize);
    let over = level_lines(&design.tracks, v.level as usize + 1);
    are_next(under, over, from, to)
}

/// Whether an edge leads on from one of the design's vertices. Takes no memory.
pub fn is_edge_from(design: &Design, v: Vertex, e: &Edge) -> bool
    requires design { IsDesign design.now }
    requires listed { Contains (vertices_of design.now) v }
    ensures { IsTrue result ↔ IsEdge (track_system_of design.now) v e.now }
{
    match e.kind {
        EdgeKind::Along => is_along_from(design, v, e.to),
        EdgeKind::Via(_) => is_edge(design, v, e),
    }
}
