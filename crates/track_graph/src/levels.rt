//! Levels and vertices: the routing layers, counted from the bottom, and their tracks.
ghost use Rattle.std.specs.Prelude.{◌≡◌, ℕ, ◌↔◌, ◌+◌, IsTrue, Some, None, MatchOption, slice_get, option_map, Contains};
ghost use Rattle.rt_base.specs.Geometry.{Holds};
ghost use Rattle.track_graph.specs.Designs.{IsDesign};
ghost use Rattle.track_graph.specs.Levels.{levels, number_of, is_horizontal, layer_name_of, lines_of, lines_below, positions_of, along, line_of, track_system_of, vertex_at, IsAscending, IsVertex};

use crate::design::{Design, Tracks};
use rt_base::{Layer, Point, Tech, Vertex};

/// The layer of a level, with its number among all layers, `None` where there is no such level.
/// Takes no memory.
pub fn level_layer(tech: &Tech, level: u8) -> Option<(usize, &Layer)>
    ensures { MatchOption result (slice_get (levels tech.now) level ≡ None) (λ l. slice_get (levels tech.now) level ≡ Some (l.0, l.1.now)) }
{
    let layers = tech.layers.as_slice();
    let mut left = level;
    for (i, layer) in layers.iter().enumerate() {
        if layer.routing {
            if left == 0 {
                return Some((i, layer));
            }
            left -= 1;
        }
    }
    None
}

/// The number of a level's layer among all layers, `None` where there is no such level. Takes no
/// memory.
pub fn layer_number(tech: &Tech, level: u8) -> Option<usize>
    ensures { result ≡ option_map number_of (slice_get (levels tech.now) level) }
{
    match level_layer(tech, level) {
        Some((number, _)) => Some(number),
        None => None,
    }
}

/// The name of a level's layer, empty where there is no such level. Takes no memory.
pub fn layer_name(tech: &Tech, level: u8) -> &[u8]
    ensures { result.now ≡ layer_name_of tech.now level }
{
    match level_layer(tech, level) {
        Some((_, layer)) => layer.name.bytes(),
        None => &[],
    }
}

/// Whether a level's tracks run in x; false where there is no such level. Takes no memory.
pub fn is_level_horizontal(tech: &Tech, level: u8) -> bool
    ensures { result ≡ is_horizontal tech.now level }
{
    match level_layer(tech, level) {
        Some((_, layer)) => layer.horizontal,
        None => false,
    }
}

/// Where a point stands along the tracks of a level. Takes no memory.
pub fn along_of(tech: &Tech, level: u8, p: Point) -> i64
    ensures { result ≡ along tech.now level p }
{
    if is_level_horizontal(tech, level) {
        p.x
    } else {
        p.y
    }
}

/// Which line of a level a point is on. Takes no memory.
pub fn line_at(tech: &Tech, level: u8, p: Point) -> i64
    ensures { result ≡ line_of tech.now level p }
{
    if is_level_horizontal(tech, level) {
        p.y
    } else {
        p.x
    }
}

/// The vertex at a position of a line of a level, whether it is one of the design's or not. Takes no
/// memory.
pub fn vertex_at(tech: &Tech, level: u8, line: i64, position: i64) -> Vertex
    ensures { result ≡ vertex_at tech.now level line position }
{
    let point = if is_level_horizontal(tech, level) {
        Point {
            x: position,
            y: line,
        }
    } else {
        Point {
            x: line,
            y: position,
        }
    };
    Vertex { level, point }
}

/// Whether a number is one of these, which ascend.
fn is_among(lines: &[i64], z: i64) -> bool
    requires { IsAscending lines.now }
    ensures { IsTrue result ↔ Contains lines.now z }
{
    lines.binary_search(&z).is_ok()
}

/// The track lines of a level, none where there is no such level. Takes no memory.
pub fn level_lines(tracks: &Tracks, level: usize) -> &[i64]
    ensures { result.now ≡ lines_of tracks.now level }
{
    match tracks.lines.as_slice().get(level) {
        Some(lines) => lines.as_slice(),
        None => &[],
    }
}

/// The track lines of the level below, none at the lowest level. Takes no memory.
pub fn lines_under(tracks: &Tracks, level: usize) -> &[i64]
    ensures { result.now ≡ lines_below tracks.now level }
{
    if level == 0 {
        return &[];
    }
    level_lines(tracks, level - 1)
}

/// Whether a level has this position.
fn is_position(design: &Design, level: u8, z: i64) -> bool
    requires { IsDesign design.now }
    ensures { IsTrue result ↔ Contains (positions_of design.now.tracks level) z }
{
    if is_among(lines_under(&design.tracks, level as usize), z) {
        return true;
    }
    is_among(level_lines(&design.tracks, level as usize + 1), z)
}

/// Whether a vertex is one of the design's: a level and a point of the closed die, on a track of
/// the level and at a position of the level. Takes no memory.
pub fn is_vertex(design: &Design, v: Vertex) -> bool
    requires { IsDesign design.now }
    ensures { IsTrue result ↔ IsVertex (track_system_of design.now) v }
{
    if layer_number(&design.tech, v.level).is_none() {
        return false;
    }
    if !design.grid.die.holds(v.point) {
        return false;
    }
    let line = line_at(&design.tech, v.level, v.point);
    if !is_among(level_lines(&design.tracks, v.level as usize), line) {
        return false;
    }
    let position = along_of(&design.tech, v.level, v.point);
    if !is_position(design, v.level, position) {
        return false;
    }
    true
}
