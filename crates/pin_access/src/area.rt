//! The vertices of a level near a rectangle.
ghost use Rattle.std.specs.Prelude.{◌≡◌, ◌↔◌, ◌⊎◌, ◌++◌, ◌∷◌, [], ◌^◌, ◌≤◌, ◌<◌, ◌≤ℤ◌, length, OnOk, Contains};
ghost use Rattle.rt_base.specs.Ranges.{IsWithin, AreSidesWithin};
ghost use Rattle.rt_base.specs.declared.walk.Vertex.{Vertex as OfVertex};
ghost use Rattle.track_graph.specs.Designs.{AreTracks};
ghost use Rattle.track_graph.specs.Levels.{levels};
ghost use Rattle.pin_access.specs.EntryOrder.{system_of};
ghost use Rattle.pin_access.specs.Nearby.{is_near, near_on_line, near_on_lines, range_near, across_of, along_of, IsNear};

use rt_base::{Memory, Rect, Span, Tech, Vertex};
use track_graph::{Tracks, is_level_horizontal, level_lines, lines_in, lines_under, vertex_at};

/// A level, a rectangle, and how far from it a vertex may be.
#[derive(Clone, Copy)]
pub struct Area {
    pub level: u8,
    pub rect: Rect,
    pub reach: u64,
}

/// Whether a vertex is as near as the area reaches.
fn is_in_reach(area: &Area, v: Vertex) -> bool
    ensures { result ≡ is_near area.now v }
{
    let from = area.rect.nearest(v.point);
    let dx = from.x.abs_diff(v.point.x);
    if dx > area.reach {
        return false;
    }
    from.y.abs_diff(v.point.y) <= area.reach - dx
}

/// Adds the vertex on a line at a position where it is near.
fn add_position(
    out: &mut Vec<Vertex>,
    tech: &Tech,
    area: &Area,
    line: i64,
    position: i64,
) -> Result<(), Memory>
    ensures { OnOk result (out.new.items ≡ out.old.items ++ near_on_line tech.now area.now (position ∷ []) line) }
{
    let v = vertex_at(tech, area.level, line, position);
    if is_in_reach(area, v) {
        out.push(v)?;
    }
    Ok(())
}

/// Adds the near vertices on a line.
fn add_line(
    out: &mut Vec<Vertex>,
    tech: &Tech,
    area: &Area,
    positions: &[i64],
    line: i64,
) -> Result<(), Memory>
    ensures { OnOk result (out.new.items ≡ out.old.items ++ near_on_line tech.now area.now positions.now line) }
{
    for position in positions {
        add_position(out, tech, area, line, *position)?;
    }
    Ok(())
}

/// Adds the near vertices on these lines.
fn add_lines(
    out: &mut Vec<Vertex>,
    tech: &Tech,
    area: &Area,
    lines: &[i64],
    positions: &[i64],
) -> Result<(), Memory>
    ensures { OnOk result (out.new.items ≡ out.old.items ++ near_on_lines tech.now area.now lines.now positions.now) }
{
    for line in lines {
        add_line(out, tech, area, positions, *line)?;
    }
    Ok(())
}

/// A range made larger by a reach, as far as the die goes.
fn range_near(lo: i64, hi: i64, reach: u64, die_lo: i64, die_hi: i64) -> Span
    requires lo { IsWithin (2 ^ 61) lo }
    requires hi { IsWithin (2 ^ 61) hi }
    requires reach { reach ≤ 2 ^ 34 }
    ensures { result ≡ range_near lo hi reach die_lo die_hi }
{
    Span {
        lo: die_lo.max(lo - reach as i64),
        hi: die_hi.min(hi + reach as i64),
    }
}

/// The range of the tracks of the area's level that are near enough.
fn across(tech: &Tech, area: &Area, die: Rect) -> Span
    requires rect { AreSidesWithin (2 ^ 61) area.now.rect }
    requires reach { area.now.reach ≤ 2 ^ 34 }
    ensures range { result ≡ across_of tech.now area.now die }
    ensures wide { area.now.rect.xl ≤ℤ area.now.rect.xh }
    ensures tall { area.now.rect.yl ≤ℤ area.now.rect.yh }
{
    let rect = area.rect;
    if is_level_horizontal(tech, area.level) {
        range_near(rect.yl, rect.yh, area.reach, die.yl, die.yh)
    } else {
        range_near(rect.xl, rect.xh, area.reach, die.xl, die.xh)
    }
}

/// The range of the positions of the area's level that are near enough.
fn along(tech: &Tech, area: &Area, die: Rect) -> Span
    requires rect { AreSidesWithin (2 ^ 61) area.now.rect }
    requires reach { area.now.reach ≤ 2 ^ 34 }
    ensures { result ≡ along_of tech.now area.now die }
{
    let rect = area.rect;
    if is_level_horizontal(tech, area.level) {
        range_near(rect.xl, rect.xh, area.reach, die.xl, die.xh)
    } else {
        range_near(rect.yl, rect.yh, area.reach, die.yl, die.yh)
    }
}

/// Adds each vertex of the area's level that is as near to its rectangle as it reaches.
pub fn add_area(
    out: &mut Vec<Vertex>,
    tech: &Tech,
    tracks: &Tracks,
    die: Rect,
    area: &Area,
) -> Result<(), Memory>
    requires tracks { AreTracks tech.now tracks.now }
    requires level { area.now.level < length (levels tech.now) }
    requires rect { AreSidesWithin (2 ^ 61) area.now.rect }
    requires reach { area.now.reach ≤ 2 ^ 34 }
    ensures { OnOk result ((v : OfVertex) → Contains out.new.items v ↔ (Contains out.old.items v ⊎ IsNear (system_of tech.now tracks.now die) area.now.level area.now.reach area.now.rect v)) }
{
    let level = area.level as usize;
    let positions = along(tech, area, die);
    let lines = lines_in(level_lines(tracks, level), across(tech, area, die));
    let below = lines_in(lines_under(tracks, level), positions);
    add_lines(out, tech, area, lines, below)?;
    let above = lines_in(level_lines(tracks, level + 1), positions);
    add_lines(out, tech, area, lines, above)?;
    Ok(())
}
