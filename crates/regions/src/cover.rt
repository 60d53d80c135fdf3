//! The parts of a track line in the guide of a net.
ghost use Rattle.std.specs.Prelude.{◌≡◌, ◌<◌, ℤ, ◌≤ℤ◌, ◌↔◌, IfOk, IfSome, IfNone, length};
ghost use Rattle.rt_base.specs.Geometry.{Holds};
ghost use Rattle.track_graph.specs.Designs.{IsDesign};
ghost use Rattle.track_graph.specs.Guide.{InGuide};
ghost use Rattle.track_graph.specs.Levels.{levels};
ghost use Rattle.track_graph.specs.Searches.{guide_of};
ghost use Rattle.regions.specs.Spans.{InSpan, InSpans, AreFull, AreSpansOf};
ghost use Rattle.regions.specs.Covered.{point_at, InBox, IsPart, IsCovered};

use crate::spans::maximal_spans;
use rt_base::{Memory, Rect, Span};
use std::alloc::Global;
use track_graph::{Design, guide_of, is_level_horizontal};

/// A line that runs in x, at a value of y, or in y, at a value of x.
#[derive(Clone, Copy)]
pub struct Line {
    pub in_x: bool,
    pub at: i64,
}

/// The extent of a rectangle along a line, and that across it.
fn extents(line: Line, rect: Rect) -> (Span, Span)
    ensures full { result.0.lo ≤ℤ result.0.hi }
    ensures exact { (z : ℤ) → Holds rect (point_at line z) ↔ (InSpan result.0 z × InSpan result.1 line.at) }
{
    let x = Span {
        lo: rect.xl,
        hi: rect.xh,
    };
    let y = Span {
        lo: rect.yl,
        hi: rect.yh,
    };
    if line.in_x { (x, y) } else { (y, x) }
}

/// The part of a line in a box, `None` where the box is on another level or the line misses it.
fn part(line: Line, level: u8, guide_box: &(u8, Rect)) -> Option<Span>
    ensures some { IfSome result (IsPart line level guide_box.now) }
    ensures none { IfNone result ((z : ℤ) → InBox guide_box.now level (point_at line z) → ⊥) }
{
    if guide_box.0 != level {
        return None;
    }
    let (along, across) = extents(line, guide_box.1);
    if line.at < across.lo || across.hi < line.at {
        return None;
    }
    Some(along)
}

/// The parts of a line in the boxes of a level.
fn parts(alloc: Global, line: Line, level: u8, guide: &[(u8, Rect)]) -> Result<Vec<Span>, Memory>
    ensures full { IfOk result (λ v. AreFull v.items) }
    ensures exact { IfOk result (λ v. (z : ℤ) → InSpans v.items z ↔ InGuide guide.now level (point_at line z)) }
{
    let mut spans = Vec::new(alloc);
    for guide_box in guide {
        match part(line, level, guide_box) {
            Some(span) => {
                spans.push(span)?;
            }
            None => {}
        }
    }
    Ok(spans)
}

/// The maximal spans of whole numbers along a line that lie in boxes of a level of the net's guide,
/// ascending: of a line in x they are values of x, else of y, in DEF database units. The line needs
/// not run in the level's direction. A net that the design lacks has none. The only error is want of
/// memory.
pub fn covered_along(
    alloc: Global,
    design: &Design,
    net: u32,
    level: u8,
    line: Line,
) -> Result<Vec<Span>, Memory>
    requires { IsDesign design.now }
    ensures { IfOk result (λ v. AreSpansOf (λ z. InGuide (guide_of design.now net) level (point_at line z)) v.items) }
{
    let parts = parts(alloc, line, level, guide_of(design, net))?;
    maximal_spans(alloc, parts)
}

/// The maximal spans of whole numbers along a track line of a level that lie in the net's guide,
/// ascending: of a line in x they are values of x, else of y, in DEF database units. A net that the
/// design lacks has none.
pub fn covered(
    alloc: Global,
    design: &Design,
    net: u32,
    level: u8,
    line: i64,
) -> Result<Vec<Span>, Memory>
    requires design { IsDesign design.now }
    requires level { level < length (levels design.now.tech) }
    ensures { IfOk result (λ v. AreSpansOf (IsCovered design.now net level line) v.items) }
{
    let line = Line {
        in_x: is_level_horizontal(&design.tech, level),
        at: line,
    };
    covered_along(alloc, design, net, level, line)
}
