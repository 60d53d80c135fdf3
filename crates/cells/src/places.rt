//! Rectangles of macros, turned and moved.
ghost use Rattle.std.specs.Prelude.{◌≡◌, ◌^◌, map, IfOk, IfSome};
ghost use Rattle.rt_base.specs.Ranges.{IsPointWithin, AreSidesWithin, IsWithin};
ghost use Rattle.cells.specs.Cells.{placed_rect as placed_rect_of, placed_rects as placed_rects_of};
ghost use Rattle.cells.specs.Ranges.{AreNear, IsPlaceable};

use lef_text::Macro;
use rt_base::{LayerNo, Memory, Orient, Point, Rect, place};
use std::alloc::Global;

/// A rectangle of a macro, turned and moved.
fn placed_rect(of: &Macro, at: Point, orient: Orient, rect: &(LayerNo, Rect)) -> (LayerNo, Rect)
    requires w { IsWithin (2 ^ 30) of.now.w }
    requires h { IsWithin (2 ^ 30) of.now.h }
    requires at { IsPointWithin (2 ^ 30) at }
    requires rect { AreSidesWithin (2 ^ 31) rect.now.1 }
    ensures { result ≡ placed_rect_of of.now (at, orient) rect.now }
{
    (rect.0, place(orient, of.w, of.h, rect.1).moved(at))
}

/// Rectangles of a macro, turned and moved.
fn all_placed(
    alloc: Global,
    of: &Macro,
    at: Point,
    orient: Orient,
    rects: &[(LayerNo, Rect)],
) -> Result<Vec<(LayerNo, Rect)>, Memory>
    requires w { IsWithin (2 ^ 30) of.now.w }
    requires h { IsWithin (2 ^ 30) of.now.h }
    requires at { IsPointWithin (2 ^ 30) at }
    requires rects { AreNear rects.now }
    ensures { IfOk result (λ v. v.items ≡ map (placed_rect_of of.now (at, orient)) rects.now) }
{
    let mut all = Vec::new(alloc);
    for rect in rects {
        all.push(placed_rect(of, at, orient, rect))?;
    }
    Ok(all)
}

/// Rectangles of a macro where a component of it is placed, none where it isn't.
pub fn placed_rects(
    alloc: Global,
    of: &Macro,
    placed: Option<(Point, Orient)>,
    rects: &[(LayerNo, Rect)],
) -> Result<Vec<(LayerNo, Rect)>, Memory>
    requires of { IsPlaceable of.now }
    requires placed { IfSome placed (λ p. IsPointWithin (2 ^ 30) p.0) }
    requires rects { AreNear rects.now }
    ensures { IfOk result (λ v. v.items ≡ placed_rects_of of.now placed rects.now) }
{
    match placed {
        Some((at, orient)) => all_placed(alloc, of, at, orient, rects),
        None => Ok(Vec::new(alloc)),
    }
}
