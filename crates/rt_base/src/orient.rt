//! Orientations of placed macros, pins and vias (DEF 5.8, COMPONENTS and PINS).
ghost use Rattle.std.specs.Prelude.{◌≡◌, ◌^◌};
ghost use Rattle.rt_base.specs.Geometry.{hull_of};
ghost use Rattle.rt_base.specs.Orientations.{turned, placed};
ghost use Rattle.rt_base.specs.Ranges.{IsWithin, IsPointWithin, AreSidesWithin};

use crate::geometry::{Point, Rect};

/// How a placed macro, pin or via is turned: by quarters of a full turn, and perhaps flipped.
#[derive(Clone, Copy, Debug, PartialEq, Eq)]
pub enum Orient {
    N,
    W,
    S,
    E,
    FN,
    FS,
    FW,
    FE,
}

/// Where a point of a macro of this width and height comes to lie.
fn turned(orient: Orient, w: i64, h: i64, p: Point) -> Point
    requires w { IsWithin (2 ^ 61) w }
    requires h { IsWithin (2 ^ 61) h }
    requires p { IsPointWithin (2 ^ 61) p }
    ensures { result ≡ turned orient w h p }
{
    let Point { x, y } = p;
    match orient {
        Orient::N => p,
        Orient::W => Point { x: h - y, y: x },
        Orient::S => Point { x: w - x, y: h - y },
        Orient::E => Point { x: y, y: w - x },
        Orient::FN => Point { x: w - x, y },
        Orient::FS => Point { x, y: h - y },
        Orient::FW => Point { x: y, y: x },
        Orient::FE => Point { x: h - y, y: w - x },
    }
}

/// A rectangle of a macro of width `w` and height `h`, turned, before the point of the placement is
/// added. Pins of the design and vias have width and height 0. Takes no memory.
pub fn place(orient: Orient, w: i64, h: i64, rect: Rect) -> Rect
    requires w { IsWithin (2 ^ 61) w }
    requires h { IsWithin (2 ^ 61) h }
    requires rect { AreSidesWithin (2 ^ 61) rect }
    ensures { result ≡ placed orient w h rect }
{
    Rect::hull(
        turned(orient, w, h, rect.low()),
        turned(orient, w, h, rect.high()),
    )
}
