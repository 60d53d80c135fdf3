//! Points and rectangles of wiring.
ghost use Rattle.std.specs.Prelude.{◌≡◌, ◌^◌, IfOk, IfSome};
ghost use Rattle.rt_base.specs.Ranges.{IsPointWithin, AreSidesWithin};
ghost use Rattle.rt_forms.specs.Clauses.{Reads};
ghost use Rattle.def_wires.specs.Faults.{wire_faults};
ghost use Rattle.def_wires.specs.Sound.{IsLength, IsCorner};
ghost use Rattle.def_wires.specs.Paths.{extension as extension_form, first_corner as first_corner_form, next_corner as next_corner_form, plain_point as plain_point_form, patch as patch_form};

use crate::error::WireFault;
use crate::words::{Words, first_coordinate, next_point, next_x, number, number_from_in};
use rt_base::{Point, Rect};

/// A point of a path, and how far wires reach beyond it, where the text says so.
#[derive(Clone, Copy, Debug, PartialEq, Eq)]
pub struct Corner {
    pub point: Point,
    pub ext: Option<i64>,
}

/// `)`, or an extension and `)`.
#[tactic(auto, unfolding(crate::specs::Paths::extension))]
fn extension(words: &mut Words) -> Result<Option<i64>, WireFault>
    ensures reads { Reads wire_faults (λ x. x) result words.old words.new extension_form }
    ensures length { IfOk result (λ ext. IfSome ext IsLength) }
{
    let word = words.next()?;
    if word.is(b")") {
        return Ok(None);
    }
    let ext = number_from_in(word, 0)?;
    words.expect(b")")?;
    Ok(Some(ext))
}

/// A path's first point behind its `(`.
#[tactic(auto, unfolding(crate::specs::Paths::first_corner))]
pub fn first_corner(words: &mut Words) -> Result<Corner, WireFault>
    ensures reads { Reads wire_faults (λ x. x) result words.old words.new first_corner_form }
    ensures sound { IfOk result (λ c. IsCorner c) }
{
    let x = first_coordinate(words)?;
    let y = first_coordinate(words)?;
    let ext = extension(words)?;
    Ok(Corner {
        point: Point { x, y },
        ext,
    })
}

/// A later point behind its `(`.
#[tactic(auto, unfolding(crate::specs::Paths::next_corner))]
pub fn next_corner(words: &mut Words, from: Point) -> Result<Corner, WireFault>
    requires { IsPointWithin (2 ^ 30) from }
    ensures reads { Reads wire_faults (λ x. x) result words.old words.new (next_corner_form from) }
    ensures sound { IfOk result (λ c. IsCorner c) }
{
    let x = next_x(words, from)?;
    let point = next_point(words, from, x)?;
    let ext = extension(words)?;
    Ok(Corner { point, ext })
}

/// `( x y )`.
#[tactic(auto, unfolding(crate::specs::Paths::plain_point))]
pub fn plain_point(words: &mut Words) -> Result<Point, WireFault>
    ensures reads { Reads wire_faults (λ x. x) result words.old words.new plain_point_form }
    ensures small { IfOk result (λ p. IsPointWithin (2 ^ 30) p) }
{
    words.expect(b"(")?;
    let x = number(words)?;
    let y = number(words)?;
    words.expect(b")")?;
    Ok(Point { x, y })
}

/// `( x y x y )`, corners in any order.
#[tactic(auto, unfolding(crate::specs::Paths::patch))]
pub fn patch(words: &mut Words) -> Result<Rect, WireFault>
    ensures reads { Reads wire_faults (λ x. x) result words.old words.new patch_form }
    ensures small { IfOk result (λ r. AreSidesWithin (2 ^ 30) r) }
{
    words.expect(b"(")?;
    let x = number(words)?;
    let y = number(words)?;
    let u = number(words)?;
    let v = number(words)?;
    words.expect(b")")?;
    Ok(Rect::hull(Point { x, y }, Point { x: u, y: v }))
}
