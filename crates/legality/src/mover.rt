//! A rectangle that moves along a line, and where it is too near to another.
ghost use Rattle.std.specs.Prelude.{◌≡◌, ◌<◌, ◌≤◌, ◌^◌, ℕ, ℤ, pos, ◌≤ℤ◌, ◌<ℤ◌, true, false, IsTrue, ◌↔◌, IfSome, IfNone};
ghost use Rattle.rt_base.specs.Conflict.{is_near_of};
ghost use Rattle.rt_base.specs.Ranges.{AreSidesWithin};
ghost use Rattle.regions.specs.Covered.{point_at};
ghost use Rattle.legality.specs.Gaps.{extent_of, gap_across};
ghost use Rattle.legality.specs.Forbidden.{is_near_at, IsSpanOf, IsMover};

use regions::Line;
use rt_base::{Point, Rect, Span, gap};

/// A rectangle that moves along a line, and what it keeps to others. `rect` is where it stands round
/// the point (0, 0); at z it stands so round the point of the line at z.
#[derive(Clone, Copy)]
pub struct Mover {
    pub line: Line,
    pub rect: Rect,
    pub spacing: u64,
}

/// The greatest gap in one direction at which two rectangles with this gap in the other direction are
/// nearer than a spacing, `None` where they aren't at any.
fn reach(across: u64, spacing: u64) -> Option<u64>
    requires { spacing ≤ 2 ^ 32 }
    ensures some { IfSome result (λ r. (along : ℕ) → (along ≤ r) ↔ (is_near_of along across spacing ≡ true)) }
    ensures small { IfSome result (λ r. r < 2 ^ 32) }
    ensures none { IfNone result ((along : ℕ) → is_near_of along across spacing ≡ false) }
{
    if spacing <= across {
        return None;
    }
    Some(((spacing - 1) * (spacing + 1) - across * across).isqrt())
}

/// The extent of a rectangle in x or in y.
pub fn extent(in_x: bool, rect: &Rect) -> Span
    ensures value { result ≡ extent_of in_x rect.now }
    ensures full { result.lo ≤ℤ result.hi }
{
    if in_x {
        Span {
            lo: rect.xl,
            hi: rect.xh,
        }
    } else {
        Span {
            lo: rect.yl,
            hi: rect.yh,
        }
    }
}

/// The point of a line at z.
pub fn point_at(line: &Line, z: i64) -> Point
    ensures { result ≡ point_at line.now z }
{
    if line.in_x {
        Point { x: z, y: line.at }
    } else {
        Point { x: line.at, y: z }
    }
}

impl Mover {
    /// The gap across the line to another rectangle.
    fn gap_across(&self, other: &Rect) -> u64
        requires { IsMover self.now }
        ensures { result ≡ gap_across self.now other.now }
    {
        if self.line.in_x {
            let (_, y) = gap(&self.rect.moved(point_at(&self.line, 0)), other);
            return y;
        }
        let (x, _) = gap(&self.rect.moved(point_at(&self.line, 0)), other);
        x
    }

    /// Whether the gap across the line to another rectangle is so large that the two are near nowhere.
    pub(crate) fn is_clear_of(&self, other: &Rect) -> bool
        requires { IsMover self.now }
        ensures { IsTrue result ↔ (self.now.spacing ≤ gap_across self.now other.now) }
    {
        self.spacing <= self.gap_across(other)
    }

    /// The whole numbers at which the rectangle, moved along its line, is nearer to another than the
    /// spacing; they are one span. `None` exactly where there are none. Takes no memory.
    pub fn forbidden(&self, other: &Rect) -> Option<Span>
        requires mover { IsMover self.now }
        requires other { AreSidesWithin (2 ^ 61) other.now }
        ensures some { IfSome result (IsSpanOf (is_near_at self.now other.now)) }
        ensures small { IfSome result (λ s. s.hi <ℤ pos (2 ^ 62)) }
        ensures none { IfNone result ((z : ℤ) → is_near_at self.now other.now z ≡ false) }
    {
        let reach = reach(self.gap_across(other), self.spacing)? as i64;
        let mine = extent(self.line.in_x, &self.rect);
        let its = extent(self.line.in_x, other);
        Some(Span {
            lo: its.lo - mine.hi - reach,
            hi: its.hi - mine.lo + reach,
        })
    }
}
