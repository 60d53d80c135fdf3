//! Points, ranges and rectangles, in DEF database units.
ghost use Rattle.std.specs.Prelude.{◌≡◌, ◌≤ℤ◌};
ghost use Rattle.rt_base.specs.Geometry.{nearest};

use std::marker::Model;

/// A point.
#[derive(Clone, Copy, Debug, PartialEq, Eq, PartialOrd, Ord, Hash)]
pub struct Point {
    pub x: i64,
    pub y: i64,
}

/// A closed range of whole numbers.
#[derive(Clone, Copy, Debug, PartialEq, Eq, PartialOrd, Ord)]
pub struct Span {
    pub lo: i64,
    pub hi: i64,
}

/// A closed rectangle, with `xl <= xh` and `yl <= yh`.
#[derive(Clone, Copy, Debug, PartialEq, Eq, PartialOrd, Ord)]
pub struct Rect {
    pub xl: i64,
    pub yl: i64,
    pub xh: i64,
    pub yh: i64,
}

impl Point {
    ghost use Rattle.std.specs.Prelude.{◌≡◌, ◌<◌, ◌^◌};
    ghost use Rattle.rt_base.specs.Geometry.{distance};

    /// The distance in x plus the distance in y. Takes no memory.
    pub fn distance(self, q: Point) -> u64
        requires { distance self q < 2 ^ 64 }
        ensures { result ≡ distance self q }
    {
        self.x.abs_diff(q.x) + self.y.abs_diff(q.y)
    }
}

/// The number of a range that is nearest to z.
fn nearest(lo: i64, hi: i64, z: i64) -> i64
    requires { lo ≤ℤ hi }
    ensures { result ≡ nearest lo hi z }
{
    z.clamp(lo, hi)
}

impl Model for Rect {
    ghost use Rattle.std.specs.Prelude.{◌≤ℤ◌};
    ghost use Rattle.rt_base.specs.Sides.{Sides};

    ghost Value = { Sides };

    ghost view = { λ r. record { xl = r.xl; yl = r.yl; xh = r.xh; yh = r.yh } };

    ghost invariant = { λ r. (r.xl ≤ℤ r.xh) × (r.yl ≤ℤ r.yh) };

    ghost inverse = { λ s. record { xl = s.xl; yl = s.yl; xh = s.xh; yh = s.yh } };
}

impl Rect {
    ghost use Rattle.std.specs.Prelude.{◌≡◌, ◌≤ℤ◌, ◌^◌, pos, IsTrue, ◌↔◌};
    ghost use Rattle.rt_base.specs.Geometry.{Holds, low_of, high_of, hull_of, hull_of_sides, moved, grown, nearest_point};
    ghost use Rattle.rt_base.specs.Ranges.{IsPointWithin, AreSidesWithin};

    /// The smallest rectangle with both points, its corners in any order. Takes no memory.
    pub fn hull(p: Point, q: Point) -> Rect
        ensures { result ≡ hull_of p q }
    {
        Rect {
            xl: p.x.min(q.x),
            yl: p.y.min(q.y),
            xh: p.x.max(q.x),
            yh: p.y.max(q.y),
        }
    }

    /// The rectangle moved by a point. Takes no memory.
    pub fn moved(self, by: Point) -> Rect
        requires rect { AreSidesWithin (2 ^ 61) self }
        requires by { IsPointWithin (2 ^ 61) by }
        ensures { result ≡ moved by self }
    {
        Rect {
            xl: self.xl + by.x,
            yl: self.yl + by.y,
            xh: self.xh + by.x,
            yh: self.yh + by.y,
        }
    }

    /// The rectangle made larger on each side. Takes no memory.
    pub fn grown(self, by: i64) -> Rect
        requires rect { AreSidesWithin (2 ^ 61) self }
        requires low { pos 0 ≤ℤ by }
        requires high { by ≤ℤ pos (2 ^ 61) }
        ensures { result ≡ grown self by }
    {
        Rect {
            xl: self.xl - by,
            yl: self.yl - by,
            xh: self.xh + by,
            yh: self.yh + by,
        }
    }

    /// The smallest rectangle that holds this one and another. Takes no memory.
    pub fn join(self, other: Rect) -> Rect
        ensures { result ≡ hull_of_sides self other }
    {
        Rect {
            xl: self.xl.min(other.xl),
            yl: self.yl.min(other.yl),
            xh: self.xh.max(other.xh),
            yh: self.yh.max(other.yh),
        }
    }

    /// The point of the rectangle that is nearest to a point. Takes no memory.
    pub fn nearest(self, p: Point) -> Point
        ensures { result ≡ nearest_point self p }
    {
        Point {
            x: nearest(self.xl, self.xh, p.x),
            y: nearest(self.yl, self.yh, p.y),
        }
    }

    /// The lower left corner.
    pub fn low(&self) -> Point
        ensures { result ≡ low_of self.now }
    {
        Point {
            x: self.xl,
            y: self.yl,
        }
    }

    /// The upper right corner.
    pub fn high(&self) -> Point
        ensures corner { result ≡ high_of self.now }
        ensures wide { self.now.xl ≤ℤ self.now.xh }
        ensures tall { self.now.yl ≤ℤ self.now.yh }
    {
        Point {
            x: self.xh,
            y: self.yh,
        }
    }

    /// Whether the closed rectangle holds the point. Takes no memory.
    pub fn holds(&self, p: Point) -> bool
        ensures { IsTrue result ↔ Holds self.now p }
    {
        if p.x < self.xl || self.xh < p.x {
            return false;
        }
        if p.y < self.yl || self.yh < p.y {
            return false;
        }
        true
    }
}
