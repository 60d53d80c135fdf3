//! The bound.
ghost use Rattle.std.specs.Prelude.{◌≡◌, ℕ, ◌<◌, ◌≤◌, ◌^◌, length, All, Contains};
ghost use Rattle.std.specs.Int.{int_gap, int_max, int_min};
ghost use Rattle.future_cost.specs.Under.{IsHullOf, outside, levels_outside, under, widened};
ghost use Rattle.future_cost.specs.Turns.{is_off, misses, turns};
ghost use Rattle.future_cost.specs.Laws.{Falls, FallsInArenas, IsNear, IsSmall};

use rt_base::{Span, Vertex};

/// The hull of some targets, and the cost of a via.
#[derive(Clone, Copy, Debug, PartialEq, Eq)]
pub struct Bound {
    x: Span,
    y: Span,
    bottom: u8,
    top: u8,
    via: u64,
}

/// How far `to` is above `from`, 0 where it isn't.
fn rise(from: i64, to: i64) -> u64
    ensures { result ≡ int_gap from to }
{
    if to < from { 0 } else { to.abs_diff(from) }
}

/// The smallest span with both.
fn both(a: Span, b: Span) -> Span
    ensures { result ≡ record { lo = int_min a.lo b.lo; hi = int_max a.hi b.hi } }
{
    Span {
        lo: a.lo.min(b.lo),
        hi: a.hi.max(b.hi),
    }
}

/// The spans in x and in y that hold a vertex alone.
fn spans(v: &Vertex) -> (Span, Span)
    ensures x { result.0 ≡ record { lo = v.now.point.x; hi = v.now.point.x } }
    ensures y { result.1 ≡ record { lo = v.now.point.y; hi = v.now.point.y } }
{
    let x = Span {
        lo: v.point.x,
        hi: v.point.x,
    };
    let y = Span {
        lo: v.point.y,
        hi: v.point.y,
    };
    (x, y)
}

/// Whether a range doesn't hold z.
fn is_off(range: Span, z: i64) -> bool
    ensures { result ≡ is_off range z }
{
    z < range.lo || range.hi < z
}

impl Bound {
    ghost use Rattle.rt_base.specs.declared.walk.Vertex.{Vertex as At};

    /// The bound whose hull has one vertex more.
    fn widened(&self, v: &Vertex) -> Bound
        ensures { result ≡ widened self.now v.now }
    {
        let (x, y) = spans(v);
        Bound {
            x: both(self.x, x),
            y: both(self.y, y),
            bottom: self.bottom.min(v.level),
            top: self.top.max(v.level),
            via: self.via,
        }
    }

    /// The bound that goes by these targets, at least one, and by this cost of a via. It is 0 at the
    /// targets. Over a wire it falls by at most the wire's length, and over a change of one level at
    /// one point by at most `via`. Takes no memory.
    pub fn new(targets: &[Vertex], via: u64) -> Bound
        requires { 0 < length targets.now }
        ensures hull { IsHullOf targets.now result }
        ensures via { result.via ≡ via }
        ensures zero { (v : At) → Contains targets.now v → under result v ≡ 0 }
        ensures falls { Falls via (under result) }
        ensures arenas { FallsInArenas via (under result) }
        ensures small { All IsNear targets.now → via ≤ 2 ^ 20 → IsSmall (under result) }
    {
        let first = targets[0];
        let (x, y) = spans(&first);
        let mut bound = Bound {
            x,
            y,
            bottom: first.level,
            top: first.level,
            via,
        };
        'targets: for target in targets {
            bound = bound.widened(target);
        }
        bound
    }

    /// The bound of a vertex: the distances in x and y from its point to the hull of the targets'
    /// points, and `via` for each level between it and the targets' levels. It has to be below 2^64.
    /// Takes no memory.
    pub fn under(&self, v: &Vertex) -> u64
        requires { under self.now v.now < 2 ^ 64 }
        ensures { result ≡ under self.now v.now }
    {
        let x = rise(v.point.x, self.x.lo) + rise(self.x.hi, v.point.x);
        let y = rise(v.point.y, self.y.lo) + rise(self.y.hi, v.point.y);
        let below = self.bottom.saturating_sub(v.level) as u64;
        let above = v.level.saturating_sub(self.top) as u64;
        x + y + self.via * (below + above)
    }

    /// Whether the targets' range across a level's tracks, which run in x or not, doesn't hold the
    /// line that a vertex is on.
    fn misses(&self, v: &Vertex, horizontal: bool) -> bool
        ensures { result ≡ misses self.now horizontal v.now }
    {
        if horizontal {
            is_off(self.y, v.point.y)
        } else {
            is_off(self.x, v.point.x)
        }
    }

    /// How many vias a walk from a vertex to the targets needs beside those between its level and
    /// theirs, where the tracks of its level run in x or not: on a level of theirs, where none of them
    /// is on its line, it has to leave the level, and to come back where it is their only one. Takes no
    /// memory.
    pub fn turns(&self, v: &Vertex, horizontal: bool) -> u64
        ensures { result ≡ turns self.now horizontal v.now }
    {
        if v.level < self.bottom || self.top < v.level {
            return 0;
        }
        if !self.misses(v, horizontal) {
            return 0;
        }
        if self.bottom == self.top { 2 } else { 1 }
    }
}
