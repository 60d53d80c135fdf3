//! Rectilinear polygons, cut into rectangles (LEF 5.8, POLYGON).
ghost use Rattle.std.specs.Prelude.{◌≡◌, ◌++◌, ◌∷◌, [], ◌<ℤ◌, ℕ, List, OnOk, IfOk, All};
ghost use Rattle.std.specs.List.Sorted.{IsPermutation};
ghost use Rattle.rt_base.specs.Ranges.{IsPointWithin, AreSidesWithin};
ghost use Rattle.rt_shapes.specs.EvenOdd.{AreSlabs};
ghost use Rattle.rt_shapes.specs.Polygons.{Edge, is_straight, is_rectilinear_of, IsAscending, heights_of, edges_of, slab_of, slabs_from, slabs_of};
ghost use Rattle.rt_shapes.specs.Sweep.{turns_of, IsRising};

use crate::ascending::put;
use crate::rows::{next_row, row_len, turns};
use rt_base::{Memory, Point, Rect};
use std::alloc::Global;

/// Whether two points differ in exactly one coordinate.
fn is_straight(from: Point, to: Point) -> bool
    ensures { result ≡ is_straight (record { from = from; to = to }) }
{
    (from.x == to.x && from.y != to.y) || (from.y == to.y && from.x != to.x)
}

/// Whether the points go round a rectilinear polygon: there are at least four, and neighbouring
/// ones, the last and the first too, differ in exactly one coordinate. Takes no memory.
pub fn is_rectilinear(points: &[Point]) -> bool
    ensures { result ≡ is_rectilinear_of points.now }
{
    if points.len() < 4 {
        return false;
    }
    let [first, rest @ ..] = points else {
        return false;
    };
    let mut from = *first;
    for to in rest {
        if !is_straight(from, *to) {
            return false;
        }
        from = *to;
    }
    is_straight(from, *first)
}

/// The heights of these points, ascending, each once. Where the points rise it takes the least
/// time.
fn heights(alloc: Global, points: &[Point]) -> Result<Vec<i64>, Memory>
    ensures exact { IfOk result (λ ys. ys.items ≡ heights_of points.now) }
    ensures ascending { IfOk result (λ ys. IsAscending ys.items) }
{
    let mut ys = Vec::new(alloc);
    for p in points {
        put(&mut ys, p.y)?;
    }
    Ok(ys)
}

/// Adds a rectangle.
fn add_rect(out: &mut Vec<Rect>, low: i64, high: i64, left: i64, right: i64) -> Result<(), Memory>
    requires rising { low <ℤ high }
    requires wide { left <ℤ right }
    ensures { OnOk result (out.new.items ≡ out.old.items ++ record { xl = left; yl = low; xh = right; yh = high } ∷ []) }
{
    out.push(Rect {
        xl: left,
        yl: low,
        xh: right,
        yh: high,
    })?;
    Ok(())
}

/// Adds the rectangles between two heights: from the 1st x to the 2nd, from the 3rd to the 4th ..
fn add_slab(out: &mut Vec<Rect>, low: i64, high: i64, xs: &[i64]) -> Result<(), Memory>
    requires rising { low <ℤ high }
    requires ascending { IsAscending xs.now }
    ensures { OnOk result (out.new.items ≡ out.old.items ++ slab_of low high xs.now) }
{
    let mut rest = xs;
    'pairs: while let [left, right, others @ ..] = rest {
        add_rect(out, low, high, *left, *right)?;
        rest = others;
    }
    Ok(())
}

/// Adds the rectangles between each two neighbouring heights.
fn add_slabs(
    out: &mut Vec<Rect>,
    alloc: Global,
    turns: &[Point],
    lowest: i64,
    above: &[i64],
) -> Result<(), Memory>
    requires rising { IsRising turns.now }
    requires ascending { IsAscending (lowest ∷ above.now) }
    ensures { (edges : List Edge) → IsPermutation (turns_of edges) turns.now → OnOk result (out.new.items ≡ out.old.items ++ slabs_from edges lowest above.now) }
{
    let mut low = lowest;
    let mut xs = Vec::new(alloc);
    let mut rest = turns;
    for high in above {
        let (row, ahead) = rest.split_at(row_len(rest, low));
        xs = next_row(alloc, xs.as_slice(), row)?;
        add_slab(out, low, *high, xs.as_slice())?;
        low = *high;
        rest = ahead;
    }
    Ok(())
}

/// The rectangles of a polygon.
fn cut_up(alloc: Global, points: &[Point]) -> Result<Vec<Rect>, Memory>
    ensures { IfOk result (λ v. v.items ≡ slabs_of points.now) }
{
    let mut out = Vec::new(alloc);
    let turns = turns(alloc, points)?;
    let heights = heights(alloc, turns.as_slice())?;
    if let [lowest, above @ ..] = heights.as_slice() {
        add_slabs(&mut out, alloc, turns.as_slice(), *lowest, above)?;
    }
    Ok(out)
}

/// The rectangles of a polygon, bottom up and left to right: between each height of its points and
/// the next one, the widest x intervals that are inside by the even-odd rule. A unit square is
/// inside where an odd number of the edges that pass its row stand left of it. The points go round
/// the polygon, the last one next to the first. They needn't be rectilinear, but of an edge that
/// isn't upright the x of its first point counts in all rows that it passes. `Memory` where memory
/// runs out (LEF 5.8, POLYGON).
pub fn slabs(alloc: Global, points: &[Point]) -> Result<Vec<Rect>, Memory>
    ensures value { IfOk result (λ v. v.items ≡ slabs_of points.now) }
    ensures inside { IfOk result (λ v. AreSlabs points.now v.items) }
    ensures within { (most : ℕ) → All (IsPointWithin most) points.now → IfOk result (λ v. All (AreSidesWithin most) v.items) }
{
    let rects = cut_up(alloc, points)?;
    Ok(rects)
}
