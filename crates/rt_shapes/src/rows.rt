//! The rows of a polygon from the bottom up: where each one's crossings differ from those below.
ghost use Rattle.std.specs.Prelude.{◌≡◌, ◌++◌, ◌∷◌, [], ◌≤◌, ◌+◌, ◌%◌, ℤ, ◌<ℤ◌, ◌≤ℤ◌, Bool, length, map, take, drop, count_by, OnOk, IfOk, All};
ghost use Rattle.std.specs.List.Sorted.{IsPermutation};
ghost use Rattle.rt_base.specs.declared.geometry.Point.{Point};
ghost use Rattle.rt_shapes.specs.Polygons.{IsAscending, edges_of};
ghost use Rattle.rt_shapes.specs.Sweep.{turns_of, IsRising};

use crate::ascending::toggle;
use rt_base::{Memory, Point};
use std::alloc::Global;

/// Adds both ends of an edge, at the x of its first point.
fn add_turns(turns: &mut Vec<Point>, from: Point, to: Point) -> Result<(), Memory>
    ensures { OnOk result (turns.new.items ≡ turns.old.items ++ turns_of (record { from = from; to = to } ∷ [])) }
{
    turns.push(from)?;
    turns.push(Point { x: from.x, y: to.y })?;
    Ok(())
}

/// Both ends of each edge of a polygon, at the x of its first point.
fn edge_turns(alloc: Global, points: &[Point]) -> Result<Vec<Point>, Memory>
    ensures { IfOk result (λ v. v.items ≡ turns_of (edges_of points.now)) }
{
    let mut turns = Vec::new(alloc);
    let [first, rest @ ..] = points else {
        return Ok(turns);
    };
    let mut from = *first;
    for to in rest {
        add_turns(&mut turns, from, *to)?;
        from = *to;
    }
    add_turns(&mut turns, from, *first)?;
    Ok(turns)
}

/// Where the rows of a polygon change, lowest first.
pub fn turns(alloc: Global, points: &[Point]) -> Result<Vec<Point>, Memory>
    ensures all { IfOk result (λ v. IsPermutation (turns_of (edges_of points.now)) v.items) }
    ensures rising { IfOk result (λ v. IsRising v.items) }
{
    let mut turns = edge_turns(alloc, points)?;
    turns.sort_unstable_by_key(|turn| turn.y);
    Ok(turns)
}

/// How many of these turns aren't above y.
pub fn row_len(turns: &[Point], y: i64) -> usize
    requires { IsRising turns.now }
    ensures bound { result ≤ length turns.now }
    ensures passed { All (λ (p : Point). p.y ≤ℤ y) (take result turns.now) }
    ensures ahead { All (λ (p : Point). y <ℤ p.y) (drop result turns.now) }
{
    turns.partition_point(|turn| turn.y <= y)
}

/// Those of these numbers that stand among them an odd number of times, ascending. Where they
/// ascend already it takes the least time.
fn odd_ones(alloc: Global, numbers: &[i64]) -> Result<Vec<i64>, Memory>
    ensures ascending { IfOk result (λ v. IsAscending v.items) }
    ensures parity { (p : ℤ → Bool) → IfOk result (λ v. count_by p v.items % 2 ≡ count_by p numbers.now % 2) }
{
    let mut odd = Vec::new(alloc);
    for x in numbers {
        toggle(&mut odd, *x)?;
    }
    Ok(odd)
}

/// These numbers and the x of these turns.
fn with_turns(alloc: Global, xs: &[i64], turns: &[Point]) -> Result<Vec<i64>, Memory>
    ensures { IfOk result (λ v. v.items ≡ xs.now ++ map (λ (p : Point). p.x) turns.now) }
{
    let mut all = Vec::new(alloc);
    all.extend_from_slice(xs)?;
    for turn in turns {
        all.push(turn.x)?;
    }
    Ok(all)
}

/// The crossings above these turns, where xs are those below.
pub fn next_row(alloc: Global, xs: &[i64], turns: &[Point]) -> Result<Vec<i64>, Memory>
    ensures ascending { IfOk result (λ v. IsAscending v.items) }
    ensures parity { (p : ℤ → Bool) → IfOk result (λ v. count_by p v.items % 2 ≡ (count_by p xs.now + count_by (λ (q : Point). p q.x) turns.now) % 2) }
{
    let mut all = with_turns(alloc, xs, turns)?;
    all.sort_unstable();
    odd_ones(alloc, all.as_slice())
}
