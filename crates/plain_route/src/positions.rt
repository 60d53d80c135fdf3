//! The next positions on either side of one, among those of two lists: the track lines of the levels
//! below and above.
ghost use Rattle.std.specs.Prelude.{◌≡◌, ◌↔◌, ℤ, ◌<ℤ◌, ◌++◌, AllPairs, Contains, IsTrue, IfSome, Some};
ghost use Rattle.track_graph.specs.Edges.{AreNeighbours};
ghost use Rattle.track_graph.specs.Levels.{NoneBetween};
ghost use Rattle.plain_route.specs.Positions.{lesser, greater};

use track_graph::{next_above, next_below};

/// The lesser of two positions, as far as they are there.
fn lesser(a: Option<i64>, b: Option<i64>) -> Option<i64>
    ensures { result ≡ lesser a b }
{
    let Some(x) = a else {
        return b;
    };
    match b {
        Some(y) => Some(x.min(y)),
        None => Some(x),
    }
}

/// The greater of two positions, as far as they are there.
fn greater(a: Option<i64>, b: Option<i64>) -> Option<i64>
    ensures { result ≡ greater a b }
{
    let Some(x) = a else {
        return b;
    };
    match b {
        Some(y) => Some(x.max(y)),
        None => Some(x),
    }
}

/// The next position past another, upwards. The lists ascend.
pub fn next_up(under: &[i64], over: &[i64], at: i64) -> Option<i64>
    requires under { AllPairs (λ a b. a <ℤ b) under.now }
    requires over { AllPairs (λ a b. a <ℤ b) over.now }
    ensures next { (z : ℤ) → Contains (under.now ++ over.now) z → at <ℤ z → NoneBetween (under.now ++ over.now) at z → result ≡ Some z }
    ensures past { IfSome result (λ z. Contains (under.now ++ over.now) z × (at <ℤ z) × NoneBetween (under.now ++ over.now) at z) }
{
    lesser(next_above(under, at), next_above(over, at))
}

/// The next position past another, downwards. The lists ascend.
pub fn next_down(under: &[i64], over: &[i64], at: i64) -> Option<i64>
    requires under { AllPairs (λ a b. a <ℤ b) under.now }
    requires over { AllPairs (λ a b. a <ℤ b) over.now }
    ensures next { (z : ℤ) → Contains (under.now ++ over.now) z → z <ℤ at → NoneBetween (under.now ++ over.now) z at → result ≡ Some z }
    ensures past { IfSome result (λ z. Contains (under.now ++ over.now) z × (z <ℤ at) × NoneBetween (under.now ++ over.now) z at) }
{
    greater(next_below(under, at), next_below(over, at))
}

/// Whether there is a position and it is this one.
fn is_at(position: Option<i64>, z: i64) -> bool
    ensures { IsTrue result ↔ (position ≡ Some z) }
{
    match position {
        Some(y) => y == z,
        None => false,
    }
}

/// Whether a number is one of the positions, and the next one on either side of another. The lists
/// ascend.
pub fn are_next(under: &[i64], over: &[i64], from: i64, to: i64) -> bool
    requires under { AllPairs (λ a b. a <ℤ b) under.now }
    requires over { AllPairs (λ a b. a <ℤ b) over.now }
    ensures { IsTrue result ↔ (Contains (under.now ++ over.now) to × AreNeighbours (under.now ++ over.now) from to) }
{
    if from < to {
        return is_at(next_up(under, over, from), to);
    }
    if to < from {
        return is_at(next_down(under, over, from), to);
    }
    false
}
