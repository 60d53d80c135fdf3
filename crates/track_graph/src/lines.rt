//! Parts of ascending lists of numbers: track lines and positions.
ghost use Rattle.std.specs.Prelude.{◌≡◌, ◌↔◌, ◌≤◌, length, ℤ, ◌<ℤ◌, ◌≤ℤ◌, Contains, Some, IfSome};
ghost use Rattle.std.specs.List.Sorted.{IsPartitionPoint};
ghost use Rattle.track_graph.specs.Levels.{IsAscending, NoneBetween};

use rt_base::Span;

/// How many of these numbers, which ascend, are less than a bound. Takes no memory.
pub fn count_below(lines: &[i64], bound: i64) -> usize
    requires { IsAscending lines.now }
    ensures within { result ≤ length lines.now }
    ensures parts { IsPartitionPoint (λ y. y <ℤ bound) (λ y. bound ≤ℤ y) lines.now result }
{
    lines.partition_point(|z| *z < bound)
}

/// How many of these numbers, which ascend, are at most a bound. Takes no memory.
pub fn count_up_to(lines: &[i64], bound: i64) -> usize
    requires { IsAscending lines.now }
    ensures within { result ≤ length lines.now }
    ensures parts { IsPartitionPoint (λ y. y ≤ℤ bound) (λ y. bound <ℤ y) lines.now result }
{
    lines.partition_point(|z| *z <= bound)
}

/// Those of these numbers, which ascend, that are at least a bound.
fn lines_from(lines: &[i64], least: i64) -> &[i64]
    requires { IsAscending lines.now }
    ensures ascending { IsAscending result.now }
    ensures those { (z : ℤ) → Contains result.now z ↔ (Contains lines.now z × (least ≤ℤ z)) }
{
    &lines[count_below(lines, least)..]
}

/// Those of these numbers, which ascend, that are at most a bound.
fn lines_up_to(lines: &[i64], most: i64) -> &[i64]
    requires { IsAscending lines.now }
    ensures ascending { IsAscending result.now }
    ensures those { (z : ℤ) → Contains result.now z ↔ (Contains lines.now z × (z ≤ℤ most)) }
{
    &lines[..count_up_to(lines, most)]
}

/// Those of these numbers, which ascend, that lie in a range, ascending. Takes no memory.
pub fn lines_in(lines: &[i64], range: Span) -> &[i64]
    requires { IsAscending lines.now }
    ensures ascending { IsAscending result.now }
    ensures those { (z : ℤ) → Contains result.now z ↔ (Contains lines.now z × (range.lo ≤ℤ z) × (z ≤ℤ range.hi)) }
{
    lines_up_to(lines_from(lines, range.lo), range.hi)
}

/// The next of these numbers, which ascend, past z; `None` where none is greater. Takes no memory.
pub fn next_above(lines: &[i64], z: i64) -> Option<i64>
    requires { IsAscending lines.now }
    ensures next { (y : ℤ) → Contains lines.now y → z <ℤ y → NoneBetween lines.now z y → result ≡ Some y }
    ensures above { IfSome result (λ y. Contains lines.now y × (z <ℤ y)) }
{
    lines.get(count_up_to(lines, z)).copied()
}

/// The next of these numbers, which ascend, before z; `None` where none is less. Takes no memory.
pub fn next_below(lines: &[i64], z: i64) -> Option<i64>
    requires { IsAscending lines.now }
    ensures next { (y : ℤ) → Contains lines.now y → y <ℤ z → NoneBetween lines.now y z → result ≡ Some y }
    ensures below { IfSome result (λ y. Contains lines.now y × (y <ℤ z)) }
{
    match count_below(lines, z) {
        0 => None,
        count => lines.get(count - 1).copied(),
    }
}
