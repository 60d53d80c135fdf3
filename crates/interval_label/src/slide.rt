//! What slides cost, and the bound at places.
ghost use Rattle.std.specs.Prelude.{◌≡◌, ◌<◌, ◌^◌, ◌≤ℤ◌, length, slice_get, Some};
ghost use Rattle.std.specs.Bool.{OnFalse, OnTrue};
ghost use Rattle.label_arena.specs.Plain.{gap, slide, IsInside};
ghost use Rattle.interval_label.specs.Task.{left_at, IsPriced};

use future_cost::Bound;
use label_arena::{Arena, IntervalNo, Place, Run};

/// How far apart the coordinates of two places are.
fn apart(from: Place, to: Place) -> u64
    ensures { result ≡ gap from.coord to.coord }
{
    from.coord.abs_diff(to.coord)
}

/// What the slide between two places of one interval costs.
pub fn along(arena: &Arena, from: Place, to: Place) -> u64
    requires priced { IsPriced arena.now.graph }
    requires from { IsInside arena.now.graph from }
    requires to { IsInside arena.now.graph to }
    requires one_interval { from.interval ≡ to.interval }
    ensures value { result ≡ slide arena.now.graph from to.coord }
    ensures small { result < 2 ^ 60 }
{
    arena.interval(from.interval).factor * apart(from, to)
}

/// The same coordinate of an interval.
pub fn moved(place: Place, interval: IntervalNo) -> Place
    ensures number { result.interval ≡ interval }
    ensures coord { result.coord ≡ place.coord }
{
    Place {
        interval,
        coord: place.coord,
    }
}

/// The run with a number.
pub fn run_of(arena: &Arena, k: u64) -> Run
    requires { k < length arena.now.graph.runs }
    ensures { slice_get arena.now.graph.runs k ≡ Some result }
{
    let (a, b, span, cost) = arena.run(k);
    Run { a, b, span, cost }
}

/// The low end of a run on its first interval.
pub fn low_end(run: Run) -> Place
    ensures { result.coord ≡ run.span.lo }
{
    Place {
        interval: run.a,
        coord: run.span.lo,
    }
}

/// The high end of a run on its first interval.
pub fn high_end(run: Run) -> Place
    ensures { result.coord ≡ run.span.hi }
{
    Place {
        interval: run.a,
        coord: run.span.hi,
    }
}

/// Whether two coordinates are the same.
pub fn is_at(mark: Place, place: Place) -> bool
    ensures yes { OnTrue result (mark.coord ≡ place.coord) }
    ensures no { OnFalse result (mark.coord ≡ place.coord → ⊥) }
{
    if mark.coord == place.coord {
        return true;
    }
    false
}

/// Whether a run's span holds the coordinate of a place.
pub fn holds(run: Run, place: Place) -> bool
    ensures yes { OnTrue result ((run.span.lo ≤ℤ place.coord) × (place.coord ≤ℤ run.span.hi)) }
    ensures no { OnFalse result (run.span.lo ≤ℤ place.coord → place.coord ≤ℤ run.span.hi → ⊥) }
{
    if place.coord < run.span.lo {
        return false;
    }
    if run.span.hi < place.coord {
        return false;
    }
    true
}

/// The bound at a place.
pub fn left(arena: &Arena, bound: &Bound, place: Place) -> u64
    requires inside { IsInside arena.now.graph place }
    requires small { left_at arena.now.graph bound.now place < 2 ^ 62 }
    ensures { result ≡ left_at arena.now.graph bound.now place }
{
    let vertex = arena.vertex(place);
    bound.under(&vertex)
}
