//! Small arenas.
ghost use Rattle.std.specs.Prelude.{◌≡◌, true};
ghost use Rattle.std.specs.Bool.{OnTrue};
ghost use Rattle.label_arena.specs.Plain.{IsInside};

use crate::{Arena, Interval, IntervalNo, Place};
use rt_base::Span;
use std::process::Abort;
use std::test::Fail;

fn place(interval: u64, coord: i64) -> Place
    ensures { result ≡ record { interval = record { 0 = interval }; coord = coord } }
{
    Place {
        interval: IntervalNo(interval),
        coord,
    }
}

/// Whether a place lies in an interval of the arena.
fn holds(arena: &Arena, place: Place) -> bool
    ensures { OnTrue result (IsInside arena.now.graph place) }
{
    if arena.counts()[0] <= place.interval.0 {
        return false;
    }
    let span = arena.interval(place.interval).span;
    if place.coord < span.lo {
        return false;
    }
    if span.hi < place.coord {
        return false;
    }
    true
}

/// Adds a horizontal interval on level 0 with this line and this factor, from 0 to 1000.
fn add(arena: &mut Arena, line: i64, factor: u64) -> Result<(), Fail> {
    arena.add_interval(Interval {
        level: 0,
        horizontal: true,
        line,
        span: Span { lo: 0, hi: 1000 },
        factor,
    })?;
    Ok(())
}

fn bridge(rt: &impl Abort, arena: &mut Arena, a: Place, b: Place) -> Result<(), Fail> {
    assert!(rt; holds(arena, a));
    assert!(rt; holds(arena, b));
    arena.add_point(a, b, 10, 7)?;
    Ok(())
}

/// Checks the bridges of an interval.
fn expect_bridges(rt: &impl Abort, arena: &Arena, no: u64, want: &[u64])
    requires { arena.now.indexed ≡ true }
{
    assert!(rt; no < arena.counts()[0]);
    assert_eq!(rt; arena.bridges_of(IntervalNo(no)), want);
}

#[test]
fn a_bridge_is_of_both_intervals(rt: HostRuntime) -> Result<(), Fail> {
    let mut arena = Arena::new(rt.alloc());
    add(&mut arena, 0, 1)?;
    add(&mut arena, 200, 8)?;
    bridge(&rt, &mut arena, place(0, 500), place(1, 0))?;
    arena.index()?;
    expect_bridges(&rt, &arena, 0, &[0]);
    expect_bridges(&rt, &arena, 1, &[0]);
    Ok(())
}

/// An arena may go to another thread.
fn moved<T: Send>(value: T) -> T {
    value
}

#[test]
fn arenas_may_be_sent(rt: HostRuntime) -> Result<(), Fail> {
    let arena = moved(Arena::new(rt.alloc()));
    assert_eq!(rt; arena.counts(), [0, 0, 0, 0]);
    Ok(())
}
