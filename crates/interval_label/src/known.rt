//! The marks of an arena.
ghost use Rattle.std.specs.Prelude.{◌≡◌, IfOk, true};
ghost use Rattle.label_arena.specs.Plain.{IsJoined};
ghost use Rattle.interval_label.specs.Task.{AreStops};
ghost use Rattle.interval_label.specs.Known.{KnowsMarks};

use crate::even::is_even;
use crate::marking::{Mark, Marking};
use label_arena::{Arena, Place};
use rt_base::{Memory, Seq};
use std::alloc::Global;

/// The coordinates of the marks of each interval, or `None` where each run joins intervals of one
/// factor.
pub fn known_marks(
    alloc: Global,
    arena: &Arena,
    sources: &[(Place, u64)],
    targets: &[(Place, u64)],
) -> Result<Option<Seq<Seq<Mark>>>, Memory>
    requires joined { IsJoined arena.now.graph }
    requires sources { AreStops arena.now.graph sources.now }
    requires targets { AreStops arena.now.graph targets.now }
    requires indexed { arena.now.indexed ≡ true }
    ensures { IfOk result (KnowsMarks arena.now.graph sources.now targets.now) }
{
    if is_even(arena) {
        return Ok(None);
    }
    let mut marks = Marking::new(alloc, arena)?;
    marks.add_stops(arena, sources)?;
    marks.add_stops(arena, targets)?;
    marks.add_bridges(arena)?;
    marks.add_runs(arena)?;
    let mut next = 0;
    'marks: while next < marks.list.len() {
        let place = marks.list[next];
        marks.follow(arena, place)?;
        next += 1;
    }
    let Marking { list: _, rows } = marks;
    Ok(Some(rows))
}
