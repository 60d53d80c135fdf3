//! Marks that were found so far.
ghost use Rattle.std.specs.Prelude.{◌≡◌, ◌<◌, length, OnOk, IfOk, Contains, [], true};
ghost use Rattle.std.specs.Bool.{OnFalse, OnTrue};
ghost use Rattle.label_arena.specs.Plain.{IsInside, IsJoined};
ghost use Rattle.label_arena.specs.Marks.{IsStop, IsBridgeEnd, IsRunEnd};
ghost use Rattle.interval_label.specs.Task.{AreStops};
ghost use Rattle.interval_label.specs.Known.{IsMarking, Marks, IsAcross, IsJoinedTo};

use crate::rows::{add_to, empty_rows, row_of};
use crate::slide::{high_end, holds, is_at, low_end, moved, run_of};
use label_arena::{Arena, IntervalNo, Place};
use rt_base::{Memory, Seq};
use std::alloc::Global;

/// A mark of an interval.
#[derive(Clone, Copy)]
pub struct Mark {
    pub coord: i64,
}

impl Mark {
    /// The mark of a place.
    pub fn of(place: Place) -> Mark
        ensures { result ≡ record { coord = place.coord } }
    {
        Mark { coord: place.coord }
    }

    /// The mark's place on an interval.
    pub fn on(self, interval: IntervalNo) -> Place
        ensures { result ≡ record { interval = interval; coord = self.coord } }
    {
        Place {
            interval,
            coord: self.coord,
        }
    }
}

/// Places in the order in which they were found, and their coordinates by interval.
#[derive(Drop)]
pub struct Marking {
    pub list: Vec<Place>,
    pub rows: Seq<Seq<Mark>>,
}

/// Whether a row has the coordinate of a place.
fn has(row: &[Mark], place: Place) -> bool
    ensures yes { OnTrue result (Contains row.now (record { coord = place.coord })) }
    ensures no { OnFalse result (Contains row.now (record { coord = place.coord }) → ⊥) }
{
    'row: for mark in row {
        let other = mark.on(place.interval);
        if is_at(other, place) {
            return true;
        }
    }
    false
}

impl Marking {
    /// No places.
    pub fn new(alloc: Global, arena: &Arena) -> Result<Marking, Memory>
        ensures marking { IfOk result (λ m. IsMarking arena.now.graph m.list.items m.rows) }
        ensures empty { IfOk result (λ m. m.list.items ≡ []) }
    {
        let rows = empty_rows(alloc, arena)?;
        Ok(Marking {
            list: Vec::new(alloc),
            rows,
        })
    }

    /// Adds a place unless it is there.
    fn add(&mut self, arena: &Arena, place: Place) -> Result<(), Memory>
        requires marking { IsMarking arena.now.graph self.old.list.items self.old.rows }
        requires inside { IsInside arena.now.graph place }
        ensures ok { OnOk result (Marks arena.now.graph (λ v. v ≡ place) self.old self.new) }
        ensures has { OnOk result (Contains self.new.list.items place) }
    {
        if has(row_of(&self.rows, place.interval), place) {
            return Ok(());
        }
        self.list.push(place)?;
        add_to(&mut self.rows, place.interval, Mark::of(place))?;
        Ok(())
    }

    /// Adds the places of stops.
    pub fn add_stops(&mut self, arena: &Arena, stops: &[(Place, u64)]) -> Result<(), Memory>
        requires marking { IsMarking arena.now.graph self.old.list.items self.old.rows }
        requires stops { AreStops arena.now.graph stops.now }
        ensures ok { OnOk result (Marks arena.now.graph (IsStop stops.now) self.old self.new) }
        ensures all { OnOk result ((v : Place) → IsStop stops.now v → Contains self.new.list.items v) }
    {
        'stops: for k in 0..stops.len() {
            let (place, _cost) = stops[k];
            self.add(arena, place)?;
        }
        Ok(())
    }

    /// Adds the ends of the point bridges.
    pub fn add_bridges(&mut self, arena: &Arena) -> Result<(), Memory>
        requires marking { IsMarking arena.now.graph self.old.list.items self.old.rows }
        ensures ok { OnOk result (Marks arena.now.graph (IsBridgeEnd arena.now.graph) self.old self.new) }
        ensures all { OnOk result ((v : Place) → IsBridgeEnd arena.now.graph v → Contains self.new.list.items v) }
    {
        let counts = arena.counts();
        'bridges: for k in 0..counts[1] {
            let point = arena.point(k);
            self.add(arena, point.0)?;
            self.add(arena, point.1)?;
        }
        Ok(())
    }

    /// Adds the coordinate of a place on both intervals of a run, if the run holds it.
    fn add_across(&mut self, arena: &Arena, k: u64, place: Place) -> Result<(), Memory>
        requires marking { IsMarking arena.now.graph self.old.list.items self.old.rows }
        requires joined { IsJoined arena.now.graph }
        requires within { k < length arena.now.graph.runs }
        ensures ok { OnOk result (Marks arena.now.graph (IsAcross arena.now.graph k place.coord) self.old self.new) }
        ensures all { OnOk result ((v : Place) → IsAcross arena.now.graph k place.coord v → Contains self.new.list.items v) }
    {
        let run = run_of(arena, k);
        if !holds(run, place) {
            return Ok(());
        }
        self.add(arena, moved(place, run.a))?;
        self.add(arena, moved(place, run.b))?;
        Ok(())
    }

    /// Adds the ends of the runs.
    pub fn add_runs(&mut self, arena: &Arena) -> Result<(), Memory>
        requires marking { IsMarking arena.now.graph self.old.list.items self.old.rows }
        ensures ok { OnOk result (Marks arena.now.graph (IsRunEnd arena.now.graph) self.old self.new) }
        ensures all { OnOk result ((v : Place) → IsRunEnd arena.now.graph v → Contains self.new.list.items v) }
    {
        let counts = arena.counts();
        'runs: for k in 0..counts[2] {
            let run = run_of(arena, k);
            self.add_across(arena, k, low_end(run))?;
            self.add_across(arena, k, high_end(run))?;
        }
        Ok(())
    }

    /// Adds what runs join to a place.
    pub fn follow(&mut self, arena: &Arena, place: Place) -> Result<(), Memory>
        requires marking { IsMarking arena.now.graph self.old.list.items self.old.rows }
        requires joined { IsJoined arena.now.graph }
        requires inside { IsInside arena.now.graph place }
        requires indexed { arena.now.indexed ≡ true }
        ensures ok { OnOk result (Marks arena.now.graph (IsJoinedTo arena.now.graph place) self.old self.new) }
        ensures all { OnOk result ((v : Place) → IsJoinedTo arena.now.graph place v → Contains self.new.list.items v) }
    {
        'runs: for k in arena.runs_of(place.interval) {
            self.add_across(arena, *k, place)?;
        }
        Ok(())
    }
}
