//! The arena, and what adds to it.
ghost use Rattle.std.specs.Prelude.{◌≡◌, ◌+◌, ◌++◌, ◌∷◌, [], length, true, false, OnOk, OnErr, IfOk};
ghost use Rattle.label_arena.specs.Plain.{IsInside, IsIn, IsRun};

use crate::ends::{end_bridges, end_runs};
use crate::group::{End, Group};
use crate::place::{Bridge, Interval, IntervalNo, Label, LabelNo, Place, Run};
use crate::row::{add_row, clear_all, count_below, insert};
use crate::steps::Steps;
use rt_base::{Memory, Span};
use smallvec::SmallVec;
use std::alloc::Global;
use std::marker::Model;
use std::sync::ledger::Ledger;

/// Intervals, the point bridges and runs that join them, and labels. Each kind is numbered from 0 in
/// the order of adding. Contracts see the graph (the lists of intervals, bridges and runs), the list
/// of labels, and whether the index is made.
#[derive(Drop)]
pub struct Arena {
    alloc: Global,
    pub(crate) intervals: Vec<Interval>,
    pub(crate) bridges: Vec<Bridge>,
    pub(crate) runs: Vec<Run>,
    pub(crate) labels: Vec<Label>,
    pub(crate) rows: Vec<SmallVec<u64, 2>>,
    pub(crate) ends: Vec<End>,
    pub(crate) bridges_by: Group,
    pub(crate) runs_by: Group,
    pub(crate) indexed: bool,
}

impl Model for Arena {
    ghost use Rattle.label_arena.specs.Lists.{Lists};
    ghost use Rattle.label_arena.specs.Keeping.{IsKept};
    ghost use Rattle.label_arena.specs.Rows.{rows_of};

    ghost Value = { Lists };

    ghost view = { λ a. record { graph = record { intervals = a.intervals.items; bridges = a.bridges.items; runs = a.runs.items }; labels = a.labels.items; indexed = a.indexed } };

    ghost invariant = { λ a. IsKept (record { intervals = a.intervals.items; bridges = a.bridges.items; runs = a.runs.items }) a.labels.items (rows_of a.rows.items) a.indexed a.bridges_by a.runs_by };
}

impl Arena {
    /// An arena without intervals and labels. Takes no memory.
    pub fn new(alloc: Global) -> Arena
        ensures intervals { result.graph.intervals ≡ [] }
        ensures bridges { result.graph.bridges ≡ [] }
        ensures runs { result.graph.runs ≡ [] }
        ensures labels { result.labels ≡ [] }
        ensures indexed { result.indexed ≡ false }
    {
        Arena {
            alloc,
            intervals: Vec::new(alloc),
            bridges: Vec::new(alloc),
            runs: Vec::new(alloc),
            labels: Vec::new(alloc),
            rows: Vec::new(alloc),
            ends: Vec::new(alloc),
            bridges_by: Group::new(alloc),
            runs_by: Group::new(alloc),
            indexed: false,
        }
    }

    /// Adds an interval, and answers its number. An interval whose span is empty has no places.
    pub fn add_interval(&mut self, interval: Interval) -> Result<IntervalNo, Memory>
        ensures number { IfOk result (λ n. n.0 ≡ length self.old.graph.intervals) }
        ensures graph { OnOk result (self.new.graph ≡ record self.old.graph { intervals = self.old.graph.intervals ++ interval ∷ [] }) }
        ensures labels { self.new.labels ≡ self.old.labels }
        ensures err { OnErr result (self.new ≡ self.old) }
    {
        let number = self.intervals.len();
        add_row(&mut self.rows, self.alloc, number)?;
        self.intervals.push(interval)?;
        self.indexed = false;
        Ok(IntervalNo(number as u64))
    }

    /// Adds a point bridge.
    pub fn add_point(&mut self, a: Place, b: Place, cost: u64, tag: u32) -> Result<(), Memory>
        requires a { IsInside self.old.graph a }
        requires b { IsInside self.old.graph b }
        ensures graph { OnOk result (self.new.graph ≡ record self.old.graph { bridges = self.old.graph.bridges ++ (record { a = a; b = b; cost = cost; tag = tag }) ∷ [] }) }
        ensures labels { self.new.labels ≡ self.old.labels }
        ensures err { OnErr result (self.new ≡ self.old) }
    {
        self.bridges.push(Bridge { a, b, cost, tag })?;
        self.indexed = false;
        Ok(())
    }

    /// Adds a run between two intervals of one level and one direction that both hold the whole
    /// span. A run over an empty span joins nothing.
    pub fn add_run(
        &mut self,
        a: IntervalNo,
        b: IntervalNo,
        span: Span,
        cost: u64,
    ) -> Result<(), Memory>
        requires { IsRun self.old.graph.intervals (record { a = a; b = b; span = span; cost = cost }) }
        ensures graph { OnOk result (self.new.graph ≡ record self.old.graph { runs = self.old.graph.runs ++ (record { a = a; b = b; span = span; cost = cost }) ∷ [] }) }
        ensures labels { self.new.labels ≡ self.old.labels }
        ensures err { OnErr result (self.new ≡ self.old) }
    {
        self.runs.push(Run { a, b, span, cost })?;
        self.indexed = false;
        Ok(())
    }

    /// Makes the index of the bridges and runs of each interval, unless it is made.
    pub fn index(&mut self) -> Result<(), Memory>
        ensures indexed { OnOk result (self.new.indexed ≡ true) }
        ensures graph { self.new.graph ≡ self.old.graph }
        ensures labels { self.new.labels ≡ self.old.labels }
    {
        if self.indexed {
            return Ok(());
        }
        let count = self.intervals.len();
        end_bridges(&mut self.ends, &self.bridges)?;
        self.bridges_by.fill(count, &self.ends)?;
        end_runs(&mut self.ends, &self.runs)?;
        self.runs_by.fill(count, &self.ends)?;
        self.indexed = true;
        Ok(())
    }

    /// Adds a label at a place of the arena, answers its number, and counts one step. After `Memory`
    /// nothing is added and nothing is counted.
    pub fn put<L: Ledger>(&mut self, label: Label, steps: &mut Steps<L>) -> Result<LabelNo, Memory>
        requires { IsInside self.old.graph label.place }
        ensures number { IfOk result (λ n. n.0 ≡ length self.old.labels) }
        ensures labels { OnOk result (self.new.labels ≡ self.old.labels ++ label ∷ []) }
        ensures step { OnOk result (steps.new ≡ steps.old + 1) }
        ensures graph { self.new.graph ≡ self.old.graph }
        ensures indexed { self.new.indexed ≡ self.old.indexed }
        ensures err { OnErr result (self.new ≡ self.old) }
        ensures uncounted { OnErr result (steps.new ≡ steps.old) }
    {
        let number = self.labels.len() as u64;
        let row = label.place.interval.0 as usize;
        let at = count_below(&self.labels, self.rows[row].as_slice(), label.place);
        self.labels.push(label)?;
        match insert(&mut self.rows, row, at, number) {
            Ok(()) => {
                steps.count();
                Ok(LabelNo(number))
            }
            Err(error) => {
                let _ = self.labels.pop();
                Err(error)
            }
        }
    }

    /// Empties all lists. Keeps their room, and takes no memory.
    pub fn clear(&mut self)
        ensures intervals { self.new.graph.intervals ≡ [] }
        ensures bridges { self.new.graph.bridges ≡ [] }
        ensures runs { self.new.graph.runs ≡ [] }
        ensures labels { self.new.labels ≡ [] }
        ensures indexed { self.new.indexed ≡ false }
    {
        self.intervals.clear();
        self.bridges.clear();
        self.runs.clear();
        self.labels.clear();
        clear_all(&mut self.rows);
        self.indexed = false;
    }
}
