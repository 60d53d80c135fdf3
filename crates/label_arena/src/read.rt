//! What is read of an arena. None of these calls takes memory.
ghost use Rattle.std.specs.Prelude.{◌≡◌, ℕ, ◌<◌, ◌≤◌, length, slice_get, slice_index, Some, ◌∷◌, []};
ghost use Rattle.label_arena.specs.Plain.{IsInside, IsJoined, vertex_of};
ghost use Rattle.label_arena.specs.Keeping.{AreInside};
ghost use Rattle.label_arena.specs.Ways.{AreExactly, IsBridgeOf, IsRunOf, IsBelow, IsAbove};

use crate::arena::Arena;
use crate::place::{Interval, IntervalNo, Label, LabelNo, Place};
use crate::row::{count_below, count_up_to};
use rt_base::{Point, Span, Vertex};

impl Arena {
    ghost use Rattle.std.specs.Prelude.{true};

    /// The interval with this number.
    pub fn interval(&self, no: IntervalNo) -> Interval
        requires { no.0 < length self.now.graph.intervals }
        ensures { slice_get self.now.graph.intervals no.0 ≡ Some result }
    {
        self.intervals[no.0 as usize]
    }

    /// The ends, the cost and the tag of the point bridge with this number.
    pub fn point(&self, no: u64) -> (Place, Place, u64, u32)
        requires { no < length self.now.graph.bridges }
        ensures { slice_get self.now.graph.bridges no ≡ Some (record { a = result.0; b = result.1; cost = result.2; tag = result.3 }) }
    {
        let bridge = self.bridges[no as usize];
        (bridge.a, bridge.b, bridge.cost, bridge.tag)
    }

    /// The intervals, the span and the cost of the run with this number.
    pub fn run(&self, no: u64) -> (IntervalNo, IntervalNo, Span, u64)
        requires { no < length self.now.graph.runs }
        ensures { slice_get self.now.graph.runs no ≡ Some (record { a = result.0; b = result.1; span = result.2; cost = result.3 }) }
    {
        let run = self.runs[no as usize];
        (run.a, run.b, run.span, run.cost)
    }

    /// The label with this number.
    pub fn label(&self, no: LabelNo) -> Label
        requires { no.0 < length self.now.labels }
        ensures { slice_get self.now.labels no.0 ≡ Some result }
    {
        self.labels[no.0 as usize]
    }

    /// The vertex that a place stands for.
    pub fn vertex(&self, place: Place) -> Vertex
        requires { place.interval.0 < length self.now.graph.intervals }
        ensures { result ≡ vertex_of self.now.graph place }
    {
        let interval = self.intervals[place.interval.0 as usize];
        let along = place.coord;
        let across = interval.line;
        let point = if interval.horizontal {
            Point {
                x: along,
                y: across,
            }
        } else {
            Point {
                x: across,
                y: along,
            }
        };
        Vertex {
            level: interval.level,
            point,
        }
    }

    /// How many intervals, point bridges, runs and labels there are. Bridges, runs and labels stand
    /// on intervals of the arena.
    pub fn counts(&self) -> [u64; 4]
        ensures counts { result ≡ length self.now.graph.intervals ∷ length self.now.graph.bridges ∷ length self.now.graph.runs ∷ length self.now.labels ∷ [] }
        ensures joined { IsJoined self.now.graph }
        ensures inside { AreInside self.now.graph self.now.labels }
    {
        [
            self.intervals.len() as u64,
            self.bridges.len() as u64,
            self.runs.len() as u64,
            self.labels.len() as u64,
        ]
    }

    /// The numbers of the point bridges with an end on an interval. The index has to be made.
    pub fn bridges_of(&self, no: IntervalNo) -> &[u64]
        requires indexed { self.now.indexed ≡ true }
        requires within { no.0 < length self.now.graph.intervals }
        ensures exactly { AreExactly (IsBridgeOf self.now.graph no.0) result.now }
        ensures few { length result.now ≤ length self.now.graph.bridges }
    {
        self.bridges_by.row(no.0)
    }

    /// The numbers of the runs that join an interval. The index has to be made.
    pub fn runs_of(&self, no: IntervalNo) -> &[u64]
        requires indexed { self.now.indexed ≡ true }
        requires within { no.0 < length self.now.graph.intervals }
        ensures exactly { AreExactly (IsRunOf self.now.graph no.0) result.now }
        ensures few { length result.now ≤ length self.now.graph.runs }
    {
        self.runs_by.row(no.0)
    }

    /// The label of the place's interval that is next to the place: at it or below it.
    pub fn next_below(&self, place: Place) -> Option<LabelNo>
        requires { place.interval.0 < length self.now.graph.intervals }
        ensures { IsBelow self.now.labels place result }
    {
        let row = self.rows[place.interval.0 as usize].as_slice();
        let past = count_up_to(&self.labels, row, place);
        if past == 0 {
            return None;
        }
        Some(LabelNo(row[past - 1]))
    }

    /// The label of the place's interval that is next to the place: at it or above it.
    pub fn next_above(&self, place: Place) -> Option<LabelNo>
        requires { place.interval.0 < length self.now.graph.intervals }
        ensures { IsAbove self.now.labels place result }
    {
        let row = self.rows[place.interval.0 as usize].as_slice();
        let at = count_below(&self.labels, row, place);
        if at == row.len() {
            return None;
        }
        Some(LabelNo(row[at]))
    }
}
