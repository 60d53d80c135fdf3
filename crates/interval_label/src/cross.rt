//! Ways from an interval to others.
ghost use Rattle.std.specs.Prelude.{◌≡◌, ◌<◌, ◌≤ℤ◌, length, OnOk, true};
ghost use Rattle.interval_label.specs.Task.{left_at};
ghost use Rattle.interval_label.specs.Known.{IsKnown, IsWide};
ghost use Rattle.interval_label.specs.Search.{IsField, CanCross, CanSpread, Climbs, ClimbsAt, Crosses, Grows, CoversPoint, CoversFrom, CoversRun, IsRunFrom, Spreads, clamped};

use crate::marking::Mark;
use crate::rows::row_of;
use crate::search::Search;
use crate::slide::{along, holds};
use future_cost::Bound;
use label_arena::{Arena, By, IntervalNo, Label, LabelNo, Place, Run};
use rt_base::{Memory, Seq};

/// The coordinate of a run's span that is next to a place, on an interval.
fn beside(run: Run, interval: IntervalNo, place: Place) -> Place
    requires { run.span.lo ≤ℤ run.span.hi }
    ensures number { result.interval ≡ interval }
    ensures coord { result.coord ≡ clamped run.span.lo run.span.hi place.coord }
{
    Place {
        interval,
        coord: place.coord.clamp(run.span.lo, run.span.hi),
    }
}

impl Search {
    /// Adds the candidate beyond a way that leaves the label's interval at `near`.
    fn cross(
        &mut self,
        arena: &Arena,
        bound: &Bound,
        known: &Option<Seq<Seq<Mark>>>,
        number: LabelNo,
        label: Label,
        near: Place,
        far: Place,
        cost: u64,
        by: By,
    ) -> Result<(), Memory>
        requires field { IsField arena.now.graph (left_at arena.now.graph bound.now) }
        requires can { CanCross arena.now.graph (left_at arena.now.graph bound.now) known.now self.old label near far cost by }
        ensures ok { OnOk result (Grows arena.now.graph (left_at arena.now.graph bound.now) known.now number label self.old self.new) }
        ensures covers { OnOk result (Crosses arena.now.graph self.new label near far cost) }
    {
        if label.place.interval.0 != near.interval.0 {
            return Ok(());
        }
        let dist = label.dist + along(arena, label.place, near) + cost;
        self.wait(
            arena,
            bound,
            Label {
                place: far,
                dist,
                by,
                origin: Some(number),
            },
        )?;
        Ok(())
    }

    /// Crosses a point bridge, from either end.
    fn cross_point(
        &mut self,
        arena: &Arena,
        bound: &Bound,
        known: &Option<Seq<Seq<Mark>>>,
        number: LabelNo,
        label: Label,
        k: u64,
    ) -> Result<(), Memory>
        requires field { IsField arena.now.graph (left_at arena.now.graph bound.now) }
        requires can { CanSpread arena.now.graph (left_at arena.now.graph bound.now) self.old label }
        requires within { k < length arena.now.graph.bridges }
        ensures ok { OnOk result (Grows arena.now.graph (left_at arena.now.graph bound.now) known.now number label self.old self.new) }
        ensures covers { OnOk result (CoversPoint arena.now.graph self.new.queue.pairs label k) }
    {
        let (a, b, cost, _tag) = arena.point(k);
        self.cross(arena, bound, known, number, label, a, b, cost, By::Point(k))?;
        self.cross(arena, bound, known, number, label, b, a, cost, By::Point(k))?;
        Ok(())
    }

    /// Crosses a run at a known mark, if its span holds it.
    fn climb_at(
        &mut self,
        arena: &Arena,
        bound: &Bound,
        known: &Option<Seq<Seq<Mark>>>,
        number: LabelNo,
        label: Label,
        k: u64,
        run: Run,
        from: IntervalNo,
        to: IntervalNo,
        mark: Mark,
    ) -> Result<(), Memory>
        requires field { IsField arena.now.graph (left_at arena.now.graph bound.now) }
        requires can { CanSpread arena.now.graph (left_at arena.now.graph bound.now) self.old label }
        requires is { IsRunFrom arena.now.graph k run from to }
        requires known { IsKnown known.now (record { interval = to; coord = mark.coord }) }
        ensures ok { OnOk result (Grows arena.now.graph (left_at arena.now.graph bound.now) known.now number label self.old self.new) }
        ensures covers { OnOk result (ClimbsAt arena.now.graph self.new.queue.pairs label run from to mark.coord) }
    {
        let near = mark.on(from);
        if !holds(run, near) {
            return Ok(());
        }
        self.cross(
            arena,
            bound,
            known,
            number,
            label,
            near,
            mark.on(to),
            run.cost,
            By::Run,
        )?;
        Ok(())
    }

    /// Crosses a run onto an interval of a larger factor at each known mark of the span: there the far
    /// interval's labels don't explain what is reached beside them.
    fn climb(
        &mut self,
        arena: &Arena,
        bound: &Bound,
        known: &Option<Seq<Seq<Mark>>>,
        number: LabelNo,
        label: Label,
        k: u64,
        run: Run,
        from: IntervalNo,
        to: IntervalNo,
    ) -> Result<(), Memory>
        requires field { IsField arena.now.graph (left_at arena.now.graph bound.now) }
        requires can { CanSpread arena.now.graph (left_at arena.now.graph bound.now) self.old label }
        requires wide { IsWide arena.now.graph known.now }
        requires is { IsRunFrom arena.now.graph k run from to }
        ensures ok { OnOk result (Grows arena.now.graph (left_at arena.now.graph bound.now) known.now number label self.old self.new) }
        ensures covers { OnOk result (Climbs arena.now.graph known.now self.new.queue.pairs label run from to) }
    {
        let Some(rows) = known else {
            return Ok(());
        };
        if arena.interval(to).factor <= arena.interval(from).factor {
            return Ok(());
        }
        'marks: for mark in row_of(rows, to) {
            self.climb_at(arena, bound, known, number, label, k, run, from, to, *mark)?;
        }
        Ok(())
    }

    /// Crosses a run from one of its intervals onto the other.
    fn cross_from(
        &mut self,
        arena: &Arena,
        bound: &Bound,
        known: &Option<Seq<Seq<Mark>>>,
        number: LabelNo,
        label: Label,
        k: u64,
        run: Run,
        from: IntervalNo,
        to: IntervalNo,
    ) -> Result<(), Memory>
        requires field { IsField arena.now.graph (left_at arena.now.graph bound.now) }
        requires can { CanSpread arena.now.graph (left_at arena.now.graph bound.now) self.old label }
        requires wide { IsWide arena.now.graph known.now }
        requires is { IsRunFrom arena.now.graph k run from to }
        ensures ok { OnOk result (Grows arena.now.graph (left_at arena.now.graph bound.now) known.now number label self.old self.new) }
        ensures covers { OnOk result (CoversFrom arena.now.graph known.now self.new.queue.pairs label k from to) }
    {
        if run.span.hi < run.span.lo {
            return Ok(());
        }
        let near = beside(run, from, label.place);
        let far = beside(run, to, label.place);
        self.cross(
            arena,
            bound,
            known,
            number,
            label,
            near,
            far,
            run.cost,
            By::Run,
        )?;
        self.climb(arena, bound, known, number, label, k, run, from, to)?;
        Ok(())
    }

    /// Crosses a run, from either interval.
    fn cross_run(
        &mut self,
        arena: &Arena,
        bound: &Bound,
        known: &Option<Seq<Seq<Mark>>>,
        number: LabelNo,
        label: Label,
        k: u64,
    ) -> Result<(), Memory>
        requires field { IsField arena.now.graph (left_at arena.now.graph bound.now) }
        requires can { CanSpread arena.now.graph (left_at arena.now.graph bound.now) self.old label }
        requires wide { IsWide arena.now.graph known.now }
        requires within { k < length arena.now.graph.runs }
        ensures ok { OnOk result (Grows arena.now.graph (left_at arena.now.graph bound.now) known.now number label self.old self.new) }
        ensures covers { OnOk result (CoversRun arena.now.graph known.now self.new.queue.pairs label k) }
    {
        let (a, b, span, cost) = arena.run(k);
        let run = Run { a, b, span, cost };
        self.cross_from(arena, bound, known, number, label, k, run, a, b)?;
        self.cross_from(arena, bound, known, number, label, k, run, b, a)?;
        Ok(())
    }

    /// Adds a candidate for each way that leads from the label's interval.
    pub fn spread(
        &mut self,
        arena: &Arena,
        bound: &Bound,
        known: &Option<Seq<Seq<Mark>>>,
        number: LabelNo,
        label: Label,
    ) -> Result<(), Memory>
        requires field { IsField arena.now.graph (left_at arena.now.graph bound.now) }
        requires can { CanSpread arena.now.graph (left_at arena.now.graph bound.now) self.old label }
        requires wide { IsWide arena.now.graph known.now }
        requires indexed { arena.now.indexed ≡ true }
        ensures ok { OnOk result (Grows arena.now.graph (left_at arena.now.graph bound.now) known.now number label self.old self.new) }
        ensures covers { OnOk result (Spreads arena.now.graph known.now self.new.queue.pairs label) }
    {
        let interval = label.place.interval;
        'bridges: for k in arena.bridges_of(interval) {
            self.cross_point(arena, bound, known, number, label, *k)?;
        }
        'runs: for k in arena.runs_of(interval) {
            self.cross_run(arena, bound, known, number, label, *k)?;
        }
        Ok(())
    }
}
