//! The answer of a search.
ghost use Rattle.std.specs.Prelude.{◌≡◌, ◌+◌, ◌++◌, ◌∷◌, ◌<◌, ◌≤◌, ◌^◌, length, [], OnOk, IfOk, IfSome, IfNone, true, slice_get, Some};
ghost use Rattle.label_arena.specs.Plain.{IsInside};
ghost use Rattle.interval_label.specs.Task.{left_at, IsPriced, IsBounded, AreStops, EndsAt, AreNear};
ghost use Rattle.interval_label.specs.Answers.{IsAnswer, AreLeast, ExplainsMarks, AreBelow};
ghost use Rattle.interval_label.specs.Known.{HoldStops, IsWide};
ghost use Rattle.interval_label.specs.Search.{IsField, CanSpread};
ghost use Rattle.interval_label.specs.State.{IsTask, Puts, Begins, IsFinished, IsAt, NoneAt};

use crate::improve::improved;
use crate::known::known_marks;
use crate::marking::Mark;
use crate::rows::stops_of;
use crate::search::{Best, Search};
use crate::slide::along;
use bucket_queue::Buckets;
use future_cost::Bound;
use label_arena::{Arena, By, Label, LabelNo, Place, Steps};
use rt_base::{Memory, Seq};
use std::alloc::Global;
use std::sync::ledger::Ledger;

/// What a search found: the least cost of a walk from a source to a target, the number of a target
/// that has it, counted from 0, and a label at that target's place; or that no source is joined to a
/// target.
#[derive(Clone, Copy, Debug, PartialEq, Eq)]
pub enum Reached {
    Cost {
        cost: u64,
        target: u64,
        label: LabelNo,
    },
    None,
}

/// A search whose candidates are the sources.
fn begin(
    alloc: Global,
    arena: &Arena,
    sources: &[(Place, u64)],
    bound: &Bound,
) -> Result<Search, Memory>
    requires sources { AreStops arena.now.graph sources.now }
    requires bounded { IsBounded arena.now.graph (left_at arena.now.graph bound.now) }
    ensures { IfOk result (Begins sources.now (left_at arena.now.graph bound.now)) }
{
    let mut search = Search {
        queue: Buckets::new(alloc),
        best: None,
    };
    'sources: for k in 0..sources.len() {
        let (place, dist) = sources[k];
        search.wait(
            arena,
            bound,
            Label {
                place,
                dist,
                by: By::Source(k as u64),
                origin: None,
            },
        )?;
    }
    Ok(search)
}

/// Makes a candidate a label, and adds what it leads to.
fn put<L: Ledger>(
    arena: &mut Arena,
    search: &mut Search,
    targets: &[(Place, u64)],
    bound: &Bound,
    known: &Option<Seq<Seq<Mark>>>,
    stops: &Seq<Seq<u64>>,
    candidate: Label,
    steps: &mut Steps<L>,
) -> Result<(), Memory>
    requires field { IsField arena.old.graph (left_at arena.old.graph bound.now) }
    requires targets { AreStops arena.old.graph targets.now }
    requires stops { HoldStops arena.old.graph targets.now stops.now }
    requires wide { IsWide arena.old.graph known.now }
    requires indexed { arena.old.indexed ≡ true }
    requires can { CanSpread arena.old.graph (left_at arena.old.graph bound.now) search.old candidate }
    ensures ok { OnOk result (Puts arena.old.graph targets.now (left_at arena.old.graph bound.now) known.now (length arena.old.labels) search.old search.new candidate) }
    ensures labels { OnOk result (arena.new.labels ≡ arena.old.labels ++ candidate ∷ []) }
    ensures step { OnOk result (steps.new ≡ steps.old + 1) }
    ensures graph { arena.new.graph ≡ arena.old.graph }
    ensures indexed { arena.new.indexed ≡ arena.old.indexed }
{
    let number = arena.put(candidate, steps)?;
    let best = improved(arena, targets, stops, number.0, candidate, search.best);
    search.best = best;
    search.spread(arena, bound, known, number, candidate)?;
    Ok(())
}

/// Labels marks until no candidate is left that could lead to less than the best, which it answers.
fn explore<L: Ledger>(
    alloc: Global,
    arena: &mut Arena,
    sources: &[(Place, u64)],
    targets: &[(Place, u64)],
    bound: &Bound,
    known: &Option<Seq<Seq<Mark>>>,
    stops: &Seq<Seq<u64>>,
    steps: &mut Steps<L>,
) -> Result<Option<Best>, Memory>
    requires task { IsTask arena.old.graph sources.now targets.now (left_at arena.old.graph bound.now) known.now stops.now }
    requires unlabelled { arena.old.labels ≡ [] }
    requires indexed { arena.old.indexed ≡ true }
    ensures finished { IfOk result (IsFinished arena.old.graph sources.now targets.now (left_at arena.old.graph bound.now) known.now arena.new.labels) }
    ensures steps { OnOk result (steps.new ≡ steps.old + length arena.new.labels) }
    ensures graph { arena.new.graph ≡ arena.old.graph }
{
    let mut search = begin(alloc, arena, sources, bound)?;
    'labels: while let Some(candidate) = search.take(arena) {
        put(
            arena,
            &mut search,
            targets,
            bound,
            known,
            stops,
            candidate,
            steps,
        )?;
    }
    Ok(search.best)
}

/// The number of the label at a place.
fn label_at(arena: &Arena, place: Place) -> Option<LabelNo>
    requires { IsInside arena.now.graph place }
    ensures some { IfSome result (IsAt arena.now.labels place) }
    ensures none { IfNone result (NoneAt arena.now.labels place) }
{
    let below = arena.next_below(place)?;
    if arena.label(below).place.coord == place.coord {
        Some(below)
    } else {
        None
    }
}

/// The stop with a number.
fn stop_at(stops: &[(Place, u64)], k: u64) -> (Place, u64)
    requires { k < length stops.now }
    ensures { slice_get stops.now k ≡ Some result }
{
    stops[k as usize]
}

/// The answer, with a label at the target's place.
fn finish<L: Ledger>(
    arena: &mut Arena,
    sources: &[(Place, u64)],
    targets: &[(Place, u64)],
    bound: &Bound,
    known: &Option<Seq<Seq<Mark>>>,
    stops: &Seq<Seq<u64>>,
    best: Option<Best>,
    steps: &mut Steps<L>,
) -> Result<Reached, Memory>
    requires task { IsTask arena.old.graph sources.now targets.now (left_at arena.old.graph bound.now) known.now stops.now }
    requires finished { IsFinished arena.old.graph sources.now targets.now (left_at arena.old.graph bound.now) known.now arena.old.labels best }
    ensures answer { IfOk result (IsAnswer arena.old.graph sources.now targets.now arena.new.labels) }
    ensures labels { OnOk result (AreLeast arena.old.graph sources.now targets.now arena.new.labels) }
    ensures explained { IfOk result (ExplainsMarks arena.old.graph sources.now targets.now (left_at arena.old.graph bound.now) arena.new.labels) }
    ensures below { IfOk result (AreBelow (left_at arena.old.graph bound.now) arena.new.labels) }
    ensures steps { OnOk result (steps.new + length arena.old.labels ≡ steps.old + length arena.new.labels) }
    ensures graph { arena.new.graph ≡ arena.old.graph }
{
    let Some(best) = best else {
        return Ok(Reached::None);
    };
    let cost = best.cost;
    let target = best.target;
    let place = stop_at(targets, target).0;
    if let Some(label) = label_at(arena, place) {
        return Ok(Reached::Cost {
            cost,
            target,
            label,
        });
    }
    let number = LabelNo(best.number);
    let from = arena.label(number);
    let dist = from.dist + along(arena, from.place, place);
    let end = Label {
        place,
        dist,
        by: By::Slide,
        origin: Some(number),
    };
    let label = arena.put(end, steps)?;
    Ok(Reached::Cost {
        cost,
        target,
        label,
    })
}

/// Labels marks of an arena until the least cost of a walk from a source to a target is known. Sources
/// and targets are places with a cost of their own, numbered from 0, in any order. The arena is left
/// with the labels, its intervals, bridges and runs as they were. `Memory` comes for want of memory
/// alone; the arena then holds some labels, and is cleared before the next search.
pub fn label<L: Ledger>(
    alloc: Global,
    arena: &mut Arena,
    sources: &[(Place, u64)],
    targets: &[(Place, u64)],
    bound: &Bound,
    steps: &mut Steps<L>,
) -> Result<Reached, Memory>
    requires unlabelled { arena.old.labels ≡ [] }
    requires priced { IsPriced arena.old.graph }
    requires sources { AreStops arena.old.graph sources.now }
    requires targets { AreStops arena.old.graph targets.now }
    requires near { AreNear arena.old.graph sources.now }
    requires bounded { IsBounded arena.old.graph (left_at arena.old.graph bound.now) }
    requires ends { EndsAt (left_at arena.old.graph bound.now) targets.now }
    ensures answer { IfOk result (IsAnswer arena.old.graph sources.now targets.now arena.new.labels) }
    ensures labels { OnOk result (AreLeast arena.old.graph sources.now targets.now arena.new.labels) }
    ensures explained { IfOk result (ExplainsMarks arena.old.graph sources.now targets.now (left_at arena.old.graph bound.now) arena.new.labels) }
    ensures below { IfOk result (AreBelow (left_at arena.old.graph bound.now) arena.new.labels) }
    ensures steps { OnOk result (steps.new ≡ steps.old + length arena.new.labels) }
    ensures graph { arena.new.graph ≡ arena.old.graph }
{
    arena.index()?;
    // Its counts say that an arena's bridges and runs lie on its intervals.
    let _counts = arena.counts();
    let known = known_marks(alloc, arena, sources, targets)?;
    let stops = stops_of(alloc, arena, targets)?;
    let best = explore(alloc, arena, sources, targets, bound, &known, &stops, steps)?;
    finish(arena, sources, targets, bound, &known, &stops, best, steps)
}
