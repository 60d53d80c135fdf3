//! Candidates, and the best walk so far.
ghost use Rattle.std.specs.Prelude.{◌≡◌, ◌+◌, ◌<◌, ◌≤◌, ◌^◌, OnOk, IfSome, IfNone};
ghost use Rattle.std.specs.Bool.{OnFalse, OnTrue};
ghost use Rattle.label_arena.specs.Plain.{IsInside};
ghost use Rattle.interval_label.specs.Task.{left_at, IsPriced};
ghost use Rattle.interval_label.specs.Queue.{AreInside};
ghost use Rattle.interval_label.specs.Search.{IsExplained, IsExplainedBy, IsOn, AreSettled, Waits, Takes, Ends, IsReached};

use crate::slide::{along, left};
use bucket_queue::Buckets;
use future_cost::Bound;
use label_arena::{Arena, Label, LabelNo};
use rt_base::Memory;

/// A walk's cost, the number of the label that it goes over last, and the number of its target.
#[derive(Clone, Copy)]
pub struct Best {
    pub cost: u64,
    pub number: u64,
    pub target: u64,
}

/// The candidates that wait, each with its distance and bound as its key, and the best walk so far.
#[derive(Drop)]
pub struct Search {
    pub queue: Buckets<Label>,
    pub best: Option<Best>,
}

/// Whether the best costs no more than a key.
fn reaches(best: Option<Best>, key: u64) -> bool
    ensures yes { OnTrue result (IsReached best key) }
    ensures no { OnFalse result ((r : Best) → best ≡ Some r → key ≤ r.cost) }
{
    match best {
        Some(b) => b.cost <= key,
        None => false,
    }
}

/// Whether the slide from this label explains a candidate of its interval.
fn explained_by(arena: &Arena, by: Option<LabelNo>, candidate: Label) -> bool
    requires priced { IsPriced arena.now.graph }
    requires settled { AreSettled arena.now.graph arena.now.labels }
    requires inside { IsInside arena.now.graph candidate.place }
    requires on { IsOn arena.now.labels candidate.place by }
    ensures yes { OnTrue result (IsExplained arena.now.graph arena.now.labels candidate.place candidate.dist) }
    ensures no { OnFalse result (IsExplainedBy arena.now.graph arena.now.labels by candidate → ⊥) }
{
    let Some(number) = by else {
        return false;
    };
    let label = arena.label(number);
    let dist = label.dist + along(arena, label.place, candidate.place);
    if candidate.dist < dist {
        return false;
    }
    true
}

/// Whether a label of its interval explains a candidate.
pub fn explains(arena: &Arena, candidate: Label) -> bool
    requires priced { IsPriced arena.now.graph }
    requires settled { AreSettled arena.now.graph arena.now.labels }
    requires inside { IsInside arena.now.graph candidate.place }
    ensures yes { OnTrue result (IsExplained arena.now.graph arena.now.labels candidate.place candidate.dist) }
    ensures no { OnFalse result (IsExplained arena.now.graph arena.now.labels candidate.place candidate.dist → ⊥) }
{
    let below = arena.next_below(candidate.place);
    if explained_by(arena, below, candidate) {
        return true;
    }
    let above = arena.next_above(candidate.place);
    if explained_by(arena, above, candidate) {
        return true;
    }
    false
}

impl Search {
    /// Adds a candidate.
    pub fn wait(&mut self, arena: &Arena, bound: &Bound, candidate: Label) -> Result<(), Memory>
        requires inside { IsInside arena.now.graph candidate.place }
        requires bounded { left_at arena.now.graph bound.now candidate.place < 2 ^ 62 }
        requires small { candidate.dist < 2 ^ 63 }
        requires floor { self.old.queue.floor ≤ candidate.dist + left_at arena.now.graph bound.now candidate.place }
        ensures ok { OnOk result (Waits (left_at arena.now.graph bound.now) self.old self.new candidate) }
    {
        let key = candidate.dist + left(arena, bound, candidate.place);
        self.queue.push(key, candidate)?;
        Ok(())
    }

    /// Takes out a candidate of least key that no label explains, and those before it that labels
    /// explain. `None` where none is left that could lead to less than the best.
    pub fn take(&mut self, arena: &Arena) -> Option<Label>
        requires priced { IsPriced arena.now.graph }
        requires settled { AreSettled arena.now.graph arena.now.labels }
        requires inside { AreInside arena.now.graph self.old.queue.pairs }
        ensures some { IfSome result (Takes arena.now.graph arena.now.labels self.old self.new) }
        ensures none { IfNone result (Ends arena.now.graph arena.now.labels self.old self.new) }
    {
        'candidates: while let Some((key, candidate)) = self.queue.pop() {
            if reaches(self.best, key) {
                return None;
            }
            if !explains(arena, candidate) {
                return Some(candidate);
            }
        }
        None
    }
}
