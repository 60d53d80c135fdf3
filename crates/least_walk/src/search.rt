//! Labels, and the queue of those that may not be settled.
ghost use Rattle.std.specs.Prelude.{◌≡◌, ◌≤◌, ◌<◌, ◌↔◌, length, IsTrue, IfSome, IfNone, OnOk, option_map, []};
ghost use Rattle.std.specs.Bool.{OnFalse, OnTrue};
ghost use Rattle.least_walk.specs.Queue.{NoneBelow};
ghost use Rattle.least_walk.specs.Labels.{dist_at};
ghost use Rattle.least_walk.specs.Search.{Adds, IsFiled, IsFresh, IsSettled, OnlyQueue, Settles};

use crate::known::Known;
use crate::label::{Label, Search};
use crate::queue::Queue;
use rt_base::Memory;
use std::alloc::Global;

impl Search {
    /// No labels. Takes no memory.
    pub fn new(alloc: Global) -> Search {
        Search {
            labels: Vec::new(alloc),
            settled: Vec::new(alloc),
            known: Known::new(alloc),
            queue: Queue::new(alloc),
        }
    }

    /// Takes all labels away, and keeps the memory.
    pub fn clear(&mut self)
        ensures labels { self.new.labels.items ≡ [] }
        ensures settled { self.new.settled.items ≡ [] }
        ensures known { self.new.known ≡ [] }
        ensures queue { self.new.queue ≡ [] }
    {
        self.labels.clear();
        self.settled.clear();
        self.known.clear();
        self.queue.clear();
    }

    /// Adds a label.
    pub fn add(&mut self, label: Label) -> Result<(), Memory>
        ensures { OnOk result (Adds self.old self.new label) }
    {
        let number = self.labels.len();
        self.labels.push(label)?;
        self.settled.push(false)?;
        self.known.set(label.vertex, number)?;
        self.queue.push(label.key, number)?;
        Ok(())
    }

    /// Whether this distance is less than that of the label that was met, if there is one.
    pub fn is_nearer(&self, met: Option<usize>, dist: u128) -> bool
        requires { IfSome met (λ n. n < length self.now.labels.items) }
        ensures nearer { OnTrue result (IfSome met (λ n. dist < dist_at self.now.labels.items n)) }
        ensures not_nearer { OnFalse result ((n : _) × (met ≡ Some n) × (dist_at self.now.labels.items n ≤ dist)) }
    {
        match met {
            Some(number) => dist < self.labels[number].dist,
            None => true,
        }
    }

    /// Whether there is a label and it is settled.
    pub fn is_settled(&self, met: Option<usize>) -> bool
        requires { IfSome met (λ n. n < length self.now.settled.items) }
        ensures settled { OnTrue result ((n : _) × (met ≡ Some n) × IsSettled self.now.settled.items n) }
        ensures not_settled { OnFalse result ((n : _) → met ≡ Some n → IsSettled self.now.settled.items n → ⊥) }
    {
        match met {
            Some(number) => self.settled[number],
            None => false,
        }
    }

    /// Whether a label is the least of its vertex and isn't settled.
    fn is_fresh(&self, number: usize) -> bool
        requires labels { number < length self.now.labels.items }
        requires flags { number < length self.now.settled.items }
        ensures fresh { OnTrue result (IsFresh self.now.labels.items self.now.settled.items self.now.known number) }
        ensures stale { OnFalse result (IsFresh self.now.labels.items self.now.settled.items self.now.known number → ⊥) }
    {
        if self.settled[number] {
            return false;
        }
        match self.known.get(self.labels[number].vertex) {
            Some(least) => least == number,
            None => false,
        }
    }

    /// Settles a label of least key among those that are the least of their vertices and wait, where
    /// that key is below the limit.
    pub fn settle_next(&mut self, limit: Option<u128>) -> Option<usize>
        requires filed { IsFiled self.old }
        ensures filed { IsFiled self.new }
        ensures some { IfSome result (Settles self.old self.new) }
        ensures none { IfNone result (NoneBelow limit self.new.queue) }
        ensures only { IfNone result (OnlyQueue self.old self.new) }
    {
        loop {
            let (_, number) = self.queue.pop_below(limit)?;
            if self.is_fresh(number) {
                self.settled[number] = true;
                return Some(number);
            }
        }
    }
}
