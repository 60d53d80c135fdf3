//! A bag of numbers with keys, from which a least key comes first.
ghost use Rattle.std.specs.Prelude.{◌≡◌, ◌≤◌, [], All, IfSome, IfNone, OnOk};
ghost use Rattle.least_walk.specs.Queue.{IsWithOneMore, NoneBelow};

use rt_base::Memory;
use std::alloc::Global;
use std::cmp::Reverse;
use std::collections::BinaryHeap;
use std::marker::Model;

/// A bag of numbers with keys.
#[derive(Drop)]
pub struct Queue {
    heap: BinaryHeap<(Reverse<u128>, usize)>,
}

impl Model for Queue {
    ghost use Rattle.std.specs.Prelude.{List, ℕ};
    ghost use Rattle.std.specs.BinaryHeap.{IsHeap, heap_items};
    ghost use Rattle.least_walk.specs.Queue.{earlier, items_of};

    ghost Value = { List (ℕ × ℕ) };

    ghost view = { λ q. items_of (heap_items q.heap) };

    ghost invariant = { λ q. IsHeap earlier (heap_items q.heap) };
}

impl Queue {
    /// The empty bag. Takes no memory.
    pub fn new(alloc: Global) -> Queue
        ensures { result ≡ [] }
    {
        Queue {
            heap: BinaryHeap::new(alloc),
        }
    }

    /// Takes all out, and keeps the memory.
    pub fn clear(&mut self)
        ensures { self.new ≡ [] }
    {
        self.heap.clear();
    }

    /// Adds a number.
    pub fn push(&mut self, key: u128, number: usize) -> Result<(), Memory>
        ensures ok { OnOk result (IsWithOneMore (key, number) self.old self.new) }
    {
        self.heap.push((Reverse(key), number))?;
        Ok(())
    }

    /// Takes out a number of least key.
    fn pop(&mut self) -> Option<(u128, usize)>
        ensures some { IfSome result (λ e. IsWithOneMore e self.new self.old) }
        ensures least { IfSome result (λ e. All (λ f. e.0 ≤ f.0) self.new) }
        ensures none { IfNone result (self.old ≡ []) }
        ensures unchanged { IfNone result (self.new ≡ self.old) }
    {
        let (Reverse(key), number) = self.heap.pop()?;
        Some((key, number))
    }

    /// A least key.
    fn first(&self) -> Option<u128>
        ensures some { IfSome result (λ key. All (λ f. key ≤ f.0) self.now) }
        ensures none { IfNone result (self.now ≡ []) }
    {
        let (Reverse(key), _) = self.heap.peek()?;
        Some(*key)
    }

    /// Takes out a number of least key, and of these a greatest, where that key is below a limit.
    pub fn pop_below(&mut self, limit: Option<u128>) -> Option<(u128, usize)>
        ensures some { IfSome result (λ e. IsWithOneMore e self.new self.old) }
        ensures least { IfSome result (λ e. All (λ f. e.0 ≤ f.0) self.new) }
        ensures none { IfNone result (NoneBelow limit self.old) }
        ensures unchanged { IfNone result (self.new ≡ self.old) }
    {
        if let Some(limit) = limit {
            if self.first()? >= limit {
                return None;
            }
        }
        self.pop()
    }
}
