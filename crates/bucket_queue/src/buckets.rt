//! The bag.
ghost use Rattle.std.specs.Prelude.{◌≡◌, ℕ, ◌≤◌, [], ◌∷◌, All, IfSome, IfNone, OnOk, OnErr, IsPermutation};

use crate::entry::Entry;
use rt_base::Memory;
use std::alloc::Global;
use std::collections::BinaryHeap;
use std::marker::Model;

/// A bag of pairs of a key and an item, with a floor that no key is below.
#[derive(Drop)]
pub struct Buckets<T> {
    heap: BinaryHeap<Entry<T>>,
    floor: u64,
}

impl<T> Model for Buckets<T> {
    ghost use Rattle.std.specs.BinaryHeap.{IsHeap, heap_items};
    ghost use Rattle.bucket_queue.specs.Bag.{Bag, pairs_of, later, AreFrom};

    ghost Value = { Bag T };

    ghost view = { λ b. record { pairs = pairs_of (heap_items b.heap); floor = b.floor } };

    ghost invariant = { λ b. IsHeap later (heap_items b.heap) × AreFrom b.floor (pairs_of (heap_items b.heap)) };
}

impl<T: Drop> Buckets<T> {
    /// The empty bag with floor 0. Takes no memory.
    pub fn new(alloc: Global) -> Buckets<T>
        ensures empty { result.pairs ≡ [] }
        ensures floor { result.floor ≡ 0 }
    {
        Buckets {
            heap: BinaryHeap::new(alloc),
            floor: 0,
        }
    }

    /// Adds a pair. After `Memory` the bag is as it was.
    pub fn push(&mut self, key: u64, item: T) -> Result<(), Memory>
        requires { self.old.floor ≤ key }
        ensures bag { OnOk result (IsPermutation ((key, item) ∷ self.old.pairs) self.new.pairs) }
        ensures floor { self.new.floor ≡ self.old.floor }
        ensures err { OnErr result (self.new.pairs ≡ self.old.pairs) }
    {
        self.heap.push(Entry { key, item })?;
        Ok(())
    }

    /// Takes out a pair of least key, which becomes the floor. `None` where the bag is empty, which
    /// then stays as it is. Takes no memory.
    pub fn pop(&mut self) -> Option<(u64, T)>
        ensures bag { IfSome result (λ e. IsPermutation self.old.pairs (e ∷ self.new.pairs)) }
        ensures least { IfSome result (λ e. All (λ f. e.0 ≤ f.0) self.old.pairs) }
        ensures floor { IfSome result (λ e. self.new.floor ≡ e.0) }
        ensures rises { self.old.floor ≤ self.new.floor }
        ensures none { IfNone result (self.old.pairs ≡ []) }
        ensures unchanged { IfNone result (self.new ≡ self.old) }
    {
        let Entry { key, item } = self.heap.pop()?;
        self.floor = key;
        Some((key, item))
    }

    /// Empties the bag and sets the floor to 0. Keeps the room, and takes no memory.
    pub fn clear(&mut self)
        ensures empty { self.new.pairs ≡ [] }
        ensures floor { self.new.floor ≡ 0 }
    {
        self.heap.clear();
        self.floor = 0;
    }
}
