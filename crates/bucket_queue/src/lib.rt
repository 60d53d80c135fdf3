//! A bag of items with keys, from which an item of least key is taken first.
//!
//! The bag has a floor. It is 0 at first and the key that was taken last later on, and no key below
//! it is added, as in a search that settles places by their cost. The items stand in a binary heap,
//! so `push` and `pop` take time in O(log n) for n items, whatever the keys are.
#![tactic(auto)]

mod buckets;
mod entry;
#[cfg(test)]
mod tests;

pub use buckets::Buckets;
