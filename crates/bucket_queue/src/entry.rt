//! Items ordered by their keys alone.
ghost use Rattle.std.specs.Prelude.{◌==◌};
ghost use Rattle.std.proofs.Common.{rules};
ghost use Rattle.std.specs.Cmp.{partial_order_from_own_ties};
ghost use Rattle.std.specs.Cmp.Rules.{comparing};
ghost use Rattle.std.specs.Ordering.{as_partial_cmp, flip_args, nat_cmp, on};

use std::cmp::Ordering;

/// An item and its key. The greatest entry is one of least key, and entries with one key are alike
/// to the order.
#[derive(Debug, Drop)]
pub struct Entry<T> {
    pub key: u64,
    pub item: T,
}

impl<T> PartialEq for Entry<T> {
    ghost eq = { λ a b. a.key == b.key };

    ghost laws = { Prim.search (comparing, rules) };

    fn eq(&self, other: &Entry<T>) -> bool {
        self.key == other.key
    }
}

impl<T> Eq for Entry<T> {
    ghost laws = { Prim.search (comparing, rules) };
}

impl<T> PartialOrd for Entry<T> {
    ghost partial_cmp = { as_partial_cmp (flip_args (on (λ e. e.key) nat_cmp)) };

    ghost laws = { partial_order_from_own_ties (Prim.search (comparing, rules)) (Prim.search (comparing, rules)) };

    fn partial_cmp(&self, other: &Entry<T>) -> Option<Ordering> {
        Some(self.cmp(other))
    }
}

impl<T> Ord for Entry<T> {
    ghost cmp = { flip_args (on (λ e. e.key) nat_cmp) };

    ghost total = { Prim.search (comparing, rules) };

    ghost matches_partial_cmp = { Prim.search (comparing, rules) };

    ghost matches_eq = { Prim.search (comparing, rules) };

    fn cmp(&self, other: &Entry<T>) -> Ordering {
        other.key.cmp(&self.key)
    }
}
