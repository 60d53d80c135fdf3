//! Values beside the numbers of nets.
ghost use Rattle.std.specs.Prelude.{◌≡◌, ℕ, [], None, Some, if◌then◌else◌, nat_eq, IfOk, OnOk, OnErr};
ghost use Rattle.std.specs.Option.{option_copied};
ghost use Rattle.search.specs.Tables.{entry_of};

use indexmap::IndexMap;
use rt_base::Memory;
use std::alloc::Global;
use std::marker::Model;

/// A value that can be copied where memory allows.
pub trait Copies: Drop {
    /// The same value once more. The only error is want of memory.
    fn copy(&self, alloc: Global) -> Result<Self, Memory>
        ensures { IfOk result (λ copied. copied ≡ self.now) };
}

impl Copies for u8 {
    fn copy(&self, alloc: Global) -> Result<u8, Memory> {
        Ok(*self)
    }
}

/// Values beside the numbers of some nets. Contracts see the numbers with their values.
#[derive(Drop)]
pub struct Table<T> {
    of: IndexMap<u32, T>,
}

impl<T> Model for Table<T> {
    ghost use Rattle.std.specs.Prelude.{ℕ, List};

    ghost Value = { List (ℕ × T) };

    ghost view = { λ t. t.of.entries };
}

impl<T: Copies> Table<T> {
    /// Nothing beside any number. Takes no memory.
    pub fn new(alloc: Global) -> Table<T>
        ensures { result ≡ [] }
    {
        Table {
            of: IndexMap::new(alloc),
        }
    }

    /// What stands beside a number. Takes no memory.
    pub fn get(&self, net: u32) -> Option<&T>
        ensures { option_copied result ≡ entry_of self.now net }
    {
        self.of.get(&net)
    }

    /// Takes away what stands beside a number. Takes no memory.
    pub fn take(&mut self, net: u32) -> Option<T>
        ensures value { result ≡ entry_of self.old net }
        ensures rest { (n : ℕ) → entry_of self.new n ≡ (if nat_eq net n then None else entry_of self.old n) }
    {
        self.of.swap_remove(&net)
    }

    /// Puts a value beside a number, in place of the one that stands there. After `Memory`, which is
    /// the only error, the table is as it was.
    pub fn set(&mut self, net: u32, value: T) -> Result<(), Memory>
        ensures ok { OnOk result ((n : ℕ) → entry_of self.new n ≡ (if nat_eq net n then Some value else entry_of self.old n)) }
        ensures err { OnErr result (self.new ≡ self.old) }
    {
        self.of.insert(net, value)?;
        Ok(())
    }

    /// Puts a copy of a value beside a number, as `set` does.
    pub(crate) fn set_copy(&mut self, alloc: Global, net: u32, value: &T) -> Result<(), Memory>
        ensures { OnOk result ((n : ℕ) → entry_of self.new n ≡ (if nat_eq net n then Some value.now else entry_of self.old n)) }
    {
        self.set(net, value.copy(alloc)?)
    }

    /// The same values beside the same numbers. The only error is want of memory.
    pub fn copy(&self, alloc: Global) -> Result<Table<T>, Memory>
        ensures { IfOk result (λ copied. copied ≡ self.now) }
    {
        let mut of = IndexMap::new(alloc);
        for i in 0..self.of.len() {
            if let Some((net, value)) = self.of.get_index(i) {
                of.insert(*net, value.copy(alloc)?)?;
            }
        }
        Ok(Table { of })
    }
}
