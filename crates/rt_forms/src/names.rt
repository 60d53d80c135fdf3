//! Distinct names, in the order in which they came.
ghost use Rattle.std.specs.Prelude.{◌≡◌, ◌++◌, ◌∷◌, [], not, position, bytes_eq, IfOk, OnErr, if◌then◌else◌};
ghost use Rattle.std.specs.List.{list_any};

use indexmap::IndexSet;
use rt_base::Memory;
use std::alloc::Global;
use std::marker::Model;

/// Distinct names, in the order in which they came. Look-ups take about the same time however many
/// there are.
#[derive(Drop)]
pub struct Names {
    set: IndexSet<Vec<u8>>,
}

impl Model for Names {
    ghost use Rattle.std.specs.Prelude.{List, ℕ};
    ghost use Rattle.rt_forms.specs.Names.{texts};

    ghost Value = { List (List ℕ) };

    ghost view = { λ n. texts n.set.keys };
}

impl Names {
    /// No names. Takes no memory.
    pub fn new(alloc: Global) -> Names
        ensures { result ≡ [] }
    {
        Names {
            set: IndexSet::new(alloc),
        }
    }

    /// The place of a name, from 0.
    pub fn find(&self, name: &[u8]) -> Option<usize>
        ensures { result ≡ position (λ n. bytes_eq name.now n) self.now }
    {
        self.set.get_index_of(name)
    }

    /// Adds a name at the end, unless it is there, and answers whether it wasn't.
    pub fn add(&mut self, alloc: Global, name: &[u8]) -> Result<bool, Memory>
        ensures added { IfOk result (λ added. added ≡ not (list_any (bytes_eq name.now) self.old)) }
        ensures names { IfOk result (λ added. self.new ≡ (if added then self.old ++ name.now ∷ [] else self.old)) }
        ensures err { OnErr result (self.new ≡ self.old) }
    {
        let (_, added) = self.set.insert_full(Vec::from_slice(alloc, name)?)?;
        Ok(added)
    }
}
