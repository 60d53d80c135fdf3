//! Numbers of vertices.
ghost use Rattle.std.specs.Prelude.{◌≡◌, [], OnOk};
ghost use Rattle.least_walk.specs.Known.{number_of, Sets};

use rt_base::{Memory, Vertex};
use std::alloc::Global;
use std::collections::HashMap;
use std::marker::Model;

/// A number for each vertex that was given one.
#[derive(Drop)]
pub struct Known {
    numbers: HashMap<Vertex, usize>,
}

impl Model for Known {
    ghost use Rattle.std.specs.Prelude.{List, ℕ};
    ghost use Rattle.rt_base.specs.declared.walk.Vertex.{Vertex as OfVertex};

    ghost Value = { List (OfVertex × ℕ) };

    ghost view = { λ k. k.numbers.entries };
}

impl Known {
    /// No vertex has a number. Takes no memory.
    pub fn new(alloc: Global) -> Known
        ensures { result ≡ [] }
    {
        Known {
            numbers: HashMap::new(alloc),
        }
    }

    /// The number of a vertex.
    pub fn get(&self, vertex: Vertex) -> Option<usize>
        ensures { result ≡ number_of self.now vertex }
    {
        self.numbers.get(&vertex).copied()
    }

    /// Gives a vertex a number, in place of that which it had.
    pub fn set(&mut self, vertex: Vertex, number: usize) -> Result<(), Memory>
        ensures ok { OnOk result (Sets vertex number self.old self.new) }
    {
        self.numbers.insert(vertex, number)?;
        Ok(())
    }

    /// Takes all numbers away, and keeps the memory.
    pub fn clear(&mut self)
        ensures { self.new ≡ [] }
    {
        self.numbers.clear();
    }
}
