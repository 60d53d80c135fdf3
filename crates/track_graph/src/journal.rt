//! Journals.
ghost use Rattle.std.specs.Prelude.{◌≡◌, ◌≤◌, ◌++◌, ◌∷◌, [], OnOk};

use crate::history::Block;
use rt_base::Memory;
use std::alloc::Global;
use std::marker::Model;

/// The blocks of a run, in order. They are only added.
#[derive(Debug, Drop)]
pub struct Journal {
    blocks: Vec<Block>,
}

impl Model for Journal {
    ghost use Rattle.std.specs.Prelude.{◌-◌, vec_len};
    ghost use Rattle.std.specs.Vec.{vec_capacity};
    ghost use Rattle.track_graph.specs.Journals.{Contents};

    ghost Value = { Contents };

    ghost view = { λ j. record { blocks = j.blocks.items; spare = vec_capacity j.blocks - vec_len j.blocks } };
}

impl Journal {
    /// The journal without blocks. Takes no memory.
    pub fn new(alloc: Global) -> Journal
        ensures { result.blocks ≡ [] }
    {
        Journal {
            blocks: Vec::new(alloc),
        }
    }

    /// The blocks, the first one first. Takes no memory.
    pub fn blocks(&self) -> &[Block]
        ensures { result.now ≡ self.now.blocks }
    {
        &self.blocks
    }

    /// Makes room for a block.
    pub fn reserve(&mut self) -> Result<(), Memory>
        ensures blocks { self.new.blocks ≡ self.old.blocks }
        ensures room { OnOk result (1 ≤ self.new.spare) }
    {
        self.blocks.reserve(1)?;
        Ok(())
    }

    /// Adds a block at the end, where there is room for it. Takes no memory.
    pub fn add(&mut self, block: Block)
        requires { 1 ≤ self.old.spare }
        ensures { self.new.blocks ≡ self.old.blocks ++ block ∷ [] }
    {
        match self.blocks.push(block) {
            Ok(()) => {}
            Err(_) => unreachable!(),
        }
    }
}
