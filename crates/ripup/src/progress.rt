//! A run under way.
ghost use Rattle.std.specs.Prelude.{◌≡◌, ◌⊎◌, ℕ, ◌<◌, ◌++◌, ◌∷◌, [], length, All, OnOk};
ghost use Rattle.ripup.specs.Hulls.{AreTakenNext};
ghost use Rattle.ripup.specs.Progress.{is_waiting, ripped_by, AddsFor, IsDone, IsTurn, IsUnderWay};
ghost use Rattle.track_graph.specs.Conditions.{IsNetOf};
ghost use Rattle.track_graph.specs.Designs.{IsDesign};
ghost use Rattle.track_graph.specs.Histories.{IsRight, IsRoutable};
ghost use Rattle.track_graph.specs.States.{after, net_state};

use crate::net_order::last_first;
use crate::next::next_block;
use least_walk::Tables;
use rt_base::Memory;
use shape_grid::Tile;
use standing_shapes::add_block;
use std::alloc::Global;
use track_graph::{Block, Design, Journal, State};

/// A journal, the state after its blocks, the shapes of the state, and what searches write down.
#[derive(Drop)]
pub(crate) struct Progress {
    pub journal: Journal,
    pub state: State,
    pub store: Tile,
    pub tables: Tables,
}

/// Whether a net isn't marked stuck and has a pin that isn't joined.
fn is_waiting(state: &State, net: u32) -> bool
    requires { net < length state.now.nets }
    ensures { result ≡ is_waiting (net_state state.now net) }
{
    let net = &state.nets.items[net as usize];
    !net.stuck && !net.all_joined()
}

/// Adds the nets that a block rips to those that are to be taken, of which the last one comes next.
fn push_ripped(
    alloc: Global,
    design: &Design,
    block: &Block,
    todo: &mut Vec<u32>,
) -> Result<(), Memory>
    requires { All (IsNetOf design.now) (ripped_by block.now) }
    ensures { OnOk result (AreTakenNext design.now (ripped_by block.now) todo.new.items todo.old.items) }
{
    if let Block::RipFor { ripped, .. } = block {
        let nets = last_first(alloc, design, ripped.as_slice())?;
        todo.extend_from_slice(&nets)?;
    }
    Ok(())
}

impl Progress {
    /// Adds a block that is right.
    fn add(&mut self, alloc: Global, design: &Design, block: Block) -> Result<(), Memory>
        requires design { IsDesign design.now }
        requires under_way { IsUnderWay design.now self.old }
        requires right { IsRight design.now self.old.state block }
        ensures under_way { OnOk result (IsUnderWay design.now self.new) }
        ensures blocks { OnOk result (self.new.journal.blocks ≡ self.old.journal.blocks ++ block ∷ []) }
        ensures state { OnOk result (self.new.state ≡ after self.old.state block) }
    {
        self.journal.reserve()?;
        add_block(alloc, design, &self.state, &block, &mut self.store)?;
        self.state.push(design, &block)?;
        self.journal.add(block);
        Ok(())
    }

    /// A turn of a net that was taken from those that are to be taken: where it is waiting it gets a
    /// block, and it is put back to come next, and after it the nets that the block rips.
    fn turn(
        &mut self,
        alloc: Global,
        design: &Design,
        net: u32,
        todo: &mut Vec<u32>,
    ) -> Result<(), Memory>
        requires design { IsDesign design.now }
        requires under_way { IsUnderWay design.now self.old }
        requires routable { IsRoutable design.now net }
        ensures { OnOk result (IsTurn design.now net self.new self.old todo.new.items todo.old.items) }
    {
        if !is_waiting(&self.state, net) {
            return Ok(());
        }
        // That turns come to an end rests on this bound.
        prove!(design.options.rips <= u8::MAX);
        let block = next_block(
            alloc,
            design,
            &self.state,
            &self.store,
            net,
            &mut self.tables,
        )?;
        push_ripped(alloc, design, &block, todo)?;
        todo.push(net)?;
        self.add(alloc, design, block)
    }

    /// Takes a net, then the nets that are ripped for it, then those that are ripped for these, and so
    /// on until each of them is joined or marked stuck. Of the nets that are to be taken those that
    /// were ripped last come first, and of the ones that one block rips the first one in the order of
    /// nets.
    pub fn settle(&mut self, alloc: Global, design: &Design, net: u32) -> Result<(), Memory>
        requires design { IsDesign design.now }
        requires under_way { IsUnderWay design.now self.old }
        requires routable { IsRoutable design.now net }
        ensures under_way { OnOk result (IsUnderWay design.now self.new) }
        ensures adds { OnOk result (AddsFor net self.new.journal.blocks self.old.journal.blocks) }
        ensures done { OnOk result ((m : ℕ) → (m ≡ net) ⊎ IsDone self.old.state m → IsDone self.new.state m) }
    {
        let mut todo = Vec::new(alloc);
        todo.push(net)?;
        'turns: while let Some(next) = todo.pop() {
            self.turn(alloc, design, next, &mut todo)?;
        }
        Ok(())
    }
}
