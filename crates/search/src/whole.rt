//! The view of all tiles and all nets.
ghost use Rattle.std.specs.Prelude.{◌≡◌, ℕ, ◌<◌, ◌^◌, All, IfOk, length, option_map, slice_get};
ghost use Rattle.std.specs.List.{sum_by};
ghost use Rattle.rt_base.specs.declared.tech.Shape.{Shape as ShapeOf};
ghost use Rattle.search.specs.Tables.{entry_of};
ghost use Rattle.search.specs.Views.{HasAllTiles, HasNet, StandsFor, state_shapes};
ghost use Rattle.search.specs.Wholes.{AreNumbered};
ghost use Rattle.shape_grid.specs.Tiling.{IsUpright};
ghost use Rattle.track_graph.specs.Conditions.{IsNetOf, IsStateOf};
ghost use Rattle.track_graph.specs.Designs.{IsDesign};

use crate::change::look_at;
use crate::piece::Piece;
use crate::table::Table;
use crate::view::View;
use rt_base::{Memory, Seq, Shape};
use shape_grid::{ListStore, Tile, split};
use standing_shapes::add_state;
use std::alloc::Global;
use track_graph::{Design, NetState, State};

/// The shapes that stand in a state, in some order.
fn shapes_of_state(alloc: Global, design: &Design, state: &State) -> Result<Vec<Shape>, Memory>
    requires design { IsDesign design.now }
    requires state { IsStateOf design.now state.now }
    ensures sums { IfOk result (λ v. (measure : ShapeOf → ℕ) → sum_by measure v.items ≡ sum_by measure (state_shapes design.now state.now)) }
    ensures upright { IfOk result (λ v. All (λ (b : ShapeOf). IsUpright b.rect) v.items) }
{
    let mut store = ListStore::new(alloc);
    add_state(alloc, design, state, &mut store)?;
    look_at(store.kept.as_slice());
    Ok(store.kept.into_vec())
}

/// These tiles with their numbers, the last one first.
fn number_tiles(alloc: Global, tiles: Vec<Tile>) -> Result<Seq<Piece>, Memory>
    requires { length tiles.items < 2 ^ 32 }
    ensures { IfOk result (AreNumbered tiles.items) }
{
    let mut tiles = tiles;
    let mut pieces = Seq::new(alloc);
    while let Some(tile) = tiles.pop() {
        let no = tiles.len() as u32;
        pieces.push(Piece { no, tile })?;
    }
    Ok(pieces)
}

/// What stands of each net.
fn nets_of(alloc: Global, state: &State) -> Result<Table<NetState>, Memory>
    requires { length state.now.nets < 2 ^ 32 }
    ensures { IfOk result (λ t. (n : ℕ) → entry_of t n ≡ slice_get state.now.nets n) }
{
    let mut nets = Table::new(alloc);
    for (net, own) in state.nets.as_slice().iter().enumerate() {
        nets.set_copy(alloc, net as u32, own)?;
    }
    Ok(nets)
}

/// How often each net was ripped.
fn rips_of(alloc: Global, state: &State) -> Result<Table<u8>, Memory>
    requires { length state.now.nets < 2 ^ 32 }
    ensures { IfOk result (λ t. (n : ℕ) → entry_of t n ≡ option_map (λ own. own.rips) (slice_get state.now.nets n)) }
{
    let mut rips = Table::new(alloc);
    for (net, own) in state.nets.as_slice().iter().enumerate() {
        rips.set(net as u32, own.rips)?;
    }
    Ok(rips)
}

impl View {
    /// The view of all tiles and nets that stands for a state. The only error is want of memory.
    pub fn whole(alloc: Global, design: &Design, state: &State) -> Result<View, Memory>
        requires design { IsDesign design.now }
        requires state { IsStateOf design.now state.now }
        ensures stands { IfOk result (StandsFor design.now state.now) }
        ensures tiles { IfOk result (HasAllTiles design.now) }
        ensures nets { IfOk result (λ v. (n : ℕ) → IsNetOf design.now n → HasNet v n) }
    {
        let shapes = shapes_of_state(alloc, design, state)?;
        let tiles = split(alloc, &design.grid, shapes.as_slice())?;
        Ok(View {
            pieces: number_tiles(alloc, tiles)?,
            nets: nets_of(alloc, state)?,
            rips: rips_of(alloc, state)?,
        })
    }
}
