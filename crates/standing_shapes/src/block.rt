//! A store brought to the state after a block.
ghost use Rattle.std.specs.Prelude.{◌≡◌, ◌<◌, ◌++◌, ◌∷◌, [], ◌↔◌, All, Contains, IsTrue, length, OnOk};
ghost use Rattle.track_graph.specs.Conditions.{IsBlockOf, IsNetOf, IsStateOf};
ghost use Rattle.track_graph.specs.Designs.{IsDesign};
ghost use Rattle.track_graph.specs.States.{after, emptied, net_state};
ghost use Rattle.standing_shapes.specs.Standing.{AreShapesOf};

use crate::put::add_walk;
use crate::take::take_walks;
use rt_base::{Memory, Walk};
use shape_grid::ShapeStore;
use std::alloc::Global;
use track_graph::{Block, Design, State};

/// Whether a number is among these.
fn is_among(nets: &[u32], net: u32) -> bool
    ensures { IsTrue result ↔ Contains nets.now net }
{
    nets.contains(&net)
}

/// The standing walks of a net.
fn walks_of(state: &State, net: u32) -> &[Walk]
    requires { net < length state.now.nets }
    ensures { result.now ≡ (net_state state.now net).walks }
{
    state.nets.as_slice()[net as usize].walks.as_slice()
}

/// Takes the shapes of a net out, where those of these nets are taken out already.
fn take_net<S: ShapeStore>(
    alloc: Global,
    design: &Design,
    state: &State,
    gone: &[u32],
    net: u32,
    store: &mut S,
) -> Result<(), Memory>
    requires design { IsDesign design.now }
    requires state { IsStateOf design.now state.now }
    requires net { IsNetOf design.now net }
    requires stored { AreShapesOf design.now (emptied state.now gone.now) (S.shapes store.old) }
    ensures { OnOk result (AreShapesOf design.now (emptied state.now (gone.now ++ net ∷ [])) (S.shapes store.new)) }
{
    if is_among(gone, net) {
        return Ok(());
    }
    take_walks(alloc, design, net, walks_of(state, net), store)
}

/// Takes the shapes of these nets out.
fn take_nets<S: ShapeStore>(
    alloc: Global,
    design: &Design,
    state: &State,
    nets: &[u32],
    store: &mut S,
) -> Result<(), Memory>
    requires design { IsDesign design.now }
    requires state { IsStateOf design.now state.now }
    requires nets { All (IsNetOf design.now) nets.now }
    requires stored { AreShapesOf design.now state.now (S.shapes store.old) }
    ensures { OnOk result (AreShapesOf design.now (emptied state.now nets.now) (S.shapes store.new)) }
{
    for (i, net) in nets.iter().enumerate() {
        take_net(alloc, design, state, &nets[..i], *net, store)?;
    }
    Ok(())
}

/// Brings a store with the shapes of a state to those of the state after a block: those of the nets
/// that are ripped are taken out, and those of the walk are added. The only error is want of memory,
/// after which the store may be in between.
pub fn add_block<S: ShapeStore>(
    alloc: Global,
    design: &Design,
    state: &State,
    block: &Block,
    store: &mut S,
) -> Result<(), Memory>
    requires design { IsDesign design.now }
    requires state { IsStateOf design.now state.now }
    requires block { IsBlockOf design.now block.now }
    requires stored { AreShapesOf design.now state.now (S.shapes store.old) }
    ensures { OnOk result (AreShapesOf design.now (after state.now block.now) (S.shapes store.new)) }
{
    match block {
        Block::Wire { net, walk } => add_walk(alloc, design, *net, walk, store),
        Block::Stuck { .. } => Ok(()),
        Block::RipFor {
            net,
            ripped,
            walk,
            ..
        } => {
            take_nets(alloc, design, state, ripped.as_slice(), store)?;
            add_walk(alloc, design, *net, walk, store)
        }
    }
}
