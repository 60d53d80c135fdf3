//! Shapes put into a store.
ghost use Rattle.std.specs.Prelude.{◌≡◌, ◌++◌, ◌^◌, ◌<◌, ◌≤◌, length, All, flat_map, IfOk, OnOk};
ghost use Rattle.track_graph.specs.Conditions.{IsStateOf};
ghost use Rattle.track_graph.specs.Designs.{IsDesign};
ghost use Rattle.track_graph.specs.NetWalks.{IsNetWalk, IsWalkOf};
ghost use Rattle.track_graph.specs.States.{standing};
ghost use Rattle.track_graph.specs.Walks.{walk_shapes_of};
ghost use Rattle.standing_shapes.specs.Standing.{AreAdded, AreShapesOf};

use rt_base::{Memory, Shape, Walk};
use shape_grid::{ShapeStore, Tile};
use std::alloc::Global;
use track_graph::{Design, State, walk_shapes};

/// Adds these shapes. The only error is want of memory, after which the store may have some of them.
pub fn add_shapes<S: ShapeStore>(shapes: &[Shape], store: &mut S) -> Result<(), Memory>
    ensures { OnOk result (AreAdded shapes.now (S.shapes store.old) (S.shapes store.new)) }
{
    for shape in shapes {
        store.add(*shape)?;
    }
    Ok(())
}

/// Adds the shapes of a walk of a net, beside those that the store has. The only error is want of
/// memory, after which the store may have some of them.
pub fn add_walk<S: ShapeStore>(
    alloc: Global,
    design: &Design,
    net: u32,
    walk: &Walk,
    store: &mut S,
) -> Result<(), Memory>
    requires design { IsDesign design.now }
    requires walk { IsNetWalk design.now net walk.now }
    ensures { OnOk result (AreAdded (walk_shapes_of design.now net walk.now) (S.shapes store.old) (S.shapes store.new)) }
{
    let shapes = walk_shapes(alloc, design, net, walk)?;
    add_shapes(shapes.as_slice(), store)
}

/// Adds the shapes of these walks of a net.
fn add_walks<S: ShapeStore>(
    alloc: Global,
    design: &Design,
    net: u32,
    walks: &[Walk],
    store: &mut S,
) -> Result<(), Memory>
    requires design { IsDesign design.now }
    requires walks { All (IsWalkOf design.now net) walks.now }
    ensures { OnOk result (AreAdded (flat_map (walk_shapes_of design.now net) walks.now) (S.shapes store.old) (S.shapes store.new)) }
{
    for walk in walks {
        add_walk(alloc, design, net, walk, store)?;
    }
    Ok(())
}

/// Adds the design's fixed shapes and those of all walks of a state, beside those that the store
/// has. The only error is want of memory, after which the store may have some of them.
pub fn add_state<S: ShapeStore>(
    alloc: Global,
    design: &Design,
    state: &State,
    store: &mut S,
) -> Result<(), Memory>
    requires design { IsDesign design.now }
    requires state { IsStateOf design.now state.now }
    ensures { OnOk result (AreAdded (design.now.fixed ++ standing design.now state.now) (S.shapes store.old) (S.shapes store.new)) }
{
    add_shapes(design.fixed.as_slice(), store)?;
    for (number, net) in state.nets.as_slice().iter().enumerate() {
        add_walks(alloc, design, number as u32, net.walks.as_slice(), store)?;
    }
    Ok(())
}

/// A store with the design's fixed shapes and those of all walks of a state. The only error is want
/// of memory.
pub fn stored(alloc: Global, design: &Design, state: &State) -> Result<Tile, Memory>
    requires design { IsDesign design.now }
    requires state { IsStateOf design.now state.now }
    ensures { IfOk result (λ shapes. AreShapesOf design.now state.now shapes) }
{
    let mut store = Tile::new(alloc);
    add_state(alloc, design, state, &mut store)?;
    Ok(store)
}
