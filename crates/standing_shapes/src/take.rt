//! Shapes taken out of a store.
ghost use Rattle.std.specs.Prelude.{◌≡◌, All, flat_map, OnOk};
ghost use Rattle.track_graph.specs.Designs.{IsDesign};
ghost use Rattle.track_graph.specs.NetWalks.{IsNetWalk, IsWalkOf};
ghost use Rattle.track_graph.specs.Walks.{walk_shapes_of};
ghost use Rattle.standing_shapes.specs.Standing.{AreAdded, AreAmong};

use rt_base::{Memory, Shape, Walk};
use shape_grid::ShapeStore;
use std::alloc::Global;
use track_graph::{Design, walk_shapes};

/// Takes these shapes out of a store that has them all. Takes no memory.
pub fn take_shapes<S: ShapeStore>(shapes: &[Shape], store: &mut S)
    requires { AreAmong shapes.now (S.shapes store.old) }
    ensures { AreAdded shapes.now (S.shapes store.new) (S.shapes store.old) }
{
    for shape in shapes {
        let _found = store.remove(shape);
    }
}

/// Takes the shapes of a walk of a net out.
fn take_walk<S: ShapeStore>(
    alloc: Global,
    design: &Design,
    net: u32,
    walk: &Walk,
    store: &mut S,
) -> Result<(), Memory>
    requires design { IsDesign design.now }
    requires walk { IsNetWalk design.now net walk.now }
    requires among { AreAmong (walk_shapes_of design.now net walk.now) (S.shapes store.old) }
    ensures { OnOk result (AreAdded (walk_shapes_of design.now net walk.now) (S.shapes store.new) (S.shapes store.old)) }
{
    let shapes = walk_shapes(alloc, design, net, walk)?;
    take_shapes(shapes.as_slice(), store);
    Ok(())
}

/// Takes the shapes of these walks of a net out of a store that has them all. The only error is want
/// of memory, after which the store may lack some of them.
pub fn take_walks<S: ShapeStore>(
    alloc: Global,
    design: &Design,
    net: u32,
    walks: &[Walk],
    store: &mut S,
) -> Result<(), Memory>
    requires design { IsDesign design.now }
    requires walks { All (IsWalkOf design.now net) walks.now }
    requires among { AreAmong (flat_map (walk_shapes_of design.now net) walks.now) (S.shapes store.old) }
    ensures { OnOk result (AreAdded (flat_map (walk_shapes_of design.now net) walks.now) (S.shapes store.new) (S.shapes store.old)) }
{
    for walk in walks {
        take_walk(alloc, design, net, walk, store)?;
    }
    Ok(())
}
