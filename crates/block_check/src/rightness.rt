//! Whether a block is right in a state.
ghost use Rattle.std.specs.Prelude.{◌≡◌, ◌↔◌, IsTrue, IfOk};
ghost use Rattle.plain_route.specs.declared.sense.Sense.TheVariants.{Without};
ghost use Rattle.standing_shapes.specs.Standing.{AreShapesOf};
ghost use Rattle.track_graph.specs.Conditions.{IsStateOf};
ghost use Rattle.track_graph.specs.Designs.{IsDesign};
ghost use Rattle.track_graph.specs.Histories.{IsRight, IsWaiting};
ghost use Rattle.track_graph.specs.Orders.{net_of};

use crate::check::Check;
use least_walk::Tables;
use plain_route::{Sense, Standing};
use rt_base::{Memory, Seq};
use shape_grid::ShapeStore;
use standing_shapes::stored;
use std::alloc::Global;
use track_graph::{Block, Design, NetKind, State};

/// The net that a block is of.
fn net_of(block: &Block) -> u32
    ensures { result ≡ net_of block.now }
{
    match block {
        Block::Wire { net, .. } => *net,
        Block::Stuck { net } => *net,
        Block::RipFor { net, .. } => *net,
    }
}

/// Whether a net is routable, isn't marked stuck and has a pin that isn't joined.
fn is_waiting(design: &Design, state: &State, net: u32) -> bool
    requires { IsStateOf design.now state.now }
    ensures { IsTrue result ↔ IsWaiting design.now state.now net }
{
    let Some(kind) = design.nets.as_slice().get(net as usize) else {
        return false;
    };
    if kind.kind != NetKind::Routable {
        return false;
    }
    let standing = &state.nets.as_slice()[net as usize];
    !standing.stuck && !standing.all_joined()
}

/// The sense without the wires of these nets.
fn without(alloc: Global, nets: &[u32]) -> Result<Sense, Memory>
    ensures { IfOk result (λ sense. sense ≡ Without nets.now) }
{
    let nets = Vec::from_slice(alloc, nets)?;
    Ok(Sense::Without(Seq::from_vec(nets)))
}

/// Whether a block is right in a state of which a store has the shapes: its net is waiting, and its
/// walk is least, or there is none. A block whose numbers the design lacks is not right. The tables
/// may be any before and after. The only error is want of memory.
pub fn right_in<S: ShapeStore>(
    alloc: Global,
    design: &Design,
    state: &State,
    store: &S,
    tables: &mut Tables,
    block: &Block,
) -> Result<bool, Memory>
    requires design { IsDesign design.now }
    requires state { IsStateOf design.now state.now }
    requires stored { AreShapesOf design.now state.now (S.shapes store.now) }
    ensures { IfOk result (λ b. IsTrue b ↔ IsRight design.now state.now block.now) }
{
    let net = net_of(block);
    if !is_waiting(design, state, net) {
        return Ok(false);
    }
    let standing = Standing { state, store };
    let check = Check {
        design,
        standing,
        net,
    };
    match block {
        Block::Wire { walk, .. } => check.is_least(alloc, &Sense::Hard, walk, tables),
        Block::Stuck { .. } => check.is_stuck(alloc, tables),
        Block::RipFor {
            soft,
            ripped,
            walk,
            ..
        } => {
            if !check.must_rip(alloc, soft, ripped, tables)? {
                return Ok(false);
            }
            let sense = without(alloc, ripped.as_slice())?;
            check.is_least(alloc, &sense, walk, tables)
        }
    }
}

/// Whether a block is right in a state: its net is waiting, and its walk is least, or there is none.
/// A block whose numbers the design lacks is not right. It makes a store of the state's shapes anew.
/// The only error is want of memory.
pub fn right(alloc: Global, design: &Design, state: &State, block: &Block) -> Result<bool, Memory>
    requires design { IsDesign design.now }
    requires state { IsStateOf design.now state.now }
    ensures { IfOk result (λ b. IsTrue b ↔ IsRight design.now state.now block.now) }
{
    let store = stored(alloc, design, state)?;
    let mut tables = Tables::new(alloc);
    right_in(alloc, design, state, &store, &mut tables, block)
}
