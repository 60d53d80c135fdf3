//! The block that comes next for a net on one thread.
ghost use Rattle.std.specs.Prelude.{◌≡◌, IfOk};
ghost use Rattle.standing_shapes.specs.Standing.{AreShapesOf};
ghost use Rattle.track_graph.specs.Conditions.{IsStateOf};
ghost use Rattle.track_graph.specs.Designs.{IsDesign};
ghost use Rattle.track_graph.specs.Histories.{IsRight, IsWaiting};
ghost use Rattle.track_graph.specs.Orders.{net_of};

use crate::choice::{Ask, Choice, Held};
use least_walk::Tables;
use plain_route::Standing;
use rt_base::Memory;
use shape_grid::ShapeStore;
use std::alloc::Global;
use track_graph::{Block, Design, State};

/// What comes next for a net where each net may be ripped. The store has the shapes of the state.
pub(crate) fn next_block<S: ShapeStore>(
    alloc: Global,
    design: &Design,
    state: &State,
    store: &S,
    net: u32,
    tables: &mut Tables,
) -> Result<Block, Memory>
    requires design { IsDesign design.now }
    requires state { IsStateOf design.now state.now }
    requires stored { AreShapesOf design.now state.now (S.shapes store.now) }
    requires waiting { IsWaiting design.now state.now net }
    ensures right { IfOk result (λ b. IsRight design.now state.now b) }
    ensures net { IfOk result (λ b. net_of b ≡ net) }
{
    let standing = Standing { state, store };
    let ask = Ask {
        design,
        net,
        own: standing.of_net(net),
        stock: &standing,
    };
    match ask.choose(alloc, &Held::All, tables)? {
        Choice::Wire { walk } => Ok(Block::Wire { net, walk }),
        Choice::Stuck => Ok(Block::Stuck { net }),
        Choice::RipFor { soft, ripped, walk } => Ok(Block::RipFor {
            net,
            soft,
            ripped,
            walk,
        }),
        Choice::Widen { .. } => unreachable!(),
    }
}
