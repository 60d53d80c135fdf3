//! The searches of a net by itself, without a store that lives on.
ghost use Rattle.std.specs.Prelude.{IfOk, IfSome, IfNone};
ghost use Rattle.track_graph.specs.Conditions.{IsStateOf};
ghost use Rattle.track_graph.specs.Designs.{IsDesign};
ghost use Rattle.track_graph.specs.Histories.{IsRoutable};
ghost use Rattle.track_graph.specs.Readings.{hard_reading, soft_reading};
ghost use Rattle.track_graph.specs.Searches.{IsLeast, NoneLegal};
ghost use Rattle.track_graph.specs.States.{net_state};

use crate::answer::search;
use crate::ground::Ground;
use crate::sense::Sense;
use crate::stock::Standing;
use least_walk::Tables;
use rt_base::{Memory, Walk};
use standing_shapes::stored;
use std::alloc::Global;
use track_graph::{Design, State};

/// A legal walk of least cost of a net, or `None` where no walk of the net is legal: none of its shapes
/// conflicts with a fixed or a standing one. Where several walks cost least, any of them is answered.
/// It puts the shapes of the state into a store first; `search` takes one that is there. The only
/// error is want of memory.
pub fn plain_search(
    alloc: Global,
    design: &Design,
    state: &State,
    net: u32,
) -> Result<Option<Walk>, Memory>
    requires design { IsDesign design.now }
    requires routed { IsStateOf design.now state.now }
    requires net { IsRoutable design.now net }
    ensures least { IfOk result (λ w. IfSome w (IsLeast design.now net (net_state state.now net) (hard_reading design.now state.now))) }
    ensures none { IfOk result (λ w. IfNone w (NoneLegal design.now net (net_state state.now net) (hard_reading design.now state.now))) }
{
    let store = stored(alloc, design, state)?;
    let standing = Standing {
        state,
        store: &store,
    };
    let ground = Ground {
        design,
        net,
        own: standing.of_net(net),
        stock: &standing,
        sense: &Sense::Hard,
    };
    search(alloc, &ground, &mut Tables::new(alloc))
}

/// A soft walk of least cost of a net, or `None` where there is none. The standing shapes of other
/// nets that were ripped less often than the user allows don't forbid; each edge and entry that
/// conflicts with one costs eight times as much. Where several walks cost least, any of them is
/// answered. The only error is want of memory.
pub fn plain_soft(
    alloc: Global,
    design: &Design,
    state: &State,
    net: u32,
) -> Result<Option<Walk>, Memory>
    requires design { IsDesign design.now }
    requires routed { IsStateOf design.now state.now }
    requires net { IsRoutable design.now net }
    ensures least { IfOk result (λ w. IfSome w (IsLeast design.now net (net_state state.now net) (soft_reading design.now state.now net))) }
    ensures none { IfOk result (λ w. IfNone w (NoneLegal design.now net (net_state state.now net) (soft_reading design.now state.now net))) }
{
    let store = stored(alloc, design, state)?;
    let standing = Standing {
        state,
        store: &store,
    };
    let ground = Ground {
        design,
        net,
        own: standing.of_net(net),
        stock: &standing,
        sense: &Sense::Soft,
    };
    search(alloc, &ground, &mut Tables::new(alloc))
}
