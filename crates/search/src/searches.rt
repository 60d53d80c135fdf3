//! The searches of a net in a view.
ghost use Rattle.std.specs.Prelude.{IfOk, IfSome, IfNone};
ghost use Rattle.plain_route.specs.Senses.{reading_of};
ghost use Rattle.search.specs.Views.{HasAllTiles, HasNet, StandsFor};
ghost use Rattle.track_graph.specs.Designs.{IsDesign};
ghost use Rattle.track_graph.specs.Histories.{IsRoutable};
ghost use Rattle.track_graph.specs.Readings.{hard_reading, soft_reading};
ghost use Rattle.track_graph.specs.Searches.{IsLeast, NoneLegal};
ghost use Rattle.track_graph.specs.States.{net_state};
ghost use Rattle.track_graph.specs.declared.history.State.{State as StateOf};

use crate::view::View;
use least_walk::Tables;
use plain_route::{Ground, Sense, search};
use rt_base::{Memory, Walk};
use std::alloc::Global;
use track_graph::Design;

/// A walk of least cost of a net, taken in a sense, in each state for which a view stands, or `None`
/// where no walk of the net is legal in it.
fn find_in(
    alloc: Global,
    design: &Design,
    view: &View,
    net: u32,
    sense: &Sense,
    tables: &mut Tables,
) -> Result<Option<Walk>, Memory>
    requires design { IsDesign design.now }
    requires routable { IsRoutable design.now net }
    requires net { HasNet view.now net }
    requires tiles { HasAllTiles design.now view.now }
    requires state { (s : StateOf) × StandsFor design.now s view.now }
    ensures least { (s : StateOf) → StandsFor design.now s view.now → IfOk result (λ w. IfSome w (IsLeast design.now net (net_state s net) (reading_of design.now s net sense.now))) }
    ensures none { (s : StateOf) → StandsFor design.now s view.now → IfOk result (λ w. IfNone w (NoneLegal design.now net (net_state s net) (reading_of design.now s net sense.now))) }
{
    let ground = Ground {
        design,
        net,
        own: view.of_net(net),
        stock: view,
        sense,
    };
    search(alloc, &ground, tables)
}

/// A legal walk of least cost of a net in each state for which a view stands, or `None` where no walk
/// of the net is legal. The view has the net and all tiles of the die. Where several walks cost least,
/// any of them is answered. The tables may be those of an earlier search. The only error is want of
/// memory.
pub fn find(
    alloc: Global,
    design: &Design,
    view: &View,
    net: u32,
    tables: &mut Tables,
) -> Result<Option<Walk>, Memory>
    requires design { IsDesign design.now }
    requires routable { IsRoutable design.now net }
    requires net { HasNet view.now net }
    requires tiles { HasAllTiles design.now view.now }
    requires state { (s : StateOf) × StandsFor design.now s view.now }
    ensures least { (s : StateOf) → StandsFor design.now s view.now → IfOk result (λ w. IfSome w (IsLeast design.now net (net_state s net) (hard_reading design.now s))) }
    ensures none { (s : StateOf) → StandsFor design.now s view.now → IfOk result (λ w. IfNone w (NoneLegal design.now net (net_state s net) (hard_reading design.now s))) }
{
    find_in(alloc, design, view, net, &Sense::Hard, tables)
}

/// A soft walk of least cost of a net in each state for which a view stands, or `None` where there is
/// none: the wires of other nets that were ripped less often than the user allows don't forbid, and each
/// edge and entry that conflicts with one costs eight times as much. The view has the net and all tiles
/// of the die. Where several walks cost least, any of them is answered. The tables may be those of an
/// earlier search. The only error is want of memory.
pub fn find_soft(
    alloc: Global,
    design: &Design,
    view: &View,
    net: u32,
    tables: &mut Tables,
) -> Result<Option<Walk>, Memory>
    requires design { IsDesign design.now }
    requires routable { IsRoutable design.now net }
    requires net { HasNet view.now net }
    requires tiles { HasAllTiles design.now view.now }
    requires state { (s : StateOf) × StandsFor design.now s view.now }
    ensures least { (s : StateOf) → StandsFor design.now s view.now → IfOk result (λ w. IfSome w (IsLeast design.now net (net_state s net) (soft_reading design.now s net))) }
    ensures none { (s : StateOf) → StandsFor design.now s view.now → IfOk result (λ w. IfNone w (NoneLegal design.now net (net_state s net) (soft_reading design.now s net))) }
{
    find_in(alloc, design, view, net, &Sense::Soft, tables)
}
