//! What comes next for a net in a view.
ghost use Rattle.std.specs.Prelude.{IfOk};
ghost use Rattle.ripup.specs.Choices.{is_among, IsChoice};
ghost use Rattle.ripup.specs.Waiting.{WaitsInSome};
ghost use Rattle.search.specs.Views.{HasAllTiles, HasNet, StandsFor};
ghost use Rattle.track_graph.specs.Designs.{IsDesign};
ghost use Rattle.track_graph.specs.declared.history.State.{State as StateOf};

use crate::choice::{Ask, Choice, Held};
use least_walk::Tables;
use rt_base::Memory;
use search::View;
use std::alloc::Global;
use track_graph::Design;

/// What comes next for a net in each state for which a view stands, where the nets with these numbers
/// are held: a least wire; where no walk is legal, a least wire for which exactly the nets are ripped
/// that a least soft walk crosses, all of them held; or those of these nets that aren't held, at least
/// one, ascending, where some aren't; or the mark, where there is no soft walk either. The net is
/// routable, isn't marked and has a pin that isn't joined; the view has it and all tiles of the die.
/// The tables may be those of an earlier search. The only error is want of memory.
pub fn plan(
    alloc: Global,
    design: &Design,
    view: &View,
    held: &[u32],
    net: u32,
    tables: &mut Tables,
) -> Result<Choice, Memory>
    requires design { IsDesign design.now }
    requires net { HasNet view.now net }
    requires tiles { HasAllTiles design.now view.now }
    requires waiting { WaitsInSome design.now view.now net }
    ensures { (s : StateOf) → StandsFor design.now s view.now → IfOk result (IsChoice design.now s (is_among held.now) net) }
{
    let ask = Ask {
        design,
        net,
        own: view.of_net(net),
        stock: view,
    };
    ask.choose(alloc, &Held::These(held), tables)
}
