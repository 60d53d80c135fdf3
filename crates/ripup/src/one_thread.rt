//! Routing on one thread.
ghost use Rattle.std.specs.Prelude.{◌≡◌, IfOk};
ghost use Rattle.ripup.specs.Headline.{BeginsWith, GoesOnInOrder, IsHeadline};
ghost use Rattle.track_graph.specs.Conditions.{IsJournalOf, IsStateOf};
ghost use Rattle.track_graph.specs.Designs.{IsDesign};
ghost use Rattle.track_graph.specs.Histories.{IsFinishedHistory, IsHistory};
ghost use Rattle.track_graph.specs.States.{state_of};

use crate::net_order::order;
use crate::progress::Progress;
use least_walk::Tables;
use rt_base::Memory;
use standing_shapes::stored;
use std::alloc::Global;
use track_graph::{Design, Journal, fold};

/// Goes on with a history until it is finished: the routable nets are taken in their order, and
/// each gets one least wire after the other until all its pins are joined. Where no walk is legal,
/// exactly the nets are ripped that a least soft walk crosses, and the wire is least without them;
/// where there is no soft walk either, the net is marked stuck. Nets that were ripped are taken
/// before the next of the order: when the net for which they were ripped is done, the ones ripped
/// last first, and of those that one block rips the first one in the order.
///
/// It ends, since no net is ripped more often than the user allows. Fails only where memory runs out.
pub fn finish(alloc: Global, design: &Design, journal: Journal) -> Result<Journal, Memory>
    requires design { IsDesign design.now }
    requires history { IsHistory design.now journal.blocks }
    ensures finished { IfOk result (λ j. IsFinishedHistory design.now j.blocks) }
    ensures begins { IfOk result (λ j. BeginsWith j.blocks journal.blocks) }
    ensures headline { IfOk result (λ j. IsHeadline design.now j.blocks) }
    ensures order { IfOk result (λ j. GoesOnInOrder design.now j.blocks journal.blocks) }
    ensures blocks { IfOk result (λ j. IsJournalOf design.now j.blocks) }
    ensures state { IfOk result (λ j. IsStateOf design.now (state_of design.now j.blocks)) }
{
    let state = fold(alloc, design, journal.blocks())?;
    let store = stored(alloc, design, &state)?;
    let tables = Tables::new(alloc);
    let mut run = Progress {
        journal,
        state,
        store,
        tables,
    };
    for net in order(alloc, design)?.as_slice() {
        run.settle(alloc, design, *net)?;
    }
    let Progress { journal, .. } = run;
    Ok(journal)
}
