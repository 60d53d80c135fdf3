//! The report of a run: ten counts, and then what was skipped, which nets have no path and which
//! have no guide.
#![tactic(auto)]

ghost use Rattle.std.specs.Prelude.{◌≡◌, IfOk, length};
ghost use Rattle.track_graph.specs.Conditions.{IsJournalOf};
ghost use Rattle.report.specs.Lines.{report_of, report_text};

mod counts;
mod lines;
mod wires;

use lines::{name_lines, net_counts, wire_counts};
use rt_base::Memory;
use rt_text::Text;
use std::alloc::Global;
use track_graph::{Block, Design, Journal, State, fold};

/// The report of the design and a journal of it: the lines `nets`, `joined`, `stuck`, `unguided`,
/// `prewired`, `single`, `rips`, `wire`, `vias` and `skipped`, each with its number, and then a line
/// `skipped-in NAME n` for each count above 0, a line `no-path NET` for each routable net with a pin
/// that isn't joined, and a line `unguided-net NET` for each net without a guide, in file order.
/// Lengths are in DEF database units. The only error is want of memory, which is also the answer
/// where a total of lengths or of vias doesn't fit 128 bits.
pub fn report(alloc: Global, design: &Design, journal: &Journal) -> Result<Vec<u8>, Memory>
    requires { IsJournalOf design.now journal.now.blocks }
    ensures { IfOk result (λ text. text.items ≡ report_text design.now journal.now.blocks) }
{
    let state = fold(alloc, design, journal.blocks())?;
    report_of_state(alloc, design, &state, journal.blocks())
}

/// The report of the design and of blocks that lead to this state: as `report` writes it, of a state
/// that is at hand.
pub fn report_of_state(
    alloc: Global,
    design: &Design,
    state: &State,
    blocks: &[Block],
) -> Result<Vec<u8>, Memory>
    requires { length design.now.nets ≡ length state.now.nets }
    ensures { IfOk result (λ text. text.items ≡ report_of design.now state.now blocks.now) }
{
    let mut text = Text::new(alloc);
    net_counts(&mut text, design, state)?;
    wire_counts(&mut text, design, state, blocks)?;
    name_lines(&mut text, design, state)?;
    Ok(text.into_vec())
}

#[cfg(test)]
mod tests;
