//! The lines of the report.
ghost use Rattle.std.specs.Prelude.{◌≡◌, ◌++◌, codes, count_by, flat_map, length, sum_by, OnOk};
ghost use Rattle.std.specs.List.{enumerate_from, zip};
ghost use Rattle.report.specs.Lines.{is_done, is_open, rips_of, net_wire, net_vias, count_line, name_line, skipped_line, no_path_line, unguided_line, route_counts, other_counts, net_counts, wire_counts, name_lines};

use crate::counts::{
    done_count, is_open, is_unguided, open_count, prewired_count, rips, single_count, skipped,
    unguided_count,
};
use crate::wires::{vias, wire};
use rt_base::{Memory, Name};
use rt_text::Text;
use track_graph::{Block, Design, Net, NetState, State};

/// A word, a space and a number, on a line.
fn count_line(text: &mut Text, word: &[u8], count: u128) -> Result<(), Memory>
    ensures { OnOk result (text.new ≡ text.old ++ count_line word.now count) }
{
    text.bytes(word)?;
    text.bytes(b" ")?;
    text.natural(count)?;
    text.bytes(b"\n")
}

/// A word, a space and a name, on a line.
fn name_line(text: &mut Text, word: &[u8], name: &Name) -> Result<(), Memory>
    ensures { OnOk result (text.new ≡ text.old ++ name_line word.now name.now) }
{
    text.bytes(word)?;
    text.bytes(b" ")?;
    text.bytes(name.bytes())?;
    text.bytes(b"\n")
}

/// Nothing where the count is 0.
fn skipped_line(text: &mut Text, count: &(Name, u32)) -> Result<(), Memory>
    ensures { OnOk result (text.new ≡ text.old ++ skipped_line count.now) }
{
    if count.1 == 0 {
        return Ok(());
    }
    text.bytes(b"skipped-in ")?;
    count_line(text, count.0.bytes(), u128::from(count.1))
}

/// Nothing unless the net is to be routed and has a pin that isn't joined.
fn no_path_line(text: &mut Text, net: &Net, state: &NetState) -> Result<(), Memory>
    ensures { OnOk result (text.new ≡ text.old ++ no_path_line (net.now, state.now)) }
{
    if is_open(net, state) {
        return name_line(text, b"no-path", &net.name);
    }
    Ok(())
}

/// Nothing where the net has a guide or needs none.
fn unguided_line(text: &mut Text, net: &Net) -> Result<(), Memory>
    ensures { OnOk result (text.new ≡ text.old ++ unguided_line net.now) }
{
    if is_unguided(net) {
        return name_line(text, b"unguided-net", &net.name);
    }
    Ok(())
}

fn skipped_lines(text: &mut Text, counts: &[(Name, u32)]) -> Result<(), Memory>
    ensures { OnOk result (text.new ≡ text.old ++ flat_map skipped_line counts.now) }
{
    for count in counts {
        skipped_line(text, count)?;
    }
    Ok(())
}

fn no_path_lines(text: &mut Text, nets: &[Net], states: &[NetState]) -> Result<(), Memory>
    requires { length nets.now ≡ length states.now }
    ensures { OnOk result (text.new ≡ text.old ++ flat_map no_path_line (zip nets.now states.now)) }
{
    for (i, net) in nets.iter().enumerate() {
        no_path_line(text, net, &states[i])?;
    }
    Ok(())
}

fn unguided_lines(text: &mut Text, nets: &[Net]) -> Result<(), Memory>
    ensures { OnOk result (text.new ≡ text.old ++ flat_map unguided_line nets.now) }
{
    for net in nets {
        unguided_line(text, net)?;
    }
    Ok(())
}

fn joined_line(text: &mut Text, nets: &[Net], states: &[NetState]) -> Result<(), Memory>
    requires { length nets.now ≡ length states.now }
    ensures { OnOk result (text.new ≡ text.old ++ count_line (codes "joined") (count_by is_done (zip nets.now states.now))) }
{
    count_line(text, b"joined", done_count(nets, states) as u128)
}

fn stuck_line(text: &mut Text, nets: &[Net], states: &[NetState]) -> Result<(), Memory>
    requires { length nets.now ≡ length states.now }
    ensures { OnOk result (text.new ≡ text.old ++ count_line (codes "stuck") (count_by is_open (zip nets.now states.now))) }
{
    count_line(text, b"stuck", open_count(nets, states) as u128)
}

fn rips_line(text: &mut Text, blocks: &[Block]) -> Result<(), Memory>
    ensures { OnOk result (text.new ≡ text.old ++ count_line (codes "rips") (sum_by rips_of blocks.now)) }
{
    count_line(text, b"rips", rips(blocks))
}

fn wire_line(text: &mut Text, design: &Design, states: &[NetState]) -> Result<(), Memory>
    ensures { OnOk result (text.new ≡ text.old ++ count_line (codes "wire") (sum_by (net_wire design.now) (enumerate_from 0 states.now))) }
{
    count_line(text, b"wire", wire(design, states)?)
}

fn vias_line(text: &mut Text, states: &[NetState]) -> Result<(), Memory>
    ensures { OnOk result (text.new ≡ text.old ++ count_line (codes "vias") (sum_by net_vias states.now)) }
{
    count_line(text, b"vias", vias(states)?)
}

fn all_skipped_line(text: &mut Text, counts: &[(Name, u32)]) -> Result<(), Memory>
    ensures { OnOk result (text.new ≡ text.old ++ count_line (codes "skipped") (sum_by (λ c. c.1) counts.now)) }
{
    count_line(text, b"skipped", skipped(counts))
}

/// How many nets there are, and how many of them are joined or stuck.
fn route_counts(text: &mut Text, nets: &[Net], states: &[NetState]) -> Result<(), Memory>
    requires { length nets.now ≡ length states.now }
    ensures { OnOk result (text.new ≡ text.old ++ route_counts nets.now states.now) }
{
    count_line(text, b"nets", nets.len() as u128)?;
    joined_line(text, nets, states)?;
    stuck_line(text, nets, states)?;
    Ok(())
}

/// How many nets aren't to be routed, by their kinds.
fn other_counts(text: &mut Text, nets: &[Net]) -> Result<(), Memory>
    ensures { OnOk result (text.new ≡ text.old ++ other_counts nets.now) }
{
    count_line(text, b"unguided", unguided_count(nets) as u128)?;
    count_line(text, b"prewired", prewired_count(nets) as u128)?;
    count_line(text, b"single", single_count(nets) as u128)?;
    Ok(())
}

/// How many nets there are, in all and of each kind.
pub fn net_counts(text: &mut Text, design: &Design, state: &State) -> Result<(), Memory>
    requires { length design.now.nets ≡ length state.now.nets }
    ensures { OnOk result (text.new ≡ text.old ++ net_counts design.now state.now) }
{
    let nets = design.nets.as_slice();
    route_counts(text, nets, state.nets.as_slice())?;
    other_counts(text, nets)
}

/// Rips, wire, vias and skipped statements.
pub fn wire_counts(
    text: &mut Text,
    design: &Design,
    state: &State,
    blocks: &[Block],
) -> Result<(), Memory>
    ensures { OnOk result (text.new ≡ text.old ++ wire_counts design.now state.now blocks.now) }
{
    let states = state.nets.as_slice();
    rips_line(text, blocks)?;
    wire_line(text, design, states)?;
    vias_line(text, states)?;
    all_skipped_line(text, design.skipped.as_slice())?;
    Ok(())
}

/// What was skipped, which nets have no path and which have no guide.
pub fn name_lines(text: &mut Text, design: &Design, state: &State) -> Result<(), Memory>
    requires { length design.now.nets ≡ length state.now.nets }
    ensures { OnOk result (text.new ≡ text.old ++ name_lines design.now state.now) }
{
    let nets = design.nets.as_slice();
    skipped_lines(text, design.skipped.as_slice())?;
    no_path_lines(text, nets, state.nets.as_slice())?;
    unguided_lines(text, nets)
}
