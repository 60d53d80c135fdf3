//! Routing a design, and the texts that come of it.
ghost use Rattle.std.specs.Prelude.{◌≡◌, ◌||◌, IfOk, length, slice_get, Some};
ghost use Rattle.std.specs.List.{list_any, zip};
ghost use Rattle.track_graph.specs.States.{state_of};
ghost use Rattle.report.specs.Lines.{is_open, is_unguided};
ghost use Rattle.router.specs.Runs.{has_unrouted, routed_status};
ghost use Rattle.router.specs.Made.{IsReady, AreOutputs};

use def_out::write_def;
use journal_text::print;
use report::report_of_state;
use ripup::finish;
use rt_base::{Memory, Seq};
use std::alloc::Global;
use track_graph::{Design, Journal, Net, NetKind, NetState, State, fold};

/// The journal of a routed design, and what is written of it.
#[derive(Debug, Drop)]
pub(crate) struct Outputs {
    pub journal: Journal,
    pub routed: Seq<u8>,
    pub lines: Seq<u8>,
    pub report: Seq<u8>,
    pub status: u8,
}

/// Whether a net is to be routed and has a pin that isn't joined.
fn is_open(net: &Net, state: &NetState) -> bool
    ensures { result ≡ is_open (net.now, state.now) }
{
    match net.kind {
        NetKind::Routable => !state.all_joined(),
        _ => false,
    }
}

fn has_open(nets: &[Net], states: &[NetState]) -> bool
    ensures { result ≡ list_any is_open (zip nets.now states.now) }
{
    nets.iter()
        .zip(states)
        .any(|(net, state)| is_open(net, state))
}

fn is_unguided(net: &Net) -> bool
    ensures { result ≡ is_unguided net.now.kind }
{
    matches!(net.kind, NetKind::Unguided)
}

fn has_unguided(nets: &[Net]) -> bool
    ensures { result ≡ list_any (λ net. is_unguided net.kind) nets.now }
{
    nets.iter().any(is_unguided)
}

/// 1 where a net is stuck or has no guide, else 0.
fn routed_status(design: &Design, state: &State) -> u8
    ensures { result ≡ routed_status design.now state.now }
{
    if has_open(design.nets.as_slice(), state.nets.as_slice())
        || has_unguided(design.nets.as_slice())
    {
        1
    } else {
        0
    }
}

/// Routes a design that was read from this DEF text, and makes the routed DEF, the journal's text and
/// the report.
pub(crate) fn make_outputs(alloc: Global, text: &[u8], design: &Design) -> Result<Outputs, Memory>
    requires { IsReady text.now design.now }
    ensures { IfOk result (AreOutputs text.now design.now) }
{
    let journal = finish(alloc, design, Journal::new(alloc))?;
    let state = fold(alloc, design, journal.blocks())?;
    let routed = write_def(alloc, text, design, &state)?;
    let lines = print(alloc, design, &journal)?;
    let report = report_of_state(alloc, design, &state, journal.blocks())?;
    Ok(Outputs {
        status: routed_status(design, &state),
        journal,
        routed: Seq::from_vec(routed),
        lines: Seq::from_vec(lines),
        report: Seq::from_vec(report),
    })
}
