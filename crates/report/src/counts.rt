//! How many nets are of which kind, and how many are joined.
ghost use Rattle.std.specs.Prelude.{◌≡◌, ◌+◌, count_by, length, IfOk, sum_by};
ghost use Rattle.std.specs.List.{zip};
ghost use Rattle.report.specs.Lines.{is_routable, is_prewired, is_unguided, is_single, is_done, is_open, rips_of};

use rt_base::{Memory, Name};
use track_graph::{Block, Net, NetKind, NetState};

/// The sum, or want of memory where it doesn't fit.
pub fn sum(a: u128, b: u128) -> Result<u128, Memory>
    ensures { IfOk result (λ s. s ≡ a + b) }
{
    match a.checked_add(b) {
        Some(sum) => Ok(sum),
        None => Err(Memory),
    }
}

/// Whether a net is to be routed and all its pins are joined.
pub fn is_done(net: &Net, state: &NetState) -> bool
    ensures { result ≡ is_done (net.now, state.now) }
{
    match net.kind {
        NetKind::Routable => state.all_joined(),
        _ => false,
    }
}

/// Whether a net is to be routed and a pin of it isn't joined.
pub fn is_open(net: &Net, state: &NetState) -> bool
    ensures { result ≡ is_open (net.now, state.now) }
{
    match net.kind {
        NetKind::Routable => !state.all_joined(),
        _ => false,
    }
}

/// Whether a net has no guide.
pub fn is_unguided(net: &Net) -> bool
    ensures { result ≡ is_unguided net.now.kind }
{
    matches!(net.kind, NetKind::Unguided)
}

fn is_prewired(net: &Net) -> bool
    ensures { result ≡ is_prewired net.now.kind }
{
    matches!(net.kind, NetKind::Prewired)
}

fn is_single(net: &Net) -> bool
    ensures { result ≡ is_single net.now.kind }
{
    matches!(net.kind, NetKind::Single)
}

pub fn unguided_count(nets: &[Net]) -> usize
    ensures { result ≡ count_by (λ net. is_unguided net.kind) nets.now }
{
    let mut count = 0;
    for net in nets {
        if is_unguided(net) {
            count += 1;
        }
    }
    count
}

pub fn prewired_count(nets: &[Net]) -> usize
    ensures { result ≡ count_by (λ net. is_prewired net.kind) nets.now }
{
    let mut count = 0;
    for net in nets {
        if is_prewired(net) {
            count += 1;
        }
    }
    count
}

pub fn single_count(nets: &[Net]) -> usize
    ensures { result ≡ count_by (λ net. is_single net.kind) nets.now }
{
    let mut count = 0;
    for net in nets {
        if is_single(net) {
            count += 1;
        }
    }
    count
}

pub fn done_count(nets: &[Net], states: &[NetState]) -> usize
    requires { length nets.now ≡ length states.now }
    ensures { result ≡ count_by is_done (zip nets.now states.now) }
{
    let mut count = 0;
    for (i, net) in nets.iter().enumerate() {
        if is_done(net, &states[i]) {
            count += 1;
        }
    }
    count
}

pub fn open_count(nets: &[Net], states: &[NetState]) -> usize
    requires { length nets.now ≡ length states.now }
    ensures { result ≡ count_by is_open (zip nets.now states.now) }
{
    let mut count = 0;
    for (i, net) in nets.iter().enumerate() {
        if is_open(net, &states[i]) {
            count += 1;
        }
    }
    count
}

fn block_rips(block: &Block) -> u64
    ensures { result ≡ rips_of block.now }
{
    match block {
        Block::Wire { .. } => 0,
        Block::Stuck { .. } => 0,
        Block::RipFor { ripped, .. } => ripped.len() as u64,
    }
}

/// How many nets the blocks rip.
pub fn rips(blocks: &[Block]) -> u128
    ensures { result ≡ sum_by rips_of blocks.now }
{
    let mut total = 0;
    for block in blocks {
        total += u128::from(block_rips(block));
    }
    total
}

/// How many statements were skipped.
pub fn skipped(counts: &[(Name, u32)]) -> u128
    ensures { result ≡ sum_by (λ c. c.1) counts.now }
{
    let mut total = 0;
    for count in counts {
        total += u128::from(count.1);
    }
    total
}
