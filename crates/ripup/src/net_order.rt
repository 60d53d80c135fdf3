//! The order in which nets are taken.
ghost use Rattle.std.specs.Prelude.{◌≡◌, ◌<◌, ◌^◌, length, map, All, IfOk};
ghost use Rattle.track_graph.specs.Conditions.{IsNetOf};
ghost use Rattle.track_graph.specs.Orders.{IsOrder};
ghost use Rattle.ripup.specs.Hulls.{rank_of, AreRanked, IsLastFirst};

use crate::extent::extent;
use rt_base::Memory;
use std::alloc::Global;
use track_graph::{Design, NetKind};

/// The numbers of the routable nets, each behind its extent, in the order of their numbers.
fn ranked_nets(alloc: Global, design: &Design) -> Result<Vec<(u128, u32)>, Memory>
    requires { length design.now.nets < 2 ^ 32 }
    ensures { IfOk result (λ ranks. AreRanked design.now (length design.now.nets) ranks.items) }
{
    let mut ranks = Vec::new(alloc);
    for (number, net) in design.nets.as_slice().iter().enumerate() {
        if net.kind == NetKind::Routable {
            ranks.push((extent(net), number as u32))?;
        }
    }
    Ok(ranks)
}

/// The numbers of these nets, each behind its extent.
fn ranks_of(alloc: Global, design: &Design, nets: &[u32]) -> Result<Vec<(u128, u32)>, Memory>
    requires { All (IsNetOf design.now) nets.now }
    ensures { IfOk result (λ ranks. ranks.items ≡ map (rank_of design.now) nets.now) }
{
    let of_design = design.nets.as_slice();
    let mut ranks = Vec::new(alloc);
    for net in nets {
        ranks.push((extent(&of_design[*net as usize]), *net))?;
    }
    Ok(ranks)
}

/// The numbers of these nets.
fn numbers(alloc: Global, ranks: &[(u128, u32)]) -> Result<Vec<u32>, Memory>
    ensures { IfOk result (λ nets. nets.items ≡ map (λ rank. rank.1) ranks.now) }
{
    Ok(ranks.iter().map(|rank| rank.1).collect(alloc)?)
}

/// These nets in the order in which nets are taken, the first one last.
pub(crate) fn last_first(alloc: Global, design: &Design, nets: &[u32]) -> Result<Vec<u32>, Memory>
    requires { All (IsNetOf design.now) nets.now }
    ensures { IfOk result (λ sorted. IsLastFirst design.now nets.now sorted.items) }
{
    let mut ranks = ranks_of(alloc, design, nets)?;
    ranks.sort_unstable();
    ranks.reverse();
    numbers(alloc, &ranks)
}

/// The routable nets in the order in which they are taken: ascending by half the perimeter of the
/// hull of the rectangles of their pins, which is 0 where there is none, and then by number.
pub fn order(alloc: Global, design: &Design) -> Result<Vec<u32>, Memory>
    requires { length design.now.nets < 2 ^ 32 }
    ensures { IfOk result (λ nets. IsOrder design.now nets.items) }
{
    let mut ranks = ranked_nets(alloc, design)?;
    ranks.sort_unstable();
    numbers(alloc, &ranks)
}
