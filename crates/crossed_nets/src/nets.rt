//! The nets that a walk crosses.
ghost use Rattle.std.specs.Prelude.{◌≡◌, ℕ, ◌↔◌, ◌<◌, All, AllPairs, IfOk};
ghost use Rattle.std.specs.List.{list_any};
ghost use Rattle.track_graph.specs.NetWalks.{IsNetWalk};
ghost use Rattle.plain_route.specs.Fitting.{IsFitting};
ghost use Rattle.plain_route.specs.Ground.{IsGround};
ghost use Rattle.crossed_nets.specs.Hits.{has, is_hit, AreCrossed};

use crate::near::push_crossed;
use plain_route::{Ground, Stock};
use rt_base::{Memory, Seq, Shape, Walk};
use std::alloc::Global;
use track_graph::walk_shapes;

/// The nets that these shapes cross, one or more times each.
fn hits<K: Stock>(alloc: Global, ground: &Ground<K>, shapes: &[Shape]) -> Result<Seq<u32>, Memory>
    requires ground { IsGround ground.now.design.now ground.now.net ground.now.own.now }
    requires shapes { All (IsFitting ground.now.design.now.tech ground.now.net) shapes.now }
    ensures { IfOk result (λ nets. (m : ℕ) → has nets m ≡ list_any (λ a. list_any (is_hit ground.now.design.now (K.rips_of ground.now.stock.now) ground.now.net m a) (K.shapes ground.now.stock.now)) shapes.now) }
{
    let mut nets = Seq::new(alloc);
    for shape in shapes {
        push_crossed(alloc, &mut nets, ground, shape)?;
    }
    Ok(nets)
}

/// Puts numbers in order, each once.
fn ascend(numbers: &mut Vec<u32>)
    ensures ascending { AllPairs (λ a b. a < b) numbers.new.items }
    ensures numbers { (m : ℕ) → has numbers.new.items m ≡ has numbers.old.items m }
{
    numbers.sort_unstable();
    numbers.dedup();
}

/// The nets that may be ripped for a net and whose standing shapes conflict with a walk of it,
/// ascending.
///
/// The stock is asked once for each shape of the walk, for the shapes that are nearer to it than the
/// layer's largest spacing. The only error is want of memory.
pub fn crossed<K: Stock>(alloc: Global, ground: &Ground<K>, walk: &Walk) -> Result<Seq<u32>, Memory>
    requires ground { IsGround ground.now.design.now ground.now.net ground.now.own.now }
    requires walk { IsNetWalk ground.now.design.now ground.now.net walk.now }
    ensures { IfOk result (AreCrossed ground.now.design.now (K.rips_of ground.now.stock.now) ground.now.net walk.now (K.shapes ground.now.stock.now)) }
{
    let shapes = walk_shapes(alloc, ground.design, ground.net, walk)?;
    let mut nets = hits(alloc, ground, shapes.as_slice())?.into_vec();
    ascend(&mut nets);
    Ok(Seq::from_vec(nets))
}
