//! Standing wires near a shape of a walk.
ghost use Rattle.std.specs.Prelude.{◌≡◌, ℕ, ◌^◌, ◌<◌, ◌≤ℤ◌, ◌&&◌, ◌||◌, not, pos, length, OnOk};
ghost use Rattle.std.specs.List.{list_any};
ghost use Rattle.rt_base.specs.Ranges.{AreSidesWithin};
ghost use Rattle.rt_base.specs.Conflict.{conflict_of, largest_spacing};
ghost use Rattle.track_graph.specs.Designs.{IsTech};
ghost use Rattle.plain_route.specs.Ground.{IsGround};
ghost use Rattle.plain_route.specs.Roles.{is_rippable};
ghost use Rattle.crossed_nets.specs.Hits.{has, is_hit};

use plain_route::{Ground, Stock};
use rt_base::{LayerNo, Memory, Owner, Seq, Shape, Tech, conflict};
use std::alloc::Global;

/// How far a shape of a layer has to stay away from others.
fn reach(tech: &Tech, layer: LayerNo) -> i64
    requires tech { IsTech tech.now }
    requires layer { layer.0 < length tech.now.layers }
    ensures value { result ≡ pos (largest_spacing tech.now layer) }
    ensures small { result ≤ℤ pos (2 ^ 32) }
{
    tech.largest_spacing(layer) as i64
}

/// Whether a shape of the walk conflicts with a wire of another net, and this net may be ripped.
fn is_crossed<K: Stock>(ground: &Ground<K>, mine: &Shape, near: &Shape, other: u32) -> bool
    requires { mine.now.layer.0 < length ground.now.design.now.tech.layers }
    ensures { result ≡ (conflict_of ground.now.design.now.tech mine.now near.now && not near.now.fixed && is_rippable ground.now.design.now (K.rips_of ground.now.stock.now) ground.now.net other) }
{
    conflict(&ground.design.tech, mine, near) && !near.fixed && ground.may_rip(other)
}

/// Adds the net of a shape, where it is crossed.
fn push_owner<K: Stock>(
    nets: &mut Seq<u32>,
    ground: &Ground<K>,
    mine: &Shape,
    near: &Shape,
) -> Result<(), Memory>
    requires { mine.now.layer.0 < length ground.now.design.now.tech.layers }
    ensures { OnOk result ((m : ℕ) → has nets.new m ≡ (has nets.old m || is_hit ground.now.design.now (K.rips_of ground.now.stock.now) ground.now.net m mine.now near.now)) }
{
    let Owner::Net(other) = near.owner else {
        return Ok(());
    };
    if !is_crossed(ground, mine, near, other) {
        return Ok(());
    }
    nets.push(other)
}

/// Adds the nets of these shapes, where they are crossed.
fn push_owners<K: Stock>(
    nets: &mut Seq<u32>,
    ground: &Ground<K>,
    mine: &Shape,
    near: &[Shape],
) -> Result<(), Memory>
    requires { mine.now.layer.0 < length ground.now.design.now.tech.layers }
    ensures { OnOk result ((m : ℕ) → has nets.new m ≡ (has nets.old m || list_any (is_hit ground.now.design.now (K.rips_of ground.now.stock.now) ground.now.net m mine.now) near.now)) }
{
    for shape in near {
        push_owner(nets, ground, mine, shape)?;
    }
    Ok(())
}

/// Adds the nets that a shape of a walk crosses, one or more times each.
pub(crate) fn push_crossed<K: Stock>(
    alloc: Global,
    nets: &mut Seq<u32>,
    ground: &Ground<K>,
    mine: &Shape,
) -> Result<(), Memory>
    requires ground { IsGround ground.now.design.now ground.now.net ground.now.own.now }
    requires layer { mine.now.layer.0 < length ground.now.design.now.tech.layers }
    requires sides { AreSidesWithin (2 ^ 61) mine.now.rect }
    ensures { OnOk result ((m : ℕ) → has nets.new m ≡ (has nets.old m || list_any (is_hit ground.now.design.now (K.rips_of ground.now.stock.now) ground.now.net m mine.now) (K.shapes ground.now.stock.now))) }
{
    let reach = reach(&ground.design.tech, mine.layer);
    let near = ground
        .stock
        .near(alloc, mine.layer, &mine.rect.grown(reach))?;
    push_owners(nets, ground, mine, &near)
}
