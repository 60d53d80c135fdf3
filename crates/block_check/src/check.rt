//! What a block of a net is checked for.
ghost use Rattle.std.specs.Prelude.{◌≡◌, ◌↔◌, IsTrue, IfOk};
ghost use Rattle.plain_route.specs.Senses.{reading_of};
ghost use Rattle.track_graph.specs.NetWalks.{IsNetWalk};
ghost use Rattle.track_graph.specs.Readings.{hard_reading, soft_reading};
ghost use Rattle.track_graph.specs.Searches.{IsLeast, NoneLegal};
ghost use Rattle.track_graph.specs.States.{net_state};
ghost use Rattle.block_check.specs.Check.{CanCheck, IsRipped, MustRip};

use crate::least::{has_none, is_least};
use crossed_nets::crossed;
use least_walk::Tables;
use plain_route::{Ground, Sense, Standing};
use rt_base::{Memory, Seq, Walk};
use shape_grid::ShapeStore;
use std::alloc::Global;
use track_graph::Design;

/// Whether these are the same numbers in the same order.
fn are_same(a: &[u32], b: &[u32]) -> bool
    ensures { IsTrue result ↔ (a.now ≡ b.now) }
{
    a == b
}

/// A design, a state with a store of its shapes, and the number of the net that a block is of.
#[derive(Drop)]
pub(crate) struct Check<'a, S> {
    pub design: &'a Design,
    pub standing: Standing<'a, S>,
    pub net: u32,
}

impl<'a, S: ShapeStore> Check<'a, S> {
    /// Whether a walk is least with the wires of the other nets taken in this sense.
    pub fn is_least(
        &self,
        alloc: Global,
        sense: &Sense,
        walk: &Walk,
        tables: &mut Tables,
    ) -> Result<bool, Memory>
        requires { CanCheck self.now.design.now self.now.standing.state.now self.now.net (S.shapes self.now.standing.store.now) }
        ensures { IfOk result (λ b. IsTrue b ↔ IsLeast self.now.design.now self.now.net (net_state self.now.standing.state.now self.now.net) (reading_of self.now.design.now self.now.standing.state.now self.now.net sense.now) walk.now) }
    {
        let ground = Ground {
            design: self.design,
            net: self.net,
            own: self.standing.of_net(self.net),
            stock: &self.standing,
            sense,
        };
        is_least(alloc, &ground, walk, tables)
    }

    /// Whether no walk is legal with the wires of the other nets taken in this sense.
    fn has_none(&self, alloc: Global, sense: &Sense, tables: &mut Tables) -> Result<bool, Memory>
        requires { CanCheck self.now.design.now self.now.standing.state.now self.now.net (S.shapes self.now.standing.store.now) }
        ensures { IfOk result (λ b. IsTrue b ↔ NoneLegal self.now.design.now self.now.net (net_state self.now.standing.state.now self.now.net) (reading_of self.now.design.now self.now.standing.state.now self.now.net sense.now)) }
    {
        let ground = Ground {
            design: self.design,
            net: self.net,
            own: self.standing.of_net(self.net),
            stock: &self.standing,
            sense,
        };
        has_none(alloc, &ground, tables)
    }

    /// Whether these are exactly the nets that a walk crosses, and there is one.
    fn is_ripped(&self, alloc: Global, soft: &Walk, ripped: &Seq<u32>) -> Result<bool, Memory>
        requires check { CanCheck self.now.design.now self.now.standing.state.now self.now.net (S.shapes self.now.standing.store.now) }
        requires walk { IsNetWalk self.now.design.now self.now.net soft.now }
        ensures { IfOk result (λ b. IsTrue b ↔ IsRipped self.now.design.now self.now.standing.state.now self.now.net soft.now ripped.now) }
    {
        if ripped.is_empty() {
            return Ok(false);
        }
        let ground = Ground {
            design: self.design,
            net: self.net,
            own: self.standing.of_net(self.net),
            stock: &self.standing,
            sense: &Sense::Soft,
        };
        let nets = crossed(alloc, &ground, soft)?;
        Ok(are_same(ripped.as_slice(), nets.as_slice()))
    }

    /// Whether no walk is legal, nor a soft one.
    pub fn is_stuck(&self, alloc: Global, tables: &mut Tables) -> Result<bool, Memory>
        requires { CanCheck self.now.design.now self.now.standing.state.now self.now.net (S.shapes self.now.standing.store.now) }
        ensures { IfOk result (λ b. IsTrue b ↔ (NoneLegal self.now.design.now self.now.net (net_state self.now.standing.state.now self.now.net) (hard_reading self.now.design.now self.now.standing.state.now) × NoneLegal self.now.design.now self.now.net (net_state self.now.standing.state.now self.now.net) (soft_reading self.now.design.now self.now.standing.state.now self.now.net))) }
    {
        if !self.has_none(alloc, &Sense::Hard, tables)? {
            return Ok(false);
        }
        self.has_none(alloc, &Sense::Soft, tables)
    }

    /// Whether no walk is legal, and these are exactly the nets that a least soft walk crosses, of
    /// which there is one.
    pub fn must_rip(
        &self,
        alloc: Global,
        soft: &Walk,
        ripped: &Seq<u32>,
        tables: &mut Tables,
    ) -> Result<bool, Memory>
        requires { CanCheck self.now.design.now self.now.standing.state.now self.now.net (S.shapes self.now.standing.store.now) }
        ensures { IfOk result (λ b. IsTrue b ↔ MustRip self.now.design.now self.now.standing.state.now self.now.net soft.now ripped.now) }
    {
        if !self.has_none(alloc, &Sense::Hard, tables)? {
            return Ok(false);
        }
        if !self.is_least(alloc, &Sense::Soft, soft, tables)? {
            return Ok(false);
        }
        self.is_ripped(alloc, soft, ripped)
    }
}
