//! Conflicts with the shapes of a store that count in a search.
ghost use Rattle.std.specs.Prelude.{◌≡◌, ◌^◌, ◌<◌, ◌≤ℤ◌, pos, length};
ghost use Rattle.std.specs.List.{list_any};
ghost use Rattle.rt_base.specs.Ranges.{AreSidesWithin};
ghost use Rattle.rt_base.specs.declared.tech.Owner.TheVariants.{Net as OfNet};
ghost use Rattle.rt_base.specs.Conflict.{conflict_of, largest_spacing};
ghost use Rattle.track_graph.specs.Designs.{IsTech};
ghost use Rattle.plain_route.specs.Ground.{IsGround};
ghost use Rattle.plain_route.specs.Roles.{clashes};
ghost use Rattle.plain_route.specs.Stocks.{stock_reading};
ghost use Rattle.plain_route.specs.Senses.{picked};

use crate::ground::Ground;
use crate::stock::Stock;
use rt_base::{LayerNo, Shape, Tech, conflict};
use shape_grid::ShapeTest;

/// The test for conflicts of a shape with those that are dear, or with those that forbid.
#[derive(Drop)]
struct Clash<'b, 'a, K> {
    ground: &'b Ground<'a, K>,
    shape: Shape,
    dear: bool,
}

impl<'b, 'a, K: Stock> ShapeTest for Clash<'b, 'a, K> {
    ghost verdict = { λ t b. clashes t.ground.now.design.now (K.rips_of t.ground.now.stock.now) t.ground.now.net t.ground.now.sense.now t.dear t.shape b };

    fn passes(&self, shape: &Shape) -> bool {
        let tech = &self.ground.design.tech;
        if self.shape.layer.0 as usize >= tech.layers.len() {
            return false;
        }
        conflict(tech, &self.shape, shape) && self.ground.counts(self.dear, shape)
    }
}

/// How far a shape of a layer has to stay away from others.
fn reach(tech: &Tech, layer: LayerNo) -> i64
    requires tech { IsTech tech.now }
    requires layer { layer.0 < length tech.now.layers }
    ensures value { result ≡ pos (largest_spacing tech.now layer) }
    ensures small { result ≤ℤ pos (2 ^ 32) }
{
    tech.largest_spacing(layer) as i64
}

impl<'a, K: Stock> Ground<'a, K> {
    /// Whether a shape of the net conflicts with a dear one, or with one that forbids.
    pub(crate) fn meets(&self, shape: &Shape, dear: bool) -> bool
        requires ground { IsGround self.now.design.now self.now.net self.now.own.now }
        requires layer { shape.now.layer.0 < length self.now.design.now.tech.layers }
        requires sides { AreSidesWithin (2 ^ 61) shape.now.rect }
        requires own { shape.now.owner ≡ OfNet self.now.net }
        ensures { result ≡ list_any (conflict_of self.now.design.now.tech shape.now) (picked dear (stock_reading self.now.design.now (K.rips_of self.now.stock.now) self.now.net self.now.sense.now (K.shapes self.now.stock.now))) }
    {
        let reach = reach(&self.design.tech, shape.layer);
        let clash = Clash {
            ground: self,
            shape: *shape,
            dear,
        };
        self.stock
            .any_near(shape.layer, &shape.rect.grown(reach), &clash)
    }
}
