//! What a search of a net looks at.
ghost use Rattle.std.specs.Prelude.{◌≡◌, ◌==◌};
ghost use Rattle.std.specs.List.{list_any};
ghost use Rattle.plain_route.specs.Roles.{is_rippable, is_dear_net, is_absent_net, is_dear, is_forbidding, counts};

use crate::sense::Sense;
use crate::stock::Stock;
use rt_base::{Owner, Shape};
use track_graph::{Design, NetState};

/// A design, the number of the net that is searched for, what stands of this net, the shapes that
/// stand, and what those of other nets are taken for.
#[derive(Drop)]
pub struct Ground<'a, K> {
    pub design: &'a Design,
    pub net: u32,
    pub own: &'a NetState,
    pub stock: &'a K,
    pub sense: &'a Sense,
}

/// Whether a number is among these.
fn is_among(nets: &[u32], net: u32) -> bool
    ensures { result ≡ list_any (λ k. k == net) nets.now }
{
    nets.iter().any(|k| *k == net)
}

impl<'a, K: Stock> Ground<'a, K> {
    /// Whether a net may be ripped for this one. Takes no memory.
    pub fn may_rip(&self, net: u32) -> bool
        ensures { result ≡ is_rippable self.now.design.now (K.rips_of self.now.stock.now) self.now.net net }
    {
        net != self.net && self.stock.rips(net) < self.design.options.rips
    }

    /// Whether the wires of a net are dear.
    fn is_dear_net(&self, net: u32) -> bool
        ensures { result ≡ is_dear_net self.now.design.now (K.rips_of self.now.stock.now) self.now.net self.now.sense.now net }
    {
        match self.sense {
            Sense::Soft => self.may_rip(net),
            _ => false,
        }
    }

    /// Whether the wires of a net are absent.
    fn is_absent_net(&self, net: u32) -> bool
        ensures { result ≡ is_absent_net self.now.sense.now net }
    {
        match self.sense {
            Sense::Without(nets) => is_among(nets.as_slice(), net),
            _ => false,
        }
    }

    /// Whether a shape is dear.
    fn is_dear(&self, shape: &Shape) -> bool
        ensures { result ≡ is_dear self.now.design.now (K.rips_of self.now.stock.now) self.now.net self.now.sense.now shape.now }
    {
        match shape.owner {
            Owner::Net(net) => !shape.fixed && self.is_dear_net(net),
            Owner::Nobody => false,
        }
    }

    /// Whether a shape of another owner forbids.
    fn is_forbidding(&self, shape: &Shape) -> bool
        ensures { result ≡ is_forbidding self.now.design.now (K.rips_of self.now.stock.now) self.now.net self.now.sense.now shape.now }
    {
        match shape.owner {
            Owner::Net(net) => {
                shape.fixed || !(self.is_dear_net(net) || self.is_absent_net(net))
            }
            Owner::Nobody => true,
        }
    }

    /// Whether a shape counts: where it is dear, or where it forbids.
    pub(crate) fn counts(&self, dear: bool, shape: &Shape) -> bool
        ensures { result ≡ counts self.now.design.now (K.rips_of self.now.stock.now) self.now.net self.now.sense.now dear shape.now }
    {
        if dear {
            self.is_dear(shape)
        } else {
            self.is_forbidding(shape)
        }
    }
}
