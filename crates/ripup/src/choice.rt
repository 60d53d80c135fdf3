//! What comes next for a net.
ghost use Rattle.std.specs.Prelude.{◌≡◌, false, filter, not, IfOk, IfSome, IfNone};
ghost use Rattle.crossed_nets.specs.Hits.{AreCrossed};
ghost use Rattle.plain_route.specs.Ground.{IsGround};
ghost use Rattle.plain_route.specs.Stocks.{stock_reading};
ghost use Rattle.plain_route.specs.declared.sense.Sense.TheVariants.{Hard, Soft as AsSoft};
ghost use Rattle.ripup.specs.Choices.{is_held, IsChoice, Shows};
ghost use Rattle.track_graph.specs.Histories.{all_joined};
ghost use Rattle.track_graph.specs.Searches.{IsLeast, NoneLegal};
ghost use Rattle.track_graph.specs.declared.history.State.{State as StateOf};

use crossed_nets::crossed;
use least_walk::Tables;
use plain_route::{Ground, Sense, Stock, search};
use rt_base::{Memory, Seq, Walk};
use std::alloc::Global;
use track_graph::{Design, NetState};

/// What a net gets next.
#[derive(Debug, Drop)]
pub enum Choice {
    /// A walk of least cost.
    Wire {
        walk: Walk,
    },
    /// No walk is legal, and a least soft walk crosses these nets beside those that are held: at
    /// least one, ascending.
    Widen {
        nets: Seq<u32>,
    },
    /// No walk is legal. The ripped nets, ascending, are exactly those that `soft`, a least soft walk,
    /// crosses, and `walk` is one of least cost without them.
    RipFor {
        soft: Walk,
        ripped: Seq<u32>,
        walk: Walk,
    },
    /// There is neither a legal walk nor a soft one.
    Stuck,
}

/// The nets that may be ripped: all, or these.
#[derive(Drop)]
pub(crate) enum Held<'a> {
    All,
    These(&'a [u32]),
}

impl<'a> Held<'a> {
    /// Whether a net is among them.
    fn has(&self, net: u32) -> bool
        ensures { result ≡ is_held self.now net }
    {
        match self {
            Held::All => true,
            Held::These(nets) => nets.contains(&net),
        }
    }

    /// Those of these nets that aren't among them.
    fn outside(&self, alloc: Global, nets: &[u32]) -> Result<Seq<u32>, Memory>
        ensures { IfOk result (λ outside. outside ≡ filter (λ m. not (is_held self.now m)) nets.now) }
    {
        let mut outside = Seq::new(alloc);
        for net in nets {
            if !self.has(*net) {
                outside.push(*net)?;
            }
        }
        Ok(outside)
    }
}

/// A net that is to be routed, what stands of it, and the shapes that stand.
#[derive(Drop)]
pub(crate) struct Ask<'a, K> {
    pub design: &'a Design,
    pub net: u32,
    pub own: &'a NetState,
    pub stock: &'a K,
}

impl<'a, K: Stock> Ask<'a, K> {
    /// A least walk of the net in a sense, or none where no walk is legal in it.
    fn walk(
        &self,
        alloc: Global,
        sense: &Sense,
        tables: &mut Tables,
    ) -> Result<Option<Walk>, Memory>
        requires { IsGround self.now.design.now self.now.net self.now.own.now }
        ensures least { IfOk result (λ w. IfSome w (IsLeast self.now.design.now self.now.net self.now.own.now (stock_reading self.now.design.now (K.rips_of self.now.stock.now) self.now.net sense.now (K.shapes self.now.stock.now)))) }
        ensures none { IfOk result (λ w. IfNone w (NoneLegal self.now.design.now self.now.net self.now.own.now (stock_reading self.now.design.now (K.rips_of self.now.stock.now) self.now.net sense.now (K.shapes self.now.stock.now)))) }
    {
        let ground = Ground {
            design: self.design,
            net: self.net,
            own: self.own,
            stock: self.stock,
            sense,
        };
        search(alloc, &ground, tables)
    }

    /// A least soft walk of the net, which has no legal one, or none. Where no net may be ripped there
    /// is none.
    fn soft_walk(&self, alloc: Global, tables: &mut Tables) -> Result<Option<Walk>, Memory>
        requires ground { IsGround self.now.design.now self.now.net self.now.own.now }
        requires none { NoneLegal self.now.design.now self.now.net self.now.own.now (stock_reading self.now.design.now (K.rips_of self.now.stock.now) self.now.net Hard (K.shapes self.now.stock.now)) }
        ensures least { IfOk result (λ w. IfSome w (IsLeast self.now.design.now self.now.net self.now.own.now (stock_reading self.now.design.now (K.rips_of self.now.stock.now) self.now.net AsSoft (K.shapes self.now.stock.now)))) }
        ensures none { IfOk result (λ w. IfNone w (NoneLegal self.now.design.now self.now.net self.now.own.now (stock_reading self.now.design.now (K.rips_of self.now.stock.now) self.now.net AsSoft (K.shapes self.now.stock.now)))) }
    {
        if self.design.options.rips == 0 {
            return Ok(None);
        }
        self.walk(alloc, &Sense::Soft, tables)
    }

    /// The nets that a soft walk of the net crosses.
    fn crossed(&self, alloc: Global, soft: &Walk) -> Result<Seq<u32>, Memory>
        requires ground { IsGround self.now.design.now self.now.net self.now.own.now }
        requires soft { IsLeast self.now.design.now self.now.net self.now.own.now (stock_reading self.now.design.now (K.rips_of self.now.stock.now) self.now.net AsSoft (K.shapes self.now.stock.now)) soft.now }
        ensures { IfOk result (AreCrossed self.now.design.now (K.rips_of self.now.stock.now) self.now.net soft.now (K.shapes self.now.stock.now)) }
    {
        let ground = Ground {
            design: self.design,
            net: self.net,
            own: self.own,
            stock: self.stock,
            sense: &Sense::Soft,
        };
        crossed(alloc, &ground, soft)
    }

    /// The nets that a soft walk of the net crosses are ripped, if they are held, and the net gets a
    /// least walk without them.
    fn rip_for(
        &self,
        alloc: Global,
        held: &Held,
        soft: Walk,
        tables: &mut Tables,
    ) -> Result<Choice, Memory>
        requires ground { IsGround self.now.design.now self.now.net self.now.own.now }
        requires not_stuck { self.now.own.now.stuck ≡ false }
        requires unjoined { all_joined self.now.own.now ≡ false }
        requires none { NoneLegal self.now.design.now self.now.net self.now.own.now (stock_reading self.now.design.now (K.rips_of self.now.stock.now) self.now.net Hard (K.shapes self.now.stock.now)) }
        requires soft { IsLeast self.now.design.now self.now.net self.now.own.now (stock_reading self.now.design.now (K.rips_of self.now.stock.now) self.now.net AsSoft (K.shapes self.now.stock.now)) soft }
        requires some { (s : StateOf) × Shows self.now.design.now self.now.net self.now.own.now (K.shapes self.now.stock.now) (K.rips_of self.now.stock.now) s }
        ensures { (s : StateOf) → Shows self.now.design.now self.now.net self.now.own.now (K.shapes self.now.stock.now) (K.rips_of self.now.stock.now) s → IfOk result (IsChoice self.now.design.now s (is_held held.now) self.now.net) }
    {
        let ripped = self.crossed(alloc, &soft)?;
        let nets = held.outside(alloc, ripped.as_slice())?;
        if !nets.is_empty() {
            return Ok(Choice::Widen { nets });
        }
        let sense = Sense::Without(ripped);
        let walk = self.walk(alloc, &sense, tables)?;
        let Some(walk) = walk else { unreachable!() };
        match sense {
            Sense::Without(ripped) => Ok(Choice::RipFor { soft, ripped, walk }),
            _ => unreachable!(),
        }
    }

    /// What comes next for the net: a least wire; where no walk is legal, a least wire for which exactly
    /// the nets are ripped that a least soft walk crosses, or, where some of them aren't held, these;
    /// where there is no soft walk either, the mark.
    pub fn choose(&self, alloc: Global, held: &Held, tables: &mut Tables) -> Result<Choice, Memory>
        requires ground { IsGround self.now.design.now self.now.net self.now.own.now }
        requires not_stuck { self.now.own.now.stuck ≡ false }
        requires unjoined { all_joined self.now.own.now ≡ false }
        requires some { (s : StateOf) × Shows self.now.design.now self.now.net self.now.own.now (K.shapes self.now.stock.now) (K.rips_of self.now.stock.now) s }
        ensures { (s : StateOf) → Shows self.now.design.now self.now.net self.now.own.now (K.shapes self.now.stock.now) (K.rips_of self.now.stock.now) s → IfOk result (IsChoice self.now.design.now s (is_held held.now) self.now.net) }
    {
        if let Some(walk) = self.walk(alloc, &Sense::Hard, tables)? {
            return Ok(Choice::Wire { walk });
        }
        match self.soft_walk(alloc, tables)? {
            Some(soft) => self.rip_for(alloc, held, soft, tables),
            None => Ok(Choice::Stuck),
        }
    }
}
