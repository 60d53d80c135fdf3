//! The stops of a search: the entries at which a legal walk may start or finish, at their costs.
ghost use Rattle.std.specs.Prelude.{OnOk, IfOk};
ghost use Rattle.track_graph.specs.NetWalks.{IsNetEntry};
ghost use Rattle.plain_route.specs.Ground.{IsGround};
ghost use Rattle.plain_route.specs.Stocks.{stock_reading};
ghost use Rattle.plain_route.specs.Stops.{AreNetEntries, AddsStop, AreStops};

use crate::ground::Ground;
use crate::stock::Stock;
use least_walk::Stop;
use rt_base::{Entry, Memory, Seq};
use std::alloc::Global;

impl<'a, K: Stock> Ground<'a, K> {
    /// Adds the stop of an entry, if a legal walk may start or finish there.
    fn add_stop(&self, alloc: Global, stops: &mut Seq<Stop>, entry: &Entry) -> Result<(), Memory>
        requires ground { IsGround self.now.design.now self.now.net self.now.own.now }
        requires entry { IsNetEntry self.now.design.now self.now.net entry.now }
        ensures { OnOk result (AddsStop self.now.design.now self.now.net (stock_reading self.now.design.now (K.rips_of self.now.stock.now) self.now.net self.now.sense.now (K.shapes self.now.stock.now)) entry.now stops.old stops.new) }
    {
        let Some(cost) = self.entry_cost(alloc, entry)? else {
            return Ok(());
        };
        stops.push(Stop {
            entry: *entry,
            cost,
        })
    }

    /// The stops of those of these entries at which a legal walk may start or finish.
    pub(crate) fn stops(&self, alloc: Global, entries: &[Entry]) -> Result<Seq<Stop>, Memory>
        requires ground { IsGround self.now.design.now self.now.net self.now.own.now }
        requires entries { AreNetEntries self.now.design.now self.now.net entries.now }
        ensures { IfOk result (AreStops self.now.design.now self.now.net (stock_reading self.now.design.now (K.rips_of self.now.stock.now) self.now.net self.now.sense.now (K.shapes self.now.stock.now)) entries.now) }
    {
        let mut stops = Seq::new(alloc);
        for entry in entries {
            self.add_stop(alloc, &mut stops, entry)?;
        }
        Ok(stops)
    }
}
