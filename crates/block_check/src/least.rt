//! Whether a walk is least, and whether there is none.
ghost use Rattle.std.specs.Prelude.{◌↔◌, IsTrue, IfOk};
ghost use Rattle.track_graph.specs.Searches.{IsLeast, NoneLegal};
ghost use Rattle.plain_route.specs.Ground.{IsGround};
ghost use Rattle.plain_route.specs.Stocks.{stock_reading};

use crate::cost::legal_cost;
use least_walk::Tables;
use plain_route::{Ground, Stock, search};
use rt_base::{Memory, Walk};
use std::alloc::Global;

/// Whether a walk is one of least cost in a search.
pub(crate) fn is_least<K: Stock>(
    alloc: Global,
    ground: &Ground<K>,
    walk: &Walk,
    tables: &mut Tables,
) -> Result<bool, Memory>
    requires ground { IsGround ground.now.design.now ground.now.net ground.now.own.now }
    ensures { IfOk result (λ b. IsTrue b ↔ IsLeast ground.now.design.now ground.now.net ground.now.own.now (stock_reading ground.now.design.now (K.rips_of ground.now.stock.now) ground.now.net ground.now.sense.now (K.shapes ground.now.stock.now)) walk.now) }
{
    let Some(cost) = legal_cost(alloc, ground, walk)? else {
        return Ok(false);
    };
    let Some(best) = search(alloc, ground, tables)? else {
        return Ok(false);
    };
    let Some(least) = legal_cost(alloc, ground, &best)? else {
        return Ok(false);
    };
    Ok(cost <= least)
}

/// Whether no walk is legal in a search.
pub(crate) fn has_none<K: Stock>(
    alloc: Global,
    ground: &Ground<K>,
    tables: &mut Tables,
) -> Result<bool, Memory>
    requires ground { IsGround ground.now.design.now ground.now.net ground.now.own.now }
    ensures { IfOk result (λ b. IsTrue b ↔ NoneLegal ground.now.design.now ground.now.net ground.now.own.now (stock_reading ground.now.design.now (K.rips_of ground.now.stock.now) ground.now.net ground.now.sense.now (K.shapes ground.now.stock.now))) }
{
    match search(alloc, ground, tables)? {
        Some(_) => Ok(false),
        None => Ok(true),
    }
}
