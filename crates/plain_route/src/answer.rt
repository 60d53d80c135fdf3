//! The answer of a search.
ghost use Rattle.std.specs.Prelude.{IfOk, IfSome, IfNone};
ghost use Rattle.track_graph.specs.Searches.{IsLeast, NoneLegal};
ghost use Rattle.plain_route.specs.Ground.{IsGround};
ghost use Rattle.plain_route.specs.Stocks.{stock_reading};

use crate::bounds::bounds_to;
use crate::entries::{finishes, starts};
use crate::ground::Ground;
use crate::guided::Guided;
use crate::stock::Stock;
use least_walk::{Tables, least_walk};
use rt_base::{Memory, Walk};
use std::alloc::Global;

/// A legal walk of least cost of a net, or `None` where no walk of the net is legal. A walk
/// starts at an entry of a joined pin or on a standing wire of the net, runs inside the net's guide,
/// and finishes at an entry of a pin that isn't joined; it is legal where none of its shapes conflicts
/// with one that forbids, and each edge and entry that conflicts with a dear shape costs eight times
/// as much. Which shapes of the stock forbid and which are dear is up to the sense. A walk may come
/// back to a vertex. Where several walks cost least, any of them is answered.
///
/// The tables may be any before and after; they keep their memory for the next search. The only error
/// is want of memory.
pub fn search<K: Stock>(
    alloc: Global,
    ground: &Ground<K>,
    tables: &mut Tables,
) -> Result<Option<Walk>, Memory>
    requires { IsGround ground.now.design.now ground.now.net ground.now.own.now }
    ensures least { IfOk result (λ w. IfSome w (IsLeast ground.now.design.now ground.now.net ground.now.own.now (stock_reading ground.now.design.now (K.rips_of ground.now.stock.now) ground.now.net ground.now.sense.now (K.shapes ground.now.stock.now)))) }
    ensures none { IfOk result (λ w. IfNone w (NoneLegal ground.now.design.now ground.now.net ground.now.own.now (stock_reading ground.now.design.now (K.rips_of ground.now.stock.now) ground.now.net ground.now.sense.now (K.shapes ground.now.stock.now)))) }
{
    let finishes = finishes(alloc, ground.design, ground.net, ground.own)?;
    let targets = ground.stops(alloc, finishes.as_slice())?;
    if targets.is_empty() {
        return Ok(None);
    }
    let starts = starts(alloc, ground.design, ground.net, ground.own)?;
    let sources = ground.stops(alloc, starts.as_slice())?;
    let guided = Guided {
        ground,
        bounds: bounds_to(alloc, targets.as_slice(), ground.design.options.via)?,
    };
    least_walk(
        alloc,
        &guided,
        sources.as_slice(),
        targets.as_slice(),
        tables,
    )
}
