//! What a walk costs, where it is legal.
ghost use Rattle.std.specs.Prelude.{◌≡◌, ◌↔◌, ◌<◌, ◌≤◌, ◌*◌, ◌^◌, length, IsTrue, IfOk, IfSome, IfNone};
ghost use Rattle.track_graph.specs.Searches.{IsFinish, IsLegal, IsStart};
ghost use Rattle.plain_route.specs.Ground.{IsGround};
ghost use Rattle.plain_route.specs.Stocks.{stock_reading};
ghost use Rattle.block_check.specs.Legal.{AreLegalEdges, IsLegalAt, IsLegalPath};

use crate::starts::{is_finish, is_start};
use plain_route::{Ground, Stock};
use rt_base::{Edge, Memory, Vertex, Walk};
use std::alloc::Global;

/// What these edges cost from a vertex on, and where they end, `None` where no legal walk may take
/// them.
fn path_cost<K: Stock>(ground: &Ground<K>, start: Vertex, edges: &[Edge]) -> Option<(u128, Vertex)>
    requires ground { IsGround ground.now.design.now ground.now.net ground.now.own.now }
    ensures some { IfSome result (IsLegalPath ground.now.design.now ground.now.net (stock_reading ground.now.design.now (K.rips_of ground.now.stock.now) ground.now.net ground.now.sense.now (K.shapes ground.now.stock.now)) start edges.now) }
    ensures none { IfNone result (AreLegalEdges ground.now.design.now ground.now.net (stock_reading ground.now.design.now (K.rips_of ground.now.stock.now) ground.now.net ground.now.sense.now (K.shapes ground.now.stock.now)) start edges.now → ⊥) }
    ensures most { IfSome result (λ found. found.0 ≤ length edges.now * 2 ^ 64) }
{
    let mut at = start;
    let mut cost: u128 = 0;
    for e in edges {
        let Some(more) = ground.edge_cost(at, e) else {
            return None;
        };
        cost += more as u128;
        at = e.to;
    }
    Some((cost, at))
}

/// Whether two vertices are the same.
fn is_same_vertex(a: Vertex, b: Vertex) -> bool
    ensures { IsTrue result ↔ (a ≡ b) }
{
    a == b
}

/// What a walk costs that starts and finishes where a walk of the net may, `None` where it isn't legal.
fn parts_cost<K: Stock>(
    alloc: Global,
    ground: &Ground<K>,
    walk: &Walk,
) -> Result<Option<u128>, Memory>
    requires ground { IsGround ground.now.design.now ground.now.net ground.now.own.now }
    requires start { IsStart ground.now.design.now ground.now.net ground.now.own.now walk.now.start }
    requires finish { IsFinish ground.now.design.now ground.now.net ground.now.own.now walk.now.finish }
    ensures some { IfOk result (λ cost. IfSome cost (IsLegalAt ground.now.design.now ground.now.net ground.now.own.now (stock_reading ground.now.design.now (K.rips_of ground.now.stock.now) ground.now.net ground.now.sense.now (K.shapes ground.now.stock.now)) walk.now)) }
    ensures none { IfOk result (λ cost. IfNone cost (IsLegal ground.now.design.now ground.now.net ground.now.own.now (stock_reading ground.now.design.now (K.rips_of ground.now.stock.now) ground.now.net ground.now.sense.now (K.shapes ground.now.stock.now)) walk.now → ⊥)) }
{
    let edges = walk.edges.as_slice();
    let Some((path, end)) = path_cost(ground, walk.start.vertex, edges) else {
        return Ok(None);
    };
    if !is_same_vertex(end, walk.finish.vertex) {
        return Ok(None);
    }
    let Some(start) = ground.entry_cost(alloc, &walk.start)? else {
        return Ok(None);
    };
    let Some(finish) = ground.entry_cost(alloc, &walk.finish)? else {
        return Ok(None);
    };
    Ok(Some(start as u128 + finish as u128 + path))
}

/// What a walk costs in a search, `None` where it isn't legal there.
pub(crate) fn legal_cost<K: Stock>(
    alloc: Global,
    ground: &Ground<K>,
    walk: &Walk,
) -> Result<Option<u128>, Memory>
    requires ground { IsGround ground.now.design.now ground.now.net ground.now.own.now }
    ensures some { IfOk result (λ cost. IfSome cost (IsLegalAt ground.now.design.now ground.now.net ground.now.own.now (stock_reading ground.now.design.now (K.rips_of ground.now.stock.now) ground.now.net ground.now.sense.now (K.shapes ground.now.stock.now)) walk.now)) }
    ensures none { IfOk result (λ cost. IfNone cost (IsLegal ground.now.design.now ground.now.net ground.now.own.now (stock_reading ground.now.design.now (K.rips_of ground.now.stock.now) ground.now.net ground.now.sense.now (K.shapes ground.now.stock.now)) walk.now → ⊥)) }
{
    if !is_start(ground.design, ground.net, ground.own, &walk.start) {
        return Ok(None);
    }
    if !is_finish(ground.design, ground.net, ground.own, &walk.finish) {
        return Ok(None);
    }
    parts_cost(alloc, ground, walk)
}
