//! What the edges and entries of a walk cost, where a legal walk may have them.
ghost use Rattle.std.specs.Prelude.{◌≡◌, ◌*◌, ◌^◌, ◌<◌, if◌then◌else◌, All, Contains, IfOk, IfSome, IfNone};
ghost use Rattle.rt_base.specs.Ranges.{IsPointWithin};
ghost use Rattle.track_graph.specs.Edges.{IsEdge, edge_metal};
ghost use Rattle.track_graph.specs.Entries.{entry_part};
ghost use Rattle.track_graph.specs.Levels.{track_system_of};
ghost use Rattle.track_graph.specs.Metal.{shapes_of, via_metal};
ghost use Rattle.track_graph.specs.NetWalks.{IsNetEntry};
ghost use Rattle.track_graph.specs.Searches.{some_conflict, part_cost};
ghost use Rattle.plain_route.specs.Fitting.{IsFitting, IsUsableVia, has_dear};
ghost use Rattle.plain_route.specs.Ground.{IsGround, IsLegalEdge, IsStep, IsOpen, IsStopAt};
ghost use Rattle.plain_route.specs.Stocks.{stock_reading};
ghost use Rattle.plain_route.specs.Senses.{picked};
ghost use Rattle.plain_route.specs.Vertices.{vertices_of};

use crate::ground::Ground;
use crate::guide::{is_edge_in_guide, is_in_guide};
use crate::leads::is_edge_from;
use crate::sense::Sense;
use crate::stock::Stock;
use rt_base::{Edge, EdgeKind, Entry, Memory, Owner, Point, Shape, Vertex};
use std::alloc::Global;
use track_graph::{edge_cost, entry_cost, entry_shapes, guide_of, is_edge, via_rects, wire_shape};

/// What a part of a walk costs: eight times as much where it is dear.
fn read_cost(cost: u64, dear: bool) -> u64
    requires { cost < 2 ^ 60 }
    ensures { result ≡ if dear then 8 * cost else cost }
{
    if dear { 8 * cost } else { cost }
}

impl<'a, K: Stock> Ground<'a, K> {
    /// Whether one of these shapes of the net conflicts with a dear one, or with one that forbids.
    fn meets_any(&self, shapes: &[Shape], dear: bool) -> bool
        requires ground { IsGround self.now.design.now self.now.net self.now.own.now }
        requires fit { All (IsFitting self.now.design.now.tech self.now.net) shapes.now }
        ensures { result ≡ some_conflict self.now.design.now.tech shapes.now (picked dear (stock_reading self.now.design.now (K.rips_of self.now.stock.now) self.now.net self.now.sense.now (K.shapes self.now.stock.now))) }
    {
        for shape in shapes {
            if self.meets(shape, dear) {
                return true;
            }
        }
        false
    }

    /// Whether a rectangle of a via of the net at a point conflicts with a dear shape, or with one
    /// that forbids.
    fn via_meets(&self, via: u32, point: Point, dear: bool) -> bool
        requires ground { IsGround self.now.design.now self.now.net self.now.own.now }
        requires via { IsUsableVia self.now.design.now.tech via }
        requires point { IsPointWithin (2 ^ 32) point }
        ensures { result ≡ some_conflict self.now.design.now.tech (shapes_of self.now.net (via_metal self.now.design.now.tech via point)) (picked dear (stock_reading self.now.design.now (K.rips_of self.now.stock.now) self.now.net self.now.sense.now (K.shapes self.now.stock.now))) }
    {
        for (layer, rect) in via_rects(&self.design.tech, via) {
            let shape = Shape {
                layer: *layer,
                rect: rect.moved(point),
                owner: Owner::Net(self.net),
                fixed: false,
            };
            if self.meets(&shape, dear) {
                return true;
            }
        }
        false
    }

    /// Whether a shape of an edge of the net conflicts with a dear one, or with one that forbids.
    fn edge_meets(&self, v: Vertex, e: &Edge, dear: bool) -> bool
        requires ground { IsGround self.now.design.now self.now.net self.now.own.now }
        requires edge { IsEdge (track_system_of self.now.design.now) v e.now }
        ensures { result ≡ some_conflict self.now.design.now.tech (shapes_of self.now.net (edge_metal self.now.design.now v e.now)) (picked dear (stock_reading self.now.design.now (K.rips_of self.now.stock.now) self.now.net self.now.sense.now (K.shapes self.now.stock.now))) }
    {
        match e.kind {
            EdgeKind::Along => {
                let shape = wire_shape(&self.design.tech, self.net, v.level, v.point, e.to.point);
                self.meets(&shape, dear)
            }
            EdgeKind::Via(via) => self.via_meets(via, v.point, dear),
        }
    }

    /// Whether some shapes may be dear.
    fn has_dear(&self) -> bool
        ensures { result ≡ has_dear self.now.sense.now }
    {
        match self.sense {
            Sense::Soft => true,
            _ => false,
        }
    }

    /// Whether a shape of an edge of the net conflicts with a dear one.
    fn is_edge_dear(&self, v: Vertex, e: &Edge) -> bool
        requires ground { IsGround self.now.design.now self.now.net self.now.own.now }
        requires edge { IsEdge (track_system_of self.now.design.now) v e.now }
        ensures { result ≡ some_conflict self.now.design.now.tech (shapes_of self.now.net (edge_metal self.now.design.now v e.now)) (stock_reading self.now.design.now (K.rips_of self.now.stock.now) self.now.net self.now.sense.now (K.shapes self.now.stock.now)).dear }
    {
        self.has_dear() && self.edge_meets(v, e, true)
    }

    /// Whether one of these shapes of the net conflicts with a dear one.
    fn is_any_dear(&self, shapes: &[Shape]) -> bool
        requires ground { IsGround self.now.design.now self.now.net self.now.own.now }
        requires fit { All (IsFitting self.now.design.now.tech self.now.net) shapes.now }
        ensures { result ≡ some_conflict self.now.design.now.tech shapes.now (stock_reading self.now.design.now (K.rips_of self.now.stock.now) self.now.net self.now.sense.now (K.shapes self.now.stock.now)).dear }
    {
        self.has_dear() && self.meets_any(shapes, true)
    }

    /// What an edge costs in a walk of the net, `None` where no legal walk may take it.
    fn legal_cost(&self, v: Vertex, e: &Edge) -> Option<u64>
        requires ground { IsGround self.now.design.now self.now.net self.now.own.now }
        requires edge { IsEdge (track_system_of self.now.design.now) v e.now }
        ensures some { IfSome result (IsStep self.now.design.now self.now.net (stock_reading self.now.design.now (K.rips_of self.now.stock.now) self.now.net self.now.sense.now (K.shapes self.now.stock.now)) v e.now) }
        ensures none { IfNone result (IsLegalEdge self.now.design.now self.now.net (stock_reading self.now.design.now (K.rips_of self.now.stock.now) self.now.net self.now.sense.now (K.shapes self.now.stock.now)) v e.now → ⊥) }
    {
        if !is_edge_in_guide(guide_of(self.design, self.net), v, e) {
            return None;
        }
        if self.edge_meets(v, e, false) {
            return None;
        }
        let cost = edge_cost(self.design, v, e);
        Some(read_cost(cost, self.is_edge_dear(v, e)))
    }

    /// What an edge from a vertex costs in a walk of the net, `None` where no legal walk may take it.
    /// Takes no memory.
    pub fn edge_cost(&self, v: Vertex, e: &Edge) -> Option<u64>
        requires ground { IsGround self.now.design.now self.now.net self.now.own.now }
        ensures some { IfSome result (IsStep self.now.design.now self.now.net (stock_reading self.now.design.now (K.rips_of self.now.stock.now) self.now.net self.now.sense.now (K.shapes self.now.stock.now)) v e.now) }
        ensures none { IfNone result (IsLegalEdge self.now.design.now self.now.net (stock_reading self.now.design.now (K.rips_of self.now.stock.now) self.now.net self.now.sense.now (K.shapes self.now.stock.now)) v e.now → ⊥) }
    {
        if !is_edge(self.design, v, e) {
            return None;
        }
        self.legal_cost(v, e)
    }

    /// What an edge from one of the design's vertices costs in a walk of the net, `None` where no legal
    /// walk may take it.
    pub(crate) fn step_cost(&self, v: Vertex, e: &Edge) -> Option<u64>
        requires ground { IsGround self.now.design.now self.now.net self.now.own.now }
        requires listed { Contains (vertices_of self.now.design.now) v }
        ensures some { IfSome result (IsStep self.now.design.now self.now.net (stock_reading self.now.design.now (K.rips_of self.now.stock.now) self.now.net self.now.sense.now (K.shapes self.now.stock.now)) v e.now) }
        ensures none { IfNone result (IsLegalEdge self.now.design.now self.now.net (stock_reading self.now.design.now (K.rips_of self.now.stock.now) self.now.net self.now.sense.now (K.shapes self.now.stock.now)) v e.now → ⊥) }
    {
        if !is_edge_from(self.design, v, e) {
            return None;
        }
        self.legal_cost(v, e)
    }

    /// What an entry of the net costs in a walk, `None` where no legal walk may start or finish there.
    /// The only error is want of memory.
    pub fn entry_cost(&self, alloc: Global, entry: &Entry) -> Result<Option<u64>, Memory>
        requires ground { IsGround self.now.design.now self.now.net self.now.own.now }
        requires entry { IsNetEntry self.now.design.now self.now.net entry.now }
        ensures some { IfOk result (λ cost. IfSome cost (IsStopAt self.now.design.now self.now.net (stock_reading self.now.design.now (K.rips_of self.now.stock.now) self.now.net self.now.sense.now (K.shapes self.now.stock.now)) entry.now)) }
        ensures none { IfOk result (λ cost. IfNone cost (IsOpen self.now.design.now self.now.net (stock_reading self.now.design.now (K.rips_of self.now.stock.now) self.now.net self.now.sense.now (K.shapes self.now.stock.now)) entry.now → ⊥)) }
    {
        let v = entry.vertex;
        if !is_in_guide(guide_of(self.design, self.net), v.level, v.point) {
            return Ok(None);
        }
        let shapes = entry_shapes(alloc, self.design, self.net, entry)?;
        if self.meets_any(&shapes, false) {
            return Ok(None);
        }
        let cost = entry_cost(self.design, self.net, entry);
        Ok(Some(read_cost(cost, self.is_any_dear(&shapes))))
    }
}
