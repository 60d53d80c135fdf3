//! The graph in which a net's walk is searched for.
ghost use Rattle.std.specs.Prelude.{◌≡◌, ◌≤◌, All};
ghost use Rattle.future_cost.specs.Laws.{IsSmall};
ghost use Rattle.future_cost.specs.Under.{under};
ghost use Rattle.future_cost.specs.declared.bound.Bound.{Bound as OfBound};
ghost use Rattle.rt_base.specs.Geometry.{distance};
ghost use Rattle.track_graph.specs.Edges.{edge_cost_of};
ghost use Rattle.plain_route.specs.Ground.{IsGround, IsStep};
ghost use Rattle.plain_route.specs.Guided.{to_stops};
ghost use Rattle.plain_route.specs.Stocks.{stock_reading};
ghost use Rattle.plain_route.specs.Vertices.{vertices_of};

use crate::bounds::least_bound;
use crate::ground::Ground;
use crate::steps::add_steps;
use crate::stock::Stock;
use future_cost::Bound;
use least_walk::Graph;
use rt_base::{Edge, EdgeKind, Memory, Point, Seq, Vertex};
use track_graph::Design;

/// The edges that a legal walk may take, and bounds on what is left to the targets.
#[derive(Drop)]
pub struct Guided<'b, 'a, K> {
    pub ground: &'b Ground<'a, K>,
    pub bounds: Seq<Bound>,
}

/// The distance of two points, or the largest number of its type if that is less.
fn apart(p: Point, q: Point) -> u64
    ensures { result ≤ distance p q }
{
    p.x.abs_diff(q.x).saturating_add(p.y.abs_diff(q.y))
}

/// What an edge costs at least: as much as where it is not dear.
fn least_cost(design: &Design, v: Vertex, e: &Edge) -> u64
    ensures { result ≤ edge_cost_of design.now v e.now }
{
    match e.kind {
        EdgeKind::Along => apart(v.point, e.to.point),
        EdgeKind::Via(_) => design.options.via,
    }
}

impl<'b, 'a, K: Stock> Graph for Guided<'b, 'a, K> {
    ghost IsWhole = { λ g. IsGround g.ground.now.design.now g.ground.now.net g.ground.now.own.now × All (λ (b : OfBound). IsSmall (under b)) g.bounds };

    ghost vertices = { λ g. vertices_of g.ground.now.design.now };

    ghost HasEdge = { λ g. IsStep g.ground.now.design.now g.ground.now.net (stock_reading g.ground.now.design.now (K.rips_of g.ground.now.stock.now) g.ground.now.net g.ground.now.sense.now (K.shapes g.ground.now.stock.now)) };

    ghost bound_of = { λ g. to_stops g.ground.now.design.now g.bounds };

    fn edges(&self, from: Vertex, edges: &mut Seq<Edge>) -> Result<(), Memory> {
        add_steps(edges, self.ground.design, from)
    }

    fn cost(&self, from: Vertex, edge: &Edge) -> Option<u64> {
        self.ground.step_cost(from, edge)
    }

    fn least(&self, from: Vertex, edge: &Edge) -> u64 {
        least_cost(self.ground.design, from, edge)
    }

    fn bound(&self, from: Vertex) -> u64 {
        least_bound(self.ground.design, self.bounds.as_slice(), &from)
    }
}
