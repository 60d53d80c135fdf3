//! What a search asks of the wires that stand.
ghost use Rattle.std.specs.Prelude.{◌≡◌, ℕ, ◌<◌, ◌&&◌, List, length, IfOk};
ghost use Rattle.std.specs.List.{list_any};
ghost use Rattle.rt_base.specs.declared.tech.Shape.{Shape as ShapeOf};
ghost use Rattle.shape_grid.specs.Stores.{is_touching, AreNear};
ghost use Rattle.track_graph.specs.States.{net_state};

use rt_base::{LayerNo, Memory, Rect, Shape};
use shape_grid::{ShapeStore, ShapeTest};
use std::alloc::Global;
use track_graph::{NetState, State};

/// The shapes that stand, each once or more often, and how often the nets that have wires among them
/// were ripped.
pub trait Stock {
    ghost shapes: { Self → List ShapeOf };

    ghost rips_of: { Self → ℕ → ℕ };

    /// How often a net was ripped. Takes no memory.
    fn rips(&self, net: u32) -> u8
        ensures { result ≡ rips_of self.now net };

    /// All shapes of a layer that touch a closed rectangle, each as often as it stands here, in the
    /// order of their fields. The only error is want of memory.
    fn near(&self, alloc: Global, layer: LayerNo, rect: &Rect) -> Result<Vec<Shape>, Memory>
        ensures { IfOk result (λ found. AreNear ⟦<Shape as Ord>⟧.cmp layer rect.now (shapes self.now) found.items) };

    /// Whether some shape of a layer that touches a closed rectangle passes a test; it stops at the
    /// first that does. Takes no memory.
    fn any_near<T: ShapeTest>(&self, layer: LayerNo, rect: &Rect, test: &T) -> bool
        ensures { result ≡ list_any (λ s. is_touching layer rect.now s && T.verdict test.now s) (shapes self.now) };
}

/// A state, and a store that has its shapes.
#[derive(Drop)]
pub struct Standing<'a, S> {
    pub state: &'a State,
    pub store: &'a S,
}

impl<'a, S> Standing<'a, S> {
    /// What stands of a net. Takes no memory.
    pub fn of_net(&self, net: u32) -> &'a NetState
        requires { net < length self.now.state.now.nets }
        ensures { result.now ≡ net_state self.now.state.now net }
    {
        &self.state.nets.as_slice()[net as usize]
    }
}

impl<'a, S: ShapeStore> Stock for Standing<'a, S> {
    ghost shapes = { λ s. S.shapes s.store.now };

    ghost rips_of = { λ s m. (net_state s.state.now m).rips };

    fn rips(&self, net: u32) -> u8 {
        match self.state.nets.as_slice().get(net as usize) {
            Some(standing) => standing.rips,
            None => 0,
        }
    }

    fn near(&self, alloc: Global, layer: LayerNo, rect: &Rect) -> Result<Vec<Shape>, Memory> {
        self.store.near(alloc, layer, rect)
    }

    fn any_near<T: ShapeTest>(&self, layer: LayerNo, rect: &Rect, test: &T) -> bool {
        self.store.any_near(layer, rect, test)
    }
}
