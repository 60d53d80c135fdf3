//! What a store of shapes does.
ghost use Rattle.std.specs.Prelude.{◌≡◌, ◌∷◌, ◌&&◌, List, Bool, Contains, OnOk, OnErr, IfOk};
ghost use Rattle.std.specs.Bool.{OnTrue, OnFalse};
ghost use Rattle.std.specs.List.{list_any};
ghost use Rattle.std.specs.List.Sorted.{IsPermutation};
ghost use Rattle.rt_base.specs.declared.tech.Shape.{Shape as ShapeOf};
ghost use Rattle.shape_grid.specs.Stores.{is_touching, AreNear};

use rt_base::{LayerNo, Memory, Rect, Shape};
use std::alloc::Global;

/// A test of shapes, for one question or another of a caller.
pub trait ShapeTest {
    ghost verdict: { Self → ShapeOf → Bool };

    /// Whether a shape passes the test.
    fn passes(&self, shape: &Shape) -> bool
        ensures { result ≡ verdict self.now shape.now };
}

/// Shapes, each kept as often as it was added, in no order.
pub trait ShapeStore {
    ghost shapes: { Self → List ShapeOf };

    /// Adds a shape. After `Memory`, which is the only error, the store is as it was.
    fn add(&mut self, shape: Shape) -> Result<(), Memory>
        ensures ok { OnOk result (IsPermutation (shape ∷ shapes self.old) (shapes self.new)) }
        ensures err { OnErr result (shapes self.new ≡ shapes self.old) };

    /// Takes one equal shape out; false, and the store is as it was, exactly where there is none.
    /// Takes no memory.
    fn remove(&mut self, shape: &Shape) -> bool
        ensures found { OnTrue result (IsPermutation (shape.now ∷ shapes self.new) (shapes self.old)) }
        ensures absent { OnFalse result (Contains (shapes self.old) shape.now → ⊥) }
        ensures same { OnFalse result (shapes self.new ≡ shapes self.old) };

    /// All shapes of a layer that touch a closed rectangle, each as often as it is kept, in the order
    /// of their fields. The only error is want of memory.
    fn near(&self, alloc: Global, layer: LayerNo, rect: &Rect) -> Result<Vec<Shape>, Memory>
        ensures { IfOk result (λ found. AreNear ⟦<Shape as Ord>⟧.cmp layer rect.now (shapes self.now) found.items) };

    /// Whether some shape of a layer that touches a closed rectangle passes a test; it stops at the
    /// first that does. Takes no memory.
    fn any_near<T: ShapeTest>(&self, layer: LayerNo, rect: &Rect, test: &T) -> bool
        ensures { result ≡ list_any (λ s. is_touching layer rect.now s && T.verdict test.now s) (shapes self.now) };
}
