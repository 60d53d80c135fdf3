//! The plain store: a list.
ghost use Rattle.std.specs.Prelude.{◌≡◌, ◌∷◌, ◌&&◌, [], Contains, OnOk, OnErr, IfOk};
ghost use Rattle.std.specs.Bool.{OnTrue, OnFalse};
ghost use Rattle.std.specs.List.{list_any};
ghost use Rattle.std.specs.List.Sorted.{IsPermutation};
ghost use Rattle.shape_grid.specs.Stores.{is_touching, AreNear};

use crate::store::{ShapeStore, ShapeTest};
use crate::touch::{any_touching, take_from, touching};
use rt_base::{LayerNo, Memory, Rect, Seq, Shape};
use std::alloc::Global;

/// Shapes in one list, each looked at by each call.
#[derive(Drop)]
pub struct ListStore {
    pub kept: Seq<Shape>,
}

impl ListStore {
    /// A store with no shapes. Takes no memory.
    pub fn new(alloc: Global) -> ListStore
        ensures { result.kept ≡ [] }
    {
        ListStore {
            kept: Seq::new(alloc),
        }
    }
}

impl ShapeStore for ListStore {
    ghost shapes = { λ s. s.kept };

    fn add(&mut self, shape: Shape) -> Result<(), Memory> {
        self.kept.items.push(shape)?;
        Ok(())
    }

    fn remove(&mut self, shape: &Shape) -> bool {
        take_from(&mut self.kept, shape)
    }

    fn near(&self, alloc: Global, layer: LayerNo, rect: &Rect) -> Result<Vec<Shape>, Memory> {
        let mut found = touching(alloc, self.kept.as_slice(), layer, rect)?;
        found.sort_unstable();
        Ok(found)
    }

    fn any_near<T: ShapeTest>(&self, layer: LayerNo, rect: &Rect, test: &T) -> bool {
        any_touching(self.kept.as_slice(), layer, rect, test)
    }
}
