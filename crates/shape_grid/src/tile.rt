//! The shapes of one tile of the die.
ghost use Rattle.std.specs.Prelude.{◌≡◌, ◌∷◌, ◌++◌, ◌&&◌, ◌<◌, [], Contains, OnOk, OnErr, IfOk, IfSome, length, filter};
ghost use Rattle.std.specs.Bool.{OnTrue, OnFalse};
ghost use Rattle.std.specs.List.{list_any, HoldsAt};
ghost use Rattle.std.specs.List.Sorted.{IsPermutation};
ghost use Rattle.shape_grid.specs.Stores.{is_touching, AreNear};
ghost use Rattle.shape_grid.specs.Cells.{Suits, shapes_of};

use crate::size::{Size, size_of};
use crate::store::{ShapeStore, ShapeTest};
use crate::table::{Bits, Table};
use rt_base::{LayerNo, Memory, Rect, Shape};
use std::alloc::Global;
use std::marker::Model;

/// The shapes of one tile of the die, by layer and size. Contracts see it as the list of its shapes.
#[derive(Drop)]
pub struct Tile {
    alloc: Global,
    tables: Vec<Table>,
}

impl Model for Tile {
    ghost use Rattle.std.specs.Prelude.{List};
    ghost use Rattle.rt_base.specs.declared.tech.Shape.{Shape as ShapeOf};
    ghost use Rattle.shape_grid.specs.Cells.{shapes_of};

    ghost Value = { List ShapeOf };

    ghost view = { λ t. shapes_of t.tables.items };
}

/// Where the table of a size stands, or none where there is none.
fn table_of(tables: &[Table], size: &Size) -> Option<usize>
    ensures within { IfSome result (λ i. i < length tables.now) }
    ensures size { IfSome result (λ i. HoldsAt (λ t. t.size ≡ size.now) tables.now i) }
{
    tables.iter().position(|t| t.is_of(size))
}

/// The same tables once more. The only error is want of memory.
fn copy_of(alloc: Global, tables: &[Table]) -> Result<Vec<Table>, Memory>
    ensures { IfOk result (λ v. v.items ≡ tables.now) }
{
    let mut copies = Vec::new(alloc);
    for table in tables {
        copies.push(table.copy(alloc)?)?;
    }
    Ok(copies)
}

/// Whether some shape of some table touches a rectangle and passes a test.
fn any_in<T: ShapeTest>(tables: &[Table], layer: LayerNo, rect: &Rect, test: &T) -> bool
    ensures { result ≡ list_any (λ t. list_any (λ s. is_touching layer rect.now s && T.verdict test.now s) t.shapes) tables.now }
{
    tables.iter().any(|t| t.any_near(layer, rect, test))
}

/// Takes one equal shape out of one of the tables; false where there is none.
fn remove_from(tables: &mut Vec<Table>, shape: &Shape) -> bool
    ensures found { OnTrue result (IsPermutation (shape.now ∷ shapes_of tables.new.items) (shapes_of tables.old.items)) }
    ensures absent { OnFalse result (Contains (shapes_of tables.old.items) shape.now → ⊥) }
    ensures same { OnFalse result (tables.new.items ≡ tables.old.items) }
{
    for i in 0..tables.len() {
        let table = &mut tables[i];
        if table.remove(shape) {
            return true;
        }
    }
    false
}

impl Tile {
    /// A tile with no shapes. Takes no memory.
    pub fn new(alloc: Global) -> Tile
        ensures { result ≡ [] }
    {
        Tile {
            alloc,
            tables: Vec::new(alloc),
        }
    }

    /// A tile with the same shapes, that changes of this one don't change. The only error is want of
    /// memory.
    pub fn copy(&self, alloc: Global) -> Result<Tile, Memory>
        ensures { IfOk result (λ t. t ≡ self.now) }
    {
        let tables = copy_of(alloc, self.tables.as_slice())?;
        Ok(Tile { alloc, tables })
    }

    /// Adds the first shape of a size. After `Memory` the tile is as it was.
    fn add_first(&mut self, size: Size, shape: Shape) -> Result<(), Memory>
        requires suits { Suits size shape }
        requires wide { size.wide < 64 }
        requires tall { size.tall < 64 }
        ensures ok { OnOk result (IsPermutation (shape ∷ self.old) self.new) }
        ensures err { OnErr result (self.new ≡ self.old) }
    {
        let bits = Bits {
            columns: 0,
            rows: 0,
        };
        let mut table = Table::new(self.alloc, size, bits)?;
        table.add(self.alloc, shape)?;
        self.tables.push(table)?;
        Ok(())
    }

    /// The shapes that touch a rectangle. The only error is want of memory.
    fn found(&self, alloc: Global, layer: LayerNo, rect: &Rect) -> Result<Vec<Shape>, Memory>
        ensures { IfOk result (λ found. found.items ≡ filter (is_touching layer rect.now) self.now) }
    {
        let mut found = Vec::new(alloc);
        for table in &self.tables {
            table.near_into(&mut found, layer, rect)?;
        }
        Ok(found)
    }
}

impl ShapeStore for Tile {
    ghost shapes = { λ t. t };

    fn add(&mut self, shape: Shape) -> Result<(), Memory> {
        let size = size_of(&shape);
        let Some(place) = table_of(self.tables.as_slice(), &size) else {
            return self.add_first(size, shape);
        };
        let alloc = self.alloc;
        let table = &mut self.tables[place];
        table.add(alloc, shape)
    }

    fn remove(&mut self, shape: &Shape) -> bool {
        remove_from(&mut self.tables, shape)
    }

    fn near(&self, alloc: Global, layer: LayerNo, rect: &Rect) -> Result<Vec<Shape>, Memory> {
        let mut found = self.found(alloc, layer, rect)?;
        found.sort_unstable();
        Ok(found)
    }

    fn any_near<T: ShapeTest>(&self, layer: LayerNo, rect: &Rect, test: &T) -> bool {
        any_in(self.tables.as_slice(), layer, rect, test)
    }
}
