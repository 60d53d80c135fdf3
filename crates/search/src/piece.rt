//! A tile of the die with what stands on it.
ghost use Rattle.std.specs.Prelude.{◌≡◌, ◌≤ℤ◌, pos, filter, All, IfOk, OnOk};
ghost use Rattle.search.specs.Changes.{HasGained};
ghost use Rattle.search.specs.Views.{is_on};
ghost use Rattle.standing_shapes.specs.Standing.{AreAmong};

use rt_base::{Grid, Memory, Shape};
use shape_grid::Tile;
use standing_shapes::{add_shapes, take_shapes};
use std::alloc::Global;

/// The tile of the die with this number, and the shapes that lie on it.
#[derive(Drop)]
pub struct Piece {
    pub no: u32,
    pub tile: Tile,
}

/// Whether a shape lies on a tile.
fn lies_on(grid: &Grid, no: u32, shape: &Shape) -> bool
    requires { pos 1 ≤ℤ grid.now.tile }
    ensures { result ≡ is_on grid.now no shape.now }
{
    let _corner = shape.rect.high();
    grid.meets(&shape.rect, no)
}

/// Those of these shapes that lie on a tile.
fn on_tile(alloc: Global, grid: &Grid, no: u32, shapes: &[Shape]) -> Result<Vec<Shape>, Memory>
    requires { pos 1 ≤ℤ grid.now.tile }
    ensures { IfOk result (λ found. found.items ≡ filter (is_on grid.now no) shapes.now) }
{
    let mut found = Vec::new(alloc);
    for shape in shapes {
        if lies_on(grid, no, shape) {
            found.push(*shape)?;
        }
    }
    Ok(found)
}

impl Piece {
    /// The same once more. The only error is want of memory.
    fn copy(&self, alloc: Global) -> Result<Piece, Memory>
        ensures { IfOk result (λ p. p ≡ self.now) }
    {
        Ok(Piece {
            no: self.no,
            tile: self.tile.copy(alloc)?,
        })
    }

    /// Adds those of these shapes that lie on the tile.
    pub(crate) fn add(&mut self, alloc: Global, grid: &Grid, shapes: &[Shape]) -> Result<(), Memory>
        requires { pos 1 ≤ℤ grid.now.tile }
        ensures { OnOk result (HasGained grid.now shapes.now self.old self.new) }
    {
        let here = on_tile(alloc, grid, self.no, shapes)?;
        add_shapes(here.as_slice(), &mut self.tile)
    }

    /// Takes those of these shapes out that lie on the tile.
    pub(crate) fn take(
        &mut self,
        alloc: Global,
        grid: &Grid,
        shapes: &[Shape],
    ) -> Result<(), Memory>
        requires tile { pos 1 ≤ℤ grid.now.tile }
        requires among { AreAmong (filter (is_on grid.now self.old.no) shapes.now) self.old.tile }
        ensures { OnOk result (HasGained grid.now shapes.now self.new self.old) }
    {
        let here = on_tile(alloc, grid, self.no, shapes)?;
        take_shapes(here.as_slice(), &mut self.tile);
        Ok(())
    }
}

/// Copies of these pieces. The only error is want of memory.
pub(crate) fn copy_pieces(alloc: Global, pieces: &[Piece]) -> Result<Vec<Piece>, Memory>
    ensures { IfOk result (λ v. v.items ≡ pieces.now) }
{
    let mut copies = Vec::new(alloc);
    for piece in pieces {
        copies.push(piece.copy(alloc)?)?;
    }
    Ok(copies)
}
