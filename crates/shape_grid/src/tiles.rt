//! The shapes of each tile of a grid.
ghost use Rattle.std.specs.Prelude.{◌≡◌, ℕ, ◌*◌, ◌^◌, ◌<◌, ◌≤◌, ◌≤ℤ◌, pos, [], length, slice_index_or, OnOk, IfOk};
ghost use Rattle.rt_base.specs.Tiles.{columns_of, rows_of, Meets};
ghost use Rattle.shape_grid.specs.Tiling.{AreSplit, Gets, IsUpright};

use crate::store::ShapeStore;
use crate::tile::Tile;
use rt_base::{Grid, Memory, Shape};
use std::alloc::Global;

/// So many tiles with no shapes. The only error is want of memory.
fn empty_tiles(alloc: Global, count: u32) -> Result<Vec<Tile>, Memory>
    ensures many { IfOk result (λ v. length v.items ≡ count) }
    ensures empty { IfOk result (λ v. (t : ℕ) → slice_index_or v.items t [] ≡ []) }
{
    let mut tiles = Vec::new(alloc);
    for _ in 0..count {
        tiles.push(Tile::new(alloc))?;
    }
    Ok(tiles)
}

/// Adds a shape to the tiles from one number up to another. The only error is want of memory.
fn add_in_row(tiles: &mut Vec<Tile>, from: usize, past: usize, shape: &Shape) -> Result<(), Memory>
    requires { past ≤ length tiles.old.items }
    ensures many { length tiles.new.items ≡ length tiles.old.items }
    ensures each { OnOk result ((t : ℕ) → Gets ((from ≤ t) × (t < past)) shape.now (slice_index_or tiles.old.items t []) (slice_index_or tiles.new.items t [])) }
{
    for t in from..past {
        let tile = &mut tiles[t];
        tile.add(*shape)?;
    }
    Ok(())
}

/// Adds a shape to each tile that it meets. The only error is want of memory.
fn add_to_tiles(tiles: &mut Vec<Tile>, grid: &Grid, shape: &Shape) -> Result<(), Memory>
    requires side { pos 1 ≤ℤ grid.now.tile }
    requires count { columns_of grid.now * rows_of grid.now < 2 ^ 32 }
    requires many { length tiles.old.items ≡ columns_of grid.now * rows_of grid.now }
    ensures many { length tiles.new.items ≡ length tiles.old.items }
    ensures upright { IsUpright shape.now.rect }
    ensures each { OnOk result ((t : ℕ) → t < length tiles.old.items → Gets (Meets grid.now shape.now.rect t) shape.now (slice_index_or tiles.old.items t []) (slice_index_or tiles.new.items t [])) }
{
    let columns = grid.columns();
    let low = shape.rect.low();
    let high = shape.rect.high();
    let left = grid.column(low);
    let right = grid.column(high);
    for row in grid.row(low)..grid.row(high) + 1 {
        let base = row * columns;
        add_in_row(
            tiles,
            (base + left) as usize,
            (base + right + 1) as usize,
            shape,
        )?;
    }
    Ok(())
}

/// The shapes of each tile of a grid, tile by tile in the order of their numbers: each has exactly
/// the shapes of which some point is in it, whatever their layers are, and each shape as often as it
/// is given. The only error is want of memory. Takes memory for each shape in each of its tiles.
pub fn split(alloc: Global, grid: &Grid, shapes: &[Shape]) -> Result<Vec<Tile>, Memory>
    requires side { pos 1 ≤ℤ grid.now.tile }
    requires count { columns_of grid.now * rows_of grid.now < 2 ^ 32 }
    ensures { IfOk result (λ tiles. AreSplit grid.now shapes.now tiles.items) }
{
    let mut tiles = empty_tiles(alloc, grid.tiles())?;
    for shape in shapes {
        add_to_tiles(&mut tiles, grid, shape)?;
    }
    Ok(tiles)
}
