//! Tiles of the die.
ghost use Rattle.std.specs.Prelude.{◌≡◌, ◌≤ℤ◌, ◌<◌, ◌≤◌, ◌*◌, ◌^◌, pos, IsTrue, ◌↔◌};
ghost use Rattle.rt_base.specs.Tiles.{side_of, count_along};

use crate::distance::rise;
use crate::geometry::{Point, Rect};

/// The die and the side of its square tiles, which count from 0 at its lower left corner, row by
/// row, upwards.
#[derive(Clone, Copy, Debug, PartialEq, Eq)]
pub struct Grid {
    pub die: Rect,
    pub tile: i64,
}

/// How many tiles lie along a length.
fn count(length: u64, side: u64) -> u64
    requires { 0 < side }
    ensures { result ≡ count_along length side }
{
    length.div_ceil(side).max(1)
}

fn is_between(n: u64, first: u64, last: u64) -> bool
    ensures { IsTrue result ↔ ((first ≤ n) × (n ≤ last)) }
{
    if n < first {
        return false;
    }
    n <= last
}

impl Grid {
    ghost use Rattle.rt_base.specs.Tiles.{columns_of, rows_of, column_of, row_of, Meets};

    /// The side of a tile.
    fn side(&self) -> u64
        ensures { result ≡ side_of self.now }
    {
        self.tile.unsigned_abs()
    }

    /// How many columns of tiles the die has.
    pub fn columns(&self) -> u64
        requires { pos 1 ≤ℤ self.now.tile }
        ensures { result ≡ columns_of self.now }
    {
        count(rise(self.die.xl, self.die.xh), self.side())
    }

    /// How many rows of tiles the die has.
    pub fn rows(&self) -> u64
        requires { pos 1 ≤ℤ self.now.tile }
        ensures { result ≡ rows_of self.now }
    {
        count(rise(self.die.yl, self.die.yh), self.side())
    }

    /// How many tiles the die has.
    pub fn tiles(&self) -> u32
        requires side { pos 1 ≤ℤ self.now.tile }
        requires count { columns_of self.now * rows_of self.now < 2 ^ 32 }
        ensures { result ≡ columns_of self.now * rows_of self.now }
    {
        (self.columns() * self.rows()) as u32
    }

    /// The column of a point, counted from 0. A point left of the die is in the first column, and
    /// one right of it in the last.
    pub fn column(&self, p: Point) -> u64
        requires { pos 1 ≤ℤ self.now.tile }
        ensures { result ≡ column_of self.now p.x }
    {
        (rise(self.die.xl, p.x) / self.side()).min(self.columns() - 1)
    }

    /// The row of a point, counted from 0. A point below the die is in the first row, and one
    /// above it in the last.
    pub fn row(&self, p: Point) -> u64
        requires { pos 1 ≤ℤ self.now.tile }
        ensures { result ≡ row_of self.now p.y }
    {
        (rise(self.die.yl, p.y) / self.side()).min(self.rows() - 1)
    }

    /// Whether a point of the rectangle is in the tile with this number. Takes no memory.
    pub fn meets(&self, rect: &Rect, tile: u32) -> bool
        requires { pos 1 ≤ℤ self.now.tile }
        ensures { IsTrue result ↔ Meets self.now rect.now tile }
    {
        let columns = self.columns();
        let column = tile as u64 % columns;
        let row = tile as u64 / columns;
        let first = rect.low();
        let last = rect.high();
        if !is_between(column, self.column(first), self.column(last)) {
            return false;
        }
        if !is_between(row, self.row(first), self.row(last)) {
            return false;
        }
        true
    }
}
