//! Cells of the plane: their sides are powers of two, and a shape goes by cells in which it spans at
//! most two in each direction.
ghost use Rattle.std.specs.Prelude.{◌≡◌, ◌+◌, ◌-◌, ◌*◌, ◌/◌, ◌%◌, ◌^◌, ◌<◌, ◌≤◌, ℕ, IsTrue, ◌↔◌};
ghost use Rattle.std.specs.Bool.{OnTrue, OnFalse};
ghost use Rattle.shape_grid.specs.Cells.{cell_of, Suits, Covers, bucket_of};

use rt_base::{LayerNo, Rect, Shape};

/// The binary logarithm of the least side of a cell, in database units.
const LEAST: u32 = 11;

/// The binary logarithm of the greatest side.
const GREATEST: u32 = 63;

/// A layer and its cells of one size, by the binary logarithms of their width and height in database
/// units.
#[derive(Clone, Copy, Debug)]
pub struct Size {
    pub layer: LayerNo,
    pub wide: u32,
    pub tall: u32,
}

/// The numbers of the first and the last cell of a range.
#[derive(Clone, Copy, Debug)]
pub struct Stretch {
    pub first: u64,
    pub last: u64,
}

/// So many columns or rows of buckets from a first one on.
#[derive(Clone, Copy, Debug)]
pub struct Reach {
    pub first: u64,
    pub count: u64,
}

impl Size {
    /// Whether two sizes are equal.
    pub fn is(&self, other: &Size) -> bool
        ensures { IsTrue result ↔ (self.now ≡ other.now) }
    {
        if self.layer.0 != other.layer.0 {
            return false;
        }
        if self.wide != other.wide {
            return false;
        }
        if self.tall != other.tall {
            return false;
        }
        true
    }
}

/// The columns of cells that a rectangle is in.
pub fn across(rect: &Rect, shift: u32) -> Stretch
    requires { shift < 64 }
    ensures first { result.first ≡ cell_of rect.now.xl shift }
    ensures last { result.last ≡ cell_of rect.now.xh shift }
    ensures order { result.first ≤ result.last }
{
    Stretch {
        first: rect.xl.abs_diff(i64::MIN) >> shift,
        last: rect.xh.abs_diff(i64::MIN) >> shift,
    }
}

/// The rows of cells that a rectangle is in.
pub fn upward(rect: &Rect, shift: u32) -> Stretch
    requires { shift < 64 }
    ensures first { result.first ≡ cell_of rect.now.yl shift }
    ensures last { result.last ≡ cell_of rect.now.yh shift }
    ensures order { result.first ≤ result.last }
{
    Stretch {
        first: rect.yl.abs_diff(i64::MIN) >> shift,
        last: rect.yh.abs_diff(i64::MIN) >> shift,
    }
}

/// The least logarithm, from `LEAST` on in steps of two, of cells in which a range spans at most two.
fn shift_of(first: u64, last: u64) -> u32
    ensures below { result < 64 }
    ensures short { last / 2 ^ result ≤ first / 2 ^ result + 1 }
{
    let mut shift = LEAST;
    while shift < GREATEST {
        if (last >> shift).saturating_sub(first >> shift) <= 1 {
            return shift;
        }
        shift += 2;
    }
    GREATEST
}

/// The size of the cells that a shape goes by.
pub fn size_of(shape: &Shape) -> Size
    ensures suits { Suits result shape.now }
    ensures wide { result.wide < 64 }
    ensures tall { result.tall < 64 }
{
    let rect = &shape.rect;
    let wide = across(rect, 0);
    let tall = upward(rect, 0);
    Size {
        layer: shape.layer,
        wide: shift_of(wide.first, wide.last),
        tall: shift_of(tall.first, tall.last),
    }
}

/// A power of two.
pub fn power(bits: u32) -> usize
    requires { bits ≤ 20 }
    ensures value { result ≡ 2 ^ bits }
    ensures most { result ≤ 2 ^ 20 }
{
    1usize << bits
}

/// A column or row that comes round after a power of two.
pub fn wrap(number: u64, bits: u32) -> usize
    requires { bits ≤ 20 }
    ensures value { result ≡ number % 2 ^ bits }
    ensures below { result < 2 ^ bits }
{
    (number & ((1u64 << bits) - 1)) as usize
}

/// The columns of buckets for a range of cells and the one before it.
pub fn reach_over(stretch: Stretch, bits: u32) -> Reach
    requires bits { bits ≤ 20 }
    requires order { stretch.first ≤ stretch.last }
    ensures covers { Covers stretch bits result }
    ensures first { result.first < 2 ^ bits }
    ensures count { result.count ≤ 2 ^ bits }
{
    let low = stretch.first.saturating_sub(1);
    let most = power(bits) as u64;
    Reach {
        first: wrap(low, bits) as u64,
        count: (stretch.last - low).min(most - 1) + 1,
    }
}

/// Whether a column of buckets is among these, which come round.
pub fn is_among(number: u64, reach: Reach, bits: u32) -> bool
    requires bits { bits ≤ 20 }
    requires number { number < 2 ^ bits }
    requires first { reach.first < 2 ^ bits }
    requires count { reach.count ≤ 2 ^ bits }
    ensures { OnFalse result ((i : ℕ) → i < reach.count → (reach.first + i) % 2 ^ bits ≡ number → ⊥) }
{
    if number < reach.first {
        return number + power(bits) as u64 - reach.first < reach.count;
    }
    number - reach.first < reach.count
}

/// The bucket of a rectangle.
pub fn bucket(size: Size, columns: u32, rows: u32, rect: &Rect) -> usize
    requires wide { size.wide < 64 }
    requires tall { size.tall < 64 }
    requires columns { columns ≤ 20 }
    requires rows { rows ≤ 20 }
    ensures value { result ≡ bucket_of size columns rows rect.now }
    ensures within { result < 2 ^ columns * 2 ^ rows }
{
    let column = wrap(across(rect, size.wide).first, columns);
    let row = wrap(upward(rect, size.tall).first, rows);
    column * power(rows) + row
}
