//! Generated vias: rows and columns of cuts with two layers round them (LEF and DEF VIAS).
ghost use Rattle.std.specs.Prelude.{◌≡◌, ◌+◌, ◌*◌, ◌++◌, ◌^◌, ◌≤◌, ◌<◌, ◌≤ℤ◌, pos, unsigned_abs, OnOk, IfOk, All};
ghost use Rattle.rt_base.specs.Sides.{Sides};
ghost use Rattle.rt_base.specs.Ranges.{IsWithin, AreSidesWithin};
ghost use Rattle.rt_base.specs.declared.tech.LayerNo.{LayerNo as OnLayer};
ghost use Rattle.rt_shapes.specs.GeneratedVias.{IsFrom, IsForm, extent, low_end, high_end, range_of, enclosing, place_of, cut_range_of, cut_of, row_of, generated_of};

use rt_base::{LayerNo, Memory, Rect, Span};
use std::alloc::Global;

/// The generated form of a via, in DEF database units. Pairs are x and y.
#[derive(Clone, Copy, Debug, PartialEq, Eq)]
pub struct Generated {
    /// The size of a cut (CUTSIZE).
    pub cut: (i64, i64),
    /// The bottom, the cut and the top layer (LAYERS).
    pub layers: (LayerNo, LayerNo, LayerNo),
    /// The units between neighbouring cuts (CUTSPACING).
    pub spacing: (i64, i64),
    /// How far the bottom layer reaches beyond the cuts in x and y, then the top layer (ENCLOSURE).
    pub enclosure: (i64, i64, i64, i64),
    /// How many rows of cuts there are (ROWCOL).
    pub rows: i64,
    /// How many columns of cuts there are (ROWCOL).
    pub columns: i64,
}

/// How far so many cuts reach with the gaps between them.
fn extent(count: i64, size: i64, gap: i64) -> u64
    requires count { IsFrom (pos 1) count }
    requires size { IsFrom (pos 1) size }
    requires gap { IsFrom (pos 0) gap }
    ensures exact { result ≡ extent count size gap }
    ensures most { result ≤ 2 ^ 61 }
{
    let count = count as u64;
    count * size as u64 + (count - 1) * gap as u64
}

/// The lower end of a range of this length round 0.
fn low_end(len: u64) -> i64
    requires { len ≤ 2 ^ 61 }
    ensures exact { result ≡ low_end len }
    ensures within { IsWithin (2 ^ 60) result }
    ensures below { result ≤ℤ pos 0 }
{
    -((len / 2) as i64)
}

/// The upper end of a range of this length round 0.
fn high_end(len: u64) -> i64
    requires { len ≤ 2 ^ 61 }
    ensures exact { result ≡ high_end len }
    ensures within { IsWithin (2 ^ 60) result }
    ensures above { pos 0 ≤ℤ result }
{
    low_end(len) + len as i64
}

/// The range of so many cuts round 0, made larger by so much on both sides.
fn range_round(count: i64, size: i64, gap: i64, by: i64) -> Span
    requires count { IsFrom (pos 1) count }
    requires size { IsFrom (pos 1) size }
    requires gap { IsFrom (pos 0) gap }
    requires by { IsFrom (pos 0) by }
    ensures exact { result ≡ range_of (extent count size gap) by }
    ensures lo { IsWithin (2 ^ 60 + 2 ^ 30) result.lo }
    ensures hi { IsWithin (2 ^ 60 + 2 ^ 30) result.hi }
    ensures ordered { result.lo ≤ℤ result.hi }
{
    let len = extent(count, size, gap);
    let low = low_end(len);
    let high = high_end(len);
    Span {
        lo: low - by,
        hi: high + by,
    }
}

/// The rectangle round all cuts, made larger by `dx` on the left and on the right, and by `dy` below
/// and above.
fn enclosing(form: &Generated, dx: i64, dy: i64) -> Rect
    requires form { IsForm form.now }
    requires dx { IsFrom (pos 0) dx }
    requires dy { IsFrom (pos 0) dy }
    ensures exact { result ≡ enclosing form.now dx dy }
    ensures within { AreSidesWithin (2 ^ 60 + 2 ^ 30) result }
{
    let x = range_round(form.columns, form.cut.0, form.spacing.0, dx);
    let y = range_round(form.rows, form.cut.1, form.spacing.1, dy);
    Rect {
        xl: x.lo,
        yl: y.lo,
        xh: x.hi,
        yh: y.hi,
    }
}

/// How far cut k of so many begins behind the first one.
fn offset(count: i64, k: u64, size: i64, gap: i64) -> u64
    requires count { IsFrom (pos 1) count }
    requires size { IsFrom (pos 1) size }
    requires gap { IsFrom (pos 0) gap }
    requires k { k < unsigned_abs count }
    ensures exact { result ≡ k * (unsigned_abs size + unsigned_abs gap) }
    ensures within { result + unsigned_abs size ≤ extent count size gap }
{
    k * (size as u64 + gap as u64)
}

/// Where cut k of so many begins.
fn place(count: i64, k: u64, size: i64, gap: i64) -> i64
    requires count { IsFrom (pos 1) count }
    requires size { IsFrom (pos 1) size }
    requires gap { IsFrom (pos 0) gap }
    requires k { k < unsigned_abs count }
    ensures exact { result ≡ place_of (extent count size gap) k size gap }
    ensures within { IsWithin (2 ^ 60) result }
{
    let len = extent(count, size, gap);
    low_end(len) + offset(count, k, size, gap) as i64
}

/// The range of cut k of so many.
fn range_at(count: i64, k: u64, size: i64, gap: i64) -> Span
    requires count { IsFrom (pos 1) count }
    requires size { IsFrom (pos 1) size }
    requires gap { IsFrom (pos 0) gap }
    requires k { k < unsigned_abs count }
    ensures exact { result ≡ cut_range_of (extent count size gap) k size gap }
    ensures lo { IsWithin (2 ^ 60 + 2 ^ 30) result.lo }
    ensures hi { IsWithin (2 ^ 60 + 2 ^ 30) result.hi }
    ensures ordered { result.lo ≤ℤ result.hi }
{
    let lo = place(count, k, size, gap);
    Span { lo, hi: lo + size }
}

/// A cut, by its row and its column.
fn cut(form: &Generated, row: u64, column: u64) -> Rect
    requires form { IsForm form.now }
    requires row { row < unsigned_abs form.now.rows }
    requires column { column < unsigned_abs form.now.columns }
    ensures exact { result ≡ cut_of form.now row column }
    ensures within { AreSidesWithin (2 ^ 60 + 2 ^ 30) result }
{
    let x = range_at(form.columns, column, form.cut.0, form.spacing.0);
    let y = range_at(form.rows, row, form.cut.1, form.spacing.1);
    Rect {
        xl: x.lo,
        yl: y.lo,
        xh: x.hi,
        yh: y.hi,
    }
}

/// Adds the cuts of a row, from the left.
fn add_row(out: &mut Vec<(LayerNo, Rect)>, form: &Generated, row: u64) -> Result<(), Memory>
    requires form { IsForm form.now }
    requires row { row < unsigned_abs form.now.rows }
    ensures exact { OnOk result (out.new.items ≡ out.old.items ++ row_of form.now row) }
    ensures within { All (λ (r : OnLayer × Sides). AreSidesWithin (2 ^ 60 + 2 ^ 30) r.1) out.old.items → All (λ (r : OnLayer × Sides). AreSidesWithin (2 ^ 60 + 2 ^ 30) r.1) out.new.items }
{
    for column in 0..form.columns as u64 {
        out.push((form.layers.1, cut(form, row, column)))?;
    }
    Ok(())
}

/// The rectangles of a generated via, the middle of its cuts at (0, 0): the one on the bottom
/// layer, the one on the top layer, then the cuts row by row, bottom up and left to right. All the
/// memory is asked for before the first is written.
pub fn generated_rects(alloc: Global, form: &Generated) -> Result<Vec<(LayerNo, Rect)>, Memory>
    requires { IsForm form.now }
    ensures value { IfOk result (λ v. v.items ≡ generated_of form.now) }
    ensures within { IfOk result (λ v. All (λ (r : OnLayer × Sides). AreSidesWithin (2 ^ 60 + 2 ^ 30) r.1) v.items) }
{
    let (bottom_x, bottom_y, top_x, top_y) = form.enclosure;
    let rows = form.rows as u64;
    let cuts = rows * form.columns as u64;
    let mut out = Vec::with_capacity(alloc, cuts as usize + 2)?;
    out.push((form.layers.0, enclosing(form, bottom_x, bottom_y)))?;
    out.push((form.layers.2, enclosing(form, top_x, top_y)))?;
    for row in 0..rows {
        add_row(&mut out, form, row)?;
    }
    Ok(out)
}
