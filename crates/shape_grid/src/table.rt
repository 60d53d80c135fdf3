//! The shapes of one size, in buckets by their cells.
ghost use Rattle.std.specs.Prelude.{◌≡◌, ◌∷◌, ◌++◌, ◌+◌, ◌*◌, ◌%◌, ◌^◌, ◌<◌, ◌≤◌, ◌&&◌, ℕ, [], false, true, length, filter, slice_index_or, Contains, All, IsTrue, ◌↔◌, OnOk, OnErr, IfOk, IfSome};
ghost use Rattle.std.specs.Bool.{OnTrue, OnFalse};
ghost use Rattle.std.specs.List.{list_any};
ghost use Rattle.std.specs.List.Sorted.{IsPermutation};
ghost use Rattle.shape_grid.specs.Stores.{is_touching};
ghost use Rattle.shape_grid.specs.Cells.{Suits, Seen, all_of};

use crate::size::{
    Reach, Size, Stretch, across, bucket, is_among, power, reach_over, upward, wrap,
};
use crate::store::ShapeTest;
use crate::touch::{any_touching, take_from, touching_into};
use rt_base::{LayerNo, Memory, Rect, Seq, Shape};
use std::alloc::Global;
use std::marker::Model;

/// How many shapes a bucket has, on the average, before there are twice as many buckets.
const CROWD: usize = 5;

/// The greatest binary logarithm of the number of columns or of rows.
const MOST: u32 = 20;

/// No cells.
const NOWHERE: Stretch = Stretch {
    first: u64::MAX,
    last: 0,
};

/// The binary logarithms of the numbers of columns and of rows of buckets.
#[derive(Clone, Copy, Debug)]
pub struct Bits {
    pub columns: u32,
    pub rows: u32,
}

/// The shapes of one size, in columns and rows of buckets that come round. Contracts see it as its
/// size and the list of its shapes. It keeps how many shapes there are and between which cells they
/// have stood.
#[derive(Drop)]
pub struct Table {
    size: Size,
    bits: Bits,
    buckets: Vec<Seq<Shape>>,
    count: usize,
    side: Stretch,
    up: Stretch,
}

impl Model for Table {
    ghost use Rattle.shape_grid.specs.Cells.{Kept, AreStanding, all_of};

    ghost Value = { Kept };

    ghost view = { λ t. record { size = t.size; shapes = all_of t.buckets.items } };

    ghost invariant = { λ t. AreStanding t.size t.bits.columns t.bits.rows t.buckets.items };
}

/// So many empty buckets. The only error is want of memory.
fn empty_buckets(alloc: Global, count: usize) -> Result<Vec<Seq<Shape>>, Memory>
    ensures many { IfOk result (λ v. length v.items ≡ count) }
    ensures empty { IfOk result (λ v. all_of v.items ≡ []) }
{
    let mut buckets = Vec::new(alloc);
    for _ in 0..count {
        buckets.push(Seq::new(alloc))?;
    }
    Ok(buckets)
}

/// Whether some shape in a column of buckets touches a rectangle and passes a test.
fn any_in_column<T: ShapeTest>(
    buckets: &[Seq<Shape>],
    base: usize,
    rows: u32,
    up: Reach,
    layer: LayerNo,
    rect: &Rect,
    test: &T,
) -> bool
    requires bits { rows ≤ 20 }
    requires room { base + 2 ^ rows ≤ length buckets.now }
    requires first { up.first < 2 ^ rows }
    requires count { up.count ≤ 2 ^ rows }
    ensures found { OnTrue result (list_any (λ s. is_touching layer rect.now s && T.verdict test.now s) (all_of buckets.now) ≡ true) }
    ensures none { OnFalse result ((j : ℕ) → j < up.count → list_any (λ s. is_touching layer rect.now s && T.verdict test.now s) (slice_index_or buckets.now (base + (up.first + j) % 2 ^ rows) []) ≡ false) }
{
    for j in 0..up.count {
        let row = wrap(up.first + j, rows);
        let bucket = &buckets[base + row];
        if any_touching(bucket.as_slice(), layer, rect, test) {
            return true;
        }
    }
    false
}

/// A range of cells made to hold one more.
fn with(cells: Stretch, cell: u64) -> Stretch {
    Stretch {
        first: cells.first.min(cell),
        last: cells.last.max(cell),
    }
}

/// Whether a bucket is in one of these columns and one of these rows.
fn is_seen(b: usize, side: Reach, up: Reach, bits: Bits) -> bool
    requires broad { bits.columns ≤ 20 }
    requires high { bits.rows ≤ 20 }
    requires within { b < 2 ^ bits.columns * 2 ^ bits.rows }
    requires column { side.first < 2 ^ bits.columns }
    requires columns { side.count ≤ 2 ^ bits.columns }
    requires row { up.first < 2 ^ bits.rows }
    requires rows { up.count ≤ 2 ^ bits.rows }
    ensures { OnFalse result (Seen side up bits.columns bits.rows b → ⊥) }
{
    let column = b as u64 >> bits.rows;
    if !is_among(column, side, bits.columns) {
        return false;
    }
    let row = wrap(b as u64, bits.rows) as u64;
    is_among(row, up, bits.rows)
}

/// The same buckets once more. The only error is want of memory.
fn copy_of(alloc: Global, buckets: &[Seq<Shape>]) -> Result<Vec<Seq<Shape>>, Memory>
    ensures { IfOk result (λ v. v.items ≡ buckets.now) }
{
    let mut copies = Vec::new(alloc);
    for bucket in buckets {
        let copy = bucket.as_slice().to_vec(alloc)?;
        copies.push(Seq::from_vec(copy))?;
    }
    Ok(copies)
}

impl Table {
    /// A table with no shapes. The only error is want of memory.
    pub fn new(alloc: Global, size: Size, bits: Bits) -> Result<Table, Memory>
        requires wide { size.wide < 64 }
        requires tall { size.tall < 64 }
        requires broad { bits.columns ≤ 20 }
        requires high { bits.rows ≤ 20 }
        ensures size { IfOk result (λ t. t.size ≡ size) }
        ensures shapes { IfOk result (λ t. t.shapes ≡ []) }
    {
        let buckets = empty_buckets(alloc, power(bits.columns) * power(bits.rows))?;
        Ok(Table {
            size,
            bits,
            buckets,
            count: 0,
            side: NOWHERE,
            up: NOWHERE,
        })
    }

    /// Puts a shape of the size into its bucket. After `Memory` the table is as it was.
    pub fn put(&mut self, shape: Shape) -> Result<(), Memory>
        requires { Suits self.old.size shape }
        ensures size { self.new.size ≡ self.old.size }
        ensures ok { OnOk result (IsPermutation (shape ∷ self.old.shapes) self.new.shapes) }
        ensures err { OnErr result (self.new.shapes ≡ self.old.shapes) }
    {
        let at = bucket(self.size, self.bits.columns, self.bits.rows, &shape.rect);
        let bucket = &mut self.buckets[at];
        bucket.push(shape)
    }

    /// Takes one equal shape out; false where there is none.
    pub fn take(&mut self, shape: &Shape) -> bool
        ensures size { self.new.size ≡ self.old.size }
        ensures found { OnTrue result (IsPermutation (shape.now ∷ self.new.shapes) self.old.shapes) }
        ensures absent { OnFalse result (Contains self.old.shapes shape.now → ⊥) }
        ensures same { OnFalse result (self.new.shapes ≡ self.old.shapes) }
    {
        let at = bucket(self.size, self.bits.columns, self.bits.rows, &shape.rect);
        let bucket = &mut self.buckets[at];
        take_from(bucket, shape)
    }

    /// Whether some shape that touches a rectangle passes a test.
    pub fn any_near<T: ShapeTest>(&self, layer: LayerNo, rect: &Rect, test: &T) -> bool
        ensures { result ≡ list_any (λ s. is_touching layer rect.now s && T.verdict test.now s) self.now.shapes }
    {
        if self.size.layer.0 != layer.0 {
            return false;
        }
        let side = reach_over(across(rect, self.size.wide), self.bits.columns);
        let up = reach_over(upward(rect, self.size.tall), self.bits.rows);
        let height = power(self.bits.rows);
        for i in 0..side.count {
            let column = wrap(side.first + i, self.bits.columns);
            let base = column * height;
            if any_in_column(
                self.buckets.as_slice(),
                base,
                self.bits.rows,
                up,
                layer,
                rect,
                test,
            ) {
                return true;
            }
        }
        false
    }

    /// Adds the shapes that touch a rectangle to what was found. The only error is want of memory.
    pub fn near_into(
        &self,
        found: &mut Vec<Shape>,
        layer: LayerNo,
        rect: &Rect,
    ) -> Result<(), Memory>
        ensures { OnOk result (found.new.items ≡ found.old.items ++ filter (is_touching layer rect.now) self.now.shapes) }
    {
        if self.size.layer.0 != layer.0 {
            return Ok(());
        }
        let side = reach_over(across(rect, self.size.wide), self.bits.columns);
        let up = reach_over(upward(rect, self.size.tall), self.bits.rows);
        for b in 0..self.buckets.len() {
            let bucket = &self.buckets[b];
            if is_seen(b, side, up, self.bits) {
                touching_into(found, bucket.as_slice(), layer, rect)?;
            }
        }
        Ok(())
    }

    /// Puts shapes of the size into their buckets. The only error is want of memory.
    fn put_all(&mut self, shapes: &[Shape]) -> Result<(), Memory>
        requires { All (Suits self.old.size) shapes.now }
        ensures size { self.new.size ≡ self.old.size }
        ensures ok { OnOk result (IsPermutation (shapes.now ++ self.old.shapes) self.new.shapes) }
    {
        for shape in shapes {
            self.put(*shape)?;
        }
        Ok(())
    }

    /// Puts all shapes into another table of the size. The only error is want of memory.
    fn pour(&self, into: &mut Table) -> Result<(), Memory>
        requires { into.old.size ≡ self.now.size }
        ensures size { into.new.size ≡ into.old.size }
        ensures ok { OnOk result (IsPermutation (self.now.shapes ++ into.old.shapes) into.new.shapes) }
    {
        for bucket in &self.buckets {
            into.put_all(bucket.as_slice())?;
        }
        Ok(())
    }

    /// The same shapes in other numbers of columns and rows. The only error is want of memory.
    fn spread(&self, alloc: Global, bits: Bits) -> Result<Table, Memory>
        requires broad { bits.columns ≤ 20 }
        requires high { bits.rows ≤ 20 }
        ensures size { IfOk result (λ t. t.size ≡ self.now.size) }
        ensures shapes { IfOk result (λ t. IsPermutation self.now.shapes t.shapes) }
    {
        let mut table = Table::new(alloc, self.size, bits)?;
        self.pour(&mut table)?;
        table.count = self.count;
        table.side = self.side;
        table.up = self.up;
        Ok(table)
    }

    /// Twice as many columns or rows where the buckets are crowded and the cells come round.
    fn wider(&self) -> Option<Bits>
        ensures broad { IfSome result (λ b. b.columns ≤ 20) }
        ensures high { IfSome result (λ b. b.rows ≤ 20) }
    {
        let Bits { columns, rows } = self.bits;
        if self.count >> (columns + rows) < CROWD {
            return None;
        }
        let across = self.side.last.saturating_sub(self.side.first) >> columns;
        let upward = self.up.last.saturating_sub(self.up.first) >> rows;
        if across >= upward && across > 0 && columns < MOST {
            return Some(Bits {
                columns: columns + 1,
                rows,
            });
        }
        if upward > 0 && rows < MOST {
            return Some(Bits {
                columns,
                rows: rows + 1,
            });
        }
        None
    }

    /// Notes that a shape at a rectangle has come in.
    fn note(&mut self, rect: &Rect)
        ensures { self.new ≡ self.old }
    {
        self.count = self.count.saturating_add(1);
        self.side = with(self.side, across(rect, self.size.wide).first);
        self.up = with(self.up, upward(rect, self.size.tall).first);
    }

    /// Makes more buckets where they are crowded, if memory lasts.
    fn grow(&mut self, alloc: Global)
        ensures size { self.new.size ≡ self.old.size }
        ensures shapes { IsPermutation self.old.shapes self.new.shapes }
    {
        let Some(bits) = self.wider() else {
            return;
        };
        if let Ok(table) = self.spread(alloc, bits) {
            *self = table;
        }
    }

    /// Adds a shape of the size. After `Memory` the table is as it was.
    pub fn add(&mut self, alloc: Global, shape: Shape) -> Result<(), Memory>
        requires { Suits self.old.size shape }
        ensures size { self.new.size ≡ self.old.size }
        ensures ok { OnOk result (IsPermutation (shape ∷ self.old.shapes) self.new.shapes) }
        ensures err { OnErr result (self.new.shapes ≡ self.old.shapes) }
    {
        self.put(shape)?;
        self.note(&shape.rect);
        self.grow(alloc);
        Ok(())
    }

    /// Takes one equal shape out; false, and the table is as it was, exactly where there is none.
    pub fn remove(&mut self, shape: &Shape) -> bool
        ensures size { self.new.size ≡ self.old.size }
        ensures found { OnTrue result (IsPermutation (shape.now ∷ self.new.shapes) self.old.shapes) }
        ensures absent { OnFalse result (Contains self.old.shapes shape.now → ⊥) }
        ensures same { OnFalse result (self.new ≡ self.old) }
    {
        if self.size.layer.0 != shape.layer.0 {
            return false;
        }
        let found = self.take(shape);
        if found {
            self.count = self.count.saturating_sub(1);
        }
        found
    }

    /// The same table once more. The only error is want of memory.
    pub fn copy(&self, alloc: Global) -> Result<Table, Memory>
        ensures { IfOk result (λ t. t ≡ self.now) }
    {
        let buckets = copy_of(alloc, self.buckets.as_slice())?;
        Ok(Table {
            size: self.size,
            bits: self.bits,
            buckets,
            count: self.count,
            side: self.side,
            up: self.up,
        })
    }

    /// Whether the shapes are of a size.
    pub fn is_of(&self, size: &Size) -> bool
        ensures { IsTrue result ↔ (self.now.size ≡ size.now) }
    {
        self.size.is(size)
    }
}
