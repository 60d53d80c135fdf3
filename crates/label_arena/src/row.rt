//! The labels of one interval, in the order of their coordinates.
ghost use Rattle.std.specs.Prelude.{◌≡◌, ◌⊎◌, ℕ, ◌++◌, ◌∷◌, ◌<◌, ◌≤◌, ◌≤ℤ◌, ◌<ℤ◌, length, slice_set, [], OnOk, OnErr, All};
ghost use Rattle.std.specs.Bool.{OnFalse, OnTrue};
ghost use Rattle.std.specs.List.{insert as inserted};
ghost use Rattle.label_arena.specs.Rows.{IsSorted, coord_at, coord_of, row_at, rows_of};

use crate::place::{Label, Place};
use rt_base::Memory;
use smallvec::SmallVec;
use std::alloc::Global;

/// Whether a label stands below a place of its interval.
fn is_below(labels: &[Label], no: u64, place: Place) -> bool
    requires { no < length labels.now }
    ensures yes { OnTrue result (coord_of labels.now no <ℤ place.coord) }
    ensures not { OnFalse result (place.coord ≤ℤ coord_of labels.now no) }
{
    labels[no as usize].place.coord < place.coord
}

/// Whether a label stands above a place of its interval.
fn is_above(labels: &[Label], no: u64, place: Place) -> bool
    requires { no < length labels.now }
    ensures yes { OnTrue result (place.coord <ℤ coord_of labels.now no) }
    ensures not { OnFalse result (coord_of labels.now no ≤ℤ place.coord) }
{
    place.coord < labels[no as usize].place.coord
}

/// How many labels of a row stand below a place of their interval.
pub fn count_below(labels: &[Label], row: &[u64], place: Place) -> usize
    requires { IsSorted labels.now row.now }
    ensures within { result ≤ length row.now }
    ensures before { (i : ℕ) → i < result → coord_at labels.now row.now i <ℤ place.coord }
    ensures after { (i : ℕ) → result ≤ i → i < length row.now → place.coord ≤ℤ coord_at labels.now row.now i }
{
    let mut low = 0;
    let mut high = row.len();
    'halves: while low < high {
        let middle = low + (high - low) / 2;
        if is_below(labels, row[middle], place) {
            low = middle + 1;
        } else {
            high = middle;
        }
    }
    low
}

/// How many labels of a row stand at a place of their interval or below it.
pub fn count_up_to(labels: &[Label], row: &[u64], place: Place) -> usize
    requires { IsSorted labels.now row.now }
    ensures within { result ≤ length row.now }
    ensures before { (i : ℕ) → i < result → coord_at labels.now row.now i ≤ℤ place.coord }
    ensures after { (i : ℕ) → result ≤ i → i < length row.now → place.coord <ℤ coord_at labels.now row.now i }
{
    let mut low = 0;
    let mut high = row.len();
    'halves: while low < high {
        let middle = low + (high - low) / 2;
        if is_above(labels, row[middle], place) {
            high = middle;
        } else {
            low = middle + 1;
        }
    }
    low
}

/// Makes an empty row past so many rows, unless there is one.
pub fn add_row(rows: &mut Vec<SmallVec<u64, 2>>, alloc: Global, count: usize) -> Result<(), Memory>
    requires { count ≤ length rows.old.items }
    ensures wide { OnOk result (count < length (rows_of rows.new.items)) }
    ensures rows { (rows_of rows.new.items ≡ rows_of rows.old.items) ⊎ (rows_of rows.new.items ≡ rows_of rows.old.items ++ [] ∷ []) }
{
    if rows.len() == count {
        rows.push(SmallVec::new(alloc))?;
    }
    Ok(())
}

/// Puts a number into a row. After `Memory` all rows are as they were.
pub fn insert(rows: &mut Vec<SmallVec<u64, 2>>, i: usize, at: usize, no: u64) -> Result<(), Memory>
    requires within { i < length rows.old.items }
    requires at { at ≤ length (row_at rows.old.items i) }
    ensures ok { OnOk result (rows_of rows.new.items ≡ slice_set (rows_of rows.old.items) i (inserted (row_at rows.old.items i) at no)) }
    ensures err { OnErr result (rows_of rows.new.items ≡ rows_of rows.old.items) }
{
    rows[i].insert(at, no)?;
    Ok(())
}

/// Empties all rows, and keeps their room.
pub fn clear_all(rows: &mut Vec<SmallVec<u64, 2>>)
    ensures { All (λ row. row ≡ []) (rows_of rows.new.items) }
{
    'rows: for i in 0..rows.len() {
        rows[i].clear();
    }
}
