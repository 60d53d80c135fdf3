//! Arrays of vias in special wiring.
ghost use Rattle.std.specs.Prelude.{◌≡◌, ◌<◌, ◌++◌, ◌^◌, ◌≤◌, pos, unsigned_abs, length, All, IfOk, OnOk, IfSome, codes};
ghost use Rattle.rt_base.specs.Ranges.{IsPointWithin};
ghost use Rattle.rt_forms.specs.Clauses.{Reads, Looks};
ghost use Rattle.def_wires.specs.Faults.{wire_faults};
ghost use Rattle.def_wires.specs.Sound.{IsArray, IsStep, IsLength};
ghost use Rattle.def_wires.specs.Paths.{orient as orient_form, array as array_form, optional_array as optional_array_form, copy_point as copy_point_of, copies_of_row, copies_of};

use crate::error::WireFault;
use crate::wiring::{Spot, WireStep};
use crate::words::{Words, number, number_from, orient_next};
use rt_base::{Memory, Orient, Point, Seq};

/// So many columns and rows of copies of a via, at these steps (DO n BY m STEP sx sy).
#[derive(Clone, Copy)]
pub struct Array {
    pub columns: i64,
    pub rows: i64,
    pub step: Point,
}

/// An orientation, or N where none stands there.
#[tactic(auto, unfolding(crate::specs::Paths::orient))]
pub fn orient(words: &mut Words) -> Result<Orient, WireFault>
    ensures { Looks wire_faults (λ x. x) result words.old words.new orient_form }
{
    match orient_next(words) {
        None => Ok(Orient::N),
        Some(orient) => {
            words.next()?;
            Ok(orient)
        }
    }
}

/// `n BY m STEP sx sy` behind DO.
#[tactic(auto, unfolding(crate::specs::Paths::array))]
fn read_array(words: &mut Words) -> Result<Array, WireFault>
    ensures reads { Reads wire_faults (λ x. x) result words.old words.new array_form }
    ensures sound { IfOk result (λ a. IsArray a) }
{
    let columns = number_from(words, 1)?;
    words.expect(b"BY")?;
    let rows = number_from(words, 1)?;
    words.expect(b"STEP")?;
    let x = number(words)?;
    let y = number(words)?;
    Ok(Array {
        columns,
        rows,
        step: Point { x, y },
    })
}

/// An array behind a via of special wiring, if there is one.
#[tactic(auto, unfolding(crate::specs::Paths::optional_array))]
pub fn optional_array(words: &mut Words, special: bool) -> Result<Option<Array>, WireFault>
    ensures reads { Looks wire_faults (λ x. x) result words.old words.new (optional_array_form special) }
    ensures sound { IfOk result (λ a. IfSome a IsArray) }
{
    if special && words.at(b"DO") {
        words.next()?;
        let array = read_array(words)?;
        return Ok(Some(array));
    }
    Ok(None)
}

/// Where copy `column` of a row stands.
fn copy_point(from: Point, array: &Array, row: u64, column: u64) -> Point
    requires from { IsPointWithin (2 ^ 30) from }
    requires array { IsArray array.now }
    requires row { row < unsigned_abs array.now.rows }
    requires column { column < unsigned_abs array.now.columns }
    ensures value { result ≡ copy_point_of from array.now.step row column }
    ensures within { IsPointWithin (2 ^ 61) result }
{
    Point {
        x: from.x + column as i64 * array.step.x,
        y: from.y + row as i64 * array.step.y,
    }
}

/// Adds the copies of a row.
fn add_row(
    steps: &mut Seq<WireStep>,
    array: &Array,
    spot: Spot,
    via: u32,
    orient: Orient,
    row: u64,
) -> Result<(), Memory>
    requires array { IsArray array.now }
    requires point { IsPointWithin (2 ^ 30) spot.point }
    requires row { row < unsigned_abs array.now.rows }
    ensures { OnOk result (steps.new ≡ steps.old ++ copies_of_row array.now spot via orient row) }
{
    for column in 0..array.columns as u64 {
        let point = copy_point(spot.point, array, row, column);
        steps.push(WireStep::Start {
            layer: spot.layer,
            point,
            ext: None,
        })?;
        steps.push(WireStep::Via { via, orient })?;
    }
    Ok(())
}

/// Adds all copies of an array, row by row. The memory for them is asked for first.
pub fn add_copies(
    steps: &mut Seq<WireStep>,
    array: &Array,
    spot: Spot,
    via: u32,
    orient: Orient,
) -> Result<(), Memory>
    requires array { IsArray array.now }
    requires point { IsPointWithin (2 ^ 30) spot.point }
    ensures { OnOk result (steps.new ≡ steps.old ++ copies_of array.now spot via orient) }
{
    let rows = array.rows as u64;
    let copies = rows * array.columns as u64;
    steps.items.reserve(copies as usize * 2 + 1)?;
    for row in 0..rows {
        add_row(steps, array, spot, via, orient, row)?;
    }
    Ok(())
}
