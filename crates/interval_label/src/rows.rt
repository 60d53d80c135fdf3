//! Rows by interval.
ghost use Rattle.std.specs.Prelude.{◌≡◌, ◌<◌, length, [], IfOk, OnOk};
ghost use Rattle.interval_label.specs.Known.{AreEmpty, HoldStops, RowGains, row_at};
ghost use Rattle.interval_label.specs.Task.{AreStops};

use label_arena::{Arena, IntervalNo, Place};
use rt_base::{Memory, Seq};
use std::alloc::Global;

/// The row of an interval.
pub fn row_of<T>(rows: &Seq<Seq<T>>, no: IntervalNo) -> &[T]
    requires { no.0 < length rows.now }
    ensures { result.now ≡ row_at rows.now no.0 }
{
    rows.as_slice()[no.0 as usize].as_slice()
}

/// Empty rows, as many as the arena has intervals.
pub fn empty_rows<T: Drop>(alloc: Global, arena: &Arena) -> Result<Seq<Seq<T>>, Memory>
    ensures { IfOk result (λ rows. AreEmpty rows (length arena.now.graph.intervals)) }
{
    let counts = arena.counts();
    let mut rows = Seq::new(alloc);
    'rows: for _n in 0..counts[0] {
        rows.push(Seq::new(alloc))?;
    }
    Ok(rows)
}

/// Adds an item to the row of an interval.
pub fn add_to<T: Drop>(rows: &mut Seq<Seq<T>>, no: IntervalNo, item: T) -> Result<(), Memory>
    requires { no.0 < length rows.old }
    ensures ok { OnOk result (RowGains rows.old rows.new no.0 item) }
{
    rows.items[no.0 as usize].push(item)?;
    Ok(())
}

/// The numbers of the targets on each interval.
pub fn stops_of(
    alloc: Global,
    arena: &Arena,
    targets: &[(Place, u64)],
) -> Result<Seq<Seq<u64>>, Memory>
    requires { AreStops arena.now.graph targets.now }
    ensures { IfOk result (HoldStops arena.now.graph targets.now) }
{
    let mut rows = empty_rows(alloc, arena)?;
    'targets: for k in 0..targets.len() {
        let (place, _own) = targets[k];
        add_to(&mut rows, place.interval, k as u64)?;
    }
    Ok(rows)
}
