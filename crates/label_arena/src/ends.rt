//! On which intervals bridges and runs end.
ghost use Rattle.std.specs.Prelude.{◌≡◌, ◌++◌, [], OnOk};
ghost use Rattle.label_arena.specs.Keeping.{bridge_ends, ends_of, run_ends};

use crate::group::End;
use crate::place::{Bridge, IntervalNo, Run};
use rt_base::Memory;

/// Adds the ends of the bridge or run with this number. One that has both ends on one interval has
/// one end.
fn add_ends(ends: &mut Vec<End>, a: IntervalNo, b: IntervalNo, no: u64) -> Result<(), Memory>
    ensures { OnOk result (ends.new.items ≡ ends.old.items ++ ends_of a.0 b.0 no []) }
{
    ends.push(End { row: a.0, no })?;
    if a != b {
        ends.push(End { row: b.0, no })?;
    }
    Ok(())
}

/// Lists the ends of the bridges.
pub fn end_bridges(ends: &mut Vec<End>, bridges: &[Bridge]) -> Result<(), Memory>
    ensures { OnOk result (ends.new.items ≡ bridge_ends 0 bridges.now) }
{
    ends.clear();
    'bridges: for (no, bridge) in bridges.iter().enumerate() {
        add_ends(ends, bridge.a.interval, bridge.b.interval, no as u64)?;
    }
    Ok(())
}

/// Lists the ends of the runs.
pub fn end_runs(ends: &mut Vec<End>, runs: &[Run]) -> Result<(), Memory>
    ensures { OnOk result (ends.new.items ≡ run_ends 0 runs.now) }
{
    ends.clear();
    'runs: for (no, run) in runs.iter().enumerate() {
        add_ends(ends, run.a, run.b, no as u64)?;
    }
    Ok(())
}
