//! Whether marks have to be known.
ghost use Rattle.std.specs.Prelude.{◌≡◌, ◌<◌, length};
ghost use Rattle.std.specs.Bool.{OnTrue};
ghost use Rattle.label_arena.specs.Plain.{factor_at, IsJoined};
ghost use Rattle.interval_label.specs.Known.{AreEven};

use crate::slide::run_of;
use label_arena::{Arena, IntervalNo};

/// What a step costs on an interval.
pub fn factor(arena: &Arena, no: IntervalNo) -> u64
    requires { no.0 < length arena.now.graph.intervals }
    ensures { result ≡ factor_at arena.now.graph no.0 }
{
    arena.interval(no).factor
}

/// Whether each run joins intervals of one factor.
pub fn is_even(arena: &Arena) -> bool
    requires { IsJoined arena.now.graph }
    ensures { OnTrue result (AreEven arena.now.graph) }
{
    let counts = arena.counts();
    'runs: for k in 0..counts[2] {
        let run = run_of(arena, k);
        let near = factor(arena, run.a);
        let far = factor(arena, run.b);
        if near != far {
            return false;
        }
    }
    true
}
