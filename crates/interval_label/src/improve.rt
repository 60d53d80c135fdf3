//! The best walk to a target.
ghost use Rattle.std.specs.Prelude.{◌≡◌, ◌<◌, ◌^◌, length, Contains};
ghost use Rattle.label_arena.specs.Plain.{IsInside};
ghost use Rattle.interval_label.specs.Task.{IsPriced, AreStops};
ghost use Rattle.interval_label.specs.Known.{HoldStops};
ghost use Rattle.interval_label.specs.Search.{IsCheaper, IsImproved};

use crate::rows::row_of;
use crate::search::Best;
use crate::slide::along;
use label_arena::{Arena, Label, Place};
use rt_base::Seq;

/// The cheaper of both.
fn cheaper(best: Option<Best>, next: Best) -> Best
    ensures { IsCheaper best next result }
{
    match best {
        Some(b) if b.cost <= next.cost => b,
        _ => next,
    }
}

/// The best with the slide of a label to a target.
fn offered(
    arena: &Arena,
    targets: &[(Place, u64)],
    number: u64,
    label: Label,
    k: u64,
    best: Option<Best>,
) -> Option<Best>
    requires priced { IsPriced arena.now.graph }
    requires targets { AreStops arena.now.graph targets.now }
    requires inside { IsInside arena.now.graph label.place }
    requires small { label.dist < 2 ^ 62 }
    requires within { k < length targets.now }
    ensures { IsImproved arena.now.graph targets.now label number (λ j. j ≡ k) best result }
{
    let (place, own) = targets[k as usize];
    if label.place.interval.0 != place.interval.0 {
        return best;
    }
    let cost = label.dist + along(arena, label.place, place) + own;
    Some(cheaper(
        best,
        Best {
            cost,
            number,
            target: k,
        },
    ))
}

/// The best with the slides of a label to the targets of its interval.
pub fn improved(
    arena: &Arena,
    targets: &[(Place, u64)],
    stops: &Seq<Seq<u64>>,
    number: u64,
    label: Label,
    best: Option<Best>,
) -> Option<Best>
    requires priced { IsPriced arena.now.graph }
    requires targets { AreStops arena.now.graph targets.now }
    requires stops { HoldStops arena.now.graph targets.now stops.now }
    requires inside { IsInside arena.now.graph label.place }
    requires small { label.dist < 2 ^ 62 }
    ensures { IsImproved arena.now.graph targets.now label number (λ j. j < length targets.now) best result }
{
    let row = row_of(stops, label.place.interval);
    let mut improved = best;
    'targets: for k in row {
        improved = offered(arena, targets, number, label, *k, improved);
    }
    improved
}
