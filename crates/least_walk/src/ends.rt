//! Where walks may finish.
ghost use Rattle.std.specs.Prelude.{◌≡◌, ◌≤◌, ◌<◌, ◌+◌, ◌*◌, length, OnOk, option_map};
ghost use Rattle.least_walk.specs.Labels.{dist_at, most_cost};
ghost use Rattle.least_walk.specs.Ends.{IsEnds, IsImproved};

use crate::graph::Stop;
use crate::known::Known;
use crate::label::{Best, Search};
use rt_base::Memory;

/// Notes a target at its vertex, unless one there costs no more.
fn note_end(ends: &mut Known, targets: &[Stop], place: usize) -> Result<(), Memory>
    requires ends { IsEnds targets.now place ends.old }
    requires place { place < length targets.now }
    ensures { OnOk result (IsEnds targets.now (place + 1) ends.new) }
{
    let target = targets[place];
    if let Some(noted) = ends.get(target.entry.vertex) {
        if targets[noted].cost <= target.cost {
            return Ok(());
        }
    }
    ends.set(target.entry.vertex, place)?;
    Ok(())
}

/// Notes a cheapest target at each vertex that has one.
pub fn note_ends(ends: &mut Known, targets: &[Stop]) -> Result<(), Memory>
    ensures { OnOk result (IsEnds targets.now (length targets.now) ends.new) }
{
    ends.clear();
    for place in 0..targets.len() {
        note_end(ends, targets, place)?;
    }
    Ok(())
}

/// What a walk may not cost.
pub fn limit_of(best: Option<Best>) -> Option<u128>
    ensures { result ≡ option_map (λ b. b.cost) best }
{
    match best {
        Some(best) => Some(best.cost),
        None => None,
    }
}

impl Search {
    /// The better of the best so far and the targets at the vertex of a label.
    pub fn improve(
        &self,
        ends: &Known,
        targets: &[Stop],
        number: usize,
        best: Option<Best>,
    ) -> Option<Best>
        requires ends { IsEnds targets.now (length targets.now) ends.now }
        requires number { number < length self.now.labels.items }
        requires small { dist_at self.now.labels.items number ≤ most_cost * (most_cost + 1) }
        ensures { IsImproved self.now targets.now number best result }
    {
        let label = self.labels[number];
        let Some(place) = ends.get(label.vertex) else {
            return best;
        };
        let target = targets[place];
        let cost = label.dist + target.cost as u128;
        if let Some(so_far) = best {
            if so_far.cost <= cost {
                return best;
            }
        }
        Some(Best {
            cost,
            number,
            target,
        })
    }
}
