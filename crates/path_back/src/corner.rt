//! Corners of a walk.
ghost use Rattle.std.specs.Prelude.{◌<◌, length, IfOk};
ghost use Rattle.label_arena.specs.Traces.{AreTraced};
ghost use Rattle.path_back.specs.Corners.{IsWayBack};

use label_arena::{Arena, By, LabelNo, Place};
use rt_base::Memory;
use std::alloc::Global;

/// A place of a walk, and how the walk came there. The first corner is a source.
#[derive(Clone, Copy, Debug, PartialEq, Eq)]
pub struct Corner {
    pub place: Place,
    pub by: By,
}

/// The corners of the walk that a label stands for, from a source to the label's own place. Each
/// label of the arena without an origin has to be a source, whose distance is the source's cost, and
/// each other one has to be reached from an earlier label, its origin, by a slide and then what its
/// `by` names, at the cost by which its distance is larger. `Memory` comes for want of memory alone.
pub fn recover(alloc: Global, arena: &Arena, label: LabelNo) -> Result<Vec<Corner>, Memory>
    requires label { label.0 < length arena.now.labels }
    requires traced { AreTraced arena.now.graph arena.now.labels }
    ensures { IfOk result (λ corners. IsWayBack arena.now.graph arena.now.labels label.0 corners.items) }
{
    let mut corners = Vec::new(alloc);
    let mut at = label;
    'back: loop {
        let label = arena.label(at);
        corners.push(Corner {
            place: label.place,
            by: label.by,
        })?;
        match label.origin {
            Some(origin) => at = origin,
            None => {
                corners.reverse();
                return Ok(corners);
            }
        }
    }
}
