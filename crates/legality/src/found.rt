//! Collecting the forbidden spans of shapes.
ghost use Rattle.std.specs.Prelude.{◌≡◌, ◌&&◌, ◌^◌, OnOk, All};
ghost use Rattle.std.specs.List.{list_any};
ghost use Rattle.rt_base.specs.Ranges.{AreSidesWithin};
ghost use Rattle.legality.specs.Forbidden.{is_near_at, IsMover};
ghost use Rattle.legality.specs.Found.{Adds};

use crate::mover::Mover;
use rt_base::{Memory, Shape, Span};
use shape_grid::ShapeTest;

/// Adds the forbidden span of a shape that passes a test.
fn push_one<T: ShapeTest>(
    found: &mut Vec<Span>,
    mover: &Mover,
    test: &T,
    shape: &Shape,
) -> Result<(), Memory>
    requires mover { IsMover mover.now }
    requires shape { AreSidesWithin (2 ^ 61) shape.now.rect }
    ensures { OnOk result (Adds (λ z. T.verdict test.now shape.now && is_near_at mover.now shape.now.rect z) found.old.items found.new.items) }
{
    if !test.passes(shape) {
        return Ok(());
    }
    match mover.forbidden(&shape.rect) {
        Some(span) => {
            found.push(span)?;
            Ok(())
        }
        None => Ok(()),
    }
}

/// Adds the forbidden spans of the shapes that pass a test. The only error is want of memory.
pub fn push_forbidden<T: ShapeTest>(
    found: &mut Vec<Span>,
    mover: &Mover,
    test: &T,
    shapes: &[Shape],
) -> Result<(), Memory>
    requires mover { IsMover mover.now }
    requires shapes { All (λ s. AreSidesWithin (2 ^ 61) s.rect) shapes.now }
    ensures { OnOk result (Adds (λ z. list_any (λ s. T.verdict test.now s && is_near_at mover.now s.rect z) shapes.now) found.old.items found.new.items) }
{
    for shape in shapes {
        push_one(found, mover, test, shape)?;
    }
    Ok(())
}
