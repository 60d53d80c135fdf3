//! Shapes of a list that touch a rectangle.
ghost use Rattle.std.specs.Prelude.{◌≡◌, ◌∷◌, ◌++◌, ◌<◌, ◌==◌, ◌↔◌, IsTrue, ◌&&◌, Contains, int_le, OnOk, IfOk, IfSome, IfNone, filter, length, slice_index_or};
ghost use Rattle.std.specs.Bool.{OnTrue, OnFalse};
ghost use Rattle.std.specs.List.{list_any};
ghost use Rattle.std.specs.List.Sorted.{IsPermutation};
ghost use Rattle.shape_grid.specs.Stores.{is_touching};

use crate::store::ShapeTest;
use rt_base::{LayerNo, Memory, Owner, Rect, Seq, Shape};
use std::alloc::Global;

/// Whether a shape is on the layer and the ranges in x have a point in common.
fn touches_in_x(shape: &Shape, layer: LayerNo, rect: &Rect) -> bool
    ensures { result ≡ ((shape.now.layer.0 == layer.0) && int_le rect.now.xl shape.now.rect.xh && int_le shape.now.rect.xl rect.now.xh) }
{
    if shape.layer.0 != layer.0 {
        return false;
    }
    if shape.rect.xh < rect.xl {
        return false;
    }
    if rect.xh < shape.rect.xl {
        return false;
    }
    true
}

/// Whether a shape is on the layer and touches the closed rectangle.
pub fn touches(shape: &Shape, layer: LayerNo, rect: &Rect) -> bool
    ensures { result ≡ is_touching layer rect.now shape.now }
{
    if !touches_in_x(shape, layer, rect) {
        return false;
    }
    if shape.rect.yh < rect.yl {
        return false;
    }
    if rect.yh < shape.rect.yl {
        return false;
    }
    true
}

/// The shapes that touch a rectangle, in their order. The only error is want of memory.
pub fn touching(
    alloc: Global,
    shapes: &[Shape],
    layer: LayerNo,
    rect: &Rect,
) -> Result<Vec<Shape>, Memory>
    ensures { IfOk result (λ found. found.items ≡ filter (is_touching layer rect.now) shapes.now) }
{
    let mut found = Vec::new(alloc);
    touching_into(&mut found, shapes, layer, rect)?;
    Ok(found)
}

/// Whether some shape that touches a rectangle passes a test.
pub fn any_touching<T: ShapeTest>(shapes: &[Shape], layer: LayerNo, rect: &Rect, test: &T) -> bool
    ensures { result ≡ list_any (λ s. is_touching layer rect.now s && T.verdict test.now s) shapes.now }
{
    shapes
        .iter()
        .any(|s| touches(s, layer, rect) && test.passes(s))
}

/// Whether two owners are equal.
fn is_same_owner(one: Owner, other: Owner) -> bool
    ensures { IsTrue result ↔ (one ≡ other) }
{
    match one {
        Owner::Net(net) => {
            match other {
                Owner::Net(with) => net == with,
                Owner::Nobody => false,
            }
        }
        Owner::Nobody => {
            match other {
                Owner::Net(_) => false,
                Owner::Nobody => true,
            }
        }
    }
}

/// Whether two rectangles are equal.
fn is_same_rect(one: &Rect, other: &Rect) -> bool
    ensures { IsTrue result ↔ (one.now ≡ other.now) }
{
    if one.xl != other.xl {
        return false;
    }
    if one.yl != other.yl {
        return false;
    }
    if one.xh != other.xh {
        return false;
    }
    if one.yh != other.yh {
        return false;
    }
    true
}

/// Whether two shapes are equal.
fn is_same(one: &Shape, other: &Shape) -> bool
    ensures { IsTrue result ↔ (one.now ≡ other.now) }
{
    if one.layer.0 != other.layer.0 {
        return false;
    }
    if one.fixed != other.fixed {
        return false;
    }
    if !is_same_owner(one.owner, other.owner) {
        return false;
    }
    if !is_same_rect(&one.rect, &other.rect) {
        return false;
    }
    true
}

/// Where the first equal shape stands in a list, or none where there is none.
pub fn place_of(shapes: &[Shape], shape: &Shape) -> Option<usize>
    ensures within { IfSome result (λ i. i < length shapes.now) }
    ensures found { IfSome result (λ i. shape.now ≡ slice_index_or shapes.now i shape.now) }
    ensures absent { IfNone result (Contains shapes.now shape.now → ⊥) }
{
    shapes.iter().position(|s| is_same(s, shape))
}

/// Takes one equal shape out; false where there is none.
pub fn take_from(kept: &mut Seq<Shape>, shape: &Shape) -> bool
    ensures found { OnTrue result (IsPermutation (shape.now ∷ kept.new) kept.old) }
    ensures absent { OnFalse result (Contains kept.old shape.now → ⊥) }
    ensures same { OnFalse result (kept.new ≡ kept.old) }
{
    let Some(place) = place_of(kept.as_slice(), shape) else {
        return false;
    };
    kept.items.swap_remove(place);
    true
}

/// Adds the shapes of a list that touch a rectangle to what was found. The only error is want of
/// memory.
pub fn touching_into(
    found: &mut Vec<Shape>,
    shapes: &[Shape],
    layer: LayerNo,
    rect: &Rect,
) -> Result<(), Memory>
    ensures { OnOk result (found.new.items ≡ found.old.items ++ filter (is_touching layer rect.now) shapes.now) }
{
    for shape in shapes {
        if touches(shape, layer, rect) {
            found.push(*shape)?;
        }
    }
    Ok(())
}
