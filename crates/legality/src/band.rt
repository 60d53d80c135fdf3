//! Shapes near each other across a level's direction.
ghost use Rattle.std.specs.Prelude.{◌≡◌, ◌∷◌, ◌&&◌, ◌^◌, [], Contains, IsTrue, ◌↔◌, OnOk, OnErr, IfOk};
ghost use Rattle.std.specs.Bool.{OnTrue, OnFalse};
ghost use Rattle.std.specs.List.{list_any};
ghost use Rattle.std.specs.List.Sorted.{IsPermutation};
ghost use Rattle.rt_base.specs.Ranges.{AreSidesWithin};
ghost use Rattle.legality.specs.Forbidden.{is_near_at, IsMover};
ghost use Rattle.legality.specs.Found.{Adds};
ghost use Rattle.legality.specs.Gaps.{IsInside};

use crate::found::push_forbidden;
use crate::mover::{Mover, extent};
use crate::rule::WireRule;
use rt_base::{Memory, Rect, Seq, Shape, Span};
use shape_grid::{ListStore, ShapeStore, ShapeTest};
use std::alloc::Global;
use std::marker::Model;

/// How many times a wire's width and spacing a band is wide, at least.
const TRACKS: u64 = 4;

/// The least width of a band on a cut layer.
const CUT_BAND: u64 = 1 << 12;

/// Which band a shape goes into: the binary logarithm of the bands' width, and the number of the band
/// in which the shape's lower side across the direction lies.
#[derive(Clone, Copy)]
pub struct Place {
    size: u32,
    number: i64,
}

/// Shapes near each other across a level's direction, and a rectangle that holds them all. Contracts
/// see it as the list of its shapes.
#[derive(Drop)]
pub struct Band {
    place: Place,
    hull: Rect,
    store: ListStore,
}

impl Model for Band {
    ghost use Rattle.std.specs.Prelude.{List};
    ghost use Rattle.rt_base.specs.declared.tech.Shape.{Shape as ShapeOf};
    ghost use Rattle.legality.specs.Rows.{IsHull};

    ghost Value = { List ShapeOf };

    ghost view = { λ b. b.store.kept };

    ghost invariant = { λ b. IsHull b.hull b.store.kept };
}

/// Whether a rectangle lies in another.
fn is_inside(outer: &Rect, inner: &Rect) -> bool
    ensures { IsTrue result ↔ IsInside outer.now inner.now }
{
    if inner.xl < outer.xl || outer.xh < inner.xh {
        return false;
    }
    if inner.yl < outer.yl || outer.yh < inner.yh {
        return false;
    }
    true
}

/// How wide a band beside this rule is, at least.
fn least_width(rule: &Option<WireRule>) -> u64 {
    match rule {
        Some(rule) => {
            let wire = rule.square.xh.abs_diff(rule.square.xl);
            wire.saturating_add(rule.spacing).saturating_mul(TRACKS)
        }
        None => CUT_BAND,
    }
}

/// Where a rectangle beside a rule goes: into bands at least as wide as it is.
pub fn place_of(rule: &Option<WireRule>, rect: &Rect) -> Place {
    let horizontal = match rule {
        Some(rule) => rule.horizontal,
        None => true,
    };
    let across = extent(!horizontal, rect);
    let width = across.hi.abs_diff(across.lo).max(least_width(rule));
    let size = (64 - width.leading_zeros()).min(62);
    Place {
        size,
        number: across.lo >> size,
    }
}

impl Band {
    /// A band with one shape. The only error is want of memory.
    pub fn of(alloc: Global, place: Place, shape: &Shape) -> Result<Band, Memory>
        requires { AreSidesWithin (2 ^ 61) shape.now.rect }
        ensures { IfOk result (λ b. IsPermutation (shape.now ∷ []) b) }
    {
        let mut store = ListStore::new(alloc);
        store.add(*shape)?;
        Ok(Band {
            place,
            hull: shape.rect,
            store,
        })
    }

    /// Whether it is the band for this place.
    pub fn is_at(&self, place: Place) -> bool {
        self.place.number == place.number && self.place.size == place.size
    }

    /// Adds a shape. After `Memory` the band is as it was.
    pub fn put(&mut self, shape: &Shape) -> Result<(), Memory>
        requires { AreSidesWithin (2 ^ 61) shape.now.rect }
        ensures ok { OnOk result (IsPermutation (shape.now ∷ self.old) self.new) }
        ensures err { OnErr result (self.new ≡ self.old) }
    {
        let hull = self.hull.join(shape.rect);
        self.store.add(*shape)?;
        self.hull = hull;
        Ok(())
    }

    /// Takes one equal shape out; false where there is none.
    pub fn take(&mut self, shape: &Shape) -> bool
        ensures found { OnTrue result (IsPermutation (shape.now ∷ self.new) self.old) }
        ensures absent { OnFalse result (Contains self.old shape.now → ⊥) }
        ensures same { OnFalse result (self.new ≡ self.old) }
    {
        if !is_inside(&self.hull, &shape.rect) {
            return false;
        }
        self.store.remove(shape)
    }

    /// The same band once more. The only error is want of memory.
    pub fn copy(&self, alloc: Global) -> Result<Band, Memory>
        ensures { IfOk result (λ b. b ≡ self.now) }
    {
        let kept = self.store.kept.as_slice().to_vec(alloc)?;
        Ok(Band {
            place: self.place,
            hull: self.hull,
            store: ListStore {
                kept: Seq::from_vec(kept),
            },
        })
    }

    /// Adds the forbidden spans of the shapes that pass a test. The only error is want of memory.
    pub fn forbidden_into<T: ShapeTest>(
        &self,
        found: &mut Vec<Span>,
        mover: &Mover,
        test: &T,
    ) -> Result<(), Memory>
        requires { IsMover mover.now }
        ensures { OnOk result (Adds (λ z. list_any (λ s. T.verdict test.now s && is_near_at mover.now s.rect z) self.now) found.old.items found.new.items) }
    {
        if mover.is_clear_of(&self.hull) {
            return Ok(());
        }
        push_forbidden(found, mover, test, self.store.kept.as_slice())
    }
}
