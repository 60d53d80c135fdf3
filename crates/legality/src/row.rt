//! The shapes of a layer that a technology says the same of.
ghost use Rattle.std.specs.Prelude.{◌≡◌, ◌∷◌, ◌&&◌, ◌^◌, ◌<◌, [], length, Contains, IsTrue, ◌↔◌, OnOk, OnErr, IfOk, IfSome};
ghost use Rattle.std.specs.Bool.{OnTrue, OnFalse};
ghost use Rattle.std.specs.List.{list_any};
ghost use Rattle.std.specs.List.Sorted.{IsPermutation};
ghost use Rattle.rt_base.specs.Ranges.{IsWithin, AreSidesWithin};
ghost use Rattle.legality.specs.Forbidden.{is_near_at, IsMover};
ghost use Rattle.legality.specs.Found.{Adds};
ghost use Rattle.legality.specs.Rows.{in_bands};
ghost use Rattle.legality.specs.Rules.{IsRuleIfAny, rule_forbids};

use crate::band::{Band, Place, place_of};
use crate::mover::Mover;
use crate::rule::WireRule;
use rt_base::{LayerNo, Memory, Shape, Span};
use shape_grid::ShapeTest;
use std::alloc::Global;
use std::marker::Model;

/// The shapes of a layer beside which one rule is kept, in bands across the level's direction.
#[derive(Drop)]
pub struct Row {
    layer: LayerNo,
    rule: Option<WireRule>,
    bands: Vec<Band>,
}

impl Model for Row {
    ghost use Rattle.std.specs.Prelude.{◌≡◌, All};
    ghost use Rattle.legality.specs.Rows.{RowOf, in_bands};
    ghost use Rattle.legality.specs.Rules.{IsRuleIfAny};

    ghost Value = { RowOf };

    ghost view = { λ r. record { layer = r.layer; rule = r.rule; shapes = in_bands r.bands.items } };

    ghost invariant = { λ r. IsRuleIfAny r.rule × All (λ s. s.layer.0 ≡ r.layer.0) (in_bands r.bands.items) };
}

/// Where the band for a place stands, or none where there is none.
fn band_at(bands: &[Band], place: Place) -> Option<usize>
    ensures { IfSome result (λ i. i < length bands.now) }
{
    bands.iter().position(|b| b.is_at(place))
}

/// The same bands once more. The only error is want of memory.
fn copy_of(alloc: Global, bands: &[Band]) -> Result<Vec<Band>, Memory>
    ensures { IfOk result (λ v. v.items ≡ bands.now) }
{
    let mut copies = Vec::new(alloc);
    for band in bands {
        copies.push(band.copy(alloc)?)?;
    }
    Ok(copies)
}

/// Takes one equal shape out of one of the bands; false where there is none.
fn take_from(bands: &mut Vec<Band>, shape: &Shape) -> bool
    ensures found { OnTrue result (IsPermutation (shape.now ∷ in_bands bands.new.items) (in_bands bands.old.items)) }
    ensures absent { OnFalse result (Contains (in_bands bands.old.items) shape.now → ⊥) }
    ensures same { OnFalse result (bands.new.items ≡ bands.old.items) }
{
    for i in 0..bands.len() {
        let band = &mut bands[i];
        if band.take(shape) {
            return true;
        }
    }
    false
}

/// Adds a shape to its band, which is made where there is none. After `Memory` the bands are as they
/// were.
fn put_into(alloc: Global, bands: &mut Vec<Band>, place: Place, shape: &Shape) -> Result<(), Memory>
    requires { AreSidesWithin (2 ^ 61) shape.now.rect }
    ensures ok { OnOk result (IsPermutation (shape.now ∷ in_bands bands.old.items) (in_bands bands.new.items)) }
    ensures err { OnErr result (in_bands bands.new.items ≡ in_bands bands.old.items) }
{
    match band_at(bands.as_slice(), place) {
        Some(i) => {
            let band = &mut bands[i];
            band.put(shape)
        }
        None => {
            let band = Band::of(alloc, place, shape)?;
            bands.push(band)?;
            Ok(())
        }
    }
}

/// Adds the forbidden spans of the shapes of these bands that pass a test. The only error is want of
/// memory.
fn forbidden_in<T: ShapeTest>(
    found: &mut Vec<Span>,
    bands: &[Band],
    mover: &Mover,
    test: &T,
) -> Result<(), Memory>
    requires { IsMover mover.now }
    ensures { OnOk result (Adds (λ z. list_any (λ s. T.verdict test.now s && is_near_at mover.now s.rect z) (in_bands bands.now)) found.old.items found.new.items) }
{
    for band in bands {
        band.forbidden_into(found, mover, test)?;
    }
    Ok(())
}

/// Whether two rules are the same.
fn is_same(one: &Option<WireRule>, other: &Option<WireRule>) -> bool
    ensures { IsTrue result ↔ (one.now ≡ other.now) }
{
    match one {
        Some(rule) => {
            match other {
                Some(with) => rule.is(with),
                None => false,
            }
        }
        None => {
            match other {
                Some(_) => false,
                None => true,
            }
        }
    }
}

impl Row {
    /// A row with no shapes. Takes no memory.
    pub fn new(alloc: Global, layer: LayerNo, rule: Option<WireRule>) -> Row
        requires { IsRuleIfAny rule }
        ensures { result ≡ record { layer = layer; rule = rule; shapes = [] } }
    {
        Row {
            layer,
            rule,
            bands: Vec::new(alloc),
        }
    }

    /// Whether it is the row for a layer and a rule.
    pub fn is_of(&self, layer: LayerNo, rule: &Option<WireRule>) -> bool
        ensures { IsTrue result ↔ ((self.now.layer ≡ layer) × (self.now.rule ≡ rule.now)) }
    {
        if self.layer.0 != layer.0 {
            return false;
        }
        is_same(&self.rule, rule)
    }

    /// Adds a shape of the layer. After `Memory` the row is as it was.
    pub fn add(&mut self, alloc: Global, shape: &Shape) -> Result<(), Memory>
        requires layer { shape.now.layer.0 ≡ self.old.layer.0 }
        requires sides { AreSidesWithin (2 ^ 61) shape.now.rect }
        ensures rule { self.new.rule ≡ self.old.rule }
        ensures ok { OnOk result (IsPermutation (shape.now ∷ self.old.shapes) self.new.shapes) }
        ensures err { OnErr result (self.new.shapes ≡ self.old.shapes) }
    {
        let place = place_of(&self.rule, &shape.rect);
        put_into(alloc, &mut self.bands, place, shape)
    }

    /// Takes one equal shape out; false, and the row is as it was, exactly where there is none.
    pub fn remove(&mut self, shape: &Shape) -> bool
        ensures rule { self.new.rule ≡ self.old.rule }
        ensures found { OnTrue result (IsPermutation (shape.now ∷ self.new.shapes) self.old.shapes) }
        ensures absent { OnFalse result (Contains self.old.shapes shape.now → ⊥) }
        ensures same { OnFalse result (self.new ≡ self.old) }
    {
        if self.layer.0 != shape.layer.0 {
            return false;
        }
        take_from(&mut self.bands, shape)
    }

    /// The same row once more. The only error is want of memory.
    pub fn copy(&self, alloc: Global) -> Result<Row, Memory>
        ensures { IfOk result (λ r. r ≡ self.now) }
    {
        let bands = copy_of(alloc, self.bands.as_slice())?;
        Ok(Row {
            layer: self.layer,
            rule: self.rule,
            bands,
        })
    }

    /// Adds the spans of a line of a level at which the rule forbids the wire's square beside shapes
    /// that pass a test. The only error is want of memory.
    pub fn forbidden_into<T: ShapeTest>(
        &self,
        found: &mut Vec<Span>,
        level: u8,
        line: i64,
        test: &T,
    ) -> Result<(), Memory>
        requires { IsWithin (2 ^ 61) line }
        ensures { OnOk result (Adds (λ z. list_any (λ s. T.verdict test.now s && rule_forbids self.now.rule level line z s.rect) self.now.shapes) found.old.items found.new.items) }
    {
        match &self.rule {
            Some(rule) => {
                if rule.level != level {
                    return Ok(());
                }
                forbidden_in(found, self.bands.as_slice(), &rule.mover(line), test)
            }
            None => Ok(()),
        }
    }
}
