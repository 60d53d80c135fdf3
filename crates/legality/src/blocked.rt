//! Shapes, by the lines on which they forbid wires.
ghost use Rattle.std.specs.Prelude.{◌≡◌, ◌∷◌, ◌&&◌, ◌^◌, ◌<◌, [], true, length, map, Contains, OnOk, OnErr, IfOk, IfSome};
ghost use Rattle.std.specs.Bool.{OnTrue, OnFalse};
ghost use Rattle.std.specs.List.{list_any, HoldsAt};
ghost use Rattle.std.specs.List.Sorted.{IsPermutation};
ghost use Rattle.rt_base.specs.Ranges.{IsWithin, AreSidesWithin};
ghost use Rattle.rt_base.specs.declared.tech.Shape.{Shape as ShapeOf};
ghost use Rattle.track_graph.specs.Designs.{IsTech};
ghost use Rattle.regions.specs.Spans.{AreSpansOf};
ghost use Rattle.legality.specs.Found.{Adds};
ghost use Rattle.legality.specs.Rows.{all_kept};
ghost use Rattle.legality.specs.Rules.{IsKeptBy, kept_forbids, is_other, IsRuleIfAny, Kept};

use crate::owner::OtherOwner;
use crate::row::Row;
use crate::rule::{WireRule, wire_rule};
use regions::maximal_spans;
use rt_base::{LayerNo, Memory, Shape, Span, Tech};
use shape_grid::ShapeTest;
use std::alloc::Global;
use std::marker::Model;

/// Shapes, each kept as often as it was added, in no order, with what the technology of its `add` says
/// of wires beside it: on a routing layer the level, its direction, the square of its width and the
/// spacing between the shape and such a square; on a cut layer nothing. Contracts see it as the list of
/// the shapes with what is kept beside each.
#[derive(Drop)]
pub struct Blocked {
    alloc: Global,
    rows: Vec<Row>,
}

impl Model for Blocked {
    ghost use Rattle.std.specs.Prelude.{List};
    ghost use Rattle.legality.specs.Rows.{all_kept};
    ghost use Rattle.legality.specs.Rules.{Kept};

    ghost Value = { List Kept };

    ghost view = { λ b. all_kept b.rows.items };
}

/// Where the row of a layer and a rule stands, or none where there is none.
fn row_of(rows: &[Row], layer: LayerNo, rule: &Option<WireRule>) -> Option<usize>
    ensures within { IfSome result (λ i. i < length rows.now) }
    ensures row { IfSome result (λ i. HoldsAt (λ r. (r.layer ≡ layer) × (r.rule ≡ rule.now)) rows.now i) }
{
    rows.iter().position(|r| r.is_of(layer, rule))
}

/// The same rows once more. The only error is want of memory.
fn copy_of(alloc: Global, rows: &[Row]) -> Result<Vec<Row>, Memory>
    ensures { IfOk result (λ v. v.items ≡ rows.now) }
{
    let mut copies = Vec::new(alloc);
    for row in rows {
        copies.push(row.copy(alloc)?)?;
    }
    Ok(copies)
}

/// Takes one equal shape out of one of the rows; false where there is none.
fn remove_from(rows: &mut Vec<Row>, shape: &Shape) -> bool
    ensures found { OnTrue result ((k : Kept) × (k.shape ≡ shape.now) × IsPermutation (k ∷ all_kept rows.new.items) (all_kept rows.old.items)) }
    ensures absent { OnFalse result (Contains (map (λ k. k.shape) (all_kept rows.old.items)) shape.now → ⊥) }
    ensures same { OnFalse result (rows.new.items ≡ rows.old.items) }
{
    for i in 0..rows.len() {
        let row = &mut rows[i];
        if row.remove(shape) {
            return true;
        }
    }
    false
}

/// Adds the forbidden spans of the shapes of these rows that pass a test. The only error is want of
/// memory.
fn forbidden_in<T: ShapeTest>(
    found: &mut Vec<Span>,
    rows: &[Row],
    level: u8,
    line: i64,
    test: &T,
) -> Result<(), Memory>
    requires { IsWithin (2 ^ 61) line }
    ensures { OnOk result (Adds (λ z. list_any (λ k. T.verdict test.now k.shape && kept_forbids level line z k) (all_kept rows.now)) found.old.items found.new.items) }
{
    for row in rows {
        row.forbidden_into(found, level, line, test)?;
    }
    Ok(())
}

impl Blocked {
    /// No shapes. Takes no memory.
    pub fn new(alloc: Global) -> Blocked
        ensures { result ≡ [] }
    {
        Blocked {
            alloc,
            rows: Vec::new(alloc),
        }
    }

    /// Adds the first shape of a row. After `Memory` nothing has changed.
    fn add_first(&mut self, rule: Option<WireRule>, shape: &Shape) -> Result<(), Memory>
        requires rule { IsRuleIfAny rule }
        requires sides { AreSidesWithin (2 ^ 61) shape.now.rect }
        ensures ok { OnOk result (IsPermutation (record { shape = shape.now; rule = rule } ∷ self.old) self.new) }
        ensures err { OnErr result (self.new ≡ self.old) }
    {
        let mut row = Row::new(self.alloc, shape.layer, rule);
        row.add(self.alloc, shape)?;
        self.rows.push(row)?;
        Ok(())
    }

    /// Adds a shape, and keeps beside it what a technology says of wires there. After `Memory`, which
    /// is the only error, nothing has changed.
    pub fn add(&mut self, tech: &Tech, shape: Shape) -> Result<(), Memory>
        requires tech { IsTech tech.now }
        requires layer { shape.layer.0 < length tech.now.layers }
        requires sides { AreSidesWithin (2 ^ 61) shape.rect }
        ensures ok { OnOk result ((k : Kept) × IsKeptBy tech.now shape k × IsPermutation (k ∷ self.old) self.new) }
        ensures err { OnErr result (self.new ≡ self.old) }
    {
        let rule = wire_rule(tech, &shape);
        match row_of(self.rows.as_slice(), shape.layer, &rule) {
            Some(place) => {
                let alloc = self.alloc;
                let row = &mut self.rows[place];
                row.add(alloc, &shape)
            }
            None => self.add_first(rule, &shape),
        }
    }

    /// Takes one equal shape out, with what is kept beside it; false, and nothing has changed, exactly
    /// where there is none. Takes no memory.
    pub fn remove(&mut self, shape: &Shape) -> bool
        ensures found { OnTrue result ((k : Kept) × (k.shape ≡ shape.now) × IsPermutation (k ∷ self.new) self.old) }
        ensures absent { OnFalse result (Contains (map (λ k. k.shape) self.old) shape.now → ⊥) }
        ensures same { OnFalse result (self.new ≡ self.old) }
    {
        remove_from(&mut self.rows, shape)
    }

    /// The same shapes with all that is kept beside them, which changes of this one don't change. The
    /// only error is want of memory.
    pub fn copy(&self, alloc: Global) -> Result<Blocked, Memory>
        ensures { IfOk result (λ b. b ≡ self.now) }
    {
        let rows = copy_of(alloc, self.rows.as_slice())?;
        Ok(Blocked { alloc, rows })
    }

    /// The whole numbers along a track line of a level at which the square of a wire there is too near
    /// to a shape that passes a test, as what is kept beside it says: maximal spans, ascending, in DEF
    /// database units. The only error is want of memory.
    pub fn spans_of<T: ShapeTest>(
        &self,
        alloc: Global,
        level: u8,
        line: i64,
        test: &T,
    ) -> Result<Vec<Span>, Memory>
        requires { IsWithin (2 ^ 61) line }
        ensures { IfOk result (λ v. AreSpansOf (λ z. list_any (λ k. T.verdict test.now k.shape && kept_forbids level line z k) self.now ≡ true) v.items) }
    {
        let mut found = Vec::new(alloc);
        forbidden_in(&mut found, self.rows.as_slice(), level, line, test)?;
        maximal_spans(alloc, found)
    }

    /// The whole numbers along a track line of a level at which the square of a wire there is too near
    /// to a shape of another owner than a net, as what is kept beside it says: maximal spans,
    /// ascending, in DEF database units. The only error is want of memory.
    pub fn spans(&self, alloc: Global, level: u8, line: i64, net: u32) -> Result<Vec<Span>, Memory>
        requires { IsWithin (2 ^ 61) line }
        ensures { IfOk result (λ v. AreSpansOf (λ z. list_any (λ k. is_other net k.shape && kept_forbids level line z k) self.now ≡ true) v.items) }
    {
        self.spans_of(alloc, level, line, &OtherOwner { net })
    }
}
