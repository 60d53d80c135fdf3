//! What a technology says of wires on the layer of a shape.
ghost use Rattle.std.specs.Prelude.{◌≡◌, ◌<◌, ◌^◌, ℕ, ℤ, false, length, IsTrue, ◌↔◌, IfSome, IfNone};
ghost use Rattle.rt_base.specs.Ranges.{IsWithin, AreSidesWithin};
ghost use Rattle.track_graph.specs.Designs.{IsTech};
ghost use Rattle.track_graph.specs.Levels.{levels};
ghost use Rattle.track_graph.specs.Metal.{shape_of};
ghost use Rattle.legality.specs.Forbidden.{IsSpanOf, is_forbidden};
ghost use Rattle.legality.specs.Rules.{rule_at, wire_mover, wire_square, IsLevelOf, Says, IsRule, IsRuleIfAny};

use crate::mover::Mover;
use regions::Line;
use rt_base::{LayerNo, Point, Rect, Shape, Span, Tech};
use track_graph::{is_level_horizontal, layer_number, wire_shape};

/// What a technology says of wires on the level of a shape: the level, whether its tracks run in x,
/// the square of its width round (0, 0), and the spacing between the shape and such a square.
#[derive(Clone, Copy, Debug, PartialEq, Eq)]
pub struct WireRule {
    pub level: u8,
    pub horizontal: bool,
    pub square: Rect,
    pub spacing: u64,
}

/// The square of a level's wires round (0, 0), as a shape.
fn square_of(tech: &Tech, level: u8) -> Shape
    requires { IsTech tech.now }
    ensures { result ≡ shape_of 0 (wire_square tech.now level) }
{
    let origin = Point { x: 0, y: 0 };
    wire_shape(tech, 0, level, origin, origin)
}

/// What a technology says of wires beside a shape of a level.
fn rule_at(tech: &Tech, shape: &Shape, level: u8) -> WireRule
    requires tech { IsTech tech.now }
    requires layer { shape.now.layer.0 < length tech.now.layers }
    ensures rule { result ≡ rule_at tech.now shape.now level }
    ensures fit { IsRule result }
{
    let square = square_of(tech, level);
    WireRule {
        level,
        horizontal: is_level_horizontal(tech, level),
        square: square.rect,
        spacing: tech.pair_spacing(shape, &square),
    }
}

/// The level of a layer, `None` where it is a cut layer.
fn level_of(tech: &Tech, layer: LayerNo) -> Option<u8>
    requires { IsTech tech.now }
    ensures some { IfSome result (IsLevelOf tech.now layer) }
    ensures none { IfNone result ((level : ℕ) → IsLevelOf tech.now layer level → ⊥) }
{
    for level in 0..16u8 {
        match layer_number(tech, level) {
            Some(number) => {
                if number == layer.0 as usize {
                    return Some(level);
                }
            }
            None => {}
        }
    }
    None
}

/// What a technology says of wires beside a shape; nothing beside one on a cut layer. Takes no memory.
pub fn wire_rule(tech: &Tech, shape: &Shape) -> Option<WireRule>
    requires tech { IsTech tech.now }
    requires layer { shape.now.layer.0 < length tech.now.layers }
    ensures rule { Says tech.now shape.now result }
    ensures fit { IsRuleIfAny result }
{
    match level_of(tech, shape.layer) {
        Some(level) => Some(rule_at(tech, shape, level)),
        None => None,
    }
}

/// Whether two rectangles are the same.
fn is_same_rect(one: &Rect, other: &Rect) -> bool
    ensures { IsTrue result ↔ (one.now ≡ other.now) }
{
    if one.xl != other.xl {
        return false;
    }
    if one.yl != other.yl {
        return false;
    }
    if one.xh != other.xh {
        return false;
    }
    if one.yh != other.yh {
        return false;
    }
    true
}

impl WireRule {
    /// Whether two rules are the same.
    pub(crate) fn is(&self, other: &WireRule) -> bool
        ensures { IsTrue result ↔ (self.now ≡ other.now) }
    {
        if self.level != other.level {
            return false;
        }
        if self.horizontal != other.horizontal {
            return false;
        }
        if self.spacing != other.spacing {
            return false;
        }
        is_same_rect(&self.square, &other.square)
    }

    /// The wire's square, moving along a line of its level.
    pub(crate) fn mover(&self, line: i64) -> Mover
        ensures { result ≡ wire_mover self.now line }
    {
        Mover {
            line: Line {
                in_x: self.horizontal,
                at: line,
            },
            rect: self.square,
            spacing: self.spacing,
        }
    }
}

/// The whole numbers along a track line of a level at which the square of the level's width round the
/// line's point is too near to a shape, for a net that isn't the shape's owner; they are one span, in
/// DEF database units. `None` exactly where there are none. Takes no memory.
pub fn forbidden(tech: &Tech, shape: &Shape, level: u8, line: i64) -> Option<Span>
    requires tech { IsTech tech.now }
    requires layer { shape.now.layer.0 < length tech.now.layers }
    requires sides { AreSidesWithin (2 ^ 61) shape.now.rect }
    requires level { level < length (levels tech.now) }
    requires line { IsWithin (2 ^ 61) line }
    ensures some { IfSome result (IsSpanOf (is_forbidden tech.now shape.now level line)) }
    ensures none { IfNone result ((z : ℤ) → is_forbidden tech.now shape.now level line z ≡ false) }
{
    if square_of(tech, level).layer.0 != shape.layer.0 {
        return None;
    }
    rule_at(tech, shape, level)
        .mover(line)
        .forbidden(&shape.rect)
}
