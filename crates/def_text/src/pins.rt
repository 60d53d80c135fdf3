//! Pins of the design.
ghost use Rattle.std.specs.Prelude.{◌≡◌, ◌^◌, ◌≤◌, ◌++◌, ◌∷◌, [], None, map, length, IfOk, IfErr, IfSome, OnOk, All, codes, true};
ghost use Rattle.rt_base.specs.Ranges.{IsPointWithin};
ghost use Rattle.rt_forms.specs.Clauses.{Reads, Looks};
ghost use Rattle.rt_forms.specs.Form.{turn, loop};
ghost use Rattle.rt_forms.specs.Lexeme.{first_of};
ghost use Rattle.def_text.specs.declared.def.IoPin.{IoPin};
ghost use Rattle.def_text.specs.Faults.{def_faults};
ghost use Rattle.def_text.specs.Defs.{IsMetal, IsIoPin};
ghost use Rattle.def_text.specs.Kinds.{behind_layer, pin_option_of};
ghost use Rattle.def_text.specs.Sections.{AreListed, more_items};
ghost use Rattle.def_text.specs.Pins.{placed_metal as placed_metal_of, all_placed, IsUnplaced, ArePorts, layer_rule as layer_rule_form, pin_layer as pin_layer_form, pin_port as pin_port_form, pin_placed as pin_placed_form, pin_option_by, pin_option as pin_option_form, more_pin as more_pin_form, pin_item as pin_item_form};

use crate::def::IoPin;
use crate::error::DefError;
use crate::kinds::{BehindLayer, PinOption, behind_layer, pin_option_of};
use crate::parts::{Words, name, number, placement, point, refused};
use crate::sections::{Listed, new_name, section_end};
use rt_base::{Name, Orient, Point, Rect, Seq, place};
use std::alloc::Global;

/// The rectangles of the ports of a pin that have ended, and the rectangles and the placement of the
/// port that is read.
#[derive(Drop)]
pub struct Ports {
    pub rects: Seq<(Name, Rect)>,
    pub metal: Seq<(Name, Rect)>,
    pub placed: Option<(Point, Orient)>,
}

/// A rectangle of a port, turned and moved.
fn placed_metal(
    alloc: Global,
    metal: &(Name, Rect),
    at: Point,
    orient: Orient,
) -> Result<(Name, Rect), DefError>
    requires metal { IsUnplaced metal.now }
    requires at { IsPointWithin (2 ^ 30) at }
    ensures value { IfOk result (λ m. m ≡ placed_metal_of at orient metal.now) }
    ensures small { IfOk result (λ m. IsMetal m) }
    ensures memory { IfErr result (λ e. e ≡ DefError.Memory) }
{
    let rect = place(orient, 0, 0, metal.1).moved(at);
    Ok((Name::new(alloc, metal.0.bytes())?, rect))
}

/// Adds the rectangles of a port with this placement.
fn add_placed(
    alloc: Global,
    metal: &[(Name, Rect)],
    at: Point,
    orient: Orient,
    rects: &mut Seq<(Name, Rect)>,
) -> Result<(), DefError>
    requires metal { All IsUnplaced metal.now }
    requires at { IsPointWithin (2 ^ 30) at }
    requires rects { All IsMetal rects.old }
    ensures value { OnOk result (rects.new ≡ rects.old ++ map (placed_metal_of at orient) metal.now) }
    ensures small { OnOk result (All IsMetal rects.new) }
    ensures memory { IfErr result (λ e. e ≡ DefError.Memory) }
{
    'metal: for one in metal {
        rects.push(placed_metal(alloc, one, at, orient)?)?;
    }
    Ok(())
}

/// Ends the port that is read, and begins another.
fn end_port(alloc: Global, ports: &mut Ports) -> Result<(), DefError>
    requires { ArePorts ports.old }
    ensures value { OnOk result (ports.new ≡ record { rects = all_placed ports.old; metal = []; placed = None }) }
    ensures sound { OnOk result (ArePorts ports.new) }
    ensures memory { IfErr result (λ e. e ≡ DefError.Memory) }
{
    if let Some((at, orient)) = ports.placed {
        add_placed(alloc, ports.metal.as_slice(), at, orient, &mut ports.rects)?;
    }
    ports.metal = Seq::new(alloc);
    ports.placed = None;
    Ok(())
}

/// What may stand between a layer and its rectangle.
fn layer_rule(alloc: Global, words: &mut Words) -> Result<(), DefError>
    ensures { Looks def_faults (λ x. x) result words.old words.new (layer_rule_form (behind_layer (first_of words.old))) }
{
    match behind_layer(words) {
        BehindLayer::Points => Ok(()),
        BehindLayer::Mask => {
            let word = words.next()?;
            Err(refused(alloc, word))
        }
        BehindLayer::Rule => {
            words.next()?;
            number(words)?;
            Ok(())
        }
    }
}

/// `LAYER l [SPACING v | DESIGNRULEWIDTH v] point point`.
#[tactic(auto, unfolding(crate::specs::Pins::pin_layer))]
fn pin_layer(alloc: Global, words: &mut Words, ports: &mut Ports) -> Result<(), DefError>
    requires { ArePorts ports.old }
    ensures reads { Reads def_faults (λ _. ports.new) result words.old words.new (pin_layer_form ports.old) }
    ensures sound { OnOk result (ArePorts ports.new) }
{
    words.next()?;
    let layer = name(words)?;
    layer_rule(alloc, words)?;
    let p = point(words)?;
    let q = point(words)?;
    let layer = Name::new(alloc, layer.bytes)?;
    ports.metal.push((layer, Rect::hull(p, q)))?;
    Ok(())
}

/// `PORT`.
#[tactic(auto, unfolding(crate::specs::Pins::pin_port))]
fn pin_port(alloc: Global, words: &mut Words, ports: &mut Ports) -> Result<(), DefError>
    requires { ArePorts ports.old }
    ensures reads { Reads def_faults (λ _. ports.new) result words.old words.new (pin_port_form ports.old) }
    ensures sound { OnOk result (ArePorts ports.new) }
{
    words.next()?;
    end_port(alloc, ports)
}

/// `PLACED|FIXED|COVER point orient`.
#[tactic(auto, unfolding(crate::specs::Pins::pin_placed))]
fn pin_placed(words: &mut Words, ports: &mut Ports) -> Result<(), DefError>
    requires { ArePorts ports.old }
    ensures reads { Reads def_faults (λ _. ports.new) result words.old words.new (pin_placed_form ports.old) }
    ensures sound { OnOk result (ArePorts ports.new) }
{
    ports.placed = Some(placement(words)?);
    Ok(())
}

/// An option behind its `+`.
#[tactic(auto, unfolding(crate::specs::Pins::pin_option))]
fn pin_option(alloc: Global, words: &mut Words, ports: &mut Ports) -> Result<(), DefError>
    requires { ArePorts ports.old }
    ensures reads { Looks def_faults (λ _. ports.new) result words.old words.new (pin_option_form ports.old) }
    ensures sound { OnOk result (ArePorts ports.new) }
{
    match pin_option_of(words) {
        PinOption::Layer => pin_layer(alloc, words, ports),
        PinOption::Port => pin_port(alloc, words, ports),
        PinOption::Placed => pin_placed(words, ports),
        PinOption::Refused => {
            let word = words.next()?;
            Err(refused(alloc, word))
        }
        PinOption::Unused => {
            words.option_rest();
            Ok(())
        }
    }
}

/// One more option, or the `;`. True where it was the `;`.
#[tactic(auto, unfolding(crate::specs::Pins::more_pin))]
fn more_pin(alloc: Global, words: &mut Words, ports: &mut Ports) -> Result<bool, DefError>
    requires { ArePorts ports.old }
    ensures reads { Reads def_faults (λ last. turn last ports.new) result words.old words.new (more_pin_form ports.old) }
    ensures sound { OnOk result (ArePorts ports.new) }
{
    let word = words.next()?;
    if word.is(b";") {
        return Ok(true);
    }
    if word.is(b"+") {
        pin_option(alloc, words, ports)?;
        return Ok(false);
    }
    Err(DefError::Expected { line: word.line })
}

/// The options of a pin, and the `;`.
fn options(alloc: Global, words: &mut Words, ports: &mut Ports) -> Result<(), DefError>
    requires { ArePorts ports.old }
    ensures reads { Reads def_faults (λ _. ports.new) result words.old words.new (loop more_pin_form ports.old) }
    ensures sound { OnOk result (ArePorts ports.new) }
{
    'options: while !more_pin(alloc, words, ports)? {}
    Ok(())
}

/// A pin behind its `-`.
#[tactic(auto, unfolding(crate::specs::Pins::pin_item))]
fn pin_item(alloc: Global, words: &mut Words, listed: &mut Listed<IoPin>) -> Result<(), DefError>
    requires { AreListed IsIoPin (λ (p : IoPin). p.name) listed.old }
    ensures reads { Reads def_faults (λ _. listed.new) result words.old words.new (pin_item_form listed.old) }
    ensures sound { OnOk result (AreListed IsIoPin (λ (p : IoPin). p.name) listed.new) }
    ensures skipped { OnOk result (listed.new.skipped ≡ listed.old.skipped) }
{
    let word = name(words)?;
    new_name(alloc, &mut listed.names, word)?;
    let mut ports = Ports {
        rects: Seq::new(alloc),
        metal: Seq::new(alloc),
        placed: None,
    };
    options(alloc, words, &mut ports)?;
    end_port(alloc, &mut ports)?;
    let pin = IoPin {
        name: Name::new(alloc, word.bytes)?,
        rects: ports.rects,
    };
    listed.items.push(pin)?;
    Ok(())
}

/// One more pin, or the end of the section. True where it was the end.
#[tactic(auto, unfolding(crate::specs::Sections::more_items))]
fn more_pins(
    alloc: Global,
    words: &mut Words,
    said: u32,
    listed: &mut Listed<IoPin>,
) -> Result<bool, DefError>
    requires { AreListed IsIoPin (λ (p : IoPin). p.name) listed.old }
    ensures reads { Reads def_faults (λ last. turn last listed.new) result words.old words.new (more_items (codes "PINS") said pin_item_form listed.old) }
    ensures sound { OnOk result (AreListed IsIoPin (λ (p : IoPin). p.name) listed.new) }
    ensures skipped { OnOk result (listed.new.skipped ≡ listed.old.skipped) }
    ensures count { IfOk result (λ last. last ≡ true → length listed.new.items ≡ said) }
{
    let word = words.next()?;
    if word.is(b"-") {
        pin_item(alloc, words, listed)?;
        return Ok(false);
    }
    if word.is(b"END") {
        section_end(alloc, words, b"PINS", said, listed.items.len())?;
        return Ok(true);
    }
    Err(DefError::Expected { line: word.line })
}

/// The pins of a section, and its end.
pub fn pins(
    alloc: Global,
    words: &mut Words,
    said: u32,
    listed: &mut Listed<IoPin>,
) -> Result<(), DefError>
    requires { AreListed IsIoPin (λ (p : IoPin). p.name) listed.old }
    ensures reads { Reads def_faults (λ _. listed.new) result words.old words.new (loop (more_items (codes "PINS") said pin_item_form) listed.old) }
    ensures sound { OnOk result (AreListed IsIoPin (λ (p : IoPin). p.name) listed.new) }
    ensures skipped { OnOk result (listed.new.skipped ≡ listed.old.skipped) }
    ensures count { OnOk result (length listed.new.items ≡ said) }
{
    'pins: while !more_pins(alloc, words, said, listed)? {}
    Ok(())
}
