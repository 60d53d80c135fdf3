//! MACRO.
ghost use Rattle.std.specs.Prelude.{◌≡◌, ◌≤◌, ◌^◌, All, IfOk, IfErr, OnOk};
ghost use Rattle.rt_base.specs.Ranges.{IsPointWithin};
ghost use Rattle.rt_forms.specs.Clauses.{Reads};
ghost use Rattle.rt_forms.specs.Form.{loop, More, turn};
ghost use Rattle.lef_text.specs.declared.error.LefError.TheVariants.{Memory as OutOfMemory};
ghost use Rattle.lef_text.specs.Counts.{skips};
ghost use Rattle.lef_text.specs.Faults.{lef_faults};
ghost use Rattle.lef_text.specs.Shapes.{drawn};
ghost use Rattle.lef_text.specs.Macros.{pin_line as pin_line_form, pin as pin_form, obs as obs_form, size as size_form, origin as origin_form, macro_line as macro_line_form, IsNearShape, IsNearPin, AreNear, moved_shape, moved_shapes as moved_shapes_form, moved_pin, moved_pins as moved_pins_form, macro_of as macro_of_form, cell_of, macro_body as macro_body_form, macro_statement as macro_statement_form};

use crate::error::LefError;
use crate::layers::new_name;
use crate::lef::Macro;
use crate::library::{Library, MacroLines};
use crate::macro_words::{MacroLine, macro_line_of};
use crate::numbers::{Words, number};
use crate::shapes::more_shapes;
use rt_base::{LayerNo, Name, Point, Rect, Seq};
use rt_forms::{Names, Word};
use std::alloc::Global;

/// A line of a pin. True where it was the last.
#[tactic(auto, unfolding(crate::specs::Macros::pin_line))]
fn pin_line(
    alloc: Global,
    words: &mut Words,
    units: u32,
    name: &[u8],
    lib: &mut Library,
    shapes: &mut Seq<(LayerNo, Rect)>,
) -> Result<bool, LefError>
    requires few { skips lib.old words.old ≤ 2 ^ 32 }
    ensures reads { Reads lef_faults (λ last. turn last (drawn lib.new shapes.new)) result words.old words.new (pin_line_form units name.now (drawn lib.old shapes.old)) }
    ensures few { OnOk result (skips lib.new words.new ≤ skips lib.old words.old) }
{
    let word = words.next()?;
    if word.is(b"PORT") {
        more_shapes(alloc, words, units, lib, shapes)?;
        return Ok(false);
    }
    if word.is(b"END") {
        words.expect(name)?;
        return Ok(true);
    }
    if !word.is_name() {
        return Err(LefError::Unknown { line: word.line });
    }
    words.rest()?;
    Ok(false)
}

/// The lines of a pin, and its end.
fn pin_lines(
    alloc: Global,
    words: &mut Words,
    units: u32,
    name: &[u8],
    lib: &mut Library,
    shapes: &mut Seq<(LayerNo, Rect)>,
) -> Result<(), LefError>
    requires few { skips lib.old words.old ≤ 2 ^ 32 }
    ensures reads { Reads lef_faults (λ _. drawn lib.new shapes.new) result words.old words.new (loop (pin_line_form units name.now) (drawn lib.old shapes.old)) }
    ensures few { OnOk result (skips lib.new words.new ≤ skips lib.old words.old) }
{
    'lines: while !pin_line(alloc, words, units, name, lib, shapes)? {}
    Ok(())
}

/// A pin behind the word PIN.
#[tactic(auto, unfolding(crate::specs::Macros::pin))]
fn pin(
    alloc: Global,
    words: &mut Words,
    units: u32,
    lib: &mut Library,
    lines: &mut MacroLines,
) -> Result<(), LefError>
    requires few { skips lib.old words.old ≤ 2 ^ 32 }
    ensures reads { Reads lef_faults (λ _. More (cell_of lib.new lines.new)) result words.old words.new (pin_form units (cell_of lib.old lines.old)) }
    ensures few { OnOk result (skips lib.new words.new ≤ skips lib.old words.old) }
{
    let name = new_name(alloc, words, &mut lines.pin_names)?;
    let mut shapes = Seq::new(alloc);
    pin_lines(alloc, words, units, name.bytes, lib, &mut shapes)?;
    lines.pins.push((Name::new(alloc, name.bytes)?, shapes))?;
    Ok(())
}

/// `w BY h ;`
#[tactic(auto, unfolding(crate::specs::Macros::size))]
fn size(words: &mut Words, units: u32) -> Result<Point, LefError>
    ensures { Reads lef_faults (λ x. x) result words.old words.new (size_form units) }
{
    let x = number(words, units)?;
    words.expect(b"BY")?;
    let y = number(words, units)?;
    words.semicolon()?;
    Ok(Point { x, y })
}

/// `x y ;`
#[tactic(auto, unfolding(crate::specs::Macros::origin))]
fn origin(words: &mut Words, units: u32) -> Result<Point, LefError>
    ensures { Reads lef_faults (λ x. x) result words.old words.new (origin_form units) }
{
    let x = number(words, units)?;
    let y = number(words, units)?;
    words.semicolon()?;
    Ok(Point { x, y })
}

/// A line of a macro. True where it was the last.
#[tactic(auto, unfolding(crate::specs::Macros::macro_line))]
fn macro_line(
    alloc: Global,
    words: &mut Words,
    units: u32,
    name: &[u8],
    lib: &mut Library,
    lines: &mut MacroLines,
) -> Result<bool, LefError>
    requires few { skips lib.old words.old ≤ 2 ^ 32 }
    ensures reads { Reads lef_faults (λ last. turn last (cell_of lib.new lines.new)) result words.old words.new (macro_line_form units name.now (cell_of lib.old lines.old)) }
    ensures few { OnOk result (skips lib.new words.new ≤ skips lib.old words.old) }
{
    let word = words.next()?;
    match macro_line_of(word.bytes) {
        MacroLine::Size => {
            lines.size = size(words, units)?;
            Ok(false)
        }
        MacroLine::Origin => {
            lines.origin = origin(words, units)?;
            Ok(false)
        }
        MacroLine::Pin => {
            pin(alloc, words, units, lib, lines)?;
            Ok(false)
        }
        MacroLine::Obs => {
            more_shapes(alloc, words, units, lib, &mut lines.obs)?;
            Ok(false)
        }
        MacroLine::Density => {
            words.up_to(b"END")?;
            Ok(false)
        }
        MacroLine::Timing => {
            words.up_to_pair(b"END", b"TIMING")?;
            Ok(false)
        }
        MacroLine::Unused => {
            words.rest()?;
            Ok(false)
        }
        MacroLine::End => {
            words.expect(name)?;
            Ok(true)
        }
        MacroLine::Unknown => Err(LefError::Unknown { line: word.line }),
    }
}

/// The lines of a macro, and its end.
fn macro_lines(
    alloc: Global,
    words: &mut Words,
    units: u32,
    name: &[u8],
    lib: &mut Library,
    lines: &mut MacroLines,
) -> Result<(), LefError>
    requires few { skips lib.old words.old ≤ 2 ^ 32 }
    ensures reads { Reads lef_faults (λ _. cell_of lib.new lines.new) result words.old words.new (loop (macro_line_form units name.now) (cell_of lib.old lines.old)) }
    ensures few { OnOk result (skips lib.new words.new ≤ skips lib.old words.old) }
{
    'lines: while !macro_line(alloc, words, units, name, lib, lines)? {}
    Ok(())
}

/// A shape moved by a point.
fn moved_shape(shape: &(LayerNo, Rect), by: Point) -> (LayerNo, Rect)
    requires shape { IsNearShape shape.now }
    requires by { IsPointWithin (2 ^ 30) by }
    ensures { result ≡ moved_shape by shape.now }
{
    (shape.0, shape.1.moved(by))
}

/// Shapes moved by a point.
fn moved_shapes(
    alloc: Global,
    shapes: &[(LayerNo, Rect)],
    by: Point,
) -> Result<Seq<(LayerNo, Rect)>, LefError>
    requires shapes { All IsNearShape shapes.now }
    requires by { IsPointWithin (2 ^ 30) by }
    ensures ok { IfOk result (λ s. s ≡ moved_shapes_form by shapes.now) }
    ensures err { IfErr result (λ e. e ≡ OutOfMemory) }
{
    let mut all = Seq::new(alloc);
    for shape in shapes {
        all.push(moved_shape(shape, by))?;
    }
    Ok(all)
}

/// A pin moved by a point.
fn moved_pin(
    alloc: Global,
    pin: &(Name, Seq<(LayerNo, Rect)>),
    by: Point,
) -> Result<(Name, Seq<(LayerNo, Rect)>), LefError>
    requires pin { IsNearPin pin.now }
    requires by { IsPointWithin (2 ^ 30) by }
    ensures ok { IfOk result (λ p. p ≡ moved_pin by pin.now) }
    ensures err { IfErr result (λ e. e ≡ OutOfMemory) }
{
    let name = Name::new(alloc, pin.0.bytes())?;
    let shapes = moved_shapes(alloc, pin.1.as_slice(), by)?;
    Ok((name, shapes))
}

/// Pins moved by a point.
fn moved_pins(
    alloc: Global,
    pins: &[(Name, Seq<(LayerNo, Rect)>)],
    by: Point,
) -> Result<Seq<(Name, Seq<(LayerNo, Rect)>)>, LefError>
    requires pins { All IsNearPin pins.now }
    requires by { IsPointWithin (2 ^ 30) by }
    ensures ok { IfOk result (λ p. p ≡ moved_pins_form by pins.now) }
    ensures err { IfErr result (λ e. e ≡ OutOfMemory) }
{
    let mut all = Seq::new(alloc);
    for pin in pins {
        all.push(moved_pin(alloc, pin, by)?)?;
    }
    Ok(all)
}

/// The macro that these lines make.
fn macro_of(alloc: Global, name: Word, lines: MacroLines) -> Result<Macro, LefError>
    requires { AreNear lines }
    ensures ok { IfOk result (λ m. m ≡ macro_of_form name.entry.bytes.now lines) }
    ensures err { IfErr result (λ e. e ≡ OutOfMemory) }
{
    Ok(Macro {
        name: Name::new(alloc, name.bytes)?,
        w: lines.size.x,
        h: lines.size.y,
        pins: moved_pins(alloc, lines.pins.as_slice(), lines.origin)?,
        obs: moved_shapes(alloc, lines.obs.as_slice(), lines.origin)?,
    })
}

/// A macro behind its name.
#[tactic(auto, unfolding(crate::specs::Macros::macro_body))]
fn macro_body(
    alloc: Global,
    words: &mut Words,
    units: u32,
    lib: &mut Library,
    name: Word,
) -> Result<(), LefError>
    requires few { skips lib.old words.old ≤ 2 ^ 32 }
    ensures reads { Reads lef_faults (λ _. More lib.new) result words.old words.new (macro_body_form units lib.old name.entry.bytes.now) }
    ensures few { OnOk result (skips lib.new words.new ≤ skips lib.old words.old) }
{
    let mut lines = MacroLines {
        size: Point { x: 0, y: 0 },
        origin: Point { x: 0, y: 0 },
        pins: Seq::new(alloc),
        pin_names: Names::new(alloc),
        obs: Seq::new(alloc),
    };
    macro_lines(alloc, words, units, name.bytes, lib, &mut lines)?;
    lib.macros.push(macro_of(alloc, name, lines)?)?;
    Ok(())
}

/// A macro behind the word MACRO.
#[tactic(auto, unfolding(crate::specs::Macros::macro_statement))]
pub fn macro_statement(
    alloc: Global,
    words: &mut Words,
    units: u32,
    lib: &mut Library,
) -> Result<(), LefError>
    requires few { skips lib.old words.old ≤ 2 ^ 32 }
    ensures reads { Reads lef_faults (λ _. More lib.new) result words.old words.new (macro_statement_form units lib.old) }
    ensures few { OnOk result (skips lib.new words.new ≤ skips lib.old words.old) }
{
    let name = new_name(alloc, words, &mut lib.macro_names)?;
    macro_body(alloc, words, units, lib, name)
}
