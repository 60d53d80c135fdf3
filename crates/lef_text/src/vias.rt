//! VIA.
ghost use Rattle.std.specs.Prelude.{◌≡◌, ◌≤◌, ◌++◌, ◌∷◌, [], IfOk, OnOk};
ghost use Rattle.rt_forms.specs.Clauses.{Reads, Looks};
ghost use Rattle.rt_forms.specs.Form.{one, loop, More, turn};
ghost use Rattle.rt_forms.specs.Word.{place_of};
ghost use Rattle.lef_text.specs.Counts.{skips};
ghost use Rattle.lef_text.specs.Faults.{lef_faults};
ghost use Rattle.lef_text.specs.IsLef.{is_path_word};
ghost use Rattle.lef_text.specs.Vias.{via_line as via_line_form, no_via_lines, via_rects as via_rects_form, via_name as via_name_form, optional as optional_form, via_statement as via_statement_form};

use crate::error::LefError;
use crate::generated_vias::{form_line, is_begun, lacks_a_line, no_form_lines, rects_at_end};
use crate::library::{Library, ViaLines};
use crate::numbers::{Words, rectangle};
use crate::on_layers::{add_shape, add_shapes, layer_word};
use crate::polygons::polygon;
use crate::via_words::{ViaLine, via_line_of};
use rt_base::{LayerNo, Name, Rect, Seq, Via};
use rt_forms::{Names, Word};
use std::alloc::Global;

/// A line of a via. True where it was the last.
#[tactic(auto, unfolding(crate::specs::Vias::via_line))]
fn via_line(
    alloc: Global,
    words: &mut Words,
    units: u32,
    lib: &Library,
    name: &[u8],
    lines: &mut ViaLines,
) -> Result<bool, LefError>
    ensures { Reads lef_faults (λ last. turn last lines.new) result words.old words.new (via_line_form units lib.now name.now lines.old) }
{
    let word = words.next()?;
    match via_line_of(word.bytes) {
        ViaLine::Layer => {
            if is_begun(&lines.form) {
                return Err(LefError::Unknown { line: word.line });
            }
            lines.layer = Some(layer_word(alloc, words, lib)?);
            words.semicolon()?;
            Ok(false)
        }
        ViaLine::Rect => match lines.layer {
            None => Err(LefError::Unknown { line: word.line }),
            Some(layer) => {
                let rect = rectangle(alloc, words, units, false)?;
                add_shape(&mut lines.rects, layer, rect)?;
                Ok(false)
            }
        },
        ViaLine::Unused => {
            words.rest()?;
            Ok(false)
        }
        ViaLine::Refused => Err(LefError::Refused {
            line: word.line,
            word: Name::new(alloc, word.bytes)?,
        }),
        ViaLine::End => {
            if lacks_a_line(&lines.form) {
                return Err(LefError::Unknown { line: word.line });
            }
            words.expect(name)?;
            Ok(true)
        }
        ViaLine::Unknown => Err(LefError::Unknown { line: word.line }),
        ViaLine::Polygon => match lines.layer {
            None => Err(LefError::Unknown { line: word.line }),
            Some(layer) => {
                let rects = polygon(alloc, words, units, false, word)?;
                add_shapes(&mut lines.rects, layer, rects.as_slice())?;
                Ok(false)
            }
        },
        ViaLine::Form(line) => match lines.layer {
            None => {
                form_line(alloc, words, units, lib, &mut lines.form, word, line)?;
                Ok(false)
            }
            Some(_) => Err(LefError::Unknown { line: word.line }),
        },
    }
}

/// The lines of a via, and its end.
fn via_lines(
    alloc: Global,
    words: &mut Words,
    units: u32,
    lib: &Library,
    name: &[u8],
    lines: &mut ViaLines,
) -> Result<(), LefError>
    ensures { Reads lef_faults (λ _. lines.new) result words.old words.new (loop (via_line_form units lib.now name.now) lines.old) }
{
    'lines: while !via_line(alloc, words, units, lib, name, lines)? {}
    Ok(())
}

/// No line of a via.
fn no_via_lines(alloc: Global) -> ViaLines
    ensures { result ≡ no_via_lines }
{
    ViaLines {
        layer: None,
        rects: Seq::new(alloc),
        form: no_form_lines(),
    }
}

/// The rectangles of a via behind its name.
#[tactic(auto, unfolding(crate::specs::Vias::via_rects))]
fn via_rects(
    alloc: Global,
    words: &mut Words,
    units: u32,
    lib: &Library,
    name: &[u8],
) -> Result<Seq<(LayerNo, Rect)>, LefError>
    ensures { Reads lef_faults (λ x. x) result words.old words.new (via_rects_form units lib.now name.now) }
{
    let mut lines = no_via_lines(alloc);
    via_lines(alloc, words, units, lib, name, &mut lines)?;
    let form = lines.form;
    rects_at_end(alloc, &form, lines.rects)
}

fn is_path_word(word: Word) -> bool
    ensures { result ≡ is_path_word word.entry.bytes.now }
{
    word.is(b"NEW")
        || word.is(b"RECT")
        || word.is(b"MASK")
        || word.is(b"STYLE")
        || word.is(b"TAPERRULE")
        || word.is(b"VIRTUAL")
}

/// Takes a name for a new via, and adds it to these.
fn via_name<'a>(
    alloc: Global,
    words: &mut Words<'a>,
    names: &mut Names,
) -> Result<Word<'a>, LefError>
    ensures reads { Reads lef_faults place_of result words.old words.new (one (via_name_form names.old)) }
    ensures names { IfOk result (λ w. names.new ≡ names.old ++ w.bytes.now ∷ []) }
{
    let name = words.next()?;
    if !name.is_name() {
        return Err(LefError::Expected { line: name.line });
    }
    if is_path_word(name) {
        return Err(LefError::Refused {
            line: name.line,
            word: Name::new(alloc, name.bytes)?,
        });
    }
    if !names.add(alloc, name.bytes)? {
        return Err(LefError::Twice {
            line: name.line,
            name: Name::new(alloc, name.bytes)?,
        });
    }
    Ok(name)
}

/// Takes this word, if it is the next.
#[tactic(auto, unfolding(crate::specs::Vias::optional))]
pub fn optional(words: &mut Words, word: &[u8]) -> Result<bool, LefError>
    ensures { Looks lef_faults (λ x. x) result words.old words.new (optional_form word.now) }
{
    if words.at(word) {
        words.expect(word)?;
        return Ok(true);
    }
    Ok(false)
}

/// A via behind the word VIA.
#[tactic(auto, unfolding(crate::specs::Vias::via_statement))]
pub fn via_statement(
    alloc: Global,
    words: &mut Words,
    units: u32,
    lib: &mut Library,
) -> Result<(), LefError>
    ensures reads { Reads lef_faults (λ _. More lib.new) result words.old words.new (via_statement_form units lib.old) }
    ensures few { OnOk result (skips lib.new words.new ≤ skips lib.old words.old) }
{
    let name = via_name(alloc, words, &mut lib.via_names)?;
    let usable = optional(words, b"DEFAULT")?;
    optional(words, b"TOPOFSTACKONLY")?;
    let rects = via_rects(alloc, words, units, lib, name.bytes)?;
    lib.vias.push(Via {
        name: Name::new(alloc, name.bytes)?,
        usable,
        rects,
    })?;
    Ok(())
}
