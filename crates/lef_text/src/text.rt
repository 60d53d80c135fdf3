//! The statements of a LEF text.
ghost use Rattle.std.specs.Prelude.{◌≡◌, ◌+◌, ◌<◌, ◌≤◌, ◌^◌, length, IfOk, IfErr, OnOk};
ghost use Rattle.rt_forms.specs.Clauses.{Reads, Looks};
ghost use Rattle.rt_forms.specs.Form.{loop, text as text_form, More, turn};
ghost use Rattle.lef_text.specs.declared.error.LefError.TheVariants.{Memory as OutOfMemory};
ghost use Rattle.lef_text.specs.Counts.{HasRoom, skips};
ghost use Rattle.lef_text.specs.Faults.{lef_faults};
ghost use Rattle.lef_text.specs.Lef.{units_line as units_line_form, named_section as named_section_form, statement as statement_form, lef_of, lef as lef_form, empty};

use crate::error::LefError;
use crate::layers::layer_statement;
use crate::lef::Lef;
use crate::library::Library;
use crate::macros::macro_statement;
use crate::numbers::{Words, count};
use crate::statement_words::{Statement, statement_of};
use crate::vias::via_statement;
use rt_base::{Name, Seq};
use rt_forms::Names;
use std::alloc::Global;

/// A line of UNITS. True where it was the last.
#[tactic(auto, unfolding(crate::specs::Lef::units_line))]
fn units_line(words: &mut Words, units: &mut u32) -> Result<bool, LefError>
    ensures { Reads lef_faults (λ last. turn last units.new) result words.old words.new (units_line_form units.old) }
{
    let word = words.next()?;
    if word.is(b"DATABASE") {
        words.expect(b"MICRONS")?;
        *units = count(words, 1, 1_000_000)?;
        words.semicolon()?;
        return Ok(false);
    }
    if word.is(b"END") {
        words.expect(b"UNITS")?;
        return Ok(true);
    }
    if !word.is_name() {
        return Err(LefError::Unknown { line: word.line });
    }
    words.rest()?;
    Ok(false)
}

/// The lines of UNITS, and their end.
fn units_lines(words: &mut Words, units: &mut u32) -> Result<(), LefError>
    ensures { Reads lef_faults (λ _. units.new) result words.old words.new (loop units_line_form units.old) }
{
    'lines: while !units_line(words, units)? {}
    Ok(())
}

/// `name .. END name`
#[tactic(auto, unfolding(crate::specs::Lef::named_section))]
fn named_section(words: &mut Words) -> Result<(), LefError>
    ensures { Reads lef_faults (λ x. x) result words.old words.new named_section_form }
{
    let name = words.name()?;
    words.up_to_pair(b"END", name.bytes)
}

/// Counts a section that isn't used.
fn count_section(lib: &mut Library)
    requires { lib.old.sections + 1 < 2 ^ 32 }
    ensures { lib.new ≡ record lib.old { sections = lib.old.sections + 1 } }
{
    lib.sections += 1;
}

/// A statement. True where it was the last.
#[tactic(auto, unfolding(crate::specs::Lef::statement))]
fn statement(
    alloc: Global,
    words: &mut Words,
    units: u32,
    lib: &mut Library,
) -> Result<bool, LefError>
    requires room { HasRoom lib.old words.old }
    requires few { skips lib.old words.old ≤ 2 ^ 32 }
    ensures reads { Reads lef_faults (λ last. turn last lib.new) result words.old words.new (statement_form units lib.old) }
    ensures few { OnOk result (skips lib.new words.new ≤ skips lib.old words.old) }
{
    let word = words.next()?;
    match statement_of(word.bytes) {
        Statement::Units => {
            units_lines(words, &mut lib.units)?;
            Ok(false)
        }
        Statement::Unused => {
            words.rest()?;
            Ok(false)
        }
        Statement::Properties => {
            words.up_to_pair(b"END", b"PROPERTYDEFINITIONS")?;
            Ok(false)
        }
        Statement::Spacings => {
            words.up_to_pair(b"END", b"SPACING")?;
            Ok(false)
        }
        Statement::Extension => {
            words.up_to(b"ENDEXT")?;
            Ok(false)
        }
        Statement::Site => {
            named_section(words)?;
            Ok(false)
        }
        Statement::Rule => {
            named_section(words)?;
            count_section(lib);
            Ok(false)
        }
        Statement::Layer => {
            layer_statement(alloc, words, units, lib)?;
            Ok(false)
        }
        Statement::Via => {
            via_statement(alloc, words, units, lib)?;
            Ok(false)
        }
        Statement::Macro => {
            macro_statement(alloc, words, units, lib)?;
            Ok(false)
        }
        Statement::End => {
            words.expect(b"LIBRARY")?;
            Ok(true)
        }
        Statement::Unknown => Err(LefError::Unknown { line: word.line }),
    }
}

/// The statements up to the end of the text.
fn statements(
    alloc: Global,
    words: &mut Words,
    units: u32,
    lib: &mut Library,
) -> Result<(), LefError>
    requires room { HasRoom lib.old words.old }
    requires few { skips lib.old words.old ≤ 2 ^ 32 }
    ensures { Looks lef_faults (λ _. lib.new) result words.old words.new (text_form (statement_form units) lib.old) }
{
    'text: while !words.is_empty() {
        if statement(alloc, words, units, lib)? {
            return words.end();
        }
    }
    Ok(())
}

/// Nothing is read yet.
fn empty(alloc: Global) -> Library
    ensures { result ≡ empty }
{
    Library {
        units: 100,
        layers: Seq::new(alloc),
        vias: Seq::new(alloc),
        macros: Seq::new(alloc),
        dropped: Seq::new(alloc),
        skipped: Seq::new(alloc),
        sections: 0,
        top: None,
        layer_names: Names::new(alloc),
        numbers: Seq::new(alloc),
        via_names: Names::new(alloc),
        macro_names: Names::new(alloc),
    }
}

/// What was read.
fn lef_of(alloc: Global, lib: Library) -> Result<Lef, LefError>
    ensures ok { IfOk result (λ l. l ≡ lef_of lib) }
    ensures err { IfErr result (λ e. e ≡ OutOfMemory) }
{
    let mut skipped = lib.skipped;
    skipped.push((Name::new(alloc, b"-")?, lib.sections))?;
    Ok(Lef {
        units: lib.units,
        layers: lib.layers,
        vias: lib.vias,
        macros: lib.macros,
        dropped: lib.dropped,
        skipped,
    })
}

/// The whole text.
#[tactic(auto, unfolding(crate::specs::Lef::lef))]
pub fn lef(alloc: Global, words: &mut Words, units: u32) -> Result<Lef, LefError>
    requires { length words.old ≤ 2 ^ 32 }
    ensures { Looks lef_faults (λ x. x) result words.old words.new (lef_form units) }
{
    let mut lib = empty(alloc);
    statements(alloc, words, units, &mut lib)?;
    lef_of(alloc, lib)
}
