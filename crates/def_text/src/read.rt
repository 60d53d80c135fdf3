//! DEF texts.
ghost use Rattle.std.specs.Prelude.{◌≡◌, ◌<◌, ◌≤◌, ◌+◌, ◌^◌, length, IfOk, OnOk};
ghost use Rattle.rt_base.specs.Scan.{IsCutInto};
ghost use Rattle.rt_forms.specs.Bytes.{ReadsBytes, unread as unread_of};
ghost use Rattle.rt_forms.specs.Clauses.{Reads, Looks, ReadsText};
ghost use Rattle.rt_forms.specs.Form.{turn, loop};
ghost use Rattle.rt_forms.specs.Reading.{left_of};
ghost use Rattle.def_text.specs.declared.error.DefError.TheVariants.{Scan};
ghost use Rattle.def_text.specs.Faults.{def_faults};
ghost use Rattle.def_text.specs.Defs.{IsDef, AreRanges, AreCloses};
ghost use Rattle.def_text.specs.Texts.{IsParsed, statement as statement_form, until_units as until_units_form, nothing_read, a_def as a_def_form, def_form, units_form, AreNetsNamed};
ghost use Rattle.def_text.specs.Clauses.{ReadsBeginning};

use crate::def::Def;
use crate::error::DefError;
use crate::parts::Words;
use crate::statements::{Parsed, finished, statement};
use rt_base::{Name, ScanError, Seq, Token, tokens};
use std::alloc::Global;

/// Nothing was read yet of a text of so many words.
fn nothing_read(alloc: Global, total: u32) -> Parsed
    ensures value { result ≡ nothing_read total }
    ensures sound { IsParsed result }
{
    Parsed {
        total,
        units: None,
        die: None,
        tracks: Seq::new(alloc),
        vias: None,
        components: None,
        pins: None,
        blockages: None,
        special: None,
        nets: None,
        skipped: 0,
    }
}

/// The statements of a text up to its end.
fn statements(alloc: Global, words: &mut Words, parsed: &mut Parsed) -> Result<(), DefError>
    requires sound { IsParsed parsed.old }
    requires few { parsed.old.skipped + length words.old ≤ 2 ^ 32 }
    ensures reads { Reads def_faults (λ _. parsed.new) result words.old words.new (loop statement_form parsed.old) }
    ensures sound { OnOk result (IsParsed parsed.new) }
    ensures total { OnOk result (parsed.new.total ≡ parsed.old.total) }
{
    'statements: while !statement(alloc, words, parsed)? {}
    Ok(())
}

/// What a text says, up to `END DESIGN`.
#[tactic(auto, unfolding(crate::specs::Texts::a_def))]
fn a_def(alloc: Global, words: &mut Words, total: u32) -> Result<Def, DefError>
    requires few { length words.old ≤ 2 ^ 32 }
    requires total { left_of words.old ≡ total }
    ensures reads { Reads def_faults (λ x. x) result words.old words.new a_def_form }
    ensures sound { IfOk result (λ d. AreNetsNamed d → IsDef d) }
    ensures ranges { IfOk result (λ d. AreRanges total d) }
{
    let mut parsed = nothing_read(alloc, total);
    statements(alloc, words, &mut parsed)?;
    finished(alloc, parsed)
}

/// What a text says, with nothing behind `END DESIGN`.
fn whole_def(alloc: Global, words: &mut Words, total: u32) -> Result<Def, DefError>
    requires few { length words.old ≤ 2 ^ 32 }
    requires total { left_of words.old ≡ total }
    ensures reads { Looks def_faults (λ x. x) result words.old words.new def_form }
    ensures sound { IfOk result (λ d. AreNetsNamed d → IsDef d) }
    ensures ranges { IfOk result (λ d. AreRanges total d) }
{
    let def = a_def(alloc, words, total)?;
    words.end()?;
    Ok(def)
}

/// A statement. True where the units stand, or where it was the last.
#[tactic(auto, unfolding(crate::specs::Texts::until_units))]
fn until_units(alloc: Global, words: &mut Words, parsed: &mut Parsed) -> Result<bool, DefError>
    requires sound { IsParsed parsed.old }
    requires few { parsed.old.skipped + length words.old ≤ 2 ^ 32 }
    ensures reads { Reads def_faults (λ last. turn last parsed.new) result words.old words.new (until_units_form parsed.old) }
    ensures sound { OnOk result (IsParsed parsed.new) }
    ensures total { OnOk result (parsed.new.total ≡ parsed.old.total) }
    ensures few { OnOk result (parsed.new.skipped + length words.new ≤ parsed.old.skipped + length words.old) }
{
    let last = statement(alloc, words, parsed)?;
    Ok(last || parsed.units.is_some())
}

/// The statements of a text up to its units.
fn before_units(alloc: Global, words: &mut Words, parsed: &mut Parsed) -> Result<(), DefError>
    requires sound { IsParsed parsed.old }
    requires few { parsed.old.skipped + length words.old ≤ 2 ^ 32 }
    ensures { Reads def_faults (λ _. parsed.new) result words.old words.new (loop until_units_form parsed.old) }
{
    'statements: while !until_units(alloc, words, parsed)? {}
    Ok(())
}

/// The units of a text.
#[tactic(auto, unfolding(crate::specs::Texts::units_form))]
fn the_units(alloc: Global, words: &mut Words, total: u32) -> Result<u32, DefError>
    requires few { length words.old ≤ 2 ^ 32 }
    requires total { left_of words.old ≡ total }
    ensures { Reads def_faults (λ x. x) result words.old words.new units_form }
{
    let mut parsed = nothing_read(alloc, total);
    before_units(alloc, words, &mut parsed)?;
    match parsed.units {
        None => Err(DefError::Missing {
            what: Name::new(alloc, b"units")?,
        }),
        Some(units) => Ok(units),
    }
}

/// The database units per micron of a text with these tokens, read up to the `;` of UNITS: what
/// stands behind it isn't looked at. `Missing` comes where `END DESIGN` stands first.
pub fn read_units_tokens(alloc: Global, text: &[u8], tokens: &[Token]) -> Result<u32, DefError>
    requires text { length text.now < 2 ^ 32 }
    requires tokens { IsCutInto text.now tokens.now }
    ensures { ReadsBeginning units_form text.now tokens.now result }
{
    let mut words = Words::new(text, tokens);
    the_units(alloc, &mut words, tokens.len() as u32)
}

/// What a text with these tokens says (DEF 5.8): statements and sections in any order, ended by
/// `END DESIGN`. Each refusal is that of the first word that isn't admitted; which fault it is says
/// [`DefError`].
pub fn read_def_tokens(alloc: Global, text: &[u8], tokens: &[Token]) -> Result<Def, DefError>
    requires text { length text.now < 2 ^ 32 }
    requires tokens { IsCutInto text.now tokens.now }
    ensures reads { ReadsText def_faults (λ x. x) def_form text.now tokens.now result }
    ensures fits { IfOk result (λ d. IsDef d) }
    ensures ranges { IfOk result (λ d. AreRanges (length tokens.now) d) }
    ensures closes { IfOk result (λ d. AreCloses (length text.now) d.nets) }
{
    let mut words = Words::new(text, tokens);
    whole_def(alloc, &mut words, tokens.len() as u32)
}

/// Why a text has no tokens, as an error of DEF.
fn unread(error: ScanError) -> DefError
    ensures { result ≡ unread_of def_faults Scan error }
{
    match error {
        ScanError::Memory => DefError::Memory,
        ScanError::UnclosedQuote { line } => DefError::Scan(ScanError::UnclosedQuote { line }),
        ScanError::NotText { line } => DefError::Scan(ScanError::NotText { line }),
    }
}

/// Cuts a text into tokens and reads its database units per micron, as `read_units_tokens` does.
pub fn read_units(alloc: Global, text: &[u8]) -> Result<u32, DefError>
    requires { length text.now < 2 ^ 32 }
    ensures { ReadsBytes def_faults Scan (λ tokens r. ReadsBeginning units_form text.now tokens r) text.now result }
{
    match tokens(alloc, text) {
        Ok(tokens) => read_units_tokens(alloc, text, tokens.as_slice()),
        Err(error) => Err(unread(error)),
    }
}

/// Cuts a text into tokens and reads it, as `read_def_tokens` does. `Scan` is a fault of the bytes; it
/// comes before any other.
pub fn read_def(alloc: Global, text: &[u8]) -> Result<Def, DefError>
    requires { length text.now < 2 ^ 32 }
    ensures reads { ReadsBytes def_faults Scan (λ tokens r. ReadsText def_faults (λ x. x) def_form text.now tokens r) text.now result }
    ensures fits { IfOk result (λ d. IsDef d) }
    ensures closes { IfOk result (λ d. AreCloses (length text.now) d.nets) }
{
    match tokens(alloc, text) {
        Ok(tokens) => read_def_tokens(alloc, text, tokens.as_slice()),
        Err(error) => Err(unread(error)),
    }
}
