//! Statements.
ghost use Rattle.std.specs.Prelude.{◌≡◌, ◌^◌, ◌+◌, ◌≤◌, length, bytes_eq, codes, IfOk, OnOk, List, ℕ};
ghost use Rattle.rt_forms.specs.Clauses.{Reads, Gives};
ghost use Rattle.rt_forms.specs.Form.{More, turn, loop};
ghost use Rattle.rt_forms.specs.Word.{place_of};
ghost use Rattle.def_text.specs.Faults.{def_faults};
ghost use Rattle.def_text.specs.Defs.{IsDef, AreRanges};
ghost use Rattle.def_text.specs.Texts.{IsParsed, units_statement as units_statement_form, die_statement as die_statement_form, tracks_statement as tracks_statement_form, vias_section as vias_section_form, components_section as components_section_form, pins_section as pins_section_form, blockages_section as blockages_section_form, special_section as special_section_form, nets_section as nets_section_form, statement as statement_form, or_none as or_none_of, finished as finished_of, AreNetsNamed};

use crate::blockages::{Blocked, blockages};
use crate::components::components;
use crate::def::{Component, Def, DefNet, DefVia, IoPin, TrackRow};
use crate::error::DefError;
use crate::kinds::{Statement, statement_of};
use crate::nets::nets;
use crate::parts::{Words, count, once};
use crate::pins::pins;
use crate::sections::{Listed, said_count};
use crate::special::specials;
use crate::tracks::{die, track_row};
use crate::vias::vias;
use rt_base::{Name, Rect, Seq};
use rt_forms::{Names, Word};
use std::alloc::Global;

/// What was read of a text. A section that hasn't stood yet is None.
#[derive(Drop)]
pub struct Parsed {
    /// How many words the text has.
    pub total: u32,
    pub units: Option<u32>,
    pub die: Option<Rect>,
    pub tracks: Seq<TrackRow>,
    pub vias: Option<Seq<DefVia>>,
    pub components: Option<Seq<Component>>,
    pub pins: Option<Seq<IoPin>>,
    pub blockages: Option<Seq<(Name, Rect)>>,
    pub special: Option<Seq<DefNet>>,
    pub nets: Option<Seq<DefNet>>,
    pub skipped: u32,
}

/// `UNITS DISTANCE MICRONS n ;` behind its first word.
#[tactic(auto, unfolding(crate::specs::Texts::units_statement))]
fn units_statement(
    alloc: Global,
    words: &mut Words,
    word: Word,
    parsed: &mut Parsed,
) -> Result<(), DefError>
    requires { IsParsed parsed.old }
    ensures reads { Reads def_faults (λ _. More parsed.new) result words.old words.new (units_statement_form (place_of word.entry) parsed.old) }
    ensures sound { OnOk result (IsParsed parsed.new) }
    ensures total { OnOk result (parsed.new.total ≡ parsed.old.total) }
    ensures few { OnOk result (parsed.new.skipped + length words.new ≤ parsed.old.skipped + length words.old) }
{
    once(alloc, &parsed.units, word)?;
    words.expect(b"DISTANCE")?;
    words.expect(b"MICRONS")?;
    let units = count(words, 1, 1_000_000)?;
    words.semicolon()?;
    parsed.units = Some(units);
    Ok(())
}

/// `DIEAREA` behind its first word.
#[tactic(auto, unfolding(crate::specs::Texts::die_statement))]
fn die_statement(
    alloc: Global,
    words: &mut Words,
    word: Word,
    parsed: &mut Parsed,
) -> Result<(), DefError>
    requires { IsParsed parsed.old }
    ensures reads { Reads def_faults (λ _. More parsed.new) result words.old words.new (die_statement_form (place_of word.entry) parsed.old) }
    ensures sound { OnOk result (IsParsed parsed.new) }
    ensures total { OnOk result (parsed.new.total ≡ parsed.old.total) }
    ensures few { OnOk result (parsed.new.skipped + length words.new ≤ parsed.old.skipped + length words.old) }
{
    once(alloc, &parsed.die, word)?;
    parsed.die = Some(die(words)?);
    Ok(())
}

/// `TRACKS` behind its first word.
#[tactic(auto, unfolding(crate::specs::Texts::tracks_statement))]
fn tracks_statement(alloc: Global, words: &mut Words, parsed: &mut Parsed) -> Result<(), DefError>
    requires { IsParsed parsed.old }
    ensures reads { Reads def_faults (λ _. More parsed.new) result words.old words.new (tracks_statement_form parsed.old) }
    ensures sound { OnOk result (IsParsed parsed.new) }
    ensures total { OnOk result (parsed.new.total ≡ parsed.old.total) }
    ensures few { OnOk result (parsed.new.skipped + length words.new ≤ parsed.old.skipped + length words.old) }
{
    parsed.tracks.push(track_row(alloc, words)?)?;
    Ok(())
}

/// `VIAS` behind its first word.
#[tactic(auto, unfolding(crate::specs::Texts::vias_section))]
fn vias_section(
    alloc: Global,
    words: &mut Words,
    word: Word,
    parsed: &mut Parsed,
) -> Result<(), DefError>
    requires { IsParsed parsed.old }
    ensures reads { Reads def_faults (λ _. More parsed.new) result words.old words.new (vias_section_form (place_of word.entry) parsed.old) }
    ensures sound { OnOk result (IsParsed parsed.new) }
    ensures total { OnOk result (parsed.new.total ≡ parsed.old.total) }
    ensures few { OnOk result (parsed.new.skipped + length words.new ≤ parsed.old.skipped + length words.old) }
{
    once(alloc, &parsed.vias, word)?;
    let said = said_count(words)?;
    let mut listed = Listed {
        names: Names::new(alloc),
        items: Seq::new(alloc),
        skipped: parsed.skipped,
    };
    vias(alloc, words, parsed.total, said, &mut listed)?;
    parsed.vias = Some(listed.items);
    parsed.skipped = listed.skipped;
    Ok(())
}

/// `COMPONENTS` behind its first word.
#[tactic(auto, unfolding(crate::specs::Texts::components_section))]
fn components_section(
    alloc: Global,
    words: &mut Words,
    word: Word,
    parsed: &mut Parsed,
) -> Result<(), DefError>
    requires { IsParsed parsed.old }
    ensures reads { Reads def_faults (λ _. More parsed.new) result words.old words.new (components_section_form (place_of word.entry) parsed.old) }
    ensures sound { OnOk result (IsParsed parsed.new) }
    ensures total { OnOk result (parsed.new.total ≡ parsed.old.total) }
    ensures few { OnOk result (parsed.new.skipped + length words.new ≤ parsed.old.skipped + length words.old) }
{
    once(alloc, &parsed.components, word)?;
    let said = said_count(words)?;
    let mut listed = Listed {
        names: Names::new(alloc),
        items: Seq::new(alloc),
        skipped: parsed.skipped,
    };
    components(alloc, words, said, &mut listed)?;
    parsed.components = Some(listed.items);
    parsed.skipped = listed.skipped;
    Ok(())
}

/// `PINS` behind its first word.
#[tactic(auto, unfolding(crate::specs::Texts::pins_section))]
fn pins_section(
    alloc: Global,
    words: &mut Words,
    word: Word,
    parsed: &mut Parsed,
) -> Result<(), DefError>
    requires { IsParsed parsed.old }
    ensures reads { Reads def_faults (λ _. More parsed.new) result words.old words.new (pins_section_form (place_of word.entry) parsed.old) }
    ensures sound { OnOk result (IsParsed parsed.new) }
    ensures total { OnOk result (parsed.new.total ≡ parsed.old.total) }
    ensures few { OnOk result (parsed.new.skipped + length words.new ≤ parsed.old.skipped + length words.old) }
{
    once(alloc, &parsed.pins, word)?;
    let said = said_count(words)?;
    let mut listed = Listed {
        names: Names::new(alloc),
        items: Seq::new(alloc),
        skipped: parsed.skipped,
    };
    pins(alloc, words, said, &mut listed)?;
    parsed.pins = Some(listed.items);
    parsed.skipped = listed.skipped;
    Ok(())
}

/// `BLOCKAGES` behind its first word.
#[tactic(auto, unfolding(crate::specs::Texts::blockages_section))]
fn blockages_section(
    alloc: Global,
    words: &mut Words,
    word: Word,
    parsed: &mut Parsed,
) -> Result<(), DefError>
    requires sound { IsParsed parsed.old }
    requires few { parsed.old.skipped + length words.old ≤ 2 ^ 32 }
    ensures reads { Reads def_faults (λ _. More parsed.new) result words.old words.new (blockages_section_form (place_of word.entry) parsed.old) }
    ensures sound { OnOk result (IsParsed parsed.new) }
    ensures total { OnOk result (parsed.new.total ≡ parsed.old.total) }
    ensures few { OnOk result (parsed.new.skipped + length words.new ≤ parsed.old.skipped + length words.old) }
{
    once(alloc, &parsed.blockages, word)?;
    let said = said_count(words)?;
    let mut blocked = Blocked {
        metal: Seq::new(alloc),
        found: 0,
        skipped: parsed.skipped,
    };
    blockages(alloc, words, said, &mut blocked)?;
    parsed.blockages = Some(blocked.metal);
    parsed.skipped = blocked.skipped;
    Ok(())
}

/// `SPECIALNETS` behind its first word.
#[tactic(auto, unfolding(crate::specs::Texts::special_section))]
fn special_section(
    alloc: Global,
    words: &mut Words,
    word: Word,
    parsed: &mut Parsed,
) -> Result<(), DefError>
    requires { IsParsed parsed.old }
    ensures reads { Reads def_faults (λ _. More parsed.new) result words.old words.new (special_section_form (place_of word.entry) parsed.old) }
    ensures sound { OnOk result (IsParsed parsed.new) }
    ensures total { OnOk result (parsed.new.total ≡ parsed.old.total) }
    ensures few { OnOk result (parsed.new.skipped + length words.new ≤ parsed.old.skipped + length words.old) }
{
    once(alloc, &parsed.special, word)?;
    let said = said_count(words)?;
    let mut listed = Listed {
        names: Names::new(alloc),
        items: Seq::new(alloc),
        skipped: parsed.skipped,
    };
    specials(alloc, words, parsed.total, said, &mut listed)?;
    parsed.special = Some(listed.items);
    parsed.skipped = listed.skipped;
    Ok(())
}

/// `NETS` behind its first word.
#[tactic(auto, unfolding(crate::specs::Texts::nets_section))]
fn nets_section(
    alloc: Global,
    words: &mut Words,
    word: Word,
    parsed: &mut Parsed,
) -> Result<(), DefError>
    requires sound { IsParsed parsed.old }
    requires few { parsed.old.skipped + length words.old ≤ 2 ^ 32 }
    ensures reads { Reads def_faults (λ _. More parsed.new) result words.old words.new (nets_section_form (place_of word.entry) parsed.old) }
    ensures sound { OnOk result (IsParsed parsed.new) }
    ensures total { OnOk result (parsed.new.total ≡ parsed.old.total) }
    ensures few { OnOk result (parsed.new.skipped + length words.new ≤ parsed.old.skipped + length words.old) }
{
    once(alloc, &parsed.nets, word)?;
    let said = said_count(words)?;
    let mut listed = Listed {
        names: Names::new(alloc),
        items: Seq::new(alloc),
        skipped: parsed.skipped,
    };
    nets(alloc, words, parsed.total, said, &mut listed)?;
    parsed.nets = Some(listed.items);
    parsed.skipped = listed.skipped;
    Ok(())
}

/// A statement. True where it was the last.
#[tactic(auto, unfolding(crate::specs::Texts::statement))]
pub fn statement(alloc: Global, words: &mut Words, parsed: &mut Parsed) -> Result<bool, DefError>
    requires sound { IsParsed parsed.old }
    requires few { parsed.old.skipped + length words.old ≤ 2 ^ 32 }
    ensures reads { Reads def_faults (λ last. turn last parsed.new) result words.old words.new (statement_form parsed.old) }
    ensures sound { OnOk result (IsParsed parsed.new) }
    ensures total { OnOk result (parsed.new.total ≡ parsed.old.total) }
    ensures few { OnOk result (parsed.new.skipped + length words.new ≤ parsed.old.skipped + length words.old) }
{
    let word = words.next()?;
    match statement_of(word.bytes) {
        Statement::Units => {
            units_statement(alloc, words, word, parsed)?;
            Ok(false)
        }
        Statement::Die => {
            die_statement(alloc, words, word, parsed)?;
            Ok(false)
        }
        Statement::Tracks => {
            tracks_statement(alloc, words, parsed)?;
            Ok(false)
        }
        Statement::Vias => {
            vias_section(alloc, words, word, parsed)?;
            Ok(false)
        }
        Statement::Components => {
            components_section(alloc, words, word, parsed)?;
            Ok(false)
        }
        Statement::Pins => {
            pins_section(alloc, words, word, parsed)?;
            Ok(false)
        }
        Statement::Blockages => {
            blockages_section(alloc, words, word, parsed)?;
            Ok(false)
        }
        Statement::Special => {
            special_section(alloc, words, word, parsed)?;
            Ok(false)
        }
        Statement::Nets => {
            nets_section(alloc, words, word, parsed)?;
            Ok(false)
        }
        Statement::Unused => {
            words.rest()?;
            Ok(false)
        }
        Statement::Skipped => {
            words.up_to_pair(b"END", word.bytes)?;
            Ok(false)
        }
        Statement::Extension => {
            words.up_to(b"ENDEXT")?;
            Ok(false)
        }
        Statement::End => {
            words.expect(b"DESIGN")?;
            Ok(true)
        }
        Statement::Other => Err(DefError::Unknown { line: word.line }),
    }
}

/// The items of a section, none where it didn't stand.
fn or_none<T: Drop>(alloc: Global, items: Option<Seq<T>>) -> Seq<T>
    ensures { result ≡ or_none_of items }
{
    match items {
        None => Seq::new(alloc),
        Some(items) => items,
    }
}

/// What a text says, at its end.
pub fn finished(alloc: Global, parsed: Parsed) -> Result<Def, DefError>
    requires { IsParsed parsed }
    ensures gives { Gives def_faults (λ x. x) result (finished_of parsed) }
    ensures sound { IfOk result (λ d. AreNetsNamed d → IsDef d) }
    ensures ranges { IfOk result (λ d. AreRanges parsed.total d) }
{
    let Some(units) = parsed.units else {
        return Err(DefError::Missing {
            what: Name::new(alloc, b"units")?,
        });
    };
    let Some(die) = parsed.die else {
        return Err(DefError::Missing {
            what: Name::new(alloc, b"die-area")?,
        });
    };
    Ok(Def {
        units,
        die,
        tracks: parsed.tracks,
        vias: or_none(alloc, parsed.vias),
        components: or_none(alloc, parsed.components),
        pins: or_none(alloc, parsed.pins),
        blockages: or_none(alloc, parsed.blockages),
        special: or_none(alloc, parsed.special),
        nets: or_none(alloc, parsed.nets),
        skipped: parsed.skipped,
    })
}
