//! LAYER.
ghost use Rattle.std.specs.Prelude.{◌≡◌, ◌+◌, ◌<◌, ◌≤◌, ◌^◌, length, ◌++◌, ◌∷◌, [], Ok, IfOk, IfErr, OnOk};
ghost use Rattle.rt_forms.specs.Clauses.{Reads, Gives};
ghost use Rattle.rt_forms.specs.Form.{one, loop, More, Done, turn};
ghost use Rattle.rt_forms.specs.Word.{place_of};
ghost use Rattle.lef_text.specs.declared.error.LefError.TheVariants.{Memory as OutOfMemory};
ghost use Rattle.lef_text.specs.Counts.{HasRoom, skips};
ghost use Rattle.lef_text.specs.Faults.{lef_faults};
ghost use Rattle.lef_text.specs.Layers.{new_name as new_name_form, layer_type as layer_type_form, direction_word, spacing_line as spacing_line_form, lack_of, crosses, whole_layer as whole_layer_form, end_of_layer as end_of_layer_form, layer_line as layer_line_form, dropped_line as dropped_line_form, layer_at_end, top_at_end, with_layer, with_dropped, used_layer as used_layer_form, dropped_layer as dropped_layer_form, layer_statement as layer_statement_form};

use crate::error::{LefError, What};
use crate::layer_words::{LayerLine, layer_line_of};
use crate::library::{LayerLines, LayerType, Library};
use crate::numbers::{Words, length_at_least, length_line};
use crate::tables::{count_line, density_line, greatest, table_line};
use rt_base::{Layer, LayerNo, Name, Seq, SpacingTable};
use rt_forms::{Names, Word};
use std::alloc::Global;

/// Takes a name that isn't among these, and adds it to them.
pub fn new_name<'a>(
    alloc: Global,
    words: &mut Words<'a>,
    names: &mut Names,
) -> Result<Word<'a>, LefError>
    ensures reads { Reads lef_faults place_of result words.old words.new (one (new_name_form names.old)) }
    ensures names { IfOk result (λ w. names.new ≡ names.old ++ w.bytes.now ∷ []) }
{
    let name = words.next()?;
    if !name.is_name() {
        return Err(LefError::Expected { line: name.line });
    }
    if !names.add(alloc, name.bytes)? {
        return Err(LefError::Twice {
            line: name.line,
            name: Name::new(alloc, name.bytes)?,
        });
    }
    Ok(name)
}

/// `TYPE type ;`
#[tactic(auto, unfolding(crate::specs::Layers::layer_type))]
fn layer_type(words: &mut Words) -> Result<LayerType, LefError>
    ensures { Reads lef_faults (λ x. x) result words.old words.new layer_type_form }
{
    let first = words.next()?;
    if !first.is(b"TYPE") {
        return Err(LefError::Unknown { line: first.line });
    }
    let word = words.next()?;
    let layer_type = if word.is(b"ROUTING") {
        LayerType::Routing
    } else if word.is(b"CUT") {
        LayerType::Cut
    } else if word.is(b"MASTERSLICE") || word.is(b"OVERLAP") || word.is(b"IMPLANT") {
        LayerType::Other
    } else {
        return Err(LefError::Expected { line: word.line });
    };
    words.semicolon()?;
    Ok(layer_type)
}

/// HORIZONTAL, which is true, or VERTICAL.
fn direction(alloc: Global, words: &mut Words) -> Result<bool, LefError>
    ensures { Reads lef_faults (λ x. x) result words.old words.new (one direction_word) }
{
    let word = words.next()?;
    if word.is(b"HORIZONTAL") {
        return Ok(true);
    }
    if word.is(b"VERTICAL") {
        return Ok(false);
    }
    if !word.is_name() {
        return Err(LefError::Expected { line: word.line });
    }
    Err(LefError::Refused {
        line: word.line,
        word: Name::new(alloc, word.bytes)?,
    })
}

/// `SPACING v ;` behind its first word, or another form of it, which is counted.
#[tactic(auto, unfolding(crate::specs::Layers::spacing_line))]
fn spacing_line(words: &mut Words, units: u32, lines: &mut LayerLines) -> Result<(), LefError>
    requires { lines.old.skipped + length words.old < 2 ^ 32 }
    ensures reads { Reads lef_faults (λ _. More lines.new) result words.old words.new (spacing_line_form units lines.old) }
    ensures few { OnOk result (lines.new.skipped + length words.new ≤ lines.old.skipped + length words.old) }
{
    let value = words.next()?;
    if value.is(b";") {
        count_line(lines);
        return Ok(());
    }
    if words.next()?.is(b";") {
        let n = length_at_least(value, units, 0)?;
        lines.spacing = Some(greatest(lines.spacing, n));
        return Ok(());
    }
    words.rest()?;
    count_line(lines);
    Ok(())
}

/// What a routing layer lacks.
fn lack_of(lines: &LayerLines) -> Option<What>
    ensures { result ≡ lack_of lines.now.horizontal lines.now.width lines.now.spacing }
{
    if lines.horizontal.is_none() {
        return Some(What::Direction);
    }
    if lines.width.is_none() {
        return Some(What::Width);
    }
    if lines.spacing.is_none() {
        return Some(What::Spacing);
    }
    None
}

/// The tests at the end of a layer. `top` is the routing layer below.
fn whole_layer(
    alloc: Global,
    top: &Option<(Name, bool)>,
    lines: &LayerLines,
) -> Result<(), LefError>
    ensures { Gives lef_faults (λ x. x) result (whole_layer_form top.now lines.now) }
{
    if !lines.routing {
        return Ok(());
    }
    if let Some(what) = lack_of(lines) {
        return Err(LefError::LayerWithout {
            name: Name::new(alloc, lines.name.bytes())?,
            what,
        });
    }
    if lines.width.unwrap_or(0).unsigned_abs() % 2 != 0 {
        return Err(LefError::OddWidth {
            name: Name::new(alloc, lines.name.bytes())?,
        });
    }
    crosses(
        alloc,
        top,
        lines.name.bytes(),
        lines.horizontal.unwrap_or(false),
    )
}

/// The routing layer below has another direction.
fn crosses(
    alloc: Global,
    top: &Option<(Name, bool)>,
    name: &[u8],
    horizontal: bool,
) -> Result<(), LefError>
    ensures { Gives lef_faults (λ x. x) result (crosses top.now name.now horizontal) }
{
    match top {
        None => Ok(()),
        Some((below, direction)) => {
            if *direction == horizontal {
                return Err(LefError::SameDirection {
                    lower: Name::new(alloc, below.bytes())?,
                    upper: Name::new(alloc, name)?,
                });
            }
            Ok(())
        }
    }
}

/// The end of a layer behind END.
#[tactic(auto, unfolding(crate::specs::Layers::end_of_layer))]
fn end_of_layer(
    alloc: Global,
    words: &mut Words,
    top: &Option<(Name, bool)>,
    lines: &LayerLines,
) -> Result<(), LefError>
    ensures { Reads lef_faults (λ _. Done lines.now) result words.old words.new (end_of_layer_form top.now lines.now) }
{
    whole_layer(alloc, top, lines)?;
    words.expect(lines.name.bytes())
}

/// A line of a routing or cut layer. True where it was the last.
#[tactic(auto, unfolding(crate::specs::Layers::layer_line))]
fn layer_line(
    alloc: Global,
    words: &mut Words,
    units: u32,
    top: &Option<(Name, bool)>,
    lines: &mut LayerLines,
) -> Result<bool, LefError>
    requires { lines.old.skipped + length words.old ≤ 2 ^ 32 }
    ensures reads { Reads lef_faults (λ last. turn last lines.new) result words.old words.new (layer_line_form units top.now lines.old) }
    ensures few { OnOk result (lines.new.skipped + length words.new ≤ lines.old.skipped + length words.old) }
{
    let word = words.next()?;
    match layer_line_of(word.bytes) {
        LayerLine::Direction => {
            lines.horizontal = Some(direction(alloc, words)?);
            words.semicolon()?;
            Ok(false)
        }
        LayerLine::Unused => {
            words.rest()?;
            Ok(false)
        }
        LayerLine::Width => {
            lines.width = Some(length_line(words, units, 1)?);
            Ok(false)
        }
        LayerLine::Spacing => {
            spacing_line(words, units, lines)?;
            Ok(false)
        }
        LayerLine::SpacingTable => {
            table_line(alloc, words, units, lines)?;
            Ok(false)
        }
        LayerLine::CurrentDensity => {
            density_line(words, lines)?;
            Ok(false)
        }
        LayerLine::End => {
            end_of_layer(alloc, words, top, lines)?;
            Ok(true)
        }
        LayerLine::Other => {
            if !word.is_name() {
                return Err(LefError::Unknown { line: word.line });
            }
            words.rest()?;
            count_line(lines);
            Ok(false)
        }
    }
}

/// The lines of a routing or cut layer, and its end.
fn layer_lines(
    alloc: Global,
    words: &mut Words,
    units: u32,
    top: &Option<(Name, bool)>,
    lines: &mut LayerLines,
) -> Result<(), LefError>
    requires { lines.old.skipped + length words.old ≤ 2 ^ 32 }
    ensures reads { Reads lef_faults (λ _. lines.new) result words.old words.new (loop (layer_line_form units top.now) lines.old) }
    ensures few { OnOk result (lines.new.skipped + length words.new ≤ lines.old.skipped + length words.old) }
{
    'lines: while !layer_line(alloc, words, units, top, lines)? {}
    Ok(())
}

/// A line of a layer of another type. True where it was the last.
#[tactic(auto, unfolding(crate::specs::Layers::dropped_line))]
fn dropped_line(words: &mut Words, name: &[u8]) -> Result<bool, LefError>
    ensures { Reads lef_faults (λ last. turn last tt) result words.old words.new (dropped_line_form name.now tt) }
{
    let word = words.next()?;
    if word.is(b"END") {
        words.expect(name)?;
        return Ok(true);
    }
    if !word.is_name() {
        return Err(LefError::Unknown { line: word.line });
    }
    words.rest()?;
    Ok(false)
}

/// The lines of a layer of another type, and its end.
fn dropped_lines(words: &mut Words, name: &[u8]) -> Result<(), LefError>
    ensures { Reads lef_faults (λ x. x) result words.old words.new (loop (dropped_line_form name.now) tt) }
{
    'lines: while !dropped_line(words, name)? {}
    Ok(())
}

/// A layer is the uppermost routing layer, if it is one.
fn raise_top(
    alloc: Global,
    top: &mut Option<(Name, bool)>,
    lines: &LayerLines,
) -> Result<(), LefError>
    ensures ok { OnOk result (top.new ≡ top_at_end top.old lines.now) }
    ensures err { IfErr result (λ e. e ≡ OutOfMemory) }
{
    if lines.routing {
        let name = Name::new(alloc, lines.name.bytes())?;
        *top = Some((name, lines.horizontal.unwrap_or(false)));
        return Ok(());
    }
    Ok(())
}

/// The layer that these lines make.
fn layer_at_end(lines: LayerLines) -> Layer
    ensures { result ≡ layer_at_end lines }
{
    Layer {
        name: lines.name,
        routing: lines.routing,
        horizontal: lines.horizontal.unwrap_or(false),
        width: lines.width.unwrap_or(0),
        spacing: 0i64.max(lines.spacing.unwrap_or(0)),
        table: lines.table,
    }
}

/// Adds a routing or cut layer.
fn add_layer(alloc: Global, lib: &mut Library, lines: LayerLines) -> Result<(), LefError>
    requires { length lib.old.layers < 2 ^ 32 }
    ensures ok { OnOk result (lib.new ≡ with_layer lib.old lines) }
    ensures err { IfErr result (λ e. e ≡ OutOfMemory) }
{
    let number = lib.layers.len() as u32;
    let counted = Name::new(alloc, lines.name.bytes())?;
    let skipped = lines.skipped;
    raise_top(alloc, &mut lib.top, &lines)?;
    lib.layers.push(layer_at_end(lines))?;
    lib.skipped.push((counted, skipped))?;
    lib.numbers.push(Some(LayerNo(number)))?;
    Ok(())
}

/// A routing or cut layer behind its TYPE.
#[tactic(auto, unfolding(crate::specs::Layers::used_layer))]
fn used_layer(
    alloc: Global,
    words: &mut Words,
    units: u32,
    lib: &mut Library,
    name: Word,
    routing: bool,
) -> Result<(), LefError>
    requires { HasRoom lib.old words.old }
    ensures reads { Reads lef_faults (λ _. More lib.new) result words.old words.new (used_layer_form units lib.old name.entry.bytes.now routing) }
    ensures few { OnOk result (skips lib.new words.new ≤ skips lib.old words.old) }
{
    let mut lines = LayerLines {
        name: Name::new(alloc, name.bytes)?,
        routing,
        horizontal: None,
        width: None,
        spacing: None,
        table: SpacingTable {
            lengths: Seq::new(alloc),
            rows: Seq::new(alloc),
        },
        skipped: 0,
    };
    layer_lines(alloc, words, units, &lib.top, &mut lines)?;
    add_layer(alloc, lib, lines)
}

/// A layer of another type behind its TYPE.
#[tactic(auto, unfolding(crate::specs::Layers::dropped_layer))]
fn dropped_layer(
    alloc: Global,
    words: &mut Words,
    lib: &mut Library,
    name: Word,
) -> Result<(), LefError>
    ensures reads { Reads lef_faults (λ _. More lib.new) result words.old words.new (dropped_layer_form lib.old name.entry.bytes.now) }
    ensures few { OnOk result (skips lib.new words.new ≤ skips lib.old words.old) }
{
    dropped_lines(words, name.bytes)?;
    lib.dropped.push(Name::new(alloc, name.bytes)?)?;
    lib.skipped.push((Name::new(alloc, name.bytes)?, 0))?;
    lib.numbers.push(None)?;
    Ok(())
}

/// A layer behind the word LAYER.
#[tactic(auto, unfolding(crate::specs::Layers::layer_statement))]
pub fn layer_statement(
    alloc: Global,
    words: &mut Words,
    units: u32,
    lib: &mut Library,
) -> Result<(), LefError>
    requires { HasRoom lib.old words.old }
    ensures reads { Reads lef_faults (λ _. More lib.new) result words.old words.new (layer_statement_form units lib.old) }
    ensures few { OnOk result (skips lib.new words.new ≤ skips lib.old words.old) }
{
    let name = new_name(alloc, words, &mut lib.layer_names)?;
    match layer_type(words)? {
        LayerType::Routing => used_layer(alloc, words, units, lib, name, true),
        LayerType::Cut => used_layer(alloc, words, units, lib, name, false),
        LayerType::Other => dropped_layer(alloc, words, lib, name),
    }
}
