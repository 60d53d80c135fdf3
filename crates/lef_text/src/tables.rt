//! SPACINGTABLE and current densities.
ghost use Rattle.std.specs.Prelude.{◌≡◌, ◌+◌, ◌<◌, ◌≤◌, ◌^◌, length, OnOk};
ghost use Rattle.rt_forms.specs.Clauses.{Reads, Gives};
ghost use Rattle.rt_forms.specs.Form.{one, loop, More, turn};
ghost use Rattle.rt_forms.specs.Word.{place_of};
ghost use Rattle.lef_text.specs.Faults.{lef_faults};
ghost use Rattle.lef_text.specs.Tables.{counted, greatest as greatest_form, next_above as next_above_form, length_turn as length_turn_form, spacing_turn as spacing_turn_form, row_end as row_end_form, row_turn as row_turn_form, first_entry as first_entry_form, only_table as only_table_form, with_table as with_table_form, run_table as run_table_form, table_line as table_line_form, is_numeral, density_line as density_line_form};

use crate::error::LefError;
use crate::library::{LayerLines, Lengths, Rows};
use crate::numbers::{Words, number};
use rt_base::{Name, Seq, SpacingTable};
use rt_forms::Word;
use rt_words::{NumberFault, decimal};
use std::alloc::Global;

/// Counts a line.
pub fn count_line(lines: &mut LayerLines)
    requires { lines.old.skipped + 1 < 2 ^ 32 }
    ensures { More lines.new ≡ counted lines.old }
{
    lines.skipped += 1;
}

pub fn greatest(spacing: Option<i64>, n: i64) -> i64
    ensures { result ≡ greatest_form spacing n }
{
    match spacing {
        None => n,
        Some(m) => m.max(n),
    }
}

/// The length that a word means, above the last one.
fn next_above(word: Word, units: u32, last: Option<i64>) -> Result<i64, LefError>
    ensures { result ≡ next_above_form units last (place_of word.entry) }
{
    match decimal(word.bytes, units) {
        Err(fault) => Err(LefError::Number {
            line: word.line,
            fault,
        }),
        Ok(n) => match last {
            None => Ok(n),
            Some(last) => {
                if last < n {
                    return Ok(n);
                }
                Err(LefError::Number {
                    line: word.line,
                    fault: NumberFault::OutOfRange,
                })
            }
        },
    }
}

/// A further length, or the first WIDTH, which is true.
#[tactic(auto, unfolding(crate::specs::Tables::length_turn))]
fn length_turn(words: &mut Words, units: u32, lengths: &mut Lengths) -> Result<bool, LefError>
    ensures { Reads lef_faults (λ last. turn last lengths.new) result words.old words.new (length_turn_form units lengths.old) }
{
    let word = words.next()?;
    if word.is(b"WIDTH") {
        return Ok(true);
    }
    let n = next_above(word, units, lengths.last)?;
    lengths.numbers.push(n)?;
    lengths.last = Some(n);
    Ok(false)
}

/// The further lengths, and the first WIDTH.
fn length_turns(words: &mut Words, units: u32, lengths: &mut Lengths) -> Result<(), LefError>
    ensures { Reads lef_faults (λ _. lengths.new) result words.old words.new (loop (length_turn_form units) lengths.old) }
{
    'lines: while !length_turn(words, units, lengths)? {}
    Ok(())
}

/// A spacing of a row of this many. True where it was the last.
#[tactic(auto, unfolding(crate::specs::Tables::spacing_turn))]
fn spacing_turn(
    words: &mut Words,
    units: u32,
    count: usize,
    spacings: &mut Seq<i64>,
) -> Result<bool, LefError>
    ensures { Reads lef_faults (λ last. turn last spacings.new) result words.old words.new (spacing_turn_form units count spacings.old) }
{
    let n = number(words, units)?;
    spacings.push(n)?;
    Ok(spacings.len() == count)
}

/// The spacings of a row of this many.
fn spacing_turns(
    words: &mut Words,
    units: u32,
    count: usize,
    spacings: &mut Seq<i64>,
) -> Result<(), LefError>
    ensures { Reads lef_faults (λ _. spacings.new) result words.old words.new (loop (spacing_turn_form units count) spacings.old) }
{
    'lines: while !spacing_turn(words, units, count, spacings)? {}
    Ok(())
}

/// `;`, which is true, or the WIDTH of a further row.
fn row_end(words: &mut Words) -> Result<bool, LefError>
    ensures { Reads lef_faults (λ x. x) result words.old words.new (one row_end_form) }
{
    let word = words.next()?;
    if word.is(b";") {
        return Ok(true);
    }
    if word.is(b"WIDTH") {
        return Ok(false);
    }
    Err(LefError::Expected { line: word.line })
}

/// A row behind WIDTH, and what follows. True where it was the last.
#[tactic(auto, unfolding(crate::specs::Tables::row_turn))]
fn row_turn(
    alloc: Global,
    words: &mut Words,
    units: u32,
    count: usize,
    rows: &mut Rows,
) -> Result<bool, LefError>
    ensures { Reads lef_faults (λ last. turn last rows.new) result words.old words.new (row_turn_form units count rows.old) }
{
    let word = words.next()?;
    let width = next_above(word, units, rows.last)?;
    let mut spacings = Seq::new(alloc);
    spacing_turns(words, units, count, &mut spacings)?;
    let last = row_end(words)?;
    rows.rows.push((width, spacings))?;
    rows.last = Some(width);
    Ok(last)
}

/// The rows of a table, and its end.
fn row_turns(
    alloc: Global,
    words: &mut Words,
    units: u32,
    count: usize,
    rows: &mut Rows,
) -> Result<(), LefError>
    ensures { Reads lef_faults (λ _. rows.new) result words.old words.new (loop (row_turn_form units count) rows.old) }
{
    'lines: while !row_turn(alloc, words, units, count, rows)? {}
    Ok(())
}

/// The first entry of a table, 0 where there is none.
fn first_entry(rows: &Seq<(i64, Seq<i64>)>) -> i64
    ensures { result ≡ first_entry_form rows.now }
{
    match rows.as_slice() {
        [] => 0,
        [row, ..] => match row.1.as_slice() {
            [] => 0,
            [first, ..] => *first,
        },
    }
}

/// A layer has one table at most.
fn only_table(alloc: Global, word: Word, lines: &LayerLines) -> Result<(), LefError>
    ensures { Gives lef_faults (λ x. x) result (only_table_form (place_of word.entry) lines.now lines.now.table.lengths) }
{
    match lines.table.lengths.as_slice() {
        [] => Ok(()),
        [_, ..] => Err(LefError::Twice {
            line: word.line,
            name: Name::new(alloc, lines.name.bytes())?,
        }),
    }
}

/// Keeps a table, whose first entry is one more spacing, and counts it.
fn keep_table(lines: &mut LayerLines, lengths: Seq<i64>, rows: Seq<(i64, Seq<i64>)>)
    requires { lines.old.skipped + 1 < 2 ^ 32 }
    ensures { lines.new ≡ with_table_form lines.old lengths rows }
{
    lines.skipped += 1;
    lines.spacing = Some(greatest(lines.spacing, first_entry(&rows)));
    lines.table = SpacingTable { lengths, rows };
}

/// A table behind PARALLELRUNLENGTH.
#[tactic(auto, unfolding(crate::specs::Tables::run_table))]
fn run_table(
    alloc: Global,
    words: &mut Words,
    units: u32,
    lines: &mut LayerLines,
    word: Word,
) -> Result<(), LefError>
    requires { lines.old.skipped + length words.old ≤ 2 ^ 32 }
    ensures reads { Reads lef_faults (λ _. More lines.new) result words.old words.new (run_table_form units lines.old (place_of word.entry)) }
    ensures few { OnOk result (lines.new.skipped + length words.new ≤ lines.old.skipped + length words.old) }
{
    only_table(alloc, word, lines)?;
    let first = number(words, units)?;
    let mut lengths = Lengths {
        numbers: Seq::new(alloc),
        last: Some(first),
    };
    lengths.numbers.push(first)?;
    length_turns(words, units, &mut lengths)?;
    let mut rows = Rows {
        rows: Seq::new(alloc),
        last: None,
    };
    row_turns(alloc, words, units, lengths.numbers.len(), &mut rows)?;
    keep_table(lines, lengths.numbers, rows.rows);
    Ok(())
}

/// A table behind SPACINGTABLE, or another form of it, which is counted.
#[tactic(auto, unfolding(crate::specs::Tables::table_line))]
pub fn table_line(
    alloc: Global,
    words: &mut Words,
    units: u32,
    lines: &mut LayerLines,
) -> Result<(), LefError>
    requires { lines.old.skipped + length words.old < 2 ^ 32 }
    ensures reads { Reads lef_faults (λ _. More lines.new) result words.old words.new (table_line_form units lines.old) }
    ensures few { OnOk result (lines.new.skipped + length words.new ≤ lines.old.skipped + length words.old) }
{
    let word = words.next()?;
    if word.is(b"PARALLELRUNLENGTH") {
        return run_table(alloc, words, units, lines, word);
    }
    if word.is(b";") {
        count_line(lines);
        return Ok(());
    }
    words.rest()?;
    count_line(lines);
    Ok(())
}

/// Whether a word is a number by its form alone.
fn is_numeral(word: Word) -> bool
    ensures { result ≡ is_numeral word.entry.bytes.now }
{
    match decimal(word.bytes, 0) {
        Ok(_) => true,
        Err(NumberFault::NotNumber) => false,
        Err(NumberFault::TooManyDecimals) => true,
        Err(NumberFault::TooLarge) => true,
        Err(NumberFault::NotWhole) => true,
        Err(NumberFault::OutOfRange) => true,
    }
}

/// A current density behind its first word, which is counted.
#[tactic(auto, unfolding(crate::specs::Tables::density_line))]
pub fn density_line(words: &mut Words, lines: &mut LayerLines) -> Result<(), LefError>
    requires { lines.old.skipped + length words.old < 2 ^ 32 }
    ensures reads { Reads lef_faults (λ _. More lines.new) result words.old words.new (density_line_form lines.old) }
    ensures few { OnOk result (lines.new.skipped + length words.new ≤ lines.old.skipped + length words.old) }
{
    words.name()?;
    let word = words.next()?;
    if is_numeral(word) {
        words.semicolon()?;
        count_line(lines);
        return Ok(());
    }
    if !word.is(b"TABLEENTRIES") {
        words.up_to(b"TABLEENTRIES")?;
    }
    words.rest()?;
    count_line(lines);
    Ok(())
}
