//! Parts that several statements share: numbers, points, names and what stands once alone.
ghost use Rattle.std.specs.Prelude.{◌≡◌, ◌≢◌, ◌^◌, ◌≤◌, ◌<◌, ◌-◌, length, IfOk};
ghost use Rattle.rt_base.specs.Ranges.{IsWithin, IsPointWithin};
ghost use Rattle.rt_forms.specs.Clauses.{Reads, Gives};
ghost use Rattle.rt_forms.specs.Reading.{a_name, left_of, or_end, ends_option, from_first};
ghost use Rattle.rt_forms.specs.Form.{admit};
ghost use Rattle.rt_forms.specs.Lexeme.{first_of};
ghost use Rattle.rt_forms.specs.Word.{place_of};
ghost use Rattle.rt_words.specs.Reading.{integer_of};
ghost use Rattle.def_text.specs.Faults.{def_faults};
ghost use Rattle.def_text.specs.Defs.{IsNameWord};
ghost use Rattle.def_text.specs.Parts.{a_number, a_count, within as within_of, point as point_form, orient_of, placement as placement_form, once as once_of};
ghost use Rattle.def_text.specs.declared.error.DefError.TheVariants.{Refused as RefusedAt};

use crate::error::DefError;
use rt_base::{Memory, Name, Orient, Point};
use rt_forms::Word;
use rt_words::{NumberFault, integer};
use std::alloc::Global;

/// The words of a DEF text that are left.
pub type Words<'a> = rt_forms::Words<'a, DefError>;

/// The largest number, in units.
pub const MOST: u32 = 1 << 30;

/// A number.
pub fn number(words: &mut Words) -> Result<i64, DefError>
    ensures reads { Reads def_faults (λ x. x) result words.old words.new a_number }
    ensures small { IfOk result (λ z. IsWithin (2 ^ 30) z) }
{
    let word = words.next()?;
    match integer(word.bytes) {
        Ok(n) => Ok(n),
        Err(fault) => Err(DefError::Number {
            line: word.line,
            fault,
        }),
    }
}

/// A number in a range.
fn within(low: u32, high: u32, number: Result<i64, NumberFault>) -> Result<u32, NumberFault>
    requires { high < 2 ^ 31 }
    ensures value { result ≡ within_of low high number }
    ensures range { IfOk result (λ n. (low ≤ n) × (n ≤ high)) }
{
    let n = number?;
    if n < 0 || n > i64::from(high) || n < i64::from(low) {
        return Err(NumberFault::OutOfRange);
    }
    Ok(n as u32)
}

/// A number in this range.
pub fn count(words: &mut Words, low: u32, high: u32) -> Result<u32, DefError>
    requires { high < 2 ^ 31 }
    ensures reads { Reads def_faults (λ x. x) result words.old words.new (a_count low high) }
    ensures range { IfOk result (λ n. (low ≤ n) × (n ≤ high)) }
{
    let word = words.next()?;
    match within(low, high, integer(word.bytes)) {
        Ok(n) => Ok(n),
        Err(fault) => Err(DefError::Number {
            line: word.line,
            fault,
        }),
    }
}

/// `( x y )`.
#[tactic(auto, unfolding(crate::specs::Parts::point))]
pub fn point(words: &mut Words) -> Result<Point, DefError>
    ensures reads { Reads def_faults (λ x. x) result words.old words.new point_form }
    ensures small { IfOk result (λ p. IsPointWithin (2 ^ 30) p) }
{
    words.expect(b"(")?;
    let x = number(words)?;
    let y = number(words)?;
    words.expect(b")")?;
    Ok(Point { x, y })
}

/// An orientation.
fn orient(words: &mut Words) -> Result<Orient, DefError>
    ensures { Reads def_faults (λ x. x) result words.old words.new (admit orient_of) }
{
    let word = words.next()?;
    if word.is(b"N") {
        return Ok(Orient::N);
    }
    if word.is(b"W") {
        return Ok(Orient::W);
    }
    if word.is(b"S") {
        return Ok(Orient::S);
    }
    if word.is(b"E") {
        return Ok(Orient::E);
    }
    if word.is(b"FN") {
        return Ok(Orient::FN);
    }
    if word.is(b"FS") {
        return Ok(Orient::FS);
    }
    if word.is(b"FW") {
        return Ok(Orient::FW);
    }
    if word.is(b"FE") {
        return Ok(Orient::FE);
    }
    Err(DefError::Expected { line: word.line })
}

/// `PLACED|FIXED|COVER point orient`.
#[tactic(auto, unfolding(crate::specs::Parts::placement))]
pub fn placement(words: &mut Words) -> Result<(Point, Orient), DefError>
    ensures reads { Reads def_faults (λ x. x) result words.old words.new placement_form }
    ensures small { IfOk result (λ p. IsPointWithin (2 ^ 30) p.0) }
{
    words.next()?;
    let at = point(words)?;
    let orient = orient(words)?;
    Ok((at, orient))
}

/// The number of the next word, counted from 0, in a text of so many.
pub fn here(words: &Words, total: u32) -> u32
    ensures { result ≡ total - left_of words.now }
{
    (total as usize).saturating_sub(words.left()) as u32
}

/// Whether an option ends here.
fn option_ends(words: &Words) -> bool
    ensures { result ≡ or_end ends_option (first_of words.now) }
{
    match words.peek() {
        None => true,
        Some(word) => word.is(b"+") || word.is(b";"),
    }
}

/// Takes all words of an option that are left, and says whether there are none.
pub fn option_tail(words: &mut Words) -> bool
    ensures alone { result ≡ or_end ends_option (first_of words.old) }
    ensures words { words.new ≡ from_first ends_option words.old }
    ensures shorter { length words.new ≤ length words.old }
    ensures left { left_of words.new ≤ left_of words.old }
{
    let alone = option_ends(words);
    words.option_rest();
    alone
}

/// A name.
pub fn name<'a>(words: &mut Words<'a>) -> Result<Word<'a>, DefError>
    ensures reads { Reads def_faults place_of result words.old words.new a_name }
    ensures name { IfOk result (λ w. IsNameWord w.bytes.now) }
{
    let word = words.next()?;
    if !word.is_name() {
        return Err(DefError::Expected { line: word.line });
    }
    Ok(word)
}

/// A word that isn't supported.
pub fn refused(alloc: Global, word: Word) -> DefError
    ensures { result ≢ DefError.Memory → result ≡ RefusedAt word.entry.line word.entry.bytes.now }
{
    match Name::new(alloc, word.bytes) {
        Ok(name) => DefError::Refused {
            line: word.line,
            word: name,
        },
        Err(Memory) => DefError::Memory,
    }
}

/// Whether what begins at this word didn't stand before.
pub fn once<T>(alloc: Global, before: &Option<T>, word: Word) -> Result<(), DefError>
    ensures { Gives def_faults (λ x. x) result (once_of before.now (place_of word.entry)) }
{
    match before {
        None => Ok(()),
        Some(_) => Err(DefError::Twice {
            line: word.line,
            name: Name::new(alloc, word.bytes)?,
        }),
    }
}
