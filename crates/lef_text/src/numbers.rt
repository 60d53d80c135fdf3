//! Numbers and rectangles of LEF.
ghost use Rattle.std.specs.Prelude.{◌≡◌, ◌<◌, ◌^◌};
ghost use Rattle.rt_forms.specs.Clauses.{Reads};
ghost use Rattle.rt_forms.specs.Form.{one};
ghost use Rattle.rt_forms.specs.Reading.{at_line};
ghost use Rattle.rt_forms.specs.Word.{place_of};
ghost use Rattle.rt_words.specs.Reading.{decimal_of, integer_of};
ghost use Rattle.lef_text.specs.declared.error.LefError.TheVariants as errors;
ghost use Rattle.lef_text.specs.Faults.{lef_faults};
ghost use Rattle.lef_text.specs.Numbers.{number as number_form, length_at_least, length_line as length_line_form, within as within_form, count as count_form, is_refused_shape, first_number as first_number_form, rectangle as rectangle_form};

use crate::error::LefError;
use rt_base::{Name, Point, Rect};
use rt_forms::Word;
use rt_words::{NumberFault, decimal, integer};
use std::alloc::Global;

/// The words of a LEF text.
pub type Words<'a> = rt_forms::Words<'a, LefError>;

/// The length that a word means.
pub fn length_of(word: Word, units: u32) -> Result<i64, LefError>
    ensures { result ≡ at_line errors.Number word.entry.line (decimal_of word.entry.bytes.now units) }
{
    match decimal(word.bytes, units) {
        Ok(n) => Ok(n),
        Err(fault) => Err(LefError::Number {
            line: word.line,
            fault,
        }),
    }
}

/// A length.
pub fn number(words: &mut Words, units: u32) -> Result<i64, LefError>
    ensures { Reads lef_faults (λ x. x) result words.old words.new (number_form units) }
{
    let word = words.next()?;
    length_of(word, units)
}

/// The length that a word means, from `least` on.
pub fn length_at_least(word: Word, units: u32, least: i64) -> Result<i64, LefError>
    ensures { result ≡ length_at_least units least (place_of word.entry) }
{
    match decimal(word.bytes, units) {
        Ok(n) if n < least => Err(LefError::Number {
            line: word.line,
            fault: NumberFault::OutOfRange,
        }),
        Ok(n) => Ok(n),
        Err(fault) => Err(LefError::Number {
            line: word.line,
            fault,
        }),
    }
}

/// A length from `least` on, and `;`.
#[tactic(auto, unfolding(crate::specs::Numbers::length_line))]
pub fn length_line(words: &mut Words, units: u32, least: i64) -> Result<i64, LefError>
    ensures { Reads lef_faults (λ x. x) result words.old words.new (length_line_form units least) }
{
    let word = words.next()?;
    let n = length_at_least(word, units, least)?;
    words.semicolon()?;
    Ok(n)
}

fn within(low: u32, high: u32, number: Result<i64, NumberFault>) -> Result<u32, NumberFault>
    requires { high < 2 ^ 31 }
    ensures { result ≡ within_form low high number }
{
    let n = number?;
    if n < 0 || n > i64::from(high) || n < i64::from(low) {
        return Err(NumberFault::OutOfRange);
    }
    Ok(n as u32)
}

/// A count in this range, written without a point.
pub fn count(words: &mut Words, low: u32, high: u32) -> Result<u32, LefError>
    requires { high < 2 ^ 31 }
    ensures { Reads lef_faults (λ x. x) result words.old words.new (count_form low high) }
{
    let word = words.next()?;
    match within(low, high, integer(word.bytes)) {
        Ok(n) => Ok(n),
        Err(fault) => Err(LefError::Number {
            line: word.line,
            fault,
        }),
    }
}

fn is_refused_shape(in_macro: bool, word: Word) -> bool
    ensures { result ≡ is_refused_shape in_macro word.entry.bytes.now }
{
    word.is(b"MASK") || (in_macro && word.is(b"ITERATE"))
}

/// The first number of a shape.
pub fn first_number(
    alloc: Global,
    words: &mut Words,
    units: u32,
    in_macro: bool,
) -> Result<i64, LefError>
    ensures { Reads lef_faults (λ x. x) result words.old words.new (one (first_number_form in_macro units)) }
{
    let word = words.next()?;
    if is_refused_shape(in_macro, word) {
        return Err(LefError::Refused {
            line: word.line,
            word: Name::new(alloc, word.bytes)?,
        });
    }
    length_of(word, units)
}

/// `x y x y ;`, the corners in any order.
#[tactic(auto, unfolding(crate::specs::Numbers::rectangle))]
pub fn rectangle(
    alloc: Global,
    words: &mut Words,
    units: u32,
    in_macro: bool,
) -> Result<Rect, LefError>
    ensures { Reads lef_faults (λ x. x) result words.old words.new (rectangle_form in_macro units) }
{
    let x = first_number(alloc, words, units, in_macro)?;
    let y = number(words, units)?;
    let other_x = number(words, units)?;
    let other_y = number(words, units)?;
    words.semicolon()?;
    Ok(Rect::hull(
        Point { x, y },
        Point {
            x: other_x,
            y: other_y,
        },
    ))
}
