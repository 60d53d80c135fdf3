//! Numbers of texts.
ghost use Rattle.std.specs.Prelude.{◌≡◌, ◌≢◌, ℕ, ◌<◌, ◌^◌, ◌&&◌, ◌+◌, ◌*◌, ◌↔◌, ◌≤◌, min, not, IsTrue, length, position, IfOk, unsigned_abs, []};
ghost use Rattle.std.specs.Str.Parse.{digits_value};
ghost use Rattle.std.specs.List.{list_all};
ghost use Rattle.std.specs.Fmt.{decimal as printed};
ghost use Rattle.rt_words.specs.Number.{Numeral, Writes, WritesInteger, amount_of, signed, quotient};
ghost use Rattle.rt_words.specs.Reading.{is_digit, is_point, begins_with_minus, without_sign, whole_part, fraction_part, are_digits, parts_of, decimal_of, integer_of, natural_of, is_plain, below_2_64};

use thiserror::Error;

/// What is wrong with a number, in the order in which it is tested.
#[derive(Clone, Copy, Debug, PartialEq, Eq, Error)]
pub enum NumberFault {
    #[error("not a number")]
    NotNumber,
    #[error("more than six digits behind the point")]
    TooManyDecimals,
    #[error("a number above 2^30 units")]
    TooLarge,
    #[error("not a whole number of units")]
    NotWhole,
    #[error("a number outside its range")]
    OutOfRange,
}

/// The largest number, in units.
const MOST: u128 = 1 << 30;

/// A number above every one that is taken.
const CAP: u64 = 1 << 31;

const MOST_DECIMALS: usize = 6;

fn all_digits(bytes: &[u8]) -> bool
    ensures { result ≡ list_all is_digit bytes.now }
{
    bytes.iter().all(|b| *b >= b'0' && *b <= b'9')
}

fn are_digits(whole: &[u8], fraction: &[u8]) -> bool
    ensures { result ≡ are_digits whole.now fraction.now }
{
    all_digits(whole) && all_digits(fraction) && !(whole.is_empty() && fraction.is_empty())
}

/// The number that the digits write, or the cap where it is larger.
fn capped(digits: &[u8]) -> u64
    requires { IsTrue (list_all is_digit digits.now) }
    ensures { result ≡ min (digits_value 10 digits.now) 2147483648 }
{
    let mut n = 0u64;
    for d in digits {
        n = (n * 10 + u64::from(*d - b'0')).min(CAP);
    }
    n
}

fn power_of_ten(exponent: usize) -> u64
    requires { exponent ≤ 6 }
    ensures value { result ≡ 10 ^ exponent }
    ensures positive { 0 < result }
    ensures small { result ≤ 10 ^ 6 }
{
    match exponent {
        0 => 1,
        1 => 10,
        2 => 100,
        3 => 1_000,
        4 => 10_000,
        5 => 100_000,
        _ => 1_000_000,
    }
}

/// `(whole + fraction / unit) * scale`, where it is whole and at most 2^30.
fn units(whole: u64, fraction: u64, unit: u64, scale: u32) -> Result<u64, NumberFault>
    requires whole { whole ≤ 2 ^ 31 }
    requires fraction { fraction ≤ 2 ^ 31 }
    requires positive { 0 < unit }
    requires unit { unit ≤ 10 ^ 6 }
    ensures value { result ≡ quotient ((whole * unit + fraction) * scale) unit }
    ensures small { IfOk result (λ n. n ≤ 2 ^ 30) }
{
    let mantissa = whole * unit + fraction;
    let units = u128::from(mantissa) * u128::from(scale);
    let unit = u128::from(unit);
    if units > MOST * unit {
        return Err(NumberFault::TooLarge);
    }
    if units % unit != 0 {
        return Err(NumberFault::NotWhole);
    }
    Ok((units / unit) as u64)
}

fn signed(negative: bool, n: u64) -> i64
    requires { n ≤ 2 ^ 30 }
    ensures value { result ≡ signed negative n }
    ensures small { unsigned_abs result ≤ 2 ^ 30 }
{
    let n = n as i64;
    if negative { -n } else { n }
}

/// The number that the digits before and behind a point write, times the scale.
#[tactic(auto, unfolding(crate::specs::Reading::parts_of))]
fn parts(negative: bool, whole: &[u8], fraction: &[u8], scale: u32) -> Result<i64, NumberFault>
    ensures value { result ≡ parts_of negative whole.now fraction.now scale }
    ensures small { IfOk result (λ z. unsigned_abs z ≤ 2 ^ 30) }
    ensures in_range { result ≢ Err NumberFault.OutOfRange }
{
    if !are_digits(whole, fraction) {
        return Err(NumberFault::NotNumber);
    }
    if fraction.len() > MOST_DECIMALS {
        return Err(NumberFault::TooManyDecimals);
    }
    let unit = power_of_ten(fraction.len());
    let n = units(capped(whole), capped(fraction), unit, scale)?;
    Ok(signed(negative, n))
}

fn point(body: &[u8]) -> Option<usize>
    ensures { result ≡ position is_point body.now }
{
    body.iter().position(|b| *b == b'.')
}

/// What stands before the first point, and what behind it.
fn around_point(body: &[u8]) -> (&[u8], &[u8])
    ensures whole { result.0.now ≡ whole_part body.now (position is_point body.now) }
    ensures fraction { result.1.now ≡ fraction_part body.now (position is_point body.now) }
{
    match point(body) {
        Some(i) => (&body[..i], &body[i + 1..]),
        None => (body, &[]),
    }
}

fn without_sign(word: &[u8]) -> &[u8]
    ensures { result.now ≡ without_sign word.now }
{
    match word {
        [] => word,
        [b, rest @ ..] => { if *b == b'+' || *b == b'-' { rest } else { word } }
    }
}

fn begins_with_minus(word: &[u8]) -> bool
    ensures { result ≡ begins_with_minus word.now }
{
    match word {
        [] => false,
        [b, ..] => *b == b'-',
    }
}

/// The number of a word of LEF times the scale, in whole units of at most 2^30 in absolute value.
/// The word is an optional sign, digits, and optionally a point and digits, with at least one digit
/// in all. Any other word is `NotNumber`; `TooManyDecimals` is more than six digits behind the
/// point; `TooLarge` and `NotWhole` speak of the product. `OutOfRange` never comes.
pub fn decimal(word: &[u8], scale: u32) -> Result<i64, NumberFault>
    ensures numeral { (n : Numeral) → Writes word.now n → result ≡ amount_of n scale }
    ensures not_number { (result ≡ Err NumberFault.NotNumber) ↔ ((n : Numeral) → ¬ Writes word.now n) }
    ensures small { IfOk result (λ z. unsigned_abs z ≤ 2 ^ 30) }
    ensures in_range { result ≢ Err NumberFault.OutOfRange }

    // The same for readers, which compute with it.
    ensures value { result ≡ decimal_of word.now scale }
{
    let (whole, fraction) = around_point(without_sign(word));
    parts(begins_with_minus(word), whole, fraction, scale)
}

/// The number of a word of DEF or of a guide: an optional sign and digits, at most 2^30 in absolute
/// value. A larger one is `TooLarge`, and any other word, also one with a point, is `NotNumber`.
/// No other fault comes.
pub fn integer(word: &[u8]) -> Result<i64, NumberFault>
    ensures numeral { (n : Numeral) → WritesInteger word.now n → result ≡ amount_of n 1 }
    ensures not_number { (result ≡ Err NumberFault.NotNumber) ↔ ((n : Numeral) → ¬ WritesInteger word.now n) }
    ensures small { IfOk result (λ z. unsigned_abs z ≤ 2 ^ 30) }
    ensures in_range { result ≢ Err NumberFault.OutOfRange }

    // The same for readers, which compute with it.
    ensures value { result ≡ integer_of word.now }
{
    parts(begins_with_minus(word), without_sign(word), &[], 1)
}

/// Whether the word is digits alone, at least one, and doesn't begin with a 0 that others follow.
fn is_plain(word: &[u8]) -> bool
    ensures { result ≡ is_plain word.now }
{
    match word {
        [] => false,
        [first, rest @ ..] => all_digits(word) && (*first != b'0' || rest.is_empty()),
    }
}

/// The number that the digits write, where it is below 2^64.
fn parsed(digits: &[u8]) -> Option<u64>
    requires digits { IsTrue (list_all is_digit digits.now) }
    requires some { 0 < length digits.now }
    ensures { result ≡ below_2_64 (digits_value 10 digits.now) }
{
    match std::str::from_utf8(digits) {
        Ok(text) => text.parse().ok(),
        Err(_) => None,
    }
}

/// The number below 2^64 that the word writes in digits alone, without a leading 0 except `0`
/// itself; `None` for any other word.
#[tactic(auto, unfolding(crate::specs::Reading::natural_of))]
pub fn natural(word: &[u8]) -> Option<u64>
    ensures printed { (n : ℕ) → ((result ≡ Some n) ↔ ((n < 2 ^ 64) × (word.now ≡ printed n))) }

    // The same for readers, which compute with it.
    ensures value { result ≡ natural_of word.now }
{
    if !is_plain(word) {
        return None;
    }
    parsed(word)
}
