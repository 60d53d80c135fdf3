//! Rows of numbers, and a match over a table of twenty words.
ghost use Rattle.std.specs.Prelude.{◌≡◌, ◌||◌, bytes_eq, codes, if◌then◌else◌};

use crate::NumberFault::{NotNumber, NotWhole, TooLarge, TooManyDecimals};
use crate::{NumberFault, decimal, distinct, find, integer, natural, statement};
use std::test::Fail;

#[test]
fn decimals_of_words(rt: HostRuntime) {
    for (word, scale, want) in [
        ("0.0005", 2000, Ok(1)),
        (".5", 2000, Ok(1000)),
        ("1.", 2000, Ok(2000)),
        ("-0", 2000, Ok(0)),
        (".", 2000, Err(NotNumber)),
        ("0.00025", 2000, Err(NotWhole)),
        ("+5", 1, Ok(5)),
        ("-5", 1, Ok(-5)),
        ("-0.5", 100, Ok(-50)),
        ("", 1, Err(NotNumber)),
        ("+", 1, Err(NotNumber)),
        ("-", 1, Err(NotNumber)),
        ("-.", 1, Err(NotNumber)),
        ("1.0000000", 1, Err(TooManyDecimals)),
        ("0.1234567", 1000000, Err(TooManyDecimals)),
        ("1.000000", 1, Ok(1)),
        ("1073741824", 1, Ok(1073741824)),
        ("-1073741824", 1, Ok(-1073741824)),
        ("1073741825", 1, Err(TooLarge)),
        ("1073741824.1", 1, Err(TooLarge)),
        ("1073.741824", 1000000, Ok(1073741824)),
        ("1.0000000x", 1, Err(NotNumber)),
        ("99999999999.1234567", 1, Err(TooManyDecimals)),
        ("99999999999.5", 1, Err(TooLarge)),
        ("1.5", 0, Ok(0)),
        ("99999999999", 0, Ok(0)),
        ("0.1234567", 0, Err(TooManyDecimals)),
        ("--5", 1, Err(NotNumber)),
        ("+-5", 1, Err(NotNumber)),
        ("1.2.3", 1, Err(NotNumber)),
        ("1e5", 1, Err(NotNumber)),
        (" 5", 1, Err(NotNumber)),
        ("007", 1, Ok(7)),
    ] {
        assert_eq!(rt; decimal(word.as_bytes(), scale), want, "{word} at {scale}");
    }
}

#[test]
fn long_words(rt: HostRuntime) {
    let nines = [b'9'; 400];
    assert_eq!(rt; decimal(&nines, 2000), Err(TooLarge));
    assert_eq!(rt; integer(&nines), Err(TooLarge));
    assert_eq!(rt; natural(&nines), None);
    assert_eq!(rt; decimal(&[b'0'; 400], 2000), Ok(0));
}

#[test]
fn integers_of_words(rt: HostRuntime) {
    for (word, want) in [
        ("0", Ok(0)),
        ("+12", Ok(12)),
        ("-12", Ok(-12)),
        ("1073741824", Ok(1073741824)),
        ("1073741825", Err(TooLarge)),
        ("-1073741825", Err(TooLarge)),
        ("1.", Err(NotNumber)),
        ("1.0", Err(NotNumber)),
        (".", Err(NotNumber)),
        ("-", Err(NotNumber)),
        ("", Err(NotNumber)),
        ("12a", Err(NotNumber)),
    ] {
        assert_eq!(rt; integer(word.as_bytes()), want, "{word}");
    }
}

#[test]
fn naturals_of_words(rt: HostRuntime) {
    for (word, want) in [
        ("0", Some(0)),
        ("7", Some(7)),
        ("10", Some(10)),
        ("18446744073709551615", Some(u64::MAX)),
        ("18446744073709551616", None),
        ("05", None),
        ("00", None),
        ("+5", None),
        ("-5", None),
        ("5.", None),
        ("", None),
    ] {
        assert_eq!(rt; natural(word.as_bytes()), want, "{word}");
    }
}

#[test]
fn faults_in_words(rt: HostRuntime) -> Result<(), Fail> {
    let alloc = rt.alloc();
    for (fault, want) in [
        (NotNumber, "not a number"),
        (TooManyDecimals, "more than six digits behind the point"),
        (TooLarge, "a number above 2^30 units"),
        (NotWhole, "not a whole number of units"),
        (NumberFault::OutOfRange, "a number outside its range"),
    ] {
        let text = format!(in alloc; "{fault}")?;
        assert_eq!(rt; text.as_str(), want);
    }
    Ok(())
}

const TABLE: [[u8; 20]; 20] = [
    *b"UNITS               ",
    *b"VERSION             ",
    *b"BUSBITCHARS         ",
    *b"DIVIDERCHAR         ",
    *b"NAMESCASESENSITIVE  ",
    *b"MANUFACTURINGGRID   ",
    *b"USEMINSPACING       ",
    *b"CLEARANCEMEASURE    ",
    *b"MAXVIASTACK         ",
    *b"FIXEDMASK           ",
    *b"PROPERTYDEFINITIONS ",
    *b"SPACING             ",
    *b"BEGINEXT            ",
    *b"SITE                ",
    *b"VIARULE             ",
    *b"NONDEFAULTRULE      ",
    *b"LAYER               ",
    *b"VIA                 ",
    *b"MACRO               ",
    *b"END                 ",
];

const UNITS: usize = 0;

const VERSION: usize = 1;

const BUSBITCHARS: usize = 2;

const DIVIDERCHAR: usize = 3;

const NAMESCASESENSITIVE: usize = 4;

const MANUFACTURINGGRID: usize = 5;

const USEMINSPACING: usize = 6;

const CLEARANCEMEASURE: usize = 7;

const MAXVIASTACK: usize = 8;

const FIXEDMASK: usize = 9;

const PROPERTYDEFINITIONS: usize = 10;

const SPACING: usize = 11;

const BEGINEXT: usize = 12;

const SITE: usize = 13;

const VIARULE: usize = 14;

const NONDEFAULTRULE: usize = 15;

const LAYER: usize = 16;

const VIA: usize = 17;

const MACRO: usize = 18;

const END: usize = 19;

#[derive(Clone, Copy, Debug, PartialEq, Eq)]
enum Statement {
    Units,
    Unused,
    Section,
    Site,
    Rule,
    Layer,
    Via,
    Macro,
    End,
    Unknown,
}

fn statement_of(word: &[u8]) -> Statement
    ensures { result ≡ (if bytes_eq word.now (codes "LAYER") then Statement.Layer
        else if bytes_eq word.now (codes "VIA") then Statement.Via
        else if bytes_eq word.now (codes "MACRO") then Statement.Macro
        else if bytes_eq word.now (codes "UNITS") then Statement.Units
        else if bytes_eq word.now (codes "VERSION") || bytes_eq word.now (codes "BUSBITCHARS")
        || bytes_eq word.now (codes "DIVIDERCHAR") || bytes_eq word.now (codes "NAMESCASESENSITIVE")
        || bytes_eq word.now (codes "MANUFACTURINGGRID") || bytes_eq word.now (codes "USEMINSPACING")
        || bytes_eq word.now (codes "CLEARANCEMEASURE") || bytes_eq word.now (codes "MAXVIASTACK")
        || bytes_eq word.now (codes "FIXEDMASK") then Statement.Unused
        else if bytes_eq word.now (codes "PROPERTYDEFINITIONS") || bytes_eq word.now (codes "SPACING")
        || bytes_eq word.now (codes "BEGINEXT") then Statement.Section
        else if bytes_eq word.now (codes "SITE") then Statement.Site
        else if bytes_eq word.now (codes "VIARULE") || bytes_eq word.now (codes "NONDEFAULTRULE") then Statement.Rule
        else if bytes_eq word.now (codes "END") then Statement.End
        else Statement.Unknown) }
{
    statement!(TABLE, word,
        UNITS => Statement::Units,
        VERSION | BUSBITCHARS | DIVIDERCHAR | NAMESCASESENSITIVE | MANUFACTURINGGRID
            | USEMINSPACING | CLEARANCEMEASURE | MAXVIASTACK | FIXEDMASK => Statement::Unused,
        PROPERTYDEFINITIONS | SPACING | BEGINEXT => Statement::Section,
        SITE => Statement::Site,
        VIARULE | NONDEFAULTRULE => Statement::Rule,
        LAYER => Statement::Layer,
        VIA => Statement::Via,
        MACRO => Statement::Macro,
        END => Statement::End,
        _ => Statement::Unknown,
    )
}

#[test]
fn statements_by_a_table(rt: HostRuntime) {
    assert!(rt; distinct(&TABLE));
    for (word, row, want) in [
        ("UNITS", Some(0), Statement::Units),
        ("FIXEDMASK", Some(9), Statement::Unused),
        ("VIA", Some(17), Statement::Via),
        ("END", Some(19), Statement::End),
        ("VIA ", None, Statement::Unknown),
        ("", None, Statement::Unknown),
    ] {
        assert_eq!(rt; find(&TABLE, word.as_bytes()), row, "{word}");
        assert_eq!(rt; statement_of(word.as_bytes()), want, "{word}");
    }
}

#[test]
fn equal_words_apart(rt: HostRuntime) {
    assert!(rt;
        !distinct(&[
            *b"VIA                 ",
            *b"LAYER               ",
            *b"VIA A               "
        ])
    );
    assert!(rt; distinct(&[*b"ABCDEFGHIJKLMNOPQRST", *b"ABCDEFGHIJKLMNOPQRS "]));
}
