//! Texts that are read word by word.
ghost use Rattle.std.specs.Prelude.{◌≡◌};

use crate::{Fault, Names, Word, Words};
use rt_base::Token;

/// The fault of a test.
#[derive(Clone, Copy, Debug, PartialEq, Eq)]
enum Refusal {
    Memory,
    Ended { line: u32 },
    Expected { line: u32 },
}

impl Fault for Refusal {
    ghost use Rattle.rt_forms.specs.declared.tests.Refusal.TheVariants.{Memory, Ended, Expected};

    ghost faults = { record { memory = Memory; ended = λ line. Ended line; expected = λ line. Expected line } };

    fn ended(line: u32) -> Refusal {
        Refusal::Ended { line }
    }

    fn expected(line: u32) -> Refusal {
        Refusal::Expected { line }
    }
}

const TEXT: &[u8; 29] = b"A \"q\" + x + ; END z END A ; b";

const TOKENS: [Token; 12] = [
    Token {
        line: 1,
        first: 0,
        past: 1,
    },
    Token {
        line: 1,
        first: 2,
        past: 5,
    },
    Token {
        line: 2,
        first: 6,
        past: 7,
    },
    Token {
        line: 2,
        first: 8,
        past: 9,
    },
    Token {
        line: 2,
        first: 10,
        past: 11,
    },
    Token {
        line: 3,
        first: 12,
        past: 13,
    },
    Token {
        line: 4,
        first: 14,
        past: 17,
    },
    Token {
        line: 4,
        first: 18,
        past: 19,
    },
    Token {
        line: 4,
        first: 20,
        past: 23,
    },
    Token {
        line: 5,
        first: 24,
        past: 25,
    },
    Token {
        line: 6,
        first: 26,
        past: 27,
    },
    Token {
        line: 7,
        first: 28,
        past: 29,
    },
];

#[test]
fn reads_word_by_word(rt: HostRuntime) {
    let mut words: Words<Refusal> = Words::new(TEXT, &TOKENS);
    assert!(rt; !words.is_empty() && words.left() == 12);
    assert!(rt; words.at(b"A") && !words.at(b"B"));
    let name = words.name().unwrap_or(Word {
        line: 0,
        first: 9,
        bytes: b"",
    });
    assert!(rt; name.line == 1 && name.first == 0 && name.is(b"A") && name.is_name());
    assert!(rt; matches!(words.name(), Err(Refusal::Expected { line: 1 })));
    assert!(rt; words.expect(b"+").is_ok());
    words.option_rest();
    assert!(rt; words.at(b"+"));
    assert!(rt; words.rest().is_ok());
    assert!(rt; words.up_to_pair(b"END", b"A").is_ok());
    assert!(rt; matches!(words.end(), Err(Refusal::Expected { line: 6 })));
    assert!(rt; words.semicolon().is_ok());
    assert!(rt; words.next().is_ok());
    assert!(rt; words.end().is_ok() && words.peek().is_none());
    assert!(rt; matches!(words.rest(), Err(Refusal::Ended { line: 7 })));
}

#[test]
fn a_text_without_words_ends_on_line_1(rt: HostRuntime) {
    let mut words: Words<Refusal> = Words::new(b"", &[]);
    assert!(rt; matches!(words.next(), Err(Refusal::Ended { line: 1 })));
}

#[test]
fn names_stand_in_file_order(rt: HostRuntime) {
    let mut names = Names::new(rt.alloc());
    for (name, added) in [(b"b", true), (b"a", true), (b"b", false), (b"c", true)] {
        assert!(rt; names.add(rt.alloc(), name) == Ok(added));
    }
    assert!(rt; names.find(b"b") == Some(0) && names.find(b"a") == Some(1));
    assert!(rt; names.find(b"c") == Some(2) && names.find(b"d").is_none());
}
