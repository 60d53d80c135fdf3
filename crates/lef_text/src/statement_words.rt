//! The first words of statements.
ghost use Rattle.std.specs.Prelude.{◌≡◌};
ghost use Rattle.lef_text.specs.Words.{statement_of};

use rt_words::statement;

/// What a statement is by its first word.
#[derive(Clone, Copy, Debug, PartialEq, Eq)]
pub enum Statement {
    Units,
    Unused,
    Properties,
    Spacings,
    Extension,
    Site,
    Rule,
    Layer,
    Via,
    Macro,
    End,
    Unknown,
}

const TABLE: [[u8; 20]; 20] = [
    *b"UNITS               ",
    *b"VERSION             ",
    *b"BUSBITCHARS         ",
    *b"DIVIDERCHAR         ",
    *b"NAMESCASESENSITIVE  ",
    *b"MANUFACTURINGGRID   ",
    *b"USEMINSPACING       ",
    *b"CLEARANCEMEASURE    ",
    *b"MAXVIASTACK         ",
    *b"FIXEDMASK           ",
    *b"PROPERTYDEFINITIONS ",
    *b"SPACING             ",
    *b"BEGINEXT            ",
    *b"SITE                ",
    *b"VIARULE             ",
    *b"NONDEFAULTRULE      ",
    *b"LAYER               ",
    *b"VIA                 ",
    *b"MACRO               ",
    *b"END                 ",
];

const UNITS: usize = 0;

const VERSION: usize = 1;

const BUSBITCHARS: usize = 2;

const DIVIDERCHAR: usize = 3;

const NAMESCASESENSITIVE: usize = 4;

const MANUFACTURINGGRID: usize = 5;

const USEMINSPACING: usize = 6;

const CLEARANCEMEASURE: usize = 7;

const MAXVIASTACK: usize = 8;

const FIXEDMASK: usize = 9;

const PROPERTYDEFINITIONS: usize = 10;

const SPACING: usize = 11;

const BEGINEXT: usize = 12;

const SITE: usize = 13;

const VIARULE: usize = 14;

const NONDEFAULTRULE: usize = 15;

const LAYER: usize = 16;

const VIA: usize = 17;

const MACRO: usize = 18;

const END: usize = 19;

/// What a statement is by its first word.
#[tactic(auto, unfolding(crate::specs::Words::statement_of))]
pub fn statement_of(word: &[u8]) -> Statement
    ensures { result ≡ statement_of word.now }
{
    statement!(TABLE, word,
        UNITS => Statement::Units,
        VERSION | BUSBITCHARS | DIVIDERCHAR | NAMESCASESENSITIVE | MANUFACTURINGGRID
            | USEMINSPACING | CLEARANCEMEASURE | MAXVIASTACK | FIXEDMASK => Statement::Unused,
        PROPERTYDEFINITIONS => Statement::Properties,
        SPACING => Statement::Spacings,
        BEGINEXT => Statement::Extension,
        SITE => Statement::Site,
        VIARULE | NONDEFAULTRULE => Statement::Rule,
        LAYER => Statement::Layer,
        VIA => Statement::Via,
        MACRO => Statement::Macro,
        END => Statement::End,
        _ => Statement::Unknown,
    )
}
