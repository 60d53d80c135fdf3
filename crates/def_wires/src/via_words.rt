//! The options of a via.
ghost use Rattle.std.specs.Prelude.{◌≡◌};
ghost use Rattle.def_wires.specs.Vias.{via_word as via_word_of};

use rt_forms::Word;
use rt_words::statement;

/// What stands behind a `+` of a via.
#[derive(Clone, Copy, Debug, PartialEq, Eq)]
pub enum ViaWord {
    Rect,
    Rule,
    CutSize,
    Layers,
    CutSpacing,
    Enclosure,
    RowCol,
    RefusedInVia,
    OtherInVia,
}

const VIA_WORDS: [[u8; 20]; 12] = [
    *b"RECT                ",
    *b"VIARULE             ",
    *b"CUTSIZE             ",
    *b"LAYERS              ",
    *b"CUTSPACING          ",
    *b"ENCLOSURE           ",
    *b"ROWCOL              ",
    *b"POLYGON             ",
    *b"MASK                ",
    *b"ORIGIN              ",
    *b"OFFSET              ",
    *b"PATTERN             ",
];

const RECT: usize = 0;

const VIARULE: usize = 1;

const CUTSIZE: usize = 2;

const LAYERS: usize = 3;

const CUTSPACING: usize = 4;

const ENCLOSURE: usize = 5;

const ROWCOL: usize = 6;

const POLYGON: usize = 7;

const MASK: usize = 8;

const ORIGIN: usize = 9;

const OFFSET: usize = 10;

const PATTERN: usize = 11;

/// What an option of a via is whose first word behind `+` this is.
pub fn via_word(word: Word) -> ViaWord
    ensures { result ≡ via_word_of word.entry.bytes.now }
{
    statement!(VIA_WORDS, word.bytes,
        RECT => ViaWord::Rect,
        VIARULE => ViaWord::Rule,
        CUTSIZE => ViaWord::CutSize,
        LAYERS => ViaWord::Layers,
        CUTSPACING => ViaWord::CutSpacing,
        ENCLOSURE => ViaWord::Enclosure,
        ROWCOL => ViaWord::RowCol,
        POLYGON | MASK | ORIGIN | OFFSET | PATTERN => ViaWord::RefusedInVia,
        _ => ViaWord::OtherInVia,
    )
}
