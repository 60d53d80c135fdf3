//! The first words of the lines of a via.
ghost use Rattle.std.specs.Prelude.{◌≡◌};
ghost use Rattle.lef_text.specs.Words.{via_line_of};

use rt_words::statement;

/// What a line of the generated form is by its first word.
#[derive(Clone, Copy, Debug, PartialEq, Eq)]
pub enum FormLine {
    Rule,
    CutSize,
    Layers,
    CutSpacing,
    Enclosure,
    RowCol,
}

/// What a line of a via is by its first word.
#[derive(Clone, Copy, Debug, PartialEq, Eq)]
pub enum ViaLine {
    Layer,
    Rect,
    Polygon,
    Unused,
    Form(FormLine),
    Refused,
    End,
    Unknown,
}

const TABLE: [[u8; 20]; 17] = [
    *b"LAYER               ",
    *b"RECT                ",
    *b"POLYGON             ",
    *b"RESISTANCE          ",
    *b"PROPERTY            ",
    *b"FOREIGN             ",
    *b"VIARULE             ",
    *b"CUTSIZE             ",
    *b"LAYERS              ",
    *b"CUTSPACING          ",
    *b"ENCLOSURE           ",
    *b"ROWCOL              ",
    *b"MASK                ",
    *b"ORIGIN              ",
    *b"OFFSET              ",
    *b"PATTERN             ",
    *b"END                 ",
];

const LAYER: usize = 0;

const RECT: usize = 1;

const POLYGON: usize = 2;

const RESISTANCE: usize = 3;

const PROPERTY: usize = 4;

const FOREIGN: usize = 5;

const VIARULE: usize = 6;

const CUTSIZE: usize = 7;

const LAYERS: usize = 8;

const CUTSPACING: usize = 9;

const ENCLOSURE: usize = 10;

const ROWCOL: usize = 11;

const MASK: usize = 12;

const ORIGIN: usize = 13;

const OFFSET: usize = 14;

const PATTERN: usize = 15;

const END: usize = 16;

/// What a line of a via is by its first word.
#[tactic(auto, unfolding(crate::specs::Words::via_line_of))]
pub fn via_line_of(word: &[u8]) -> ViaLine
    ensures { result ≡ via_line_of word.now }
{
    statement!(TABLE, word,
        LAYER => ViaLine::Layer,
        RECT => ViaLine::Rect,
        POLYGON => ViaLine::Polygon,
        RESISTANCE | PROPERTY | FOREIGN => ViaLine::Unused,
        VIARULE => ViaLine::Form(FormLine::Rule),
        CUTSIZE => ViaLine::Form(FormLine::CutSize),
        LAYERS => ViaLine::Form(FormLine::Layers),
        CUTSPACING => ViaLine::Form(FormLine::CutSpacing),
        ENCLOSURE => ViaLine::Form(FormLine::Enclosure),
        ROWCOL => ViaLine::Form(FormLine::RowCol),
        MASK | ORIGIN | OFFSET | PATTERN => ViaLine::Refused,
        END => ViaLine::End,
        _ => ViaLine::Unknown,
    )
}
