//! The first words of the lines of PORT and OBS.
ghost use Rattle.std.specs.Prelude.{◌≡◌};
ghost use Rattle.lef_text.specs.Words.{shape_line_of};

use rt_words::statement;

/// What a line of PORT or OBS is by its first word.
#[derive(Clone, Copy, Debug, PartialEq, Eq)]
pub enum ShapeLine {
    Unused,
    Layer,
    Width,
    Rect,
    Polygon,
    Refused,
    End,
    Unknown,
}

const TABLE: [[u8; 20]; 10] = [
    *b"CLASS               ",
    *b"LAYER               ",
    *b"WIDTH               ",
    *b"RECT                ",
    *b"POLYGON             ",
    *b"PATH                ",
    *b"VIA                 ",
    *b"MASK                ",
    *b"ITERATE             ",
    *b"END                 ",
];

const CLASS: usize = 0;

const LAYER: usize = 1;

const WIDTH: usize = 2;

const RECT: usize = 3;

const POLYGON: usize = 4;

const PATH: usize = 5;

const VIA: usize = 6;

const MASK: usize = 7;

const ITERATE: usize = 8;

const END: usize = 9;

/// What a line of PORT or OBS is by its first word.
#[tactic(auto, unfolding(crate::specs::Words::shape_line_of))]
pub fn shape_line_of(word: &[u8]) -> ShapeLine
    ensures { result ≡ shape_line_of word.now }
{
    statement!(TABLE, word,
        CLASS => ShapeLine::Unused,
        LAYER => ShapeLine::Layer,
        WIDTH => ShapeLine::Width,
        RECT => ShapeLine::Rect,
        POLYGON => ShapeLine::Polygon,
        PATH | VIA | MASK | ITERATE => ShapeLine::Refused,
        END => ShapeLine::End,
        _ => ShapeLine::Unknown,
    )
}
