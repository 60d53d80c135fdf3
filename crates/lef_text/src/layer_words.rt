//! The first words of the lines of a layer.
ghost use Rattle.std.specs.Prelude.{◌≡◌};
ghost use Rattle.lef_text.specs.Words.{layer_line_of};

use rt_words::statement;

/// What a line of a routing or cut layer is by its first word.
#[derive(Clone, Copy, Debug, PartialEq, Eq)]
pub enum LayerLine {
    Direction,
    Unused,
    Width,
    Spacing,
    SpacingTable,
    CurrentDensity,
    End,
    Other,
}

const TABLE: [[u8; 20]; 9] = [
    *b"DIRECTION           ",
    *b"PITCH               ",
    *b"OFFSET              ",
    *b"WIDTH               ",
    *b"SPACING             ",
    *b"SPACINGTABLE        ",
    *b"ACCURRENTDENSITY    ",
    *b"DCCURRENTDENSITY    ",
    *b"END                 ",
];

const DIRECTION: usize = 0;

const PITCH: usize = 1;

const OFFSET: usize = 2;

const WIDTH: usize = 3;

const SPACING: usize = 4;

const SPACINGTABLE: usize = 5;

const ACCURRENTDENSITY: usize = 6;

const DCCURRENTDENSITY: usize = 7;

const END: usize = 8;

/// What a line of a routing or cut layer is by its first word.
#[tactic(auto, unfolding(crate::specs::Words::layer_line_of))]
pub fn layer_line_of(word: &[u8]) -> LayerLine
    ensures { result ≡ layer_line_of word.now }
{
    statement!(TABLE, word,
        DIRECTION => LayerLine::Direction,
        PITCH | OFFSET => LayerLine::Unused,
        WIDTH => LayerLine::Width,
        SPACING => LayerLine::Spacing,
        SPACINGTABLE => LayerLine::SpacingTable,
        ACCURRENTDENSITY | DCCURRENTDENSITY => LayerLine::CurrentDensity,
        END => LayerLine::End,
        _ => LayerLine::Other,
    )
}
