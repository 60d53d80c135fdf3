//! The first words of the lines of a macro and of a pin.
ghost use Rattle.std.specs.Prelude.{◌≡◌};
ghost use Rattle.lef_text.specs.Words.{macro_line_of};

use rt_words::statement;

/// What a line of a macro is by its first word.
#[derive(Clone, Copy, Debug, PartialEq, Eq)]
pub enum MacroLine {
    Size,
    Origin,
    Pin,
    Obs,
    Density,
    Timing,
    Unused,
    End,
    Unknown,
}

const TABLE: [[u8; 20]; 15] = [
    *b"SIZE                ",
    *b"ORIGIN              ",
    *b"PIN                 ",
    *b"OBS                 ",
    *b"DENSITY             ",
    *b"TIMING              ",
    *b"CLASS               ",
    *b"FOREIGN             ",
    *b"SYMMETRY            ",
    *b"SITE                ",
    *b"EEQ                 ",
    *b"SOURCE              ",
    *b"FIXEDMASK           ",
    *b"PROPERTY            ",
    *b"END                 ",
];

const SIZE: usize = 0;

const ORIGIN: usize = 1;

const PIN: usize = 2;

const OBS: usize = 3;

const DENSITY: usize = 4;

const TIMING: usize = 5;

const CLASS: usize = 6;

const FOREIGN: usize = 7;

const SYMMETRY: usize = 8;

const SITE: usize = 9;

const EEQ: usize = 10;

const SOURCE: usize = 11;

const FIXEDMASK: usize = 12;

const PROPERTY: usize = 13;

const END: usize = 14;

/// What a line of a macro is by its first word.
#[tactic(auto, unfolding(crate::specs::Words::macro_line_of))]
pub fn macro_line_of(word: &[u8]) -> MacroLine
    ensures { result ≡ macro_line_of word.now }
{
    statement!(TABLE, word,
        SIZE => MacroLine::Size,
        ORIGIN => MacroLine::Origin,
        PIN => MacroLine::Pin,
        OBS => MacroLine::Obs,
        DENSITY => MacroLine::Density,
        TIMING => MacroLine::Timing,
        CLASS | FOREIGN | SYMMETRY | SITE | EEQ | SOURCE | FIXEDMASK | PROPERTY => MacroLine::Unused,
        END => MacroLine::End,
        _ => MacroLine::Unknown,
    )
}
