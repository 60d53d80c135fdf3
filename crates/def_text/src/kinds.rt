//! The first words of statements and options.
ghost use Rattle.std.specs.Prelude.{◌≡◌};
ghost use Rattle.rt_forms.specs.Lexeme.{first_of};
ghost use Rattle.def_text.specs.Kinds.{statement_of, pin_option_of, behind_layer, net_option_of, special_option_of};

use crate::parts::Words;
use rt_words::statement;

/// What begins with a word that stands where a statement should begin.
#[derive(Clone, Copy, Debug, PartialEq, Eq)]
pub enum Statement {
    Units,
    Die,
    Tracks,
    /// Read up to its `;` and unused.
    Unused,
    /// Skipped up to `END` and its own word.
    Skipped,
    /// Skipped up to `ENDEXT`.
    Extension,
    Vias,
    Components,
    Pins,
    Blockages,
    Special,
    Nets,
    End,
    Other,
}

/// An option of a pin.
#[derive(Clone, Copy, Debug, PartialEq, Eq)]
pub enum PinOption {
    Layer,
    Port,
    Placed,
    Refused,
    Unused,
}

/// What stands behind the layer of a pin's rectangle.
#[derive(Clone, Copy, Debug, PartialEq, Eq)]
pub enum BehindLayer {
    Rule,
    Mask,
    Points,
}

/// An option of a net.
#[derive(Clone, Copy, Debug, PartialEq, Eq)]
pub enum NetOption {
    Wiring,
    Subnet,
    Rule,
    Unused,
}

/// An option of a special net.
#[derive(Clone, Copy, Debug, PartialEq, Eq)]
pub enum SpecialOption {
    /// Paths of wiring, or the word before a rectangle or vias.
    Wired,
    /// A rectangle, or vias.
    Metal,
    Shape,
    Style,
    Refused,
    Unused,
}

const STATEMENTS: [[u8; 20]; 29] = [
    *b"UNITS               ",
    *b"DIEAREA             ",
    *b"TRACKS              ",
    *b"PINS                ",
    *b"NETS                ",
    *b"VERSION             ",
    *b"DIVIDERCHAR         ",
    *b"BUSBITCHARS         ",
    *b"NAMESCASESENSITIVE  ",
    *b"DESIGN              ",
    *b"TECHNOLOGY          ",
    *b"HISTORY             ",
    *b"ROW                 ",
    *b"GCELLGRID           ",
    *b"PROPERTYDEFINITIONS ",
    *b"REGIONS             ",
    *b"GROUPS              ",
    *b"FILLS               ",
    *b"SLOTS               ",
    *b"NONDEFAULTRULES     ",
    *b"PINPROPERTIES       ",
    *b"STYLES              ",
    *b"SCANCHAINS          ",
    *b"BEGINEXT            ",
    *b"VIAS                ",
    *b"COMPONENTS          ",
    *b"BLOCKAGES           ",
    *b"SPECIALNETS         ",
    *b"END                 ",
];

const UNITS: usize = 0;

const DIEAREA: usize = 1;

const TRACKS: usize = 2;

const PINS: usize = 3;

const NETS: usize = 4;

const VERSION: usize = 5;

const DIVIDERCHAR: usize = 6;

const BUSBITCHARS: usize = 7;

const NAMESCASESENSITIVE: usize = 8;

const DESIGN: usize = 9;

const TECHNOLOGY: usize = 10;

const HISTORY: usize = 11;

const ROW: usize = 12;

const GCELLGRID: usize = 13;

const PROPERTYDEFINITIONS: usize = 14;

const REGIONS: usize = 15;

const GROUPS: usize = 16;

const FILLS: usize = 17;

const SLOTS: usize = 18;

const NONDEFAULTRULES: usize = 19;

const PINPROPERTIES: usize = 20;

const STYLES: usize = 21;

const SCANCHAINS: usize = 22;

const BEGINEXT: usize = 23;

const VIAS: usize = 24;

const COMPONENTS: usize = 25;

const BLOCKAGES: usize = 26;

const SPECIALNETS: usize = 27;

const END: usize = 28;

/// What a word in the place of a statement's first begins.
pub fn statement_of(word: &[u8]) -> Statement
    ensures { result ≡ statement_of word.now }
{
    statement!(STATEMENTS, word,
        UNITS => Statement::Units,
        DIEAREA => Statement::Die,
        TRACKS => Statement::Tracks,
        VIAS => Statement::Vias,
        COMPONENTS => Statement::Components,
        PINS => Statement::Pins,
        NETS => Statement::Nets,
        BLOCKAGES => Statement::Blockages,
        SPECIALNETS => Statement::Special,
        VERSION | DIVIDERCHAR | BUSBITCHARS | NAMESCASESENSITIVE | DESIGN | TECHNOLOGY
            | HISTORY | ROW | GCELLGRID => Statement::Unused,
        PROPERTYDEFINITIONS | REGIONS | GROUPS | FILLS | SLOTS | NONDEFAULTRULES | PINPROPERTIES
            | STYLES | SCANCHAINS => Statement::Skipped,
        BEGINEXT => Statement::Extension,
        END => Statement::End,
        _ => Statement::Other,
    )
}

const PIN_OPTIONS: [[u8; 20]; 8] = [
    *b"LAYER               ",
    *b"PORT                ",
    *b"PLACED              ",
    *b"FIXED               ",
    *b"COVER               ",
    *b"POLYGON             ",
    *b"VIA                 ",
    *b"MASK                ",
];

const LAYER: usize = 0;

const PORT: usize = 1;

const PLACED: usize = 2;

const FIXED: usize = 3;

const COVER: usize = 4;

const POLYGON: usize = 5;

const VIA: usize = 6;

const MASK: usize = 7;

/// The option of a pin whose first word comes next.
pub fn pin_option_of(words: &Words) -> PinOption
    ensures { result ≡ pin_option_of (first_of words.now) }
{
    let Some(word) = words.peek() else {
        return PinOption::Unused;
    };
    statement!(PIN_OPTIONS, word.bytes,
        LAYER => PinOption::Layer,
        PORT => PinOption::Port,
        PLACED | FIXED | COVER => PinOption::Placed,
        POLYGON | VIA | MASK => PinOption::Refused,
        _ => PinOption::Unused,
    )
}

/// What comes next, behind the layer of a pin's rectangle.
pub fn behind_layer(words: &Words) -> BehindLayer
    ensures { result ≡ behind_layer (first_of words.now) }
{
    if words.at(b"SPACING") || words.at(b"DESIGNRULEWIDTH") {
        return BehindLayer::Rule;
    }
    if words.at(b"MASK") {
        return BehindLayer::Mask;
    }
    BehindLayer::Points
}

const NET_OPTIONS: [[u8; 20]; 6] = [
    *b"ROUTED              ",
    *b"FIXED               ",
    *b"COVER               ",
    *b"NOSHIELD            ",
    *b"SUBNET              ",
    *b"NONDEFAULTRULE      ",
];

const NET_ROUTED: usize = 0;

const NET_FIXED: usize = 1;

const NET_COVER: usize = 2;

const NET_NOSHIELD: usize = 3;

const NET_SUBNET: usize = 4;

const NET_NONDEFAULTRULE: usize = 5;

/// The option of a net whose first word comes next.
pub fn net_option_of(words: &Words) -> NetOption
    ensures { result ≡ net_option_of (first_of words.now) }
{
    let Some(word) = words.peek() else {
        return NetOption::Unused;
    };
    statement!(NET_OPTIONS, word.bytes,
        NET_ROUTED | NET_FIXED | NET_COVER | NET_NOSHIELD => NetOption::Wiring,
        NET_SUBNET => NetOption::Subnet,
        NET_NONDEFAULTRULE => NetOption::Rule,
        _ => NetOption::Unused,
    )
}

const SPECIAL_OPTIONS: [[u8; 20]; 9] = [
    *b"ROUTED              ",
    *b"FIXED               ",
    *b"COVER               ",
    *b"RECT                ",
    *b"VIA                 ",
    *b"SHAPE               ",
    *b"STYLE               ",
    *b"SHIELD              ",
    *b"POLYGON             ",
];

const SPECIAL_ROUTED: usize = 0;

const SPECIAL_FIXED: usize = 1;

const SPECIAL_COVER: usize = 2;

const SPECIAL_RECT: usize = 3;

const SPECIAL_VIA: usize = 4;

const SPECIAL_SHAPE: usize = 5;

const SPECIAL_STYLE: usize = 6;

const SPECIAL_SHIELD: usize = 7;

const SPECIAL_POLYGON: usize = 8;

/// The option of a special net whose first word comes next.
pub fn special_option_of(words: &Words) -> SpecialOption
    ensures { result ≡ special_option_of (first_of words.now) }
{
    let Some(word) = words.peek() else {
        return SpecialOption::Unused;
    };
    statement!(SPECIAL_OPTIONS, word.bytes,
        SPECIAL_ROUTED | SPECIAL_FIXED | SPECIAL_COVER => SpecialOption::Wired,
        SPECIAL_RECT | SPECIAL_VIA => SpecialOption::Metal,
        SPECIAL_SHAPE => SpecialOption::Shape,
        SPECIAL_STYLE => SpecialOption::Style,
        SPECIAL_SHIELD | SPECIAL_POLYGON => SpecialOption::Refused,
        _ => SpecialOption::Unused,
    )
}
