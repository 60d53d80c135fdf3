//! The line that is said where a run is refused.
ghost use Rattle.std.specs.Prelude.{◌≡◌, ◌++◌, codes, IfOk, OnOk};
ghost use Rattle.router.specs.ErrorLines.{with_number, with_name, with_number_name, with_names, with_numbers, words_text, scan_text, fault_text, what_text, lef_text, def_text, guide_text, wire_text, limited_text, limit_text, build_text, kind_text, error_line};

use crate::refusal::{DEF_MOST, GUIDE_MOST, LEF_MOST, Refusal};
use crate::words::WordsFault;
use build::{BuildError, Limited};
use def_text::DefError;
use def_wires::WireFault;
use guide_text::GuideError;
use lef_text::{LefError, What};
use rt_base::{Memory, ScanError};
use rt_text::Text;
use rt_words::NumberFault;
use std::alloc::Global;

/// A kind and a number.
fn with_number(text: &mut Text, kind: &[u8], number: u128) -> Result<(), Memory>
    ensures { OnOk result (text.new ≡ text.old ++ with_number kind.now number) }
{
    text.bytes(kind)?;
    text.bytes(b" ")?;
    text.natural(number)
}

/// A kind and a name.
fn with_name(text: &mut Text, kind: &[u8], name: &[u8]) -> Result<(), Memory>
    ensures { OnOk result (text.new ≡ text.old ++ with_name kind.now name.now) }
{
    text.bytes(kind)?;
    text.bytes(b" ")?;
    text.bytes(name)
}

/// A kind, a number and a name.
fn with_number_name(text: &mut Text, kind: &[u8], number: u32, name: &[u8]) -> Result<(), Memory>
    ensures { OnOk result (text.new ≡ text.old ++ with_number_name kind.now number name.now) }
{
    with_number(text, kind, u128::from(number))?;
    text.bytes(b" ")?;
    text.bytes(name)
}

/// A kind and two names.
fn with_names(text: &mut Text, kind: &[u8], a: &[u8], b: &[u8]) -> Result<(), Memory>
    ensures { OnOk result (text.new ≡ text.old ++ with_names kind.now a.now b.now) }
{
    with_name(text, kind, a)?;
    text.bytes(b" ")?;
    text.bytes(b)
}

/// A kind and two numbers.
fn with_numbers(text: &mut Text, kind: &[u8], m: u128, n: u128) -> Result<(), Memory>
    ensures { OnOk result (text.new ≡ text.old ++ with_numbers kind.now m n) }
{
    with_number(text, kind, m)?;
    text.bytes(b" ")?;
    text.natural(n)
}

/// A kind, a name and two numbers.
fn with_name_numbers(
    text: &mut Text,
    kind: &[u8],
    name: &[u8],
    m: u128,
    n: u128,
) -> Result<(), Memory>
    ensures { OnOk result (text.new ≡ text.old ++ with_numbers (with_name kind.now name.now) m n) }
{
    with_name(text, kind, name)?;
    text.bytes(b" ")?;
    text.natural(m)?;
    text.bytes(b" ")?;
    text.natural(n)
}

fn words_text(text: &mut Text, fault: &WordsFault) -> Result<(), Memory>
    ensures { OnOk result (text.new ≡ text.old ++ words_text fault.now) }
{
    match fault {
        WordsFault::Shape { word } => with_number(text, b"shape", u128::from(*word)),
        WordsFault::Twice { word } => with_number(text, b"twice", u128::from(*word)),
        WordsFault::Number { word } => with_number(text, b"number", u128::from(*word)),
        WordsFault::SameName { word } => with_number(text, b"same-name", u128::from(*word)),
    }
}

fn scan_text(text: &mut Text, error: &ScanError) -> Result<(), Memory>
    ensures { OnOk result (text.new ≡ text.old ++ scan_text error.now) }
{
    match error {
        ScanError::UnclosedQuote { line } => with_number(text, b"quote", u128::from(*line)),
        ScanError::NotText { line } => with_number(text, b"not-text", u128::from(*line)),
        ScanError::Memory => text.bytes(b"memory"),
    }
}

fn fault_word(fault: NumberFault) -> &'static [u8]
    ensures { result.now ≡ fault_text fault }
{
    match fault {
        NumberFault::NotNumber => b"not-number",
        NumberFault::TooManyDecimals => b"too-many-decimals",
        NumberFault::TooLarge => b"too-large",
        NumberFault::NotWhole => b"not-whole",
        NumberFault::OutOfRange => b"out-of-range",
    }
}

fn what_word(what: What) -> &'static [u8]
    ensures { result.now ≡ what_text what }
{
    match what {
        What::Direction => b"direction",
        What::Width => b"width",
        What::Spacing => b"spacing",
    }
}

fn lef_text(text: &mut Text, error: &LefError) -> Result<(), Memory>
    ensures { OnOk result (text.new ≡ text.old ++ lef_text error.now) }
{
    match error {
        LefError::Scan(fault) => scan_text(text, fault),
        LefError::Expected { line } => with_number(text, b"expected", u128::from(*line)),
        LefError::Unknown { line } => with_number(text, b"unknown", u128::from(*line)),
        LefError::Number { line, fault } => {
            with_number_name(text, b"number", *line, fault_word(*fault))
        }
        LefError::Twice { line, name } => with_number_name(text, b"twice", *line, name.bytes()),
        LefError::NoLayer { line, name } => {
            with_number_name(text, b"no-layer", *line, name.bytes())
        }
        LefError::LayerWithout { name, what } => {
            with_names(text, b"layer-without", name.bytes(), what_word(*what))
        }
        LefError::SameDirection { lower, upper } => {
            with_names(text, b"same-direction", lower.bytes(), upper.bytes())
        }
        LefError::OddWidth { name } => with_name(text, b"odd-width", name.bytes()),
        LefError::Refused { line, word } => with_number_name(text, b"refused", *line, word.bytes()),
        LefError::Unended { line } => with_number(text, b"unended", u128::from(*line)),
        LefError::Memory => text.bytes(b"memory"),
    }
}

fn def_text(text: &mut Text, error: &DefError) -> Result<(), Memory>
    ensures { OnOk result (text.new ≡ text.old ++ def_text error.now) }
{
    match error {
        DefError::Scan(fault) => scan_text(text, fault),
        DefError::Expected { line } => with_number(text, b"expected", u128::from(*line)),
        DefError::Unknown { line } => with_number(text, b"unknown", u128::from(*line)),
        DefError::Number { line, fault } => {
            with_number_name(text, b"number", *line, fault_word(*fault))
        }
        DefError::Twice { line, name } => with_number_name(text, b"twice", *line, name.bytes()),
        DefError::Refused { line, word } => with_number_name(text, b"refused", *line, word.bytes()),
        DefError::Unended { line } => with_number(text, b"unended", u128::from(*line)),
        DefError::Count {
            section,
            said,
            found,
        } => with_name_numbers(
            text,
            b"count",
            section.bytes(),
            u128::from(*said),
            u128::from(*found),
        ),
        DefError::DiePolygon { line } => with_number(text, b"die-polygon", u128::from(*line)),
        DefError::Missing { what } => with_name(text, b"missing", what.bytes()),
        DefError::Memory => text.bytes(b"memory"),
    }
}

fn guide_text(text: &mut Text, error: &GuideError) -> Result<(), Memory>
    ensures { OnOk result (text.new ≡ text.old ++ guide_text error.now) }
{
    match error {
        GuideError::Scan(fault) => scan_text(text, fault),
        GuideError::Expected { line } => with_number(text, b"expected", u128::from(*line)),
        GuideError::Number { line } => with_number(text, b"number", u128::from(*line)),
        GuideError::EmptyBox { line } => with_number(text, b"empty-box", u128::from(*line)),
        GuideError::Twice { line, name } => with_number_name(text, b"twice", *line, name.bytes()),
        GuideError::Unended { line } => with_number(text, b"unended", u128::from(*line)),
        GuideError::Memory => text.bytes(b"memory"),
    }
}

fn wire_text(text: &mut Text, fault: &WireFault) -> Result<(), Memory>
    ensures { OnOk result (text.new ≡ text.old ++ wire_text fault.now) }
{
    match fault {
        WireFault::Expected { line } => with_number(text, b"expected", u128::from(*line)),
        WireFault::Number { line } => with_number(text, b"number", u128::from(*line)),
        WireFault::NoSuchLayer { line } => with_number(text, b"no-such-layer", u128::from(*line)),
        WireFault::NoSuchVia { line } => with_number(text, b"no-such-via", u128::from(*line)),
        WireFault::FirstStar { line } => with_number(text, b"first-star", u128::from(*line)),
        WireFault::Diagonal { line } => with_number(text, b"diagonal", u128::from(*line)),
        WireFault::ViaOffLayer { line } => with_number(text, b"via-off-layer", u128::from(*line)),
        WireFault::Refused { line } => with_number(text, b"refused", u128::from(*line)),
        WireFault::Memory => text.bytes(b"memory"),
    }
}

fn wiring_text(text: &mut Text, fault: &WireFault) -> Result<(), Memory>
    ensures { OnOk result (text.new ≡ text.old ++ with_name (codes "wiring") (wire_text fault.now)) }
{
    text.bytes(b"wiring ")?;
    wire_text(text, fault)
}

fn limited_word(what: Limited) -> &'static [u8]
    ensures { result.now ≡ limited_text what }
{
    match what {
        Limited::RoutingLayers => b"routing-layers",
        Limited::Vias => b"vias",
        Limited::UsableVias => b"usable-vias",
        Limited::Tracks => b"tracks",
        Limited::Nets => b"nets",
        Limited::FixedShapes => b"fixed-shapes",
        Limited::Coordinate => b"coordinate",
        Limited::Entries => b"entries",
        Limited::Tiles => b"tiles",
        Limited::TileShapes => b"tile-shapes",
    }
}

fn limit_text(text: &mut Text, what: &[u8], count: u128, most: u64) -> Result<(), Memory>
    ensures { OnOk result (text.new ≡ text.old ++ limit_text what.now count most) }
{
    with_name_numbers(text, b"limit", what, count, u128::from(most))
}

/// The same of the bytes of a file.
fn bytes_text(text: &mut Text, what: &[u8], count: u64, most: u64) -> Result<(), Memory>
    ensures { OnOk result (text.new ≡ text.old ++ limit_text what.now count most) }
{
    limit_text(text, what, u128::from(count), most)
}

fn build_text(text: &mut Text, error: &BuildError) -> Result<(), Memory>
    ensures { OnOk result (text.new ≡ text.old ++ build_text error.now) }
{
    match error {
        BuildError::Scale { lef, def } => {
            with_numbers(text, b"scale", u128::from(*lef), u128::from(*def))
        }
        BuildError::NoMacro { name } => with_name(text, b"no-macro", name.bytes()),
        BuildError::NoComponent { name } => with_name(text, b"no-component", name.bytes()),
        BuildError::NoPin { name } => with_name(text, b"no-pin", name.bytes()),
        BuildError::NoLayer { name } => with_name(text, b"no-layer", name.bytes()),
        BuildError::NoNet { name } => with_name(text, b"no-net", name.bytes()),
        BuildError::PinTwice { name } => with_name(text, b"pin-twice", name.bytes()),
        BuildError::Wiring { fault } => wiring_text(text, fault),
        BuildError::NoTracks { layer } => with_name(text, b"no-tracks", layer.bytes()),
        BuildError::Limit { what, count, most } => {
            limit_text(text, limited_word(*what), *count, *most)
        }
        BuildError::Memory => text.bytes(b"memory"),
    }
}

fn kind_text(text: &mut Text, refusal: &Refusal) -> Result<(), Memory>
    ensures { OnOk result (text.new ≡ text.old ++ kind_text refusal.now) }
{
    match refusal {
        Refusal::Words(fault) => words_text(text, fault),
        Refusal::LefBytes { read } => bytes_text(text, b"lef-bytes", *read, LEF_MOST),
        Refusal::DefBytes { read } => bytes_text(text, b"def-bytes", *read, DEF_MOST),
        Refusal::GuideBytes { read } => bytes_text(text, b"guide-bytes", *read, GUIDE_MOST),
        Refusal::Lef(error) => lef_text(text, error),
        Refusal::Def(error) => def_text(text, error),
        Refusal::Guide(error) => guide_text(text, error),
        Refusal::Build(error) => build_text(text, error),
        Refusal::Read { name } => with_name(text, b"read", name.bytes()),
        Refusal::Write { name } => with_name(text, b"write", name.bytes()),
        Refusal::Memory => text.bytes(b"memory"),
    }
}

/// The error line of a refusal: `error`, its status, a kind word and what it keeps, separated by one
/// space, and a line feed.
pub fn error_line(alloc: Global, refusal: &Refusal) -> Result<Vec<u8>, Memory>
    ensures { IfOk result (λ line. line.items ≡ error_line refusal.now) }
{
    let mut text = Text::new(alloc);
    with_number(&mut text, b"error", u128::from(refusal.status()))?;
    text.bytes(b" ")?;
    kind_text(&mut text, refusal)?;
    text.bytes(b"\n")?;
    Ok(text.into_vec())
}
