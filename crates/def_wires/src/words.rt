//! Single words of wiring: numbers, names and what a step or an option begins with.
ghost use Rattle.std.specs.Prelude.{◌≡◌, ◌^◌, ◌<◌, pos, ◌≤ℤ◌, length, IfOk};
ghost use Rattle.rt_base.specs.Ranges.{IsWithin, IsPointWithin};
ghost use Rattle.rt_forms.specs.Word.{place_of};
ghost use Rattle.rt_forms.specs.Clauses.{Reads};
ghost use Rattle.rt_forms.specs.Form.{one, admit, no_word as no_word_of};
ghost use Rattle.rt_forms.specs.Lexeme.{first_of};
ghost use Rattle.def_wires.specs.Faults.{wire_faults};
ghost use Rattle.def_wires.specs.Sound.{AreWithin};
ghost use Rattle.def_wires.specs.Meaning.{joined_by as joined_by_of, rects_of_via};
ghost use Rattle.def_wires.specs.Names.{AreNamesOf, KnowsLayers};
ghost use Rattle.def_wires.specs.Words.{number_of, number_from as number_from_of, first_coordinate as first_coordinate_of, coordinate as coordinate_of, last_coordinate as last_coordinate_of, any_layer as any_layer_of, routing_layer as routing_layer_of, any_via as any_via_of, layers_of_via as layers_of_via_of, layer_beyond as layer_beyond_of, orient_of as orient_of_word, orient_next as orient_next_of, is_refused as is_refused_word, step_word as step_word_of, opening as opening_of};
ghost use Rattle.def_wires.specs.Options.{option_word as option_word_of, plus_line};

use crate::error::WireFault;
use crate::joined::is_routing;
use crate::names::TechNames;
use crate::wiring::Joined;
use rt_base::{LayerNo, Orient, Point, Tech};
use rt_forms::Word;
use rt_words::integer;

/// The words of wiring that are left.
pub type Words<'a> = rt_forms::Words<'a, WireFault>;

/// What a step of a path begins with.
#[derive(Clone, Copy, Debug, PartialEq, Eq)]
pub enum StepWord {
    Opening,
    Rectangle,
    RefusedStep,
    ViaName,
    Other,
}

/// What stands behind a `+` of special wiring.
#[derive(Clone, Copy, Debug, PartialEq, Eq)]
pub enum OptionWord {
    Rect,
    Via,
    Shape,
    /// ROUTED, FIXED or COVER.
    Lead,
    OtherOption,
}

/// The number that a word is.
pub fn number_in(word: Word) -> Result<i64, WireFault>
    ensures value { result ≡ number_of (place_of word.entry) }
    ensures small { IfOk result (λ z. IsWithin (2 ^ 30) z) }
{
    match integer(word.bytes) {
        Ok(z) => Ok(z),
        Err(_) => Err(WireFault::Number { line: word.line }),
    }
}

/// The number from `low` on that a word is.
pub fn number_from_in(word: Word, low: u32) -> Result<i64, WireFault>
    ensures value { result ≡ number_from_of low (place_of word.entry) }
    ensures above { IfOk result (λ z. pos low ≤ℤ z) }
    ensures below { IfOk result (λ z. z ≤ℤ pos (2 ^ 30)) }
{
    let z = number_in(word)?;
    if z < i64::from(low) {
        return Err(WireFault::Number { line: word.line });
    }
    Ok(z)
}

/// A number.
pub fn number(words: &mut Words) -> Result<i64, WireFault>
    ensures reads { Reads wire_faults (λ x. x) result words.old words.new (one number_of) }
    ensures small { IfOk result (λ z. IsWithin (2 ^ 30) z) }
{
    let word = words.next()?;
    number_in(word)
}

/// A number from `low` on.
pub fn number_from(words: &mut Words, low: u32) -> Result<i64, WireFault>
    ensures reads { Reads wire_faults (λ x. x) result words.old words.new (one (number_from_of low)) }
    ensures above { IfOk result (λ z. pos low ≤ℤ z) }
    ensures below { IfOk result (λ z. z ≤ℤ pos (2 ^ 30)) }
{
    let word = words.next()?;
    number_from_in(word, low)
}

/// A coordinate of a path's first point.
pub fn first_coordinate(words: &mut Words) -> Result<i64, WireFault>
    ensures reads { Reads wire_faults (λ x. x) result words.old words.new (one first_coordinate_of) }
    ensures small { IfOk result (λ z. IsWithin (2 ^ 30) z) }
{
    let word = words.next()?;
    if word.is(b"*") {
        return Err(WireFault::FirstStar { line: word.line });
    }
    number_in(word)
}

/// What a coordinate means behind a point: `*` is the x of the point.
fn x_in(word: Word, from: Point) -> Result<i64, WireFault>
    requires { IsPointWithin (2 ^ 30) from }
    ensures value { result ≡ coordinate_of from.x (place_of word.entry) }
    ensures small { IfOk result (λ z. IsWithin (2 ^ 30) z) }
{
    if word.is(b"*") {
        return Ok(from.x);
    }
    number_in(word)
}

/// What a coordinate means behind a point: `*` is the y of the point.
fn y_in(word: Word, from: Point) -> Result<i64, WireFault>
    requires { IsPointWithin (2 ^ 30) from }
    ensures value { result ≡ coordinate_of from.y (place_of word.entry) }
    ensures small { IfOk result (λ z. IsWithin (2 ^ 30) z) }
{
    if word.is(b"*") {
        return Ok(from.y);
    }
    number_in(word)
}

/// The x of a later point.
pub fn next_x(words: &mut Words, from: Point) -> Result<i64, WireFault>
    requires { IsPointWithin (2 ^ 30) from }
    ensures reads { Reads wire_faults (λ x. x) result words.old words.new (one (coordinate_of from.x)) }
    ensures small { IfOk result (λ z. IsWithin (2 ^ 30) z) }
{
    let word = words.next()?;
    x_in(word, from)
}

/// A later point, whose `y` is read: it is straight above, below or beside the one before.
pub fn next_point(words: &mut Words, from: Point, x: i64) -> Result<Point, WireFault>
    requires from { IsPointWithin (2 ^ 30) from }
    requires x { IsWithin (2 ^ 30) x }
    ensures reads { Reads wire_faults (λ p. p) result words.old words.new (one (last_coordinate_of from x)) }
    ensures small { IfOk result (λ p. IsPointWithin (2 ^ 30) p) }
{
    let word = words.next()?;
    let y = y_in(word, from)?;
    if x != from.x && y != from.y {
        return Err(WireFault::Diagonal { line: word.line });
    }
    Ok(Point { x, y })
}

/// The layer that holds shapes and has this name.
fn layer_in(word: Word, tech: &Tech, names: &TechNames) -> Result<LayerNo, WireFault>
    requires { KnowsLayers names.now tech.now.layers }
    ensures value { result ≡ any_layer_of tech.now (place_of word.entry) }
    ensures inside { IfOk result (λ l. l.0 < length tech.now.layers) }
{
    if !word.is_name() {
        return Err(WireFault::Expected { line: word.line });
    }
    match names.layers.find(word.bytes) {
        None => Err(WireFault::NoSuchLayer { line: word.line }),
        Some(k) => Ok(LayerNo(k)),
    }
}

/// The name of a layer that holds shapes.
pub fn any_layer(words: &mut Words, tech: &Tech, names: &TechNames) -> Result<LayerNo, WireFault>
    requires { KnowsLayers names.now tech.now.layers }
    ensures reads { Reads wire_faults (λ x. x) result words.old words.new (one (any_layer_of tech.now)) }
    ensures inside { IfOk result (λ l. l.0 < length tech.now.layers) }
{
    let word = words.next()?;
    layer_in(word, tech, names)
}

/// The name of a routing layer.
pub fn routing_layer(
    words: &mut Words,
    tech: &Tech,
    names: &TechNames,
) -> Result<LayerNo, WireFault>
    requires { KnowsLayers names.now tech.now.layers }
    ensures reads { Reads wire_faults (λ x. x) result words.old words.new (one (routing_layer_of tech.now)) }
    ensures inside { IfOk result (λ l. l.0 < length tech.now.layers) }
{
    let word = words.next()?;
    let layer = layer_in(word, tech, names)?;
    if !is_routing(tech, layer) {
        return Err(WireFault::NoSuchLayer { line: word.line });
    }
    Ok(layer)
}

/// The via of this name.
pub fn via_in(word: Word, tech: &Tech, names: &TechNames) -> Result<u32, WireFault>
    requires { AreNamesOf names.now tech.now }
    ensures value { result ≡ any_via_of tech.now (place_of word.entry) }
    ensures inside { IfOk result (λ v. v < length tech.now.vias) }
{
    if !word.is_name() {
        return Err(WireFault::Expected { line: word.line });
    }
    match names.vias.find(word.bytes) {
        None => Err(WireFault::NoSuchVia { line: word.line }),
        Some(v) => Ok(v),
    }
}

/// The two routing layers of a via, None where it hasn't rectangles on exactly two.
fn joined_of_via(tech: &Tech, names: &TechNames, via: u32) -> Option<Joined>
    requires names { AreNamesOf names.now tech.now }
    requires via { via < length tech.now.vias }
    ensures { result ≡ joined_by_of tech.now (rects_of_via tech.now via) }
{
    match names.joined.as_slice().get(via as usize) {
        None => None,
        Some(joined) => *joined,
    }
}

/// The two routing layers of a via, whose name stands on this line.
pub fn layers_of_via(
    tech: &Tech,
    names: &TechNames,
    line: u32,
    via: u32,
) -> Result<Joined, WireFault>
    requires names { AreNamesOf names.now tech.now }
    requires via { via < length tech.now.vias }
    ensures value { result ≡ layers_of_via_of tech.now line via }
    ensures within { IfOk result (AreWithin (length tech.now.layers)) }
{
    match joined_of_via(tech, names, via) {
        None => Err(WireFault::ViaOffLayer { line }),
        Some(joined) => Ok(joined),
    }
}

/// The other routing layer of a via, from the current layer.
pub fn layer_beyond(
    tech: &Tech,
    names: &TechNames,
    layer: LayerNo,
    line: u32,
    via: u32,
) -> Result<LayerNo, WireFault>
    requires names { AreNamesOf names.now tech.now }
    requires via { via < length tech.now.vias }
    ensures value { result ≡ layer_beyond_of tech.now layer line via }
    ensures inside { IfOk result (λ l. l.0 < length tech.now.layers) }
{
    let joined = layers_of_via(tech, names, line, via)?;
    match joined.other(layer) {
        None => Err(WireFault::ViaOffLayer { line }),
        Some(other) => Ok(other),
    }
}

/// The orientation that a word is.
fn orient_of(word: Word) -> Option<Orient>
    ensures { result ≡ orient_of_word word.entry.bytes.now }
{
    if word.is(b"N") {
        return Some(Orient::N);
    }
    if word.is(b"W") {
        return Some(Orient::W);
    }
    if word.is(b"S") {
        return Some(Orient::S);
    }
    if word.is(b"E") {
        return Some(Orient::E);
    }
    if word.is(b"FN") {
        return Some(Orient::FN);
    }
    if word.is(b"FS") {
        return Some(Orient::FS);
    }
    if word.is(b"FW") {
        return Some(Orient::FW);
    }
    if word.is(b"FE") {
        return Some(Orient::FE);
    }
    None
}

/// The orientation that the next word is, which stays.
pub fn orient_next(words: &Words) -> Option<Orient>
    ensures { result ≡ orient_next_of (first_of words.now) }
{
    match words.peek() {
        None => None,
        Some(word) => orient_of(word),
    }
}

/// Whether a word isn't supported in paths.
fn is_refused(word: Word) -> bool
    ensures { result ≡ is_refused_word word.entry.bytes.now }
{
    word.is(b"MASK") || word.is(b"TAPERRULE") || word.is(b"STYLE") || word.is(b"VIRTUAL")
}

/// What a step begins with that begins with this word.
pub fn step_word(word: Word) -> StepWord
    ensures { result ≡ step_word_of word.entry.bytes.now }
{
    if word.is(b"(") {
        return StepWord::Opening;
    }
    if word.is(b"RECT") {
        return StepWord::Rectangle;
    }
    if is_refused(word) {
        return StepWord::RefusedStep;
    }
    if word.is_name() {
        return StepWord::ViaName;
    }
    StepWord::Other
}

/// What an option is whose first word behind `+` this is.
pub fn option_word(word: Word) -> OptionWord
    ensures { result ≡ option_word_of word.entry.bytes.now }
{
    if word.is(b"RECT") {
        return OptionWord::Rect;
    }
    if word.is(b"VIA") {
        return OptionWord::Via;
    }
    if word.is(b"SHAPE") {
        return OptionWord::Shape;
    }
    if word.is(b"ROUTED") || word.is(b"FIXED") || word.is(b"COVER") {
        return OptionWord::Lead;
    }
    OptionWord::OtherOption
}

/// The `(` before a path's first point.
pub fn opening(words: &mut Words) -> Result<(), WireFault>
    ensures { Reads wire_faults (λ x. x) result words.old words.new (one opening_of) }
{
    let word = words.next()?;
    if word.is(b"(") {
        return Ok(());
    }
    if is_refused(word) {
        return Err(WireFault::Refused { line: word.line });
    }
    Err(WireFault::Expected { line: word.line })
}

/// Whether no word is left.
pub fn no_word(words: &Words) -> bool
    ensures { result ≡ no_word_of (first_of words.now) }
{
    words.peek().is_none()
}

/// A `+`, by its line.
pub fn plus(words: &mut Words) -> Result<u32, WireFault>
    ensures { Reads wire_faults (λ x. x) result words.old words.new plus_line }
{
    let word = words.next()?;
    if !word.is(b"+") {
        return Err(WireFault::Expected { line: word.line });
    }
    Ok(word.line)
}
