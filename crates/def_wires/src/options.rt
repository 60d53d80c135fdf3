//! Wiring that begins with `+`: a rectangle, or a via at points.
ghost use Rattle.std.specs.Prelude.{◌≡◌, ◌++◌, ◌∷◌, [], ◌<◌, ◌^◌, pos, Some, None, length, All, IfOk, OnOk, codes};
ghost use Rattle.rt_base.specs.Ranges.{IsPointWithin, AreSidesWithin};
ghost use Rattle.rt_forms.specs.Clauses.{Reads, Looks};
ghost use Rattle.rt_forms.specs.Form.{More, loop, unless, no_word as no_word_of, choose};
ghost use Rattle.rt_forms.specs.Lexeme.{first_of};
ghost use Rattle.rt_forms.specs.Reading.{is_next};
ghost use Rattle.rt_forms.specs.Word.{place_of};
ghost use Rattle.def_wires.specs.Faults.{wire_faults};
ghost use Rattle.def_wires.specs.Names.{AreNamesOf};
ghost use Rattle.def_wires.specs.Sound.{IsWirePath, IsWiring};
ghost use Rattle.def_wires.specs.Paths.{all_paths as all_paths_form};
ghost use Rattle.def_wires.specs.Options.{rect_path as rect_path_of, via_path as via_path_of, rect_option as rect_option_form, more_points as more_points_form, via_option as via_option_form, option_word as option_word_of, shapes_by, shapes as shapes_form, is_other as is_other_of, shape_then as shape_then_form, after_lead, lead_then as lead_then_form, special_by, plus_paths as plus_paths_form, wiring as wiring_form};

use crate::arrays::orient;
use crate::error::WireFault;
use crate::names::TechNames;
use crate::paths::all_paths;
use crate::points::plain_point;
use crate::wiring::{WirePath, WireStep, Wiring};
use crate::words::{
    OptionWord, Words, any_layer, layers_of_via, no_word, option_word, plus, via_in,
};
use rt_base::{LayerNo, Memory, Orient, Point, Rect, Seq, Tech};
use rt_forms::Word;
use std::alloc::Global;

/// The path of two steps whose width is 0.
fn two_steps(alloc: Global, first: WireStep, second: WireStep) -> Result<WirePath, Memory>
    ensures { IfOk result (λ path. path ≡ record { width = Some (pos 0); steps = first ∷ second ∷ [] }) }
{
    let mut steps = Seq::new(alloc);
    steps.push(first)?;
    steps.push(second)?;
    Ok(WirePath {
        width: Some(0),
        steps,
    })
}

/// The path of `+ RECT`.
fn rect_path(alloc: Global, layer: LayerNo, rect: Rect) -> Result<WirePath, Memory>
    ensures { IfOk result (λ path. path ≡ rect_path_of layer rect) }
{
    let start = WireStep::Start {
        layer,
        point: Point { x: 0, y: 0 },
        ext: None,
    };
    two_steps(alloc, start, WireStep::Patch { rect })
}

/// A path of `+ VIA`.
fn via_path(
    alloc: Global,
    layer: LayerNo,
    via: u32,
    orient: Orient,
    point: Point,
) -> Result<WirePath, Memory>
    ensures { IfOk result (λ path. path ≡ via_path_of layer via orient point) }
{
    let start = WireStep::Start {
        layer,
        point,
        ext: None,
    };
    two_steps(alloc, start, WireStep::Via { via, orient })
}

/// `layer point point` behind RECT.
#[tactic(auto, unfolding(crate::specs::Options::rect_option))]
fn rect_option(
    alloc: Global,
    words: &mut Words,
    tech: &Tech,
    names: &TechNames,
) -> Result<Seq<WirePath>, WireFault>
    requires { AreNamesOf names.now tech.now }
    ensures sound { IfOk result (All (IsWirePath tech.now)) }
    ensures reads { Reads wire_faults (λ x. x) result words.old words.new (rect_option_form tech.now) }
{
    let layer = any_layer(words, tech, names)?;
    let p = plain_point(words)?;
    let q = plain_point(words)?;
    let mut paths = Seq::new(alloc);
    paths.push(rect_path(alloc, layer, Rect::hull(p, q))?)?;
    Ok(paths)
}

/// One more point of a via.
#[tactic(auto, unfolding(crate::specs::Options::more_points))]
fn more_points(
    alloc: Global,
    words: &mut Words,
    tech: &Tech,
    layer: LayerNo,
    via: u32,
    orient: Orient,
    paths: &mut Seq<WirePath>,
) -> Result<(), WireFault>
    requires layer { layer.0 < length tech.now.layers }
    requires via { via < length tech.now.vias }
    requires paths { All (IsWirePath tech.now) paths.old }
    ensures sound { OnOk result (All (IsWirePath tech.now) paths.new) }
    ensures reads { Reads wire_faults (λ _. More paths.new) result words.old words.new (more_points_form layer via orient paths.old) }
{
    let point = plain_point(words)?;
    paths.push(via_path(alloc, layer, via, orient, point)?)?;
    Ok(())
}

/// Further points of a via up to the end of the words.
fn further_points(
    alloc: Global,
    words: &mut Words,
    tech: &Tech,
    layer: LayerNo,
    via: u32,
    orient: Orient,
    paths: &mut Seq<WirePath>,
) -> Result<(), WireFault>
    requires layer { layer.0 < length tech.now.layers }
    requires via { via < length tech.now.vias }
    requires paths { All (IsWirePath tech.now) paths.old }
    ensures sound { OnOk result (All (IsWirePath tech.now) paths.new) }
    ensures reads { Looks wire_faults (λ _. paths.new) result words.old words.new (loop (unless no_word_of (more_points_form layer via orient)) paths.old) }
{
    'points: while !no_word(words) {
        more_points(alloc, words, tech, layer, via, orient, paths)?;
    }
    Ok(())
}

/// `name [orient] point ..` behind VIA.
#[tactic(auto, unfolding(crate::specs::Options::via_option))]
fn via_option(
    alloc: Global,
    words: &mut Words,
    tech: &Tech,
    names: &TechNames,
) -> Result<Seq<WirePath>, WireFault>
    requires { AreNamesOf names.now tech.now }
    ensures sound { IfOk result (All (IsWirePath tech.now)) }
    ensures reads { Reads wire_faults (λ x. x) result words.old words.new (via_option_form tech.now) }
{
    let word = words.next()?;
    let via = via_in(word, tech, names)?;
    let joined = layers_of_via(tech, names, word.line, via)?;
    let orient = orient(words)?;
    let point = plain_point(words)?;
    let mut paths = Seq::new(alloc);
    paths.push(via_path(alloc, joined.lower, via, orient, point)?)?;
    further_points(alloc, words, tech, joined.lower, via, orient, &mut paths)?;
    Ok(paths)
}

/// RECT or VIA behind its `+`.
#[tactic(auto, unfolding(crate::specs::Options::shapes))]
fn shapes(
    alloc: Global,
    words: &mut Words,
    tech: &Tech,
    names: &TechNames,
) -> Result<Seq<WirePath>, WireFault>
    requires { AreNamesOf names.now tech.now }
    ensures sound { IfOk result (All (IsWirePath tech.now)) }
    ensures reads { Reads wire_faults (λ x. x) result words.old words.new (shapes_form tech.now) }
{
    let word = words.next()?;
    match option_word(word) {
        OptionWord::Rect => rect_option(alloc, words, tech, names),
        OptionWord::Via => via_option(alloc, words, tech, names),
        OptionWord::Shape | OptionWord::Lead | OptionWord::OtherOption => {
            Err(WireFault::Expected { line: word.line })
        }
    }
}

/// Whether another word stands there than `+`.
fn is_other(words: &Words) -> bool
    ensures { result ≡ is_other_of (first_of words.now) }
{
    match words.peek() {
        None => false,
        Some(word) => !word.is(b"+"),
    }
}

/// `t`, behind SHAPE, and `+ RECT` or `+ VIA`. The `+` of SHAPE stands on line `plus`.
#[tactic(auto, unfolding(crate::specs::Options::shape_then))]
fn shape_then(
    alloc: Global,
    words: &mut Words,
    tech: &Tech,
    names: &TechNames,
    plus: u32,
) -> Result<Seq<WirePath>, WireFault>
    requires { AreNamesOf names.now tech.now }
    ensures sound { IfOk result (All (IsWirePath tech.now)) }
    ensures reads { Reads wire_faults (λ x. x) result words.old words.new (shape_then_form tech.now plus) }
{
    words.name()?;
    if is_other(words) {
        return Err(WireFault::Expected { line: plus });
    }
    words.expect(b"+")?;
    shapes(alloc, words, tech, names)
}

/// Behind ROUTED, FIXED or COVER without paths.
#[tactic(auto, unfolding(crate::specs::Options::lead_then))]
fn lead_then(
    alloc: Global,
    words: &mut Words,
    tech: &Tech,
    names: &TechNames,
) -> Result<Seq<WirePath>, WireFault>
    requires { AreNamesOf names.now tech.now }
    ensures sound { IfOk result (All (IsWirePath tech.now)) }
    ensures reads { Reads wire_faults (λ x. x) result words.old words.new (lead_then_form tech.now) }
{
    let plus = plus(words)?;
    let word = words.next()?;
    match option_word(word) {
        OptionWord::Rect => rect_option(alloc, words, tech, names),
        OptionWord::Via => via_option(alloc, words, tech, names),
        OptionWord::Shape => shape_then(alloc, words, tech, names, plus),
        OptionWord::Lead | OptionWord::OtherOption => Err(WireFault::Expected { line: word.line }),
    }
}

/// Special wiring behind a first `+`, which stands on line `plus`, and its word.
fn special_by(
    alloc: Global,
    words: &mut Words,
    tech: &Tech,
    names: &TechNames,
    plus: u32,
    word: Word,
) -> Result<Seq<WirePath>, WireFault>
    requires { AreNamesOf names.now tech.now }
    ensures sound { IfOk result (All (IsWirePath tech.now)) }
    ensures reads { Looks wire_faults (λ x. x) result words.old words.new (special_by tech.now (option_word_of word.entry.bytes.now) plus (place_of word.entry)) }
{
    match option_word(word) {
        OptionWord::Rect => rect_option(alloc, words, tech, names),
        OptionWord::Via => via_option(alloc, words, tech, names),
        OptionWord::Shape => shape_then(alloc, words, tech, names, plus),
        OptionWord::Lead => lead_then(alloc, words, tech, names),
        OptionWord::OtherOption => Err(WireFault::Expected { line: word.line }),
    }
}

/// Wiring that begins with `+`.
#[tactic(auto, unfolding(crate::specs::Options::plus_paths))]
fn plus_paths(
    alloc: Global,
    words: &mut Words,
    tech: &Tech,
    names: &TechNames,
    special: bool,
) -> Result<Seq<WirePath>, WireFault>
    requires { AreNamesOf names.now tech.now }
    ensures sound { IfOk result (All (IsWirePath tech.now)) }
    ensures reads { Reads wire_faults (λ x. x) result words.old words.new (plus_paths_form tech.now special) }
{
    let plus = words.next()?;
    if special {
        let word = words.next()?;
        return special_by(alloc, words, tech, names, plus.line, word);
    }
    words.name()?;
    let word = words.next()?;
    Err(WireFault::Expected { line: word.line })
}

/// The paths of a range of wiring.
fn any_paths(
    alloc: Global,
    words: &mut Words,
    tech: &Tech,
    names: &TechNames,
    special: bool,
) -> Result<Seq<WirePath>, WireFault>
    requires { AreNamesOf names.now tech.now }
    ensures sound { IfOk result (All (IsWirePath tech.now)) }
    ensures reads { Reads wire_faults (λ x. x) result words.old words.new (choose (is_next (codes "+") (first_of words.old)) (plus_paths_form tech.now special) (all_paths_form tech.now special)) }
{
    if words.at(b"+") {
        return plus_paths(alloc, words, tech, names, special);
    }
    all_paths(alloc, words, tech, names, special)
}

/// A range of wiring.
#[tactic(auto, unfolding(crate::specs::Options::wiring))]
pub fn wiring(
    alloc: Global,
    words: &mut Words,
    tech: &Tech,
    names: &TechNames,
    special: bool,
) -> Result<Wiring, WireFault>
    requires { AreNamesOf names.now tech.now }
    ensures sound { IfOk result (IsWiring tech.now) }
    ensures reads { Reads wire_faults (λ x. x) result words.old words.new (wiring_form tech.now special) }
{
    let paths = any_paths(alloc, words, tech, names, special)?;
    Ok(Wiring { paths })
}
