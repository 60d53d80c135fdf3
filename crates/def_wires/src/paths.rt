//! Paths of wiring.
ghost use Rattle.std.specs.Prelude.{◌≡◌, ◌++◌, ◌∷◌, [], ◌^◌, map, length, All, IfOk, OnOk, IfSome};
ghost use Rattle.rt_forms.specs.Clauses.{Reads, Looks};
ghost use Rattle.rt_forms.specs.Form.{More, loop, unless, no_word as no_word_of, choose};
ghost use Rattle.def_wires.specs.Faults.{wire_faults};
ghost use Rattle.def_wires.specs.Names.{AreNamesOf};
ghost use Rattle.def_wires.specs.Sound.{IsCorner, IsLength, IsOpenPath, IsWirePath};
ghost use Rattle.def_wires.specs.Paths.{begun, optional_word as optional_word_form, optional_shape as optional_shape_form, regular_start as regular_start_form, special_start as special_start_form, closed, path as path_form, more_paths as more_paths_form, all_paths as all_paths_form};

use crate::error::WireFault;
use crate::names::TechNames;
use crate::points::{Corner, first_corner};
use crate::steps::{OpenPath, steps};
use crate::wiring::{Spot, WirePath, WireStep};
use crate::words::{Words, no_word, number_from, opening, routing_layer};
use rt_base::{LayerNo, Memory, Seq, Tech};
use std::alloc::Global;

/// Takes this word, if it is the next.
#[tactic(auto, unfolding(crate::specs::Paths::optional_word))]
fn optional_word(words: &mut Words, word: &[u8]) -> Result<(), WireFault>
    ensures { Looks wire_faults (λ x. x) result words.old words.new (optional_word_form word.now) }
{
    if words.at(word) {
        words.next()?;
    }
    Ok(())
}

/// Takes `+ SHAPE t`, if a `+` is the next word.
#[tactic(auto, unfolding(crate::specs::Paths::optional_shape))]
fn optional_shape(words: &mut Words) -> Result<(), WireFault>
    ensures { Looks wire_faults (λ x. x) result words.old words.new optional_shape_form }
{
    if words.at(b"+") {
        words.next()?;
        words.expect(b"SHAPE")?;
        words.name()?;
    }
    Ok(())
}

/// A path with its first point.
fn begun(
    alloc: Global,
    width: Option<i64>,
    layer: LayerNo,
    corner: Corner,
) -> Result<OpenPath, Memory>
    ensures { IfOk result (λ path. path ≡ begun width layer corner) }
{
    let mut steps = Seq::new(alloc);
    steps.push(WireStep::Start {
        layer,
        point: corner.point,
        ext: corner.ext,
    })?;
    Ok(OpenPath {
        width,
        steps,
        spot: Spot {
            layer,
            point: corner.point,
            ext: corner.ext,
        },
    })
}

/// `layer [TAPER] point`.
#[tactic(auto, unfolding(crate::specs::Paths::regular_start))]
fn regular_start(
    alloc: Global,
    words: &mut Words,
    tech: &Tech,
    names: &TechNames,
) -> Result<OpenPath, WireFault>
    requires { AreNamesOf names.now tech.now }
    ensures reads { Reads wire_faults (λ x. x) result words.old words.new (regular_start_form tech.now) }
    ensures sound { IfOk result (IsOpenPath tech.now) }
{
    let layer = routing_layer(words, tech, names)?;
    optional_word(words, b"TAPER")?;
    opening(words)?;
    let corner = first_corner(words)?;
    Ok(begun(alloc, None, layer, corner)?)
}

/// `layer width [+ SHAPE t] point`.
#[tactic(auto, unfolding(crate::specs::Paths::special_start))]
fn special_start(
    alloc: Global,
    words: &mut Words,
    tech: &Tech,
    names: &TechNames,
) -> Result<OpenPath, WireFault>
    requires { AreNamesOf names.now tech.now }
    ensures reads { Reads wire_faults (λ x. x) result words.old words.new (special_start_form tech.now) }
    ensures sound { IfOk result (IsOpenPath tech.now) }
{
    let layer = routing_layer(words, tech, names)?;
    let width = number_from(words, 0)?;
    optional_shape(words)?;
    opening(words)?;
    let corner = first_corner(words)?;
    Ok(begun(alloc, Some(width), layer, corner)?)
}

/// The beginning of a path.
fn start(
    alloc: Global,
    words: &mut Words,
    tech: &Tech,
    names: &TechNames,
    special: bool,
) -> Result<OpenPath, WireFault>
    requires { AreNamesOf names.now tech.now }
    ensures reads { Reads wire_faults (λ x. x) result words.old words.new (choose special (special_start_form tech.now) (regular_start_form tech.now)) }
    ensures sound { IfOk result (IsOpenPath tech.now) }
{
    if special {
        return special_start(alloc, words, tech, names);
    }
    regular_start(alloc, words, tech, names)
}

/// A path up to NEW or the end of the words.
#[tactic(auto, unfolding(crate::specs::Paths::path))]
fn path(
    alloc: Global,
    words: &mut Words,
    tech: &Tech,
    names: &TechNames,
    special: bool,
) -> Result<WirePath, WireFault>
    requires { AreNamesOf names.now tech.now }
    ensures reads { Reads wire_faults (λ x. x) result words.old words.new (path_form tech.now special) }
    ensures sound { IfOk result (IsWirePath tech.now) }
{
    let mut open = start(alloc, words, tech, names, special)?;
    steps(words, tech, names, special, &mut open)?;
    Ok(WirePath {
        width: open.width,
        steps: open.steps,
    })
}

/// One more path.
#[tactic(auto, unfolding(crate::specs::Paths::more_paths))]
fn more_paths(
    alloc: Global,
    words: &mut Words,
    tech: &Tech,
    names: &TechNames,
    special: bool,
    paths: &mut Seq<WirePath>,
) -> Result<(), WireFault>
    requires names { AreNamesOf names.now tech.now }
    requires paths { All (IsWirePath tech.now) paths.old }
    ensures reads { Reads wire_faults (λ _. More paths.new) result words.old words.new (more_paths_form tech.now special paths.old) }
    ensures sound { OnOk result (All (IsWirePath tech.now) paths.new) }
{
    words.expect(b"NEW")?;
    let path = path(alloc, words, tech, names, special)?;
    paths.push(path)?;
    Ok(())
}

/// Further paths up to the end of the words.
fn further_paths(
    alloc: Global,
    words: &mut Words,
    tech: &Tech,
    names: &TechNames,
    special: bool,
    paths: &mut Seq<WirePath>,
) -> Result<(), WireFault>
    requires names { AreNamesOf names.now tech.now }
    requires paths { All (IsWirePath tech.now) paths.old }
    ensures reads { Looks wire_faults (λ _. paths.new) result words.old words.new (loop (unless no_word_of (more_paths_form tech.now special)) paths.old) }
    ensures sound { OnOk result (All (IsWirePath tech.now) paths.new) }
{
    'paths: while !no_word(words) {
        more_paths(alloc, words, tech, names, special, paths)?;
    }
    Ok(())
}

/// Paths separated by NEW.
#[tactic(auto, unfolding(crate::specs::Paths::all_paths))]
pub fn all_paths(
    alloc: Global,
    words: &mut Words,
    tech: &Tech,
    names: &TechNames,
    special: bool,
) -> Result<Seq<WirePath>, WireFault>
    requires { AreNamesOf names.now tech.now }
    ensures reads { Reads wire_faults (λ x. x) result words.old words.new (all_paths_form tech.now special) }
    ensures sound { IfOk result (All (IsWirePath tech.now)) }
{
    let first = path(alloc, words, tech, names, special)?;
    let mut paths = Seq::new(alloc);
    paths.push(first)?;
    further_paths(alloc, words, tech, names, special, &mut paths)?;
    Ok(paths)
}
