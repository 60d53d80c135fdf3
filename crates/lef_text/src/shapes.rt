//! PORT and OBS.
ghost use Rattle.std.specs.Prelude.{◌≡◌, ◌+◌, ◌<◌, ◌≤◌, ◌^◌, OnOk};
ghost use Rattle.rt_forms.specs.Clauses.{Reads};
ghost use Rattle.rt_forms.specs.Form.{one, loop, More, turn};
ghost use Rattle.lef_text.specs.Counts.{skips, total_skipped};
ghost use Rattle.lef_text.specs.Faults.{lef_faults};
ghost use Rattle.lef_text.specs.Shapes.{counted_at, layer_place as layer_place_form, layer_words as layer_words_form, layer_rest as layer_rest_form, shape_layer as shape_layer_form, shape_line as shape_line_form, shapes_of, drawn, more_shapes as more_shapes_form};

use crate::error::LefError;
use crate::library::Library;
use crate::numbers::{Words, number, rectangle};
use crate::on_layers::{add_shape, add_shapes};
use crate::polygons::polygon;
use crate::shape_words::{ShapeLine, shape_line_of};
use crate::vias::optional;
use rt_base::{LayerNo, Name, Rect, Seq};
use std::alloc::Global;

/// Counts one more at this place.
fn count_at(skipped: &mut Seq<(Name, u32)>, place: usize)
    requires { total_skipped skipped.old + 1 < 2 ^ 32 }
    ensures { skipped.new ≡ counted_at place skipped.old }
{
    if place >= skipped.len() {
        return;
    }
    let entry = &mut skipped.items[place];
    entry.1 += 1;
}

/// Takes the name of a layer before: its place among the layers that are named, and its number, None
/// where it is dropped.
fn layer_place(
    alloc: Global,
    words: &mut Words,
    lib: &Library,
) -> Result<(usize, Option<LayerNo>), LefError>
    ensures { Reads lef_faults (λ x. x) result words.old words.new (one (layer_place_form lib.now)) }
{
    let name = words.next()?;
    if !name.is_name() {
        return Err(LefError::Expected { line: name.line });
    }
    if let Some(place) = lib.layer_names.find(name.bytes) {
        if let Some(number) = lib.numbers.as_slice().get(place) {
            return Ok((place, *number));
        }
    }
    Err(LefError::NoLayer {
        line: name.line,
        name: Name::new(alloc, name.bytes)?,
    })
}

/// The name of a layer, and perhaps EXCEPTPGNET.
#[tactic(auto, unfolding(crate::specs::Shapes::layer_words))]
fn layer_words(
    alloc: Global,
    words: &mut Words,
    lib: &Library,
) -> Result<(usize, Option<LayerNo>), LefError>
    ensures { Reads lef_faults (λ x. x) result words.old words.new (layer_words_form lib.now) }
{
    let found = layer_place(alloc, words, lib)?;
    optional(words, b"EXCEPTPGNET")?;
    Ok(found)
}

/// `SPACING v ;` or `DESIGNRULEWIDTH v ;`, which is counted, or `;`.
#[tactic(auto, unfolding(crate::specs::Shapes::layer_rest))]
fn layer_rest(
    words: &mut Words,
    units: u32,
    lib: &mut Library,
    place: usize,
) -> Result<(), LefError>
    requires few { skips lib.old words.old ≤ 2 ^ 32 }
    ensures reads { Reads lef_faults (λ _. lib.new) result words.old words.new (layer_rest_form units lib.old place) }
    ensures few { OnOk result (skips lib.new words.new ≤ skips lib.old words.old) }
{
    let word = words.next()?;
    if word.is(b"SPACING") || word.is(b"DESIGNRULEWIDTH") {
        number(words, units)?;
        words.semicolon()?;
        count_at(&mut lib.skipped, place);
        return Ok(());
    }
    if !word.is(b";") {
        return Err(LefError::Expected { line: word.line });
    }
    Ok(())
}

/// A layer behind the word LAYER.
fn shape_layer(
    alloc: Global,
    words: &mut Words,
    units: u32,
    lib: &mut Library,
    layer: &mut Option<Option<LayerNo>>,
    shapes: &Seq<(LayerNo, Rect)>,
) -> Result<(), LefError>
    requires few { skips lib.old words.old ≤ 2 ^ 32 }
    ensures reads { Reads lef_faults (λ _. More (shapes_of lib.new layer.new shapes.now)) result words.old words.new (shape_layer_form units (shapes_of lib.old layer.old shapes.now)) }
    ensures few { OnOk result (skips lib.new words.new ≤ skips lib.old words.old) }
{
    let (place, number) = layer_words(alloc, words, lib)?;
    layer_rest(words, units, lib, place)?;
    *layer = Some(number);
    Ok(())
}

/// A line of PORT or OBS. True where it was the last.
#[tactic(auto, unfolding(crate::specs::Shapes::shape_line))]
fn shape_line(
    alloc: Global,
    words: &mut Words,
    units: u32,
    lib: &mut Library,
    layer: &mut Option<Option<LayerNo>>,
    shapes: &mut Seq<(LayerNo, Rect)>,
) -> Result<bool, LefError>
    requires few { skips lib.old words.old ≤ 2 ^ 32 }
    ensures reads { Reads lef_faults (λ last. turn last (shapes_of lib.new layer.new shapes.new)) result words.old words.new (shape_line_form units (shapes_of lib.old layer.old shapes.old)) }
    ensures few { OnOk result (skips lib.new words.new ≤ skips lib.old words.old) }
{
    let word = words.next()?;
    match shape_line_of(word.bytes) {
        ShapeLine::Unused => {
            words.rest()?;
            Ok(false)
        }
        ShapeLine::Layer => {
            shape_layer(alloc, words, units, lib, layer, shapes)?;
            Ok(false)
        }
        ShapeLine::Width => {
            number(words, units)?;
            words.semicolon()?;
            Ok(false)
        }
        ShapeLine::Rect => match *layer {
            None => Err(LefError::Unknown { line: word.line }),
            Some(number) => {
                let rect = rectangle(alloc, words, units, true)?;
                add_shape(shapes, number, rect)?;
                Ok(false)
            }
        },
        ShapeLine::Polygon => match *layer {
            None => Err(LefError::Unknown { line: word.line }),
            Some(number) => {
                let rects = polygon(alloc, words, units, true, word)?;
                add_shapes(shapes, number, rects.as_slice())?;
                Ok(false)
            }
        },
        ShapeLine::Refused => Err(LefError::Refused {
            line: word.line,
            word: Name::new(alloc, word.bytes)?,
        }),
        ShapeLine::End => Ok(true),
        ShapeLine::Unknown => Err(LefError::Unknown { line: word.line }),
    }
}

/// The lines behind PORT or OBS, and their end.
fn shape_lines(
    alloc: Global,
    words: &mut Words,
    units: u32,
    lib: &mut Library,
    layer: &mut Option<Option<LayerNo>>,
    shapes: &mut Seq<(LayerNo, Rect)>,
) -> Result<(), LefError>
    requires few { skips lib.old words.old ≤ 2 ^ 32 }
    ensures reads { Reads lef_faults (λ _. shapes_of lib.new layer.new shapes.new) result words.old words.new (loop (shape_line_form units) (shapes_of lib.old layer.old shapes.old)) }
    ensures few { OnOk result (skips lib.new words.new ≤ skips lib.old words.old) }
{
    'lines: while !shape_line(alloc, words, units, lib, layer, shapes)? {}
    Ok(())
}

/// Shapes behind PORT or OBS, which are added to these.
#[tactic(auto, unfolding(crate::specs::Shapes::more_shapes))]
pub fn more_shapes(
    alloc: Global,
    words: &mut Words,
    units: u32,
    lib: &mut Library,
    shapes: &mut Seq<(LayerNo, Rect)>,
) -> Result<(), LefError>
    requires few { skips lib.old words.old ≤ 2 ^ 32 }
    ensures reads { Reads lef_faults (λ _. drawn lib.new shapes.new) result words.old words.new (more_shapes_form units lib.old shapes.old) }
    ensures few { OnOk result (skips lib.new words.new ≤ skips lib.old words.old) }
{
    let mut layer = None;
    shape_lines(alloc, words, units, lib, &mut layer, shapes)
}
