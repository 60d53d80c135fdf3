//! Polygons of blockages.
ghost use Rattle.std.specs.Prelude.{◌≡◌, ◌++◌, ◌^◌, map, All, IfOk, IfErr, OnOk};
ghost use Rattle.rt_base.specs.Ranges.{IsPointWithin, AreSidesWithin};
ghost use Rattle.rt_base.specs.Sides.{Sides};
ghost use Rattle.rt_shapes.specs.Polygons.{slabs_of};
ghost use Rattle.rt_forms.specs.Clauses.{Reads, Looks, Gives};
ghost use Rattle.rt_forms.specs.Form.{More, loop, unless};
ghost use Rattle.rt_forms.specs.Word.{place_of};
ghost use Rattle.def_text.specs.Faults.{def_faults};
ghost use Rattle.def_text.specs.Defs.{IsNameWord, IsMetal};
ghost use Rattle.def_text.specs.Parts.{no_bracket};
ghost use Rattle.def_text.specs.Blockages.{kept};
ghost use Rattle.def_text.specs.Polygons.{more_points as more_points_form, four_points as four_points_form, polygon_points as polygon_points_form, a_word_is_left as a_word_is_left_form, rectilinear as rectilinear_of, polygon as polygon_form};

use crate::error::DefError;
use crate::parts::{Words, point, refused};
use rt_base::{Name, Point, Rect, Seq};
use rt_forms::Word;
use rt_shapes::{is_rectilinear, slabs};
use std::alloc::Global;

/// One more point.
#[tactic(auto, unfolding(crate::specs::Polygons::more_points))]
fn more_points(words: &mut Words, points: &mut Seq<Point>) -> Result<(), DefError>
    requires { All (IsPointWithin (2 ^ 30)) points.old }
    ensures reads { Reads def_faults (λ _. More points.new) result words.old words.new (more_points_form points.old) }
    ensures small { OnOk result (All (IsPointWithin (2 ^ 30)) points.new) }
{
    points.push(point(words)?)?;
    Ok(())
}

/// The points behind those before.
fn further_points(words: &mut Words, points: &mut Seq<Point>) -> Result<(), DefError>
    requires { All (IsPointWithin (2 ^ 30)) points.old }
    ensures reads { Looks def_faults (λ _. points.new) result words.old words.new (loop (unless no_bracket more_points_form) points.old) }
    ensures small { OnOk result (All (IsPointWithin (2 ^ 30)) points.new) }
{
    'points: while words.at(b"(") {
        more_points(words, points)?;
    }
    Ok(())
}

/// The first four points.
#[tactic(auto, unfolding(crate::specs::Polygons::four_points))]
fn four_points(alloc: Global, words: &mut Words) -> Result<Seq<Point>, DefError>
    ensures reads { Reads def_faults (λ x. x) result words.old words.new four_points_form }
    ensures small { IfOk result (λ points. All (IsPointWithin (2 ^ 30)) points) }
{
    let mut points = Seq::new(alloc);
    points.push(point(words)?)?;
    points.push(point(words)?)?;
    points.push(point(words)?)?;
    points.push(point(words)?)?;
    Ok(points)
}

/// Four points or more.
#[tactic(auto, unfolding(crate::specs::Polygons::polygon_points))]
fn polygon_points(alloc: Global, words: &mut Words) -> Result<Seq<Point>, DefError>
    ensures reads { Reads def_faults (λ x. x) result words.old words.new polygon_points_form }
    ensures small { IfOk result (λ points. All (IsPointWithin (2 ^ 30)) points) }
{
    let mut points = four_points(alloc, words)?;
    further_points(words, &mut points)?;
    Ok(points)
}

/// A word is left, and stays.
fn a_word_is_left(words: &mut Words) -> Result<(), DefError>
    ensures { Looks def_faults (λ x. x) result words.old words.new a_word_is_left_form }
{
    if words.is_empty() {
        words.next()?;
    }
    Ok(())
}

/// Whether points go round a rectilinear polygon; else its word is refused.
fn rectilinear(alloc: Global, word: Word, points: &[Point]) -> Result<(), DefError>
    ensures { Gives def_faults (λ x. x) result (rectilinear_of (place_of word.entry) points.now) }
{
    if !is_rectilinear(points) {
        return Err(refused(alloc, word));
    }
    Ok(())
}

/// The points of a polygon behind its word.
#[tactic(auto, unfolding(crate::specs::Polygons::polygon))]
pub fn polygon(alloc: Global, words: &mut Words, word: Word) -> Result<Seq<Point>, DefError>
    ensures reads { Reads def_faults (λ x. x) result words.old words.new (polygon_form (place_of word.entry)) }
    ensures small { IfOk result (λ points. All (IsPointWithin (2 ^ 30)) points) }
{
    let points = polygon_points(alloc, words)?;
    a_word_is_left(words)?;
    rectilinear(alloc, word, points.as_slice())?;
    Ok(points)
}

/// Adds rectangles of a layer.
fn add_rects(
    alloc: Global,
    layer: &[u8],
    rects: &[Rect],
    metal: &mut Seq<(Name, Rect)>,
) -> Result<(), DefError>
    requires layer { IsNameWord layer.now }
    requires rects { All (AreSidesWithin (2 ^ 30)) rects.now }
    requires metal { All IsMetal metal.old }
    ensures value { OnOk result (metal.new ≡ metal.old ++ map (λ (sides : Sides). (layer.now, sides)) rects.now) }
    ensures sound { OnOk result (All IsMetal metal.new) }
    ensures memory { IfErr result (λ e. e ≡ DefError.Memory) }
{
    'rects: for rect in rects {
        metal.push((Name::new(alloc, layer)?, *rect))?;
    }
    Ok(())
}

/// Adds the rectangles of a polygon of a layer, unless they are dropped.
pub fn add_polygon(
    alloc: Global,
    layer: &[u8],
    dropped: bool,
    points: &[Point],
    metal: &mut Seq<(Name, Rect)>,
) -> Result<(), DefError>
    requires layer { IsNameWord layer.now }
    requires points { All (IsPointWithin (2 ^ 30)) points.now }
    requires metal { All IsMetal metal.old }
    ensures value { OnOk result (metal.new ≡ metal.old ++ kept dropped (map (λ (sides : Sides). (layer.now, sides)) (slabs_of points.now))) }
    ensures sound { OnOk result (All IsMetal metal.new) }
    ensures memory { IfErr result (λ e. e ≡ DefError.Memory) }
{
    if dropped {
        return Ok(());
    }
    let rects = slabs(alloc, points)?;
    add_rects(alloc, layer, rects.as_slice(), metal)
}
