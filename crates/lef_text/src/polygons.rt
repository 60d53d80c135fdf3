//! Polygons.
ghost use Rattle.std.specs.Prelude.{◌≡◌};
ghost use Rattle.rt_forms.specs.Clauses.{Reads, Gives};
ghost use Rattle.rt_forms.specs.Form.{loop, turn};
ghost use Rattle.rt_forms.specs.Word.{place_of};
ghost use Rattle.lef_text.specs.Faults.{lef_faults};
ghost use Rattle.lef_text.specs.Polygons.{point_turn as point_turn_form, polygon_points as polygon_points_form, cut_up as cut_up_form, polygon as polygon_form};

use crate::error::LefError;
use crate::numbers::{Words, first_number, length_of, number};
use rt_base::{Name, Point, Rect, Seq};
use rt_forms::Word;
use rt_shapes::{is_rectilinear, slabs};
use std::alloc::Global;

/// The fewest points of a polygon.
const FEWEST: usize = 4;

/// A further point, or the `;` behind them, which is true.
#[tactic(auto, unfolding(crate::specs::Polygons::point_turn))]
fn point_turn(words: &mut Words, units: u32, points: &mut Seq<Point>) -> Result<bool, LefError>
    ensures { Reads lef_faults (λ last. turn last points.new) result words.old words.new (point_turn_form units points.old) }
{
    let word = words.next()?;
    if word.is(b";") && points.len() >= FEWEST {
        return Ok(true);
    }
    let x = length_of(word, units)?;
    let y = number(words, units)?;
    points.push(Point { x, y })?;
    Ok(false)
}

/// The further points, and the `;` behind them.
fn point_turns(words: &mut Words, units: u32, points: &mut Seq<Point>) -> Result<(), LefError>
    ensures { Reads lef_faults (λ _. points.new) result words.old words.new (loop (point_turn_form units) points.old) }
{
    'lines: while !point_turn(words, units, points)? {}
    Ok(())
}

/// `x y x y x y x y .. ;`
#[tactic(auto, unfolding(crate::specs::Polygons::polygon_points))]
fn polygon_points(
    alloc: Global,
    words: &mut Words,
    units: u32,
    in_macro: bool,
) -> Result<Seq<Point>, LefError>
    ensures { Reads lef_faults (λ x. x) result words.old words.new (polygon_points_form in_macro units) }
{
    let x = first_number(alloc, words, units, in_macro)?;
    let y = number(words, units)?;
    let mut points = Seq::new(alloc);
    points.push(Point { x, y })?;
    point_turns(words, units, &mut points)?;
    Ok(points)
}

/// The rectangles of a polygon behind this word.
fn cut_up(alloc: Global, word: Word, points: &[Point]) -> Result<Seq<Rect>, LefError>
    ensures { Gives lef_faults (λ x. x) result (cut_up_form (place_of word.entry) points.now) }
{
    if !is_rectilinear(points) {
        return Err(LefError::Refused {
            line: word.line,
            word: Name::new(alloc, word.bytes)?,
        });
    }
    Ok(Seq::from_vec(slabs(alloc, points)?))
}

/// The rectangles of a polygon behind this word.
#[tactic(auto, unfolding(crate::specs::Polygons::polygon))]
pub fn polygon(
    alloc: Global,
    words: &mut Words,
    units: u32,
    in_macro: bool,
    word: Word,
) -> Result<Seq<Rect>, LefError>
    ensures { Reads lef_faults (λ x. x) result words.old words.new (polygon_form in_macro units (place_of word.entry)) }
{
    let points = polygon_points(alloc, words, units, in_macro)?;
    cut_up(alloc, word, points.as_slice())
}
