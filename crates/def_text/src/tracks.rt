//! The die and tracks.
ghost use Rattle.std.specs.Prelude.{◌≡◌, ◌^◌, IfOk, IfSome, OnOk, IfErr, All, []};
ghost use Rattle.rt_base.specs.Ranges.{AreSidesWithin};
ghost use Rattle.rt_forms.specs.Clauses.{Reads, Gives};
ghost use Rattle.rt_forms.specs.Form.{one, admit, turn, loop};
ghost use Rattle.rt_forms.specs.Word.{place_of};
ghost use Rattle.def_text.specs.Faults.{def_faults};
ghost use Rattle.def_text.specs.Defs.{IsNameWord, IsTrackRow};
ghost use Rattle.def_text.specs.Tracks.{die as die_form, die_end as die_end_of, axis as axis_of, tracks_end as tracks_end_of, track_layer as track_layer_of, more_layers as more_layers_form, track_layers as track_layers_form, track_tail as track_tail_form, track_row as track_row_form};

use crate::def::TrackRow;
use crate::error::DefError;
use crate::parts::{MOST, Words, count, number, point, refused};
use rt_base::{Name, Rect, Seq};
use rt_forms::Word;
use std::alloc::Global;

/// The `;` behind the second point of the die.
fn die_end(words: &mut Words) -> Result<(), DefError>
    ensures { Reads def_faults (λ x. x) result words.old words.new (one die_end_of) }
{
    let word = words.next()?;
    if word.is(b";") {
        return Ok(());
    }
    if word.is(b"(") {
        return Err(DefError::DiePolygon { line: word.line });
    }
    Err(DefError::Expected { line: word.line })
}

/// `( x y ) ( x y ) ;`, the corners of the die.
#[tactic(auto, unfolding(crate::specs::Tracks::die))]
pub fn die(words: &mut Words) -> Result<Rect, DefError>
    ensures reads { Reads def_faults (λ x. x) result words.old words.new die_form }
    ensures small { IfOk result (λ s. AreSidesWithin (2 ^ 30) s) }
{
    let p = point(words)?;
    let q = point(words)?;
    die_end(words)?;
    Ok(Rect::hull(p, q))
}

/// `X` or `Y`, and whether it is `X`.
fn axis(words: &mut Words) -> Result<bool, DefError>
    ensures { Reads def_faults (λ x. x) result words.old words.new (admit axis_of) }
{
    let word = words.next()?;
    if word.is(b"X") {
        return Ok(true);
    }
    if word.is(b"Y") {
        return Ok(false);
    }
    Err(DefError::Expected { line: word.line })
}

/// The word behind the step: whether layers follow.
fn tracks_end(alloc: Global, words: &mut Words) -> Result<bool, DefError>
    ensures { Reads def_faults (λ x. x) result words.old words.new (one tracks_end_of) }
{
    let word = words.next()?;
    if word.is(b";") {
        return Ok(false);
    }
    if word.is(b"LAYER") {
        return Ok(true);
    }
    if word.is(b"MASK") {
        return Err(refused(alloc, word));
    }
    Err(DefError::Expected { line: word.line })
}

/// The layer that a word names.
fn track_layer(alloc: Global, word: Word) -> Result<Name, DefError>
    ensures gives { Gives def_faults (λ x. x) result (track_layer_of (place_of word.entry)) }
    ensures name { IfOk result (λ n. IsNameWord n) }
{
    if word.is(b"MASK") {
        return Err(refused(alloc, word));
    }
    if word.is_name() {
        return Ok(Name::new(alloc, word.bytes)?);
    }
    Err(DefError::Expected { line: word.line })
}

/// One more layer, or the `;`. True where it was the `;`.
#[tactic(auto, unfolding(crate::specs::Tracks::more_layers))]
fn more_layers(alloc: Global, words: &mut Words, layers: &mut Seq<Name>) -> Result<bool, DefError>
    requires names { All IsNameWord layers.old }
    ensures reads { Reads def_faults (λ last. turn last layers.new) result words.old words.new (more_layers_form layers.old) }
    ensures names { OnOk result (All IsNameWord layers.new) }
{
    let word = words.next()?;
    if word.is(b";") {
        return Ok(true);
    }
    layers.push(track_layer(alloc, word)?)?;
    Ok(false)
}

/// The layers behind the first one, and the `;`.
fn further_layers(alloc: Global, words: &mut Words, layers: &mut Seq<Name>) -> Result<(), DefError>
    requires names { All IsNameWord layers.old }
    ensures reads { Reads def_faults (λ _. layers.new) result words.old words.new (loop more_layers_form layers.old) }
    ensures names { OnOk result (All IsNameWord layers.new) }
{
    'layers: while !more_layers(alloc, words, layers)? {}
    Ok(())
}

/// One or more layers, and the `;`.
#[tactic(auto, unfolding(crate::specs::Tracks::track_layers))]
fn track_layers(alloc: Global, words: &mut Words) -> Result<Seq<Name>, DefError>
    ensures reads { Reads def_faults (λ x. x) result words.old words.new track_layers_form }
    ensures names { IfOk result (λ layers. All IsNameWord layers) }
{
    let mut layers = Seq::new(alloc);
    let first = words.next()?;
    layers.push(track_layer(alloc, first)?)?;
    further_layers(alloc, words, &mut layers)?;
    Ok(layers)
}

/// The layers and the `;`, or the `;` alone.
#[tactic(auto, unfolding(crate::specs::Tracks::track_tail))]
fn track_tail(alloc: Global, words: &mut Words) -> Result<Option<Seq<Name>>, DefError>
    ensures reads { Reads def_faults (λ x. x) result words.old words.new track_tail_form }
    ensures names { IfOk result (λ o. IfSome o (λ layers. All IsNameWord layers)) }
{
    if tracks_end(alloc, words)? {
        Ok(Some(track_layers(alloc, words)?))
    } else {
        Ok(None)
    }
}

/// `X|Y a DO n STEP s [LAYER l ..] ;`.
#[tactic(auto, unfolding(crate::specs::Tracks::track_row))]
pub fn track_row(alloc: Global, words: &mut Words) -> Result<TrackRow, DefError>
    ensures reads { Reads def_faults (λ x. x) result words.old words.new track_row_form }
    ensures row { IfOk result (λ t. IsTrackRow t) }
{
    let x = axis(words)?;
    let first = number(words)?;
    words.expect(b"DO")?;
    let count_of_lines = count(words, 1, MOST)?;
    words.expect(b"STEP")?;
    let step = i64::from(count(words, 1, MOST)?);
    let layers = track_tail(alloc, words)?;
    Ok(TrackRow {
        x,
        first,
        count: count_of_lines,
        step,
        layers,
    })
}
