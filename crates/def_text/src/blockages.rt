//! Blockages.
ghost use Rattle.std.specs.Prelude.{◌≡◌, ◌^◌, ◌+◌, ◌≤◌, length, IfOk, OnOk, All};
ghost use Rattle.rt_forms.specs.Clauses.{Reads, Looks};
ghost use Rattle.rt_forms.specs.Form.{More, turn, loop, unless};
ghost use Rattle.rt_forms.specs.Lexeme.{first_of};
ghost use Rattle.rt_forms.specs.Reading.{or_end};
ghost use Rattle.rt_forms.specs.Word.{place_of};
ghost use Rattle.def_text.specs.Faults.{def_faults};
ghost use Rattle.def_text.specs.Defs.{IsNameWord, IsMetal};
ghost use Rattle.def_text.specs.Blockages.{blockage_option_of as blockage_option_kind, ends_mark as ends_mark_test, skip_word as skip_word_form, mark_rest as mark_rest_form, mark_by, more_marks as more_marks_form, no_mark, blockage_polygon as blockage_polygon_form, blockage_shape as blockage_shape_form, more_shapes as more_shapes_form, blockage_shapes as blockage_shapes_form, blockage_layer as blockage_layer_form, blockage_item as blockage_item_form, more_blockages as more_blockages_form};

use crate::error::DefError;
use crate::parts::{Words, name, number, point};
use crate::polygons::{add_polygon, polygon};
use crate::sections::section_end;
use rt_base::{Name, Rect, Seq};
use rt_forms::Word;
use std::alloc::Global;

/// An option of a blockage.
#[derive(Clone, Copy, Debug, PartialEq, Eq)]
pub enum BlockageOption {
    Drops,
    Rule,
    Unused,
}

/// What the options of a blockage say: whether its rectangles are dropped, and how much was skipped.
#[derive(Drop)]
pub struct Marks {
    pub dropped: bool,
    pub skipped: u32,
}

/// The rectangles of the blockages that were read, how many items they were, and how much was
/// skipped.
#[derive(Drop)]
pub struct Blocked {
    pub metal: Seq<(Name, Rect)>,
    pub found: usize,
    pub skipped: u32,
}

/// The option of a blockage whose first word comes next.
fn blockage_option_of(words: &Words) -> BlockageOption
    ensures { result ≡ blockage_option_kind (first_of words.now) }
{
    if words.at(b"SLOTS") || words.at(b"FILLS") {
        return BlockageOption::Drops;
    }
    if words.at(b"SPACING") || words.at(b"DESIGNRULEWIDTH") {
        return BlockageOption::Rule;
    }
    BlockageOption::Unused
}

/// Whether the next word ends an option, or none is left.
fn ends_mark(words: &Words) -> bool
    ensures { result ≡ or_end ends_mark_test (first_of words.now) }
{
    match words.peek() {
        None => true,
        Some(word) => word.is(b"+") || word.is(b";") || word.is(b"RECT") || word.is(b"POLYGON"),
    }
}

/// Takes a word.
#[tactic(auto, unfolding(crate::specs::Blockages::skip_word))]
fn skip_word(words: &mut Words) -> Result<(), DefError>
    ensures { Reads def_faults (λ _. More tt) result words.old words.new (skip_word_form tt) }
{
    words.next()?;
    Ok(())
}

/// Takes all words before the first that ends an option.
fn mark_rest(words: &mut Words) -> Result<(), DefError>
    ensures { Looks def_faults (λ x. x) result words.old words.new mark_rest_form }
{
    'skip: while !ends_mark(words) {
        skip_word(words)?;
    }
    Ok(())
}

/// An option behind its `+`.
fn mark(words: &mut Words, marks: &mut Marks) -> Result<(), DefError>
    requires few { marks.old.skipped + length words.old ≤ 2 ^ 32 }
    ensures reads { Looks def_faults (λ _. marks.new) result words.old words.new (mark_by (blockage_option_kind (first_of words.old)) marks.old) }
    ensures few { OnOk result (marks.new.skipped + length words.new ≤ marks.old.skipped + length words.old) }
{
    match blockage_option_of(words) {
        BlockageOption::Drops => {
            words.next()?;
            marks.dropped = true;
            Ok(())
        }
        BlockageOption::Rule => {
            words.next()?;
            number(words)?;
            marks.skipped += 1;
            Ok(())
        }
        BlockageOption::Unused => mark_rest(words),
    }
}

/// One more option.
#[tactic(auto, unfolding(crate::specs::Blockages::more_marks))]
fn more_marks(words: &mut Words, marks: &mut Marks) -> Result<(), DefError>
    requires few { marks.old.skipped + length words.old ≤ 2 ^ 32 }
    ensures reads { Reads def_faults (λ _. More marks.new) result words.old words.new (more_marks_form marks.old) }
    ensures few { OnOk result (marks.new.skipped + length words.new ≤ marks.old.skipped + length words.old) }
{
    words.next()?;
    mark(words, marks)?;
    Ok(())
}

/// The options of a blockage.
fn read_marks(words: &mut Words, marks: &mut Marks) -> Result<(), DefError>
    requires few { marks.old.skipped + length words.old ≤ 2 ^ 32 }
    ensures reads { Looks def_faults (λ _. marks.new) result words.old words.new (loop (unless no_mark more_marks_form) marks.old) }
    ensures few { OnOk result (marks.new.skipped + length words.new ≤ marks.old.skipped + length words.old) }
{
    'marks: while words.at(b"+") {
        more_marks(words, marks)?;
    }
    Ok(())
}

/// The points of a polygon, behind this word.
#[tactic(auto, unfolding(crate::specs::Blockages::blockage_polygon))]
fn blockage_polygon(
    alloc: Global,
    words: &mut Words,
    layer: &[u8],
    dropped: bool,
    word: Word,
    metal: &mut Seq<(Name, Rect)>,
) -> Result<(), DefError>
    requires layer { IsNameWord layer.now }
    requires metal { All IsMetal metal.old }
    ensures reads { Reads def_faults (λ _. metal.new) result words.old words.new (blockage_polygon_form layer.now dropped (place_of word.entry) metal.old) }
    ensures sound { OnOk result (All IsMetal metal.new) }
{
    let points = polygon(alloc, words, word)?;
    add_polygon(alloc, layer, dropped, points.as_slice(), metal)?;
    Ok(())
}

/// A shape that begins with this word.
#[tactic(auto, unfolding(crate::specs::Blockages::blockage_shape))]
fn blockage_shape(
    alloc: Global,
    words: &mut Words,
    layer: &[u8],
    dropped: bool,
    word: Word,
    metal: &mut Seq<(Name, Rect)>,
) -> Result<(), DefError>
    requires layer { IsNameWord layer.now }
    requires metal { All IsMetal metal.old }
    ensures reads { Looks def_faults (λ _. metal.new) result words.old words.new (blockage_shape_form layer.now dropped (place_of word.entry) metal.old) }
    ensures sound { OnOk result (All IsMetal metal.new) }
{
    if word.is(b"RECT") {
        let p = point(words)?;
        let q = point(words)?;
        if !dropped {
            metal.push((Name::new(alloc, layer)?, Rect::hull(p, q)))?;
        }
        return Ok(());
    }
    if word.is(b"POLYGON") {
        return blockage_polygon(alloc, words, layer, dropped, word, metal);
    }
    Err(DefError::Expected { line: word.line })
}

/// One more shape, or the `;`. True where it was the `;`.
#[tactic(auto, unfolding(crate::specs::Blockages::more_shapes))]
fn more_shapes(
    alloc: Global,
    words: &mut Words,
    layer: &[u8],
    dropped: bool,
    metal: &mut Seq<(Name, Rect)>,
) -> Result<bool, DefError>
    requires layer { IsNameWord layer.now }
    requires metal { All IsMetal metal.old }
    ensures reads { Reads def_faults (λ last. turn last metal.new) result words.old words.new (more_shapes_form layer.now dropped metal.old) }
    ensures sound { OnOk result (All IsMetal metal.new) }
{
    let word = words.next()?;
    if word.is(b";") {
        return Ok(true);
    }
    blockage_shape(alloc, words, layer, dropped, word, metal)?;
    Ok(false)
}

/// The shapes of a blockage behind the first, and the `;`.
fn further_shapes(
    alloc: Global,
    words: &mut Words,
    layer: &[u8],
    dropped: bool,
    metal: &mut Seq<(Name, Rect)>,
) -> Result<(), DefError>
    requires layer { IsNameWord layer.now }
    requires metal { All IsMetal metal.old }
    ensures reads { Reads def_faults (λ _. metal.new) result words.old words.new (loop (more_shapes_form layer.now dropped) metal.old) }
    ensures sound { OnOk result (All IsMetal metal.new) }
{
    'shapes: while !more_shapes(alloc, words, layer, dropped, metal)? {}
    Ok(())
}

/// One or more shapes, and the `;`.
#[tactic(auto, unfolding(crate::specs::Blockages::blockage_shapes))]
fn blockage_shapes(
    alloc: Global,
    words: &mut Words,
    layer: &[u8],
    dropped: bool,
    metal: &mut Seq<(Name, Rect)>,
) -> Result<(), DefError>
    requires layer { IsNameWord layer.now }
    requires metal { All IsMetal metal.old }
    ensures reads { Reads def_faults (λ _. metal.new) result words.old words.new (blockage_shapes_form layer.now dropped metal.old) }
    ensures sound { OnOk result (All IsMetal metal.new) }
{
    let word = words.next()?;
    blockage_shape(alloc, words, layer, dropped, word, metal)?;
    further_shapes(alloc, words, layer, dropped, metal)
}

/// A blockage of a layer.
#[tactic(auto, unfolding(crate::specs::Blockages::blockage_layer))]
fn blockage_layer(alloc: Global, words: &mut Words, blocked: &mut Blocked) -> Result<(), DefError>
    requires sound { All IsMetal blocked.old.metal }
    requires few { blocked.old.skipped + length words.old ≤ 2 ^ 32 }
    requires found { blocked.old.found + length words.old ≤ 2 ^ 32 }
    ensures reads { Reads def_faults (λ _. blocked.new) result words.old words.new (blockage_layer_form blocked.old) }
    ensures sound { OnOk result (All IsMetal blocked.new.metal) }
    ensures few { OnOk result (blocked.new.skipped + length words.new ≤ blocked.old.skipped + length words.old) }
    ensures found { OnOk result (blocked.new.found + length words.new ≤ blocked.old.found + length words.old) }
{
    let layer = name(words)?;
    let mut options = Marks {
        dropped: false,
        skipped: blocked.skipped,
    };
    read_marks(words, &mut options)?;
    blockage_shapes(
        alloc,
        words,
        layer.bytes,
        options.dropped,
        &mut blocked.metal,
    )?;
    blocked.found += 1;
    blocked.skipped = options.skipped;
    Ok(())
}

/// An item behind its `-`.
#[tactic(auto, unfolding(crate::specs::Blockages::blockage_item))]
fn blockage_item(alloc: Global, words: &mut Words, blocked: &mut Blocked) -> Result<(), DefError>
    requires sound { All IsMetal blocked.old.metal }
    requires few { blocked.old.skipped + length words.old ≤ 2 ^ 32 }
    requires found { blocked.old.found + length words.old ≤ 2 ^ 32 }
    ensures reads { Reads def_faults (λ _. blocked.new) result words.old words.new (blockage_item_form blocked.old) }
    ensures sound { OnOk result (All IsMetal blocked.new.metal) }
    ensures few { OnOk result (blocked.new.skipped + length words.new ≤ blocked.old.skipped + length words.old) }
    ensures found { OnOk result (blocked.new.found + length words.new ≤ blocked.old.found + length words.old) }
{
    let word = words.next()?;
    if word.is(b"LAYER") {
        return blockage_layer(alloc, words, blocked);
    }
    if word.is(b"PLACEMENT") {
        words.rest()?;
        blocked.found += 1;
        return Ok(());
    }
    Err(DefError::Expected { line: word.line })
}

/// One more item, or the end of the section. True where it was the end.
#[tactic(auto, unfolding(crate::specs::Blockages::more_blockages))]
fn more_blockages(
    alloc: Global,
    words: &mut Words,
    said: u32,
    blocked: &mut Blocked,
) -> Result<bool, DefError>
    requires sound { All IsMetal blocked.old.metal }
    requires few { blocked.old.skipped + length words.old ≤ 2 ^ 32 }
    requires found { blocked.old.found + length words.old ≤ 2 ^ 32 }
    ensures reads { Reads def_faults (λ last. turn last blocked.new) result words.old words.new (more_blockages_form said blocked.old) }
    ensures sound { OnOk result (All IsMetal blocked.new.metal) }
    ensures few { OnOk result (blocked.new.skipped + length words.new ≤ blocked.old.skipped + length words.old) }
    ensures found { OnOk result (blocked.new.found + length words.new ≤ blocked.old.found + length words.old) }
{
    let word = words.next()?;
    if word.is(b"-") {
        blockage_item(alloc, words, blocked)?;
        return Ok(false);
    }
    if word.is(b"END") {
        section_end(alloc, words, b"BLOCKAGES", said, blocked.found)?;
        return Ok(true);
    }
    Err(DefError::Expected { line: word.line })
}

/// The blockages of a section, and its end.
pub fn blockages(
    alloc: Global,
    words: &mut Words,
    said: u32,
    blocked: &mut Blocked,
) -> Result<(), DefError>
    requires sound { All IsMetal blocked.old.metal }
    requires few { blocked.old.skipped + length words.old ≤ 2 ^ 32 }
    requires found { blocked.old.found + length words.old ≤ 2 ^ 32 }
    ensures reads { Reads def_faults (λ _. blocked.new) result words.old words.new (loop (more_blockages_form said) blocked.old) }
    ensures sound { OnOk result (All IsMetal blocked.new.metal) }
    ensures few { OnOk result (blocked.new.skipped + length words.new ≤ blocked.old.skipped + length words.old) }
{
    'blockages: while !more_blockages(alloc, words, said, blocked)? {}
    Ok(())
}
