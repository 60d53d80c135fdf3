//! Vias of DEF.
ghost use Rattle.std.specs.Prelude.{◌≡◌, ◌++◌, ◌∷◌, [], ◌+◌, ◌^◌, ◌≤ℤ◌, pos, length, All, IfOk, OnOk, IfSome, is_some, Some, None, false, MatchOption};
ghost use Rattle.rt_base.specs.Tokens.{AllInside};
ghost use Rattle.rt_base.specs.Ranges.{AreSidesWithin};
ghost use Rattle.rt_shapes.specs.GeneratedVias.{IsForm, generated_of};
ghost use Rattle.rt_forms.specs.Clauses.{Gives, Reads, Looks, ReadsText};
ghost use Rattle.rt_forms.specs.Form.{More, loop, unless, no_word as no_word_of};
ghost use Rattle.rt_forms.specs.Word.{place_of};
ghost use Rattle.def_wires.specs.Faults.{wire_faults};
ghost use Rattle.def_wires.specs.Sound.{IsOn, IsParts, IsPair, IsFormOn};
ghost use Rattle.def_wires.specs.Names.{KnowsLayers};
ghost use Rattle.def_wires.specs.Meaning.{Metal};
ghost use Rattle.def_wires.specs.Says.{says};
ghost use Rattle.def_wires.specs.Vias.{via_word as via_word_of, via_rect as via_rect_form, rect_by, more_rects as more_rects_form, no_parts as no_parts_of, pair_from as pair_from_form, rule_part as rule_part_form, cut_part as cut_part_form, layers_part as layers_part_form, spacing_part as spacing_part_form, enclosure_part as enclosure_part_form, array_part as array_part_form, part_by, more_parts as more_parts_form, form_of as form_of_parts, generated_or_more, rows_of, columns_of, rects_then as rects_then_form, parts_then as parts_then_form, via_by, via_rects as via_rects_form, named_via as named_via_form, via_form};

use crate::error::WireFault;
use crate::names::TechNames;
use crate::points::plain_point;
use crate::via_words::{ViaWord, via_word};
use crate::words::{Words, any_layer, no_word, number_from};
use rt_base::{LayerNo, Memory, Name, Rect, Seq, Tech, Token, Via};
use rt_forms::Word;
use rt_shapes::{Generated, generated_rects};
use std::alloc::Global;

/// The parts of a generated via that were read.
#[derive(Clone, Copy)]
pub struct ViaParts {
    pub rule: bool,
    pub cut: Option<(i64, i64)>,
    pub layers: Option<(LayerNo, LayerNo, LayerNo)>,
    pub spacing: Option<(i64, i64)>,
    /// Of the bottom layer, then of the top layer.
    pub enclosure: Option<((i64, i64), (i64, i64))>,
    /// Rows and columns.
    pub array: Option<(i64, i64)>,
}

/// `layer point point` behind RECT.
#[tactic(auto, unfolding(crate::specs::Vias::via_rect))]
fn via_rect(words: &mut Words, tech: &Tech, names: &TechNames) -> Result<(LayerNo, Rect), WireFault>
    requires { KnowsLayers names.now tech.now.layers }
    ensures sound { IfOk result (IsOn (length tech.now.layers) (2 ^ 60 + 2 ^ 30)) }
    ensures reads { Reads wire_faults (λ x. x) result words.old words.new (via_rect_form tech.now) }
{
    let layer = any_layer(words, tech, names)?;
    let p = plain_point(words)?;
    let q = plain_point(words)?;
    Ok((layer, Rect::hull(p, q)))
}

/// One more rectangle.
#[tactic(auto, unfolding(crate::specs::Vias::more_rects))]
fn more_rects(
    words: &mut Words,
    tech: &Tech,
    names: &TechNames,
    rects: &mut Seq<(LayerNo, Rect)>,
) -> Result<(), WireFault>
    requires names { KnowsLayers names.now tech.now.layers }
    requires rects { All (IsOn (length tech.now.layers) (2 ^ 60 + 2 ^ 30)) rects.old }
    ensures sound { OnOk result (All (IsOn (length tech.now.layers) (2 ^ 60 + 2 ^ 30)) rects.new) }
    ensures reads { Reads wire_faults (λ _. More rects.new) result words.old words.new (more_rects_form tech.now rects.old) }
{
    words.expect(b"+")?;
    let word = words.next()?;
    match via_word(word) {
        ViaWord::Rect => {
            let rect = via_rect(words, tech, names)?;
            rects.push(rect)?;
            Ok(())
        }
        ViaWord::RefusedInVia => Err(WireFault::Refused { line: word.line }),
        ViaWord::Rule
        | ViaWord::CutSize
        | ViaWord::Layers
        | ViaWord::CutSpacing
        | ViaWord::Enclosure
        | ViaWord::RowCol
        | ViaWord::OtherInVia => Err(WireFault::Expected { line: word.line }),
    }
}

/// Further rectangles up to the end of the words.
fn further_rects(
    words: &mut Words,
    tech: &Tech,
    names: &TechNames,
    rects: &mut Seq<(LayerNo, Rect)>,
) -> Result<(), WireFault>
    requires names { KnowsLayers names.now tech.now.layers }
    requires rects { All (IsOn (length tech.now.layers) (2 ^ 60 + 2 ^ 30)) rects.old }
    ensures sound { OnOk result (All (IsOn (length tech.now.layers) (2 ^ 60 + 2 ^ 30)) rects.new) }
    ensures reads { Looks wire_faults (λ _. rects.new) result words.old words.new (loop (unless no_word_of (more_rects_form tech.now)) rects.old) }
{
    'rects: while !no_word(words) {
        more_rects(words, tech, names, rects)?;
    }
    Ok(())
}

/// `x y` from `low` on.
#[tactic(auto, unfolding(crate::specs::Vias::pair_from))]
fn pair_from(words: &mut Words, low: u32) -> Result<(i64, i64), WireFault>
    ensures reads { Reads wire_faults (λ x. x) result words.old words.new (pair_from_form low) }
    ensures sound { IfOk result (IsPair low) }
{
    let x = number_from(words, low)?;
    let y = number_from(words, low)?;
    Ok((x, y))
}

/// Behind VIARULE: a name, which isn't used.
#[tactic(auto, unfolding(crate::specs::Vias::rule_part))]
fn rule_part(
    words: &mut Words,
    tech: &Tech,
    word: Word,
    parts: &mut ViaParts,
) -> Result<(), WireFault>
    requires { IsParts (length tech.now.layers) parts.old }
    ensures reads { Looks wire_faults (λ _. parts.new) result words.old words.new (rule_part_form (place_of word.entry) parts.old) }
    ensures sound { OnOk result (IsParts (length tech.now.layers) parts.new) }
{
    if parts.rule {
        return Err(WireFault::Expected { line: word.line });
    }
    words.name()?;
    parts.rule = true;
    Ok(())
}

/// Behind CUTSIZE.
#[tactic(auto, unfolding(crate::specs::Vias::cut_part))]
fn cut_part(
    words: &mut Words,
    tech: &Tech,
    word: Word,
    parts: &mut ViaParts,
) -> Result<(), WireFault>
    requires { IsParts (length tech.now.layers) parts.old }
    ensures reads { Looks wire_faults (λ _. parts.new) result words.old words.new (cut_part_form (place_of word.entry) parts.old) }
    ensures sound { OnOk result (IsParts (length tech.now.layers) parts.new) }
{
    if parts.cut.is_some() {
        return Err(WireFault::Expected { line: word.line });
    }
    let cut = pair_from(words, 1)?;
    parts.cut = Some(cut);
    Ok(())
}

/// Behind LAYERS.
#[tactic(auto, unfolding(crate::specs::Vias::layers_part))]
fn layers_part(
    words: &mut Words,
    tech: &Tech,
    names: &TechNames,
    word: Word,
    parts: &mut ViaParts,
) -> Result<(), WireFault>
    requires names { KnowsLayers names.now tech.now.layers }
    requires parts { IsParts (length tech.now.layers) parts.old }
    ensures reads { Looks wire_faults (λ _. parts.new) result words.old words.new (layers_part_form tech.now (place_of word.entry) parts.old) }
    ensures sound { OnOk result (IsParts (length tech.now.layers) parts.new) }
{
    if parts.layers.is_some() {
        return Err(WireFault::Expected { line: word.line });
    }
    let bottom = any_layer(words, tech, names)?;
    let cut = any_layer(words, tech, names)?;
    let top = any_layer(words, tech, names)?;
    parts.layers = Some((bottom, cut, top));
    Ok(())
}

/// Behind CUTSPACING.
#[tactic(auto, unfolding(crate::specs::Vias::spacing_part))]
fn spacing_part(
    words: &mut Words,
    tech: &Tech,
    word: Word,
    parts: &mut ViaParts,
) -> Result<(), WireFault>
    requires { IsParts (length tech.now.layers) parts.old }
    ensures reads { Looks wire_faults (λ _. parts.new) result words.old words.new (spacing_part_form (place_of word.entry) parts.old) }
    ensures sound { OnOk result (IsParts (length tech.now.layers) parts.new) }
{
    if parts.spacing.is_some() {
        return Err(WireFault::Expected { line: word.line });
    }
    let spacing = pair_from(words, 0)?;
    parts.spacing = Some(spacing);
    Ok(())
}

/// Behind ENCLOSURE.
#[tactic(auto, unfolding(crate::specs::Vias::enclosure_part))]
fn enclosure_part(
    words: &mut Words,
    tech: &Tech,
    word: Word,
    parts: &mut ViaParts,
) -> Result<(), WireFault>
    requires { IsParts (length tech.now.layers) parts.old }
    ensures reads { Looks wire_faults (λ _. parts.new) result words.old words.new (enclosure_part_form (place_of word.entry) parts.old) }
    ensures sound { OnOk result (IsParts (length tech.now.layers) parts.new) }
{
    if parts.enclosure.is_some() {
        return Err(WireFault::Expected { line: word.line });
    }
    let bottom = pair_from(words, 0)?;
    let top = pair_from(words, 0)?;
    parts.enclosure = Some((bottom, top));
    Ok(())
}

/// Behind ROWCOL: rows, then columns.
#[tactic(auto, unfolding(crate::specs::Vias::array_part))]
fn array_part(
    words: &mut Words,
    tech: &Tech,
    word: Word,
    parts: &mut ViaParts,
) -> Result<(), WireFault>
    requires { IsParts (length tech.now.layers) parts.old }
    ensures reads { Looks wire_faults (λ _. parts.new) result words.old words.new (array_part_form (place_of word.entry) parts.old) }
    ensures sound { OnOk result (IsParts (length tech.now.layers) parts.new) }
{
    if parts.array.is_some() {
        return Err(WireFault::Expected { line: word.line });
    }
    let array = pair_from(words, 1)?;
    parts.array = Some(array);
    Ok(())
}

/// An option of the generated form that begins with this word.
fn part(
    words: &mut Words,
    tech: &Tech,
    names: &TechNames,
    kind: ViaWord,
    word: Word,
    parts: &mut ViaParts,
) -> Result<(), WireFault>
    requires names { KnowsLayers names.now tech.now.layers }
    requires parts { IsParts (length tech.now.layers) parts.old }
    ensures reads { Looks wire_faults (λ _. parts.new) result words.old words.new (part_by tech.now kind (place_of word.entry) parts.old) }
    ensures sound { OnOk result (IsParts (length tech.now.layers) parts.new) }
{
    match kind {
        ViaWord::Rule => rule_part(words, tech, word, parts),
        ViaWord::CutSize => cut_part(words, tech, word, parts),
        ViaWord::Layers => layers_part(words, tech, names, word, parts),
        ViaWord::CutSpacing => spacing_part(words, tech, word, parts),
        ViaWord::Enclosure => enclosure_part(words, tech, word, parts),
        ViaWord::RowCol => array_part(words, tech, word, parts),
        ViaWord::RefusedInVia => Err(WireFault::Refused { line: word.line }),
        ViaWord::Rect | ViaWord::OtherInVia => Err(WireFault::Expected { line: word.line }),
    }
}

/// One more option of the generated form.
#[tactic(auto, unfolding(crate::specs::Vias::more_parts))]
fn more_parts(
    words: &mut Words,
    tech: &Tech,
    names: &TechNames,
    parts: &mut ViaParts,
) -> Result<(), WireFault>
    requires names { KnowsLayers names.now tech.now.layers }
    requires parts { IsParts (length tech.now.layers) parts.old }
    ensures reads { Reads wire_faults (λ _. More parts.new) result words.old words.new (more_parts_form tech.now parts.old) }
    ensures sound { OnOk result (IsParts (length tech.now.layers) parts.new) }
{
    words.expect(b"+")?;
    let word = words.next()?;
    part(words, tech, names, via_word(word), word, parts)
}

/// Further options up to the end of the words.
fn further_parts(
    words: &mut Words,
    tech: &Tech,
    names: &TechNames,
    parts: &mut ViaParts,
) -> Result<(), WireFault>
    requires names { KnowsLayers names.now tech.now.layers }
    requires parts { IsParts (length tech.now.layers) parts.old }
    ensures reads { Looks wire_faults (λ _. parts.new) result words.old words.new (loop (unless no_word_of (more_parts_form tech.now)) parts.old) }
    ensures sound { OnOk result (IsParts (length tech.now.layers) parts.new) }
{
    'parts: while !no_word(words) {
        more_parts(words, tech, names, parts)?;
    }
    Ok(())
}

/// Rows and columns, one of each by default.
fn array_of(array: Option<(i64, i64)>) -> (i64, i64)
    requires { IfSome array (IsPair 1) }
    ensures rows { result.0 ≡ rows_of array }
    ensures columns { result.1 ≡ columns_of array }
    ensures sound { IsPair 1 result }
{
    match array {
        None => (1, 1),
        Some(array) => array,
    }
}

/// The generated form, None where a part lacks.
fn form_of(tech: &Tech, parts: &ViaParts) -> Option<Generated>
    requires { IsParts (length tech.now.layers) parts.now }
    ensures value { result ≡ form_of_parts parts.now }
    ensures sound { IfSome result IsForm }
    ensures on { IfSome result (IsFormOn (length tech.now.layers)) }
{
    if !parts.rule {
        return None;
    }
    let cut = parts.cut?;
    let layers = parts.layers?;
    let spacing = parts.spacing?;
    let (bottom, top) = parts.enclosure?;
    let (rows, columns) = array_of(parts.array);
    Some(Generated {
        cut,
        layers,
        spacing,
        enclosure: (bottom.0, bottom.1, top.0, top.1),
        rows,
        columns,
    })
}

/// The rectangles of the generated form with these parts. Where a part lacks, a further option is
/// expected.
fn finished(
    alloc: Global,
    words: &mut Words,
    tech: &Tech,
    parts: &ViaParts,
) -> Result<Seq<(LayerNo, Rect)>, WireFault>
    requires { IsParts (length tech.now.layers) parts.now }
    ensures sound { IfOk result (All (IsOn (length tech.now.layers) (2 ^ 60 + 2 ^ 30))) }
    ensures reads { Looks wire_faults (λ x. x) result words.old words.new (generated_or_more (form_of_parts parts.now)) }
{
    match form_of(tech, parts) {
        None => {
            let word = words.next()?;
            Err(WireFault::Expected { line: word.line })
        }
        Some(form) => Ok(Seq::from_vec(generated_rects(alloc, &form)?)),
    }
}

/// The generated form behind its first `+` and the word behind that.
#[tactic(auto, unfolding(crate::specs::Vias::parts_then))]
fn parts_then(
    alloc: Global,
    words: &mut Words,
    tech: &Tech,
    names: &TechNames,
    kind: ViaWord,
    word: Word,
) -> Result<Seq<(LayerNo, Rect)>, WireFault>
    requires { KnowsLayers names.now tech.now.layers }
    ensures sound { IfOk result (All (IsOn (length tech.now.layers) (2 ^ 60 + 2 ^ 30))) }
    ensures reads { Looks wire_faults (λ x. x) result words.old words.new (parts_then_form tech.now kind (place_of word.entry)) }
{
    let mut parts = ViaParts {
        rule: false,
        cut: None,
        layers: None,
        spacing: None,
        enclosure: None,
        array: None,
    };
    part(words, tech, names, kind, word, &mut parts)?;
    further_parts(words, tech, names, &mut parts)?;
    finished(alloc, words, tech, &parts)
}

/// Rectangles behind the first `+ RECT`.
#[tactic(auto, unfolding(crate::specs::Vias::rects_then))]
fn rects_then(
    alloc: Global,
    words: &mut Words,
    tech: &Tech,
    names: &TechNames,
) -> Result<Seq<(LayerNo, Rect)>, WireFault>
    requires { KnowsLayers names.now tech.now.layers }
    ensures sound { IfOk result (All (IsOn (length tech.now.layers) (2 ^ 60 + 2 ^ 30))) }
    ensures reads { Reads wire_faults (λ x. x) result words.old words.new (rects_then_form tech.now) }
{
    let first = via_rect(words, tech, names)?;
    let mut rects = Seq::new(alloc);
    rects.push(first)?;
    further_rects(words, tech, names, &mut rects)?;
    Ok(rects)
}

/// The rectangles of a via behind its first `+` and the word behind that.
fn via_by(
    alloc: Global,
    words: &mut Words,
    tech: &Tech,
    names: &TechNames,
    word: Word,
) -> Result<Seq<(LayerNo, Rect)>, WireFault>
    requires { KnowsLayers names.now tech.now.layers }
    ensures sound { IfOk result (All (IsOn (length tech.now.layers) (2 ^ 60 + 2 ^ 30))) }
    ensures reads { Looks wire_faults (λ x. x) result words.old words.new (via_by tech.now (via_word_of word.entry.bytes.now) (place_of word.entry)) }
{
    let kind = via_word(word);
    match kind {
        ViaWord::Rect => rects_then(alloc, words, tech, names),
        ViaWord::Rule
        | ViaWord::CutSize
        | ViaWord::Layers
        | ViaWord::CutSpacing
        | ViaWord::Enclosure
        | ViaWord::RowCol
        | ViaWord::RefusedInVia
        | ViaWord::OtherInVia => parts_then(alloc, words, tech, names, kind, word),
    }
}

/// The rectangles of a via.
#[tactic(auto, unfolding(crate::specs::Vias::via_rects))]
fn via_rects(
    alloc: Global,
    words: &mut Words,
    tech: &Tech,
    names: &TechNames,
) -> Result<Seq<(LayerNo, Rect)>, WireFault>
    requires { KnowsLayers names.now tech.now.layers }
    ensures sound { IfOk result (All (IsOn (length tech.now.layers) (2 ^ 60 + 2 ^ 30))) }
    ensures reads { Reads wire_faults (λ x. x) result words.old words.new (via_rects_form tech.now) }
{
    words.expect(b"+")?;
    let word = words.next()?;
    via_by(alloc, words, tech, names, word)
}

/// A via of this name.
#[tactic(auto, unfolding(crate::specs::Vias::named_via))]
fn named_via(
    alloc: Global,
    name: &[u8],
    words: &mut Words,
    tech: &Tech,
    names: &TechNames,
) -> Result<Via, WireFault>
    requires { KnowsLayers names.now tech.now.layers }
    ensures sound { IfOk result (λ v. All (IsOn (length tech.now.layers) (2 ^ 60 + 2 ^ 30)) v.rects) }
    ensures reads { Reads wire_faults (λ x. x) result words.old words.new (named_via_form name.now tech.now) }
{
    let rects = via_rects(alloc, words, tech, names)?;
    Ok(Via {
        name: Name::new(alloc, name)?,
        usable: false,
        rects,
    })
}

/// A via of this name, with nothing behind it.
fn whole_via(
    alloc: Global,
    name: &[u8],
    words: &mut Words,
    tech: &Tech,
    names: &TechNames,
) -> Result<Via, WireFault>
    requires { KnowsLayers names.now tech.now.layers }
    ensures sound { IfOk result (λ v. All (IsOn (length tech.now.layers) (2 ^ 60 + 2 ^ 30)) v.rects) }
    ensures reads { Looks wire_faults (λ x. x) result words.old words.new (via_form name.now tech.now) }
{
    let via = named_via(alloc, name, words, tech, names)?;
    words.end()?;
    Ok(via)
}

/// The via of DEF's VIAS with this name, from the tokens between its name and its `;` (DEF 5.8,
/// Vias): rectangles, or the generated form. Routing doesn't use it. `names` are those of the layers
/// of `tech`. The first word that isn't admitted is refused with its line: `NoSuchLayer`, `Number`,
/// `Refused` (POLYGON, MASK, ORIGIN, OFFSET and PATTERN), or `Expected`, which is also the fault, on
/// the line of the last word, where a further one lacks. Memory for the cuts of the generated form is
/// asked for in one piece.
pub fn read_via(
    alloc: Global,
    name: &[u8],
    text: &[u8],
    tokens: &[Token],
    tech: &Tech,
    names: &TechNames,
) -> Result<Via, WireFault>
    requires tokens { AllInside (length text.now) tokens.now }
    requires names { KnowsLayers names.now tech.now.layers }
    ensures sound { IfOk result (λ v. All (IsOn (length tech.now.layers) (2 ^ 60 + 2 ^ 30)) v.rects) }
    ensures reads { ReadsText wire_faults (λ v. v) (via_form name.now tech.now) text.now tokens.now result }
    ensures says { Gives wire_faults (λ v. v) result (says (via_form name.now tech.now) text.now tokens.now) }
{
    let mut words: Words = Words::new(text, tokens);
    whole_via(alloc, name, &mut words, tech, names)
}
