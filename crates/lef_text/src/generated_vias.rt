//! The generated form of VIA.
ghost use Rattle.std.specs.Prelude.{◌≡◌, IfOk, IfErr, IfSome};
ghost use Rattle.rt_forms.specs.Clauses.{Reads};
ghost use Rattle.rt_forms.specs.Form.{one};
ghost use Rattle.rt_forms.specs.Word.{place_of};
ghost use Rattle.rt_shapes.specs.GeneratedVias.{IsForm};
ghost use Rattle.lef_text.specs.declared.error.LefError.TheVariants.{Memory as OutOfMemory};
ghost use Rattle.lef_text.specs.Faults.{lef_faults};
ghost use Rattle.lef_text.specs.Numbers.{length_at_least as length_at_least_form};
ghost use Rattle.lef_text.specs.GeneratedVias.{pair as pair_form, enclosure as enclosure_form, three_layers as three_layers_form, rows_and_columns as rows_and_columns_form, rule_name as rule_name_form, stands as stands_form, new_line as new_line_form, form_line as form_line_form, no_form_lines, is_begun as is_begun_form, layer_of_part as layer_of_part_form, form_of as form_of_form, lacks_a_line as lacks_a_line_form, on_layers as on_layers_form, rects_at_end as rects_at_end_form};

use crate::error::LefError;
use crate::library::{FormLines, Library};
use crate::numbers::{Words, count, length_at_least};
use crate::on_layers::{add_shape, layer_word};
use crate::via_words::FormLine;
use rt_base::{LayerNo, Rect, Seq};
use rt_forms::Word;
use rt_shapes::{Generated, generated_rects};
use std::alloc::Global;

/// The bottom layer, the layer of the cuts and the top layer, None where it is dropped.
pub type Layers = (Option<LayerNo>, Option<LayerNo>, Option<LayerNo>);

/// The most rows or columns.
const MOST: u32 = 1 << 30;

/// A length from `least` on.
fn length_from(words: &mut Words, units: u32, least: i64) -> Result<i64, LefError>
    ensures { Reads lef_faults (λ x. x) result words.old words.new (one (length_at_least_form units least)) }
{
    let word = words.next()?;
    length_at_least(word, units, least)
}

/// `x y ;`, both from `least` on.
#[tactic(auto, unfolding(crate::specs::GeneratedVias::pair))]
fn pair(words: &mut Words, units: u32, least: i64) -> Result<(i64, i64), LefError>
    ensures { Reads lef_faults (λ x. x) result words.old words.new (pair_form units least) }
{
    let x = length_from(words, units, least)?;
    let y = length_from(words, units, least)?;
    words.semicolon()?;
    Ok((x, y))
}

/// How far the bottom layer and then the top layer reach beyond the cuts, and `;`.
#[tactic(auto, unfolding(crate::specs::GeneratedVias::enclosure))]
fn enclosure(words: &mut Words, units: u32) -> Result<(i64, i64, i64, i64), LefError>
    ensures { Reads lef_faults (λ x. x) result words.old words.new (enclosure_form units) }
{
    let bottom_x = length_from(words, units, 0)?;
    let bottom_y = length_from(words, units, 0)?;
    let top_x = length_from(words, units, 0)?;
    let top_y = length_from(words, units, 0)?;
    words.semicolon()?;
    Ok((bottom_x, bottom_y, top_x, top_y))
}

/// The bottom layer, the layer of the cuts, the top layer, and `;`.
#[tactic(auto, unfolding(crate::specs::GeneratedVias::three_layers))]
fn three_layers(alloc: Global, words: &mut Words, lib: &Library) -> Result<Layers, LefError>
    ensures { Reads lef_faults (λ x. x) result words.old words.new (three_layers_form lib.now) }
{
    let bottom = layer_word(alloc, words, lib)?;
    let cuts = layer_word(alloc, words, lib)?;
    let top = layer_word(alloc, words, lib)?;
    words.semicolon()?;
    Ok((bottom, cuts, top))
}

/// `rows columns ;`
#[tactic(auto, unfolding(crate::specs::GeneratedVias::rows_and_columns))]
fn rows_and_columns(words: &mut Words) -> Result<(u32, u32), LefError>
    ensures { Reads lef_faults (λ x. x) result words.old words.new rows_and_columns_form }
{
    let rows = count(words, 1, MOST)?;
    let columns = count(words, 1, MOST)?;
    words.semicolon()?;
    Ok((rows, columns))
}

/// `name ;`
#[tactic(auto, unfolding(crate::specs::GeneratedVias::rule_name))]
fn rule_name(words: &mut Words) -> Result<(), LefError>
    ensures { Reads lef_faults (λ x. x) result words.old words.new rule_name_form }
{
    words.name()?;
    words.semicolon()
}

/// No line of the form.
pub fn no_form_lines() -> FormLines
    ensures { result ≡ no_form_lines }
{
    FormLines {
        rule: false,
        cut: None,
        layers: None,
        spacing: None,
        enclosure: None,
        array: None,
    }
}

/// Whether this line stands.
fn stands(form: &FormLines, line: FormLine) -> bool
    ensures { result ≡ stands_form form.now line }
{
    match line {
        FormLine::Rule => form.rule,
        FormLine::CutSize => form.cut.is_some(),
        FormLine::Layers => form.layers.is_some(),
        FormLine::CutSpacing => form.spacing.is_some(),
        FormLine::Enclosure => form.enclosure.is_some(),
        FormLine::RowCol => form.array.is_some(),
    }
}

/// A line that doesn't stand yet, behind its first word.
fn new_line(
    alloc: Global,
    words: &mut Words,
    units: u32,
    lib: &Library,
    form: &mut FormLines,
    line: FormLine,
) -> Result<(), LefError>
    ensures { Reads lef_faults (λ _. form.new) result words.old words.new (new_line_form units lib.now form.old line) }
{
    match line {
        FormLine::Rule => {
            rule_name(words)?;
            form.rule = true;
            Ok(())
        }
        FormLine::CutSize => {
            form.cut = Some(pair(words, units, 1)?);
            Ok(())
        }
        FormLine::Layers => {
            form.layers = Some(three_layers(alloc, words, lib)?);
            Ok(())
        }
        FormLine::CutSpacing => {
            form.spacing = Some(pair(words, units, 0)?);
            Ok(())
        }
        FormLine::Enclosure => {
            form.enclosure = Some(enclosure(words, units)?);
            Ok(())
        }
        FormLine::RowCol => {
            form.array = Some(rows_and_columns(words)?);
            Ok(())
        }
    }
}

/// A line behind its first word; a second one is unknown.
#[tactic(auto, unfolding(crate::specs::GeneratedVias::form_line))]
pub fn form_line(
    alloc: Global,
    words: &mut Words,
    units: u32,
    lib: &Library,
    form: &mut FormLines,
    word: Word,
    line: FormLine,
) -> Result<(), LefError>
    ensures { Reads lef_faults (λ _. form.new) result words.old words.new (form_line_form units lib.now form.old (place_of word.entry) line) }
{
    if stands(form, line) {
        return Err(LefError::Unknown { line: word.line });
    }
    new_line(alloc, words, units, lib, form, line)
}

/// Whether a line of the form stands.
pub fn is_begun(form: &FormLines) -> bool
    ensures { result ≡ is_begun_form form.now }
{
    form.rule
        || form.cut.is_some()
        || form.layers.is_some()
        || form.spacing.is_some()
        || form.enclosure.is_some()
        || form.array.is_some()
}

/// The form and its layers, None where a line other than ROWCOL is missing. In place of its layers
/// stand 0, 1 and 2.
fn form_of(form: &FormLines) -> Option<(Generated, Layers)>
    ensures { result ≡ form_of_form form.now }
{
    if !form.rule {
        return None;
    }
    let cut = form.cut?;
    let layers = form.layers?;
    let spacing = form.spacing?;
    let enclosure = form.enclosure?;
    let (rows, columns) = form.array.unwrap_or((1, 1));
    Some((
        Generated {
            cut,
            layers: (LayerNo(0), LayerNo(1), LayerNo(2)),
            spacing,
            enclosure,
            rows: i64::from(rows),
            columns: i64::from(columns),
        },
        layers,
    ))
}

/// Whether the form is begun and a line other than ROWCOL is missing.
pub fn lacks_a_line(form: &FormLines) -> bool
    ensures { result ≡ lacks_a_line_form form.now }
{
    is_begun(form) && form_of(form).is_none()
}

/// The layer of a part: 0 is the bottom one, 1 the cuts, 2 the top one.
fn layer_of_part(layers: &Layers, part: LayerNo) -> Option<LayerNo>
    ensures { result ≡ layer_of_part_form layers.now part }
{
    match part.0 {
        0 => layers.0,
        1 => layers.1,
        _ => layers.2,
    }
}

/// The rectangles of the parts, each on its layer, but those on layers that are dropped.
fn on_layers(
    alloc: Global,
    layers: &Layers,
    rects: &[(LayerNo, Rect)],
) -> Result<Seq<(LayerNo, Rect)>, LefError>
    ensures ok { IfOk result (λ s. s ≡ on_layers_form layers.now rects.now) }
    ensures err { IfErr result (λ e. e ≡ OutOfMemory) }
{
    let mut shapes = Seq::new(alloc);
    for rect in rects {
        add_shape(&mut shapes, layer_of_part(layers, rect.0), rect.1)?;
    }
    Ok(shapes)
}

/// The rectangles of a via: those of the generated form where it stands, else these.
pub fn rects_at_end(
    alloc: Global,
    form: &FormLines,
    rects: Seq<(LayerNo, Rect)>,
) -> Result<Seq<(LayerNo, Rect)>, LefError>
    requires { IfSome (form_of_form form.now) (λ g. IsForm g.0) }
    ensures ok { IfOk result (λ s. s ≡ rects_at_end_form form.now rects) }
    ensures err { IfErr result (λ e. e ≡ OutOfMemory) }
{
    match form_of(form) {
        None => Ok(rects),
        Some((generated, layers)) => {
            let parts = generated_rects(alloc, &generated)?;
            on_layers(alloc, &layers, parts.as_slice())
        }
    }
}
