//! Guide texts.
ghost use Rattle.std.specs.Prelude.{◌≡◌, ◌<◌, ◌^◌, ◌++◌, ◌∷◌, [], length, All, IfOk, OnOk, bytes_eq, true, false};
ghost use Rattle.std.specs.List.{list_any};
ghost use Rattle.rt_base.specs.Tokens.{AllInside};
ghost use Rattle.rt_base.specs.Ranges.{IsWithin, IsPointWithin};
ghost use Rattle.rt_forms.specs.Bytes.{ReadsBytes, unread as unread_of};
ghost use Rattle.rt_forms.specs.Clauses.{Reads, Looks, Gives, ReadsText};
ghost use Rattle.rt_forms.specs.Form.{one, More, turn, loop, text as text_form};
ghost use Rattle.rt_forms.specs.Reading.{a_name, is_name_word};
ghost use Rattle.rt_forms.specs.Word.{place_of};
ghost use Rattle.guide_text.specs.declared.error.GuideError.TheVariants.{Scan};
ghost use Rattle.guide_text.specs.Faults.{guide_faults};
ghost use Rattle.guide_text.specs.IsGuides.{IsBox, AreGuides, AreListed};
ghost use Rattle.guide_text.specs.Guides.{number_of, upper as upper_of, corner_from, corner_above as corner_above_form, box_from as box_from_form, more_boxes as more_boxes_form, new_name as new_name_of, net as net_form, guides as guides_form};

use crate::error::GuideError;
use crate::guides::Guides;
use rt_base::{Name, Point, Rect, ScanError, Seq, Token, tokens};
use rt_forms::{Names, Word};
use rt_words::integer;
use std::alloc::Global;

/// The words of a guide text that are left.
type Words<'a> = rt_forms::Words<'a, GuideError>;

/// The nets that were read, and their names.
#[derive(Drop)]
struct Listed {
    names: Names,
    nets: Seq<(Name, Seq<(Name, Rect)>)>,
}

/// The number that a word means.
fn number_of(word: Word) -> Result<i64, GuideError>
    ensures gives { result ≡ number_of (place_of word.entry) }
    ensures small { IfOk result (λ z. IsWithin (2 ^ 30) z) }
{
    match integer(word.bytes) {
        Ok(number) => Ok(number),
        Err(_) => Err(GuideError::Number { line: word.line }),
    }
}

/// A number.
fn number(words: &mut Words) -> Result<i64, GuideError>
    ensures reads { Reads guide_faults (λ x. x) result words.old words.new (one number_of) }
    ensures small { IfOk result (λ z. IsWithin (2 ^ 30) z) }
{
    let word = words.next()?;
    number_of(word)
}

/// A number that isn't below this one.
fn upper(words: &mut Words, low: i64) -> Result<i64, GuideError>
    ensures reads { Reads guide_faults (λ x. x) result words.old words.new (one (upper_of low)) }
    ensures small { IfOk result (λ z. IsWithin (2 ^ 30) z) }
{
    let word = words.next()?;
    let high = number_of(word)?;
    if high < low {
        return Err(GuideError::EmptyBox { line: word.line });
    }
    Ok(high)
}

/// The lower left corner of a box, behind its x.
#[tactic(auto, unfolding(crate::specs::Guides::corner_from))]
fn corner(words: &mut Words, x: i64) -> Result<Point, GuideError>
    requires { IsWithin (2 ^ 30) x }
    ensures reads { Reads guide_faults (λ x. x) result words.old words.new (corner_from x) }
    ensures small { IfOk result (λ p. IsPointWithin (2 ^ 30) p) }
{
    let y = number(words)?;
    Ok(Point { x, y })
}

/// The upper right corner of a box.
#[tactic(auto, unfolding(crate::specs::Guides::corner_above))]
fn corner_above(words: &mut Words, low: Point) -> Result<Point, GuideError>
    ensures reads { Reads guide_faults (λ x. x) result words.old words.new (corner_above_form low) }
    ensures small { IfOk result (λ p. IsPointWithin (2 ^ 30) p) }
{
    let x = upper(words, low.x)?;
    let y = upper(words, low.y)?;
    Ok(Point { x, y })
}

/// A box and the name of its layer, behind its lower x.
#[tactic(auto, unfolding(crate::specs::Guides::box_from))]
fn box_from(alloc: Global, words: &mut Words, x: i64) -> Result<(Name, Rect), GuideError>
    requires { IsWithin (2 ^ 30) x }
    ensures reads { Reads guide_faults (λ x. x) result words.old words.new (box_from_form x) }
    ensures sound { IfOk result (λ b. IsBox b) }
{
    let low = corner(words, x)?;
    let high = corner_above(words, low)?;
    let layer = name(words)?;
    Ok((Name::new(alloc, layer.bytes)?, Rect::hull(low, high)))
}

/// One more box, or the `)`. True where it was the `)`.
#[tactic(auto, unfolding(crate::specs::Guides::more_boxes))]
fn more_boxes(
    alloc: Global,
    words: &mut Words,
    boxes: &mut Seq<(Name, Rect)>,
) -> Result<bool, GuideError>
    requires { All IsBox boxes.old }
    ensures reads { Reads guide_faults (λ last. turn last boxes.new) result words.old words.new (more_boxes_form boxes.old) }
    ensures sound { OnOk result (All IsBox boxes.new) }
{
    let word = words.next()?;
    if word.is(b")") {
        return Ok(true);
    }
    let x = number_of(word)?;
    boxes.push(box_from(alloc, words, x)?)?;
    Ok(false)
}

/// The boxes of a net, and the `)`, behind those before.
fn further_boxes(
    alloc: Global,
    words: &mut Words,
    boxes: &mut Seq<(Name, Rect)>,
) -> Result<(), GuideError>
    requires { All IsBox boxes.old }
    ensures reads { Reads guide_faults (λ _. boxes.new) result words.old words.new (loop more_boxes_form boxes.old) }
    ensures sound { OnOk result (All IsBox boxes.new) }
{
    'boxes: while !more_boxes(alloc, words, boxes)? {}
    Ok(())
}

/// The boxes of a net, and the `)`.
fn boxes(alloc: Global, words: &mut Words) -> Result<Seq<(Name, Rect)>, GuideError>
    ensures reads { Reads guide_faults (λ x. x) result words.old words.new (loop more_boxes_form []) }
    ensures sound { IfOk result (λ boxes. All IsBox boxes) }
{
    let mut boxes = Seq::new(alloc);
    further_boxes(alloc, words, &mut boxes)?;
    Ok(boxes)
}

/// Adds the name of a net, which no net before may have.
fn new_name(alloc: Global, names: &mut Names, word: Word) -> Result<(), GuideError>
    ensures gives { Gives guide_faults (λ x. x) result (new_name_of names.old (place_of word.entry)) }
    ensures added { OnOk result (names.new ≡ names.old ++ word.entry.bytes.now ∷ []) }
    ensures fresh { OnOk result (list_any (bytes_eq word.entry.bytes.now) names.old ≡ false) }
{
    if !names.add(alloc, word.bytes)? {
        return Err(GuideError::Twice {
            line: word.line,
            name: Name::new(alloc, word.bytes)?,
        });
    }
    Ok(())
}

/// A name.
fn name<'a>(words: &mut Words<'a>) -> Result<Word<'a>, GuideError>
    ensures reads { Reads guide_faults place_of result words.old words.new a_name }
    ensures name { IfOk result (λ w. is_name_word w.bytes.now ≡ true) }
{
    let word = words.next()?;
    if !word.is_name() {
        return Err(GuideError::Expected { line: word.line });
    }
    Ok(word)
}

/// A net with its boxes.
#[tactic(auto, unfolding(crate::specs::Guides::net))]
fn net(alloc: Global, words: &mut Words, listed: &mut Listed) -> Result<(), GuideError>
    requires { AreListed listed.old }
    ensures reads { Reads guide_faults (λ _. More listed.new) result words.old words.new (net_form listed.old) }
    ensures sound { OnOk result (AreListed listed.new) }
{
    let word = name(words)?;
    new_name(alloc, &mut listed.names, word)?;
    words.expect(b"(")?;
    let boxes = boxes(alloc, words)?;
    listed.nets.push((Name::new(alloc, word.bytes)?, boxes))?;
    Ok(())
}

/// The nets up to the end of the text.
fn nets(alloc: Global, words: &mut Words, listed: &mut Listed) -> Result<(), GuideError>
    requires { AreListed listed.old }
    ensures reads { Looks guide_faults (λ _. listed.new) result words.old words.new (text_form net_form listed.old) }
    ensures sound { OnOk result (AreListed listed.new) }
{
    'nets: while !words.is_empty() {
        net(alloc, words, listed)?;
    }
    Ok(())
}

/// The whole text.
#[tactic(auto, unfolding(crate::specs::Guides::guides))]
fn guides(alloc: Global, words: &mut Words) -> Result<Guides, GuideError>
    ensures reads { Looks guide_faults (λ x. x) result words.old words.new guides_form }
    ensures sound { IfOk result (λ g. AreGuides g.nets) }
{
    let mut listed = Listed {
        names: Names::new(alloc),
        nets: Seq::new(alloc),
    };
    nets(alloc, words, &mut listed)?;
    Ok(Guides { nets: listed.nets })
}

/// Reads a guide text that is cut into these tokens: for each net its name, `(`, any number of boxes
/// `xl yl xh yh layer`, and `)`. Each refusal is that of the first word that isn't admitted; which
/// fault it is says [`GuideError`].
pub fn read_guides_tokens(
    alloc: Global,
    text: &[u8],
    tokens: &[Token],
) -> Result<Guides, GuideError>
    requires { AllInside (length text.now) tokens.now }
    ensures reads { ReadsText guide_faults (λ x. x) guides_form text.now tokens.now result }
    ensures fits { IfOk result (λ g. AreGuides g.nets) }
{
    let mut words = Words::new(text, tokens);
    guides(alloc, &mut words)
}

/// Why a text has no tokens, as an error of guides.
fn unread(error: ScanError) -> GuideError
    ensures { result ≡ unread_of guide_faults Scan error }
{
    match error {
        ScanError::Memory => GuideError::Memory,
        ScanError::UnclosedQuote { line } => GuideError::Scan(ScanError::UnclosedQuote { line }),
        ScanError::NotText { line } => GuideError::Scan(ScanError::NotText { line }),
    }
}

/// Cuts a guide text into tokens and reads it, as `read_guides_tokens` does. `Scan` is a fault of the
/// bytes; it comes before any other.
pub fn read_guides(alloc: Global, text: &[u8]) -> Result<Guides, GuideError>
    requires { length text.now < 2 ^ 32 }
    ensures reads { ReadsBytes guide_faults Scan (λ tokens r. ReadsText guide_faults (λ x. x) guides_form text.now tokens r) text.now result }
    ensures fits { IfOk result (λ g. AreGuides g.nets) }
{
    match tokens(alloc, text) {
        Ok(tokens) => read_guides_tokens(alloc, text, tokens.as_slice()),
        Err(error) => Err(unread(error)),
    }
}
