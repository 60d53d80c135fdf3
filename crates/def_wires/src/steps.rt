//! Steps of a path.
ghost use Rattle.std.specs.Prelude.{◌≡◌, ◌++◌, ◌<◌, ◌^◌, length, IfOk, OnOk, IfSome};
ghost use Rattle.rt_base.specs.Ranges.{IsPointWithin};
ghost use Rattle.rt_forms.specs.Clauses.{Reads, Looks, Gives};
ghost use Rattle.rt_forms.specs.Form.{More, loop, unless};
ghost use Rattle.rt_forms.specs.Lexeme.{first_of};
ghost use Rattle.rt_forms.specs.Word.{place_of};
ghost use Rattle.def_wires.specs.Faults.{wire_faults};
ghost use Rattle.def_wires.specs.Names.{AreNamesOf};
ghost use Rattle.def_wires.specs.Sound.{IsArray, IsOpenPath};
ghost use Rattle.def_wires.specs.Paths.{via_steps, with_via, with_go, with_patch, via_step as via_step_form, if_wires as if_wires_of, go_step as go_step_form, patch_step as patch_step_form, step_by, more_steps as more_steps_form, ends_path as ends_path_of};
ghost use Rattle.def_wires.specs.Words.{step_word};

use crate::arrays::{Array, add_copies, optional_array, orient};
use crate::error::WireFault;
use crate::names::TechNames;
use crate::points::{Corner, next_corner, patch};
use crate::wiring::{Spot, WireStep};
use crate::words::{StepWord, Words, layer_beyond, step_word, via_in};
use rt_base::{LayerNo, Memory, Orient, Rect, Seq, Tech};
use rt_forms::Word;

/// A path that is read, and where it stands.
#[derive(Drop)]
pub struct OpenPath {
    pub width: Option<i64>,
    pub steps: Seq<WireStep>,
    pub spot: Spot,
}

impl OpenPath {
    /// Adds a via, or an array of it, behind which the path is on the other layer.
    fn add_via(
        &mut self,
        via: u32,
        orient: Orient,
        other: LayerNo,
        array: Option<Array>,
    ) -> Result<(), Memory>
        requires array { IfSome array IsArray }
        requires point { IsPointWithin (2 ^ 30) self.old.spot.point }
        ensures { OnOk result (self.new ≡ with_via self.old via orient other array) }
    {
        add_via_steps(&mut self.steps, self.spot, via, orient, other, array)?;
        self.spot.layer = other;
        Ok(())
    }

    /// Adds a point.
    fn add_go(&mut self, corner: Corner) -> Result<(), Memory>
        ensures { OnOk result (self.new ≡ with_go self.old corner) }
    {
        self.steps.push(WireStep::Go {
            point: corner.point,
            ext: corner.ext,
        })?;
        self.spot.point = corner.point;
        self.spot.ext = corner.ext;
        Ok(())
    }

    /// Adds a rectangle.
    fn add_patch(&mut self, rect: Rect) -> Result<(), Memory>
        ensures { OnOk result (self.new ≡ with_patch self.old rect) }
    {
        self.steps.push(WireStep::Patch { rect })?;
        Ok(())
    }
}

/// Adds the steps of a via, or of an array of it.
fn add_via_steps(
    steps: &mut Seq<WireStep>,
    spot: Spot,
    via: u32,
    orient: Orient,
    other: LayerNo,
    array: Option<Array>,
) -> Result<(), Memory>
    requires array { IfSome array IsArray }
    requires point { IsPointWithin (2 ^ 30) spot.point }
    ensures { OnOk result (steps.new ≡ steps.old ++ via_steps spot via orient other array) }
{
    match array {
        None => {
            steps.push(WireStep::Via { via, orient })?;
            Ok(())
        }
        Some(array) => {
            add_copies(steps, &array, spot, via, orient)?;
            steps.push(WireStep::Start {
                layer: other,
                point: spot.point,
                ext: spot.ext,
            })?;
            Ok(())
        }
    }
}

/// A via's step behind its name.
#[tactic(auto, unfolding(crate::specs::Paths::via_step))]
fn via_step(
    words: &mut Words,
    tech: &Tech,
    names: &TechNames,
    special: bool,
    word: Word,
    path: &mut OpenPath,
) -> Result<(), WireFault>
    requires names { AreNamesOf names.now tech.now }
    requires path { IsOpenPath tech.now path.old }
    ensures reads { Looks wire_faults (λ _. path.new) result words.old words.new (via_step_form tech.now special (place_of word.entry) path.old) }
    ensures sound { OnOk result (IsOpenPath tech.now path.new) }
{
    let via = via_in(word, tech, names)?;
    let other = layer_beyond(tech, names, path.spot.layer, word.line, via)?;
    let orient = orient(words)?;
    let array = optional_array(words, special)?;
    path.add_via(via, orient, other, array)?;
    Ok(())
}

/// A path of width 0 has no second point, whose `(` stands on this line.
fn if_wires(width: Option<i64>, line: u32) -> Result<(), WireFault>
    ensures { result ≡ if_wires_of width line }
{
    match width {
        None => Ok(()),
        Some(width) => {
            if width == 0 {
                return Err(WireFault::Expected { line });
            }
            Ok(())
        }
    }
}

/// A point behind its `(`.
#[tactic(auto, unfolding(crate::specs::Paths::go_step))]
fn go_step(words: &mut Words, tech: &Tech, word: Word, path: &mut OpenPath) -> Result<(), WireFault>
    requires { IsOpenPath tech.now path.old }
    ensures sound { OnOk result (IsOpenPath tech.now path.new) }
    ensures reads { Looks wire_faults (λ _. path.new) result words.old words.new (go_step_form (place_of word.entry) path.old) }
{
    if_wires(path.width, word.line)?;
    let corner = next_corner(words, path.spot.point)?;
    path.add_go(corner)?;
    Ok(())
}

/// A rectangle behind RECT.
#[tactic(auto, unfolding(crate::specs::Paths::patch_step))]
fn patch_step(words: &mut Words, tech: &Tech, path: &mut OpenPath) -> Result<(), WireFault>
    requires { IsOpenPath tech.now path.old }
    ensures sound { OnOk result (IsOpenPath tech.now path.new) }
    ensures reads { Looks wire_faults (λ _. path.new) result words.old words.new (patch_step_form path.old) }
{
    let rect = patch(words)?;
    path.add_patch(rect)?;
    Ok(())
}

/// A step that begins with this word.
fn step(
    words: &mut Words,
    tech: &Tech,
    names: &TechNames,
    special: bool,
    word: Word,
    path: &mut OpenPath,
) -> Result<(), WireFault>
    requires names { AreNamesOf names.now tech.now }
    requires path { IsOpenPath tech.now path.old }
    ensures sound { OnOk result (IsOpenPath tech.now path.new) }
    ensures reads { Looks wire_faults (λ _. path.new) result words.old words.new (step_by tech.now special (step_word word.entry.bytes.now) (place_of word.entry) path.old) }
{
    match step_word(word) {
        StepWord::Opening => go_step(words, tech, word, path),
        StepWord::Rectangle => patch_step(words, tech, path),
        StepWord::RefusedStep => Err(WireFault::Refused { line: word.line }),
        StepWord::ViaName => via_step(words, tech, names, special, word, path),
        StepWord::Other => Err(WireFault::Expected { line: word.line }),
    }
}

/// One more step.
#[tactic(auto, unfolding(crate::specs::Paths::more_steps))]
fn more_steps(
    words: &mut Words,
    tech: &Tech,
    names: &TechNames,
    special: bool,
    path: &mut OpenPath,
) -> Result<(), WireFault>
    requires names { AreNamesOf names.now tech.now }
    requires path { IsOpenPath tech.now path.old }
    ensures sound { OnOk result (IsOpenPath tech.now path.new) }
    ensures reads { Reads wire_faults (λ _. More path.new) result words.old words.new (more_steps_form tech.now special path.old) }
{
    let word = words.next()?;
    step(words, tech, names, special, word, path)
}

/// Whether NEW, or the end of the words, ends the path.
fn ends_path(words: &Words) -> bool
    ensures { result ≡ ends_path_of (first_of words.now) }
{
    words.is_empty() || words.at(b"NEW")
}

/// The steps of a path up to NEW or the end of the words.
pub fn steps(
    words: &mut Words,
    tech: &Tech,
    names: &TechNames,
    special: bool,
    path: &mut OpenPath,
) -> Result<(), WireFault>
    requires names { AreNamesOf names.now tech.now }
    requires path { IsOpenPath tech.now path.old }
    ensures sound { OnOk result (IsOpenPath tech.now path.new) }
    ensures reads { Looks wire_faults (λ _. path.new) result words.old words.new (loop (unless ends_path_of (more_steps_form tech.now special)) path.old) }
{
    'steps: while !ends_path(words) {
        more_steps(words, tech, names, special, path)?;
    }
    Ok(())
}
