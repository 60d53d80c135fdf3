//! Components.
ghost use Rattle.std.specs.Prelude.{◌≡◌, OnOk, codes};
ghost use Rattle.rt_forms.specs.Clauses.{Reads, Looks};
ghost use Rattle.rt_forms.specs.Form.{turn, loop};
ghost use Rattle.rt_forms.specs.Lexeme.{first_of};
ghost use Rattle.def_text.specs.declared.def.Component.{Component};
ghost use Rattle.def_text.specs.Faults.{def_faults};
ghost use Rattle.def_text.specs.Defs.{IsComponent};
ghost use Rattle.def_text.specs.Sections.{AreListed, more_items};
ghost use Rattle.def_text.specs.Components.{IsPlacing, is_placement as is_placement_of, component_option as component_option_form, more_component as more_component_form, component_item as component_item_form};

use crate::def::Component;
use crate::error::DefError;
use crate::parts::{Words, name, placement};
use crate::sections::{Listed, new_name, section_end};
use rt_base::{Name, Orient, Point};
use std::alloc::Global;

/// Whether a placement comes next.
fn is_placement(words: &Words) -> bool
    ensures { result ≡ is_placement_of (first_of words.now) }
{
    match words.peek() {
        None => false,
        Some(word) => word.is(b"PLACED") || word.is(b"FIXED") || word.is(b"COVER"),
    }
}

/// An option behind its `+`.
#[tactic(auto, unfolding(crate::specs::Components::component_option))]
fn component_option(words: &mut Words, placed: &mut Option<(Point, Orient)>) -> Result<(), DefError>
    requires { IsPlacing placed.old }
    ensures reads { Looks def_faults (λ _. placed.new) result words.old words.new (component_option_form placed.old) }
    ensures sound { OnOk result (IsPlacing placed.new) }
{
    if is_placement(words) {
        *placed = Some(placement(words)?);
        return Ok(());
    }
    words.option_rest();
    Ok(())
}

/// One more option, or the `;`. True where it was the `;`.
#[tactic(auto, unfolding(crate::specs::Components::more_component))]
fn more_component(words: &mut Words, placed: &mut Option<(Point, Orient)>) -> Result<bool, DefError>
    requires { IsPlacing placed.old }
    ensures reads { Reads def_faults (λ last. turn last placed.new) result words.old words.new (more_component_form placed.old) }
    ensures sound { OnOk result (IsPlacing placed.new) }
{
    let word = words.next()?;
    if word.is(b";") {
        return Ok(true);
    }
    if word.is(b"+") {
        component_option(words, placed)?;
        return Ok(false);
    }
    Err(DefError::Expected { line: word.line })
}

/// The options of a component, and the `;`.
fn options(words: &mut Words, placed: &mut Option<(Point, Orient)>) -> Result<(), DefError>
    requires { IsPlacing placed.old }
    ensures reads { Reads def_faults (λ _. placed.new) result words.old words.new (loop more_component_form placed.old) }
    ensures sound { OnOk result (IsPlacing placed.new) }
{
    'options: while !more_component(words, placed)? {}
    Ok(())
}

/// A component behind its `-`.
#[tactic(auto, unfolding(crate::specs::Components::component_item))]
fn component_item(
    alloc: Global,
    words: &mut Words,
    listed: &mut Listed<Component>,
) -> Result<(), DefError>
    requires { AreListed IsComponent (λ (c : Component). c.name) listed.old }
    ensures reads { Reads def_faults (λ _. listed.new) result words.old words.new (component_item_form listed.old) }
    ensures sound { OnOk result (AreListed IsComponent (λ (c : Component). c.name) listed.new) }
    ensures skipped { OnOk result (listed.new.skipped ≡ listed.old.skipped) }
{
    let word = name(words)?;
    new_name(alloc, &mut listed.names, word)?;
    let of = name(words)?;
    let mut placed = None;
    options(words, &mut placed)?;
    let component = Component {
        name: Name::new(alloc, word.bytes)?,
        of: Name::new(alloc, of.bytes)?,
        placed,
    };
    listed.items.push(component)?;
    Ok(())
}

/// One more component, or the end of the section. True where it was the end.
#[tactic(auto, unfolding(crate::specs::Sections::more_items))]
fn more_components(
    alloc: Global,
    words: &mut Words,
    said: u32,
    listed: &mut Listed<Component>,
) -> Result<bool, DefError>
    requires { AreListed IsComponent (λ (c : Component). c.name) listed.old }
    ensures reads { Reads def_faults (λ last. turn last listed.new) result words.old words.new (more_items (codes "COMPONENTS") said component_item_form listed.old) }
    ensures sound { OnOk result (AreListed IsComponent (λ (c : Component). c.name) listed.new) }
    ensures skipped { OnOk result (listed.new.skipped ≡ listed.old.skipped) }
{
    let word = words.next()?;
    if word.is(b"-") {
        component_item(alloc, words, listed)?;
        return Ok(false);
    }
    if word.is(b"END") {
        section_end(alloc, words, b"COMPONENTS", said, listed.items.len())?;
        return Ok(true);
    }
    Err(DefError::Expected { line: word.line })
}

/// The components of a section, and its end.
pub fn components(
    alloc: Global,
    words: &mut Words,
    said: u32,
    listed: &mut Listed<Component>,
) -> Result<(), DefError>
    requires { AreListed IsComponent (λ (c : Component). c.name) listed.old }
    ensures reads { Reads def_faults (λ _. listed.new) result words.old words.new (loop (more_items (codes "COMPONENTS") said component_item_form) listed.old) }
    ensures sound { OnOk result (AreListed IsComponent (λ (c : Component). c.name) listed.new) }
    ensures skipped { OnOk result (listed.new.skipped ≡ listed.old.skipped) }
{
    'components: while !more_components(alloc, words, said, listed)? {}
    Ok(())
}
