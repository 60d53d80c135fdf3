//! Vias: where the words of each stand.
ghost use Rattle.std.specs.Prelude.{◌≡◌, OnOk, codes};
ghost use Rattle.rt_forms.specs.Clauses.{Reads};
ghost use Rattle.rt_forms.specs.Form.{turn, loop};
ghost use Rattle.def_text.specs.declared.def.DefVia.{DefVia};
ghost use Rattle.def_text.specs.Faults.{def_faults};
ghost use Rattle.def_text.specs.Sections.{AreListed, more_items};
ghost use Rattle.def_text.specs.Vias.{IsDefVia, via_item as via_item_form};

use crate::def::DefVia;
use crate::error::DefError;
use crate::parts::{Words, here, name};
use crate::sections::{Listed, new_name, section_end};
use rt_base::Name;
use std::alloc::Global;

/// A via behind its `-`, in a text of so many words.
#[tactic(auto, unfolding(crate::specs::Vias::via_item))]
fn via_item(
    alloc: Global,
    words: &mut Words,
    total: u32,
    listed: &mut Listed<DefVia>,
) -> Result<(), DefError>
    requires { AreListed (IsDefVia total) (λ (v : DefVia). v.name) listed.old }
    ensures reads { Reads def_faults (λ _. listed.new) result words.old words.new (via_item_form total listed.old) }
    ensures sound { OnOk result (AreListed (IsDefVia total) (λ (v : DefVia). v.name) listed.new) }
    ensures skipped { OnOk result (listed.new.skipped ≡ listed.old.skipped) }
{
    let word = name(words)?;
    new_name(alloc, &mut listed.names, word)?;
    let first = here(words, total);
    words.rest()?;
    let past = here(words, total);
    let via = DefVia {
        name: Name::new(alloc, word.bytes)?,
        tokens: (first, past.saturating_sub(1)),
    };
    listed.items.push(via)?;
    Ok(())
}

/// One more via, or the end of the section. True where it was the end.
#[tactic(auto, unfolding(crate::specs::Sections::more_items))]
fn more_vias(
    alloc: Global,
    words: &mut Words,
    total: u32,
    said: u32,
    listed: &mut Listed<DefVia>,
) -> Result<bool, DefError>
    requires { AreListed (IsDefVia total) (λ (v : DefVia). v.name) listed.old }
    ensures reads { Reads def_faults (λ last. turn last listed.new) result words.old words.new (more_items (codes "VIAS") said (via_item_form total) listed.old) }
    ensures sound { OnOk result (AreListed (IsDefVia total) (λ (v : DefVia). v.name) listed.new) }
    ensures skipped { OnOk result (listed.new.skipped ≡ listed.old.skipped) }
{
    let word = words.next()?;
    if word.is(b"-") {
        via_item(alloc, words, total, listed)?;
        return Ok(false);
    }
    if word.is(b"END") {
        section_end(alloc, words, b"VIAS", said, listed.items.len())?;
        return Ok(true);
    }
    Err(DefError::Expected { line: word.line })
}

/// The vias of a section, and its end.
pub fn vias(
    alloc: Global,
    words: &mut Words,
    total: u32,
    said: u32,
    listed: &mut Listed<DefVia>,
) -> Result<(), DefError>
    requires { AreListed (IsDefVia total) (λ (v : DefVia). v.name) listed.old }
    ensures reads { Reads def_faults (λ _. listed.new) result words.old words.new (loop (more_items (codes "VIAS") said (via_item_form total)) listed.old) }
    ensures sound { OnOk result (AreListed (IsDefVia total) (λ (v : DefVia). v.name) listed.new) }
    ensures skipped { OnOk result (listed.new.skipped ≡ listed.old.skipped) }
{
    'vias: while !more_vias(alloc, words, total, said, listed)? {}
    Ok(())
}
