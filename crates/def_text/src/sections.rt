//! Sections: a word, a number, items that begin with `-`, and an end.
ghost use Rattle.std.specs.Prelude.{◌≡◌, ◌^◌, ◌≤◌, ◌++◌, ◌∷◌, [], IfOk, OnOk, false, bytes_eq};
ghost use Rattle.std.specs.List.{list_any};
ghost use Rattle.rt_forms.specs.Clauses.{Reads, Gives};
ghost use Rattle.rt_forms.specs.Word.{place_of};
ghost use Rattle.def_text.specs.Faults.{def_faults};
ghost use Rattle.def_text.specs.Sections.{new_name as new_name_of, section_end as section_end_form, said_count as said_count_form};

use crate::error::DefError;
use crate::parts::{MOST, Words, count};
use rt_base::{Name, Seq};
use rt_forms::{Names, Word};
use std::alloc::Global;

/// The items of a section that were read, their names, and how much was skipped.
#[derive(Drop)]
pub struct Listed<T> {
    pub names: Names,
    pub items: Seq<T>,
    pub skipped: u32,
}

/// How many items a section says that it has, and the `;`.
#[tactic(auto, unfolding(crate::specs::Sections::said_count))]
pub fn said_count(words: &mut Words) -> Result<u32, DefError>
    ensures reads { Reads def_faults (λ x. x) result words.old words.new said_count_form }
    ensures small { IfOk result (λ n. n ≤ 2 ^ 30) }
{
    let said = count(words, 0, MOST)?;
    words.semicolon()?;
    Ok(said)
}

/// Adds the name of an item, which no item before may have.
pub fn new_name(alloc: Global, names: &mut Names, word: Word) -> Result<(), DefError>
    ensures gives { Gives def_faults (λ x. x) result (new_name_of names.old (place_of word.entry)) }
    ensures added { OnOk result (names.new ≡ names.old ++ word.entry.bytes.now ∷ []) }
    ensures fresh { OnOk result (list_any (bytes_eq word.entry.bytes.now) names.old ≡ false) }
{
    if !names.add(alloc, word.bytes)? {
        return Err(DefError::Twice {
            line: word.line,
            name: Name::new(alloc, word.bytes)?,
        });
    }
    Ok(())
}

/// What stands behind `END`, where a section has so many items.
#[tactic(auto, unfolding(crate::specs::Sections::section_end))]
pub fn section_end(
    alloc: Global,
    words: &mut Words,
    section: &[u8],
    said: u32,
    found: usize,
) -> Result<(), DefError>
    ensures reads { Reads def_faults (λ x. x) result words.old words.new (section_end_form section.now said found) }
    ensures count { OnOk result (said ≡ found) }
{
    if said as usize != found {
        return Err(DefError::Count {
            section: Name::new(alloc, section)?,
            said: u64::from(said),
            found: found as u64,
        });
    }
    words.expect(section)
}
