//! Where the wiring of nets stands.
ghost use Rattle.std.specs.Prelude.{◌≡◌, ◌≤◌, ◌-◌, IfOk, if◌then◌else◌};
ghost use Rattle.rt_forms.specs.Clauses.{Reads};
ghost use Rattle.rt_forms.specs.Reading.{left_of};
ghost use Rattle.def_text.specs.Faults.{def_faults};
ghost use Rattle.def_text.specs.Defs.{IsRange};
ghost use Rattle.def_text.specs.Wiring.{wiring_range as wiring_range_form};

use crate::error::DefError;
use crate::parts::{Words, here, option_tail};

/// The range of an option of wiring that ends at `past`: from its `+` where its word stands alone,
/// else from behind its word.
fn range_or_word(alone: bool, plus: u32, behind: u32, past: u32) -> (u32, u32)
    ensures { result ≡ (if alone then (plus, past) else (behind, past)) }
{
    if alone { (plus, past) } else { (behind, past) }
}

/// A wiring option behind its `+`, which has this number, in a text of so many words: the range of
/// the words behind its first, or where there are none, of its `+` and its first word.
#[tactic(auto, unfolding(crate::specs::Wiring::wiring_range))]
pub fn wiring_range(words: &mut Words, total: u32, plus: u32) -> Result<(u32, u32), DefError>
    requires { plus ≤ total - left_of words.old }
    ensures reads { Reads def_faults (λ x. x) result words.old words.new (wiring_range_form total plus) }
    ensures range { IfOk result (λ r. IsRange total r) }
{
    words.next()?;
    let behind = here(words, total);
    let alone = option_tail(words);
    let past = here(words, total);
    Ok(range_or_word(alone, plus, behind, past))
}
