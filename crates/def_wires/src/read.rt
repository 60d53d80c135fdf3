//! Wiring of a net.
ghost use Rattle.std.specs.Prelude.{◌≡◌, length, IfOk};
ghost use Rattle.rt_base.specs.Tokens.{AllInside};
ghost use Rattle.rt_forms.specs.Clauses.{Looks, Gives, ReadsText};
ghost use Rattle.def_wires.specs.Faults.{wire_faults};
ghost use Rattle.def_wires.specs.Sound.{IsWiring};
ghost use Rattle.def_wires.specs.Names.{AreNamesOf};
ghost use Rattle.def_wires.specs.Options.{wiring_form};
ghost use Rattle.def_wires.specs.Says.{says};

use crate::error::WireFault;
use crate::names::TechNames;
use crate::options::wiring;
use crate::wiring::Wiring;
use crate::words::Words;
use rt_base::{Tech, Token};
use std::alloc::Global;

/// A range of wiring, with nothing behind it.
fn whole_wiring(
    alloc: Global,
    words: &mut Words,
    tech: &Tech,
    names: &TechNames,
    special: bool,
) -> Result<Wiring, WireFault>
    requires { AreNamesOf names.now tech.now }
    ensures reads { Looks wire_faults (λ w. w) result words.old words.new (wiring_form tech.now special) }
    ensures sound { IfOk result (IsWiring tech.now) }
{
    let wiring = wiring(alloc, words, tech, names, special)?;
    words.end()?;
    Ok(wiring)
}

/// The wiring that these tokens of a text say, of a net of NETS or, where `special`, of SPECIALNETS
/// (DEF 5.8, Regular Wiring Statement and Special Wiring Statement). The tokens are those of one
/// option: its paths, or in special wiring `+ RECT` or `+ VIA` with the options that stand directly
/// before. `names` are those of `tech`, made once. The first word that isn't admitted is refused with
/// its line; where a further word lacks behind the last one the fault is `Expected` with the line of
/// the last one, 1 where there is none. Memory for the copies of an array of vias is asked for in one
/// piece, before the first is written.
pub fn read_wiring(
    alloc: Global,
    text: &[u8],
    tokens: &[Token],
    tech: &Tech,
    names: &TechNames,
    special: bool,
) -> Result<Wiring, WireFault>
    requires tokens { AllInside (length text.now) tokens.now }
    requires names { AreNamesOf names.now tech.now }
    ensures reads { ReadsText wire_faults (λ w. w) (wiring_form tech.now special) text.now tokens.now result }
    ensures says { Gives wire_faults (λ w. w) result (says (wiring_form tech.now special) text.now tokens.now) }
    ensures sound { IfOk result (IsWiring tech.now) }
{
    let mut words: Words = Words::new(text, tokens);
    whole_wiring(alloc, &mut words, tech, names, special)
}
