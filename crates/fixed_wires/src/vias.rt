//! The technology of wiring: LEF's, with the vias of DEF.
ghost use Rattle.std.specs.Prelude.{◌≡◌, ◌≢◌, ◌++◌, ◌+◌, ◌^◌, ◌<◌, ◌≤◌, length, map, All, IfOk, MatchResult, None, Some};
ghost use Rattle.rt_base.specs.Tokens.{AllInside};
ghost use Rattle.rt_base.specs.declared.tech.Via.{Via as AVia};
ghost use Rattle.def_text.specs.declared.def.DefVia.{DefVia as ADefVia};
ghost use Rattle.def_text.specs.Defs.{IsRange};
ghost use Rattle.def_wires.specs.declared.error.WireFault.TheVariants.{Memory as OutOfMemory};
ghost use Rattle.def_wires.specs.Names.{AreNamesOf, KnowsLayers};
ghost use Rattle.def_wires.specs.Sound.{IsOn, IsTech};
ghost use Rattle.fixed_wires.specs.FixedWires.{values, via_said, vias_fault, wire_tech};

use crate::ranges::{append, range_of};
use def_text::DefVia;
use def_wires::{TechNames, WireFault, read_via};
use rt_base::{Memory, Seq, Tech, Token, Via};
use std::alloc::Global;

/// What the wiring of DEF names: layers, LEF's vias and behind them DEF's.
#[derive(Drop)]
pub struct WireTech {
    pub tech: Tech,
    pub names: TechNames,
}

/// The vias that the items of VIAS say.
fn read_vias(
    alloc: Global,
    tech: &Tech,
    names: &TechNames,
    text: &[u8],
    tokens: &[Token],
    vias: &[DefVia],
) -> Result<Seq<Via>, WireFault>
    requires names { KnowsLayers names.now tech.now.layers }
    requires tokens { AllInside (length text.now) tokens.now }
    requires ranges { All (λ (v : ADefVia). IsRange (length tokens.now) v.tokens) vias.now }
    ensures read { MatchResult result (λ read. vias_fault tech.now text.now tokens.now vias.now ≡ None) (λ e. e ≢ OutOfMemory → vias_fault tech.now text.now tokens.now vias.now ≡ Some e) }
    ensures value { IfOk result (λ read. read ≡ values (map (via_said tech.now text.now tokens.now) vias.now)) }
    ensures count { IfOk result (λ read. length read ≤ length vias.now) }
    ensures sound { IfOk result (λ read. All (λ (v : AVia). All (IsOn (length tech.now.layers) (2 ^ 60 + 2 ^ 30)) v.rects) read) }
{
    let mut read = Seq::new(alloc);
    'items: for via in vias {
        let tokens = range_of(tokens, via.tokens);
        read.push(read_via(alloc, via.name.bytes(), text, tokens, tech, names)?)?;
    }
    Ok(read)
}

/// A technology with these vias behind its own, and its names.
fn with_vias(alloc: Global, tech: Tech, vias: Seq<Via>) -> Result<WireTech, Memory>
    requires tech { IsTech tech }
    requires few { length tech.vias + length vias < 2 ^ 32 }
    requires vias { All (λ (v : AVia). All (IsOn (length tech.layers) (2 ^ 60 + 2 ^ 30)) v.rects) vias }
    ensures tech { IfOk result (λ w. w.tech ≡ record tech { vias = tech.vias ++ vias }) }
    ensures names { IfOk result (λ w. AreNamesOf w.names w.tech) }
    ensures fits { IfOk result (λ w. IsTech w.tech) }
{
    let mut tech = tech;
    append(&mut tech.vias, vias)?;
    let names = TechNames::new(alloc, &tech)?;
    Ok(WireTech { tech, names })
}

/// The technology with the vias of DEF behind its own, in the order of the file, and its names (DEF
/// 5.8, Vias). `vias` are the items of VIAS in these tokens of a text. The first item that isn't a via
/// of this technology's layers is refused with the fault that `def_wires::read_via` finds in it.
pub fn wire_tech(
    alloc: Global,
    tech: Tech,
    text: &[u8],
    tokens: &[Token],
    vias: &[DefVia],
) -> Result<WireTech, WireFault>
    requires tech { IsTech tech }
    requires few { length tech.vias + length vias.now < 2 ^ 32 }
    requires tokens { AllInside (length text.now) tokens.now }
    requires ranges { All (λ (v : ADefVia). IsRange (length tokens.now) v.tokens) vias.now }
    ensures read { MatchResult result (λ w. vias_fault tech text.now tokens.now vias.now ≡ None) (λ e. e ≢ OutOfMemory → vias_fault tech text.now tokens.now vias.now ≡ Some e) }
    ensures tech { IfOk result (λ w. w.tech ≡ wire_tech tech text.now tokens.now vias.now) }
    ensures names { IfOk result (λ w. AreNamesOf w.names w.tech) }
    ensures fits { IfOk result (λ w. IsTech w.tech) }
{
    let known = TechNames::new(alloc, &tech)?;
    let vias = read_vias(alloc, &tech, &known, text, tokens, vias)?;
    Ok(with_vias(alloc, tech, vias)?)
}
