//! The rectangles of a net's wiring.
ghost use Rattle.std.specs.Prelude.{◌≡◌, ◌≢◌, ◌^◌, length, All, IfOk, MatchResult, None, Some};
ghost use Rattle.rt_base.specs.Tokens.{AllInside};
ghost use Rattle.def_text.specs.Defs.{IsRange};
ghost use Rattle.def_wires.specs.declared.error.WireFault.TheVariants.{Memory as OutOfMemory};
ghost use Rattle.def_wires.specs.Names.{AreNamesOf};
ghost use Rattle.def_wires.specs.Sound.{IsOn, IsTech};
ghost use Rattle.fixed_wires.specs.FixedWires.{wires_fault, wires_metal};

use crate::ranges::{append, range_of};
use crate::vias::WireTech;
use def_wires::{WireFault, denote, read_wiring};
use rt_base::{LayerNo, Rect, Seq, Token};
use std::alloc::Global;

/// The rectangles that the wiring of a net means, with their layers, range by range (DEF 5.8, Regular
/// Wiring Statement and Special Wiring Statement). `ranges` are those of the wiring of a net of NETS
/// or, where `special`, of SPECIALNETS in these tokens of a text. The first range that isn't wiring is
/// refused with the fault that `def_wires::read_wiring` finds in it.
pub fn wires_metal(
    alloc: Global,
    on: &WireTech,
    text: &[u8],
    tokens: &[Token],
    special: bool,
    ranges: &[(u32, u32)],
) -> Result<Seq<(LayerNo, Rect)>, WireFault>
    requires fits { IsTech on.now.tech }
    requires names { AreNamesOf on.now.names on.now.tech }
    requires tokens { AllInside (length text.now) tokens.now }
    requires ranges { All (IsRange (length tokens.now)) ranges.now }
    ensures read { MatchResult result (λ m. (wires_fault on.now.tech text.now tokens.now special ranges.now ≡ None) × (m ≡ wires_metal on.now.tech text.now tokens.now special ranges.now)) (λ e. e ≢ OutOfMemory → wires_fault on.now.tech text.now tokens.now special ranges.now ≡ Some e) }
    ensures within { IfOk result (λ m. All (IsOn (length on.now.tech.layers) (2 ^ 62)) m) }
{
    let mut metal = Seq::new(alloc);
    'parts: for range in ranges {
        let tokens = range_of(tokens, *range);
        let wiring = read_wiring(alloc, text, tokens, &on.tech, &on.names, special)?;
        append(&mut metal, denote(alloc, &wiring, &on.tech)?)?;
    }
    Ok(metal)
}
