//! The wiring that DEF brings along, read once.
ghost use Rattle.std.specs.Prelude.{◌≡◌, ◌<◌, ◌+◌, ◌^◌, All, true, false, length, map, IfOk};
ghost use Rattle.std.specs.List.{enumerate_from};
ghost use Rattle.def_text.specs.Defs.{IsRange};
ghost use Rattle.build.specs.Faults.{first_by, items_fault, vias_part, wiring_fault};
ghost use Rattle.build.specs.Findings.{Finds};
ghost use Rattle.build.specs.Inputs.{IsInput, input_by};
ghost use Rattle.build.specs.Metals.{IsWireTech, AreOn};
ghost use Rattle.build.specs.Wires.{tech_said, metal_of_net as metal_said};

use crate::checks::check_limit;
use crate::copies::{copy_layers, copy_vias};
use crate::error::{BuildError, Limited};
use crate::given::Given;
use def_text::DefNet;
use fixed_wires::{WireTech, wire_tech, wires_metal};
use lef_text::Lef;
use rt_base::{LayerNo, Memory, Rect, Seq, Tech};
use std::alloc::Global;

/// The rectangles of each special net and of each net, in file order.
#[derive(Drop)]
pub struct WireMetal {
    pub special: Seq<Seq<(LayerNo, Rect)>>,
    pub nets: Seq<Seq<(LayerNo, Rect)>>,
}

/// LEF's layers and vias as LEF says them.
fn said_tech(alloc: Global, lef: &Lef) -> Result<Tech, Memory>
    ensures { IfOk result (λ t. t ≡ tech_said lef.now) }
{
    Ok(Tech {
        layers: copy_layers(alloc, lef.layers.as_slice())?,
        vias: copy_vias(alloc, lef.vias.as_slice())?,
    })
}

/// What wiring names, where its vias can be numbered.
fn numbered_names(alloc: Global, given: &Given) -> Result<WireTech, BuildError>
    requires input { IsInput (input_by given.now) }
    requires few { length given.now.lef.now.vias + length given.now.def.now.vias < 2 ^ 32 }
    ensures { Finds (IsWireTech (input_by given.now)) result (items_fault (input_by given.now)) }
{
    let tech = said_tech(alloc, given.lef)?;
    let vias = given.def.vias.as_slice();
    Ok(wire_tech(alloc, tech, given.text, given.tokens, vias)?)
}

/// What wiring names: LEF's layers and vias, and behind these the vias of DEF.
pub fn names_of_wires(alloc: Global, given: &Given) -> Result<WireTech, BuildError>
    requires { IsInput (input_by given.now) }
    ensures { Finds (IsWireTech (input_by given.now)) result (vias_part (input_by given.now)) }
{
    let count = given.lef.vias.len() as u128 + given.def.vias.len() as u128;
    check_limit(Limited::Vias, count, 4_294_967_295)?;
    numbered_names(alloc, given)
}

/// The rectangles of the wiring of a net.
pub fn metal_of_net(
    alloc: Global,
    given: &Given,
    on: &WireTech,
    special: bool,
    net: &DefNet,
) -> Result<Seq<(LayerNo, Rect)>, BuildError>
    requires given { IsInput (input_by given.now) }
    requires on { IsWireTech (input_by given.now) on.now }
    requires ranges { All (IsRange (length given.now.tokens.now)) net.now.wiring }
    ensures metal { Finds (λ m. m ≡ metal_said (input_by given.now) special net.now) result (wiring_fault (input_by given.now) special net.now) }
    ensures layers { IfOk result (AreOn (input_by given.now)) }
{
    let ranges = net.wiring.as_slice();
    Ok(wires_metal(alloc, on, given.text, given.tokens, special, ranges)?)
}

/// The rectangles of the special nets.
pub fn metal_of_special(
    alloc: Global,
    given: &Given,
    on: &WireTech,
) -> Result<Seq<Seq<(LayerNo, Rect)>>, BuildError>
    requires given { IsInput (input_by given.now) }
    requires on { IsWireTech (input_by given.now) on.now }
    ensures metal { Finds (λ ms. ms ≡ map (metal_said (input_by given.now) true) given.now.def.now.special) result (first_by (wiring_fault (input_by given.now) true) given.now.def.now.special) }
    ensures layers { IfOk result (All (AreOn (input_by given.now))) }
{
    let mut metal = Seq::new(alloc);
    let nets = given.def.special.as_slice();
    for net in nets {
        metal.push(metal_of_net(alloc, given, on, true, net)?)?;
    }
    Ok(metal)
}
