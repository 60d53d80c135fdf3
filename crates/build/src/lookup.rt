//! Look-ups by name.
ghost use Rattle.std.specs.Prelude.{◌≡◌, IfOk};
ghost use Rattle.lef_text.specs.IsLef.{IsLef};
ghost use Rattle.def_text.specs.Defs.{IsDef};
ghost use Rattle.cells.specs.Indexes.{AreOwners, AreCells};
ghost use Rattle.build.specs.Indexing.{IsLookup};
ghost use Rattle.build.specs.LookUps.{pin_names, net_names};

use crate::layer_names::LayerNames;
use crate::net_names::names_of_nets;
use crate::pin_names::names_of_pins;
use cells::{CellIndex, Owners};
use def_text::Def;
use lef_text::Lef;
use rt_base::Memory;
use rt_forms::Names;
use std::alloc::Global;

/// The names of layers, of pins of the design and of nets, the macros and components by name, and
/// whose the pins are.
#[derive(Drop)]
pub struct Lookup {
    pub layers: LayerNames,
    pub pins: Names,
    pub nets: Names,
    pub owners: Owners,
    pub cells: CellIndex,
}

/// The pins of the design and the nets by their names.
fn names_of_def(alloc: Global, def: &Def) -> Result<(Names, Names), Memory>
    requires { IsDef def.now }
    ensures { IfOk result (λ names. (names.0 ≡ pin_names def.now.pins) × (names.1 ≡ net_names def.now.nets)) }
{
    let pins = names_of_pins(alloc, def.pins.as_slice())?;
    let nets = names_of_nets(alloc, def.nets.as_slice())?;
    Ok((pins, nets))
}

/// Whose the pins are, and the macros and components by name.
fn indexes(alloc: Global, lef: &Lef, def: &Def) -> Result<(Owners, CellIndex), Memory>
    requires lef { IsLef lef.now }
    requires def { IsDef def.now }
    ensures { IfOk result (λ found. AreOwners def.now.nets found.0 × AreCells lef.now.macros def.now.components found.1) }
{
    let owners = Owners::new(alloc, def.nets.as_slice())?;
    let cells = CellIndex::new(alloc, lef.macros.as_slice(), def.components.as_slice())?;
    Ok((owners, cells))
}

/// Look-ups by name.
pub fn look_ups(alloc: Global, lef: &Lef, def: &Def) -> Result<Lookup, Memory>
    requires lef { IsLef lef.now }
    requires def { IsDef def.now }
    ensures { IfOk result (IsLookup lef.now def.now) }
{
    let layers = LayerNames::new(alloc, lef)?;
    let (pins, nets) = names_of_def(alloc, def)?;
    let (owners, cells) = indexes(alloc, lef, def)?;
    Ok(Lookup {
        layers,
        pins,
        nets,
        owners,
        cells,
    })
}
