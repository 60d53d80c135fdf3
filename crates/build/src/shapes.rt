//! The shapes of the input.
ghost use Rattle.std.specs.Prelude.{◌≡◌, ◌++◌, ◌<◌, ◌^◌, All, length, IfOk, OnOk};
ghost use Rattle.std.specs.List.{enumerate_from, flat_map};
ghost use Rattle.build.specs.Built.{shapes_on, pin_shapes, placed_of, fixed_of};
ghost use Rattle.lef_text.specs.IsLef.{IsLef};
ghost use Rattle.def_text.specs.Defs.{IsDef};
ghost use Rattle.cells.specs.Indexes.{owner_in};
ghost use Rattle.build.specs.Indexing.{IsLookup};
ghost use Rattle.build.specs.Inputs.{input_by};
ghost use Rattle.build.specs.Known.{IsKnown};
ghost use Rattle.build.specs.Metals.{IsWireMetal, IsOnLayer, wire_shapes};
ghost use Rattle.build.specs.Wires.{special_shapes};

use crate::given::Given;
use crate::layer_names::LayerNames;
use crate::lookup::Lookup;
use crate::net_names::owner_named;
use crate::wires::WireMetal;
use cells::{Owners, add_components, add_rects};
use def_text::{Def, IoPin};
use lef_text::Lef;
use rt_base::{LayerNo, Memory, Name, Owner, Rect, Seq, Shape};
use std::alloc::Global;

/// Adds these rectangles as fixed shapes of an owner.
fn add_shapes(
    alloc: Global,
    shapes: &mut Vec<Shape>,
    layers: &LayerNames,
    owner: Owner,
    rects: &[(Name, Rect)],
) -> Result<(), Memory>
    requires { length layers.now.shaped < 2 ^ 32 }
    ensures { OnOk result (shapes.new.items ≡ shapes.old.items ++ shapes_on layers.now owner rects.now) }
{
    let metals = layers.metals(alloc, rects)?;
    add_rects(shapes, owner, &metals)
}

/// Adds the shapes of these pins.
fn add_pins(
    alloc: Global,
    shapes: &mut Vec<Shape>,
    layers: &LayerNames,
    owners: &Owners,
    pins: &[IoPin],
) -> Result<(), Memory>
    requires { length layers.now.shaped < 2 ^ 32 }
    ensures { OnOk result (shapes.new.items ≡ shapes.old.items ++ flat_map (pin_shapes layers.now (owner_in owners.now)) pins.now) }
{
    for pin in pins {
        let owner = owners.owner(alloc, b"PIN", pin.name.bytes())?;
        add_shapes(alloc, shapes, layers, owner, pin.rects.as_slice())?;
    }
    Ok(())
}

/// The shapes of the components, then those of the pins of the design, and then the blockages.
fn placed_shapes(alloc: Global, lef: &Lef, def: &Def, known: &Lookup) -> Result<Vec<Shape>, Memory>
    requires lef { IsLef lef.now }
    requires def { IsDef def.now }
    requires known { IsLookup lef.now def.now known.now }
    ensures { IfOk result (λ v. v.items ≡ placed_of lef.now def.now) }
{
    let mut shapes = Vec::new(alloc);
    let layers = &known.layers;
    add_components(
        alloc,
        &mut shapes,
        &known.owners,
        &known.cells,
        lef.macros.as_slice(),
        def.components.as_slice(),
    )?;
    add_pins(
        alloc,
        &mut shapes,
        layers,
        &known.owners,
        def.pins.as_slice(),
    )?;
    add_shapes(
        alloc,
        &mut shapes,
        layers,
        Owner::Nobody,
        def.blockages.as_slice(),
    )?;
    Ok(shapes)
}

/// Adds the wiring of the special nets.
fn add_special(
    shapes: &mut Vec<Shape>,
    given: &Given,
    known: &Lookup,
    metal: &WireMetal,
) -> Result<(), Memory>
    requires known { IsKnown given.now known.now }
    requires metal { IsWireMetal (input_by given.now) metal.now }
    ensures { OnOk result (shapes.new.items ≡ shapes.old.items ++ flat_map (special_shapes (input_by given.now)) given.now.def.now.special) }
{
    let nets = given.def.special.as_slice();
    let metals = metal.special.as_slice();
    for (number, net) in nets.iter().enumerate() {
        let owner = owner_named(&known.nets, net.name.bytes());
        add_rects(shapes, owner, metals[number].as_slice())?;
    }
    Ok(())
}

/// Adds the wiring of nets, of which these are the rectangles.
fn add_wired(shapes: &mut Vec<Shape>, metals: &[Seq<(LayerNo, Rect)>]) -> Result<(), Memory>
    requires { length metals.now < 2 ^ 32 }
    ensures { OnOk result (shapes.new.items ≡ shapes.old.items ++ flat_map wire_shapes (enumerate_from 0 metals.now)) }
{
    for (number, metal) in metals.iter().enumerate() {
        add_rects(shapes, Owner::Net(number as u32), metal.as_slice())?;
    }
    Ok(())
}

/// The shapes of the input: of the components, the pins of the design, the blockages, the special
/// nets and the nets.
pub fn fixed_shapes(
    alloc: Global,
    given: &Given,
    known: &Lookup,
    metal: &WireMetal,
) -> Result<Vec<Shape>, Memory>
    requires known { IsKnown given.now known.now }
    requires metal { IsWireMetal (input_by given.now) metal.now }
    ensures shapes { IfOk result (λ v. v.items ≡ fixed_of (input_by given.now)) }
    ensures layers { IfOk result (λ v. All (IsOnLayer (length given.now.lef.now.layers)) v.items) }
{
    let mut shapes = placed_shapes(alloc, given.lef, given.def, known)?;
    add_special(&mut shapes, given, known, metal)?;
    add_wired(&mut shapes, metal.nets.as_slice())?;
    Ok(shapes)
}
