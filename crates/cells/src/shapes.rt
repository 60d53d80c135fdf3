//! The shapes of components.
ghost use Rattle.std.specs.Prelude.{◌≡◌, ◌++◌, flat_map, OnOk, All};
ghost use Rattle.def_text.specs.Defs.{IsComponent};
ghost use Rattle.cells.specs.Cells.{placed_rects as placed_rects_of, fixed_shapes, component_shapes};
ghost use Rattle.cells.specs.Indexes.{owner_in};
ghost use Rattle.cells.specs.Firsts.{ArePlaces};
ghost use Rattle.cells.specs.Owners.{cell_owner as cell_owner_of};
ghost use Rattle.cells.specs.Ranges.{IsPlaceable};

use crate::index::CellIndex;
use crate::owners::Owners;
use crate::places::placed_rects;
use def_text::Component;
use lef_text::Macro;
use rt_base::{LayerNo, Memory, Owner, Rect, Shape};
use std::alloc::Global;

/// Adds these rectangles as fixed shapes of an owner.
pub fn add_rects(
    shapes: &mut Vec<Shape>,
    owner: Owner,
    rects: &[(LayerNo, Rect)],
) -> Result<(), Memory>
    ensures { OnOk result (shapes.new.items ≡ shapes.old.items ++ fixed_shapes owner rects.now) }
{
    for metal in rects {
        shapes.push(Shape {
            layer: metal.0,
            rect: metal.1,
            owner,
            fixed: true,
        })?;
    }
    Ok(())
}

/// Adds the shapes of a component's pins.
fn add_pins(
    alloc: Global,
    shapes: &mut Vec<Shape>,
    owners: &Owners,
    component: &Component,
    of: &Macro,
) -> Result<(), Memory>
    requires of { IsPlaceable of.now }
    requires component { IsComponent component.now }
    ensures { OnOk result (shapes.new.items ≡ shapes.old.items ++ flat_map (λ p. fixed_shapes (cell_owner_of (owner_in owners.now) (component.now.name, p.0)) (placed_rects_of of.now component.now.placed p.1)) of.now.pins) }
{
    let pins = of.pins.as_slice();
    for pin in pins {
        let owner = owners.cell_owner(alloc, component.name.bytes(), pin.0.bytes())?;
        let rects = placed_rects(alloc, of, component.placed, pin.1.as_slice())?;
        add_rects(shapes, owner, &rects)?;
    }
    Ok(())
}

/// Adds the shapes of a component.
fn add_component(
    alloc: Global,
    shapes: &mut Vec<Shape>,
    owners: &Owners,
    index: &CellIndex,
    macros: &[Macro],
    component: &Component,
) -> Result<(), Memory>
    requires index { ArePlaces (λ m. m.name) macros.now index.now.macros }
    requires macros { All IsPlaceable macros.now }
    requires component { IsComponent component.now }
    ensures { OnOk result (shapes.new.items ≡ shapes.old.items ++ component_shapes macros.now (owner_in owners.now) component.now) }
{
    match index.macro_of(macros, component.of.bytes()) {
        Some(of) => {
            add_pins(alloc, shapes, owners, component, of)?;
            let obstructions = placed_rects(alloc, of, component.placed, of.obs.as_slice())?;
            add_rects(shapes, Owner::Nobody, &obstructions)?;
            Ok(())
        }
        None => Ok(()),
    }
}

/// Adds the shapes of components in order: for each those of its pins in the order of its macro, and
/// then its obstructions.
pub fn add_components(
    alloc: Global,
    shapes: &mut Vec<Shape>,
    owners: &Owners,
    index: &CellIndex,
    macros: &[Macro],
    components: &[Component],
) -> Result<(), Memory>
    requires index { ArePlaces (λ m. m.name) macros.now index.now.macros }
    requires macros { All IsPlaceable macros.now }
    requires components { All IsComponent components.now }
    ensures { OnOk result (shapes.new.items ≡ shapes.old.items ++ flat_map (component_shapes macros.now (owner_in owners.now)) components.now) }
{
    for component in components {
        add_component(alloc, shapes, owners, index, macros, component)?;
    }
    Ok(())
}
