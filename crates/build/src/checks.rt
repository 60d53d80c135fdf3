//! Tests of units, names, wiring, layers without tracks and guides.
ghost use Rattle.std.specs.Prelude.{◌≡◌, ◌<◌, ◌^◌, All, IfOk, false, length, map, option_map, unwrap_or, []};
ghost use Rattle.std.specs.List.{enumerate_from, list_any};
ghost use Rattle.std.specs.Option.{option_copied, option_or};
ghost use Rattle.def_text.specs.Defs.{IsDef, IsRange};
ghost use Rattle.build.specs.Faults.{first_by, scale_fault, layer_fault, row_fault, rects_fault, component_fault, pin_fault, connection_fault, net_fault, guide_fault, level_fault, limit_fault, unit_fault, placed_fault, wired_fault, section_fault, level_and_guide_fault, name_fault};
ghost use Rattle.build.specs.Findings.{Finds};
ghost use Rattle.build.specs.Indexes.{Tells};
ghost use Rattle.build.specs.Inputs.{IsInput, input_by};
ghost use Rattle.cells.specs.Firsts.{ArePlaces};
ghost use Rattle.build.specs.LookUps.{has_component as has_component_of, has_pin as has_pin_of};
ghost use Rattle.build.specs.Indexing.{IsLookup};
ghost use Rattle.build.specs.Known.{IsKnown};
ghost use Rattle.build.specs.Metals.{IsWireTech, IsWireMetal, AreOn, AreWires};
ghost use Rattle.build.specs.TrackLines.{is_used, routing_layers};
ghost use Rattle.build.specs.Wires.{metal_of_net as metal_said};

use crate::copies::copy_name;
use crate::error::{BuildError, Limited};
use crate::given::Given;
use crate::layer_names::LayerNames;
use crate::lookup::Lookup;
use crate::pin_names::has_name;
use crate::track_lines::is_used;
use crate::wires::{WireMetal, metal_of_net, metal_of_special, names_of_wires};
use cells::{CellIndex, is_io};
use def_text::{Component, Def, DefNet, IoPin, TrackRow};
use fixed_wires::WireTech;
use guide_text::Guides;
use lef_text::{Lef, Macro};
use rt_base::{Layer, LayerNo, Name, Rect, Seq, Via};
use std::alloc::Global;

/// Whether a count is at most so much.
pub fn check_limit(what: Limited, count: u128, most: u64) -> Result<(), BuildError>
    ensures { Tells result (limit_fault what count most) }
{
    if count > u128::from(most) {
        return Err(BuildError::Limit { what, count, most });
    }
    Ok(())
}

/// Whether DEF's units divide LEF's.
fn check_scale(lef: &Lef, def: &Def) -> Result<(), BuildError>
    requires { IsDef def.now }
    ensures { Tells result (scale_fault lef.now def.now) }
{
    if lef.units % def.units != 0 {
        return Err(BuildError::Scale {
            lef: lef.units,
            def: def.units,
        });
    }
    Ok(())
}

fn check_layer(alloc: Global, layers: &LayerNames, name: &Name) -> Result<(), BuildError>
    ensures { Tells result (layer_fault layers.now name.now) }
{
    if layers.knows(name.bytes()) {
        return Ok(());
    }
    let name = copy_name(alloc, name)?;
    Err(BuildError::NoLayer { name })
}

fn check_layers(alloc: Global, layers: &LayerNames, names: &[Name]) -> Result<(), BuildError>
    ensures { Tells result (first_by (layer_fault layers.now) names.now) }
{
    for name in names {
        check_layer(alloc, layers, name)?;
    }
    Ok(())
}

fn check_row(alloc: Global, layers: &LayerNames, row: &TrackRow) -> Result<(), BuildError>
    ensures { Tells result (row_fault layers.now row.now) }
{
    match &row.layers {
        Some(names) => check_layers(alloc, layers, names.as_slice()),
        None => Ok(()),
    }
}

fn check_rows(alloc: Global, layers: &LayerNames, rows: &[TrackRow]) -> Result<(), BuildError>
    ensures { Tells result (first_by (row_fault layers.now) rows.now) }
{
    for row in rows {
        check_row(alloc, layers, row)?;
    }
    Ok(())
}

fn check_rects(alloc: Global, layers: &LayerNames, rects: &[(Name, Rect)]) -> Result<(), BuildError>
    ensures { Tells result (rects_fault layers.now rects.now) }
{
    for rect in rects {
        check_layer(alloc, layers, &rect.0)?;
    }
    Ok(())
}

fn check_pins(alloc: Global, layers: &LayerNames, pins: &[IoPin]) -> Result<(), BuildError>
    ensures { Tells result (first_by (pin_fault layers.now) pins.now) }
{
    for pin in pins {
        check_rects(alloc, layers, pin.rects.as_slice())?;
    }
    Ok(())
}

/// Whether LEF has the macro of a component.
fn check_component(
    alloc: Global,
    cells: &CellIndex,
    macros: &[Macro],
    component: &Component,
) -> Result<(), BuildError>
    requires { ArePlaces (λ m. m.name) macros.now cells.now.macros }
    ensures { Tells result (component_fault macros.now component.now) }
{
    if cells.macro_of(macros, component.of.bytes()).is_some() {
        return Ok(());
    }
    let name = copy_name(alloc, &component.of)?;
    Err(BuildError::NoMacro { name })
}

fn check_components(
    alloc: Global,
    cells: &CellIndex,
    macros: &[Macro],
    components: &[Component],
) -> Result<(), BuildError>
    requires { ArePlaces (λ m. m.name) macros.now cells.now.macros }
    ensures { Tells result (first_by (component_fault macros.now) components.now) }
{
    for component in components {
        check_component(alloc, cells, macros, component)?;
    }
    Ok(())
}

/// Whether a connection is to a pin of the design, or to one of a component that there is.
fn has_component(def: &Def, known: &Lookup, connection: &(Name, Name)) -> bool
    requires { ArePlaces (λ c. c.name) def.now.components known.now.cells.components }
    ensures { result ≡ has_component_of def.now connection.now }
{
    if is_io(connection) {
        return true;
    }
    let components = def.components.as_slice();
    known
        .cells
        .component_of(components, connection.0.bytes())
        .is_some()
}

/// Whether PINS or the component's macro has the pin of a connection.
fn has_pin(lef: &Lef, def: &Def, known: &Lookup, connection: &(Name, Name)) -> bool
    requires { IsLookup lef.now def.now known.now }
    ensures { result ≡ has_pin_of lef.now def.now connection.now }
{
    if is_io(connection) {
        return has_name(&known.pins, connection.1.bytes());
    }
    let macros = lef.macros.as_slice();
    let components = def.components.as_slice();
    known.cells.has_pin(macros, components, connection)
}

fn check_connection(
    alloc: Global,
    lef: &Lef,
    def: &Def,
    known: &Lookup,
    net: u32,
    connection: &(Name, Name),
) -> Result<(), BuildError>
    requires { IsLookup lef.now def.now known.now }
    ensures { Tells result (connection_fault lef.now def.now net connection.now) }
{
    if !has_component(def, known, connection) {
        let name = copy_name(alloc, &connection.0)?;
        return Err(BuildError::NoComponent { name });
    }
    if !has_pin(lef, def, known, connection) {
        let name = copy_name(alloc, &connection.1)?;
        return Err(BuildError::NoPin { name });
    }
    if !known.owners.owns(alloc, net, connection)? {
        let name = copy_name(alloc, &connection.1)?;
        return Err(BuildError::PinTwice { name });
    }
    Ok(())
}

fn check_connections(
    alloc: Global,
    lef: &Lef,
    def: &Def,
    known: &Lookup,
    net: u32,
    connections: &[(Name, Name)],
) -> Result<(), BuildError>
    requires { IsLookup lef.now def.now known.now }
    ensures { Tells result (first_by (connection_fault lef.now def.now net) connections.now) }
{
    for connection in connections {
        check_connection(alloc, lef, def, known, net, connection)?;
    }
    Ok(())
}

/// The rectangles of a net's wiring, which is read once its connections are tested.
fn net_metal(
    alloc: Global,
    given: &Given,
    known: &Lookup,
    on: &WireTech,
    number: u32,
    net: &DefNet,
) -> Result<Seq<(LayerNo, Rect)>, BuildError>
    requires known { IsKnown given.now known.now }
    requires on { IsWireTech (input_by given.now) on.now }
    requires ranges { All (IsRange (length given.now.tokens.now)) net.now.wiring }
    ensures metal { Finds (λ m. m ≡ metal_said (input_by given.now) false net.now) result (net_fault (input_by given.now) (number, net.now)) }
    ensures layers { IfOk result (AreOn (input_by given.now)) }
{
    check_connections(
        alloc,
        given.lef,
        given.def,
        known,
        number,
        net.pins.as_slice(),
    )?;
    metal_of_net(alloc, given, on, false, net)
}

/// The rectangles of the nets, net by net.
fn metal_of_nets(
    alloc: Global,
    given: &Given,
    known: &Lookup,
    on: &WireTech,
) -> Result<Seq<Seq<(LayerNo, Rect)>>, BuildError>
    requires known { IsKnown given.now known.now }
    requires on { IsWireTech (input_by given.now) on.now }
    ensures metal { Finds (λ ms. ms ≡ map (metal_said (input_by given.now) false) given.now.def.now.nets) result (first_by (net_fault (input_by given.now)) (enumerate_from 0 given.now.def.now.nets)) }
    ensures layers { IfOk result (All (AreOn (input_by given.now))) }
{
    let mut metal = Seq::new(alloc);
    let nets = given.def.nets.as_slice();
    for (number, net) in nets.iter().enumerate() {
        metal.push(net_metal(alloc, given, known, on, number as u32, net)?)?;
    }
    Ok(metal)
}

/// Whether some statement is used for a routing layer.
fn has_tracks(layer: &Layer, rows: &[TrackRow]) -> bool
    ensures { result ≡ list_any (is_used layer.now) rows.now }
{
    rows.iter().any(|row| is_used(layer, row))
}

fn check_level(alloc: Global, layer: &Layer, rows: &[TrackRow]) -> Result<(), BuildError>
    ensures { Tells result (level_fault rows.now layer.now) }
{
    if has_tracks(layer, rows) {
        return Ok(());
    }
    let layer = copy_name(alloc, &layer.name)?;
    Err(BuildError::NoTracks { layer })
}

fn check_levels(alloc: Global, layers: &[Layer], rows: &[TrackRow]) -> Result<(), BuildError>
    ensures { Tells result (first_by (level_fault rows.now) (routing_layers layers.now)) }
{
    for layer in layers {
        if layer.routing {
            check_level(alloc, layer, rows)?;
        }
    }
    Ok(())
}

/// How many of these are routing layers.
fn routing_count(layers: &[Layer]) -> usize
    ensures { result ≡ length (routing_layers layers.now) }
{
    layers.iter().filter(|layer| layer.routing).count()
}

/// The net of an entry of the guides, and then the layers of its boxes.
fn check_guide(
    alloc: Global,
    known: &Lookup,
    guide: &(Name, Seq<(Name, Rect)>),
) -> Result<(), BuildError>
    ensures { Tells result (guide_fault known.now.layers known.now.nets guide.now) }
{
    if !has_name(&known.nets, guide.0.bytes()) {
        let name = copy_name(alloc, &guide.0)?;
        return Err(BuildError::NoNet { name });
    }
    check_rects(alloc, &known.layers, guide.1.as_slice())
}

fn check_entries(
    alloc: Global,
    known: &Lookup,
    guides: &[(Name, Seq<(Name, Rect)>)],
) -> Result<(), BuildError>
    ensures { Tells result (first_by (guide_fault known.now.layers known.now.nets) guides.now) }
{
    for guide in guides {
        check_guide(alloc, known, guide)?;
    }
    Ok(())
}

/// The guides' entries, where there are guides.
fn check_guides(alloc: Global, known: &Lookup, guides: Option<&Guides>) -> Result<(), BuildError>
    ensures { Tells result (first_by (guide_fault known.now.layers known.now.nets) (unwrap_or (option_map (λ g. g.nets) (option_copied guides.entry)) [])) }
{
    match guides {
        None => Ok(()),
        Some(guides) => check_entries(alloc, known, guides.nets.as_slice()),
    }
}

/// Units, and then the layers that TRACKS statements name.
fn check_units(alloc: Global, given: &Given, known: &Lookup) -> Result<(), BuildError>
    requires { IsKnown given.now known.now }
    ensures { Tells result (unit_fault (input_by given.now)) }
{
    check_scale(given.lef, given.def)?;
    check_rows(alloc, &known.layers, given.def.tracks.as_slice())
}

/// The macros of components, and then the layers of pins and of blockages.
fn check_placed(alloc: Global, given: &Given, known: &Lookup) -> Result<(), BuildError>
    requires { IsKnown given.now known.now }
    ensures { Tells result (placed_fault (input_by given.now)) }
{
    let macros = given.lef.macros.as_slice();
    let components = given.def.components.as_slice();
    check_components(alloc, &known.cells, macros, components)?;
    check_pins(alloc, &known.layers, given.def.pins.as_slice())?;
    check_rects(alloc, &known.layers, given.def.blockages.as_slice())
}

/// The rectangles of the special nets, and then of the nets, whose connections are tested.
fn metal_of_wires(
    alloc: Global,
    given: &Given,
    known: &Lookup,
    on: &WireTech,
) -> Result<WireMetal, BuildError>
    requires known { IsKnown given.now known.now }
    requires on { IsWireTech (input_by given.now) on.now }
    ensures { Finds (IsWireMetal (input_by given.now)) result (wired_fault (input_by given.now)) }
{
    let special = metal_of_special(alloc, given, on)?;
    let nets = metal_of_nets(alloc, given, known, on)?;
    Ok(WireMetal { special, nets })
}

/// Layers without tracks, then guides, and then how many routing layers there are.
fn check_levels_and_guides(alloc: Global, given: &Given, known: &Lookup) -> Result<(), BuildError>
    requires { IsKnown given.now known.now }
    ensures { Tells result (level_and_guide_fault (input_by given.now)) }
{
    let layers = given.lef.layers.as_slice();
    check_levels(alloc, layers, given.def.tracks.as_slice())?;
    check_guides(alloc, known, given.guides)?;
    let count = routing_count(layers) as u128;
    check_limit(Limited::RoutingLayers, count, 16)
}

/// The rectangles of the wiring, which is read once what is placed is tested.
fn placed_and_wired(
    alloc: Global,
    given: &Given,
    known: &Lookup,
    on: &WireTech,
) -> Result<WireMetal, BuildError>
    requires known { IsKnown given.now known.now }
    requires on { IsWireTech (input_by given.now) on.now }
    ensures { Finds (IsWireMetal (input_by given.now)) result (option_or (placed_fault (input_by given.now)) (wired_fault (input_by given.now))) }
{
    check_placed(alloc, given, known)?;
    metal_of_wires(alloc, given, known, on)
}

/// The sections of DEF: its vias, what is placed, and the wiring. Answers the vias that wiring may
/// name, and the rectangles of the wiring.
fn read_sections(
    alloc: Global,
    given: &Given,
    known: &Lookup,
) -> Result<(Seq<Via>, WireMetal), BuildError>
    requires { IsKnown given.now known.now }
    ensures { Finds (AreWires (input_by given.now)) result (section_fault (input_by given.now)) }
{
    let on = names_of_wires(alloc, given)?;
    let metal = placed_and_wired(alloc, given, known, &on)?;
    Ok((on.tech.vias, metal))
}

/// Units, names, wiring, layers without tracks and guides, and how many routing layers there are.
/// Answers the vias that wiring may name, and the rectangles of the wiring.
pub fn check_names(
    alloc: Global,
    given: &Given,
    known: &Lookup,
) -> Result<(Seq<Via>, WireMetal), BuildError>
    requires { IsKnown given.now known.now }
    ensures { Finds (AreWires (input_by given.now)) result (name_fault (input_by given.now)) }
{
    check_units(alloc, given, known)?;
    let read = read_sections(alloc, given, known)?;
    check_levels_and_guides(alloc, given, known)?;
    Ok(read)
}
