//! The nets.
ghost use Rattle.std.specs.Prelude.{◌≡◌, ◌<◌, ◌≤◌, ◌^◌, length, IfOk, All};
ghost use Rattle.std.specs.List.{AllZip, enumerate_from};
ghost use Rattle.track_graph.specs.Designs.{IsPin};
ghost use Rattle.build.specs.Built.{is_unguided as leaves_out, kind_of, whole_guide, guide_of, IsPinOf};
ghost use Rattle.build.specs.Ground.{IsGround, IsBuiltNet, input_on, system_on};
ghost use Rattle.build.specs.TrackLines.{routing_layers};
ghost use Rattle.def_text.specs.Defs.{IsDefNet};
ghost use Rattle.build.specs.LookUps.{connected_rects};

use crate::copies::copy_name;
use crate::given::Given;
use crate::lookup::Lookup;
use crate::pin_names::rects_of;
use cells::is_io;
use def_text::DefNet;
use net_guides::NetGuides;
use pin_access::entries;
use rt_base::{Layer, LayerNo, Memory, Name, Rect, Seq, Tech};
use std::alloc::Global;
use track_graph::{Net, NetKind, Pin, Tracks};

/// What nets stand on: what the design is built of, what is found by name, guides by name, the
/// technology and the tracks.
#[derive(Clone, Copy)]
pub struct Ground<'a, 'b> {
    pub given: &'b Given<'a>,
    pub known: &'b Lookup,
    pub guides: &'b NetGuides,
    pub tech: &'b Tech,
    pub tracks: &'b Tracks,
}

/// Whether there are guides, and none for the net of this name.
fn is_unguided(on: &Ground, name: &[u8]) -> bool
    requires { IsGround on.now }
    ensures { result ≡ leaves_out (input_on on.now).guides name.now }
{
    match on.given.guides {
        None => false,
        Some(_) => !on.guides.is_guided(name),
    }
}

/// The kind of a net.
fn kind(on: &Ground, net: &DefNet) -> NetKind
    requires { IsGround on.now }
    ensures { result ≡ kind_of (input_on on.now).guides net.now }
{
    if net.wiring.len() > 0 {
        return NetKind::Prewired;
    }
    if net.pins.len() < 2 {
        return NetKind::Single;
    }
    if is_unguided(on, net.name.bytes()) {
        return NetKind::Unguided;
    }
    NetKind::Routable
}

/// The die on each level.
fn die_on_levels(alloc: Global, die: Rect, layers: &[Layer]) -> Result<Seq<(u8, Rect)>, Memory>
    requires { length (routing_layers layers.now) ≤ 16 }
    ensures { IfOk result (λ s. s ≡ whole_guide die layers.now) }
{
    let mut boxes = Seq::new(alloc);
    let mut level = 0u8;
    for layer in layers {
        if layer.routing {
            boxes.push((level, die))?;
            level += 1;
        }
    }
    Ok(boxes)
}

/// The guide of the net of a name: the die on each level, where there are no guides.
fn guide(alloc: Global, on: &Ground, name: &[u8]) -> Result<Seq<(u8, Rect)>, Memory>
    requires { IsGround on.now }
    ensures { IfOk result (λ s. s ≡ guide_of (input_on on.now).def.die on.now.tech.now.layers (input_on on.now).guides name.now) }
{
    match on.given.guides {
        None => die_on_levels(alloc, on.given.def.die, on.tech.layers.as_slice()),
        Some(guides) => on.guides.boxes(alloc, guides, name),
    }
}

/// The rectangles of the pin of a connection, where it is placed.
pub fn connected(
    alloc: Global,
    on: &Ground,
    connection: &(Name, Name),
) -> Result<Vec<(LayerNo, Rect)>, Memory>
    requires { IsGround on.now }
    ensures { IfOk result (λ v. v.items ≡ connected_rects (input_on on.now).lef (input_on on.now).def connection.now) }
{
    if is_io(connection) {
        let pins = on.given.def.pins.as_slice();
        let said = rects_of(&on.known.pins, pins, connection.1.bytes());
        return on.known.layers.metals(alloc, said);
    }
    let macros = on.given.lef.macros.as_slice();
    let components = on.given.def.components.as_slice();
    on.known
        .cells
        .pin_rects(alloc, macros, components, connection)
}

/// A pin of a net, named by a connection.
fn pin(alloc: Global, on: &Ground, number: u32, connection: &(Name, Name)) -> Result<Pin, Memory>
    requires { IsGround on.now }
    ensures said { IfOk result (IsPinOf (input_on on.now).lef (input_on on.now).def (system_on on.now) (number, connection.now)) }
    ensures fits { IfOk result (IsPin (system_on on.now) number) }
{
    let rects = connected(alloc, on, connection)?;
    let found = entries(alloc, on.tech, on.tracks, on.given.def.die, number, &rects)?;
    Ok(Pin {
        comp: copy_name(alloc, &connection.0)?,
        pin: copy_name(alloc, &connection.1)?,
        rects: Seq::from_vec(rects),
        entries: Seq::from_vec(found),
    })
}

/// The pins of a net.
fn pins(alloc: Global, on: &Ground, connections: &[(Name, Name)]) -> Result<Seq<Pin>, Memory>
    requires ground { IsGround on.now }
    requires count { length connections.now < 2 ^ 32 }
    ensures said { IfOk result (AllZip (IsPinOf (input_on on.now).lef (input_on on.now).def (system_on on.now)) (enumerate_from 0 connections.now)) }
    ensures fits { IfOk result (λ s. All (λ p. IsPin (system_on on.now) p.0 p.1) (enumerate_from 0 s)) }
{
    let mut pins = Seq::new(alloc);
    for (number, connection) in connections.iter().enumerate() {
        pins.push(pin(alloc, on, number as u32, connection)?)?;
    }
    Ok(pins)
}

/// A net.
fn net(alloc: Global, on: &Ground, said: &DefNet) -> Result<Net, Memory>
    requires ground { IsGround on.now }
    requires said { IsDefNet said.now }
    ensures { IfOk result (IsBuiltNet (input_on on.now) (system_on on.now) said.now) }
{
    Ok(Net {
        name: copy_name(alloc, &said.name)?,
        pins: pins(alloc, on, said.pins.as_slice())?,
        guide: guide(alloc, on, said.name.bytes())?,
        kind: kind(on, said),
        close: said.close,
    })
}

/// The nets.
pub fn nets(alloc: Global, on: &Ground, said: &[DefNet]) -> Result<Seq<Net>, Memory>
    requires ground { IsGround on.now }
    requires said { All IsDefNet said.now }
    ensures { IfOk result (AllZip (IsBuiltNet (input_on on.now) (system_on on.now)) said.now) }
{
    let mut nets = Seq::new(alloc);
    for each in said {
        nets.push(net(alloc, on, each)?)?;
    }
    Ok(nets)
}
