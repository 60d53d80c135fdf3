//! Where walks of a net may start and finish.
ghost use Rattle.std.specs.Prelude.{◌≡◌, ◌++◌, length, OnOk, IfOk};
ghost use Rattle.track_graph.specs.Entries.{pins_of};
ghost use Rattle.track_graph.specs.Searches.{IsStart, IsFinish};
ghost use Rattle.plain_route.specs.Ground.{IsGround};
ghost use Rattle.plain_route.specs.Stops.{on_wire, ends_of, entries_on, wanted_entries, pin_entries, wire_entries, AreEntries};

use rt_base::{Edge, Entry, EntryKind, Memory, Seq, Vertex, Walk};
use std::alloc::Global;
use track_graph::{Design, NetState, Pin};

/// Adds all these entries.
fn add_entries(entries: &mut Seq<Entry>, more: &[Entry]) -> Result<(), Memory>
    ensures { OnOk result (entries.new ≡ entries.old ++ more.now) }
{
    entries.items.extend_from_slice(more)?;
    Ok(())
}

/// Adds the entries of a pin if it is joined, or if it isn't, as is wanted.
fn add_pin(entries: &mut Seq<Entry>, joined: bool, wanted: bool, pin: &Pin) -> Result<(), Memory>
    ensures { OnOk result (entries.new ≡ entries.old ++ wanted_entries wanted joined pin.now) }
{
    if joined != wanted {
        return Ok(());
    }
    add_entries(entries, pin.entries.as_slice())
}

/// The entries of those pins that are joined, or of those that aren't.
fn pin_entries(
    alloc: Global,
    pins: &[Pin],
    joined: &[bool],
    wanted: bool,
) -> Result<Seq<Entry>, Memory>
    requires { length joined.now ≡ length pins.now }
    ensures { IfOk result (λ entries. entries ≡ pin_entries wanted joined.now pins.now) }
{
    let mut entries = Seq::new(alloc);
    for (i, pin) in pins.iter().enumerate() {
        add_pin(&mut entries, joined[i], wanted, pin)?;
    }
    Ok(entries)
}

/// The entry on a wire at a vertex.
fn on_wire(vertex: Vertex) -> Entry
    ensures { result ≡ on_wire vertex }
{
    Entry {
        vertex,
        kind: EntryKind::Wire,
    }
}

/// Adds the entries at the ends of these edges.
fn add_ends(entries: &mut Seq<Entry>, edges: &[Edge]) -> Result<(), Memory>
    ensures { OnOk result (entries.new ≡ entries.old ++ ends_of edges.now) }
{
    for e in edges {
        entries.push(on_wire(e.to))?;
    }
    Ok(())
}

/// Adds the entries at the vertices of a walk.
fn add_walk(entries: &mut Seq<Entry>, walk: &Walk) -> Result<(), Memory>
    ensures { OnOk result (entries.new ≡ entries.old ++ entries_on walk.now) }
{
    entries.push(on_wire(walk.start.vertex))?;
    add_ends(entries, walk.edges.as_slice())
}

/// Adds the entries at the vertices of these walks.
fn add_walks(entries: &mut Seq<Entry>, walks: &[Walk]) -> Result<(), Memory>
    ensures { OnOk result (entries.new ≡ entries.old ++ wire_entries walks.now) }
{
    for walk in walks {
        add_walk(entries, walk)?;
    }
    Ok(())
}

/// The pins of a net.
fn pins_of(design: &Design, net: u32) -> &[Pin]
    ensures { result.now ≡ pins_of design.now net }
{
    match design.nets.as_slice().get(net as usize) {
        Some(net) => net.pins.as_slice(),
        None => &[],
    }
}

/// The entries at which a walk of a net may start: those of its joined pins, and each vertex of its
/// standing walks.
pub fn starts(
    alloc: Global,
    design: &Design,
    net: u32,
    own: &NetState,
) -> Result<Seq<Entry>, Memory>
    requires { IsGround design.now net own.now }
    ensures { IfOk result (AreEntries design.now net (IsStart design.now net own.now)) }
{
    let mut entries = pin_entries(alloc, pins_of(design, net), own.joined.as_slice(), true)?;
    add_walks(&mut entries, own.walks.as_slice())?;
    Ok(entries)
}

/// The entries at which a walk of a net may finish: those of its pins that aren't joined.
pub fn finishes(
    alloc: Global,
    design: &Design,
    net: u32,
    own: &NetState,
) -> Result<Seq<Entry>, Memory>
    requires { IsGround design.now net own.now }
    ensures { IfOk result (AreEntries design.now net (IsFinish design.now net own.now)) }
{
    pin_entries(alloc, pins_of(design, net), own.joined.as_slice(), false)
}
