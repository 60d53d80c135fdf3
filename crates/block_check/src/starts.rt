//! Where walks of a net may start and finish.
ghost use Rattle.std.specs.Prelude.{◌≡◌, ◌↔◌, Any, Contains, IsTrue, slice_get, Some};
ghost use Rattle.rt_base.specs.declared.walk.EntryKind.TheVariants.{Pin as AtPin, Stub};
ghost use Rattle.track_graph.specs.Designs.{IsDesign};
ghost use Rattle.track_graph.specs.Entries.{entries_of, pin_of};
ghost use Rattle.track_graph.specs.Searches.{IsFinish, IsStart};
ghost use Rattle.rt_base.specs.declared.walk.Edge.{Edge};
ghost use Rattle.rt_base.specs.declared.walk.Entry.{Entry};
ghost use Rattle.track_graph.specs.Walks.{vertices_of};
ghost use Rattle.block_check.specs.Starts.{IsAtPin, IsOnWalks};

use rt_base::{Edge, Entry, EntryKind, Vertex, Walk};
use track_graph::{Design, NetState};

/// The pin that an entry is of.
fn pin_of(kind: EntryKind) -> Option<u32>
    ensures { result ≡ pin_of kind }
{
    match kind {
        EntryKind::Pin { pin } => Some(pin),
        EntryKind::Stub { pin, .. } => Some(pin),
        EntryKind::Wire => None,
    }
}

/// The entries of a pin of a net, none where there is no such pin.
fn entries_of(design: &Design, net: u32, pin: u32) -> &[Entry]
    ensures { result.now ≡ entries_of design.now net pin }
{
    let Some(net) = design.nets.as_slice().get(net as usize) else {
        return &[];
    };
    match net.pins.as_slice().get(pin as usize) {
        Some(pin) => pin.entries.as_slice(),
        None => &[],
    }
}

/// Whether there is a pin with this number, and it is joined as is wanted.
fn is_joined_as(joined: &[bool], pin: u32, wanted: bool) -> bool
    ensures { IsTrue result ↔ (slice_get joined.now pin ≡ Some wanted) }
{
    match joined.get(pin as usize) {
        Some(joined) => *joined == wanted,
        None => false,
    }
}

/// Whether a kind of entry is that of a pin.
fn is_pin(kind: EntryKind, number: u32) -> bool
    ensures { IsTrue result ↔ (kind ≡ AtPin number) }
{
    match kind {
        EntryKind::Pin { pin } => pin == number,
        EntryKind::Stub { .. } => false,
        EntryKind::Wire => false,
    }
}

/// Whether a kind of entry is that of a stub from a rectangle of a pin.
fn is_stub(kind: EntryKind, number: u32, from: u32) -> bool
    ensures { IsTrue result ↔ (kind ≡ Stub number from) }
{
    match kind {
        EntryKind::Pin { .. } => false,
        EntryKind::Stub { pin, rect } => {
            if pin != number {
                return false;
            }
            rect == from
        }
        EntryKind::Wire => false,
    }
}

/// Whether two kinds of entry are the same.
fn is_same_kind(a: EntryKind, b: EntryKind) -> bool
    ensures { IsTrue result ↔ (a ≡ b) }
{
    match a {
        EntryKind::Pin { pin } => is_pin(b, pin),
        EntryKind::Stub { pin, rect } => is_stub(b, pin, rect),
        EntryKind::Wire => b == EntryKind::Wire,
    }
}

/// Whether two entries are the same.
fn is_same(a: &Entry, b: &Entry) -> bool
    ensures { IsTrue result ↔ (a.now ≡ b.now) }
{
    if a.vertex != b.vertex {
        return false;
    }
    is_same_kind(a.kind, b.kind)
}

/// Whether an entry is among these.
fn is_among(entries: &[Entry], entry: &Entry) -> bool
    ensures { IsTrue result ↔ Any (λ (e : Entry). e ≡ entry.now) entries.now }
{
    entries.iter().any(|e| is_same(e, entry))
}

/// Whether a pin of a net is joined as is wanted, and has an entry.
fn is_at(design: &Design, net: u32, joined: &[bool], pin: u32, wanted: bool, entry: &Entry) -> bool
    ensures { IsTrue result ↔ ((slice_get joined.now pin ≡ Some wanted) × Contains (entries_of design.now net pin) entry.now) }
{
    if !is_joined_as(joined, pin, wanted) {
        return false;
    }
    is_among(entries_of(design, net, pin), entry)
}

/// Whether an entry is one of a pin of a net that is joined as is wanted.
fn is_at_pin(design: &Design, net: u32, joined: &[bool], wanted: bool, entry: &Entry) -> bool
    requires { IsDesign design.now }
    ensures { IsTrue result ↔ IsAtPin design.now net joined.now wanted entry.now }
{
    match pin_of(entry.kind) {
        Some(pin) => is_at(design, net, joined, pin, wanted, entry),
        None => false,
    }
}

/// Whether one of these edges ends at a vertex.
fn ends_at(edges: &[Edge], vertex: Vertex) -> bool
    ensures { IsTrue result ↔ Any (λ (e : Edge). e.to ≡ vertex) edges.now }
{
    edges.iter().any(|e| e.to == vertex)
}

/// Whether a walk comes by a vertex.
fn comes_by(walk: &Walk, vertex: Vertex) -> bool
    ensures { IsTrue result ↔ Contains (vertices_of walk.now.start.vertex walk.now.edges) vertex }
{
    if walk.start.vertex == vertex {
        return true;
    }
    ends_at(walk.edges.as_slice(), vertex)
}

/// Whether one of these walks comes by a vertex.
fn is_on_walks(walks: &[Walk], vertex: Vertex) -> bool
    ensures { IsTrue result ↔ IsOnWalks walks.now vertex }
{
    walks.iter().any(|walk| comes_by(walk, vertex))
}

/// Whether a walk of a net may start at an entry, by what stands of the net.
pub(crate) fn is_start(design: &Design, net: u32, standing: &NetState, entry: &Entry) -> bool
    requires { IsDesign design.now }
    ensures { IsTrue result ↔ IsStart design.now net standing.now entry.now }
{
    if is_at_pin(design, net, standing.joined.as_slice(), true, entry) {
        return true;
    }
    if entry.kind != EntryKind::Wire {
        return false;
    }
    is_on_walks(standing.walks.as_slice(), entry.vertex)
}

/// Whether a walk of a net may finish at an entry, by what stands of the net.
pub(crate) fn is_finish(design: &Design, net: u32, standing: &NetState, entry: &Entry) -> bool
    requires { IsDesign design.now }
    ensures { IsTrue result ↔ IsFinish design.now net standing.now entry.now }
{
    is_at_pin(design, net, standing.joined.as_slice(), false, entry)
}
