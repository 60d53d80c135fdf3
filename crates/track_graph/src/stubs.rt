//! Stubs: from the nearest point of a pin's rectangle to a vertex.
ghost use Rattle.std.specs.Prelude.{◌≡◌, ◌<◌, length};
ghost use Rattle.track_graph.specs.Designs.{IsDesign};
ghost use Rattle.track_graph.specs.Entries.{corner_of, rect_of, rects_of, entry_part};
ghost use Rattle.rt_base.specs.Geometry.{nearest_point};
ghost use Rattle.track_graph.specs.NetWalks.{IsNetEntry};

use crate::design::Design;
use rt_base::{Entry, EntryKind, Point, Rect, Vertex};

/// A rectangle of a pin of a net, by their numbers.
fn pin_rect(design: &Design, net: u32, pin: u32, rect: u32) -> Rect
    requires { rect < length (rects_of design.now net pin) }
    ensures { result ≡ rect_of design.now net pin rect }
{
    let net = &design.nets.as_slice()[net as usize];
    let pin = &net.pins.as_slice()[pin as usize];
    pin.rects.as_slice()[rect as usize].1
}

/// The point at which a stub to a vertex's point begins: the nearest point of a pin's rectangle,
/// by the numbers of the net, of its pin and of the pin's rectangle. Takes no memory.
pub fn stub_point(design: &Design, net: u32, pin: u32, rect: u32, to: Point) -> Point
    requires { rect < length (rects_of design.now net pin) }
    ensures { result ≡ nearest_point (rect_of design.now net pin rect) to }
{
    pin_rect(design, net, pin, rect).nearest(to)
}

/// Where a stub from a point to a vertex turns.
pub(crate) fn corner(from: Point, v: Vertex) -> Point
    ensures { result ≡ corner_of from v }
{
    Point {
        x: v.point.x,
        y: from.y,
    }
}

/// What an entry of a net costs by itself: 4 for each unit of a stub. Takes no memory.
pub fn entry_cost(design: &Design, net: u32, entry: &Entry) -> u64
    requires design { IsDesign design.now }
    requires entry { IsNetEntry design.now net entry.now }
    ensures { result ≡ (entry_part design.now net entry.now).0 }
{
    match entry.kind {
        EntryKind::Pin { .. } => 0,
        EntryKind::Stub { pin, rect } => {
            let from = stub_point(design, net, pin, rect, entry.vertex.point);
            4 * from.distance(entry.vertex.point)
        }
        EntryKind::Wire => 0,
    }
}
