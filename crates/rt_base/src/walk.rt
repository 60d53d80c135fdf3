//! Vertices, edges, entries and walks of the track graph.
use crate::geometry::Point;
use crate::seq::Seq;

/// A level, which is a routing layer counted from 0, bottom up, and a point on it.
#[derive(Clone, Copy, Debug, PartialEq, Eq, PartialOrd, Ord, Hash)]
pub struct Vertex {
    pub level: u8,
    pub point: Point,
}

/// How an edge leads on: along a track, or by the via with this number of the technology.
#[derive(Clone, Copy, Debug, PartialEq, Eq)]
pub enum EdgeKind {
    Along,
    Via(u32),
}

/// An edge to a vertex, from a vertex that is known beside it.
#[derive(Clone, Copy, Debug, PartialEq, Eq)]
pub struct Edge {
    pub kind: EdgeKind,
    pub to: Vertex,
}

/// How a walk begins or ends: at a pin of its net, by a stub from a rectangle of a pin, or on
/// another wire of its net. Pins of a net and rectangles of a pin count from 0.
#[derive(Clone, Copy, Debug, PartialEq, Eq)]
pub enum EntryKind {
    Pin { pin: u32 },
    Stub { pin: u32, rect: u32 },
    Wire,
}

/// Where a walk begins or ends.
#[derive(Clone, Copy, Debug, PartialEq, Eq)]
pub struct Entry {
    pub vertex: Vertex,
    pub kind: EntryKind,
}

/// A wire of a net: an entry, edges that follow each other from its vertex on, and the entry at
/// whose vertex they end.
#[derive(Debug, Drop)]
pub struct Walk {
    pub start: Entry,
    pub edges: Seq<Edge>,
    pub finish: Entry,
}
