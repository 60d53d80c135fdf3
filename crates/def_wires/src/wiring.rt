//! Wiring, with every point and layer resolved (DEF 5.8, Regular Wiring Statement and Special Wiring
//! Statement).
use rt_base::{LayerNo, Orient, Point, Rect, Seq};

/// Wiring: its paths in the order of the text.
#[derive(Debug, Drop)]
pub struct Wiring {
    pub paths: Seq<WirePath>,
}

/// A path. `width` is that of its wires in special wiring, from 0; in regular wiring it is None, and
/// the wires have the widths of their layers.
#[derive(Debug, Drop)]
pub struct WirePath {
    pub width: Option<i64>,
    pub steps: Seq<WireStep>,
}

/// A step of a path. `ext` is how far the wires at a point reach beyond it, where the text says so.
#[derive(Clone, Copy, Debug, PartialEq, Eq)]
pub enum WireStep {
    /// The path begins, or goes on at another place or layer.
    Start {
        layer: LayerNo,
        point: Point,
        ext: Option<i64>,
    },
    /// A wire to this point.
    Go {
        point: Point,
        ext: Option<i64>,
    },
    /// A via, by its number in the technology, at the last point.
    Via {
        via: u32,
        orient: Orient,
    },
    /// A rectangle relative to the last point, on the current layer.
    Patch {
        rect: Rect,
    },
}

/// Where a path stands after some of its steps.
#[derive(Clone, Copy, Debug, PartialEq, Eq)]
pub struct Spot {
    pub layer: LayerNo,
    pub point: Point,
    pub ext: Option<i64>,
}

/// The two routing layers on which a via has rectangles.
#[derive(Clone, Copy, Debug, PartialEq, Eq)]
pub struct Joined {
    pub lower: LayerNo,
    pub upper: LayerNo,
}
