//! What a DEF text says, in its database units. Lists are in the order of the text.
use rt_base::{Name, Orient, Point, Rect, Seq};

/// What a DEF text says.
#[derive(Debug, Drop)]
pub struct Def {
    /// Database units per micron, 1 to 1,000,000.
    pub units: u32,
    pub die: Rect,
    pub tracks: Seq<TrackRow>,
    pub vias: Seq<DefVia>,
    pub components: Seq<Component>,
    pub pins: Seq<IoPin>,
    /// The rectangles of BLOCKAGES with their layers.
    pub blockages: Seq<(Name, Rect)>,
    pub special: Seq<DefNet>,
    pub nets: Seq<DefNet>,
    /// How much was read that means something but isn't used.
    pub skipped: u32,
}

/// A TRACKS statement: the lines `first`, `first + step`, .., so many as `count`. Those of `x` are
/// vertical, at these x; the others are horizontal, at these y.
#[derive(Debug, Drop)]
pub struct TrackRow {
    pub x: bool,
    pub first: i64,
    pub count: u32,
    pub step: i64,
    /// The layers that it names, as often as it names them. None where it has no LAYER: it then
    /// names every routing layer.
    pub layers: Option<Seq<Name>>,
}

/// A via of VIAS: its name, and the numbers of its first token behind the name and of its `;`.
#[derive(Debug, Drop)]
pub struct DefVia {
    pub name: Name,
    pub tokens: (u32, u32),
}

/// A component of the macro `of`, and where it is placed.
#[derive(Debug, Drop)]
pub struct Component {
    pub name: Name,
    pub of: Name,
    pub placed: Option<(Point, Orient)>,
}

/// A pin of the design, with the layers and rectangles of its placed ports, turned and moved.
#[derive(Debug, Drop)]
pub struct IoPin {
    pub name: Name,
    pub rects: Seq<(Name, Rect)>,
}

/// A net.
#[derive(Debug, Drop)]
pub struct DefNet {
    pub name: Name,
    /// Component and pin of each connection; the component of a pin of the design is `PIN`.
    pub pins: Seq<(Name, Name)>,
    /// For each option of wiring the numbers of its first token and of the one past its last.
    pub wiring: Seq<(u32, u32)>,
    /// The place of the first byte of the closing `;`.
    pub close: u32,
}
