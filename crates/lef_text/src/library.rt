//! What is read so far.
use crate::lef::Macro;
use rt_base::{Layer, LayerNo, Name, Point, Rect, Seq, SpacingTable, Via};
use rt_forms::Names;

/// What is read of a text so far.
#[derive(Drop)]
pub struct Library {
    pub units: u32,
    pub layers: Seq<Layer>,
    pub vias: Seq<Via>,
    pub macros: Seq<Macro>,
    pub dropped: Seq<Name>,
    pub skipped: Seq<(Name, u32)>,
    /// How many sections are counted under `-`.
    pub sections: u32,
    /// The name and the direction of the uppermost routing layer; true is horizontal.
    pub top: Option<(Name, bool)>,
    pub layer_names: Names,
    /// The number of each layer of `layer_names`; None where it is dropped.
    pub numbers: Seq<Option<LayerNo>>,
    pub via_names: Names,
    pub macro_names: Names,
}

/// LAYER TYPE.
#[derive(Clone, Copy, Debug, PartialEq, Eq)]
pub enum LayerType {
    Routing,
    Cut,
    Other,
}

/// The lines of a routing or cut layer so far.
#[derive(Drop)]
pub struct LayerLines {
    pub name: Name,
    pub routing: bool,
    /// The last DIRECTION; true is horizontal.
    pub horizontal: Option<bool>,
    /// The last WIDTH.
    pub width: Option<i64>,
    /// The greatest of the plain spacings and of the table's first entry.
    pub spacing: Option<i64>,
    pub table: SpacingTable,
    pub skipped: u32,
}

/// The lines of a via so far.
#[derive(Drop)]
pub struct ViaLines {
    /// The last LAYER; `Some(None)` where it is dropped.
    pub layer: Option<Option<LayerNo>>,
    pub rects: Seq<(LayerNo, Rect)>,
    pub form: FormLines,
}

/// The lines of the generated form of a via so far, None where one doesn't stand yet.
#[derive(Clone, Copy, Debug, PartialEq, Eq)]
pub struct FormLines {
    /// Whether VIARULE stands.
    pub rule: bool,
    /// CUTSIZE, x and y.
    pub cut: Option<(i64, i64)>,
    /// LAYERS: the bottom layer, the layer of the cuts and the top layer, None where it is dropped.
    pub layers: Option<(Option<LayerNo>, Option<LayerNo>, Option<LayerNo>)>,
    /// CUTSPACING, x and y.
    pub spacing: Option<(i64, i64)>,
    /// ENCLOSURE: x and y of the bottom layer, then of the top layer.
    pub enclosure: Option<(i64, i64, i64, i64)>,
    /// ROWCOL: rows and columns.
    pub array: Option<(u32, u32)>,
}

/// The lengths of a spacing table so far, and the last of them.
#[derive(Drop)]
pub struct Lengths {
    pub numbers: Seq<i64>,
    pub last: Option<i64>,
}

/// The rows of a spacing table so far, and the width of the last of them.
#[derive(Drop)]
pub struct Rows {
    pub rows: Seq<(i64, Seq<i64>)>,
    pub last: Option<i64>,
}

/// The lines of a macro so far, before it is moved by its ORIGIN.
#[derive(Drop)]
pub struct MacroLines {
    /// The last SIZE.
    pub size: Point,
    /// The last ORIGIN.
    pub origin: Point,
    pub pins: Seq<(Name, Seq<(LayerNo, Rect)>)>,
    pub pin_names: Names,
    pub obs: Seq<(LayerNo, Rect)>,
}
