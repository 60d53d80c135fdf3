//! What a LEF text says: layers, vias and macros.
use rt_base::{Layer, LayerNo, Name, Rect, Seq, Via};

/// A macro (LEF MACRO): its size, its pins and its obstructions, all moved by its ORIGIN, in DEF
/// units. Shapes on layers that hold none are left out. The pins and the shapes of each are in file
/// order.
#[derive(Debug, Drop)]
pub struct Macro {
    pub name: Name,
    pub w: i64,
    pub h: i64,
    pub pins: Seq<(Name, Seq<(LayerNo, Rect)>)>,
    pub obs: Seq<(LayerNo, Rect)>,
}

/// What a LEF text says, lengths in DEF units.
#[derive(Debug, Drop)]
pub struct Lef {
    /// The text's own units per micron (UNITS DATABASE MICRONS), 100 where it names none.
    pub units: u32,
    /// The ROUTING and CUT layers, in file order, which is bottom up. A layer's spacing is the
    /// greatest of 0, of its plain SPACING values and of its table's first entry.
    pub layers: Seq<Layer>,
    /// The vias in file order. `usable` is true exactly where the via says DEFAULT; whether its
    /// rectangles make it usable for routing is for the builder of the design.
    pub vias: Seq<Via>,
    /// The macros in file order.
    pub macros: Seq<Macro>,
    /// The layers of other types, in file order.
    pub dropped: Seq<Name>,
    /// How many lines and sections aren't used: for each layer in file order, of whatever type, then
    /// under the name `-`.
    pub skipped: Seq<(Name, u32)>,
}
