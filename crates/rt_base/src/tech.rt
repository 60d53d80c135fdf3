//! Layers, vias and shapes: what the technology of a chip says (LEF LAYER and VIA).
use crate::geometry::Rect;
use crate::name::Name;
use crate::seq::Seq;

/// A routing or cut layer, counted from 0, bottom up.
#[derive(Clone, Copy, Debug, PartialEq, Eq, PartialOrd, Ord)]
pub struct LayerNo(pub u32);

/// Whose a shape is: a net's, by its number in DEF NETS, or nobody's.
#[derive(Clone, Copy, Debug, PartialEq, Eq, PartialOrd, Ord)]
pub enum Owner {
    Net(u32),
    Nobody,
}

/// A rectangle of metal or of a cut on one layer. `fixed` is true for shapes of the input and false
/// for routed ones.
#[derive(Clone, Copy, Debug, PartialEq, Eq, PartialOrd, Ord)]
pub struct Shape {
    pub layer: LayerNo,
    pub rect: Rect,
    pub owner: Owner,
    pub fixed: bool,
}

/// A parallel run table of spacings (LEF SPACINGTABLE PARALLELRUNLENGTH), empty where there is none.
/// Each row is a width and, for each of the lengths, a spacing.
#[derive(Debug, Drop)]
pub struct SpacingTable {
    pub lengths: Seq<i64>,
    pub rows: Seq<(i64, Seq<i64>)>,
}

/// A routing or cut layer. `width` and `horizontal` are used on routing layers alone.
/// `spacing` is the greatest of the plain spacings and of the first entry of the table.
#[derive(Debug, Drop)]
pub struct Layer {
    pub name: Name,
    pub routing: bool,
    pub horizontal: bool,
    pub width: i64,
    pub spacing: i64,
    pub table: SpacingTable,
}

/// A via: its rectangles round (0, 0), each on a layer, and whether routing may use it.
#[derive(Debug, Drop)]
pub struct Via {
    pub name: Name,
    pub usable: bool,
    pub rects: Seq<(LayerNo, Rect)>,
}

/// The technology: its routing and cut layers, bottom up, and its vias in file order.
#[derive(Debug, Drop)]
pub struct Tech {
    pub layers: Seq<Layer>,
    pub vias: Seq<Via>,
}
