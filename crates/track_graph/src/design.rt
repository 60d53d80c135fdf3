//! A design: what the texts of a chip say, ready to be routed.
use rt_base::{Entry, Grid, LayerNo, Name, Rect, Seq, Shape, Tech};

/// What the user chose.
#[derive(Clone, Copy, Debug, PartialEq, Eq)]
pub struct Options {
    /// What a via costs, in DEF database units of wire.
    pub via: u64,
    /// The side of a tile.
    pub tile: i64,
    /// How often a net may be ripped.
    pub rips: u8,
}

/// The tracks of each level, bottom up: the lines in the level's own direction, ascending, and the
/// largest step of its track statements (DEF TRACKS).
#[derive(Debug, Drop)]
pub struct Tracks {
    pub lines: Seq<Seq<i64>>,
    pub largest_step: Seq<i64>,
}

/// A pin of a net: its component (or `PIN`) and its own name, its placed rectangles, and the
/// entries at which walks start and finish.
#[derive(Debug, Drop)]
pub struct Pin {
    pub comp: Name,
    pub pin: Name,
    pub rects: Seq<(LayerNo, Rect)>,
    pub entries: Seq<Entry>,
}

/// What becomes of a net: it has wiring already, it has fewer than two pins, it has no guide, or
/// else it is to be routed.
#[derive(Clone, Copy, Debug, PartialEq, Eq)]
pub enum NetKind {
    Routable,
    Prewired,
    Unguided,
    Single,
}

/// A net of DEF NETS: its guide is a list of closed boxes, each on a level, and `close` is the place
/// of its closing `;` in the DEF text.
#[derive(Debug, Drop)]
pub struct Net {
    pub name: Name,
    pub pins: Seq<Pin>,
    pub guide: Seq<(u8, Rect)>,
    pub kind: NetKind,
    pub close: u32,
}

/// A design. Nets are numbered from 0 in file order. `skipped` counts the statements that are read
/// and not used, by the layers that LEF names in file order, then `-`, then `NETS`.
#[derive(Debug, Drop)]
pub struct Design {
    pub tech: Tech,
    pub tracks: Tracks,
    pub grid: Grid,
    pub nets: Seq<Net>,
    pub fixed: Seq<Shape>,
    pub options: Options,
    pub skipped: Seq<(Name, u32)>,
}
