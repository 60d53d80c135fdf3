//! Places, intervals, what joins them, and labels.
use rt_base::Span;

/// An interval of an arena, counted from 0 in the order of adding.
#[derive(Clone, Copy, Debug, PartialEq, Eq, PartialOrd, Ord)]
pub struct IntervalNo(pub u64);

/// A label of an arena, counted from 0 in the order of adding.
#[derive(Clone, Copy, Debug, PartialEq, Eq, PartialOrd, Ord)]
pub struct LabelNo(pub u64);

/// A coordinate of an interval.
#[derive(Clone, Copy, Debug, PartialEq, Eq, PartialOrd, Ord)]
pub struct Place {
    pub interval: IntervalNo,
    pub coord: i64,
}

/// The coordinates of a span on the line of a level, in DEF database units. A step of one costs the
/// factor. On a horizontal line the coordinate is x and `line` is y, on another line the coordinate
/// is y and `line` is x.
#[derive(Clone, Copy, Debug, PartialEq, Eq)]
pub struct Interval {
    pub level: u8,
    pub horizontal: bool,
    pub line: i64,
    pub span: Span,
    pub factor: u64,
}

/// A point bridge: two places that are joined at a cost. The tag is the caller's own.
#[derive(Clone, Copy, Debug, PartialEq, Eq)]
pub struct Bridge {
    pub a: Place,
    pub b: Place,
    pub cost: u64,
    pub tag: u32,
}

/// Two intervals that are joined, at a cost, at each coordinate of a span.
#[derive(Clone, Copy, Debug, PartialEq, Eq)]
pub struct Run {
    pub a: IntervalNo,
    pub b: IntervalNo,
    pub span: Span,
    pub cost: u64,
}

/// How a label's place was reached: as the source with this number, by a slide along its own
/// interval, over the point bridge with this number, or over a run. Before a bridge or a run there
/// may be a slide along the interval that was left. Numbers count from 0.
#[derive(Clone, Copy, Debug, PartialEq, Eq)]
pub enum By {
    Source(u64),
    Slide,
    Point(u64),
    Run,
}

/// A place, what a walk from a source to it costs, the source's cost included, how it was reached,
/// and from which label. A source has no such label.
#[derive(Clone, Copy, Debug, PartialEq, Eq)]
pub struct Label {
    pub place: Place,
    pub dist: u64,
    pub by: By,
    pub origin: Option<LabelNo>,
}
