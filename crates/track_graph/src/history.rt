//! Blocks of the journal, and the state that they lead to.
use rt_base::{Point, Seq, Walk};

/// One step of the router.
#[derive(Debug, Drop)]
pub enum Block {
    /// A wire of a net, which joins the pin of its finish.
    Wire {
        net: u32,
        walk: Walk,
    },
    /// No wire of the net can be found.
    Stuck {
        net: u32,
    },
    /// A wire of a net for which other nets lose theirs; the soft walk says which.
    RipFor {
        net: u32,
        soft: Walk,
        ripped: Seq<u32>,
        walk: Walk,
    },
}

/// What stands of a net: its walks, which of its pins are joined, how often it was ripped, and
/// whether it is marked stuck.
#[derive(Debug, Drop)]
pub struct NetState {
    pub walks: Seq<Walk>,
    pub joined: Seq<bool>,
    pub rips: u8,
    pub stuck: bool,
}

/// What stands of each net, in the order of their numbers.
#[derive(Debug, Drop)]
pub struct State {
    pub nets: Seq<NetState>,
}

/// A straight run on a level, or a via with its number at a point.
#[derive(Clone, Copy, Debug, PartialEq, Eq)]
pub enum Stroke {
    Run { level: u8, a: Point, b: Point },
    Via { via: u32, point: Point },
}
