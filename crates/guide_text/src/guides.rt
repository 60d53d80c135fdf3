//! What a guide text says, in database units of DEF. Lists are in the order of the text.
use rt_base::{Name, Rect, Seq};

/// The guides of nets. Each net has its boxes with the names of their layers; a box is closed. A net
/// without a box is guided and may have no wire at all.
#[derive(Debug, Drop)]
pub struct Guides {
    pub nets: Seq<(Name, Seq<(Name, Rect)>)>,
}
