//! What a search takes the standing wires of other nets for.
use rt_base::Seq;

/// What a search takes the standing wires of other nets for. Fixed shapes of other owners always
/// forbid, and a net's own shapes never do.
#[derive(Debug, Drop)]
pub enum Sense {
    /// All forbid.
    Hard,
    /// Those of nets that may still be ripped are dear: what comes too near to them costs eight times
    /// as much. The others forbid.
    Soft,
    /// Those of the nets with these numbers are absent. The others forbid.
    Without(Seq<u32>),
}
