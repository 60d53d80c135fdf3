//! What stands of a net: copied, and with a walk more.
ghost use Rattle.std.specs.Prelude.{◌≡◌, ◌<◌, ◌++◌, ◌∷◌, [], length, IfOk, IfSome};
ghost use Rattle.track_graph.specs.Entries.{pin_of};
ghost use Rattle.track_graph.specs.States.{join_pin};

use crate::table::Copies;
use rt_base::{Memory, Seq, Walk};
use std::alloc::Global;
use track_graph::{NetState, copy_walk};

/// Copies of these walks.
fn copy_walks(alloc: Global, walks: &[Walk]) -> Result<Seq<Walk>, Memory>
    ensures { IfOk result (λ copied. copied ≡ walks.now) }
{
    let mut copied = Seq::new(alloc);
    for walk in walks {
        copied.push(copy_walk(alloc, walk)?)?;
    }
    Ok(copied)
}

impl Copies for NetState {
    fn copy(&self, alloc: Global) -> Result<NetState, Memory> {
        let joined = Vec::from_slice(alloc, self.joined.as_slice())?;
        Ok(NetState {
            walks: copy_walks(alloc, self.walks.as_slice())?,
            joined: Seq::from_vec(joined),
            rips: self.rips,
            stuck: self.stuck,
        })
    }
}

/// A walk more, with the pin of its finish joined.
pub(crate) fn with_walk(own: NetState, walk: Walk) -> Result<NetState, Memory>
    requires { IfSome (pin_of walk.finish.kind) (λ pin. pin < length own.joined) }
    ensures { IfOk result (λ net. net ≡ record { walks = own.walks ++ walk ∷ []; joined = join_pin walk.finish.kind own.joined; rips = own.rips; stuck = own.stuck }) }
{
    let mut own = own;
    let kind = walk.finish.kind;
    own.walks.push(walk)?;
    own.join(kind);
    Ok(own)
}
