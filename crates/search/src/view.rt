//! What stands on some tiles of the die.
ghost use Rattle.std.specs.Prelude.{◌≡◌, Some, IfOk};
ghost use Rattle.search.specs.Tables.{entry_of};
ghost use Rattle.search.specs.Views.{HasNet};

use crate::piece::{Piece, copy_pieces};
use crate::table::Table;
use rt_base::{Memory, Seq};
use std::alloc::Global;
use track_graph::NetState;

/// What stands on some tiles in a state: the shapes that lie on each of them, what stands of some nets,
/// and how often nets were ripped, of those at least that have a wire there. A tile stands once at most.
#[derive(Drop)]
pub struct View {
    pub pieces: Seq<Piece>,
    pub nets: Table<NetState>,
    pub rips: Table<u8>,
}

impl View {
    /// The same view once more, which stands for the same states; changes of one don't change the
    /// other. The only error is want of memory.
    pub fn copy(&self, alloc: Global) -> Result<View, Memory>
        ensures { IfOk result (λ v. v ≡ self.now) }
    {
        let pieces = copy_pieces(alloc, self.pieces.as_slice())?;
        Ok(View {
            pieces: Seq::from_vec(pieces),
            nets: self.nets.copy(alloc)?,
            rips: self.rips.copy(alloc)?,
        })
    }

    /// What stands of a net of the view. Takes no memory.
    pub fn of_net(&self, net: u32) -> &NetState
        requires { HasNet self.now net }
        ensures { entry_of self.now.nets net ≡ Some result.now }
    {
        let Some(own) = self.nets.get(net) else {
            unreachable!()
        };
        own
    }
}
