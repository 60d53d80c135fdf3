//! Tests of shapes by whose they are.
ghost use Rattle.std.specs.Prelude.{◌≡◌, ◌&&◌};
ghost use Rattle.legality.specs.Rules.{is_other};

use rt_base::{Owner, Shape};
use shape_grid::ShapeTest;

/// Passes the shapes of every owner but one net: what forbids this net where all wires do.
#[derive(Drop)]
pub struct OtherOwner {
    pub net: u32,
}

impl ShapeTest for OtherOwner {
    ghost verdict = { λ t s. is_other t.net s };

    fn passes(&self, shape: &Shape) -> bool {
        shape.owner != Owner::Net(self.net)
    }
}

/// Passes the shapes of every owner but one net that pass another test: the forbidding ones of a
/// reading, or the dear ones.
#[derive(Drop)]
pub struct Others<'a, T> {
    pub net: u32,
    pub test: &'a T,
}

impl<'a, T: ShapeTest> ShapeTest for Others<'a, T> {
    ghost verdict = { λ t s. is_other t.net s && T.verdict t.test.now s };

    fn passes(&self, shape: &Shape) -> bool {
        shape.owner != Owner::Net(self.net) && self.test.passes(shape)
    }
}
