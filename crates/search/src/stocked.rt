//! A view as what a search asks for shapes.
ghost use Rattle.std.specs.Prelude.{◌≡◌, ◌&&◌, IfOk, filter, flat_map};
ghost use Rattle.std.specs.List.{list_any};
ghost use Rattle.std.specs.List.Sorted.{IsPermutation};
ghost use Rattle.search.specs.Views.{rips_in, view_shapes};
ghost use Rattle.search.specs.declared.piece.Piece.{Piece as PieceOf};
ghost use Rattle.shape_grid.specs.Stores.{is_touching};

use crate::piece::Piece;
use crate::view::View;
use plain_route::Stock;
use rt_base::{LayerNo, Memory, Rect, Shape};
use shape_grid::{ShapeStore, ShapeTest};
use std::alloc::Global;

/// The shapes of some pieces that touch a rectangle of a layer, piece by piece.
fn near_in(
    alloc: Global,
    pieces: &[Piece],
    layer: LayerNo,
    rect: &Rect,
) -> Result<Vec<Shape>, Memory>
    ensures { IfOk result (λ found. IsPermutation (filter (is_touching layer rect.now) (flat_map (λ (p : PieceOf). p.tile) pieces.now)) found.items) }
{
    let mut found = Vec::new(alloc);
    for piece in pieces {
        let near = piece.tile.near(alloc, layer, rect)?;
        found.extend_from_slice(near.as_slice())?;
    }
    Ok(found)
}

/// Whether some shape of some piece touches a rectangle and passes a test.
fn any_in<T: ShapeTest>(pieces: &[Piece], layer: LayerNo, rect: &Rect, test: &T) -> bool
    ensures { result ≡ list_any (λ (p : PieceOf). list_any (λ s. is_touching layer rect.now s && T.verdict test.now s) p.tile) pieces.now }
{
    pieces.iter().any(|p| p.tile.any_near(layer, rect, test))
}

impl Stock for View {
    ghost shapes = { view_shapes };

    ghost rips_of = { rips_in };

    fn rips(&self, net: u32) -> u8 {
        match self.rips.get(net) {
            Some(rips) => *rips,
            None => 0,
        }
    }

    fn near(&self, alloc: Global, layer: LayerNo, rect: &Rect) -> Result<Vec<Shape>, Memory> {
        let mut found = near_in(alloc, self.pieces.as_slice(), layer, rect)?;
        found.sort_unstable();
        Ok(found)
    }

    fn any_near<T: ShapeTest>(&self, layer: LayerNo, rect: &Rect, test: &T) -> bool {
        any_in(self.pieces.as_slice(), layer, rect, test)
    }
}
