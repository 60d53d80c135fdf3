//! The tiles of a net.
ghost use Rattle.std.specs.Prelude.{◌≡◌, ◌⊎◌, ℕ, ◌+◌, ◌<◌, ◌≤◌, ◌*◌, ◌^◌, ℤ, pos, ◌+ℤ◌, ◌≤ℤ◌, ◌<ℤ◌, ◌↔◌, All, AllPairs, Contains, IfOk, OnOk};
ghost use Rattle.rt_base.specs.Ranges.{AreSidesWithin};
ghost use Rattle.track_graph.specs.Designs.{IsDesign, IsGrid};
ghost use Rattle.regions.specs.Spans.{InSpan, InSpans, AreFull, AreApart};
ghost use Rattle.regions.specs.Tiles.{IsTileOf, AddsMet, AreMet};

use crate::margin::halo;
use crate::spans::maximal_spans;
use rt_base::{Grid, Memory, Rect, Span};
use std::alloc::Global;
use track_graph::{Design, guide_of};

/// The number of the tile in a row and a column.
fn number(row: u64, columns: u64, column: u64) -> i64
    requires { row * columns + column < 2 ^ 32 }
    ensures { result ≡ pos (row * columns + column) }
{
    (row * columns + column) as i64
}

/// Adds the numbers of the tiles that a rectangle meets, a span for each row.
fn add_met(runs: &mut Vec<Span>, grid: &Grid, rect: &Rect) -> Result<(), Memory>
    requires { IsGrid grid.now }
    ensures { OnOk result (AddsMet grid.now rect.now runs.old.items runs.new.items) }
{
    let columns = grid.columns();
    let low = rect.low();
    let high = rect.high();
    let left = grid.column(low);
    let right = grid.column(high);
    for row in grid.row(low)..grid.row(high) + 1 {
        runs.push(Span {
            lo: number(row, columns, left),
            hi: number(row, columns, right),
        })?;
    }
    Ok(())
}

/// The numbers of the tiles that these boxes meet when they are widened.
fn met(alloc: Global, grid: &Grid, boxes: &[(u8, Rect)], halo: u64) -> Result<Vec<Span>, Memory>
    requires grid { IsGrid grid.now }
    requires boxes { All (λ b. AreSidesWithin (2 ^ 61) b.1) boxes.now }
    requires halo { halo ≤ 2 ^ 61 }
    ensures full { IfOk result (λ v. AreFull v.items) }
    ensures exact { IfOk result (λ v. (z : ℤ) → InSpans v.items z ↔ AreMet grid.now (pos halo) boxes.now z) }
{
    let mut runs = Vec::new(alloc);
    for guide_box in boxes {
        add_met(&mut runs, grid, &guide_box.1.grown(halo as i64))?;
    }
    Ok(runs)
}

/// A number of a tile.
fn tile_number(z: i64) -> u32
    requires low { pos 0 ≤ℤ z }
    requires high { z <ℤ pos (2 ^ 32) }
    ensures { pos result ≡ z }
{
    z as u32
}

/// Adds the numbers of a span.
fn add_numbers(tiles: &mut Vec<u32>, run: Span) -> Result<(), Memory>
    requires low { pos 0 ≤ℤ run.lo }
    requires high { (run.hi +ℤ pos 1) <ℤ pos (2 ^ 32) }
    requires full { run.lo ≤ℤ run.hi }
    requires below { All (λ t. pos t <ℤ run.lo) tiles.old.items }
    requires ascending { AllPairs (λ s t. s < t) tiles.old.items }
    ensures ascending { OnOk result (AllPairs (λ s t. s < t) tiles.new.items) }
    ensures exact { OnOk result ((t : ℕ) → Contains tiles.new.items t ↔ (Contains tiles.old.items t ⊎ InSpan run (pos t))) }
{
    for tile in tile_number(run.lo)..tile_number(run.hi + 1) {
        tiles.push(tile)?;
    }
    Ok(())
}

/// The numbers of these spans.
fn numbers(alloc: Global, runs: &[Span]) -> Result<Vec<u32>, Memory>
    requires low { All (λ s. pos 0 ≤ℤ s.lo) runs.now }
    requires high { All (λ s. (s.hi +ℤ pos 1) <ℤ pos (2 ^ 32)) runs.now }
    requires full { AreFull runs.now }
    requires apart { AreApart runs.now }
    ensures ascending { IfOk result (λ v. AllPairs (λ s t. s < t) v.items) }
    ensures exact { IfOk result (λ v. (t : ℕ) → Contains v.items t ↔ InSpans runs.now (pos t)) }
{
    let mut tiles = Vec::new(alloc);
    for run in runs {
        add_numbers(&mut tiles, *run)?;
    }
    Ok(tiles)
}

/// The tiles that a box of the net's guide meets, whatever its level, when it is widened by the
/// halo, ascending. A net without a box has tile 0 alone, and a net that the design lacks has none.
pub fn tiles_of(alloc: Global, design: &Design, net: u32) -> Result<Vec<u32>, Memory>
    requires { IsDesign design.now }
    ensures ascending { IfOk result (λ v. AllPairs (λ s t. s < t) v.items) }
    ensures exact { IfOk result (λ v. (tile : ℕ) → Contains v.items tile ↔ IsTileOf design.now net tile) }
{
    if net as usize >= design.nets.len() {
        return Ok(Vec::new(alloc));
    }
    let boxes = guide_of(design, net);
    if boxes.is_empty() {
        let mut first = Vec::new(alloc);
        first.push(0)?;
        return Ok(first);
    }
    let runs = met(alloc, &design.grid, boxes, halo(design))?;
    let runs = maximal_spans(alloc, runs)?;
    numbers(alloc, runs.as_slice())
}
