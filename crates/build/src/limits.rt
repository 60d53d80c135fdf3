//! Counts, each against its most.
ghost use Rattle.std.specs.Prelude.{◌≡◌, ◌≤◌, ◌≤ℤ◌, ◌*◌, ◌^◌, pos, length, sum_by};
ghost use Rattle.build.specs.declared.error.Limited.TheVariants.{Tracks as OfTracks};
ghost use Rattle.rt_base.specs.Tiles.{columns_of, rows_of};
ghost use Rattle.build.specs.Built.{fixed_of};
ghost use Rattle.build.specs.Faults.{first_by, lines_said, limit_fault, farthest, largest_coordinate, usable_count, count_fault, met_count, size_by};
ghost use Rattle.build.specs.Indexes.{Tells};
ghost use Rattle.build.specs.Inputs.{input_by};
ghost use Rattle.build.specs.TrackLines.{routing_layers};

use crate::checks::check_limit;
use crate::error::{BuildError, Limited};
use crate::given::Given;
use crate::track_lines::times_used;
use def_text::TrackRow;
use rt_base::{Grid, Layer, Rect, Shape, Tech};

/// How many vias routing may use.
fn usable(tech: &Tech) -> usize
    ensures { result ≡ usable_count tech.now }
{
    tech.vias.as_slice().iter().filter(|via| via.usable).count()
}

/// How many lines the statements of a layer say, or the greatest number where they say more.
fn count_lines(layer: &Layer, rows: &[TrackRow]) -> u128
    ensures { result ≡ lines_said layer.now rows.now }
{
    let mut lines = 0u128;
    for row in rows {
        let times = times_used(layer, row) as u128;
        lines = lines.saturating_add(times.saturating_mul(u128::from(row.count)));
    }
    lines
}

/// The lines of each level.
fn check_lines(layers: &[Layer], rows: &[TrackRow]) -> Result<(), BuildError>
    ensures { Tells result (first_by (λ l. limit_fault OfTracks (lines_said l rows.now) 65536) (routing_layers layers.now)) }
{
    for layer in layers {
        if layer.routing {
            check_limit(Limited::Tracks, count_lines(layer, rows), 65536)?;
        }
    }
    Ok(())
}

/// The greatest distance of a side from 0.
fn reach(rect: &Rect) -> u64
    ensures { result ≡ farthest rect.now }
{
    let x = rect.xl.unsigned_abs().max(rect.xh.unsigned_abs());
    let y = rect.yl.unsigned_abs().max(rect.yh.unsigned_abs());
    x.max(y)
}

/// The largest absolute coordinate.
fn coordinate(shapes: &[Shape]) -> u64
    ensures { result ≡ largest_coordinate shapes.now }
{
    let mut most = 0u64;
    for shape in shapes {
        most = most.max(reach(&shape.rect));
    }
    most
}

/// The counts of what the texts say.
pub fn check_counts(given: &Given, tech: &Tech, shapes: &[Shape]) -> Result<(), BuildError>
    requires { shapes.now ≡ fixed_of (input_by given.now) }
    ensures { Tells result (count_fault (input_by given.now) tech.now) }
{
    check_limit(Limited::UsableVias, usable(tech) as u128, 64)?;
    check_lines(given.lef.layers.as_slice(), given.def.tracks.as_slice())?;
    check_limit(Limited::Nets, given.def.nets.len() as u128, 1_000_000)?;
    check_limit(Limited::FixedShapes, shapes.len() as u128, 4_194_304)?;
    check_limit(
        Limited::Coordinate,
        u128::from(coordinate(shapes)),
        1_073_741_824,
    )
}

/// How many tiles a rectangle meets.
fn count_met(grid: &Grid, rect: &Rect) -> u64
    requires tile { pos 1 ≤ℤ grid.now.tile }
    requires tiles { columns_of grid.now * rows_of grid.now ≤ 1048576 }
    ensures count { result ≡ met_count grid.now rect.now }
    ensures most { result ≤ 1048576 }
{
    let low = rect.low();
    let high = rect.high();
    let columns = grid.column(high) - grid.column(low) + 1;
    let rows = grid.row(high) - grid.row(low) + 1;
    columns * rows
}

/// How many pairs there are of a tile and a shape that meets it.
fn count_pairs(grid: &Grid, shapes: &[Shape]) -> u64
    requires tile { pos 1 ≤ℤ grid.now.tile }
    requires tiles { columns_of grid.now * rows_of grid.now ≤ 1048576 }
    requires shapes { length shapes.now ≤ 4194304 }
    ensures { result ≡ sum_by (λ s. met_count grid.now s.rect) shapes.now }
{
    let mut pairs = 0u64;
    for shape in shapes {
        pairs += count_met(grid, &shape.rect);
    }
    pairs
}

/// The sizes of the design, of which the pins have so many entries.
pub fn check_sizes(grid: &Grid, entries: u128, shapes: &[Shape]) -> Result<(), BuildError>
    requires least { pos 1 ≤ℤ grid.now.tile }
    requires shapes { length shapes.now ≤ 4194304 }
    ensures { Tells result (size_by grid.now shapes.now entries) }
{
    check_limit(Limited::Entries, entries, 16_777_216)?;
    let tiles = u128::from(grid.columns()) * u128::from(grid.rows());
    check_limit(Limited::Tiles, tiles, 1_048_576)?;
    let pairs = u128::from(count_pairs(grid, shapes));
    check_limit(Limited::TileShapes, pairs, 16_777_216)
}
