//! The tracks of the levels.
ghost use Rattle.std.specs.Prelude.{◌≡◌, ◌⊎◌, ℤ, pos, ◌+◌, ◌≤◌, ◌<◌, ◌+ℤ◌, ◌*ℤ◌, length, map, IfOk, OnOk, All, Contains, ◌↔◌};
ghost use Rattle.std.specs.List.{AllZip};
ghost use Rattle.def_text.specs.Defs.{IsTrackRow};
ghost use Rattle.build.specs.TrackLines.{HasLine, line_count, largest_step, routing_layers};
ghost use Rattle.build.specs.Lines.{HasSomeLine, IsLevel, AreLevels};

use crate::track_lines::is_used;
use def_text::{Def, TrackRow};
use pin_access::ascend;
use rt_base::{Layer, Memory, Seq, Tech};
use std::alloc::Global;
use track_graph::Tracks;

/// A line of a statement.
fn line(row: &TrackRow, k: u32) -> i64
    requires row { IsTrackRow row.now }
    requires below { k < row.now.count }
    ensures { result ≡ row.now.first +ℤ pos k *ℤ row.now.step }
{
    row.first + i64::from(k) * row.step
}

/// Adds the lines of a statement.
fn add_row(lines: &mut Vec<i64>, row: &TrackRow) -> Result<(), Memory>
    requires { IsTrackRow row.now }
    ensures lines { OnOk result ((z : ℤ) → Contains lines.new.items z ↔ (Contains lines.old.items z ⊎ HasLine row.now z)) }
    ensures count { OnOk result (length lines.new.items ≡ length lines.old.items + row.now.count) }
{
    for k in 0..row.count {
        lines.push(line(row, k))?;
    }
    Ok(())
}

/// The lines of the statements used for a layer, in the order of the statements.
fn said_lines(alloc: Global, layer: &Layer, rows: &[TrackRow]) -> Result<Vec<i64>, Memory>
    requires { All IsTrackRow rows.now }
    ensures lines { IfOk result (λ v. (z : ℤ) → Contains v.items z ↔ HasSomeLine rows.now layer.now z) }
    ensures count { IfOk result (λ v. length v.items ≤ line_count layer.now rows.now) }
{
    let mut lines = Vec::new(alloc);
    for row in rows {
        if is_used(layer, row) {
            add_row(&mut lines, row)?;
        }
    }
    Ok(lines)
}

/// The lines of a level.
fn level_lines(alloc: Global, layer: &Layer, rows: &[TrackRow]) -> Result<Seq<i64>, Memory>
    requires { All IsTrackRow rows.now }
    ensures { IfOk result (IsLevel rows.now layer.now) }
{
    let mut lines = said_lines(alloc, layer, rows)?;
    ascend(&mut lines);
    Ok(Seq::from_vec(lines))
}

/// The largest step of the statements used for a level.
fn level_step(layer: &Layer, rows: &[TrackRow]) -> i64
    ensures { result ≡ largest_step rows.now layer.now }
{
    let mut most = 0i64;
    for row in rows {
        if is_used(layer, row) {
            most = most.max(row.step);
        }
    }
    most
}

/// The lines of each level.
fn lines_of_levels(
    alloc: Global,
    layers: &[Layer],
    rows: &[TrackRow],
) -> Result<Seq<Seq<i64>>, Memory>
    requires { All IsTrackRow rows.now }
    ensures { IfOk result (AllZip (IsLevel rows.now) (routing_layers layers.now)) }
{
    let mut levels = Seq::new(alloc);
    for layer in layers {
        if layer.routing {
            levels.push(level_lines(alloc, layer, rows)?)?;
        }
    }
    Ok(levels)
}

/// The largest step of each level.
fn steps_of_levels(alloc: Global, layers: &[Layer], rows: &[TrackRow]) -> Result<Seq<i64>, Memory>
    ensures { IfOk result (λ s. s ≡ map (largest_step rows.now) (routing_layers layers.now)) }
{
    let mut steps = Seq::new(alloc);
    for layer in layers {
        if layer.routing {
            steps.push(level_step(layer, rows))?;
        }
    }
    Ok(steps)
}

/// The tracks of the levels.
pub fn tracks(alloc: Global, tech: &Tech, def: &Def) -> Result<Tracks, Memory>
    requires { All IsTrackRow def.now.tracks }
    ensures { IfOk result (AreLevels def.now tech.now) }
{
    let layers = tech.layers.as_slice();
    let rows = def.tracks.as_slice();
    Ok(Tracks {
        lines: lines_of_levels(alloc, layers, rows)?,
        largest_step: steps_of_levels(alloc, layers, rows)?,
    })
}
