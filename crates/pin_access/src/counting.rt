//! How many entries a pin has, counted from lines and positions.
ghost use Rattle.std.specs.Prelude.{◌≡◌, ℕ, ◌+◌, ◌*◌, ◌^◌, ◌≤◌, ◌<◌, ◌↔◌, ℤ, length, All, Any, IfOk, OnOk};
ghost use Rattle.rt_base.specs.Ranges.{AreSidesWithin};
ghost use Rattle.track_graph.specs.Entries.{IsEntry};
ghost use Rattle.track_graph.specs.Levels.{TrackSystem};
ghost use Rattle.track_graph.specs.Metal.{Metal};
ghost use Rattle.pin_access.specs.Bands.{IsBand, IsNearBand};
ghost use Rattle.pin_access.specs.Counts.{Counts};
ghost use Rattle.pin_access.specs.DieTracks.{IsDieLevel, AreDieLevels, AreDieTracks, IsNearOn, IsNearLevel, IsNearSome, IsNearOne};
ghost use Rattle.pin_access.specs.Nearby.{IsRect};

use crate::bands::{Band, count_near_bands, ranges_of};
use crate::die_tracks::{DieLevel, DieTracks};
use rt_base::{LayerNo, Memory, Rect};
use std::alloc::Global;

/// The rectangles on a level's layer, as its tracks see them.
fn bands_on(alloc: Global, level: &DieLevel, rects: &[(LayerNo, Rect)]) -> Result<Vec<Band>, Memory>
    requires { All (λ (m : Metal). AreSidesWithin (2 ^ 61) m.1) rects.now }
    ensures bands { IfOk result (λ v. All IsBand v.items) }
    ensures near { IfOk result (λ v. (reach : ℕ) (line z : ℤ) → Any (IsNearBand reach line z) v.items ↔ Any (IsNearOn level.now reach line z) rects.now) }
    ensures rects { OnOk result (All (λ (m : Metal). IsRect m.1) rects.now) }
{
    let mut bands = Vec::new(alloc);
    for metal in rects {
        let ranges = ranges_of(level.horizontal, &metal.1);
        if metal.0.0 == level.layer {
            bands.push(ranges)?;
        }
    }
    Ok(bands)
}

/// How many vertices of a level are at most so far from one of these rectangles on its layer.
fn count_on_level(
    alloc: Global,
    level: &DieLevel,
    rects: &[(LayerNo, Rect)],
    reach: u64,
) -> Result<u64, Memory>
    requires level { IsDieLevel level.now }
    requires rects { All (λ (m : Metal). AreSidesWithin (2 ^ 61) m.1) rects.now }
    requires reach { reach ≤ 2 ^ 34 }
    ensures count { IfOk result (Counts (IsNearLevel level.now reach rects.now)) }
    ensures most { IfOk result (λ n. n ≤ 2 ^ 33) }
    ensures rects { OnOk result (All (λ (m : Metal). IsRect m.1) rects.now) }
{
    let bands = bands_on(alloc, level, rects)?;
    let lines = level.lines.as_slice();
    let positions = level.positions.as_slice();
    let count = count_near_bands(alloc, lines, positions, bands.as_slice(), reach)?;
    Ok(count)
}

/// How many vertices are at most so many of their level's largest steps from one of these
/// rectangles on their layer.
fn count_near(
    alloc: Global,
    levels: &[DieLevel],
    rects: &[(LayerNo, Rect)],
    steps: u64,
) -> Result<u64, Memory>
    requires few { length levels.now ≤ 16 }
    requires levels { All IsDieLevel levels.now }
    requires rects { All (λ (m : Metal). AreSidesWithin (2 ^ 61) m.1) rects.now }
    requires steps { steps ≤ 2 }
    ensures count { IfOk result (Counts (IsNearSome levels.now steps rects.now)) }
    ensures most { IfOk result (λ n. n ≤ 2 ^ 37) }
    ensures rects { OnOk result (0 < length levels.now → All (λ (m : Metal). IsRect m.1) rects.now) }
{
    let mut count = 0u64;
    for level in levels {
        count += count_on_level(alloc, level, rects, steps * level.step)?;
    }
    Ok(count)
}

/// How many stubs these rectangles have, each by itself.
fn count_stubs(
    alloc: Global,
    levels: &[DieLevel],
    rects: &[(LayerNo, Rect)],
) -> Result<u128, Memory>
    requires few { length levels.now ≤ 16 }
    requires levels { All IsDieLevel levels.now }
    requires rects { All (λ (m : Metal). AreSidesWithin (2 ^ 61) m.1) rects.now }
    requires count { length rects.now < 2 ^ 32 }
    ensures count { IfOk result (Counts (IsNearOne levels.now rects.now)) }
    ensures most { IfOk result (λ n. n ≤ 2 ^ 37 * length rects.now) }
{
    let mut count = 0u128;
    for k in 0..rects.len() {
        count += u128::from(count_near(alloc, levels, &rects[k..k + 1], 2)?);
    }
    Ok(count)
}

/// How many entries a pin with these rectangles has, that is, how many `entries` would list. Time and
/// memory go with the rectangles, and the lines and positions near them, and not with the count.
pub fn count_entries(
    alloc: Global,
    tracks: &DieTracks,
    rects: &[(LayerNo, Rect)],
) -> Result<u128, Memory>
    requires tracks { AreDieLevels tracks.now }
    requires rects { All (λ (m : Metal). AreSidesWithin (2 ^ 61) m.1) rects.now }
    requires count { length rects.now < 2 ^ 32 }
    ensures count { IfOk result (λ n. (g : TrackSystem) (pin : ℕ) → AreDieTracks g tracks.now → Counts (IsEntry g pin rects.now) n) }
    ensures most { IfOk result (λ n. n ≤ 2 ^ 37 * length rects.now) }
{
    let levels = tracks.levels.as_slice();
    let inside = count_near(alloc, levels, rects, 0)?;
    if inside > 0 {
        return Ok(u128::from(inside));
    }
    let stubs = count_stubs(alloc, levels, rects)?;
    Ok(stubs)
}
