//! The tracks of each level in the die.
ghost use Rattle.std.specs.Prelude.{◌≡◌, ◌⊎◌, ◌↔◌, ℤ, ◌+◌, ◌<◌, ◌^◌, ◌≤◌, ◌≤ℤ◌, length, All, Contains, IfOk};
ghost use Rattle.track_graph.specs.Designs.{IsTech, AreTracks};
ghost use Rattle.track_graph.specs.Levels.{IsAscending, levels, layer_no};
ghost use Rattle.pin_access.specs.DieTracks.{IsDieLevel, AreDieLevels, IsDieLevelOf, AreDieTracks};
ghost use Rattle.pin_access.specs.EntryOrder.{system_of};
ghost use Rattle.pin_access.specs.Nearby.{steps_of};

use crate::bands::ranges_of;
use rt_base::{Memory, Rect, Seq, Span, Tech};
use std::alloc::Global;
use track_graph::{Tracks, is_level_horizontal, layer_number, level_lines, lines_in, lines_under};

/// The tracks of a level in the die: the number of its layer among all layers, whether its tracks
/// run in x, its largest step, and its lines and its positions, each ascending.
#[derive(Drop)]
pub struct DieLevel {
    pub layer: u32,
    pub horizontal: bool,
    pub step: u64,
    pub lines: Seq<i64>,
    pub positions: Seq<i64>,
}

/// The tracks of each level in the die, bottom up.
#[derive(Drop)]
pub struct DieTracks {
    pub levels: Seq<DieLevel>,
}

/// Puts numbers in order, each once.
pub fn ascend(numbers: &mut Vec<i64>)
    ensures ascending { IsAscending numbers.new.items }
    ensures numbers { (z : ℤ) → Contains numbers.new.items z ↔ Contains numbers.old.items z }
    ensures count { length numbers.new.items ≤ length numbers.old.items }
{
    numbers.sort_unstable();
    numbers.dedup();
}

/// The numbers of two lists in order, each once.
fn merged(alloc: Global, first: &[i64], second: &[i64]) -> Result<Seq<i64>, Memory>
    ensures ascending { IfOk result (λ s. IsAscending s) }
    ensures numbers { IfOk result (λ s. (z : ℤ) → Contains s z ↔ (Contains first.now z ⊎ Contains second.now z)) }
    ensures count { IfOk result (λ s. length s ≤ length first.now + length second.now) }
{
    let mut all = Vec::from_slice(alloc, first)?;
    all.extend_from_slice(second)?;
    ascend(&mut all);
    Ok(Seq::from_vec(all))
}

/// Those of these numbers, which ascend, that lie in a range.
fn copy_in(alloc: Global, numbers: &[i64], range: Span) -> Result<Seq<i64>, Memory>
    requires { IsAscending numbers.now }
    ensures ascending { IfOk result (λ s. IsAscending s) }
    ensures those { IfOk result (λ s. (z : ℤ) → Contains s z ↔ (Contains numbers.now z × (range.lo ≤ℤ z) × (z ≤ℤ range.hi))) }
    ensures count { IfOk result (λ s. length s ≤ length numbers.now) }
{
    let those = lines_in(numbers, range);
    Ok(Seq::from_vec(Vec::from_slice(alloc, those)?))
}

/// The largest step of a level.
pub fn largest_step(tech: &Tech, tracks: &Tracks, die: Rect, level: u8) -> u64
    requires { AreTracks tech.now tracks.now }
    ensures value { result ≡ steps_of (system_of tech.now tracks.now die) 1 level }
    ensures most { result ≤ 2 ^ 32 }
{
    match tracks.largest_step.as_slice().get(level as usize) {
        Some(step) => step.unsigned_abs(),
        None => 0,
    }
}

/// The tracks of a level in the die.
fn die_level(
    alloc: Global,
    tech: &Tech,
    tracks: &Tracks,
    die: Rect,
    level: u8,
    layer: u32,
) -> Result<DieLevel, Memory>
    requires tracks { AreTracks tech.now tracks.now }
    requires few { All (λ lines. length lines ≤ 65536) tracks.now.lines }
    requires level { level < length (levels tech.now) }
    requires layer { layer ≡ layer_no tech.now level }
    ensures level { IfOk result IsDieLevel }
    ensures of { IfOk result (IsDieLevelOf (system_of tech.now tracks.now die) level) }
{
    let horizontal = is_level_horizontal(tech, level);
    let ranges = ranges_of(horizontal, &die);
    let below = lines_in(lines_under(tracks, level as usize), ranges.along);
    let above = lines_in(level_lines(tracks, level as usize + 1), ranges.along);
    let lines = level_lines(tracks, level as usize);
    Ok(DieLevel {
        layer,
        horizontal,
        step: largest_step(tech, tracks, die, level),
        lines: copy_in(alloc, lines, ranges.across)?,
        positions: merged(alloc, below, above)?,
    })
}

impl DieTracks {
    /// The tracks of each level in the die.
    pub fn new(alloc: Global, tech: &Tech, tracks: &Tracks, die: Rect) -> Result<DieTracks, Memory>
        requires tech { IsTech tech.now }
        requires tracks { AreTracks tech.now tracks.now }
        requires few { All (λ lines. length lines ≤ 65536) tracks.now.lines }
        ensures levels { IfOk result AreDieLevels }
        ensures of { IfOk result (AreDieTracks (system_of tech.now tracks.now die)) }
    {
        let mut levels = Seq::new(alloc);
        for level in 0..16u8 {
            let Some(layer) = layer_number(tech, level) else {
                return Ok(DieTracks { levels });
            };
            levels.push(die_level(alloc, tech, tracks, die, level, layer as u32)?)?;
        }
        Ok(DieTracks { levels })
    }
}
