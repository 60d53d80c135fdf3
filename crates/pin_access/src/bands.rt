//! How many positions of lines are near rectangles.
ghost use Rattle.std.specs.Prelude.{◌≡◌, ◌-◌, ℤ, ◌↔◌, ◌*◌, ◌^◌, ◌≤◌, ◌<ℤ◌, ◌≤ℤ◌, length, All, AllPairs, Any, Contains, IfOk, MatchOption};
ghost use Rattle.rt_base.specs.declared.geometry.Span.{Span as OfSpan};
ghost use Rattle.pin_access.specs.Bands.{IsIn, IsBand, IsNearBand, IsNearBands, band_of, beyond as beyond_of};
ghost use Rattle.pin_access.specs.Counts.{Counts};
ghost use Rattle.track_graph.specs.Levels.{IsAscending};

use rt_base::{Memory, Rect, Span};
use std::alloc::Global;
use track_graph::{count_up_to, lines_in};

/// A rectangle as the tracks of a level see it: its ranges across the tracks and along them.
#[derive(Clone, Copy)]
pub struct Band {
    pub across: Span,
    pub along: Span,
}

/// The ranges of a rectangle across tracks that run in x or in y, and along them.
pub fn ranges_of(horizontal: bool, rect: &Rect) -> Band
    ensures value { result ≡ band_of horizontal rect.now }
    ensures wide { rect.now.xl ≤ℤ rect.now.xh }
    ensures tall { rect.now.yl ≤ℤ rect.now.yh }
{
    let in_x = Span {
        lo: rect.xl,
        hi: rect.xh,
    };
    let in_y = Span {
        lo: rect.yl,
        hi: rect.yh,
    };
    if horizontal {
        return Band {
            across: in_y,
            along: in_x,
        };
    }
    Band {
        across: in_x,
        along: in_y,
    }
}

/// How far a number is from a range.
fn beyond(range: &Span, z: i64) -> u64
    requires { range.now.lo ≤ℤ range.now.hi }
    ensures { result ≡ beyond_of range.now z }
{
    z.clamp(range.lo, range.hi).abs_diff(z)
}

/// The positions of a line that are near a band, none where the line is too far.
fn near_span(band: &Band, reach: u64, line: i64) -> Option<Span>
    requires band { IsBand band.now }
    requires reach { reach ≤ 2 ^ 34 }
    ensures { MatchOption result ((z : ℤ) → IsNearBand reach line z band.now → ⊥) (λ s. (z : ℤ) → IsIn z s ↔ IsNearBand reach line z band.now) }
{
    let away = beyond(&band.across, line);
    if away > reach {
        return None;
    }
    let rest = (reach - away) as i64;
    Some(Span {
        lo: band.along.lo - rest,
        hi: band.along.hi + rest,
    })
}

/// The positions of a line that are near these bands, a range for each band that is near the line.
fn near_spans(alloc: Global, bands: &[Band], reach: u64, line: i64) -> Result<Vec<Span>, Memory>
    requires bands { All IsBand bands.now }
    requires reach { reach ≤ 2 ^ 34 }
    ensures { IfOk result (λ v. (z : ℤ) → Any (IsIn z) v.items ↔ Any (IsNearBand reach line z) bands.now) }
{
    let mut spans = Vec::new(alloc);
    for band in bands {
        match near_span(band, reach, line) {
            Some(span) => spans.push(span)?,
            None => {}
        }
    }
    Ok(spans)
}

/// Puts ranges in the order of their lower ends.
fn put_in_order(spans: &mut Vec<Span>)
    ensures ordered { AllPairs (λ a b. a.lo ≤ℤ b.lo) spans.new.items }
    ensures same { (z : ℤ) → Any (IsIn z) spans.new.items ↔ Any (IsIn z) spans.old.items }
{
    spans.sort_unstable();
}

/// Those of these numbers that are greater than a bound.
fn numbers_past(numbers: &[i64], bound: i64) -> &[i64]
    requires { IsAscending numbers.now }
    ensures ascending { IsAscending result.now }
    ensures those { (z : ℤ) → Contains result.now z ↔ (Contains numbers.now z × (bound <ℤ z)) }
{
    &numbers[count_up_to(numbers, bound)..]
}

/// How many of these numbers lie in some of these ranges.
fn count_within(numbers: &[i64], spans: &[Span]) -> usize
    requires ascending { IsAscending numbers.now }
    requires ordered { AllPairs (λ (a b : OfSpan). a.lo ≤ℤ b.lo) spans.now }
    ensures count { Counts (λ z. Contains numbers.now z × Any (IsIn z) spans.now) result }
    ensures most { result ≤ length numbers.now }
{
    let mut rest = numbers;
    let mut count = 0usize;
    for span in spans {
        count += lines_in(rest, *span).len();
        rest = numbers_past(rest, span.hi);
    }
    count
}

/// How many of these positions of a line are near these bands.
fn count_on_line(
    alloc: Global,
    positions: &[i64],
    bands: &[Band],
    reach: u64,
    line: i64,
) -> Result<usize, Memory>
    requires ascending { IsAscending positions.now }
    requires bands { All IsBand bands.now }
    requires reach { reach ≤ 2 ^ 34 }
    ensures count { IfOk result (Counts (λ z. Contains positions.now z × Any (IsNearBand reach line z) bands.now)) }
    ensures most { IfOk result (λ n. n ≤ length positions.now) }
{
    let mut spans = near_spans(alloc, bands, reach, line)?;
    put_in_order(&mut spans);
    Ok(count_within(positions, spans.as_slice()))
}

/// The lines that reach from the lowest band to the highest.
fn lines_near<'a>(lines: &'a [i64], bands: &[Band], reach: u64) -> &'a [i64]
    requires ascending { IsAscending lines.now }
    requires bands { All IsBand bands.now }
    requires reach { reach ≤ 2 ^ 34 }
    ensures ascending { IsAscending result.now }
    ensures count { length result.now ≤ length lines.now }
    ensures those { (z : ℤ) → Contains result.now z → Contains lines.now z }
    ensures near { (z : ℤ) → Contains lines.now z → Any (λ b. beyond_of b.across z ≤ reach) bands.now → Contains result.now z }
{
    let mut hull = Span {
        lo: i64::MAX,
        hi: i64::MIN,
    };
    for band in bands {
        hull.lo = hull.lo.min(band.across.lo - reach as i64);
        hull.hi = hull.hi.max(band.across.hi + reach as i64);
    }
    lines_in(lines, hull)
}

/// How many positions of these lines are near these bands.
fn count_on_lines(
    alloc: Global,
    lines: &[i64],
    positions: &[i64],
    bands: &[Band],
    reach: u64,
) -> Result<u64, Memory>
    requires lines { IsAscending lines.now }
    requires line_count { length lines.now ≤ 65536 }
    requires positions { IsAscending positions.now }
    requires position_count { length positions.now ≤ 131072 }
    requires bands { All IsBand bands.now }
    requires reach { reach ≤ 2 ^ 34 }
    ensures count { IfOk result (Counts (IsNearBands reach bands.now lines.now positions.now)) }
    ensures most { IfOk result (λ n. n ≤ 131072 * length lines.now) }
{
    let mut count = 0u64;
    for line in lines {
        count += count_on_line(alloc, positions, bands, reach, *line)? as u64;
    }
    Ok(count)
}

/// How many positions of lines are near these bands.
pub fn count_near_bands(
    alloc: Global,
    lines: &[i64],
    positions: &[i64],
    bands: &[Band],
    reach: u64,
) -> Result<u64, Memory>
    requires lines { IsAscending lines.now }
    requires line_count { length lines.now ≤ 65536 }
    requires positions { IsAscending positions.now }
    requires position_count { length positions.now ≤ 131072 }
    requires bands { All IsBand bands.now }
    requires reach { reach ≤ 2 ^ 34 }
    ensures count { IfOk result (Counts (IsNearBands reach bands.now lines.now positions.now)) }
    ensures most { IfOk result (λ n. n ≤ 2 ^ 33) }
{
    let near = lines_near(lines, bands, reach);
    let count = count_on_lines(alloc, near, positions, bands, reach)?;
    Ok(count)
}
