//! Track lines.
ghost use Rattle.std.specs.Prelude.{◌≡◌, ◌≤ℤ◌, ◌^◌, pos, ◌*ℤ◌, bytes_eq};
ghost use Rattle.std.specs.Option.{option_copied};
ghost use Rattle.std.specs.List.{find};
ghost use Rattle.def_text.specs.Defs.{IsDef, IsTrackRow};
ghost use Rattle.build.specs.TrackLines.{first_row, default_tile_of, is_used, times_used, times_named};

use def_text::{Def, TrackRow};
use lef_text::Lef;
use rt_base::{Layer, Name, Seq};

/// Whether these are the same bytes.
pub(crate) fn same(a: &[u8], b: &[u8]) -> bool
    ensures { result ≡ bytes_eq a.now b.now }
{
    a == b
}

/// How often these names name a layer.
fn times_named(name: &[u8], names: &Option<Seq<Name>>) -> usize
    ensures { result ≡ times_named name.now names.now }
{
    match names {
        None => 1,
        Some(names) => names
            .as_slice()
            .iter()
            .filter(|n| same(name, n.bytes()))
            .count(),
    }
}

/// How often a statement is used for a routing layer.
pub(crate) fn times_used(layer: &Layer, row: &TrackRow) -> usize
    ensures { result ≡ times_used layer.now row.now }
{
    let runs_along = if row.x {
        !layer.horizontal
    } else {
        layer.horizontal
    };
    if runs_along {
        times_named(layer.name.bytes(), &row.layers)
    } else {
        0
    }
}

/// Whether a statement is used for a routing layer.
pub(crate) fn is_used(layer: &Layer, row: &TrackRow) -> bool
    ensures { result ≡ is_used layer.now row.now }
{
    times_used(layer, row) > 0
}

/// The lowest routing layer.
fn lowest(layers: &[Layer]) -> Option<&Layer>
    ensures { option_copied result ≡ find (λ l. l.routing) layers.now }
{
    layers.iter().find(|l| l.routing)
}

/// The first statement that is used for a routing layer.
fn first_used<'a>(layer: &Layer, rows: &'a [TrackRow]) -> Option<&'a TrackRow>
    ensures { option_copied result ≡ find (is_used layer.now) rows.now }
{
    rows.iter().find(|row| is_used(layer, row))
}

/// 32 steps.
fn steps(row: &TrackRow) -> i64
    requires { IsTrackRow row.now }
    ensures value { result ≡ pos 32 *ℤ row.now.step }
    ensures least { pos 1 ≤ℤ result }
    ensures most { result ≤ℤ pos (2 ^ 35) }
{
    32 * row.step
}

/// The first statement that is used for the lowest routing layer.
fn first_row<'a>(lef: &Lef, def: &'a Def) -> Option<&'a TrackRow>
    ensures { option_copied result ≡ first_row lef.now def.now }
{
    match lowest(lef.layers.as_slice()) {
        Some(layer) => first_used(layer, def.tracks.as_slice()),
        None => None,
    }
}

/// The side of a tile where the user names none, in DEF database units: 32 times the STEP of the
/// first TRACKS statement that is used for the lowest routing layer, and 1,073,741,824 where there
/// is none. Takes no memory.
pub fn default_tile(lef: &Lef, def: &Def) -> i64
    requires { IsDef def.now }
    ensures value { result ≡ default_tile_of lef.now def.now }
    ensures least { pos 1 ≤ℤ result }
    ensures most { result ≤ℤ pos (2 ^ 35) }
{
    match first_row(lef, def) {
        Some(row) => steps(row),
        None => 1_073_741_824,
    }
}
