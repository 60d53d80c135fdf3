//! How many entries the pins of nets have, counted before any is listed.
ghost use Rattle.std.specs.Prelude.{◌≡◌, ◌<◌, ◌≤◌, ◌*◌, ◌^◌, length, IfOk, All};
ghost use Rattle.def_text.specs.Defs.{IsDefNet};
ghost use Rattle.pin_access.specs.DieTracks.{AreDieLevels, AreDieTracks};
ghost use Rattle.build.specs.EntryCounts.{PinsHave, NetsHave};
ghost use Rattle.build.specs.Ground.{IsGround, input_on, system_on};

use crate::nets::{Ground, connected};
use def_text::DefNet;
use pin_access::{DieTracks, count_entries};
use rt_base::{Memory, Name};
use std::alloc::Global;

/// How many entries the pins have that these connections name.
fn count_pins(
    alloc: Global,
    on: &Ground,
    tracks: &DieTracks,
    connections: &[(Name, Name)],
) -> Result<u128, Memory>
    requires ground { IsGround on.now }
    requires tracks { AreDieLevels tracks.now }
    requires of { AreDieTracks (system_on on.now) tracks.now }
    requires few { length connections.now < 2 ^ 32 }
    ensures count { IfOk result (PinsHave (input_on on.now).lef (input_on on.now).def (system_on on.now) connections.now) }
    ensures most { IfOk result (λ n. n ≤ 2 ^ 91) }
{
    let mut count = 0u128;
    for connection in connections {
        let rects = connected(alloc, on, connection)?;
        count += count_entries(alloc, tracks, &rects)?;
    }
    Ok(count)
}

/// How many entries the pins of these nets have.
fn count_nets(
    alloc: Global,
    on: &Ground,
    tracks: &DieTracks,
    nets: &[DefNet],
) -> Result<u128, Memory>
    requires ground { IsGround on.now }
    requires tracks { AreDieLevels tracks.now }
    requires of { AreDieTracks (system_on on.now) tracks.now }
    requires nets { All IsDefNet nets.now }
    requires few { length nets.now < 2 ^ 32 }
    ensures { IfOk result (NetsHave (input_on on.now) (system_on on.now) nets.now) }
{
    let mut count = 0u128;
    for net in nets {
        count += count_pins(alloc, on, tracks, net.pins.as_slice())?;
    }
    Ok(count)
}

/// How many entries all pins of all nets have. Memory goes with the lines and positions of the die,
/// and not with the count.
pub fn count_all(alloc: Global, on: &Ground) -> Result<u128, Memory>
    requires { IsGround on.now }
    ensures { IfOk result (NetsHave (input_on on.now) (system_on on.now) (input_on on.now).def.nets) }
{
    let tracks = DieTracks::new(alloc, on.tech, on.tracks, on.given.def.die)?;
    let count = count_nets(alloc, on, &tracks, on.given.def.nets.as_slice())?;
    Ok(count)
}
