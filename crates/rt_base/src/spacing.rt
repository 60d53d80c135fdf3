//! The test for conflicts.
ghost use Rattle.std.specs.Prelude.{◌≡◌, ◌<◌, length};
ghost use Rattle.rt_base.specs.Conflict.{conflict_of, spacing_of, pair_spacing, largest_spacing, is_near_of};

use crate::distance::gap;
use crate::tech::{LayerNo, Shape, Tech};

impl Tech {
    /// A layer's spacing, at least 1.
    fn spacing(&self, layer: LayerNo) -> u64
        requires { layer.0 < length self.now.layers }
        ensures { result ≡ spacing_of self.now layer }
    {
        self.layers.as_slice()[layer.0 as usize]
            .spacing
            .max(1)
            .unsigned_abs()
    }

    /// What two shapes on one layer keep between them, at least 1. Takes no memory.
    pub fn pair_spacing(&self, a: &Shape, _b: &Shape) -> u64
        requires { a.now.layer.0 < length self.now.layers }
        ensures { result ≡ pair_spacing self.now a.now _b.now }
    {
        self.spacing(a.layer)
    }

    /// The most that any two shapes on a layer keep between them, at least 1. Takes no memory.
    pub fn largest_spacing(&self, layer: LayerNo) -> u64
        requires { layer.0 < length self.now.layers }
        ensures { result ≡ largest_spacing self.now layer }
    {
        self.spacing(layer)
    }
}

/// Whether the distance of these gaps is less than `s`.
fn is_near(gx: u64, gy: u64, s: u64) -> bool
    ensures { result ≡ is_near_of gx gy s }
{
    if gx >= s {
        return false;
    }
    let x = gx as u128;
    let y = gy as u128;
    let s = s as u128;
    y * y < s * s - x * x
}

/// Whether two shapes of different owners stand on one layer, nearer to each other than their
/// spacing. Touching shapes of different owners conflict. Takes no memory.
pub fn conflict(tech: &Tech, a: &Shape, b: &Shape) -> bool
    requires { a.now.layer.0 < length tech.now.layers }
    ensures { result ≡ conflict_of tech.now a.now b.now }
{
    if a.layer != b.layer || a.owner == b.owner {
        return false;
    }
    let (gx, gy) = gap(&a.rect, &b.rect);
    is_near(gx, gy, tech.pair_spacing(a, b))
}
