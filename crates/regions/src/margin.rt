//! How far from its guide the wires of a net can matter to others.
ghost use Rattle.std.specs.Prelude.{◌≡◌, ℕ, ◌≤◌, ◌^◌, IsTrue, Any};
ghost use Rattle.track_graph.specs.Designs.{IsDesign};
ghost use Rattle.track_graph.specs.Entries.{stub_reach};
ghost use Rattle.track_graph.specs.Levels.{track_system_of};
ghost use Rattle.regions.specs.Halo.{IsGreatest, IsHalo, IsShapeReach, IsSpacing, IsStubReach, IsReachOf, half_of, stub_of, farthest};

use rt_base::{LayerNo, Rect, Via};
use track_graph::{Design, level_layer};

/// Half the width of a level's wires, 0 where there is no such level.
fn half_width(design: &Design, level: u8) -> u64
    ensures { result ≡ half_of design.now level }
{
    match level_layer(&design.tech, level) {
        Some((_, layer)) => layer.width.unsigned_abs() / 2,
        None => 0,
    }
}

/// How far a stub of a level may reach, 0 where there is no such level.
fn longest_stub(design: &Design, level: u8) -> u64
    requires { IsDesign design.now }
    ensures is { result ≡ stub_reach (track_system_of design.now) level }
    ensures most { result ≤ 2 ^ 34 }
{
    match design.tracks.largest_step.as_slice().get(level as usize) {
        Some(step) => 2 * step.unsigned_abs(),
        None => 0,
    }
}

/// How far a shape of a stub may lie from the stub's first point. A shape of a wire lies no
/// farther from its vertices.
fn stub_reach(design: &Design) -> u64
    requires { IsDesign design.now }
    ensures { IsGreatest (IsStubReach design.now) result }
{
    let mut most = 0u64;
    for level in 0..design.tracks.largest_step.len() as u8 {
        most = most.max(longest_stub(design, level) + half_width(design, level));
    }
    most
}

/// The largest absolute coordinate of a rectangle.
fn farthest(rect: &Rect) -> u64
    ensures { result ≡ farthest rect.now }
{
    let low = rect.xl.unsigned_abs().max(rect.yl.unsigned_abs());
    let high = rect.xh.unsigned_abs().max(rect.yh.unsigned_abs());
    low.max(high)
}

/// The largest absolute coordinate of these rectangles, 0 where there is none.
fn rects_reach(rects: &[(LayerNo, Rect)]) -> u64
    ensures { IsGreatest (λ v. Any (λ r. v ≡ farthest r.1) rects.now) result }
{
    let mut most = 0u64;
    for metal in rects {
        most = most.max(farthest(&metal.1));
    }
    most
}

/// How far a shape of a via may lie from its vertices, 0 where it isn't usable.
fn via_reach(via: &Via) -> u64
    ensures { IsGreatest (λ v. IsTrue via.now.usable × IsReachOf via.now v) result }
{
    if !via.usable {
        return 0;
    }
    rects_reach(via.rects.as_slice())
}

/// How far a shape of a usable via may lie from its vertices.
fn vias_reach(vias: &[Via]) -> u64
    ensures { IsGreatest (λ v. Any (λ via. IsTrue via.usable × IsReachOf via v) vias.now) result }
{
    let mut most = 0u64;
    for via in vias {
        most = most.max(via_reach(via));
    }
    most
}

/// How far a shape of a walk may lie from its vertices and from the first points of its stubs.
fn reach(design: &Design) -> u64
    requires { IsDesign design.now }
    ensures { IsGreatest (IsShapeReach design.now) result }
{
    vias_reach(design.tech.vias.as_slice()).max(stub_reach(design))
}

/// The most that two shapes on any layer keep between them.
fn largest_spacing(design: &Design) -> u64
    requires { IsDesign design.now }
    ensures { IsGreatest (IsSpacing design.now) result }
{
    let mut most = 0u64;
    for number in 0..design.tech.layers.len() as u32 {
        most = most.max(design.tech.largest_spacing(LayerNo(number)));
    }
    most
}

/// How far, in DEF database units, a net's guide is widened to find the tiles of the net: the
/// greatest of half a level's width, the largest absolute coordinate of a rectangle of a usable via
/// and twice a level's largest track step plus half its width, and to this the most that two shapes
/// on any layer keep between them. A greatest value over nothing is 0. Takes no memory.
pub fn halo(design: &Design) -> u64
    requires { IsDesign design.now }
    ensures { IsHalo design.now result }
{
    reach(design) + largest_spacing(design)
}
