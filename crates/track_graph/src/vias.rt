//! Which levels the rectangles of a via join.
ghost use Rattle.std.specs.Prelude.{◌≡◌, ◌<◌, ◌≤◌, ◌↔◌, IsTrue, All, Any};
ghost use Rattle.track_graph.specs.Designs.{IsTech, IsUsable, IsUsableAt};
ghost use Rattle.track_graph.specs.Levels.{layer_no};
ghost use Rattle.track_graph.specs.Metal.{Metal, JoinsLevels};

use crate::levels::{layer_number, level_layer};
use rt_base::{LayerNo, Rect, Tech};

/// The number of a level's layer among all layers, 0 where there is no such level.
fn layer_no(tech: &Tech, level: u8) -> usize
    ensures { result ≡ layer_no tech.now level }
{
    match level_layer(tech, level) {
        Some((number, _)) => number,
        None => 0,
    }
}

/// Whether a rectangle stands on the layer with this number.
fn stand_on(rects: &[(LayerNo, Rect)], layer: usize) -> bool
    ensures { IsTrue result ↔ Any (λ (r : Metal). r.0.0 ≡ layer) rects.now }
{
    rects.iter().any(|r| r.0.0 as usize == layer)
}

/// Whether a rectangle stands on a layer between these two.
fn stand_between(rects: &[(LayerNo, Rect)], low: usize, high: usize) -> bool
    ensures { IsTrue result ↔ Any (λ (r : Metal). (low < r.0.0) × (r.0.0 < high)) rects.now }
{
    rects
        .iter()
        .any(|r| low < r.0.0 as usize && (r.0.0 as usize) < high)
}

/// Whether no rectangle stands below the lower or above the upper of these layers.
fn stay_within(rects: &[(LayerNo, Rect)], low: usize, high: usize) -> bool
    ensures { IsTrue result ↔ All (λ (r : Metal). (low ≤ r.0.0) × (r.0.0 ≤ high)) rects.now }
{
    rects
        .iter()
        .all(|r| low <= r.0.0 as usize && r.0.0 as usize <= high)
}

/// Whether a rectangle of a via stands on a level and one on the next level up, which both exist.
/// Takes no memory.
pub fn joins_levels(tech: &Tech, rects: &[(LayerNo, Rect)], lower: u8) -> bool
    requires { IsTech tech.now }
    ensures { IsTrue result ↔ JoinsLevels tech.now rects.now lower }
{
    if lower >= 16 {
        return false;
    }
    if layer_number(tech, lower + 1).is_none() {
        return false;
    }
    if !stand_on(rects, layer_no(tech, lower)) {
        return false;
    }
    if !stand_on(rects, layer_no(tech, lower + 1)) {
        return false;
    }
    true
}

/// Whether the rectangles join a level and the next one up, with one on a layer between them, and
/// none elsewhere.
fn is_usable_at(tech: &Tech, rects: &[(LayerNo, Rect)], lower: u8) -> bool
    requires { IsTech tech.now }
    ensures { IsTrue result ↔ IsUsableAt tech.now rects.now lower }
{
    if !joins_levels(tech, rects, lower) {
        return false;
    }
    let low = layer_no(tech, lower);
    let high = layer_no(tech, lower + 1);
    if !stand_between(rects, low, high) {
        return false;
    }
    if !stay_within(rects, low, high) {
        return false;
    }
    true
}

/// Whether routing can use a via with these rectangles: they join two neighbouring levels, with one
/// on a layer between them, and none elsewhere. Takes no memory.
pub fn is_usable(tech: &Tech, rects: &[(LayerNo, Rect)]) -> bool
    requires { IsTech tech.now }
    ensures { IsTrue result ↔ IsUsable tech.now rects.now }
{
    for lower in 0..16u8 {
        if is_usable_at(tech, rects, lower) {
            return true;
        }
    }
    false
}
