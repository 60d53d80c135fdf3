//! The entries of a pin.
ghost use Rattle.std.specs.Prelude.{OnOk, map, ◌++◌, ◌≡◌, ◌≢◌, ◌⊎◌, ℕ, ◌^◌, ◌<◌, ◌≤◌, ◌↔◌, length, IfOk, All, AllPairs, Any, Contains, MatchOption};
ghost use Rattle.rt_base.specs.Geometry.{Holds};
ghost use Rattle.rt_base.specs.declared.walk.Entry.{Entry as OfEntry};
ghost use Rattle.rt_base.specs.declared.walk.Vertex.{Vertex as OfVertex};
ghost use Rattle.track_graph.specs.Designs.{IsTech, AreTracks};
ghost use Rattle.track_graph.specs.Entries.{IsPinEntry, IsStubEntry, IsEntry, stub_reach};
ghost use Rattle.track_graph.specs.Levels.{levels, layer_no};
ghost use Rattle.track_graph.specs.Metal.{Metal};
ghost use Rattle.pin_access.specs.EntryOrder.{system_of, IsVertexBefore, IsEntryBefore, pin_entry, stub_entry};
ghost use Rattle.pin_access.specs.Nearby.{steps_of, IsNearMetal, IsPinMetal, IsRect};

use crate::area::{Area, add_area};
use rt_base::{Entry, EntryKind, LayerNo, Memory, Rect, Tech, Vertex};
use std::alloc::Global;
use track_graph::{Tracks, layer_number};

/// The level of a layer, none where it is no routing layer.
fn level_of(tech: &Tech, layer: LayerNo) -> Option<u8>
    requires { IsTech tech.now }
    ensures { MatchOption result ((k : ℕ) → k < length (levels tech.now) → layer_no tech.now k ≢ layer.0) (λ k. (k < length (levels tech.now)) × (layer_no tech.now k ≡ layer.0)) }
{
    for level in 0..16 {
        if layer_number(tech, level) == Some(layer.0 as usize) {
            return Some(level);
        }
    }
    None
}

/// So many of a level's largest steps.
fn reach_of(tech: &Tech, tracks: &Tracks, die: Rect, level: u8, steps: u64) -> u64
    requires tracks { AreTracks tech.now tracks.now }
    requires steps { steps ≤ 2 }
    ensures value { result ≡ steps_of (system_of tech.now tracks.now die) steps level }
    ensures most { result ≤ 2 ^ 34 }
{
    match tracks.largest_step.as_slice().get(level as usize) {
        Some(step) => steps * step.unsigned_abs(),
        None => 0,
    }
}

/// Adds each vertex that is at most so many steps of its level from a rectangle on its layer.
fn add_near(
    out: &mut Vec<Vertex>,
    tech: &Tech,
    tracks: &Tracks,
    die: Rect,
    metal: &(LayerNo, Rect),
    steps: u64,
) -> Result<(), Memory>
    requires tech { IsTech tech.now }
    requires tracks { AreTracks tech.now tracks.now }
    requires metal { IsPinMetal tech.now metal.now }
    requires steps { steps ≤ 2 }
    ensures adds { OnOk result ((v : OfVertex) → Contains out.new.items v ↔ (Contains out.old.items v ⊎ IsNearMetal (system_of tech.now tracks.now die) steps metal.now v)) }
    ensures rect { IsRect metal.now.1 }
{
    let (layer, rect) = *metal;
    prove!(rect.xl <= rect.xh && rect.yl <= rect.yh);
    let Some(level) = level_of(tech, layer) else {
        return Ok(());
    };
    let area = Area {
        level,
        rect,
        reach: reach_of(tech, tracks, die, level, steps),
    };
    add_area(out, tech, tracks, die, &area)?;
    Ok(())
}

/// Puts vertices in order, by level, x and y, each once.
fn put_in_order(vertices: &mut Vec<Vertex>)
    ensures ordered { AllPairs IsVertexBefore vertices.new.items }
    ensures same { (v : OfVertex) → Contains vertices.new.items v ↔ Contains vertices.old.items v }
{
    vertices.sort_unstable();
    vertices.dedup();
}

/// The vertices that are at most so many steps of their level from one of these rectangles on their
/// layer, by level, x and y.
fn vertices_near(
    alloc: Global,
    tech: &Tech,
    tracks: &Tracks,
    die: Rect,
    rects: &[(LayerNo, Rect)],
    steps: u64,
) -> Result<Vec<Vertex>, Memory>
    requires tech { IsTech tech.now }
    requires tracks { AreTracks tech.now tracks.now }
    requires rects { All (IsPinMetal tech.now) rects.now }
    requires steps { steps ≤ 2 }
    ensures exact { IfOk result (λ vs. (v : OfVertex) → Contains vs.items v ↔ Any (λ m. IsNearMetal (system_of tech.now tracks.now die) steps m v) rects.now) }
    ensures ordered { IfOk result (λ vs. AllPairs IsVertexBefore vs.items) }
    ensures rects { OnOk result (All (λ (m : Metal). IsRect m.1) rects.now) }
{
    let mut vertices = Vec::new(alloc);
    for metal in rects {
        add_near(&mut vertices, tech, tracks, die, metal, steps)?;
    }
    put_in_order(&mut vertices);
    Ok(vertices)
}

/// An entry at each of these vertices.
fn pin_entries(alloc: Global, pin: u32, vertices: &[Vertex]) -> Result<Vec<Entry>, Memory>
    ensures { IfOk result (λ es. es.items ≡ map (pin_entry pin) vertices.now) }
{
    let mut entries = Vec::new(alloc);
    for vertex in vertices {
        entries.push(Entry {
            vertex: *vertex,
            kind: EntryKind::Pin { pin },
        })?;
    }
    Ok(entries)
}

/// Adds a stub from a rectangle to each of these vertices.
fn add_stubs(
    entries: &mut Vec<Entry>,
    pin: u32,
    rect: u32,
    vertices: &[Vertex],
) -> Result<(), Memory>
    ensures { OnOk result (entries.new.items ≡ entries.old.items ++ map (stub_entry pin rect) vertices.now) }
{
    for vertex in vertices {
        entries.push(Entry {
            vertex: *vertex,
            kind: EntryKind::Stub { pin, rect },
        })?;
    }
    Ok(())
}

/// The stubs of a pin, by rectangle and then by vertex.
fn stubs(
    alloc: Global,
    tech: &Tech,
    tracks: &Tracks,
    die: Rect,
    pin: u32,
    rects: &[(LayerNo, Rect)],
) -> Result<Vec<Entry>, Memory>
    requires tech { IsTech tech.now }
    requires tracks { AreTracks tech.now tracks.now }
    requires rects { All (IsPinMetal tech.now) rects.now }
    requires count { length rects.now < 2 ^ 32 }
    ensures exact { IfOk result (λ es. (e : OfEntry) → Contains es.items e ↔ IsStubEntry (system_of tech.now tracks.now die) pin rects.now e) }
    ensures ordered { IfOk result (λ es. AllPairs IsEntryBefore es.items) }
{
    let mut entries = Vec::new(alloc);
    for k in 0..rects.len() {
        let near = vertices_near(alloc, tech, tracks, die, &rects[k..k + 1], 2)?;
        add_stubs(&mut entries, pin, k as u32, near.as_slice())?;
    }
    Ok(entries)
}

/// The entries of a pin with this number in its net and with these rectangles: each vertex whose
/// point lies in a closed rectangle of the pin on that layer, by level, x and y. Where there is no
/// such vertex, the stubs: for each rectangle, in order, each vertex of its level that is at most
/// twice the level's largest step away, by x and y.
pub fn entries(
    alloc: Global,
    tech: &Tech,
    tracks: &Tracks,
    die: Rect,
    pin: u32,
    rects: &[(LayerNo, Rect)],
) -> Result<Vec<Entry>, Memory>
    requires tech { IsTech tech.now }
    requires tracks { AreTracks tech.now tracks.now }
    requires rects { All (IsPinMetal tech.now) rects.now }
    requires count { length rects.now < 2 ^ 32 }
    ensures exact { IfOk result (λ v. (e : OfEntry) → Contains v.items e ↔ IsEntry (system_of tech.now tracks.now die) pin rects.now e) }
    ensures ordered { IfOk result (λ v. AllPairs IsEntryBefore v.items) }
{
    let inside = vertices_near(alloc, tech, tracks, die, rects, 0)?;
    let vertices = inside.as_slice();
    if vertices.is_empty() {
        let entries = stubs(alloc, tech, tracks, die, pin, rects)?;
        return Ok(entries);
    }
    let entries = pin_entries(alloc, pin, vertices)?;
    Ok(entries)
}
