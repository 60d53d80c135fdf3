//! The rectangles of wiring.
ghost use Rattle.std.specs.Prelude.{◌≡◌, ◌++◌, ◌+◌, ◌^◌, ◌≤ℤ◌, ◌<◌, pos, map, length, unwrap_or, All, IfOk, OnOk, IfSome};
ghost use Rattle.rt_base.specs.Ranges.{IsWithin, IsPointWithin, AreSidesWithin};
ghost use Rattle.def_wires.specs.Sound.{IsTech, IsWiring, IsWirePath, IsStep, IsOn, IsLength, IsWireLength, IsSpot};
ghost use Rattle.def_wires.specs.Meaning.{Metal, half, across, along, box_of, wire_between, width_of_layer, width_on, reach_on, wire_to, on_layer, via_metal, rects_of_via, step_metal, wiring_metal, path_metal};
ghost use Rattle.def_wires.specs.Walks.{spot_after};

use crate::joined::{beyond, joined_by};
use crate::wiring::{Spot, WirePath, WireStep, Wiring};
use rt_base::{LayerNo, Memory, Orient, Point, Rect, Seq, Span, Tech, place};
use std::alloc::Global;

/// The ends of a wire along x or y, and how far it reaches beyond them.
#[derive(Clone, Copy)]
struct Ends {
    from: i64,
    near: i64,
    to: i64,
    far: i64,
}

/// A line along x or y, and the width of a wire on it.
#[derive(Clone, Copy)]
struct Breadth {
    at: i64,
    width: i64,
}

/// How wide wires are, and how far they reach beyond a point without an extension.
#[derive(Clone, Copy)]
struct Gauge {
    width: i64,
    reach: i64,
}

/// The range of a wire along its direction.
fn along(ends: Ends) -> Span
    requires from { IsWithin (2 ^ 61) ends.from }
    requires to { IsWithin (2 ^ 61) ends.to }
    requires near { IsWireLength ends.near }
    requires far { IsWireLength ends.far }
    ensures value { result ≡ along ends.from ends.near ends.to ends.far }
    ensures ordered { result.lo ≤ℤ result.hi }
{
    if ends.from <= ends.to {
        return Span {
            lo: ends.from - ends.near,
            hi: ends.to + ends.far,
        };
    }
    Span {
        lo: ends.to - ends.far,
        hi: ends.from + ends.near,
    }
}

/// The range of a wire across its direction, an odd unit above.
fn across(breadth: Breadth) -> Span
    requires at { IsWithin (2 ^ 61) breadth.at }
    requires width { IsWireLength breadth.width }
    ensures value { result ≡ across breadth.at breadth.width }
    ensures ordered { result.lo ≤ℤ result.hi }
{
    let lower = (breadth.width as u64 / 2) as i64;
    Span {
        lo: breadth.at - lower,
        hi: breadth.at + (breadth.width - lower),
    }
}

/// How wide a wire is, and how far it reaches beyond its two ends.
#[derive(Clone, Copy)]
struct Wire {
    width: i64,
    near: i64,
    far: i64,
}

/// The rectangle of two ranges.
fn box_of(x: Span, y: Span) -> Rect
    requires x { x.lo ≤ℤ x.hi }
    requires y { y.lo ≤ℤ y.hi }
    ensures { result ≡ box_of x y }
{
    Rect {
        xl: x.lo,
        yl: y.lo,
        xh: x.hi,
        yh: y.hi,
    }
}

/// The wire between two points that differ in one coordinate, None where they are equal.
fn wire_between(from: Point, to: Point, wire: Wire) -> Option<Rect>
    requires from { IsPointWithin (2 ^ 61) from }
    requires to { IsPointWithin (2 ^ 61) to }
    requires width { IsWireLength wire.width }
    requires near { IsWireLength wire.near }
    requires far { IsWireLength wire.far }
    ensures { result ≡ wire_between wire.width from wire.near to wire.far }
{
    if from.y == to.y {
        if from.x == to.x {
            return None;
        }
        let x = along(Ends {
            from: from.x,
            near: wire.near,
            to: to.x,
            far: wire.far,
        });
        let y = across(Breadth {
            at: from.y,
            width: wire.width,
        });
        return Some(box_of(x, y));
    }
    let x = across(Breadth {
        at: from.x,
        width: wire.width,
    });
    let y = along(Ends {
        from: from.y,
        near: wire.near,
        to: to.y,
        far: wire.far,
    });
    Some(box_of(x, y))
}

/// The width of the wires of a layer, 0 where it has none.
fn width_of_layer(tech: &Tech, layer: LayerNo) -> i64
    requires { IsTech tech.now }
    ensures value { result ≡ width_of_layer tech.now layer.0 }
    ensures length { IsWireLength result }
{
    match tech.layers.as_slice().get(layer.0 as usize) {
        None => 0,
        Some(found) => {
            if found.routing {
                return found.width;
            }
            0
        }
    }
}

/// How wide the wires of a path are on a layer, and how far they reach beyond its points.
fn gauge_on(tech: &Tech, width: Option<i64>, layer: LayerNo) -> Gauge
    requires tech { IsTech tech.now }
    requires width { IfSome width IsLength }
    ensures width { result.width ≡ width_on tech.now width layer.0 }
    ensures reach { result.reach ≡ reach_on tech.now width layer.0 }
    ensures wide { IsWireLength result.width }
    ensures long { IsWireLength result.reach }
{
    match width {
        Some(width) => Gauge { width, reach: 0 },
        None => {
            let width = width_of_layer(tech, layer);
            let reach = (width as u64 / 2) as i64;
            Gauge { width, reach }
        }
    }
}

/// The wire from where a path stands to a point.
fn wire_to(
    tech: &Tech,
    width: Option<i64>,
    spot: Spot,
    point: Point,
    ext: Option<i64>,
) -> Option<Rect>
    requires tech { IsTech tech.now }
    requires width { IfSome width IsLength }
    requires spot { IsSpot spot }
    requires point { IsPointWithin (2 ^ 61) point }
    requires ext { IfSome ext IsLength }
    ensures { result ≡ wire_to tech.now width spot point ext }
{
    let gauge = gauge_on(tech, width, spot.layer);
    let near = spot.ext.unwrap_or(gauge.reach);
    let far = ext.unwrap_or(gauge.reach);
    let wire = Wire {
        width: gauge.width,
        near,
        far,
    };
    wire_between(spot.point, point, wire)
}

/// Adds a wire, if there is one.
fn add_wire(
    metal: &mut Seq<(LayerNo, Rect)>,
    layer: LayerNo,
    wire: Option<Rect>,
) -> Result<(), Memory>
    ensures { OnOk result (metal.new ≡ metal.old ++ on_layer layer wire) }
{
    if let Some(rect) = wire {
        metal.push((layer, rect))?;
    }
    Ok(())
}

/// Adds the rectangles of a via, turned and moved.
fn add_via(
    metal: &mut Seq<(LayerNo, Rect)>,
    rects: &[(LayerNo, Rect)],
    orient: Orient,
    at: Point,
) -> Result<(), Memory>
    requires rects { All (λ (m : Metal). AreSidesWithin (2 ^ 60 + 2 ^ 30) m.1) rects.now }
    requires at { IsPointWithin (2 ^ 61) at }
    ensures { OnOk result (metal.new ≡ metal.old ++ map (via_metal orient at) rects.now) }
{
    'rects: for (layer, rect) in rects {
        metal.push((*layer, place(orient, 0, 0, *rect).moved(at)))?;
    }
    Ok(())
}

/// The rectangles of a via, none where there is no such via.
fn rects_of_via(tech: &Tech, via: u32) -> &[(LayerNo, Rect)]
    ensures { result.now ≡ rects_of_via tech.now via }
{
    match tech.vias.as_slice().get(via as usize) {
        None => &[],
        Some(found) => found.rects.as_slice(),
    }
}

/// Adds the rectangles of a step.
fn add_step(
    metal: &mut Seq<(LayerNo, Rect)>,
    tech: &Tech,
    width: Option<i64>,
    spot: Spot,
    step: &WireStep,
) -> Result<(), Memory>
    requires tech { IsTech tech.now }
    requires width { IfSome width IsLength }
    requires spot { IsSpot spot }
    requires step { IsStep tech.now step.now }
    ensures { OnOk result (metal.new ≡ metal.old ++ step_metal tech.now width spot step.now) }
{
    match step {
        WireStep::Start { .. } => Ok(()),
        WireStep::Go { point, ext } => {
            let wire = wire_to(tech, width, spot, *point, *ext);
            add_wire(metal, spot.layer, wire)
        }
        WireStep::Via { via, orient } => {
            let rects = rects_of_via(tech, *via);
            add_via(metal, rects, *orient, spot.point)
        }
        WireStep::Patch { rect } => {
            metal.push((spot.layer, rect.moved(spot.point)))?;
            Ok(())
        }
    }
}

/// Where a path stands behind a step.
fn spot_after(tech: &Tech, spot: Spot, step: &WireStep) -> Spot
    ensures { result ≡ spot_after tech.now spot step.now }
{
    match step {
        WireStep::Start { layer, point, ext } => Spot {
            layer: *layer,
            point: *point,
            ext: *ext,
        },
        WireStep::Go { point, ext } => Spot {
            layer: spot.layer,
            point: *point,
            ext: *ext,
        },
        WireStep::Via { via, .. } => {
            let joined = joined_by(tech, rects_of_via(tech, *via));
            Spot {
                layer: beyond(joined, spot.layer),
                point: spot.point,
                ext: spot.ext,
            }
        }
        WireStep::Patch { .. } => spot,
    }
}

/// Adds the rectangles of a path.
fn add_path(metal: &mut Seq<(LayerNo, Rect)>, tech: &Tech, path: &WirePath) -> Result<(), Memory>
    requires tech { IsTech tech.now }
    requires path { IsWirePath tech.now path.now }
    ensures { OnOk result (metal.new ≡ metal.old ++ path_metal tech.now path.now) }
{
    let mut spot = Spot {
        layer: LayerNo(0),
        point: Point { x: 0, y: 0 },
        ext: None,
    };
    'steps: for step in path.steps.as_slice() {
        add_step(metal, tech, path.width, spot, step)?;
        spot = spot_after(tech, spot, step);
    }
    Ok(())
}

/// The rectangles of wiring with their layers, path by path and step by step. A wire between two
/// points that differ is as wide as its path says, or in regular wiring as its layer does, an odd
/// unit above; it reaches beyond a point by the point's extension, and where that has none in regular
/// wiring by half the width. A via gives its rectangles, turned and moved to its point. A rectangle of
/// the path is moved to the last point.
pub fn denote(alloc: Global, wiring: &Wiring, tech: &Tech) -> Result<Seq<(LayerNo, Rect)>, Memory>
    requires tech { IsTech tech.now }
    requires wiring { IsWiring tech.now wiring.now }
    ensures value { IfOk result (λ metal. metal ≡ wiring_metal tech.now wiring.now) }
    ensures within { IfOk result (λ metal. All (IsOn (length tech.now.layers) (2 ^ 62)) metal) }
{
    let mut metal = Seq::new(alloc);
    'paths: for path in wiring.paths.as_slice() {
        add_path(&mut metal, tech, path)?;
    }
    Ok(metal)
}
