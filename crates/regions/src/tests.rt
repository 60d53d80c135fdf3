//! Worked rows, on a chip of two levels with a die of 20 by 20 tiles, each with a side of 1000 units.
ghost use Rattle.std.specs.Prelude.{◌≡◌, [], true, pos, ◌^◌, All, IfOk};
ghost use Rattle.rt_base.specs.Ranges.{AreSidesWithin};
ghost use Rattle.track_graph.specs.Designs.{IsNet, IsDesign};
ghost use Rattle.track_graph.specs.Levels.{TrackSystem};

use crate::{covered, halo, tiles_of};
use rt_base::{Grid, Layer, Memory, Name, Point, Rect, Seq, SpacingTable, Span, Tech};
use std::alloc::Global;
use std::test::Fail;
use track_graph::{Design, Net, NetKind, Options, Tracks, level_layer};

/// A box of a guide: its level, and the coordinates of two opposite corners.
type Corners = (u8, [u32; 4]);

/// A routing layer, with wires of 100 units that keep 100 units apart.
fn layer(alloc: Global, name: &[u8], horizontal: bool) -> Result<Layer, Memory>
    ensures { IfOk result (λ l. l ≡ record { name = name.now; routing = true; horizontal = horizontal; width = pos 100; spacing = pos 100; table = record { lengths = []; rows = [] } }) }
{
    Ok(Layer {
        name: Name::new(alloc, name)?,
        routing: true,
        horizontal,
        width: 100,
        spacing: 100,
        table: SpacingTable {
            lengths: Seq::new(alloc),
            rows: Seq::new(alloc),
        },
    })
}

fn point(x: u32, y: u32) -> Point
    ensures { result ≡ record { x = pos x; y = pos y } }
{
    Point {
        x: i64::from(x),
        y: i64::from(y),
    }
}

fn rect(corners: [u32; 4]) -> Rect
    ensures { AreSidesWithin (2 ^ 32) result }
{
    let [xl, yl, xh, yh] = corners;
    Rect::hull(point(xl, yl), point(xh, yh))
}

fn guide(alloc: Global, boxes: &[Corners]) -> Result<Seq<(u8, Rect)>, Memory>
    ensures { IfOk result (λ guide. All (λ b. AreSidesWithin (2 ^ 32) b.1) guide) }
{
    let mut guide = Seq::new(alloc);
    for corners in boxes {
        guide.push((corners.0, rect(corners.1)))?;
    }
    Ok(guide)
}

/// A net without pins.
fn net(alloc: Global, name: &[u8], boxes: &[Corners]) -> Result<Net, Memory>
    ensures name { IfOk result (λ net. net.name ≡ name.now) }
    ensures net { (g : TrackSystem) → IfOk result (IsNet g) }
{
    Ok(Net {
        name: Name::new(alloc, name)?,
        pins: Seq::new(alloc),
        guide: guide(alloc, boxes)?,
        kind: NetKind::Single,
        close: 0,
    })
}

/// The chip with the nets a and b, which have these guides. The tracks of M1 run in x and those of M2
/// in y, with a step of 200 units.
fn chip(alloc: Global, first: &[Corners], second: &[Corners]) -> Result<Design, Memory>
    ensures { IfOk result IsDesign }
{
    let lower = layer(alloc, b"M1", true)?;
    let upper = layer(alloc, b"M2", false)?;
    let a = net(alloc, b"a", first)?;
    let b = net(alloc, b"b", second)?;
    let die = Rect {
        xl: 0,
        yl: 0,
        xh: 20_000,
        yh: 20_000,
    };
    Ok(Design {
        tech: Tech {
            layers: Seq::from_vec(vec![in alloc; lower, upper]?),
            vias: Seq::new(alloc),
        },
        tracks: Tracks {
            lines: Seq::from_vec(vec![in alloc; Seq::new(alloc), Seq::new(alloc)]?),
            largest_step: Seq::from_vec(vec![in alloc; 200, 200]?),
        },
        grid: Grid { die, tile: 1000 },
        nets: Seq::from_vec(vec![in alloc; a, b]?),
        fixed: Seq::new(alloc),
        options: Options {
            via: 1000,
            tile: 1000,
            rips: 0,
        },
        skipped: Seq::new(alloc),
    })
}

/// The spans of a track line of a level in the guide of the first net.
fn spans(alloc: Global, boxes: &[Corners], level: u8, line: i64) -> Result<Vec<Span>, Memory> {
    let design = chip(alloc, boxes, &[])?;
    match level_layer(&design.tech, level) {
        Some(_) => covered(alloc, &design, 0, level, line),
        None => Err(Memory),
    }
}

fn span(lo: i64, hi: i64) -> Span {
    Span { lo, hi }
}

#[test]
fn spans_of_a_line(rt: HostRuntime) -> Result<(), Fail> {
    let rows: [(&[Corners], u8, i64, &[Span]); 9] = [
        (
            &[(0, [0, 0, 399, 200]), (0, [400, 0, 1000, 200])],
            0,
            100,
            &[span(0, 1000)],
        ),
        (
            &[(0, [0, 0, 399, 200]), (0, [401, 0, 1000, 200])],
            0,
            100,
            &[span(0, 399), span(401, 1000)],
        ),
        (
            &[(0, [400, 0, 1000, 200]), (0, [0, 0, 399, 200])],
            0,
            100,
            &[span(0, 1000)],
        ),
        (
            &[(0, [0, 0, 500, 200]), (0, [300, 0, 1000, 200])],
            0,
            100,
            &[span(0, 1000)],
        ),
        (
            &[(0, [0, 0, 1000, 200]), (0, [300, 0, 500, 200])],
            0,
            100,
            &[span(0, 1000)],
        ),
        (
            &[(0, [0, 0, 399, 200]), (0, [400, 0, 1000, 200])],
            0,
            300,
            &[],
        ),
        (
            &[(0, [0, 0, 399, 200]), (0, [400, 0, 1000, 200])],
            1,
            100,
            &[],
        ),
        (
            &[(1, [0, 100, 200, 100]), (1, [0, 300, 200, 400])],
            1,
            200,
            &[span(100, 100), span(300, 400)],
        ),
        (&[], 0, 100, &[]),
    ];
    for (boxes, level, line, wanted) in rows {
        let found = spans(rt.alloc(), boxes, level, line)?;
        assert_eq!(rt; found.as_slice(), wanted);
    }
    Ok(())
}

#[test]
fn halo_of_two_layers(rt: HostRuntime) -> Result<(), Fail> {
    // Two steps of 200, half a width of 100, and a spacing of 100.
    let design = chip(rt.alloc(), &[], &[])?;
    assert_eq!(rt; halo(&design), 550);
    Ok(())
}

#[test]
fn tiles_of_nets(rt: HostRuntime) -> Result<(), Fail> {
    let first: [Corners; 2] = [(0, [0, 0, 1000, 1000]), (1, [0, 0, 1000, 1000])];
    let second: [Corners; 2] = [
        (0, [10_000, 10_000, 11_000, 11_000]),
        (1, [10_000, 10_000, 11_000, 11_000]),
    ];
    let rows: [(&[Corners], u32, &[u32]); 7] = [
        (&first, 0, &[0, 1, 20, 21]),
        (&first, 1, &[189, 190, 191, 209, 210, 211, 229, 230, 231]),
        (&first, 2, &[]),
        (&[], 0, &[0]),
        (&[], 2, &[]),
        (&[(0, [0, 0, 449, 449])], 0, &[0]),
        (&[(0, [0, 0, 450, 449])], 0, &[0, 1]),
    ];
    for (boxes, net, wanted) in rows {
        let design = chip(rt.alloc(), boxes, &second)?;
        let found = tiles_of(rt.alloc(), &design, net)?;
        assert_eq!(rt; found.as_slice(), wanted);
    }
    Ok(())
}
