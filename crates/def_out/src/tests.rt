// The wiring of one wire, and the call on a chip without nets.
ghost use Rattle.std.specs.Prelude.{◌≡◌, []};
ghost use Rattle.track_graph.specs.Designs.{IsDesign};

use super::*;
use rt_base::{Grid, Layer, LayerNo, Name, Rect, Seq, SpacingTable, Via};
use std::test::Fail;
use track_graph::{Options, Tracks};

fn layer(alloc: Global, name: &[u8], routing: bool) -> Result<Layer, Memory> {
    Ok(Layer {
        name: Name::new(alloc, name)?,
        routing,
        horizontal: true,
        width: 100,
        spacing: 100,
        table: SpacingTable {
            lengths: Seq::new(alloc),
            rows: Seq::new(alloc),
        },
    })
}

fn v12(alloc: Global) -> Result<Via, Memory> {
    let pad = Rect {
        xl: -50,
        yl: -50,
        xh: 50,
        yh: 50,
    };
    let mut rects = Seq::new(alloc);
    rects.push((LayerNo(2), pad))?;
    rects.push((LayerNo(1), pad))?;
    rects.push((LayerNo(0), pad))?;
    Ok(Via {
        name: Name::new(alloc, b"V12")?,
        usable: true,
        rects,
    })
}

/// M1, C1 and M2, and a via between M1 and M2.
fn tech(alloc: Global) -> Result<Tech, Memory> {
    let mut layers = Seq::new(alloc);
    layers.push(layer(alloc, b"M1", true)?)?;
    layers.push(layer(alloc, b"C1", false)?)?;
    layers.push(layer(alloc, b"M2", true)?)?;
    let mut vias = Seq::new(alloc);
    vias.push(v12(alloc)?)?;
    Ok(Tech { layers, vias })
}

/// No layer, no net.
fn empty(alloc: Global) -> Design
    ensures design { IsDesign result }
    ensures no_nets { result.nets ≡ [] }
{
    let die = Rect {
        xl: 0,
        yl: 0,
        xh: 2000,
        yh: 2000,
    };
    Design {
        tech: Tech {
            layers: Seq::new(alloc),
            vias: Seq::new(alloc),
        },
        tracks: Tracks {
            lines: Seq::new(alloc),
            largest_step: Seq::new(alloc),
        },
        grid: Grid { die, tile: 6400 },
        nets: Seq::new(alloc),
        fixed: Seq::new(alloc),
        options: Options {
            via: 1000,
            tile: 6400,
            rips: 3,
        },
        skipped: Seq::new(alloc),
    }
}

#[test]
fn one_wire(rt: HostRuntime) -> Result<(), Fail> {
    let alloc = rt.alloc();
    let chip = tech(alloc)?;
    let strokes = [
        Stroke::Run {
            level: 0,
            a: Point { x: 100, y: 100 },
            b: Point { x: 900, y: 100 },
        },
        Stroke::Via {
            via: 0,
            point: Point { x: 900, y: 100 },
        },
        Stroke::Run {
            level: 1,
            a: Point { x: 900, y: 100 },
            b: Point { x: 900, y: 500 },
        },
    ];
    let mut text = Text::new(alloc);
    wiring(&mut text, &chip, &strokes)?;
    let wanted =
        b"\n  + ROUTED M1 ( 100 100 ) ( 900 100 )\n    NEW M1 ( 900 100 ) V12\n    NEW M2 ( 900 100 ) ( 900 500 )\n";
    assert_eq!(rt; text.as_slice(), wanted.as_slice());
    Ok(())
}

#[test]
fn no_nets(rt: HostRuntime) -> Result<(), Fail> {
    let alloc = rt.alloc();
    let chip = empty(alloc);
    let state = State::first(alloc, &chip)?;
    let text = b"DESIGN top ;\nNETS 0 ;\nEND NETS\nEND DESIGN\n";
    let out = write_def(alloc, text, &chip, &state)?;
    assert_eq!(rt; out.as_slice(), text.as_slice());
    Ok(())
}
