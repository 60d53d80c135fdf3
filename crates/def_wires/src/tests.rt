//! Worked wirings and vias, and damaged ones.
ghost use Rattle.std.specs.Prelude.{◌≡◌, ◌<◌, ◌≤◌, ◌+◌, ◌^◌, length, All, IfOk, OnOk};
ghost use Rattle.rt_base.specs.Tokens.{AllInside};
ghost use Rattle.def_wires.specs.Sound.{HasWidth, IsTech};

use crate::{TechNames, WireFault, denote, read_via, read_wiring};
use rt_base::{Layer, LayerNo, Name, Rect, Seq, SpacingTable, Tech, Token, tokens};
use std::alloc::Global;
use std::test::Fail;

/// A layer whose wires are 100 units wide.
fn layer(alloc: Global, name: &[u8], routing: bool) -> Result<Layer, WireFault>
    ensures { IfOk result HasWidth }
{
    Ok(Layer {
        name: Name::new(alloc, name)?,
        routing,
        horizontal: true,
        width: 100,
        spacing: 100,
        table: SpacingTable {
            lengths: Seq::new(alloc),
            rows: Seq::new(alloc),
        },
    })
}

/// The tokens of a text.
fn cut(alloc: Global, text: &[u8]) -> Result<Vec<Token>, WireFault>
    ensures { IfOk result (λ v. AllInside (length text.now) v.items) }
{
    if text.len() > 1000 {
        return Err(WireFault::Memory);
    }
    match tokens(alloc, text) {
        Ok(tokens) => Ok(tokens),
        Err(_) => Err(WireFault::Memory),
    }
}

/// Adds a layer.
fn add_layer(
    alloc: Global,
    layers: &mut Seq<Layer>,
    name: &[u8],
    routing: bool,
) -> Result<(), WireFault>
    requires { All HasWidth layers.old }
    ensures widths { OnOk result (All HasWidth layers.new) }
    ensures count { OnOk result (length layers.new ≡ length layers.old + 1) }
{
    let layer = layer(alloc, name, routing)?;
    layers.push(layer)?;
    Ok(())
}

/// Five layers.
fn five_layers(alloc: Global) -> Result<Seq<Layer>, WireFault>
    ensures widths { IfOk result (All HasWidth) }
    ensures count { IfOk result (λ layers. length layers ≡ 5) }
{
    let mut layers = Seq::new(alloc);
    add_layer(alloc, &mut layers, b"M1", true)?;
    add_layer(alloc, &mut layers, b"C1", false)?;
    add_layer(alloc, &mut layers, b"M2", true)?;
    add_layer(alloc, &mut layers, b"C2", false)?;
    add_layer(alloc, &mut layers, b"M3", true)?;
    Ok(layers)
}

/// The five layers without vias.
fn without_vias(alloc: Global) -> Result<Tech, WireFault>
    ensures tech { IfOk result IsTech }
    ensures count { IfOk result (λ tech. length tech.vias ≡ 0) }
{
    let layers = five_layers(alloc)?;
    Ok(Tech {
        layers,
        vias: Seq::new(alloc),
    })
}

/// Reads a via and adds it.
fn add_via(alloc: Global, tech: &mut Tech, name: &[u8], text: &[u8]) -> Result<(), WireFault>
    requires tech { IsTech tech.old }
    requires few { length tech.old.vias < 100 }
    ensures tech { OnOk result (IsTech tech.new) }
    ensures count { OnOk result (length tech.new.vias ≡ length tech.old.vias + 1) }
{
    let names = TechNames::new(alloc, tech)?;
    let tokens = cut(alloc, text)?;
    let via = read_via(alloc, name, text, tokens.as_slice(), tech, &names)?;
    tech.vias.push(via)?;
    Ok(())
}

/// Five layers and five vias, of which the first has the name of the second.
fn technology(alloc: Global) -> Result<Tech, WireFault>
    ensures { IfOk result IsTech }
{
    let mut tech = without_vias(alloc)?;
    add_via(alloc, &mut tech, b"V12", b"+ RECT M1 ( 1 1 ) ( 2 2 )")?;
    add_via(
        alloc,
        &mut tech,
        b"V12",
        b"+ RECT M1 ( -50 -50 ) ( 50 50 ) + RECT C1 ( -25 -25 ) ( 25 25 ) + RECT M2 ( 50 50 ) ( -50 -50 )",
    )?;
    add_via(
        alloc,
        &mut tech,
        b"A",
        b"+ RECT M1 ( -50 -50 ) ( 50 50 ) + RECT M2 ( -10 -20 ) ( 30 40 )",
    )?;
    add_via(
        alloc,
        &mut tech,
        b"ONE",
        b"+ RECT M1 ( 0 0 ) ( 1 1 ) + RECT C1 ( 0 0 ) ( 1 1 )",
    )?;
    add_via(
        alloc,
        &mut tech,
        b"VP",
        b"+ VIARULE V12gen + CUTSIZE 50 50 + LAYERS M1 C1 M2 + CUTSPACING 100 100 + ENCLOSURE 20 20 20 20 + ROWCOL 1 2",
    )?;
    Ok(tech)
}

/// The rectangles of wiring.
fn metal(
    alloc: Global,
    tech: &Tech,
    special: bool,
    text: &[u8],
) -> Result<Seq<(LayerNo, Rect)>, WireFault>
    requires { IsTech tech.now }
{
    let names = TechNames::new(alloc, tech)?;
    let tokens = cut(alloc, text)?;
    let wiring = read_wiring(alloc, text, tokens.as_slice(), tech, &names, special)?;
    Ok(denote(alloc, &wiring, tech)?)
}

fn is(found: &(LayerNo, Rect), want: &(u32, i64, i64, i64, i64)) -> bool {
    found.0.0 == want.0
        && found.1.xl == want.1
        && found.1.yl == want.2
        && found.1.xh == want.3
        && found.1.yh == want.4
}

fn same(found: &[(LayerNo, Rect)], want: &[(u32, i64, i64, i64, i64)]) -> bool {
    if found.len() != want.len() {
        return false;
    }
    for (f, w) in found.iter().zip(want) {
        if !is(f, w) {
            return false;
        }
    }
    true
}

struct Row {
    special: bool,
    text: &'static [u8],
    want: &'static [(u32, i64, i64, i64, i64)],
}

const ROWS: [Row; 16] = [
    Row {
        special: true,
        text: b"M1 101 ( 0 300 ) ( 500 * )",
        want: &[(0, 0, 250, 500, 351)],
    },
    Row {
        special: true,
        text: b"M1 0 ( 0 0 ) V12 DO 2 BY 1 STEP 400 0",
        want: &[
            (0, -50, -50, 50, 50),
            (1, -25, -25, 25, 25),
            (2, -50, -50, 50, 50),
            (0, 350, -50, 450, 50),
            (1, 375, -25, 425, 25),
            (2, 350, -50, 450, 50),
        ],
    },
    Row {
        special: false,
        text: b"M1 ( 100 100 0 ) ( 500 100 )",
        want: &[(0, 100, 50, 550, 150)],
    },
    Row {
        special: false,
        text: b"M1 ( 100 100 ) ( * * ) ( 500 * )",
        want: &[(0, 50, 50, 550, 150)],
    },
    Row {
        special: false,
        text: b"M1 TAPER ( 500 100 ) ( 100 * 20 )",
        want: &[(0, 80, 50, 550, 150)],
    },
    Row {
        special: false,
        text: b"M1 ( 0 0 ) V12 ( 0 200 )",
        want: &[
            (0, -50, -50, 50, 50),
            (1, -25, -25, 25, 25),
            (2, -50, -50, 50, 50),
            (2, -50, -50, 50, 250),
        ],
    },
    Row {
        special: false,
        text: b"M2 ( 7 0 ) A W NEW M1 ( 0 0 ) RECT ( 5 6 -1 -2 )",
        want: &[
            (0, -43, -50, 57, 50),
            (2, -33, -10, 27, 30),
            (0, -1, -2, 5, 6),
        ],
    },
    Row {
        special: true,
        text: b"+ ROUTED + SHAPE RING + RECT C1 ( 10 20 ) ( 0 0 )",
        want: &[(1, 0, 0, 10, 20)],
    },
    Row {
        special: true,
        text: b"+ RECT M3 ( 0 0 ) ( 1 1 )",
        want: &[(4, 0, 0, 1, 1)],
    },
    Row {
        special: true,
        text: b"+ SHAPE RING + RECT M3 ( 0 0 ) ( 1 1 )",
        want: &[(4, 0, 0, 1, 1)],
    },
    Row {
        special: true,
        text: b"+ COVER + VIA A N ( 0 0 ) ( 100 0 )",
        want: &[
            (0, -50, -50, 50, 50),
            (2, -10, -20, 30, 40),
            (0, 50, -50, 150, 50),
            (2, 90, -20, 130, 40),
        ],
    },
    Row {
        special: true,
        text: b"+ FIXED + SHAPE STRIPE + VIA A ( 0 0 )",
        want: &[(0, -50, -50, 50, 50), (2, -10, -20, 30, 40)],
    },
    Row {
        special: true,
        text: b"M1 100 + SHAPE FOLLOWPIN ( 0 1950 ) ( 4000 * )",
        want: &[(0, 0, 1900, 4000, 2000)],
    },
    Row {
        special: true,
        text: b"M1 0 + SHAPE STRIPE ( 2000 1950 ) VP",
        want: &[
            (0, 1880, 1905, 2120, 1995),
            (2, 1880, 1905, 2120, 1995),
            (1, 1900, 1925, 1950, 1975),
            (1, 2050, 1925, 2100, 1975),
        ],
    },
    Row {
        special: true,
        text: b"M1 10 ( 0 0 3 ) A DO 1 BY 2 STEP 5 -7 ( 100 0 )",
        want: &[
            (0, -50, -50, 50, 50),
            (2, -10, -20, 30, 40),
            (0, -50, -57, 50, 43),
            (2, -10, -27, 30, 33),
            (2, -3, -5, 100, 5),
        ],
    },
    Row {
        special: false,
        text: b"M1 ( 0 500 9 ) ( * 100 8 ) ( 300 * )",
        want: &[(0, -50, 92, 50, 509), (0, -8, 50, 350, 150)],
    },
];

#[test]
fn wiring_means_its_rectangles(rt: HostRuntime) -> Result<(), Fail> {
    let alloc = rt.alloc();
    let tech = technology(alloc)?;
    for row in &ROWS {
        let metal = metal(alloc, &tech, row.special, row.text)?;
        assert!(rt; same(metal.as_slice(), row.want));
    }
    Ok(())
}

/// The fault of wiring.
fn fault(alloc: Global, tech: &Tech, special: bool, text: &[u8]) -> Option<WireFault>
    requires { IsTech tech.now }
{
    match metal(alloc, tech, special, text) {
        Ok(_) => None,
        Err(fault) => Some(fault),
    }
}

struct Damage {
    special: bool,
    text: &'static [u8],
    fault: WireFault,
}

const DAMAGED: [Damage; 40] = [
    Damage {
        special: false,
        text: b"",
        fault: WireFault::Expected { line: 1 },
    },
    Damage {
        special: false,
        text: b"\nM1",
        fault: WireFault::Expected { line: 2 },
    },
    Damage {
        special: false,
        text: b"M1\n( 0",
        fault: WireFault::Expected { line: 2 },
    },
    Damage {
        special: false,
        text: b"M1\n( 0 0 )\nNEW",
        fault: WireFault::Expected { line: 3 },
    },
    Damage {
        special: false,
        text: b"M1 ( 0 0 )\nRECT\n( 0 0\n1",
        fault: WireFault::Expected { line: 4 },
    },
    Damage {
        special: false,
        text: b"+\nROUTED",
        fault: WireFault::Expected { line: 2 },
    },
    Damage {
        special: true,
        text: b"+\nROUTED",
        fault: WireFault::Expected { line: 2 },
    },
    Damage {
        special: true,
        text: b"+\nSHAPE\nRING",
        fault: WireFault::Expected { line: 3 },
    },
    Damage {
        special: true,
        text: b"\n+\nSHAPE RING\nM1 100 ( 0 0 )",
        fault: WireFault::Expected { line: 2 },
    },
    Damage {
        special: true,
        text: b"M1 100\n+ SHAPE\n+ ( 0 0 )",
        fault: WireFault::Expected { line: 3 },
    },
    Damage {
        special: true,
        text: b"M1 100 ( 0 0 )\n+ SHAPE RING",
        fault: WireFault::Expected { line: 2 },
    },
    Damage {
        special: false,
        text: b"C1\n( 0 0 )",
        fault: WireFault::NoSuchLayer { line: 1 },
    },
    Damage {
        special: false,
        text: b"\nM9 ( 0 0 )",
        fault: WireFault::NoSuchLayer { line: 2 },
    },
    Damage {
        special: false,
        text: b"TAPERRULE ( 0 0 )",
        fault: WireFault::NoSuchLayer { line: 1 },
    },
    Damage {
        special: false,
        text: b"( 0 0 )",
        fault: WireFault::Expected { line: 1 },
    },
    Damage {
        special: false,
        text: b"\"M1\" ( 0 0 )",
        fault: WireFault::Expected { line: 1 },
    },
    Damage {
        special: false,
        text: b"M1\nTAPERRULE r ( 0 0 )",
        fault: WireFault::Refused { line: 2 },
    },
    Damage {
        special: false,
        text: b"M1 TAPER\nSTYLE 1 ( 0 0 )",
        fault: WireFault::Refused { line: 2 },
    },
    Damage {
        special: false,
        text: b"M1 ( 0 0 )\nMASK 1 ( 0 1 )",
        fault: WireFault::Refused { line: 2 },
    },
    Damage {
        special: false,
        text: b"M1 ( 0 0 )\nVIRTUAL ( 0 1 )",
        fault: WireFault::Refused { line: 2 },
    },
    Damage {
        special: false,
        text: b"M1 (\n* 0 )",
        fault: WireFault::FirstStar { line: 2 },
    },
    Damage {
        special: false,
        text: b"M1 ( 0\n* )",
        fault: WireFault::FirstStar { line: 2 },
    },
    Damage {
        special: false,
        text: b"M1 ( 0 0 ) ( 1\n1\nx )",
        fault: WireFault::Diagonal { line: 2 },
    },
    Damage {
        special: false,
        text: b"M1 ( 0 0\nx )",
        fault: WireFault::Number { line: 2 },
    },
    Damage {
        special: false,
        text: b"M1 ( 0 0\n-1 )",
        fault: WireFault::Number { line: 2 },
    },
    Damage {
        special: false,
        text: b"M1 ( 0 0 1\n1 )",
        fault: WireFault::Expected { line: 2 },
    },
    Damage {
        special: false,
        text: b"M1 ( 0 1.5 )",
        fault: WireFault::Number { line: 1 },
    },
    Damage {
        special: false,
        text: b"M1 ( 0 1073741825 )",
        fault: WireFault::Number { line: 1 },
    },
    Damage {
        special: false,
        text: b"M1 ( 0 0 )\nV99",
        fault: WireFault::NoSuchVia { line: 2 },
    },
    Damage {
        special: false,
        text: b"M3 ( 0 0 )\nV12",
        fault: WireFault::ViaOffLayer { line: 2 },
    },
    Damage {
        special: false,
        text: b"M1 ( 0 0 )\nONE",
        fault: WireFault::ViaOffLayer { line: 2 },
    },
    Damage {
        special: false,
        text: b"M1 ( 0 0 ) V12\nDO 2 BY 1 STEP 1 1",
        fault: WireFault::NoSuchVia { line: 2 },
    },
    Damage {
        special: true,
        text: b"M1\n-1 ( 0 0 )",
        fault: WireFault::Number { line: 2 },
    },
    Damage {
        special: true,
        text: b"M1 0 ( 0 0 )\n( 0 1 )",
        fault: WireFault::Expected { line: 2 },
    },
    Damage {
        special: true,
        text: b"M1 0 ( 0 0 ) V12 DO\n0 BY 1 STEP 1 1",
        fault: WireFault::Number { line: 2 },
    },
    Damage {
        special: true,
        text: b"M1 0 ( 0 0 ) V12 DO 2\nSTEP 1 1",
        fault: WireFault::Expected { line: 2 },
    },
    Damage {
        special: true,
        text: b"+ RECT\nMASK ( 0 0 ) ( 1 1 )",
        fault: WireFault::NoSuchLayer { line: 2 },
    },
    Damage {
        special: true,
        text: b"+ RECT M1 ( 0\n* ) ( 1 1 )",
        fault: WireFault::Number { line: 2 },
    },
    Damage {
        special: true,
        text: b"+ VIA ONE\n( 0 0 )",
        fault: WireFault::ViaOffLayer { line: 1 },
    },
    Damage {
        special: true,
        text: b"+ VIA\nV12\nN",
        fault: WireFault::Expected { line: 3 },
    },
];

#[test]
fn damaged_wiring_is_refused_at_its_line(rt: HostRuntime) -> Result<(), Fail> {
    let alloc = rt.alloc();
    let tech = technology(alloc)?;
    for row in &DAMAGED {
        assert!(rt; fault(alloc, &tech, row.special, row.text) == Some(row.fault));
    }
    Ok(())
}

#[test]
fn arrays_are_asked_for_in_one_piece(rt: HostRuntime) -> Result<(), Fail> {
    let alloc = rt.alloc();
    let tech = technology(alloc)?;
    assert!(rt;
        fault(
            alloc,
            &tech,
            true,
            b"M1 0 ( 0 0 ) V12 DO 1073741824 BY 1073741824 STEP 1 1"
        ) == Some(WireFault::Memory)
    );
    let many = metal(
        alloc,
        &tech,
        true,
        b"M1 0 ( 0 0 ) V12 DO 120 BY 120 STEP 1 1",
    )?;
    assert!(rt; many.len() == 43_200);
    Ok(())
}
