//! Vias and wiring of DEF, beside vias of LEF.
ghost use Rattle.std.specs.Prelude.{◌≡◌, ◌<◌, ◌≤◌, ◌+◌, ◌^◌, length, All, IfOk, OnOk, IsTrue, ◌↔◌};
ghost use Rattle.rt_base.specs.Tokens.{AllInside};
ghost use Rattle.def_text.specs.declared.def.DefVia.{DefVia as ADefVia};
ghost use Rattle.def_text.specs.Defs.{IsRange};
ghost use Rattle.def_wires.specs.Names.{AreNamesOf};
ghost use Rattle.def_wires.specs.Sound.{HasWidth, IsTech};

use crate::{WireTech, wire_tech, wires_metal};
use def_text::DefVia;
use def_wires::{TechNames, WireFault, read_via};
use rt_base::{Layer, LayerNo, Name, Rect, Seq, SpacingTable, Tech, Token, tokens};
use std::alloc::Global;
use std::test::Fail;

/// A layer whose wires are 100 units wide.
fn layer(alloc: Global, name: &[u8], routing: bool) -> Result<Layer, WireFault>
    ensures { IfOk result HasWidth }
{
    Ok(Layer {
        name: Name::new(alloc, name)?,
        routing,
        horizontal: true,
        width: 100,
        spacing: 100,
        table: SpacingTable {
            lengths: Seq::new(alloc),
            rows: Seq::new(alloc),
        },
    })
}

/// Adds a layer.
fn add_layer(
    alloc: Global,
    layers: &mut Seq<Layer>,
    name: &[u8],
    routing: bool,
) -> Result<(), WireFault>
    requires { All HasWidth layers.old }
    ensures widths { OnOk result (All HasWidth layers.new) }
    ensures count { OnOk result (length layers.new ≡ length layers.old + 1) }
{
    let layer = layer(alloc, name, routing)?;
    layers.push(layer)?;
    Ok(())
}

/// The layers M1, C1 and M2, without vias.
fn layers_alone(alloc: Global) -> Result<Tech, WireFault>
    ensures tech { IfOk result IsTech }
    ensures count { IfOk result (λ tech. length tech.vias ≡ 0) }
{
    let mut layers = Seq::new(alloc);
    add_layer(alloc, &mut layers, b"M1", true)?;
    add_layer(alloc, &mut layers, b"C1", false)?;
    add_layer(alloc, &mut layers, b"M2", true)?;
    Ok(Tech {
        layers,
        vias: Seq::new(alloc),
    })
}

/// The tokens of a text.
fn cut(alloc: Global, text: &[u8]) -> Result<Vec<Token>, WireFault>
    ensures { IfOk result (λ v. AllInside (length text.now) v.items) }
{
    if text.len() > 1000 {
        return Err(WireFault::Memory);
    }
    match tokens(alloc, text) {
        Ok(tokens) => Ok(tokens),
        Err(_) => Err(WireFault::Memory),
    }
}

/// Reads a via and adds it.
fn add_via(alloc: Global, tech: &mut Tech, name: &[u8], text: &[u8]) -> Result<(), WireFault>
    requires tech { IsTech tech.old }
    requires few { length tech.old.vias < 100 }
    ensures tech { OnOk result (IsTech tech.new) }
    ensures count { OnOk result (length tech.new.vias ≡ length tech.old.vias + 1) }
{
    let names = TechNames::new(alloc, tech)?;
    let tokens = cut(alloc, text)?;
    let via = read_via(alloc, name, text, tokens.as_slice(), tech, &names)?;
    tech.vias.push(via)?;
    Ok(())
}

/// Three layers and two vias of LEF.
fn technology(alloc: Global) -> Result<Tech, WireFault>
    ensures tech { IfOk result IsTech }
    ensures count { IfOk result (λ tech. length tech.vias ≡ 2) }
{
    let mut tech = layers_alone(alloc)?;
    add_via(
        alloc,
        &mut tech,
        b"V12",
        b"+ RECT M1 ( -50 -50 ) ( 50 50 ) + RECT C1 ( -25 -25 ) ( 25 25 ) + RECT M2 ( -50 -50 ) ( 50 50 )",
    )?;
    add_via(
        alloc,
        &mut tech,
        b"W",
        b"+ RECT M1 ( -50 -50 ) ( 50 50 ) + RECT M2 ( -50 -50 ) ( 50 50 )",
    )?;
    Ok(tech)
}

/// Whether these are ranges of so many tokens.
fn are_ranges(ranges: &[(u32, u32)], count: usize) -> bool
    ensures { IsTrue result ↔ All (λ r. (r.0 ≤ r.1) × (r.1 ≤ count)) ranges.now }
{
    ranges.iter().all(|r| r.0 <= r.1 && r.1 as usize <= count)
}

/// An item of VIAS, by its name and its range of so many tokens.
fn item(alloc: Global, name: &[u8], range: (u32, u32), count: usize) -> Result<DefVia, WireFault>
    ensures { IfOk result (λ v. IsRange count v.tokens) }
{
    if range.0 > range.1 || range.1 as usize > count {
        return Err(WireFault::Memory);
    }
    Ok(DefVia {
        name: Name::new(alloc, name)?,
        tokens: range,
    })
}

/// Two items of VIAS, W and D, by their ranges.
fn two_items(
    alloc: Global,
    ranges: &((u32, u32), (u32, u32)),
    count: usize,
) -> Result<Seq<DefVia>, WireFault>
    ensures ranges { IfOk result (λ vias. All (λ (v : ADefVia). IsRange count v.tokens) vias) }
    ensures count { IfOk result (λ vias. length vias ≡ 2) }
{
    let first = item(alloc, b"W", ranges.0, count)?;
    let second = item(alloc, b"D", ranges.1, count)?;
    let mut vias = Seq::new(alloc);
    vias.push(first)?;
    vias.push(second)?;
    Ok(vias)
}

/// The technology with two vias of DEF behind LEF's.
fn with_vias(
    alloc: Global,
    ranges: &((u32, u32), (u32, u32)),
    text: &[u8],
) -> Result<WireTech, WireFault>
    ensures names { IfOk result (λ w. AreNamesOf w.names w.tech) }
    ensures fits { IfOk result (λ w. IsTech w.tech) }
{
    let tech = technology(alloc)?;
    let tokens = cut(alloc, text)?;
    let vias = two_items(alloc, ranges, tokens.len())?;
    wire_tech(alloc, tech, text, tokens.as_slice(), vias.as_slice())
}

struct Damage {
    ranges: ((u32, u32), (u32, u32)),
    text: &'static [u8],
    fault: WireFault,
}

const DAMAGED_VIAS: [Damage; 4] = [
    Damage {
        ranges: ((0, 11), (11, 22)),
        text: b"+ RECT M1 ( 0 0 ) ( 1 1 )\n+ RECT M9 ( 0 0 ) ( 1 1 )",
        fault: WireFault::NoSuchLayer { line: 2 },
    },
    Damage {
        ranges: ((0, 11), (11, 13)),
        text: b"+ RECT M8 ( 0 0 ) ( 1 1 )\n+ ORIGIN",
        fault: WireFault::NoSuchLayer { line: 1 },
    },
    Damage {
        ranges: ((0, 11), (11, 13)),
        text: b"+ RECT M1 ( 0 0 ) ( 1 1 )\n+ ORIGIN",
        fault: WireFault::Refused { line: 2 },
    },
    Damage {
        ranges: ((0, 0), (0, 11)),
        text: b"+ RECT M9 ( 0 0 ) ( 1 1 )",
        fault: WireFault::Expected { line: 1 },
    },
];

#[test]
fn the_first_fault_in_vias_is_answered(rt: HostRuntime) -> Result<(), Fail> {
    let alloc = rt.alloc();
    for row in &DAMAGED_VIAS {
        let fault = match with_vias(alloc, &row.ranges, row.text) {
            Ok(_) => None,
            Err(fault) => Some(fault),
        };
        assert!(rt; fault == Some(row.fault));
    }
    Ok(())
}

const VIAS: &[u8] =
    b"- W + RECT M1 ( -1 -1 ) ( 1 1 ) + RECT M2 ( -2 -2 ) ( 2 2 ) ; - D + RECT C1 ( 0 0 ) ( 1 1 ) ;";

/// The technology with W of DEF behind W of LEF, and with D, which has a cut alone.
fn both(alloc: Global) -> Result<WireTech, WireFault>
    ensures names { IfOk result (λ w. AreNamesOf w.names w.tech) }
    ensures fits { IfOk result (λ w. IsTech w.tech) }
{
    with_vias(alloc, &((2, 24), (27, 38)), VIAS)
}

/// The rectangles of wiring in these ranges of tokens.
fn metal(
    alloc: Global,
    on: &WireTech,
    special: bool,
    ranges: &[(u32, u32)],
    text: &[u8],
) -> Result<Seq<(LayerNo, Rect)>, WireFault>
    requires fits { IsTech on.now.tech }
    requires names { AreNamesOf on.now.names on.now.tech }
{
    let tokens = cut(alloc, text)?;
    if !are_ranges(ranges, tokens.len()) {
        return Err(WireFault::Memory);
    }
    wires_metal(alloc, on, text, tokens.as_slice(), special, ranges)
}

fn is(found: &(LayerNo, Rect), want: &(u32, i64, i64, i64, i64)) -> bool {
    found.0.0 == want.0
        && found.1.xl == want.1
        && found.1.yl == want.2
        && found.1.xh == want.3
        && found.1.yh == want.4
}

fn same(found: &[(LayerNo, Rect)], want: &[(u32, i64, i64, i64, i64)]) -> bool {
    if found.len() != want.len() {
        return false;
    }
    for (f, w) in found.iter().zip(want) {
        if !is(f, w) {
            return false;
        }
    }
    true
}

struct Row {
    special: bool,
    ranges: &'static [(u32, u32)],
    text: &'static [u8],
    want: &'static [(u32, i64, i64, i64, i64)],
}

const ROWS: [Row; 8] = [
    Row {
        special: true,
        ranges: &[(0, 10)],
        text: b"M1 101 ( 0 300 ) ( 500 * )",
        want: &[(0, 0, 250, 500, 351)],
    },
    Row {
        special: true,
        ranges: &[(0, 14)],
        text: b"M1 0 ( 0 0 ) V12 DO 2 BY 1 STEP 400 0",
        want: &[
            (0, -50, -50, 50, 50),
            (1, -25, -25, 25, 25),
            (2, -50, -50, 50, 50),
            (0, 350, -50, 450, 50),
            (1, 375, -25, 425, 25),
            (2, 350, -50, 450, 50),
        ],
    },
    Row {
        special: false,
        ranges: &[(0, 10)],
        text: b"M1 ( 100 100 0 ) ( 500 100 )",
        want: &[(0, 100, 50, 550, 150)],
    },
    Row {
        special: false,
        ranges: &[(0, 6)],
        text: b"M1 ( 0 0 ) W",
        want: &[(0, -1, -1, 1, 1), (2, -2, -2, 2, 2)],
    },
    Row {
        special: true,
        ranges: &[(0, 7), (7, 14)],
        text: b"+ VIA W ( 9 9 ) + VIA V12 ( 0 0 )",
        want: &[
            (0, 8, 8, 10, 10),
            (2, 7, 7, 11, 11),
            (0, -50, -50, 50, 50),
            (1, -25, -25, 25, 25),
            (2, -50, -50, 50, 50),
        ],
    },
    Row {
        special: false,
        ranges: &[(0, 9), (10, 19)],
        text: b"M1 ( 0 0 ) ( 0 200 ) + M2 ( 0 0 ) ( 300 0 )",
        want: &[(0, -50, -50, 50, 250), (2, -50, -50, 350, 50)],
    },
    Row {
        special: true,
        ranges: &[(0, 6)],
        text: b"M1 100 ( 0 0 )",
        want: &[],
    },
    Row {
        special: false,
        ranges: &[],
        text: b"M9 ( 0 0 )",
        want: &[],
    },
];

#[test]
fn wiring_means_its_rectangles(rt: HostRuntime) -> Result<(), Fail> {
    let alloc = rt.alloc();
    let on = both(alloc)?;
    for row in &ROWS {
        let metal = metal(alloc, &on, row.special, row.ranges, row.text)?;
        assert!(rt; same(metal.as_slice(), row.want));
    }
    Ok(())
}

struct DamagedWiring {
    ranges: &'static [(u32, u32)],
    text: &'static [u8],
    fault: WireFault,
}

/// Wiring of NETS.
const DAMAGED_WIRING: [DamagedWiring; 6] = [
    DamagedWiring {
        ranges: &[(0, 5), (5, 10)],
        text: b"M1 ( 0 0 )\nM9 ( 0 0 )",
        fault: WireFault::NoSuchLayer { line: 2 },
    },
    DamagedWiring {
        ranges: &[(0, 5), (5, 8)],
        text: b"M9 ( 0 0 )\nM1 ( 0",
        fault: WireFault::NoSuchLayer { line: 1 },
    },
    DamagedWiring {
        ranges: &[(0, 6)],
        text: b"M1 ( 0 0 )\nU",
        fault: WireFault::NoSuchVia { line: 2 },
    },
    DamagedWiring {
        ranges: &[(0, 6)],
        text: b"M1 ( 0 0 )\nD",
        fault: WireFault::ViaOffLayer { line: 2 },
    },
    DamagedWiring {
        ranges: &[(0, 6)],
        text: b"M1\n100 ( 0 0 )",
        fault: WireFault::Expected { line: 2 },
    },
    DamagedWiring {
        ranges: &[(0, 5), (5, 5)],
        text: b"M1 ( 0 0 )",
        fault: WireFault::Expected { line: 1 },
    },
];

#[test]
fn the_first_fault_in_wiring_is_answered(rt: HostRuntime) -> Result<(), Fail> {
    let alloc = rt.alloc();
    let on = both(alloc)?;
    for row in &DAMAGED_WIRING {
        let fault = match metal(alloc, &on, false, row.ranges, row.text) {
            Ok(_) => None,
            Err(fault) => Some(fault),
        };
        assert!(rt; fault == Some(row.fault));
    }
    Ok(())
}
