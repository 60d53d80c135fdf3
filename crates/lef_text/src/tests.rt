//! Texts that are read, and damaged ones.
use crate::{LefError, What, read_lef};
use rt_base::{LayerNo, Rect, ScanError};
use rt_words::NumberFault;
use std::alloc::Global;
use std::test::Fail;

/// Two routing layers, a cut layer and a via.
pub const SMALL: &[u8] = b"VERSION 5.8 ;
UNITS
  DATABASE MICRONS 1000 ;
END UNITS
LAYER M1
  TYPE ROUTING ;
  DIRECTION HORIZONTAL ;
  PITCH 0.2 ;
  WIDTH 0.1 ;
  SPACING 0.1 ;
END M1
LAYER C1
  TYPE CUT ;
  SPACING 0.1 ;
END C1
LAYER M2
  TYPE ROUTING ;
  DIRECTION VERTICAL ;
  PITCH 0.2 ;
  WIDTH 0.1 ;
  SPACING 0.1 ;
END M2
VIA V12 DEFAULT
  LAYER M1 ;
    RECT -0.05 -0.05 0.05 0.05 ;
  LAYER C1 ;
    RECT -0.025 -0.025 0.025 0.025 ;
  LAYER M2 ;
    RECT -0.05 -0.05 0.05 0.05 ;
END V12
END LIBRARY
";

/// A square round (0, 0).
fn square(half: i64) -> Rect {
    Rect {
        xl: -half.clamp(0, 1000),
        yl: -half.clamp(0, 1000),
        xh: half.clamp(0, 1000),
        yh: half.clamp(0, 1000),
    }
}

#[test]
fn reads_layers_and_a_via(rt: HostRuntime) {
    let Ok(lef) = read_lef(rt.alloc(), SMALL, 1000) else {
        assert!(rt; false);
        return;
    };
    assert!(rt; lef.units == 1000 && lef.layers.len() == 3 && lef.vias.len() == 1);
    assert!(rt; lef.macros.is_empty() && lef.dropped.is_empty() && lef.skipped.len() == 4);
    for (layer, (name, routing, horizontal, width)) in lef.layers.as_slice().iter().zip([
        (b"M1", true, true, 100),
        (b"C1", false, false, 0),
        (b"M2", true, false, 100),
    ]) {
        assert!(rt; layer.name.bytes() == name.as_slice() && layer.routing == routing);
        assert!(rt; layer.horizontal == horizontal && layer.width == width);
        assert!(rt; layer.spacing == 100 && layer.table.rows.is_empty());
    }
    for via in lef.vias.as_slice() {
        assert!(rt; via.name.bytes() == b"V12".as_slice() && via.usable && via.rects.len() == 3);
        for ((layer, rect), (no, half)) in via
            .rects
            .as_slice()
            .iter()
            .zip([(0, 50), (1, 25), (2, 50)])
        {
            assert!(rt; *layer == LayerNo(no) && *rect == square(half));
        }
    }
}

/// The kind of a fault, and its line, 0 where it has none.
fn fault_of(error: &LefError) -> (&'static str, u32) {
    match error {
        LefError::Scan(ScanError::UnclosedQuote { line }) => ("quote", *line),
        LefError::Scan(ScanError::NotText { line }) => ("not-text", *line),
        LefError::Scan(ScanError::Memory) => ("scan-memory", 0),
        LefError::Expected { line } => ("expected", *line),
        LefError::Unknown { line } => ("unknown", *line),
        LefError::Number { line, fault } => match fault {
            NumberFault::NotNumber => ("not-number", *line),
            NumberFault::TooManyDecimals => ("too-many-decimals", *line),
            NumberFault::TooLarge => ("too-large", *line),
            NumberFault::NotWhole => ("not-whole", *line),
            NumberFault::OutOfRange => ("out-of-range", *line),
        },
        LefError::Twice { line, .. } => ("twice", *line),
        LefError::NoLayer { line, .. } => ("no-layer", *line),
        LefError::LayerWithout { what, .. } => match what {
            What::Direction => ("without-direction", 0),
            What::Width => ("without-width", 0),
            What::Spacing => ("without-spacing", 0),
        },
        LefError::SameDirection { .. } => ("same-direction", 0),
        LefError::OddWidth { .. } => ("odd-width", 0),
        LefError::Refused { line, .. } => ("refused", *line),
        LefError::Unended { line } => ("unended", *line),
        LefError::Memory => ("memory", 0),
    }
}

/// What reading a text under 1000 units answers.
pub fn answer(alloc: Global, text: &[u8]) -> (&'static str, u32) {
    if text.len() > 4096 {
        return ("long", 0);
    }
    match read_lef(alloc, text, 1000) {
        Ok(_) => ("read", 0),
        Err(error) => fault_of(&error),
    }
}

#[test]
fn damaged_statements(rt: HostRuntime) {
    let rows: [(&[u8], &'static str, u32); 26] = [
        (b"", "read", 0),
        (b"END LIBRARY", "read", 0),
        (b"END LIBRARY\nEND", "expected", 2),
        (b"END\nUNITS", "expected", 2),
        (b"END", "unended", 1),
        (b"VERSION \"5.8 ;", "quote", 1),
        (b"VERSION 5.8 ;\n\x00", "not-text", 2),
        (b"VERSION\n5.8", "unended", 2),
        (b"VERSION 5.8 ;\n;", "unknown", 2),
        (b"VERSION 5.8 ;\nversion", "unknown", 2),
        (b"\"VERSION\"", "unknown", 1),
        (b"UNITS\nDATABASE MICRONS 1000 ;\nEND\nUNITS", "read", 0),
        (b"UNITS\nDATABASE\nMICRON 1000 ;", "expected", 3),
        (b"UNITS DATABASE MICRONS\n0 ;", "out-of-range", 2),
        (b"UNITS DATABASE MICRONS\n1000001 ;", "out-of-range", 2),
        (b"UNITS DATABASE MICRONS\n100.0 ;", "not-number", 2),
        (b"UNITS DATABASE MICRONS\n;", "not-number", 2),
        (b"UNITS DATABASE MICRONS 100\nEND", "expected", 2),
        (b"UNITS\n;", "unknown", 2),
        (b"UNITS TIME NANOSECONDS 1 ;\nEND LIBRARY", "expected", 2),
        (b"SITE core\nCLASS CORE ;\nEND cores\nEND\ncore", "read", 0),
        (b"SITE\n;", "expected", 2),
        (
            b"PROPERTYDEFINITIONS END\nEND PROPERTYDEFINITIONS",
            "read",
            0,
        ),
        (b"BEGINEXT a ;\nEND", "unended", 2),
        (b"VIARULE a b ;\nEND b END", "unended", 2),
        (b"SPACING END\nSPACING", "read", 0),
    ];
    for (text, kind, line) in rows {
        assert!(rt; answer(rt.alloc(), text) == (kind, line));
    }
}

#[test]
fn damaged_layers(rt: HostRuntime) {
    let rows: [(&[u8], &'static str, u32); 26] = [
        (b"LAYER\n;", "expected", 2),
        (b"LAYER O\nTYPE OVERLAP ;\nWIDTH x ;\nEND O", "read", 0),
        (b"LAYER O\nTYPE OVERLAP ;\n;", "unknown", 3),
        (b"LAYER O TYPE OVERLAP ;\nEND P", "expected", 2),
        (b"LAYER O\nWIDTH 1 ;", "unknown", 2),
        (b"LAYER O TYPE\nMETAL ;", "expected", 2),
        (b"LAYER O TYPE CUT ; END O\nLAYER\nO", "twice", 3),
        (b"LAYER C TYPE CUT ; SPACING\n-0.1 ;", "out-of-range", 2),
        (b"LAYER C TYPE CUT ; SPACING ; END C", "read", 0),
        (b"LAYER C TYPE CUT ; SPACING a b ; END C", "read", 0),
        (b"LAYER C TYPE CUT ; SPACING\nb ;", "not-number", 2),
        (b"LAYER C TYPE CUT ; WIDTH\n0 ;", "out-of-range", 2),
        (
            b"LAYER C TYPE CUT ; WIDTH\n0.1000000 ;",
            "too-many-decimals",
            2,
        ),
        (b"LAYER C TYPE CUT ; WIDTH\n0.0005 ;", "not-whole", 2),
        (b"LAYER C TYPE CUT ; WIDTH\n1073742 ;", "too-large", 2),
        (b"LAYER C TYPE CUT ; WIDTH 1\n1 ;", "expected", 2),
        (b"LAYER M TYPE ROUTING ; DIRECTION\nDIAG45 ;", "refused", 2),
        (b"LAYER M TYPE ROUTING ; DIRECTION\n;", "expected", 2),
        (b"LAYER M TYPE ROUTING ; END\nX", "without-direction", 0),
        (
            b"LAYER M TYPE ROUTING ; DIRECTION VERTICAL ; END M",
            "without-width",
            0,
        ),
        (
            b"LAYER M TYPE ROUTING ; DIRECTION VERTICAL ; WIDTH .101 ; END M",
            "without-spacing",
            0,
        ),
        (
            b"LAYER M TYPE ROUTING ; DIRECTION VERTICAL ; WIDTH .101 ; SPACING 0 ; END M",
            "odd-width",
            0,
        ),
        (
            b"LAYER M TYPE ROUTING ; DIRECTION VERTICAL ; WIDTH .1 ; SPACING 0 ; END M
            LAYER N TYPE ROUTING ; DIRECTION VERTICAL ; WIDTH .1 ; SPACING 0 ; END N",
            "same-direction",
            0,
        ),
        (b"LAYER C TYPE CUT ;\nPITCH", "unended", 2),
        (b"LAYER C TYPE CUT ;\n\"AREA\" 1 ;", "unknown", 2),
        (b"LAYER C TYPE CUT ; AREA 1 ;\nEND \"C\"", "expected", 2),
    ];
    for (text, kind, line) in rows {
        assert!(rt; answer(rt.alloc(), text) == (kind, line));
    }
}

#[test]
fn damaged_vias(rt: HostRuntime) {
    let rows: [(&[u8], &'static str, u32); 16] = [
        (b"VIA V END V", "read", 0),
        (b"VIA V DEFAULT TOPOFSTACKONLY END V", "read", 0),
        (b"VIA V TOPOFSTACKONLY\nDEFAULT", "unknown", 2),
        (b"VIA\nVIRTUAL", "refused", 2),
        (b"VIA\n(", "expected", 2),
        (b"VIA V END V VIA\nV", "twice", 2),
        (b"VIA V LAYER\nM1 ;", "no-layer", 2),
        (b"VIA V LAYER\n\"M1\" ;", "expected", 2),
        (b"VIA V\nRECT 0 0 1 1 ;", "unknown", 2),
        (b"VIA V\nMASK 1 ;", "refused", 2),
        (
            b"LAYER C TYPE CUT ; END C VIA V LAYER C ; RECT\nMASK 1",
            "refused",
            2,
        ),
        (
            b"LAYER C TYPE CUT ; END C VIA V LAYER C ; RECT 0\nMASK 1",
            "not-number",
            2,
        ),
        (
            b"LAYER C TYPE CUT ; END C VIA V LAYER C ; RECT 0 0 1\n;",
            "not-number",
            2,
        ),
        (
            b"LAYER C TYPE CUT ; END C VIA V LAYER C ; RECT 0 0 1 1\n1 ;",
            "expected",
            2,
        ),
        (b"VIA V RESISTANCE\n1", "unended", 2),
        (b"VIA V END\nW", "expected", 2),
    ];
    for (text, kind, line) in rows {
        assert!(rt; answer(rt.alloc(), text) == (kind, line));
    }
}

/// A text with further statements, in 2000 units.
const SLICE: &[u8] = b"VERSION 5.8 ;
BUSBITCHARS \"[]\" ;
DIVIDERCHAR \"/\" ;
UNITS
  DATABASE MICRONS 2000 ;
END UNITS
MANUFACTURINGGRID 0.0025 ;
PROPERTYDEFINITIONS
  LAYER LEF58_TYPE STRING ;
END PROPERTYDEFINITIONS
SITE core
  CLASS CORE ;
  SIZE 0.1 BY 1 ;
END core
LAYER M1
  TYPE ROUTING ;
  DIRECTION HORIZONTAL ;
  PITCH 0.1 0.1 ;
  WIDTH 0.05 ;
  AREA 0.02 ;
  SPACINGTABLE
    PARALLELRUNLENGTH 0 0.5
    WIDTH 0 0.05 0.05
    WIDTH 0.2 0.05 0.15 ;
  SPACING 0.06 ENDOFLINE 0.06 WITHIN 0.02 ;
  PROPERTY LEF58_TYPE \"TYPE
    HIGHR ;\" ;
END M1
LAYER C1
  TYPE CUT ;
  SPACING 0.05 ;
END C1
LAYER M2
  TYPE ROUTING ;
  DIRECTION VERTICAL ;
  PITCH 0.1 ;
  WIDTH 0.05 ;
  SPACING 0.05 ;
END M2
VIARULE V12gen GENERATE
  LAYER M1 ;
    ENCLOSURE 0.01 0.01 ;
END V12gen
MACRO INV
  CLASS CORE ;
  ORIGIN 0.5 -0.5 ;
  SIZE 1 BY 2 ;
  SITE core ;
  PIN A
    DIRECTION INPUT ;
    PORT
      LAYER M1 ;
        RECT 0.025 0.125 0.075 0.175 ;
    END
    PORT
      CLASS CORE ;
      LAYER M2 EXCEPTPGNET SPACING 0.1 ;
        RECT 0.425 0.225 0.475 0.275 ;
    END
  END A
  OBS
    LAYER M1 ;
      RECT 0.225 0.325 0.275 0.375 ;
  END
END INV
END LIBRARY
";

#[test]
fn reads_a_table_and_a_macro(rt: HostRuntime) {
    let Ok(lef) = read_lef(rt.alloc(), SLICE, 2000) else {
        assert!(rt; false);
        return;
    };
    assert!(rt; lef.units == 2000 && lef.layers.len() == 3 && lef.macros.len() == 1);
    for (layer, lengths) in lef.layers.as_slice().iter().zip([2, 0, 0]) {
        assert!(rt; layer.spacing == 100 && layer.table.lengths.len() == lengths);
    }
    for ((_, count), want) in lef.skipped.as_slice().iter().zip([4, 0, 1, 1]) {
        assert!(rt; *count == want);
    }
    for cell in lef.macros.as_slice() {
        assert!(rt; cell.name.bytes() == b"INV".as_slice() && cell.w == 2000 && cell.h == 4000);
        for (layer, rect) in cell.obs.as_slice() {
            assert!(rt; *layer == LayerNo(0));
            assert!(rt; rect.xl == 1450 && rect.yl == -350 && rect.xh == 1550 && rect.yh == -250);
        }
        for (name, shapes) in cell.pins.as_slice() {
            assert!(rt; name.bytes() == b"A".as_slice() && shapes.len() == 2);
            for ((layer, rect), (no, x)) in shapes.as_slice().iter().zip([(0, 1050), (2, 1850)]) {
                assert!(rt; *layer == LayerNo(no) && rect.xl == x);
            }
        }
    }
}

#[test]
fn damaged_macros_and_tables(rt: HostRuntime) {
    let rows: [(&[u8], &'static str, u32); 30] = [
        (b"MACRO A END A", "read", 0),
        (b"MACRO A END A\nMACRO A", "twice", 2),
        (b"MACRO A\nWIDTH 1 ;", "unknown", 2),
        (b"MACRO A SIZE 1\nX 1 ;", "expected", 2),
        (b"MACRO A SIZE 1 BY\nx ;", "not-number", 2),
        (b"MACRO A ORIGIN 0\n; END A", "not-number", 2),
        (b"MACRO A PIN P END P PIN\nP", "twice", 2),
        (b"MACRO A PIN P\n; END P", "unknown", 2),
        (b"MACRO A PIN P USE SIGNAL ; END\nA", "expected", 2),
        (
            b"MACRO A DENSITY LAYER x ; END TIMING END END TIMING END A",
            "read",
            0,
        ),
        (b"MACRO A OBS\nRECT 0 0 1 1 ;", "unknown", 2),
        (b"MACRO A OBS LAYER\nM ;", "no-layer", 2),
        (b"MACRO A OBS WIDTH 1 ; CLASS BUMP ; END END A", "read", 0),
        (b"MACRO A OBS\nFOREIGN x ;", "unknown", 2),
        (b"MACRO A OBS\nPATH 0 0 1 1 ;", "refused", 2),
        (b"MACRO A PIN P PORT\nVIA 0 0 V ;", "refused", 2),
        (
            b"LAYER C TYPE CUT ; END C MACRO A OBS LAYER C\nSPACING 0.1",
            "unended",
            2,
        ),
        (
            b"LAYER C TYPE CUT ; END C MACRO A OBS LAYER C\nDIAGWIDTH 0.1",
            "expected",
            2,
        ),
        (
            b"LAYER C TYPE CUT ; END C MACRO A OBS LAYER C ; RECT\nITERATE",
            "refused",
            2,
        ),
        (
            b"LAYER C TYPE CUT ; END C MACRO A OBS LAYER C ; RECT 0 0\n1",
            "unended",
            2,
        ),
        (
            b"LAYER C TYPE CUT ; SPACINGTABLE INFLUENCE 1 ; END C",
            "read",
            0,
        ),
        (b"LAYER C TYPE CUT ; SPACINGTABLE ; END C", "read", 0),
        (
            b"LAYER C TYPE CUT ; SPACINGTABLE PARALLELRUNLENGTH\nWIDTH",
            "not-number",
            2,
        ),
        (
            b"LAYER C TYPE CUT ; SPACINGTABLE PARALLELRUNLENGTH 0\n0",
            "out-of-range",
            2,
        ),
        (
            b"LAYER C TYPE CUT ; SPACINGTABLE PARALLELRUNLENGTH 0 WIDTH 0\n;",
            "not-number",
            2,
        ),
        (
            b"LAYER C TYPE CUT ; SPACINGTABLE PARALLELRUNLENGTH 0 WIDTH 0 1\n1",
            "expected",
            2,
        ),
        (
            b"LAYER C TYPE CUT ; SPACINGTABLE PARALLELRUNLENGTH 0 WIDTH 1 1 WIDTH\n1",
            "out-of-range",
            2,
        ),
        (
            b"LAYER C TYPE CUT ; SPACINGTABLE PARALLELRUNLENGTH 0 WIDTH 1 1 ; SPACINGTABLE
            PARALLELRUNLENGTH",
            "twice",
            2,
        ),
        (
            b"LAYER C TYPE CUT ; ACCURRENTDENSITY PEAK 1.23456789\n2",
            "expected",
            2,
        ),
        (
            b"LAYER C TYPE CUT ; DCCURRENTDENSITY AVERAGE WIDTH 1 ; TABLEENTRIES 1 ; END C",
            "read",
            0,
        ),
    ];
    for (text, kind, line) in rows {
        assert!(rt; answer(rt.alloc(), text) == (kind, line));
    }
}
