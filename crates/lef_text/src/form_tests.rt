//! Whole texts, polygons and generated vias, and damaged ones.
use crate::tests::{SMALL, answer};
use crate::{LefError, read_lef};
use rt_base::{LayerNo, Rect, tokens};
use std::alloc::Global;
use std::test::Fail;

/// Three layers, one more that holds no shapes, a via and a macro of polygons, and generated vias.
const FORMS: &[u8] = b"LAYER M1 TYPE ROUTING ;
  DIRECTION HORIZONTAL ; WIDTH 0.1 ; SPACING 0.1 ;
END M1
LAYER C1 TYPE CUT ; END C1
LAYER O TYPE OVERLAP ; END O
LAYER M2 TYPE ROUTING ;
  DIRECTION VERTICAL ; WIDTH 0.1 ; SPACING 0.1 ;
END M2
VIA CORNER
  LAYER M1 ;
    POLYGON 0 0 0.4 0 0.4 0.2 0.2 0.2 0.2 0.4 0 0.4 ;
  LAYER O ;
    POLYGON 0 0 0.4 0 0.4 0.2 0 0.2 ;
END CORNER
VIA SIX DEFAULT
  VIARULE r ;
  CUTSIZE 0.05 0.04 ;
  LAYERS M1 C1 M2 ;
  CUTSPACING 0.03 0.02 ;
  ENCLOSURE 0.01 0.005 0.015 0.025 ;
  ROWCOL 2 3 ;
END SIX
VIA ODD
  ENCLOSURE 0.001 0.001 0 0.001 ;
  RESISTANCE 5 ;
  LAYERS O C1 M2 ;
  CUTSPACING 0 0 ;
  CUTSIZE 0.005 0.003 ;
  VIARULE r ;
END ODD
MACRO TEETH
  ORIGIN 0.1 0.2 ;
  PIN A
    PORT
      LAYER M1 ;
        POLYGON 0 0 0.4 0 0.4 0.2 0.2 0.2 0.2 0.4 0 0.4 ;
    END
  END A
  OBS
    LAYER M2 ;
      POLYGON 0 0 .05 0 .05 .02 .04 .02 .04 .01 .03 .01 .03 .02 .02 .02 .02 .01 .01 .01 .01 .02 0 .02 ;
    LAYER O ;
      POLYGON 0 0 0 1 1 1 1 0 ;
  END
END TEETH
";

/// A layer and the four sides of a rectangle on it.
type Row = (u32, (i64, i64, i64, i64));

/// Whether these shapes are those rows.
fn are(shapes: &[(LayerNo, Rect)], rows: &[Row]) -> bool {
    if shapes.len() != rows.len() {
        return false;
    }
    for ((layer, rect), (no, sides)) in shapes.iter().zip(rows.iter()) {
        if layer.0 != *no || (rect.xl, rect.yl, rect.xh, rect.yh) != *sides {
            return false;
        }
    }
    true
}

#[test]
fn polygons_and_generated_vias(rt: HostRuntime) {
    let Ok(lef) = read_lef(rt.alloc(), FORMS, 1000) else {
        assert!(rt; false);
        return;
    };
    let vias: [&[Row]; 3] = [
        &[(0, (0, 0, 400, 200)), (0, (0, 200, 200, 400))],
        &[
            (0, (-115, -55, 115, 55)),
            (2, (-120, -75, 120, 75)),
            (1, (-105, -50, -55, -10)),
            (1, (-25, -50, 25, -10)),
            (1, (55, -50, 105, -10)),
            (1, (-105, 10, -55, 50)),
            (1, (-25, 10, 25, 50)),
            (1, (55, 10, 105, 50)),
        ],
        &[(2, (-2, -2, 3, 3)), (1, (-2, -1, 3, 2))],
    ];
    assert!(rt; lef.vias.len() == 3 && lef.macros.len() == 1);
    for (via, rows) in lef.vias.as_slice().iter().zip(vias) {
        assert!(rt; are(via.rects.as_slice(), rows));
    }
    for cell in lef.macros.as_slice() {
        let teeth: [Row; 4] = [
            (2, (100, 200, 150, 210)),
            (2, (100, 210, 110, 220)),
            (2, (120, 210, 130, 220)),
            (2, (140, 210, 150, 220)),
        ];
        assert!(rt; are(cell.obs.as_slice(), &teeth) && cell.pins.len() == 1);
        for (_, shapes) in cell.pins.as_slice() {
            let corner = [(0, (100, 200, 500, 400)), (0, (100, 400, 300, 600))];
            assert!(rt; are(shapes.as_slice(), &corner));
        }
    }
}

#[test]
fn damaged_polygons(rt: HostRuntime) {
    let rows: [(&[u8], &'static str, u32); 17] = [
        (b"VIA V\nPOLYGON 0 0 1 0 1 1 0 1 ;", "unknown", 2),
        (b"MACRO A OBS\nPOLYGON 0 0 1 0 1 1 0 1 ;", "unknown", 2),
        (
            b"LAYER C TYPE CUT ; END C VIA V LAYER C ; POLYGON\n;",
            "not-number",
            2,
        ),
        (
            b"LAYER C TYPE CUT ; END C VIA V LAYER C ; POLYGON 0 0 1 0 1 1\n;",
            "not-number",
            2,
        ),
        (
            b"LAYER C TYPE CUT ; END C VIA V LAYER C ; POLYGON 0 0 1 0 1 1 0 1 0\n;",
            "not-number",
            2,
        ),
        (
            b"LAYER C TYPE CUT ; END C VIA V LAYER C ; POLYGON 0 0 1 0\n0.0005",
            "not-whole",
            2,
        ),
        (
            b"LAYER C TYPE CUT ; END C VIA V LAYER C ; POLYGON\nMASK 1",
            "refused",
            2,
        ),
        (
            b"LAYER C TYPE CUT ; END C VIA V LAYER C ; POLYGON\nITERATE",
            "not-number",
            2,
        ),
        (
            b"LAYER C TYPE CUT ; END C VIA V LAYER C ; POLYGON 0 0\nMASK 1",
            "not-number",
            2,
        ),
        (
            b"LAYER C TYPE CUT ; END C MACRO A OBS LAYER C ; POLYGON\nITERATE",
            "refused",
            2,
        ),
        (
            b"LAYER C TYPE CUT ; END C MACRO A PIN P PORT LAYER C ; POLYGON\nMASK 1",
            "refused",
            2,
        ),
        (
            b"LAYER C TYPE CUT ; END C VIA V LAYER C ;\nPOLYGON 0 0 1 0 1 1 0\n2 ;",
            "refused",
            2,
        ),
        (
            b"LAYER C TYPE CUT ; END C VIA V LAYER C ;\nPOLYGON 0 0 1 0 1 0 1 1 0 1\n;",
            "refused",
            2,
        ),
        (
            b"LAYER C TYPE CUT ; END C VIA V LAYER C ;\nPOLYGON 0 0 1 0 1 1 2 1\n;",
            "refused",
            2,
        ),
        (
            b"LAYER C TYPE CUT ; END C VIA V LAYER C ;\nPOLYGON 0 0 1 1 2 2 3\n3",
            "unended",
            3,
        ),
        (
            b"LAYER C TYPE CUT ; END C VIA V LAYER C ;\nPOLYGON 0 0 1 1 2 2 3 3\n+",
            "not-number",
            3,
        ),
        (
            b"LAYER C TYPE CUT ; END C VIA V LAYER C ; POLYGON 0 0 1 0 1 1 0 1 ; END V",
            "read",
            0,
        ),
    ];
    for (text, kind, line) in rows {
        assert!(rt; answer(rt.alloc(), text) == (kind, line));
    }
}

#[test]
fn damaged_generated_lines(rt: HostRuntime) {
    let rows: [(&[u8], &'static str, u32); 28] = [
        (b"VIA V VIARULE\n;", "expected", 2),
        (b"VIA V VIARULE r\ns ;", "expected", 2),
        (b"VIA V VIARULE\nr", "unended", 2),
        (b"VIA V VIARULE r ;\nVIARULE r ;", "unknown", 2),
        (b"VIA V CUTSIZE\n0 1 ;", "out-of-range", 2),
        (b"VIA V CUTSIZE 1\n;", "not-number", 2),
        (b"VIA V CUTSIZE 1 1\n1", "expected", 2),
        (b"VIA V CUTSIZE 1 1 ;\nCUTSIZE 1 1 ;", "unknown", 2),
        (b"VIA V CUTSPACING 0\n-0.1 ;", "out-of-range", 2),
        (b"VIA V CUTSPACING 0 0 ;\nCUTSPACING", "unknown", 2),
        (b"VIA V ENCLOSURE 0 0 0\n-0.1 ;", "out-of-range", 2),
        (b"VIA V ENCLOSURE 0 0 0\n;", "not-number", 2),
        (b"VIA V ENCLOSURE 0 0 0 0\n0", "expected", 2),
        (b"VIA V ENCLOSURE 0 0 0 0 ;\nENCLOSURE", "unknown", 2),
        (b"VIA V ROWCOL\n0 1 ;", "out-of-range", 2),
        (b"VIA V ROWCOL 1\n-1 ;", "out-of-range", 2),
        (b"VIA V ROWCOL 1\n1.0 ;", "not-number", 2),
        (b"VIA V ROWCOL\n1073741825 1 ;", "too-large", 2),
        (b"VIA V ROWCOL 1 1\n1", "expected", 2),
        (b"VIA V ROWCOL 1 1 ;\nROWCOL", "unknown", 2),
        (b"VIA V LAYERS\nC C C ;", "no-layer", 2),
        (
            b"LAYER C TYPE CUT ; END C VIA V LAYERS C C\n;",
            "expected",
            2,
        ),
        (
            b"LAYER C TYPE CUT ; END C VIA V LAYERS C C C\nC",
            "expected",
            2,
        ),
        (
            b"LAYER C TYPE CUT ; END C VIA V LAYERS C C C ;\nLAYERS",
            "unknown",
            2,
        ),
        (b"VIA V VIARULE r ;\nLAYER", "unknown", 2),
        (b"VIA V ROWCOL 1 1 ;\nRECT", "unknown", 2),
        (b"VIA V CUTSIZE 1 1 ; FOREIGN f ;\nMASK", "refused", 2),
        (
            b"LAYER C TYPE CUT ; END C VIA V LAYER C ;\nCUTSIZE",
            "unknown",
            2,
        ),
    ];
    for (text, kind, line) in rows {
        assert!(rt; answer(rt.alloc(), text) == (kind, line));
    }
}

#[test]
fn generated_vias_that_lack_a_line(rt: HostRuntime) {
    let rows: [(&[u8], &'static str, u32); 7] = [
        (
            b"LAYER C TYPE CUT ; END C VIA V VIARULE r ; CUTSIZE 1 1 ; LAYERS C C C ;
            CUTSPACING 0 0 ; ENCLOSURE 0 0 0 0 ; END V",
            "read",
            0,
        ),
        (
            b"LAYER C TYPE CUT ; END C VIA V CUTSIZE 1 1 ; LAYERS C C C ;
            CUTSPACING 0 0 ; ENCLOSURE 0 0 0 0 ; END V",
            "unknown",
            2,
        ),
        (
            b"LAYER C TYPE CUT ; END C VIA V VIARULE r ; LAYERS C C C ;
            CUTSPACING 0 0 ; ENCLOSURE 0 0 0 0 ; END V",
            "unknown",
            2,
        ),
        (
            b"LAYER C TYPE CUT ; END C VIA V VIARULE r ; CUTSIZE 1 1 ;
            CUTSPACING 0 0 ; ENCLOSURE 0 0 0 0 ; END V",
            "unknown",
            2,
        ),
        (
            b"LAYER C TYPE CUT ; END C VIA V VIARULE r ; CUTSIZE 1 1 ; LAYERS C C C ;
            ENCLOSURE 0 0 0 0 ; END V",
            "unknown",
            2,
        ),
        (
            b"LAYER C TYPE CUT ; END C VIA V VIARULE r ; CUTSIZE 1 1 ; LAYERS C C C ;
            CUTSPACING 0 0 ; ROWCOL 1 1 ; END V",
            "unknown",
            2,
        ),
        (b"VIA V ROWCOL 1 1 ;\nEND", "unknown", 2),
    ];
    for (text, kind, line) in rows {
        assert!(rt; answer(rt.alloc(), text) == (kind, line));
    }
}

/// A text with further statements, a via and a macro, in 2000 units.
const CELLS: &[u8] = b"VERSION 5.8 ;
BUSBITCHARS \"[]\" ;
DIVIDERCHAR \"/\" ;
UNITS
  DATABASE MICRONS 2000 ;
END UNITS
MANUFACTURINGGRID 0.0025 ;
PROPERTYDEFINITIONS
  LAYER LEF58_TYPE STRING ;
END PROPERTYDEFINITIONS
SITE core
  CLASS CORE ;
  SIZE 0.1 BY 1 ;
END core
LAYER M1
  TYPE ROUTING ;
  DIRECTION HORIZONTAL ;
  PITCH 0.1 0.1 ;
  WIDTH 0.05 ;
  AREA 0.02 ;
  SPACINGTABLE
    PARALLELRUNLENGTH 0 0.5
    WIDTH 0 0.05 0.05
    WIDTH 0.2 0.05 0.15 ;
  SPACING 0.06 ENDOFLINE 0.06 WITHIN 0.02 ;
  PROPERTY LEF58_TYPE \"TYPE
    HIGHR ;\" ;
END M1
LAYER C1
  TYPE CUT ;
  SPACING 0.05 ;
END C1
LAYER M2
  TYPE ROUTING ;
  DIRECTION VERTICAL ;
  PITCH 0.1 ;
  WIDTH 0.05 ;
  SPACING 0.05 ;
END M2
VIA V12 DEFAULT
  LAYER M1 ;
    RECT -0.025 -0.025 0.025 0.025 ;
  LAYER C1 ;
    RECT -0.0125 -0.0125 0.0125 0.0125 ;
  LAYER M2 ;
    RECT -0.025 -0.025 0.025 0.025 ;
END V12
VIARULE V12gen GENERATE
  LAYER M1 ;
    ENCLOSURE 0.01 0.01 ;
END V12gen
MACRO INV
  CLASS CORE ;
  ORIGIN 0 0 ;
  SIZE 1 BY 1 ;
  SITE core ;
  PIN A
    DIRECTION INPUT ;
    PORT
      LAYER M1 ;
        RECT 0.025 0.125 0.075 0.175 ;
    END
  END A
  PIN Y
    DIRECTION OUTPUT ;
    PORT
      LAYER M1 ;
        RECT 0.425 0.225 0.475 0.275 ;
    END
  END Y
  OBS
    LAYER M1 ;
      RECT 0.225 0.325 0.275 0.375 ;
  END
END INV
END LIBRARY
";

#[test]
fn reads_a_library_of_cells(rt: HostRuntime) {
    let Ok(lef) = read_lef(rt.alloc(), CELLS, 2000) else {
        assert!(rt; false);
        return;
    };
    assert!(rt; lef.units == 2000 && lef.dropped.is_empty());
    assert!(rt; lef.layers.len() == 3 && lef.vias.len() == 1 && lef.macros.len() == 1);
    for (layer, (name, routing, horizontal, width)) in lef.layers.as_slice().iter().zip([
        (b"M1", true, true, 100),
        (b"C1", false, false, 0),
        (b"M2", true, false, 100),
    ]) {
        assert!(rt; layer.name.bytes() == name.as_slice() && layer.routing == routing);
        assert!(rt; layer.horizontal == horizontal && layer.width == width);
        assert!(rt; layer.spacing == 100);
    }
    if let [first, ..] = lef.layers.as_slice() {
        assert!(rt;
            first.table.lengths.as_slice() == [0, 1000].as_slice() && first.table.rows.len() == 2
        );
        for ((width, spacings), (w, s)) in first
            .table
            .rows
            .as_slice()
            .iter()
            .zip([(0, [100, 100]), (400, [100, 300])])
        {
            assert!(rt; *width == w && spacings.as_slice() == s.as_slice());
        }
    }
    for via in lef.vias.as_slice() {
        let want: [Row; 3] = [
            (0, (-50, -50, 50, 50)),
            (1, (-25, -25, 25, 25)),
            (2, (-50, -50, 50, 50)),
        ];
        assert!(rt; via.name.bytes() == b"V12".as_slice() && via.usable);
        assert!(rt; are(via.rects.as_slice(), &want));
    }
    for cell in lef.macros.as_slice() {
        let obs = [(0, (450, 650, 550, 750))];
        assert!(rt; cell.name.bytes() == b"INV".as_slice() && cell.w == 2000 && cell.h == 2000);
        assert!(rt; are(cell.obs.as_slice(), &obs) && cell.pins.len() == 2);
        for ((name, shapes), (want, sides)) in cell.pins.as_slice().iter().zip([
            (b"A", (50, 250, 150, 350)),
            (b"Y", (850, 450, 950, 550)),
        ]) {
            assert!(rt; name.bytes() == want.as_slice());
            assert!(rt; are(shapes.as_slice(), &[(0, sides)]));
        }
    }
    for ((name, count), (want, n)) in lef
        .skipped
        .as_slice()
        .iter()
        .zip([(b"M1".as_slice(), 4), (b"C1", 0), (b"M2", 0), (b"-", 1)])
    {
        assert!(rt; name.bytes() == want && *count == n);
    }
}

/// The small text up to this line, and then this.
fn small_up_to(alloc: Global, line: u32, rest: &[u8]) -> Result<Vec<u8>, Fail> {
    let mut text = Vec::new(alloc);
    let words = tokens(alloc, SMALL)?;
    if let Some(word) = words.iter().find(|word| word.line >= line) {
        text.extend_from_slice(SMALL.get(..word.first as usize).unwrap_or(b""))?;
    }
    text.extend_from_slice(rest)?;
    Ok(text)
}

/// The word that is refused.
fn word_of(error: &LefError) -> &[u8] {
    match error {
        LefError::Refused { word, .. } => word.bytes(),
        _ => b"",
    }
}

#[test]
fn changed_lines(rt: HostRuntime) -> Result<(), Fail> {
    let rows: [(u32, &[u8], &'static str, u32); 6] = [
        (1, b"VERSION \"5.8 ;", "quote", 1),
        (9, b"WIDTH 0.1000000 ;", "too-many-decimals", 9),
        (9, b"WIDTH 0.0005 ;", "not-whole", 9),
        (9, b"WIDTH 0.101 ; SPACING 0.1 ; END M1", "odd-width", 0),
        (11, b"END M9", "expected", 11),
        (30, b"POLYGON 0 0 0.4 0.1 0.4 0.4 0 0.4 ;", "refused", 30),
    ];
    for (line, rest, kind, want) in rows {
        let text = small_up_to(rt.alloc(), line, rest)?;
        assert!(rt; answer(rt.alloc(), text.as_slice()) == (kind, want));
        if text.len() < 4096 && kind == "refused" {
            if let Err(error) = read_lef(rt.alloc(), text.as_slice(), 1000) {
                assert!(rt; word_of(&error) == b"POLYGON".as_slice());
            }
        }
    }
    Ok(())
}

/// Cut behind a token, the small text is read where a statement ends there, and unended elsewhere.
#[test]
fn cut_texts(rt: HostRuntime) -> Result<(), Fail> {
    let mut ends = Vec::new(rt.alloc());
    for word in tokens(rt.alloc(), SMALL)?.iter() {
        let text = SMALL.get(..word.past as usize).unwrap_or(b"");
        let (kind, line) = answer(rt.alloc(), text);
        if kind == "read" {
            ends.push(word.line)?;
        } else {
            assert!(rt; kind == "unended" && line == word.line);
        }
    }
    assert!(rt; ends.as_slice() == [1, 4, 11, 15, 22, 30, 31].as_slice());
    Ok(())
}
