use crate::{Done, run_serial};
use shelf::{MemShelf, MemSink};
use std::alloc::{AllocError, Global};
use std::test::Fail;

/// Two routing layers and a cut layer between them, and a via.
pub const LEF: &[u8] = b"\
VERSION 5.8 ;
UNITS
  DATABASE MICRONS 1000 ;
END UNITS
LAYER M1
  TYPE ROUTING ;
  DIRECTION HORIZONTAL ;
  PITCH 0.2 ;
  WIDTH 0.1 ;
  SPACING 0.1 ;
END M1
LAYER C1
  TYPE CUT ;
  SPACING 0.1 ;
END C1
LAYER M2
  TYPE ROUTING ;
  DIRECTION VERTICAL ;
  PITCH 0.2 ;
  WIDTH 0.1 ;
  SPACING 0.1 ;
END M2
VIA V12 DEFAULT
  LAYER M1 ;
    RECT -0.05 -0.05 0.05 0.05 ;
  LAYER C1 ;
    RECT -0.025 -0.025 0.025 0.025 ;
  LAYER M2 ;
    RECT -0.05 -0.05 0.05 0.05 ;
END V12
END LIBRARY
";

/// A net of two pins.
pub const DEF: &[u8] = b"\
VERSION 5.8 ;
DESIGN top ;
UNITS DISTANCE MICRONS 1000 ;
DIEAREA ( 0 0 ) ( 2000 2000 ) ;
TRACKS Y 100 DO 10 STEP 200 LAYER M1 ;
TRACKS X 100 DO 10 STEP 200 LAYER M2 ;
PINS 2 ;
- p + NET a + LAYER M1 ( -50 -50 ) ( 50 50 ) + PLACED ( 100 100 ) N ;
- q + NET a + LAYER M2 ( -50 -50 ) ( 50 50 ) + PLACED ( 900 500 ) N ;
END PINS
NETS 1 ;
- a ( PIN p ) ( PIN q ) ;
END NETS
END DESIGN
";

/// The routed net.
const ROUTED: &[u8] = b"\
VERSION 5.8 ;
DESIGN top ;
UNITS DISTANCE MICRONS 1000 ;
DIEAREA ( 0 0 ) ( 2000 2000 ) ;
TRACKS Y 100 DO 10 STEP 200 LAYER M1 ;
TRACKS X 100 DO 10 STEP 200 LAYER M2 ;
PINS 2 ;
- p + NET a + LAYER M1 ( -50 -50 ) ( 50 50 ) + PLACED ( 100 100 ) N ;
- q + NET a + LAYER M2 ( -50 -50 ) ( 50 50 ) + PLACED ( 900 500 ) N ;
END PINS
NETS 1 ;
- a ( PIN p ) ( PIN q ) 
  + ROUTED M1 ( 100 100 ) ( 900 100 )
    NEW M1 ( 900 100 ) V12
    NEW M2 ( 900 100 ) ( 900 500 )
;
END NETS
END DESIGN
";

/// How it was routed.
const JOURNAL: &[u8] = b"\
journal 1
wire a
from pin 0 M1 100 100
run 900 100
via V12
run 900 500
to pin 1 M2 900 500
end
";

/// What is said of it.
const REPORT: &[u8] = b"\
nets 1
joined 1
stuck 0
unguided 0
prewired 0
single 0
rips 0
wire 1200
vias 1
skipped 0
";

/// A die with ten tracks on each level.
pub const HEAD: &[u8] = b"\
VERSION 5.8 ;
DESIGN top ;
UNITS DISTANCE MICRONS 1000 ;
DIEAREA ( 0 0 ) ( 2000 2000 ) ;
TRACKS Y 100 DO 10 STEP 200 LAYER M1 ;
TRACKS X 100 DO 10 STEP 200 LAYER M2 ;
";

/// The words of a command line.
fn words_of(alloc: Global, list: &[&str]) -> Result<Vec<String>, AllocError> {
    let mut words = Vec::new(alloc);
    for word in list {
        words.push(String::from_str(alloc, word)?)?;
    }
    Ok(words)
}

fn numbers(alloc: Global, list: &[u32]) -> Result<Vec<u32>, AllocError> {
    Vec::from_slice(alloc, list)
}

/// The files `l` and `d`.
fn files_of(alloc: Global, lef: &[u8], def: &[u8]) -> Result<Vec<(String, Vec<u8>)>, AllocError> {
    let mut files = Vec::new(alloc);
    files.push((String::from_str(alloc, "l")?, Vec::from_slice(alloc, lef)?))?;
    files.push((String::from_str(alloc, "d")?, Vec::from_slice(alloc, def)?))?;
    Ok(files)
}

/// The files `l`, `d` and `g`: the text of DEF is this head and what comes after it.
pub fn guided_files(
    alloc: Global,
    head: &[u8],
    def: &[u8],
    guide: &[u8],
) -> Result<Vec<(String, Vec<u8>)>, AllocError> {
    let mut text = Vec::from_slice(alloc, head)?;
    text.extend_from_slice(def)?;
    text.extend_from_slice(b"END DESIGN\n")?;
    let mut files = files_of(alloc, LEF, &text)?;
    files.push((
        String::from_str(alloc, "g")?,
        Vec::from_slice(alloc, guide)?,
    ))?;
    Ok(files)
}

/// What a run leaves.
#[derive(Drop)]
pub struct Ran {
    pub done: Done,
    pub files: MemShelf,
    pub out: MemSink,
}

const ROUTE: [&str; 6] = ["route", "l", "d", "-", "o", "j"];

/// Runs the words over the files `l` and `d`, where the listed calls of the shelf and the sink fail.
pub fn run_words(
    alloc: Global,
    list: &[&str],
    files: Vec<(String, Vec<u8>)>,
    shelf_fails: &[u32],
    sink_fails: &[u32],
) -> Result<Ran, AllocError> {
    let words = words_of(alloc, list)?;
    let mut files = MemShelf::new(alloc, files, numbers(alloc, shelf_fails)?);
    let mut out = MemSink::new(alloc, numbers(alloc, sink_fails)?);
    let done = run_serial(alloc, &words, &mut files, &mut out);
    Ok(Ran { done, files, out })
}

/// Routes a design.
pub fn route(alloc: Global, lef: &[u8], def: &[u8]) -> Result<Ran, AllocError> {
    run_words(alloc, &ROUTE, files_of(alloc, lef, def)?, &[], &[])
}

/// A DEF text with these pins and nets.
fn def_with(alloc: Global, pins: &[u8], nets: &[u8]) -> Result<Vec<u8>, AllocError> {
    let mut def = Vec::from_slice(alloc, HEAD)?;
    def.extend_from_slice(pins)?;
    def.extend_from_slice(nets)?;
    def.extend_from_slice(b"END DESIGN\n")?;
    Ok(def)
}

#[test]
fn routes_one_net(rt: HostRuntime) -> Result<(), Fail> {
    let ran = route(rt.alloc(), LEF, DEF)?;
    assert_eq!(rt; ran.done.status, 0);
    assert_eq!(rt; ran.files.file("o"), Some(ROUTED));
    assert_eq!(rt; ran.files.file("j"), Some(JOURNAL));
    assert_eq!(rt; ran.files.file("l"), Some(LEF));
    assert_eq!(rt; ran.out.text(), REPORT);
    assert_eq!(rt; ran.done.journal.blocks().len(), 1);
    Ok(())
}

/// Pins, nets, the status and the report's numbers of joined and stuck nets, wire and vias.
struct Chip {
    pins: &'static [u8],
    nets: &'static [u8],
    status: u8,
    report: &'static [u8],
    journal: Option<&'static [u8]>,
}

const CHIPS: [Chip; 6] = [
    // Both pins at one place: a walk without edges.
    Chip {
        pins: b"PINS 2 ;\n- p + NET a + LAYER M1 ( -50 -50 ) ( 50 50 ) + PLACED ( 300 300 ) N ;\n- q + NET a + LAYER M1 ( -50 -50 ) ( 50 50 ) + PLACED ( 300 300 ) N ;\nEND PINS\n",
        nets: b"NETS 1 ;\n- a ( PIN p ) ( PIN q ) ;\nEND NETS\n",
        status: 0,
        report: b"nets 1\njoined 1\nstuck 0\nunguided 0\nprewired 0\nsingle 0\nrips 0\nwire 0\nvias 0\nskipped 0\n",
        journal: None,
    },
    // Nothing to route.
    Chip {
        pins: b"PINS 0 ;\nEND PINS\n",
        nets: b"NETS 0 ;\nEND NETS\n",
        status: 0,
        report: b"nets 0\njoined 0\nstuck 0\nunguided 0\nprewired 0\nsingle 0\nrips 0\nwire 0\nvias 0\nskipped 0\n",
        journal: Some(b"journal 1\n"),
    },
    // Two nets side by side, 800 each.
    Chip {
        pins: b"PINS 4 ;\n- p + NET a + LAYER M1 ( -50 -50 ) ( 50 50 ) + PLACED ( 100 100 ) N ;\n- q + NET a + LAYER M1 ( -50 -50 ) ( 50 50 ) + PLACED ( 900 100 ) N ;\n- r + NET b + LAYER M1 ( -50 -50 ) ( 50 50 ) + PLACED ( 100 300 ) N ;\n- s + NET b + LAYER M1 ( -50 -50 ) ( 50 50 ) + PLACED ( 900 300 ) N ;\nEND PINS\n",
        nets: b"NETS 2 ;\n- a ( PIN p ) ( PIN q ) ;\n- b ( PIN r ) ( PIN s ) ;\nEND NETS\n",
        status: 0,
        report: b"nets 2\njoined 2\nstuck 0\nunguided 0\nprewired 0\nsingle 0\nrips 0\nwire 1600\nvias 0\nskipped 0\n",
        journal: None,
    },
    // A pin that no net names blocks the straight way: two more vias.
    Chip {
        pins: b"PINS 3 ;\n- p + NET a + LAYER M1 ( -50 -50 ) ( 50 50 ) + PLACED ( 100 100 ) N ;\n- q + NET a + LAYER M2 ( -50 -50 ) ( 50 50 ) + PLACED ( 900 500 ) N ;\n- x + NET none + LAYER M1 ( -50 -50 ) ( 50 50 ) + PLACED ( 500 100 ) N ;\nEND PINS\n",
        nets: b"NETS 1 ;\n- a ( PIN p ) ( PIN q ) ;\nEND NETS\n",
        status: 0,
        report: b"nets 1\njoined 1\nstuck 0\nunguided 0\nprewired 0\nsingle 0\nrips 0\nwire 1200\nvias 3\nskipped 0\n",
        journal: None,
    },
    // The shorter net is first, and the other one goes round it: 400, and 1400 with four vias.
    Chip {
        pins: b"PINS 4 ;\n- p + NET b + LAYER M1 ( -50 -50 ) ( 50 50 ) + PLACED ( 100 100 ) N ;\n- q + NET b + LAYER M1 ( -50 -50 ) ( 50 50 ) + PLACED ( 1100 100 ) N ;\n- r + NET a + LAYER M1 ( -50 -50 ) ( 50 50 ) + PLACED ( 300 100 ) N ;\n- s + NET a + LAYER M1 ( -50 -50 ) ( 50 50 ) + PLACED ( 700 100 ) N ;\nEND PINS\n",
        nets: b"NETS 2 ;\n- b ( PIN p ) ( PIN q ) ;\n- a ( PIN r ) ( PIN s ) ;\nEND NETS\n",
        status: 0,
        report: b"nets 2\njoined 2\nstuck 0\nunguided 0\nprewired 0\nsingle 0\nrips 0\nwire 1800\nvias 4\nskipped 0\n",
        journal: None,
    },
    // No edge leaves the first pin.
    Chip {
        pins: b"PINS 4 ;\n- p + NET a + LAYER M1 ( -50 -50 ) ( 50 50 ) + PLACED ( 100 100 ) N ;\n- q + NET a + LAYER M1 ( -50 -50 ) ( 50 50 ) + PLACED ( 900 100 ) N ;\n- x + NET none + LAYER M1 ( -50 -50 ) ( 50 50 ) + PLACED ( 300 100 ) N ;\n- y + NET none + LAYER M2 ( -50 -50 ) ( 50 50 ) + PLACED ( 100 100 ) N ;\nEND PINS\n",
        nets: b"NETS 1 ;\n- a ( PIN p ) ( PIN q ) ;\nEND NETS\n",
        status: 1,
        report: b"nets 1\njoined 0\nstuck 1\nunguided 0\nprewired 0\nsingle 0\nrips 0\nwire 0\nvias 0\nskipped 0\nno-path a\n",
        journal: Some(b"journal 1\nstuck a\n"),
    },
];

#[test]
fn routes_chips(rt: HostRuntime) -> Result<(), Fail> {
    let alloc = rt.alloc();
    for chip in &CHIPS {
        let ran = route(alloc, LEF, &def_with(alloc, chip.pins, chip.nets)?)?;
        assert_eq!(rt; ran.done.status, chip.status);
        assert_eq!(rt; ran.out.text(), chip.report);
        if let Some(journal) = chip.journal {
            assert_eq!(rt; ran.files.file("j"), Some(journal));
        }
    }
    Ok(())
}

#[test]
fn a_walk_without_edges_leaves_the_text(rt: HostRuntime) -> Result<(), Fail> {
    let alloc = rt.alloc();
    for chip in &CHIPS[..2] {
        let def = def_with(alloc, chip.pins, chip.nets)?;
        let ran = route(alloc, LEF, &def)?;
        assert_eq!(rt; ran.files.file("o"), Some(def.as_slice()));
    }
    Ok(())
}

/// Calls of the shelf and of the sink that fail, and what a run then leaves.
struct Failing {
    shelf: &'static [u32],
    sink: &'static [u32],
    status: u8,
    says: &'static [u8],
    /// How many halves of OUT and of the journal were written.
    out: u8,
    journal: u8,
}

const FAILING: [Failing; 6] = [
    Failing {
        shelf: &[0],
        sink: &[],
        status: 8,
        says: b"error 8 read l\n",
        out: 0,
        journal: 0,
    },
    Failing {
        shelf: &[1],
        sink: &[],
        status: 8,
        says: b"error 8 read d\n",
        out: 0,
        journal: 0,
    },
    Failing {
        shelf: &[2],
        sink: &[],
        status: 9,
        says: b"error 9 write o\n",
        out: 1,
        journal: 0,
    },
    Failing {
        shelf: &[3],
        sink: &[],
        status: 9,
        says: b"error 9 write j\n",
        out: 2,
        journal: 1,
    },
    Failing {
        shelf: &[],
        sink: &[0],
        status: 9,
        says: REPORT,
        out: 2,
        journal: 2,
    },
    Failing {
        shelf: &[2],
        sink: &[0],
        status: 9,
        says: b"error 9 write o\n",
        out: 1,
        journal: 0,
    },
];

fn halves(text: &[u8], count: u8) -> Option<&[u8]> {
    match count {
        0 => None,
        1 => Some(&text[..text.len() / 2]),
        _ => Some(text),
    }
}

#[test]
fn faults_end_a_run(rt: HostRuntime) -> Result<(), Fail> {
    let alloc = rt.alloc();
    for row in &FAILING {
        let files = files_of(alloc, LEF, DEF)?;
        let ran = run_words(alloc, &ROUTE, files, row.shelf, row.sink)?;
        assert_eq!(rt; ran.done.status, row.status);
        assert!(rt; row.says.starts_with(ran.out.text()));
        assert_eq!(rt; ran.out.text() == row.says, row.sink.is_empty());
        assert_eq!(rt; ran.files.file("o"), halves(ROUTED, row.out));
        assert_eq!(rt; ran.files.file("j"), halves(JOURNAL, row.journal));
        assert_eq!(rt; ran.files.file("l"), Some(LEF));
        assert_eq!(rt; ran.files.file("d"), Some(DEF));
    }
    Ok(())
}

/// Words and the line that refuses them: the form of all words comes first, then options that stand
/// twice, then values, then names.
const REFUSED: [(&[&str], &[u8]); 32] = [
    (&[], b"error 2 shape 1\n"),
    (&["rout", "a", "b"], b"error 2 shape 1\n"),
    (&["route", "a", "b"], b"error 2 shape 4\n"),
    (&["route", "a", "b", "-"], b"error 2 shape 5\n"),
    (&["route", "a", "b", "-", "c"], b"error 2 shape 6\n"),
    (
        &["route", "a", "b", "-", "c", "d", "e"],
        b"error 2 shape 7\n",
    ),
    (
        &["route", "a", "b", "-", "c", "c", "--via"],
        b"error 2 shape 8\n",
    ),
    (
        &["route", "a", "b", "-", "c", "d", "--workers", "1"],
        b"error 2 shape 7\n",
    ),
    (
        &["route", "a", "b", "-", "c", "c", "--rips"],
        b"error 2 shape 8\n",
    ),
    (
        &["route", "a", "b", "-", "c", "d", "--via", "5", "x", "6"],
        b"error 2 shape 9\n",
    ),
    (
        &["route", "a", "b", "-", "c", "d", "--via", "5", "--tile"],
        b"error 2 shape 10\n",
    ),
    (
        &[
            "route",
            "a",
            "b",
            "-",
            "c",
            "d",
            "--via",
            "5",
            "--via",
            "5",
            "--workers",
            "1",
        ],
        b"error 2 shape 11\n",
    ),
    (
        &["route", "a", "b", "-", "c", "d", "--via", "5", "--via", "6"],
        b"error 2 twice 9\n",
    ),
    (
        &[
            "route", "a", "b", "-", "c", "c", "--tile", "x", "--via", "1", "--tile", "y",
        ],
        b"error 2 twice 11\n",
    ),
    (
        &[
            "route", "a", "b", "-", "c", "d", "--rips", "17", "--rips", "3",
        ],
        b"error 2 twice 9\n",
    ),
    (
        &["route", "a", "b", "-", "c", "d", "--via", "05"],
        b"error 2 number 8\n",
    ),
    (
        &["route", "a", "b", "-", "c", "d", "--via", "+5"],
        b"error 2 number 8\n",
    ),
    (
        &["route", "a", "b", "-", "c", "d", "--via", ""],
        b"error 2 number 8\n",
    ),
    (
        &["route", "a", "b", "-", "c", "d", "--via", "1048577"],
        b"error 2 number 8\n",
    ),
    (
        &["route", "a", "b", "-", "c", "d", "--tile", "0"],
        b"error 2 number 8\n",
    ),
    (
        &["route", "a", "b", "-", "c", "d", "--tile", "1073741825"],
        b"error 2 number 8\n",
    ),
    (
        &[
            "route", "a", "b", "-", "c", "d", "--tile", "5", "--via", "--tile",
        ],
        b"error 2 number 10\n",
    ),
    (
        &["route", "a", "b", "-", "c", "d", "--rips", "17"],
        b"error 2 number 8\n",
    ),
    (
        &["route", "a", "b", "-", "c", "d", "--rips", "03"],
        b"error 2 number 8\n",
    ),
    (
        &["route", "a", "b", "-", "c", "d", "--rips", ""],
        b"error 2 number 8\n",
    ),
    (
        &["route", "a", "a", "-", "c", "d", "--via", "x"],
        b"error 2 number 8\n",
    ),
    (
        &["route", "a", "b", "-", "c", "c"],
        b"error 2 same-name 6\n",
    ),
    (
        &["route", "a", "a", "-", "c", "d"],
        b"error 2 same-name 3\n",
    ),
    (
        &["route", "-", "b", "-", "-", "d"],
        b"error 2 same-name 4\n",
    ),
    (
        &["route", "a", "b", "-", "-", "d"],
        b"error 2 same-name 5\n",
    ),
    (
        &[
            "route",
            "route",
            "b",
            "g",
            "c",
            "g",
            "--via",
            "1048576",
            "--tile",
            "1073741824",
            "--rips",
            "16",
        ],
        b"error 2 same-name 6\n",
    ),
    (
        &["route", "a", "b", "-", "c", "c", "--rips", "0"],
        b"error 2 same-name 6\n",
    ),
];

#[test]
fn refuses_words(rt: HostRuntime) -> Result<(), Fail> {
    let alloc = rt.alloc();
    for (words, line) in &REFUSED {
        let ran = run_words(alloc, words, files_of(alloc, LEF, DEF)?, &[0], &[])?;
        assert_eq!(rt; ran.done.status, 2);
        assert_eq!(rt; ran.out.text(), *line);
    }
    Ok(())
}

/// The text with this in the place of its line with this number, counted from 1.
fn with_line(alloc: Global, text: &[u8], number: u32, by: &[u8]) -> Result<Vec<u8>, AllocError> {
    let mut changed = Vec::new(alloc);
    let mut line = 1_u32;
    for byte in text {
        let ends = *byte == b'\n';
        if line != number {
            changed.push(*byte)?;
        } else if ends {
            changed.extend_from_slice(by)?;
            changed.push(b'\n')?;
        }
        if ends {
            line = line.saturating_add(1);
        }
    }
    Ok(changed)
}

/// A line of one of the two texts in the place of its own, and how the run then ends.
struct Change {
    lef: bool,
    line: u32,
    by: &'static [u8],
    status: u8,
    says: &'static [u8],
}

const CHANGES: [Change; 16] = [
    Change {
        lef: false,
        line: 14,
        by: b"END DESIGN\n#\0",
        status: 4,
        says: b"error 4 not-text 15\n",
    },
    Change {
        lef: false,
        line: 14,
        by: b"END DESIGN\nx",
        status: 4,
        says: b"error 4 expected 15\n",
    },
    Change {
        lef: false,
        line: 4,
        by: b"DIEAREA ( 0 0 ) ( 1073741825 2000 ) ;",
        status: 4,
        says: b"error 4 number 4 too-large\n",
    },
    Change {
        lef: false,
        line: 4,
        by: b"DIEAREA ( 0 0 ) ( 2000 2000 ) ( 5 5 ) ;",
        status: 4,
        says: b"error 4 die-polygon 4\n",
    },
    Change {
        lef: false,
        line: 5,
        by: b"TRACKS Y 100 DO 10 STEP 0 LAYER M1 ;",
        status: 4,
        says: b"error 4 number 5 out-of-range\n",
    },
    Change {
        lef: false,
        line: 11,
        by: b"NETS 2 ;",
        status: 4,
        says: b"error 4 count NETS 2 1\n",
    },
    Change {
        lef: false,
        line: 13,
        by: b"- a ;\nEND NETS",
        status: 4,
        says: b"error 4 twice 13 a\n",
    },
    Change {
        lef: false,
        line: 6,
        by: b"TRACKS X 0 DO 65537 STEP 1 LAYER M2 ;",
        status: 7,
        says: b"error 7 limit tracks 65537 65536\n",
    },
    Change {
        lef: false,
        line: 3,
        by: b"UNITS DISTANCE MICRONS 3000 ;",
        status: 6,
        says: b"error 6 scale 1000 3000\n",
    },
    Change {
        lef: false,
        line: 6,
        by: b"TRACKS Y 100 DO 10 STEP 200 LAYER M2 ;",
        status: 6,
        says: b"error 6 no-tracks M2\n",
    },
    Change {
        lef: true,
        line: 1,
        by: b"VERSION \"5.8 ;",
        status: 3,
        says: b"error 3 quote 1\n",
    },
    Change {
        lef: true,
        line: 11,
        by: b"END M9",
        status: 3,
        says: b"error 3 expected 11\n",
    },
    Change {
        lef: true,
        line: 9,
        by: b"  WIDTH 0.1000000 ;",
        status: 3,
        says: b"error 3 number 9 too-many-decimals\n",
    },
    Change {
        lef: true,
        line: 9,
        by: b"  WIDTH 0.101 ;",
        status: 3,
        says: b"error 3 odd-width M1\n",
    },
    Change {
        lef: true,
        line: 9,
        by: b"  WIDTH 0.0005 ;",
        status: 3,
        says: b"error 3 number 9 not-whole\n",
    },
    // A macro's port is cut inside a rectangle.
    Change {
        lef: true,
        line: 31,
        by: b"MACRO B\n\n\n\n\nPIN A\nDIRECTION INPUT ;\nPORT\nLAYER M1 ;\nRECT 0 0 0.1",
        status: 3,
        says: b"error 3 unended 40\n",
    },
];

#[test]
fn single_changes_are_refused(rt: HostRuntime) -> Result<(), Fail> {
    let alloc = rt.alloc();
    for change in &CHANGES {
        let text = if change.lef { LEF } else { DEF };
        let changed = with_line(alloc, text, change.line, change.by)?;
        let ran = if change.lef {
            route(alloc, &changed, DEF)?
        } else {
            route(alloc, LEF, &changed)?
        };
        assert_eq!(rt; ran.done.status, change.status);
        assert_eq!(rt; ran.out.text(), change.says);
        assert_eq!(rt; ran.files.file("o"), None);
        assert_eq!(rt; ran.files.file("j"), None);
    }
    Ok(())
}

/// The first lines of a text.
pub fn first_lines(alloc: Global, text: &[u8], count: u32) -> Result<Vec<u8>, AllocError> {
    let mut first = Vec::new(alloc);
    let mut line = 1_u32;
    for byte in text {
        if line <= count {
            first.push(*byte)?;
        }
        if *byte == b'\n' {
            line = line.saturating_add(1);
        }
    }
    Ok(first)
}

/// How many lines of LEF are left, the status, and how what is said ends.
const CUTS: [(u32, u8, &[u8]); 7] = [
    (0, 6, b"error 6 scale 100 1000\n"),
    (1, 6, b"error 6 scale 100 1000\n"),
    (4, 6, b"error 6 no-layer M1\n"),
    (11, 6, b"error 6 no-layer M2\n"),
    (15, 6, b"error 6 no-layer M2\n"),
    (22, 1, b"skipped 0\nno-path a\n"),
    (30, 0, REPORT),
];

#[test]
fn lef_may_end_behind_a_statement(rt: HostRuntime) -> Result<(), Fail> {
    let alloc = rt.alloc();
    for (count, status, says) in &CUTS {
        let ran = route(alloc, &first_lines(alloc, LEF, *count)?, DEF)?;
        assert_eq!(rt; ran.done.status, *status);
        assert!(rt; ran.out.text().ends_with(says));
    }
    Ok(())
}
