//! Designs under the command's words: what is routed, and what is refused.
use crate::tests::{DEF, HEAD, LEF, Ran, first_lines, guided_files, route, run_words};
use std::alloc::{AllocError, Global};
use std::test::Fail;

/// The words, the text behind the head of DEF, the guides, and how the run ends.
#[derive(Drop)]
struct Case {
    words: &'static [&'static str],
    def: &'static [u8],
    guide: &'static [u8],
    status: u8,
    says: &'static [u8],
}

const PLAIN: &[&str] = &["route", "l", "d", "-", "o", "j"];

const GUIDED: &[&str] = &["route", "l", "d", "g", "o", "j"];

const FINE: &[&str] = &["route", "l", "d", "-", "o", "j", "--tile", "1"];

const TILES: &[&str] = &["route", "l", "d", "-", "o", "j", "--tile", "1000"];

const PAIRS: &[&str] = &["route", "l", "d", "-", "o", "j", "--tile", "2"];

const CHEAP: &[&str] = &["route", "l", "d", "-", "o", "j", "--via", "1599"];

const DEAR: &[&str] = &[
    "route", "l", "d", "-", "o", "j", "--tile", "64", "--via", "1601",
];

fn run_case(alloc: Global, case: &Case) -> Result<Ran, AllocError> {
    let files = guided_files(alloc, HEAD, case.def, case.guide)?;
    run_words(alloc, case.words, files, &[], &[])
}

/// What is routed.
const ROUTED: [Case; 17] = [
    // A blockage on the straight way: round it by two more vias.
    Case {
        words: PLAIN,
        def: b"PINS 2 ;\n- p + LAYER M1 ( -50 -50 ) ( 50 50 ) + PLACED ( 100 100 ) N ;\n- q + LAYER M2 ( -50 -50 ) ( 50 50 ) + PLACED ( 900 500 ) N ;\nEND PINS\nBLOCKAGES 1 ;\n- LAYER M1 RECT ( 480 50 ) ( 520 150 ) ;\nEND BLOCKAGES\nNETS 1 ;\n- a ( PIN p ) ( PIN q ) ;\nEND NETS\n",
        guide: b"",
        status: 0,
        says: b"nets 1\njoined 1\nstuck 0\nunguided 0\nprewired 0\nsingle 0\nrips 0\nwire 1200\nvias 3\nskipped 0\n",
    },
    // The rail of a special net is nobody's, and stands in the way as the blockage does.
    Case {
        words: PLAIN,
        def: b"PINS 2 ;\n- p + LAYER M1 ( -50 -50 ) ( 50 50 ) + PLACED ( 100 100 ) N ;\n- q + LAYER M2 ( -50 -50 ) ( 50 50 ) + PLACED ( 900 500 ) N ;\nEND PINS\nSPECIALNETS 1 ;\n- VDD + ROUTED M1 40 ( 500 50 ) ( 500 150 ) ;\nEND SPECIALNETS\nNETS 1 ;\n- a ( PIN p ) ( PIN q ) ;\nEND NETS\n",
        guide: b"",
        status: 0,
        says: b"nets 1\njoined 1\nstuck 0\nunguided 0\nprewired 0\nsingle 0\nrips 0\nwire 1200\nvias 3\nskipped 0\n",
    },
    // The same rail of a special net with the net's own name is the net's.
    Case {
        words: PLAIN,
        def: b"PINS 2 ;\n- p + LAYER M1 ( -50 -50 ) ( 50 50 ) + PLACED ( 100 100 ) N ;\n- q + LAYER M2 ( -50 -50 ) ( 50 50 ) + PLACED ( 900 500 ) N ;\nEND PINS\nSPECIALNETS 1 ;\n- a + ROUTED M1 40 ( 500 50 ) ( 500 150 ) ;\nEND SPECIALNETS\nNETS 1 ;\n- a ( PIN p ) ( PIN q ) ;\nEND NETS\n",
        guide: b"",
        status: 0,
        says: b"nets 1\njoined 1\nstuck 0\nunguided 0\nprewired 0\nsingle 0\nrips 0\nwire 1200\nvias 1\nskipped 0\n",
    },
    // Wiring of another net stands in the way, from 450 60 to 550 140.
    Case {
        words: PLAIN,
        def: b"PINS 2 ;\n- p + LAYER M1 ( -50 -50 ) ( 50 50 ) + PLACED ( 100 100 ) N ;\n- q + LAYER M2 ( -50 -50 ) ( 50 50 ) + PLACED ( 900 500 ) N ;\nEND PINS\nNETS 2 ;\n- a ( PIN p ) ( PIN q ) ;\n- b + ROUTED M1 ( 500 80 20 ) ( 500 120 20 ) ;\nEND NETS\n",
        guide: b"",
        status: 0,
        says: b"nets 2\njoined 1\nstuck 0\nunguided 0\nprewired 1\nsingle 0\nrips 0\nwire 1200\nvias 3\nskipped 0\n",
    },
    // A blockage at the spacing of the straight way.
    Case {
        words: PLAIN,
        def: b"PINS 2 ;\n- p + LAYER M1 ( -50 -50 ) ( 50 50 ) + PLACED ( 100 100 ) N ;\n- q + LAYER M1 ( -50 -50 ) ( 50 50 ) + PLACED ( 900 100 ) N ;\nEND PINS\nBLOCKAGES 1 ;\n- LAYER M1 RECT ( 480 250 ) ( 520 251 ) ;\nEND BLOCKAGES\nNETS 1 ;\n- a ( PIN p ) ( PIN q ) ;\nEND NETS\n",
        guide: b"",
        status: 0,
        says: b"nets 1\njoined 1\nstuck 0\nunguided 0\nprewired 0\nsingle 0\nrips 0\nwire 800\nvias 0\nskipped 0\n",
    },
    // One unit nearer it closes the tracks at 100 and 300: 800, 800 and four vias.
    Case {
        words: PLAIN,
        def: b"PINS 2 ;\n- p + LAYER M1 ( -50 -50 ) ( 50 50 ) + PLACED ( 100 100 ) N ;\n- q + LAYER M1 ( -50 -50 ) ( 50 50 ) + PLACED ( 900 100 ) N ;\nEND PINS\nBLOCKAGES 1 ;\n- LAYER M1 RECT ( 480 249 ) ( 520 251 ) ;\nEND BLOCKAGES\nNETS 1 ;\n- a ( PIN p ) ( PIN q ) ;\nEND NETS\n",
        guide: b"",
        status: 0,
        says: b"nets 1\njoined 1\nstuck 0\nunguided 0\nprewired 0\nsingle 0\nrips 0\nwire 1600\nvias 4\nskipped 0\n",
    },
    // Four pins: 800, then 800 from the wire at (500, 100), then 2000 from its end.
    Case {
        words: TILES,
        def: b"PINS 4 ;\n- p + LAYER M1 ( -50 -50 ) ( 50 50 ) + PLACED ( 100 100 ) N ;\n- q + LAYER M1 ( -50 -50 ) ( 50 50 ) + PLACED ( 900 100 ) N ;\n- r + LAYER M2 ( -50 -50 ) ( 50 50 ) + PLACED ( 500 900 ) N ;\n- s + LAYER M2 ( -50 -50 ) ( 50 50 ) + PLACED ( 1500 1500 ) N ;\nEND PINS\nNETS 1 ;\n- a ( PIN p ) ( PIN q ) ( PIN r ) ( PIN s ) ;\nEND NETS\n",
        guide: b"",
        status: 0,
        says: b"nets 1\njoined 1\nstuck 0\nunguided 0\nprewired 0\nsingle 0\nrips 0\nwire 3600\nvias 2\nskipped 0\n",
    },
    // Five pins: 800; 800 and a via; 400 and a via from (500, 700); 1800 and a via from there.
    Case {
        words: PLAIN,
        def: b"PINS 5 ;\n- p + LAYER M1 ( -50 -50 ) ( 50 50 ) + PLACED ( 100 100 ) N ;\n- q + LAYER M1 ( -50 -50 ) ( 50 50 ) + PLACED ( 900 100 ) N ;\n- r + LAYER M2 ( -50 -50 ) ( 50 50 ) + PLACED ( 500 900 ) N ;\n- s + LAYER M2 ( -50 -50 ) ( 50 50 ) + PLACED ( 1500 1500 ) N ;\n- t + LAYER M1 ( -50 -50 ) ( 50 50 ) + PLACED ( 100 700 ) N ;\nEND PINS\nNETS 1 ;\n- a ( PIN p ) ( PIN q ) ( PIN r ) ( PIN s ) ( PIN t ) ;\nEND NETS\n",
        guide: b"",
        status: 0,
        says: b"nets 1\njoined 1\nstuck 0\nunguided 0\nprewired 0\nsingle 0\nrips 0\nwire 3800\nvias 3\nskipped 0\n",
    },
    // A guide for one net: the others are wired, have one pin, or are unguided.
    Case {
        words: GUIDED,
        def: b"PINS 7 ;\n- r1 + LAYER M1 ( -50 -50 ) ( 50 50 ) + PLACED ( 100 100 ) N ;\n- r2 + LAYER M1 ( -50 -50 ) ( 50 50 ) + PLACED ( 900 100 ) N ;\n- s1 + LAYER M1 ( -50 -50 ) ( 50 50 ) + PLACED ( 100 900 ) N ;\n- p1 + LAYER M1 ( -50 -50 ) ( 50 50 ) + PLACED ( 100 1300 ) N ;\n- p2 + LAYER M1 ( -50 -50 ) ( 50 50 ) + PLACED ( 500 1300 ) N ;\n- u1 + LAYER M1 ( -50 -50 ) ( 50 50 ) + PLACED ( 100 1700 ) N ;\n- u2 + LAYER M1 ( -50 -50 ) ( 50 50 ) + PLACED ( 900 1700 ) N ;\nEND PINS\nNETS 4 ;\n- r ( PIN r1 ) ( PIN r2 ) ;\n- s ( PIN s1 ) ;\n- p ( PIN p1 ) ( PIN p2 ) + ROUTED M1 ( 100 1300 ) ( 500 1300 ) ;\n- u ( PIN u1 ) ( PIN u2 ) ;\nEND NETS\n",
        guide: b"r\n(\n0 0 2000 400 M1\n)\n",
        status: 1,
        says: b"nets 4\njoined 1\nstuck 0\nunguided 1\nprewired 1\nsingle 1\nrips 0\nwire 800\nvias 0\nskipped 0\nunguided-net u\n",
    },
    // Guides for the nets that need none, too, and a net's boxes on no routing layer are dropped.
    Case {
        words: GUIDED,
        def: b"PINS 5 ;\n- r1 + LAYER M1 ( -50 -50 ) ( 50 50 ) + PLACED ( 100 100 ) N ;\n- r2 + LAYER M1 ( -50 -50 ) ( 50 50 ) + PLACED ( 900 100 ) N ;\n- s1 + LAYER M1 ( -50 -50 ) ( 50 50 ) + PLACED ( 100 900 ) N ;\n- p1 + LAYER M1 ( -50 -50 ) ( 50 50 ) + PLACED ( 100 1300 ) N ;\n- p2 + LAYER M1 ( -50 -50 ) ( 50 50 ) + PLACED ( 500 1300 ) N ;\nEND PINS\nNETS 3 ;\n- r ( PIN r1 ) ( PIN r2 ) ;\n- s ( PIN s1 ) ;\n- p ( PIN p1 ) ( PIN p2 ) + ROUTED M1 ( 100 1300 ) ( 500 1300 ) ;\nEND NETS\n",
        guide: b"p ( )\ns ( 0 0 5 5 M2 )\nr ( 0 0 2000 2000 C1 0 0 2000 400 M1 )\n",
        status: 0,
        says: b"nets 3\njoined 1\nstuck 0\nunguided 0\nprewired 1\nsingle 1\nrips 0\nwire 800\nvias 0\nskipped 0\n",
    },
    // Two boxes that leave no whole number between them.
    Case {
        words: GUIDED,
        def: b"PINS 2 ;\n- p + LAYER M1 ( -50 -50 ) ( 50 50 ) + PLACED ( 100 100 ) N ;\n- q + LAYER M1 ( -50 -50 ) ( 50 50 ) + PLACED ( 900 100 ) N ;\nEND PINS\nNETS 1 ;\n- a ( PIN p ) ( PIN q ) ;\nEND NETS\n",
        guide: b"a\n(\n0 0 399 200 M1\n400 0 1000 200 M1\n)\n",
        status: 0,
        says: b"nets 1\njoined 1\nstuck 0\nunguided 0\nprewired 0\nsingle 0\nrips 0\nwire 800\nvias 0\nskipped 0\n",
    },
    // The whole number 400 lies in none of the boxes.
    Case {
        words: GUIDED,
        def: b"PINS 2 ;\n- p + LAYER M1 ( -50 -50 ) ( 50 50 ) + PLACED ( 100 100 ) N ;\n- q + LAYER M1 ( -50 -50 ) ( 50 50 ) + PLACED ( 900 100 ) N ;\nEND PINS\nNETS 1 ;\n- a ( PIN p ) ( PIN q ) ;\nEND NETS\n",
        guide: b"a\n(\n0 0 399 200 M1\n401 0 1000 200 M1\n)\n",
        status: 1,
        says: b"nets 1\njoined 0\nstuck 1\nunguided 0\nprewired 0\nsingle 0\nrips 0\nwire 0\nvias 0\nskipped 0\nno-path a\n",
    },
    // Boxes that overlap.
    Case {
        words: GUIDED,
        def: b"PINS 2 ;\n- p + LAYER M1 ( -50 -50 ) ( 50 50 ) + PLACED ( 100 100 ) N ;\n- q + LAYER M1 ( -50 -50 ) ( 50 50 ) + PLACED ( 900 100 ) N ;\nEND PINS\nNETS 1 ;\n- a ( PIN p ) ( PIN q ) ;\nEND NETS\n",
        guide: b"a ( 350 50 1000 150 M1 0 0 500 200 M1 )",
        status: 0,
        says: b"nets 1\njoined 1\nstuck 0\nunguided 0\nprewired 0\nsingle 0\nrips 0\nwire 800\nvias 0\nskipped 0\n",
    },
    // The guide keeps to the track at 500: 800, 800 and four vias, with nothing in the way.
    Case {
        words: GUIDED,
        def: b"PINS 2 ;\n- p + LAYER M1 ( -50 -50 ) ( 50 50 ) + PLACED ( 100 100 ) N ;\n- q + LAYER M1 ( -50 -50 ) ( 50 50 ) + PLACED ( 900 100 ) N ;\nEND PINS\nNETS 1 ;\n- a ( PIN p ) ( PIN q ) ;\nEND NETS\n",
        guide: b"a ( 100 100 100 100 M1 900 100 900 100 M1 0 0 2000 500 M2 0 400 2000 500 M1 )",
        status: 0,
        says: b"nets 1\njoined 1\nstuck 0\nunguided 0\nprewired 0\nsingle 0\nrips 0\nwire 1600\nvias 4\nskipped 0\n",
    },
    // A guide without a box.
    Case {
        words: GUIDED,
        def: b"PINS 2 ;\n- p + LAYER M1 ( -50 -50 ) ( 50 50 ) + PLACED ( 100 100 ) N ;\n- q + LAYER M2 ( -50 -50 ) ( 50 50 ) + PLACED ( 900 500 ) N ;\nEND PINS\nNETS 1 ;\n- a ( PIN p ) ( PIN q ) ;\nEND NETS\n",
        guide: b"a\n(\n)\n",
        status: 1,
        says: b"nets 1\njoined 0\nstuck 1\nunguided 0\nprewired 0\nsingle 0\nrips 0\nwire 0\nvias 0\nskipped 0\nno-path a\n",
    },
    // Boxes on the cut layer alone.
    Case {
        words: GUIDED,
        def: b"PINS 2 ;\n- p + LAYER M1 ( -50 -50 ) ( 50 50 ) + PLACED ( 100 100 ) N ;\n- q + LAYER M1 ( -50 -50 ) ( 50 50 ) + PLACED ( 900 100 ) N ;\nEND PINS\nNETS 1 ;\n- a ( PIN p ) ( PIN q ) ;\nEND NETS\n",
        guide: b"a ( 0 0 2000 2000 C1 )",
        status: 1,
        says: b"nets 1\njoined 0\nstuck 1\nunguided 0\nprewired 0\nsingle 0\nrips 0\nwire 0\nvias 0\nskipped 0\nno-path a\n",
    },
    // An empty text of guides guides no net.
    Case {
        words: GUIDED,
        def: b"PINS 2 ;\n- p + LAYER M1 ( -50 -50 ) ( 50 50 ) + PLACED ( 100 100 ) N ;\n- q + LAYER M1 ( -50 -50 ) ( 50 50 ) + PLACED ( 900 100 ) N ;\nEND PINS\nNETS 1 ;\n- a ( PIN p ) ( PIN q ) ;\nEND NETS\n",
        guide: b"",
        status: 1,
        says: b"nets 1\njoined 0\nstuck 0\nunguided 1\nprewired 0\nsingle 0\nrips 0\nwire 0\nvias 0\nskipped 0\nunguided-net a\n",
    },
];

/// What is refused. The head of DEF has six lines.
const REFUSED: [Case; 38] = [
    // Guides: the bytes, and then the words from left to right.
    Case {
        words: GUIDED,
        def: b"",
        guide: b"a (\n0 0 1 1 \"M1\n)\n",
        status: 5,
        says: b"error 5 quote 2\n",
    },
    Case {
        words: GUIDED,
        def: b"",
        guide: b"a\n(\n\x01)\n",
        status: 5,
        says: b"error 5 not-text 3\n",
    },
    Case {
        words: GUIDED,
        def: b"",
        guide: b"a\n)\n",
        status: 5,
        says: b"error 5 expected 2\n",
    },
    Case {
        words: GUIDED,
        def: b"",
        guide: b"a (\n0 0 x 1 M1 )\n",
        status: 5,
        says: b"error 5 number 2\n",
    },
    Case {
        words: GUIDED,
        def: b"",
        guide: b"a (\n5 0\n4 1 M1 )\n",
        status: 5,
        says: b"error 5 empty-box 3\n",
    },
    Case {
        words: GUIDED,
        def: b"",
        guide: b"a ( )\nb ( )\na ( )\n",
        status: 5,
        says: b"error 5 twice 3 a\n",
    },
    Case {
        words: GUIDED,
        def: b"",
        guide: b"a (\n0 0 1\n",
        status: 5,
        says: b"error 5 unended 2\n",
    },
    // DEF is read whole before them, and they are read before the design is built.
    Case {
        words: GUIDED,
        def: b"FOO ;\n",
        guide: b"a )",
        status: 4,
        says: b"error 4 unknown 7\n",
    },
    Case {
        words: GUIDED,
        def: b"TRACKS X 0 DO 1 STEP 1 LAYER M9 ;\n",
        guide: b"a )",
        status: 5,
        says: b"error 5 expected 1\n",
    },
    // A guide's net, and then its layers; both behind the layers without tracks.
    Case {
        words: GUIDED,
        def: b"NETS 1 ;\n- a ;\nEND NETS\n",
        guide: b"a ( ) z ( 0 0 1 1 M9 )",
        status: 6,
        says: b"error 6 no-net z\n",
    },
    Case {
        words: GUIDED,
        def: b"NETS 1 ;\n- a ;\nEND NETS\n",
        guide: b"a ( 0 0 1 1 C1 0 0 1 1 M9 ) z ( )",
        status: 6,
        says: b"error 6 no-layer M9\n",
    },
    Case {
        words: GUIDED,
        def: b"PINS 1 ;\n- p + LAYER M8 ( 0 0 ) ( 1 1 ) + PLACED ( 0 0 ) N ;\nEND PINS\n",
        guide: b"z ( )",
        status: 6,
        says: b"error 6 no-layer M8\n",
    },
    // Names.
    Case {
        words: PLAIN,
        def: b"TRACKS X 0 DO 1 STEP 1 LAYER M9 ;\n",
        guide: b"",
        status: 6,
        says: b"error 6 no-layer M9\n",
    },
    Case {
        words: PLAIN,
        def: b"COMPONENTS 1 ;\n- u1 INV + PLACED ( 0 0 ) N ;\nEND COMPONENTS\n",
        guide: b"",
        status: 6,
        says: b"error 6 no-macro INV\n",
    },
    Case {
        words: PLAIN,
        def: b"BLOCKAGES 1 ;\n- LAYER M9 RECT ( 0 0 ) ( 1 1 ) ;\nEND BLOCKAGES\n",
        guide: b"",
        status: 6,
        says: b"error 6 no-layer M9\n",
    },
    Case {
        words: PLAIN,
        def: b"NETS 1 ;\n- a ( u9 A ) ;\nEND NETS\n",
        guide: b"",
        status: 6,
        says: b"error 6 no-component u9\n",
    },
    Case {
        words: PLAIN,
        def: b"NETS 1 ;\n- a ( PIN z ) ;\nEND NETS\n",
        guide: b"",
        status: 6,
        says: b"error 6 no-pin z\n",
    },
    Case {
        words: PLAIN,
        def: b"PINS 1 ;\n- p ;\nEND PINS\nNETS 2 ;\n- a ( PIN p ) ;\n- b ( PIN p ) ;\nEND NETS\n",
        guide: b"",
        status: 6,
        says: b"error 6 pin-twice p\n",
    },
    // Wiring of nets, on line 8.
    Case {
        words: PLAIN,
        def: b"NETS 1 ;\n- a + ROUTED M1 ( 100 100 ) ( 300 100 ;\nEND NETS\n",
        guide: b"",
        status: 6,
        says: b"error 6 wiring expected 8\n",
    },
    Case {
        words: PLAIN,
        def: b"NETS 1 ;\n- a + ROUTED M1 ( 100 x ) ( 300 100 ) ;\nEND NETS\n",
        guide: b"",
        status: 6,
        says: b"error 6 wiring number 8\n",
    },
    Case {
        words: PLAIN,
        def: b"NETS 1 ;\n- a + ROUTED C1 ( 100 100 ) ( 300 100 ) ;\nEND NETS\n",
        guide: b"",
        status: 6,
        says: b"error 6 wiring no-such-layer 8\n",
    },
    Case {
        words: PLAIN,
        def: b"NETS 1 ;\n- a + ROUTED M1 ( 100 100 ) V99 ;\nEND NETS\n",
        guide: b"",
        status: 6,
        says: b"error 6 wiring no-such-via 8\n",
    },
    Case {
        words: PLAIN,
        def: b"NETS 1 ;\n- a + ROUTED M1 ( * 100 ) ( 300 100 ) ;\nEND NETS\n",
        guide: b"",
        status: 6,
        says: b"error 6 wiring first-star 8\n",
    },
    Case {
        words: PLAIN,
        def: b"NETS 1 ;\n- a + ROUTED M1 ( 100 100 )\n( 300 300 ) ;\nEND NETS\n",
        guide: b"",
        status: 6,
        says: b"error 6 wiring diagonal 9\n",
    },
    Case {
        words: PLAIN,
        def: b"NETS 1 ;\n- a + ROUTED M1 ( 100 100 ) VIRTUAL ( 300 100 ) ;\nEND NETS\n",
        guide: b"",
        status: 6,
        says: b"error 6 wiring refused 8\n",
    },
    // The second piece of a net's wiring.
    Case {
        words: PLAIN,
        def: b"NETS 1 ;\n- a + ROUTED M1 ( 100 100 )\n+ FIXED M7 ( 300 100 ) ;\nEND NETS\n",
        guide: b"",
        status: 6,
        says: b"error 6 wiring no-such-layer 9\n",
    },
    // A via of DEF on one routing layer, and vias that aren't read.
    Case {
        words: PLAIN,
        def: b"VIAS 1 ;\n- VX + RECT M1 ( 0 0 ) ( 10 10 ) ;\nEND VIAS\nNETS 1 ;\n- a + ROUTED M1 ( 100 100 ) VX ;\nEND NETS\n",
        guide: b"",
        status: 6,
        says: b"error 6 wiring via-off-layer 11\n",
    },
    Case {
        words: PLAIN,
        def: b"VIAS 2 ;\n- VX + RECT M1 ( 0 0 ) ( 10 10 ) ;\n- VY + RECT M9 ( 0 0 ) ( 10 10 ) ;\nEND VIAS\n",
        guide: b"",
        status: 6,
        says: b"error 6 wiring no-such-layer 9\n",
    },
    Case {
        words: PLAIN,
        def: b"VIAS 1 ;\n- VX + POLYGON M1 ( 0 0 ) ( 10 0 ) ( 10 10 ) ( 0 10 ) ;\nEND VIAS\n",
        guide: b"",
        status: 6,
        says: b"error 6 wiring refused 8\n",
    },
    // Vias before components, components before pins, special wiring before that of nets.
    Case {
        words: PLAIN,
        def: b"COMPONENTS 1 ;\n- u1 INV ;\nEND COMPONENTS\nVIAS 1 ;\n- VX + RECT M9 ( 0 0 ) ( 10 10 ) ;\nEND VIAS\n",
        guide: b"",
        status: 6,
        says: b"error 6 wiring no-such-layer 11\n",
    },
    Case {
        words: PLAIN,
        def: b"NETS 1 ;\n- a + ROUTED M9 ( 0 0 ) ( 10 0 ) ;\nEND NETS\nSPECIALNETS 1 ;\n- VDD + ROUTED M1 100 ( 0 0 ) ( 10 10 ) ;\nEND SPECIALNETS\n",
        guide: b"",
        status: 6,
        says: b"error 6 wiring diagonal 11\n",
    },
    Case {
        words: PLAIN,
        def: b"SPECIALNETS 1 ;\n- VDD + ROUTED M1 ( 0 0 ) ( 10 0 ) ;\nEND SPECIALNETS\n",
        guide: b"",
        status: 6,
        says: b"error 6 wiring number 8\n",
    },
    // Limits.
    Case {
        words: PLAIN,
        def: b"TRACKS Y 0 DO 65527 STEP 1 LAYER M1 ;\n",
        guide: b"",
        status: 7,
        says: b"error 7 limit tracks 65537 65536\n",
    },
    Case {
        words: PLAIN,
        def: b"PINS 1 ;\n- p + LAYER M1 ( 0 0 ) ( 10 9 ) + PLACED ( 1073741824 0 ) N ;\nEND PINS\n",
        guide: b"",
        status: 7,
        says: b"error 7 limit coordinate 1073741834 1073741824\n",
    },
    Case {
        words: PLAIN,
        def: b"NETS 1 ;\n- a + ROUTED M1 ( 1073741824 100 ) ( 0 100 ) ;\nEND NETS\n",
        guide: b"",
        status: 7,
        says: b"error 7 limit coordinate 1073741874 1073741824\n",
    },
    Case {
        words: FINE,
        def: b"",
        guide: b"",
        status: 7,
        says: b"error 7 limit tiles 4000000 1048576\n",
    },
    Case {
        words: PAIRS,
        def: b"BLOCKAGES 1 ;\n- LAYER M1 RECT ( 0 0 ) ( 2000 2000 ) RECT ( 0 0 ) ( 2000 2000 ) RECT ( 0 0 ) ( 2000 2000 ) RECT ( 0 0 ) ( 2000 2000 ) RECT ( 0 0 ) ( 2000 2000 ) RECT ( 0 0 ) ( 2000 2000 ) RECT ( 0 0 ) ( 2000 2000 ) RECT ( 0 0 ) ( 2000 2000 ) RECT ( 0 0 ) ( 2000 2000 ) RECT ( 0 0 ) ( 2000 2000 ) RECT ( 0 0 ) ( 2000 2000 ) RECT ( 0 0 ) ( 2000 2000 ) RECT ( 0 0 ) ( 2000 2000 ) RECT ( 0 0 ) ( 2000 2000 ) RECT ( 0 0 ) ( 2000 2000 ) RECT ( 0 0 ) ( 2000 2000 ) RECT ( 0 0 ) ( 2000 2000 ) ;\nEND BLOCKAGES\n",
        guide: b"",
        status: 7,
        says: b"error 7 limit tile-shapes 17000000 16777216\n",
    },
    // Names come before limits.
    Case {
        words: FINE,
        def: b"NETS 1 ;\n- a ( PIN z ) ;\nEND NETS\n",
        guide: b"",
        status: 6,
        says: b"error 6 no-pin z\n",
    },
];

#[test]
fn routes_designs(rt: HostRuntime) -> Result<(), Fail> {
    let alloc = rt.alloc();
    for case in &ROUTED {
        let ran = run_case(alloc, case)?;
        assert_eq!(rt; ran.done.status, case.status);
        assert_eq!(rt; ran.out.text(), case.says);
        assert!(rt; ran.files.file("o").is_some());
    }
    Ok(())
}

#[test]
fn refuses_designs(rt: HostRuntime) -> Result<(), Fail> {
    let alloc = rt.alloc();
    for case in &REFUSED {
        let ran = run_case(alloc, case)?;
        assert_eq!(rt; ran.out.text(), case.says);
        assert_eq!(rt; ran.done.status, case.status);
        assert_eq!(rt; ran.files.file("o"), None);
        assert_eq!(rt; ran.files.file("j"), None);
    }
    Ok(())
}

/// What a via costs decides which pin is joined first: one at 200 along M2 behind a via, or one at
/// 1800 along M1.
const JOURNALS: [(&[&str], &[u8]); 3] = [
    (
        PLAIN,
        b"journal 1\nwire a\nfrom pin 0 M1 100 100\nvia V12\nrun 100 300\nto pin 2 M2 100 300\nend\n",
    ),
    (
        CHEAP,
        b"journal 1\nwire a\nfrom pin 0 M1 100 100\nvia V12\nrun 100 300\nto pin 2 M2 100 300\nend\n",
    ),
    (
        DEAR,
        b"journal 1\nwire a\nfrom pin 0 M1 100 100\nrun 1900 100\nto pin 1 M1 1900 100\nend\n",
    ),
];

#[test]
fn vias_cost_what_the_words_say(rt: HostRuntime) -> Result<(), Fail> {
    let alloc = rt.alloc();
    for (words, begins) in &JOURNALS {
        let case = Case {
            words,
            def: b"PINS 3 ;\n- p + LAYER M1 ( -50 -50 ) ( 50 50 ) + PLACED ( 100 100 ) N ;\n- q + LAYER M1 ( -50 -50 ) ( 50 50 ) + PLACED ( 1900 100 ) N ;\n- r + LAYER M2 ( -50 -50 ) ( 50 50 ) + PLACED ( 100 300 ) N ;\nEND PINS\nNETS 1 ;\n- a ( PIN p ) ( PIN q ) ( PIN r ) ;\nEND NETS\n",
            guide: b"",
            status: 0,
            says: b"",
        };
        let ran = run_case(alloc, &case)?;
        assert_eq!(rt; ran.done.status, case.status);
        let journal = ran.files.file("j").unwrap_or(b"");
        assert!(rt; journal.starts_with(begins));
    }
    Ok(())
}

/// The words with guides, the call of the shelf that fails, and the line that is said. Only the
/// files `l`, `d` and `g` are there.
const UNREAD: [(&[&str], &[u32], &[u8]); 5] = [
    (
        &["route", "l", "d", "h", "o", "j"],
        &[],
        b"error 8 read h\n",
    ),
    (GUIDED, &[1], b"error 8 read d\n"),
    (GUIDED, &[2], b"error 8 read g\n"),
    (GUIDED, &[3], b"error 9 write o\n"),
    (GUIDED, &[4], b"error 9 write j\n"),
];

#[test]
fn guides_are_a_file(rt: HostRuntime) -> Result<(), Fail> {
    let alloc = rt.alloc();
    for (words, fails, says) in &UNREAD {
        let files = guided_files(alloc, HEAD, b"", b"")?;
        let ran = run_words(alloc, words, files, fails, &[])?;
        assert_eq!(rt; ran.out.text(), *says);
    }
    Ok(())
}

/// Behind the text, for each of these names, the parts with the name behind each of them.
fn with_names(
    alloc: Global,
    text: &[u8],
    parts: &[&[u8]],
    names: &[u8],
) -> Result<Vec<u8>, AllocError> {
    let mut named = Vec::from_slice(alloc, text)?;
    for name in names {
        push_named(&mut named, parts, *name)?;
    }
    Ok(named)
}

fn push_named(text: &mut Vec<u8>, parts: &[&[u8]], name: u8) -> Result<(), AllocError> {
    for part in parts {
        text.extend_from_slice(part)?;
        text.push(name)?;
    }
    Ok(())
}

/// Two routing layers.
const LAYERS: &[&[u8]] = &[
    b"\nLAYER h",
    b" TYPE ROUTING ; DIRECTION HORIZONTAL ; WIDTH 0.1 ; SPACING 0.1 ; END h",
    b"\nLAYER v",
    b" TYPE ROUTING ; DIRECTION VERTICAL ; WIDTH 0.1 ; SPACING 0.1 ; END v",
];

/// A via that may be used.
const VIA: &[&[u8]] = &[
    b"\nVIA ",
    b" DEFAULT LAYER M1 ; RECT 0 0 0.1 0.1 ; LAYER C1 ; RECT 0 0 0.1 0.1 ; LAYER M2 ; RECT 0 0 0.1 0.1 ; END ",
];

const NAMES: &[u8] = b"ABCDEFGHIJKLMNOPQRSTUVWXYZabcdefghijklmnopqrstuvwxyz0123456789_=";

#[test]
fn limits_of_lef(rt: HostRuntime) -> Result<(), Fail> {
    let alloc = rt.alloc();
    let layers = with_names(
        alloc,
        b"UNITS DATABASE MICRONS 1000 ; END UNITS",
        LAYERS,
        b"ABCDEFGHI",
    )?;
    let tracks =
        b"UNITS DISTANCE MICRONS 1000 ;\nDIEAREA ( 0 0 ) ( 9 9 ) ;\nTRACKS X 0 DO 1 STEP 1 ;\nTRACKS Y 0 DO 1 STEP 1 ;\nEND DESIGN\n";
    let ran = route(alloc, &layers, tracks)?;
    assert!(rt; ran.out.text() == b"error 7 limit routing-layers 18 16\n".as_slice());
    let vias = with_names(alloc, &first_lines(alloc, LEF, 30)?, VIA, NAMES)?;
    let ran = route(alloc, &vias, DEF)?;
    assert!(rt; ran.out.text() == b"error 7 limit usable-vias 65 64\n".as_slice());
    Ok(())
}

/// A pin over a die with 32,768 lines of tracks in either direction: a list of its entries would take
/// more than 32 GB. They are counted before they are listed.
const MANY_ENTRIES: &[u8] = b"\
UNITS DISTANCE MICRONS 1000 ;
DIEAREA ( 0 0 ) ( 65535 65535 ) ;
TRACKS X 0 DO 32768 STEP 2 ;
TRACKS Y 0 DO 32768 STEP 2 ;
PINS 1 ;
- p + LAYER M1 ( 0 0 ) ( 65535 65535 ) + PLACED ( 0 0 ) N ;
END PINS
NETS 1 ;
- a ( PIN p ) ;
END NETS
END DESIGN
";

#[test]
fn limit_of_entries(rt: HostRuntime) -> Result<(), Fail> {
    let ran = route(rt.alloc(), LEF, MANY_ENTRIES)?;
    assert!(rt; ran.out.text() == b"error 7 limit entries 1073741824 16777216\n".as_slice());
    Ok(())
}
