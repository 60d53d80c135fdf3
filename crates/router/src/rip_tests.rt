//! Designs in which nets are ripped, with journals that were counted by hand.
use crate::tests::{HEAD, guided_files, run_words};
use std::alloc::Global;
use std::process::Abort;
use std::test::Fail;

/// The words, the head of DEF and the text after it, the guides, and how the run ends. Where the
/// journal is left out, the report alone is compared.
#[derive(Drop)]
struct Case {
    words: &'static [&'static str],
    head: &'static [u8],
    def: &'static [u8],
    guide: &'static [u8],
    status: u8,
    says: &'static [u8],
    journal: Option<&'static [u8]>,
}

const GUIDED: &[&str] = &["route", "l", "d", "g", "o", "j"];

const NONE: &[&str] = &["route", "l", "d", "g", "o", "j", "--rips", "0"];

const ONE: &[&str] = &["route", "l", "d", "g", "o", "j", "--rips", "1"];

const MOST: &[&str] = &["route", "l", "d", "g", "o", "j", "--rips", "16"];

/// A die with two tracks on the lower level.
const TWO_TRACKS: &[u8] = b"\
VERSION 5.8 ;
DESIGN top ;
UNITS DISTANCE MICRONS 1000 ;
DIEAREA ( 0 0 ) ( 2000 2000 ) ;
TRACKS Y 100 DO 2 STEP 200 LAYER M1 ;
TRACKS X 100 DO 10 STEP 200 LAYER M2 ;
";

/// The net a between two pins on M2, and b between two on M1 that lie farther out.
const CROSSED: &[u8] = b"\
PINS 4 ;
- p + LAYER M2 ( -50 -50 ) ( 50 50 ) + PLACED ( 300 100 ) N ;
- q + LAYER M2 ( -50 -50 ) ( 50 50 ) + PLACED ( 900 100 ) N ;
- r + LAYER M1 ( -50 -50 ) ( 50 50 ) + PLACED ( 100 100 ) N ;
- s + LAYER M1 ( -50 -50 ) ( 50 50 ) + PLACED ( 1100 100 ) N ;
END PINS
NETS 2 ;
- a ( PIN p ) ( PIN q ) ;
- b ( PIN r ) ( PIN s ) ;
END NETS
";

/// Both tracks for a, the lower one for b.
const CROSSED_GUIDE: &[u8] = b"\
a ( 0 0 2000 400 M1 0 0 2000 400 M2 )
b ( 0 0 2000 200 M1 )
";

const BLOCKED: &[u8] = b"\
PINS 4 ;
- p + LAYER M2 ( -50 -50 ) ( 50 50 ) + PLACED ( 300 100 ) N ;
- q + LAYER M2 ( -50 -50 ) ( 50 50 ) + PLACED ( 900 100 ) N ;
- r + LAYER M1 ( -50 -50 ) ( 50 50 ) + PLACED ( 100 100 ) N ;
- s + LAYER M1 ( -50 -50 ) ( 50 50 ) + PLACED ( 1100 100 ) N ;
END PINS
BLOCKAGES 1 ;
- LAYER M2 RECT ( 580 0 ) ( 620 400 ) ;
END BLOCKAGES
NETS 2 ;
- a ( PIN p ) ( PIN q ) ;
- b ( PIN r ) ( PIN s ) ;
END NETS
";

/// The same with a net c on the upper track.
const LIMITED: &[u8] = b"\
PINS 6 ;
- p + LAYER M2 ( -50 -50 ) ( 50 50 ) + PLACED ( 300 100 ) N ;
- q + LAYER M2 ( -50 -50 ) ( 50 50 ) + PLACED ( 900 100 ) N ;
- r + LAYER M1 ( -50 -50 ) ( 50 50 ) + PLACED ( 100 100 ) N ;
- s + LAYER M1 ( -50 -50 ) ( 50 50 ) + PLACED ( 1100 100 ) N ;
- t + LAYER M1 ( -50 -50 ) ( 50 50 ) + PLACED ( 100 300 ) N ;
- u + LAYER M1 ( -50 -50 ) ( 50 50 ) + PLACED ( 1300 300 ) N ;
END PINS
NETS 3 ;
- a ( PIN p ) ( PIN q ) ;
- b ( PIN r ) ( PIN s ) ;
- c ( PIN t ) ( PIN u ) ;
END NETS
";

const LIMITED_GUIDE: &[u8] = b"\
a ( 0 0 2000 400 M1 0 0 2000 400 M2 )
b ( 0 0 2000 200 M1 )
c ( 0 200 2000 400 M1 )
";

/// Three nets within each other on three tracks, and one longer than all of them on the lowest.
const CHAIN: &[u8] = b"\
PINS 8 ;
- p + LAYER M2 ( -50 -50 ) ( 50 50 ) + PLACED ( 300 100 ) N ;
- q + LAYER M2 ( -50 -50 ) ( 50 50 ) + PLACED ( 1300 100 ) N ;
- r + LAYER M2 ( -50 -50 ) ( 50 50 ) + PLACED ( 500 300 ) N ;
- s + LAYER M2 ( -50 -50 ) ( 50 50 ) + PLACED ( 1100 300 ) N ;
- t + LAYER M2 ( -50 -50 ) ( 50 50 ) + PLACED ( 700 500 ) N ;
- u + LAYER M2 ( -50 -50 ) ( 50 50 ) + PLACED ( 900 500 ) N ;
- v + LAYER M1 ( -50 -50 ) ( 50 50 ) + PLACED ( 100 100 ) N ;
- w + LAYER M1 ( -50 -50 ) ( 50 50 ) + PLACED ( 1500 100 ) N ;
END PINS
NETS 4 ;
- a ( PIN p ) ( PIN q ) ;
- b ( PIN r ) ( PIN s ) ;
- c ( PIN t ) ( PIN u ) ;
- d ( PIN v ) ( PIN w ) ;
END NETS
";

/// Two tracks each for a, b and c, and the lowest one for d.
const CHAIN_GUIDE: &[u8] = b"\
a ( 0 0 2000 400 M1 0 0 2000 400 M2 )
b ( 0 200 2000 600 M1 0 200 2000 600 M2 )
c ( 0 400 2000 800 M1 0 400 2000 800 M2 )
d ( 0 0 2000 200 M1 )
";

const THREE_PINS: &[u8] = b"\
PINS 5 ;
- p + LAYER M2 ( -50 -50 ) ( 50 50 ) + PLACED ( 300 100 ) N ;
- q + LAYER M2 ( -50 -50 ) ( 50 50 ) + PLACED ( 900 100 ) N ;
- t + LAYER M2 ( -50 -50 ) ( 50 50 ) + PLACED ( 700 500 ) N ;
- r + LAYER M1 ( -50 -50 ) ( 50 50 ) + PLACED ( 100 100 ) N ;
- s + LAYER M1 ( -50 -50 ) ( 50 50 ) + PLACED ( 1300 100 ) N ;
END PINS
NETS 2 ;
- a ( PIN p ) ( PIN q ) ( PIN t ) ;
- b ( PIN r ) ( PIN s ) ;
END NETS
";

const THREE_PINS_GUIDE: &[u8] = b"\
a ( 0 0 2000 400 M1 0 0 2000 600 M2 )
b ( 0 0 2000 200 M1 )
";

const TWO_NETS: &[u8] = b"\
PINS 6 ;
- p + LAYER M2 ( -50 -50 ) ( 50 50 ) + PLACED ( 300 100 ) N ;
- q + LAYER M2 ( -50 -50 ) ( 50 50 ) + PLACED ( 700 100 ) N ;
- t + LAYER M2 ( -50 -50 ) ( 50 50 ) + PLACED ( 1100 100 ) N ;
- u + LAYER M2 ( -50 -50 ) ( 50 50 ) + PLACED ( 1300 100 ) N ;
- r + LAYER M1 ( -50 -50 ) ( 50 50 ) + PLACED ( 100 100 ) N ;
- s + LAYER M1 ( -50 -50 ) ( 50 50 ) + PLACED ( 1500 100 ) N ;
END PINS
NETS 3 ;
- a ( PIN p ) ( PIN q ) ;
- c ( PIN t ) ( PIN u ) ;
- b ( PIN r ) ( PIN s ) ;
END NETS
";

const TWO_NETS_GUIDE: &[u8] = b"\
a ( 0 0 2000 400 M1 0 0 2000 400 M2 )
c ( 0 0 2000 400 M1 0 0 2000 400 M2 )
b ( 0 0 2000 200 M1 )
";

const MARKED: &[u8] = b"\
PINS 5 ;
- p + LAYER M2 ( -50 -50 ) ( 50 50 ) + PLACED ( 300 100 ) N ;
- q + LAYER M2 ( -50 -50 ) ( 50 50 ) + PLACED ( 900 100 ) N ;
- t + LAYER M2 ( -50 -50 ) ( 50 50 ) + PLACED ( 1100 100 ) N ;
- r + LAYER M1 ( -50 -50 ) ( 50 50 ) + PLACED ( 100 100 ) N ;
- s + LAYER M1 ( -50 -50 ) ( 50 50 ) + PLACED ( 1500 100 ) N ;
END PINS
NETS 2 ;
- a ( PIN p ) ( PIN q ) ( PIN t ) ;
- b ( PIN r ) ( PIN s ) ;
END NETS
";

const MARKED_GUIDE: &[u8] = b"\
a ( 0 0 950 400 M1 0 0 950 400 M2 )
b ( 0 0 2000 200 M1 )
";

const RIPPED_ONCE: &[u8] = b"\
journal 1
wire a
from pin 0 M2 300 100
via V12
run 900 100
via V12
to pin 1 M2 900 100
end
rip b
from pin 0 M1 100 100
run 1100 100
to pin 1 M1 1100 100
ripped a
from pin 0 M1 100 100
run 1100 100
to pin 1 M1 1100 100
end
wire a
from pin 0 M2 300 100
run 300 300
via V12
run 900 300
via V12
run 900 100
to pin 1 M2 900 100
end
";

const NOT_RIPPED: &[u8] = b"\
journal 1
wire a
from pin 0 M2 300 100
via V12
run 900 100
via V12
to pin 1 M2 900 100
end
stuck b
";

const LIMIT_REACHED: &[u8] = b"\
journal 1
wire a
from pin 0 M2 300 100
via V12
run 900 100
via V12
to pin 1 M2 900 100
end
rip b
from pin 0 M1 100 100
run 1100 100
to pin 1 M1 1100 100
ripped a
from pin 0 M1 100 100
run 1100 100
to pin 1 M1 1100 100
end
wire a
from pin 0 M2 300 100
run 300 300
via V12
run 900 300
via V12
run 900 100
to pin 1 M2 900 100
end
stuck c
";

const CHAINED: &[u8] = b"\
journal 1
wire c
from pin 0 M2 700 500
via V12
run 900 500
via V12
to pin 1 M2 900 500
end
wire b
from pin 0 M2 500 300
via V12
run 1100 300
via V12
to pin 1 M2 1100 300
end
wire a
from pin 0 M2 300 100
via V12
run 1300 100
via V12
to pin 1 M2 1300 100
end
rip d
from pin 0 M1 100 100
run 1500 100
to pin 1 M1 1500 100
ripped a
from pin 0 M1 100 100
run 1500 100
to pin 1 M1 1500 100
end
rip a
from pin 0 M2 300 100
run 300 300
via V12
run 1300 300
via V12
run 1300 100
to pin 1 M2 1300 100
ripped b
from pin 0 M2 300 100
run 300 300
via V12
run 1300 300
via V12
run 1300 100
to pin 1 M2 1300 100
end
rip b
from pin 0 M2 500 300
run 500 500
via V12
run 1100 500
via V12
run 1100 300
to pin 1 M2 1100 300
ripped c
from pin 0 M2 500 300
run 500 500
via V12
run 1100 500
via V12
run 1100 300
to pin 1 M2 1100 300
end
wire c
from pin 0 M2 700 500
run 700 700
via V12
run 900 700
via V12
run 900 500
to pin 1 M2 900 500
end
";

const EMPTIED: &[u8] = b"\
journal 1
wire a
from pin 0 M2 300 100
via V12
run 900 100
via V12
to pin 1 M2 900 100
end
wire a
from wire M1 700 100
via V12
run 700 500
to pin 2 M2 700 500
end
rip b
from pin 0 M1 100 100
run 1300 100
to pin 1 M1 1300 100
ripped a
from pin 0 M1 100 100
run 1300 100
to pin 1 M1 1300 100
end
wire a
from pin 0 M2 300 100
run 300 300
via V12
run 700 300
via V12
run 700 500
to pin 2 M2 700 500
end
wire a
from wire M1 700 300
run 900 300
via V12
run 900 100
to pin 1 M2 900 100
end
";

const TWO_RIPPED: &[u8] = b"\
journal 1
wire c
from pin 0 M2 1100 100
via V12
run 1300 100
via V12
to pin 1 M2 1300 100
end
wire a
from pin 0 M2 300 100
via V12
run 700 100
via V12
to pin 1 M2 700 100
end
rip b
from pin 0 M1 100 100
run 1500 100
to pin 1 M1 1500 100
ripped a c
from pin 0 M1 100 100
run 1500 100
to pin 1 M1 1500 100
end
wire c
from pin 0 M2 1100 100
run 1100 300
via V12
run 1300 300
via V12
run 1300 100
to pin 1 M2 1300 100
end
wire a
from pin 0 M2 300 100
run 300 300
via V12
run 700 300
via V12
run 700 100
to pin 1 M2 700 100
end
";

const MARKED_AGAIN: &[u8] = b"\
journal 1
wire a
from pin 0 M2 300 100
via V12
run 900 100
via V12
to pin 1 M2 900 100
end
stuck a
rip b
from pin 0 M1 100 100
run 1500 100
to pin 1 M1 1500 100
ripped a
from pin 0 M1 100 100
run 1500 100
to pin 1 M1 1500 100
end
wire a
from pin 0 M2 300 100
run 300 300
via V12
run 900 300
via V12
run 900 100
to pin 1 M2 900 100
end
stuck a
";

/// The first pin of b has no vertex; its stubs come nearer than the spacing to the track of a.
const STUBBED: &[u8] = b"\
PINS 4 ;
- p + LAYER M1 ( -50 -50 ) ( 50 50 ) + PLACED ( 100 300 ) N ;
- q + LAYER M1 ( -50 -50 ) ( 50 50 ) + PLACED ( 1100 300 ) N ;
- r + LAYER M1 ( 0 0 ) ( 10 10 ) + PLACED ( 550 140 ) N ;
- s + LAYER M1 ( -50 -50 ) ( 50 50 ) + PLACED ( 1900 100 ) N ;
END PINS
NETS 2 ;
- a ( PIN p ) ( PIN q ) ;
- b ( PIN r ) ( PIN s ) ;
END NETS
";

const STUBBED_GUIDE: &[u8] = b"\
a ( 0 200 2000 600 M1 0 0 2000 2000 M2 )
b ( 0 0 2000 200 M1 )
";

/// The net d with four pins, a between its second and its third one, and b below them all.
const TWICE: &[u8] = b"\
PINS 8 ;
- p + LAYER M2 ( -50 -50 ) ( 50 50 ) + PLACED ( 300 100 ) N ;
- q + LAYER M2 ( -50 -50 ) ( 50 50 ) + PLACED ( 500 100 ) N ;
- r + LAYER M2 ( -50 -50 ) ( 50 50 ) + PLACED ( 1300 100 ) N ;
- s + LAYER M2 ( -50 -50 ) ( 50 50 ) + PLACED ( 1500 100 ) N ;
- t + LAYER M2 ( -50 -50 ) ( 50 50 ) + PLACED ( 700 100 ) N ;
- u + LAYER M2 ( -50 -50 ) ( 50 50 ) + PLACED ( 900 100 ) N ;
- v + LAYER M1 ( -50 -50 ) ( 50 50 ) + PLACED ( 100 100 ) N ;
- w + LAYER M1 ( -50 -50 ) ( 50 50 ) + PLACED ( 1900 100 ) N ;
END PINS
NETS 3 ;
- d ( PIN p ) ( PIN q ) ( PIN r ) ( PIN s ) ;
- a ( PIN t ) ( PIN u ) ;
- b ( PIN v ) ( PIN w ) ;
END NETS
";

/// The lowest track is open to d at both ends alone.
const TWICE_GUIDE: &[u8] = b"\
d ( 0 0 600 200 M1 1200 0 2000 200 M1 0 200 1400 400 M1 1200 600 2000 800 M1 0 0 2000 2000 M2 )
a ( 600 0 1000 200 M1 600 400 1000 600 M1 0 0 2000 2000 M2 )
b ( 0 0 2000 200 M1 )
";

const CROSSED_CASES: [Case; 6] = [
    // The shorter net a is first, at 2600 along the lower track. The other one, b, has this track alone:
    // its soft walk costs 8 times 1000 and crosses a, which then goes by the upper track at 3000.
    Case {
        words: GUIDED,
        head: TWO_TRACKS,
        def: CROSSED,
        guide: CROSSED_GUIDE,
        status: 0,
        says: b"nets 2\njoined 2\nstuck 0\nunguided 0\nprewired 0\nsingle 0\nrips 1\nwire 2000\nvias 2\nskipped 0\n",
        journal: Some(RIPPED_ONCE),
    },
    // One rip is enough.
    Case {
        words: ONE,
        head: TWO_TRACKS,
        def: CROSSED,
        guide: CROSSED_GUIDE,
        status: 0,
        says: b"nets 2\njoined 2\nstuck 0\nunguided 0\nprewired 0\nsingle 0\nrips 1\nwire 2000\nvias 2\nskipped 0\n",
        journal: Some(RIPPED_ONCE),
    },
    // The most that may be chosen.
    Case {
        words: MOST,
        head: TWO_TRACKS,
        def: CROSSED,
        guide: CROSSED_GUIDE,
        status: 0,
        says: b"nets 2\njoined 2\nstuck 0\nunguided 0\nprewired 0\nsingle 0\nrips 1\nwire 2000\nvias 2\nskipped 0\n",
        journal: Some(RIPPED_ONCE),
    },
    // Without rips b has no path.
    Case {
        words: NONE,
        head: TWO_TRACKS,
        def: CROSSED,
        guide: CROSSED_GUIDE,
        status: 1,
        says: b"nets 2\njoined 1\nstuck 1\nunguided 0\nprewired 0\nsingle 0\nrips 0\nwire 600\nvias 2\nskipped 0\nno-path b\n",
        journal: Some(NOT_RIPPED),
    },
    // A blockage on M2 between the two columns that a uses changes nothing.
    Case {
        words: GUIDED,
        head: TWO_TRACKS,
        def: BLOCKED,
        guide: CROSSED_GUIDE,
        status: 0,
        says: b"nets 2\njoined 2\nstuck 0\nunguided 0\nprewired 0\nsingle 0\nrips 1\nwire 2000\nvias 2\nskipped 0\n",
        journal: Some(RIPPED_ONCE),
    },
    // Nor does it without rips.
    Case {
        words: NONE,
        head: TWO_TRACKS,
        def: BLOCKED,
        guide: CROSSED_GUIDE,
        status: 1,
        says: b"nets 2\njoined 1\nstuck 1\nunguided 0\nprewired 0\nsingle 0\nrips 0\nwire 600\nvias 2\nskipped 0\nno-path b\n",
        journal: Some(NOT_RIPPED),
    },
];

const TURNED_CASES: [Case; 4] = [
    // A third net, c, has the upper track alone, where a was ripped as often as it may.
    Case {
        words: ONE,
        head: HEAD,
        def: LIMITED,
        guide: LIMITED_GUIDE,
        status: 1,
        says: b"nets 3\njoined 2\nstuck 1\nunguided 0\nprewired 0\nsingle 0\nrips 1\nwire 2000\nvias 2\nskipped 0\nno-path c\n",
        journal: Some(LIMIT_REACHED),
    },
    // With three rips: b rips a, c rips a, a rips b, b rips a, a rips b, which then finds a ripped three
    // times on its one track. 600 and 1200 stay.
    Case {
        words: GUIDED,
        head: HEAD,
        def: LIMITED,
        guide: LIMITED_GUIDE,
        status: 1,
        says: b"nets 3\njoined 2\nstuck 1\nunguided 0\nprewired 0\nsingle 0\nrips 5\nwire 1800\nvias 2\nskipped 0\nno-path b\n",
        journal: None,
    },
    // Each of three nets can move up by one track, and rips the next one for it: 1400, and a, b and c
    // at 400 more than at first.
    Case {
        words: GUIDED,
        head: HEAD,
        def: CHAIN,
        guide: CHAIN_GUIDE,
        status: 0,
        says: b"nets 4\njoined 4\nstuck 0\nunguided 0\nprewired 0\nsingle 0\nrips 3\nwire 4400\nvias 6\nskipped 0\n",
        journal: Some(CHAINED),
    },
    // The same without rips.
    Case {
        words: NONE,
        head: HEAD,
        def: CHAIN,
        guide: CHAIN_GUIDE,
        status: 1,
        says: b"nets 4\njoined 3\nstuck 1\nunguided 0\nprewired 0\nsingle 0\nrips 0\nwire 1800\nvias 6\nskipped 0\nno-path d\n",
        journal: None,
    },
];

const EMPTIED_CASES: [Case; 5] = [
    // A net of three pins loses both wires, and begins again from its first pin, the third one now nearer
    // than the second.
    Case {
        words: GUIDED,
        head: HEAD,
        def: THREE_PINS,
        guide: THREE_PINS_GUIDE,
        status: 0,
        says: b"nets 2\njoined 2\nstuck 0\nunguided 0\nprewired 0\nsingle 0\nrips 1\nwire 2400\nvias 3\nskipped 0\n",
        journal: Some(EMPTIED),
    },
    // Four edges of b's soft walk cross a, and three cross c: each is ripped once, named by number, and
    // taken next by its place in the order.
    Case {
        words: GUIDED,
        head: HEAD,
        def: TWO_NETS,
        guide: TWO_NETS_GUIDE,
        status: 0,
        says: b"nets 3\njoined 3\nstuck 0\nunguided 0\nprewired 0\nsingle 0\nrips 2\nwire 2800\nvias 4\nskipped 0\n",
        journal: Some(TWO_RIPPED),
    },
    // The third pin of a lies outside its guide. Its mark goes with its wire, and stands again at the end.
    Case {
        words: GUIDED,
        head: HEAD,
        def: MARKED,
        guide: MARKED_GUIDE,
        status: 1,
        says: b"nets 2\njoined 1\nstuck 1\nunguided 0\nprewired 0\nsingle 0\nrips 1\nwire 2400\nvias 2\nskipped 0\nno-path a\n",
        journal: Some(MARKED_AGAIN),
    },
    // The crossing lies in the stub of b: 90 and 1400 for b, 1400 for a, which goes round the stub.
    Case {
        words: GUIDED,
        head: HEAD,
        def: STUBBED,
        guide: STUBBED_GUIDE,
        status: 0,
        says: b"nets 2\njoined 2\nstuck 0\nunguided 0\nprewired 0\nsingle 0\nrips 1\nwire 2890\nvias 4\nskipped 0\n",
        journal: None,
    },
    // The soft walk of b crosses d at both ends and a between: two nets are ripped. Then b has 1800, a
    // 1000, and d 600, 1000 and 1200.
    Case {
        words: GUIDED,
        head: HEAD,
        def: TWICE,
        guide: TWICE_GUIDE,
        status: 0,
        says: b"nets 3\njoined 3\nstuck 0\nunguided 0\nprewired 0\nsingle 0\nrips 2\nwire 5600\nvias 7\nskipped 0\n",
        journal: None,
    },
];

/// Whether each design ends as it says.
fn hold(rt: &impl Abort, alloc: Global, cases: &[Case]) -> Result<(), Fail> {
    for case in cases {
        let files = guided_files(alloc, case.head, case.def, case.guide)?;
        let ran = run_words(alloc, case.words, files, &[], &[])?;
        assert_eq!(rt; ran.done.status, case.status);
        assert_eq!(rt; ran.out.text(), case.says);
        if let Some(journal) = case.journal {
            assert_eq!(rt; ran.files.file("j"), Some(journal));
        }
    }
    Ok(())
}

#[test]
fn rips_a_net_in_the_way(rt: HostRuntime) -> Result<(), Fail> {
    hold(&rt, rt.alloc(), &CROSSED_CASES)
}

#[test]
fn rips_turn_by_turn(rt: HostRuntime) -> Result<(), Fail> {
    hold(&rt, rt.alloc(), &TURNED_CASES)
}

#[test]
fn rips_all_wires_of_a_net(rt: HostRuntime) -> Result<(), Fail> {
    hold(&rt, rt.alloc(), &EMPTIED_CASES)
}
