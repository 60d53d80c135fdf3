//! Texts that are read, and damaged ones.
use crate::{Def, DefError, DefNet, read_def, read_def_tokens, read_units};
use rt_base::{Name, Orient, Point, Rect, Seq, Token, tokens};
use std::alloc::Global;
use std::test::Fail;

const DESIGN: &str = "VERSION 5.8 ;
DESIGN top ;
UNITS DISTANCE MICRONS 1000 ;
DIEAREA ( 0 0 ) ( 2000 2000 ) ;
TRACKS Y 100 DO 10 STEP 200 LAYER M1 ;
TRACKS X 100 DO 10 STEP 200 LAYER M2 ;
PINS 2 ;
- p + NET a + LAYER M1 ( -50 -50 ) ( 50 50 ) + PLACED ( 100 100 ) N ;
- q + NET a + LAYER M2 ( -50 -50 ) ( 50 50 ) + PLACED ( 900 500 ) N ;
END PINS
NETS 1 ;
- a ( PIN p ) ( PIN q ) ;
END NETS
END DESIGN
";

fn read(alloc: Global, text: &[u8]) -> Result<Def, DefError> {
    if text.len() > 100_000 {
        return Err(DefError::Memory);
    }
    read_def(alloc, text)
}

/// The tokens of a text, and what it says.
fn said(alloc: Global, text: &[u8]) -> Result<(Seq<Token>, Def), DefError> {
    if text.len() > 100_000 {
        return Err(DefError::Memory);
    }
    match tokens(alloc, text) {
        Ok(tokens) => {
            let def = read_def_tokens(alloc, text, tokens.as_slice())?;
            Ok((Seq::from_vec(tokens), def))
        }
        Err(_) => Err(DefError::Memory),
    }
}

/// A text is refused, and this is said of it.
fn answers(alloc: Global, text: &[u8], want: &str) -> Result<bool, Fail> {
    match read(alloc, text) {
        Ok(_) => Ok(false),
        Err(error) => {
            let said = format!(in alloc; "{error}")?;
            Ok(said.as_str() == want)
        }
    }
}

/// The first of these texts of which something else is said.
fn unlike<'a>(alloc: Global, cases: &[(&'a str, &str)]) -> Result<Option<&'a str>, Fail> {
    for (text, want) in cases {
        if !answers(alloc, text.as_bytes(), want)? {
            return Ok(Some(*text));
        }
    }
    Ok(None)
}

/// The design with another text in place of this line, or behind its last one.
fn design_with(alloc: Global, line: u32, text: &str) -> Result<Vec<u8>, Fail> {
    let mut changed = Vec::new(alloc);
    let mut at: u32 = 1;
    for byte in DESIGN.bytes() {
        if at != line || byte == b'\n' {
            changed.push(byte)?;
        }
        if byte == b'\n' {
            at = at.saturating_add(1);
            if at == line {
                changed.extend_from_slice(text.as_bytes())?;
            }
        }
    }
    Ok(changed)
}

/// The words of a range of tokens are these.
fn is_range(bytes: &[u8], tokens: &[Token], range: (u32, u32), want: &str) -> bool {
    let (Some(first), Some(last)) = (
        tokens.get(range.0 as usize),
        tokens.get((range.1 as usize).saturating_sub(1)),
    ) else {
        return false;
    };
    bytes.get(first.first as usize..last.past as usize) == Some(want.as_bytes())
}

/// The wiring of a net stands in these ranges.
fn has_wiring(bytes: &[u8], tokens: &[Token], net: &DefNet, want: &[&str]) -> bool {
    if net.wiring.len() != want.len() {
        return false;
    }
    for (range, words) in net.wiring.as_slice().iter().zip(want) {
        if !is_range(bytes, tokens, *range, words) {
            return false;
        }
    }
    true
}

fn same(name: &Name, text: &str) -> bool {
    name.bytes() == text.as_bytes()
}

fn is_metal(rects: &Seq<(Name, Rect)>, layer: &str, low: Point, high: Point) -> bool {
    match rects.as_slice() {
        [(name, rect)] => same(name, layer) && *rect == Rect::hull(low, high),
        _ => false,
    }
}

/// A net has these connections.
fn has_pins(net: &DefNet, want: &[(&str, &str)]) -> bool {
    net.pins.len() == want.len()
        && net.pins.as_slice().iter().zip(want).all(|((component, pin), (of, named))| same(
            component, of,
        ) && same(pin, named))
}

#[test]
fn a_design_is_read(rt: HostRuntime) -> Result<(), Fail> {
    let def = read(rt.alloc(), DESIGN.as_bytes())?;
    assert_eq!(rt; def.units, 1000);
    assert_eq!(rt;
        def.die,
        Rect::hull(Point { x: 2000, y: 2000 }, Point { x: 0, y: 0 })
    );
    assert_eq!(rt; def.skipped, 0);
    match def.tracks.as_slice() {
        [row, other] => {
            assert!(rt; !row.x && row.first == 100 && row.count == 10 && row.step == 200);
            assert!(rt; other.x && other.first == 100 && other.count == 10 && other.step == 200);
        }
        _ => assert!(rt; false),
    }
    match def.pins.as_slice() {
        [p, q] => {
            assert!(rt;
                same(&p.name, "p")
                    && is_metal(
                        &p.rects,
                        "M1",
                        Point { x: 50, y: 50 },
                        Point { x: 150, y: 150 }
                    )
            );
            assert!(rt;
                same(&q.name, "q")
                    && is_metal(
                        &q.rects,
                        "M2",
                        Point { x: 850, y: 450 },
                        Point { x: 950, y: 550 }
                    )
            );
        }
        _ => assert!(rt; false),
    }
    match def.nets.as_slice() {
        [net] => assert!(rt;
            same(&net.name, "a") && net.pins.len() == 2 && net.wiring.is_empty() && net.close == 358
        ),
        _ => assert!(rt; false),
    }
    Ok(())
}

#[test]
fn units_are_read_alone(rt: HostRuntime) -> Result<(), Fail> {
    assert_eq!(rt;
        read_units(
            rt.alloc(),
            b"VERSION 5.8 ; UNITS DISTANCE MICRONS 2000 ; FOO"
        )?,
        2000
    );
    Ok(())
}

#[test]
fn what_is_unused_is_skipped(rt: HostRuntime) -> Result<(), Fail> {
    let def = read(
        rt.alloc(),
        b"UNITS DISTANCE MICRONS 1 ; BEGINEXT ; END DESIGN ENDEXT
DIEAREA ( 3 4 ) ( 1 9 ) ; REGIONS 1 ; - END r ; END REGIONS REGIONS END REGIONS
TRACKS X -7 DO 1 STEP 1 ; TRACKS Y 7 DO 1 STEP 1 LAYER A B A ;
BLOCKAGES 3 ; - LAYER A + SPACING 4 + RECT ( 1 1 ) ( 0 0 ) RECT ( 5 5 ) ( 6 6 ) ; - PLACEMENT RECT ;
- LAYER B + PUSHDOWN x + SLOTS RECT ( 0 0 ) ( 1 1 ) ; END BLOCKAGES
PINS 1 ; - p + PORT + LAYER A SPACING 5 ( 1 2 ) ( 4 3 ) + PLACED ( 7 7 ) N + PLACED ( 10 20 ) W
+ PORT + LAYER B ( 0 0 ) ( 1 1 ) + + DIRECTION INPUT ; END PINS
NETS 1 ; - n ( PIN p + SYNTHESIZED ) + NONDEFAULTRULE r + USE SIGNAL ; END NETS END DESIGN",
    )?;
    assert_eq!(rt;
        def.die,
        Rect::hull(Point { x: 1, y: 4 }, Point { x: 3, y: 9 })
    );
    assert_eq!(rt; def.skipped, 2);
    match def.blockages.as_slice() {
        [first, second] => {
            assert!(rt;
                same(&first.0, "A")
                    && first.1 == Rect::hull(Point { x: 0, y: 0 }, Point { x: 1, y: 1 })
            );
            assert!(rt;
                same(&second.0, "A")
                    && second.1 == Rect::hull(Point { x: 5, y: 5 }, Point { x: 6, y: 6 })
            );
        }
        _ => assert!(rt; false),
    }
    match def.pins.as_slice() {
        [p] => assert!(rt; is_metal(&p.rects, "A", Point { x: 7, y: 21 }, Point { x: 8, y: 24 })),
        _ => assert!(rt; false),
    }
    match def.tracks.as_slice() {
        [row, other] => {
            assert!(rt; row.x && row.first == -7 && row.layers.is_none());
            assert!(rt; matches!(&other.layers, Some(layers) if layers.len() == 3));
        }
        _ => assert!(rt; false),
    }
    Ok(())
}

#[test]
fn pins_are_turned(rt: HostRuntime) -> Result<(), Fail> {
    let def = read(
        rt.alloc(),
        b"UNITS DISTANCE MICRONS 1 ; DIEAREA ( 0 0 ) ( 1 1 ) ; PINS 8 ;
- a + LAYER M ( 1 2 ) ( 4 8 ) + PLACED ( 100 200 ) N ;
- b + LAYER M ( 1 2 ) ( 4 8 ) + FIXED ( 100 200 ) W ;
- c + LAYER M ( 1 2 ) ( 4 8 ) + COVER ( 100 200 ) S ;
- d + LAYER M ( 1 2 ) ( 4 8 ) + PLACED ( 100 200 ) E ;
- e + LAYER M ( 1 2 ) ( 4 8 ) + PLACED ( 100 200 ) FN ;
- f + LAYER M ( 1 2 ) ( 4 8 ) + PLACED ( 100 200 ) FS ;
- g + LAYER M ( 1 2 ) ( 4 8 ) + PLACED ( 100 200 ) FW ;
- h + LAYER M ( 1 2 ) ( 4 8 ) + PLACED ( 100 200 ) FE ;
END PINS END DESIGN",
    )?;
    for (pin, (xl, yl, xh, yh)) in def.pins.as_slice().iter().zip([
        (101, 202, 104, 208),
        (92, 201, 98, 204),
        (96, 192, 99, 198),
        (102, 196, 108, 199),
        (96, 202, 99, 208),
        (101, 192, 104, 198),
        (102, 201, 108, 204),
        (92, 196, 98, 199),
    ]) {
        assert!(rt;
            is_metal(
                &pin.rects,
                "M",
                Point { x: xl, y: yl },
                Point { x: xh, y: yh }
            )
        );
    }
    assert_eq!(rt; def.pins.len(), 8);
    Ok(())
}

#[test]
fn components_are_read(rt: HostRuntime) -> Result<(), Fail> {
    let alloc = rt.alloc();
    let text = b"UNITS DISTANCE MICRONS 1 ; DIEAREA ( 0 0 ) ( 1 1 ) ; COMPONENTS 4 ;
- u1 INV + SOURCE NETLIST + PLACED ( 10 -20 ) N ; - u2 BUF ;
- u3 INV + FIXED ( 1 2 ) FW + COVER ( 3 4 ) FE + WEIGHT 2 ; - u4 INV + UNPLACED + ;
END COMPONENTS NETS 1 ; - n ( u1 A ) ( PIN p ) ; END NETS END DESIGN";
    let def = read(alloc, text)?;
    for (component, (name, of, placed)) in def.components.as_slice().iter().zip([
        ("u1", "INV", Some((Point { x: 10, y: -20 }, Orient::N))),
        ("u2", "BUF", None),
        ("u3", "INV", Some((Point { x: 3, y: 4 }, Orient::FE))),
        ("u4", "INV", None),
    ]) {
        assert!(rt; same(&component.name, name) && same(&component.of, of));
        assert!(rt; component.placed == placed);
    }
    assert_eq!(rt; def.components.len(), 4);
    match def.nets.as_slice() {
        [net] => assert!(rt; has_pins(net, &[("u1", "A"), ("PIN", "p")])),
        _ => assert!(rt; false),
    }
    Ok(())
}

#[test]
fn nets_of_many_connections_and_wiring_are_read(rt: HostRuntime) -> Result<(), Fail> {
    let def = read(
        rt.alloc(),
        b"UNITS DISTANCE MICRONS 1 ; DIEAREA ( 0 0 ) ( 1 1 ) ;
VIAS 1 ; - V + RECT M ( 0 0 ) ( 1 1 ) ; END VIAS
SPECIALNETS 1 ; - g ( * VDD ) + ROUTED M 2 ( 0 0 ) ( 5 * ) ; END SPECIALNETS
NETS 3 ; - a ( u1 A ) ( u2 B + SYNTHESIZED ) ( PIN p ) + ROUTED M ( 0 0 ) V ;
- b ( u3 A ) ( u3 A ) ( u4 A ) ( u5 A ) ( PIN q ) ; - c ; END NETS END DESIGN",
    )?;
    match def.vias.as_slice() {
        [v] => assert!(rt; same(&v.name, "V") && v.tokens == (20, 31)),
        _ => assert!(rt; false),
    }
    match def.special.as_slice() {
        [g] => assert!(rt; g.pins.is_empty() && g.wiring.as_slice() == [(45, 55)].as_slice()),
        _ => assert!(rt; false),
    }
    match def.nets.as_slice() {
        [a, b, c] => {
            assert!(rt; has_pins(a, &[("u1", "A"), ("u2", "B"), ("PIN", "p")]));
            assert!(rt; a.wiring.as_slice() == [(79, 85)].as_slice());
            assert!(rt;
                has_pins(
                    b,
                    &[
                        ("u3", "A"),
                        ("u3", "A"),
                        ("u4", "A"),
                        ("u5", "A"),
                        ("PIN", "q")
                    ]
                )
            );
            assert!(rt; b.wiring.is_empty() && has_pins(c, &[]));
        }
        _ => assert!(rt; false),
    }
    Ok(())
}

#[test]
fn vias_are_ranges(rt: HostRuntime) -> Result<(), Fail> {
    let alloc = rt.alloc();
    let text = b"VIAS 3 ; - V + RECT M ( 0 0 )
( 1 1 ) ; - W ; - X + VIARULE r ; END VIAS
UNITS DISTANCE MICRONS 1 ; DIEAREA ( 0 0 ) ( 1 1 ) ; END DESIGN";
    let def = read(alloc, text)?;
    match def.vias.as_slice() {
        [v, w, x] => {
            assert!(rt; same(&v.name, "V") && same(&w.name, "W") && same(&x.name, "X"));
            assert_eq!(rt; v.tokens, (5, 16));
            assert_eq!(rt; w.tokens, (19, 19));
            assert_eq!(rt; x.tokens, (22, 25));
        }
        _ => assert!(rt; false),
    }
    Ok(())
}

#[test]
fn wiring_is_ranges(rt: HostRuntime) -> Result<(), Fail> {
    let alloc = rt.alloc();
    let text = b"UNITS DISTANCE MICRONS 1 ; DIEAREA ( 0 0 ) ( 1 1 ) ; NETS 4 ;
- a + ROUTED M1 ( 0 0 ) ( 5 * ) NEW M2 ( 5 0 ) V + USE SIGNAL + FIXED M1 ( 1 1 ) V ;
- b ( PIN p ) + NOSHIELD + COVER M ;
- c + SHAPE A + VIA V ;
- d + ROUTED M ( 0 0 ) + SHAPE A ; END NETS END DESIGN";
    let (tokens, def) = said(alloc, text)?;
    match def.nets.as_slice() {
        [a, b, c, d] => {
            let cut = tokens.as_slice();
            assert!(rt;
                has_wiring(
                    text,
                    cut,
                    a,
                    &["M1 ( 0 0 ) ( 5 * ) NEW M2 ( 5 0 ) V", "M1 ( 1 1 ) V"]
                )
            );
            assert!(rt; has_wiring(text, cut, b, &["+ NOSHIELD", "M"]));
            assert!(rt; has_wiring(text, cut, c, &[]));
            assert!(rt; has_wiring(text, cut, d, &["M ( 0 0 )"]));
        }
        _ => assert!(rt; false),
    }
    Ok(())
}

#[test]
fn special_wiring_is_ranges(rt: HostRuntime) -> Result<(), Fail> {
    let alloc = rt.alloc();
    let text = b"UNITS DISTANCE MICRONS 1 ; DIEAREA ( 0 0 ) ( 1 1 ) ; SPECIALNETS 16 ;
- a ( * VDD + SYNTHESIZED ) + ROUTED M 100 ( 0 0 ) ( 9 * ) NEW M 0 ( 1 1 ) V + USE POWER ;
- b ( u1 * ) + ROUTED M 100 + SHAPE STRIPE ( 0 0 ) ( 9 * ) ;
- c + ROUTED M 1 ( 0 0 ) + SHAPE A + RECT M ( 0 0 ) ( 1 1 ) ;
- d + ROUTED + RECT M ( 0 0 ) ( 1 1 ) ;
- e + FIXED + SHAPE A + VIA V ( 0 0 ) ;
- f + SHAPE A + VIA V ( 0 0 ) + COVER ;
- g + SHAPE ( + RECT M ;
- h + SHAPE A B + RECT M ;
- i + SHAPE A + SHAPE B + RECT M ;
- j + ROUTED + SHAPE A + SHAPE B + RECT M ;
- k + ROUTED + SHAPE A ;
- l + ROUTED + SHAPE A ( 0 0 ) ;
- m + ROUTED + MASK 1 + RECT M ;
- n + RECT M + SHAPE A + USE x ;
- o + RECT M + SHAPE A + VIA V ;
- p + STYLE 1 + SHAPE A + USE ; END SPECIALNETS END DESIGN";
    let (tokens, def) = said(alloc, text)?;
    let wanted: [&[&str]; 16] = [
        &["M 100 ( 0 0 ) ( 9 * ) NEW M 0 ( 1 1 ) V"],
        &["M 100 + SHAPE STRIPE ( 0 0 ) ( 9 * )"],
        &["M 1 ( 0 0 )", "+ SHAPE A + RECT M ( 0 0 ) ( 1 1 )"],
        &["+ ROUTED + RECT M ( 0 0 ) ( 1 1 )"],
        &["+ FIXED + SHAPE A + VIA V ( 0 0 )"],
        &["+ SHAPE A + VIA V ( 0 0 )", "+ COVER"],
        &["+ RECT M"],
        &["+ RECT M"],
        &["+ SHAPE B + RECT M"],
        &["+ SHAPE A", "+ SHAPE B + RECT M"],
        &["+ SHAPE A"],
        &["+ SHAPE A ( 0 0 )"],
        &["+ ROUTED", "+ RECT M"],
        &["+ RECT M + SHAPE A"],
        &["+ RECT M", "+ SHAPE A + VIA V"],
        &[],
    ];
    for (net, want) in def.special.as_slice().iter().zip(wanted) {
        assert!(rt; net.pins.is_empty() && has_wiring(text, tokens.as_slice(), net, want));
    }
    assert_eq!(rt; def.special.len(), 16);
    Ok(())
}

#[test]
fn polygons_are_cut(rt: HostRuntime) -> Result<(), Fail> {
    let def = read(
        rt.alloc(),
        b"UNITS DISTANCE MICRONS 1 ; DIEAREA ( 0 0 ) ( 1 1 ) ; BLOCKAGES 2 ;
- LAYER M + PUSHDOWN POLYGON ( 0 0 ) ( 4 0 ) ( 4 2 ) ( 2 2 ) ( 2 4 ) ( 0 4 ) RECT ( 9 9 ) ( 8 8 ) ;
- LAYER N + FILLS POLYGON ( 0 0 ) ( 4 0 ) ( 4 2 ) ( 0 2 ) ; END BLOCKAGES END DESIGN",
    )?;
    for (blockage, (xl, yl, xh, yh)) in def
        .blockages
        .as_slice()
        .iter()
        .zip([(0, 0, 4, 2), (0, 2, 2, 4), (8, 8, 9, 9)])
    {
        assert!(rt; same(&blockage.0, "M"));
        assert!(rt; blockage.1 == Rect::hull(Point { x: xl, y: yl }, Point { x: xh, y: yh }));
    }
    assert_eq!(rt; def.blockages.len(), 3);
    Ok(())
}

#[test]
fn a_text_cut_short_is_unended(rt: HostRuntime) -> Result<(), Fail> {
    let alloc = rt.alloc();
    let bytes = DESIGN.as_bytes();
    let Ok(tokens) = tokens(alloc, bytes) else {
        assert!(rt; false);
        return Ok(());
    };
    for token in tokens.as_slice() {
        let Some(cut) = bytes.get(..token.past as usize) else {
            assert!(rt; false);
            return Ok(());
        };
        match read_def(alloc, cut) {
            Ok(_) => assert!(rt; token.past == 379),
            Err(error) => assert!(rt;
                matches!(error, DefError::Unended { line } if line == token.line)
            ),
        }
    }
    Ok(())
}

/// Damaged statements, and what is said of them.
const STATEMENTS: [(&str, &str); 33] = [
    ("", "line 1: the text ends"),
    ("VERSION 5.8", "line 1: the text ends"),
    ("VERSION 5.8 ;\nEND", "line 2: the text ends"),
    ("FOO ;", "line 1: no such statement"),
    ("; END DESIGN", "line 1: no such statement"),
    (
        "UNITS DISTANCE MICRONS 0 ;",
        "line 1: a number outside its range",
    ),
    (
        "UNITS DISTANCE MICRONS 1000001 ;",
        "line 1: a number outside its range",
    ),
    ("UNITS DISTANCE MICRONS 1.5 ;", "line 1: not a number"),
    (
        "UNITS DISTANCE MICRONS 1000 ;\nUNITS",
        "line 2: UNITS stands twice",
    ),
    (
        "DIEAREA ( 0 0 ) ( 1073741825 2 ) ;",
        "line 1: a number above 2^30 units",
    ),
    (
        "DIEAREA ( 0 0 )\n( 2 2 ) ( 5 5 ) ;",
        "line 2: the die is no rectangle",
    ),
    (
        "TRACKS Y 1 DO 1 STEP 0 ;",
        "line 1: a number outside its range",
    ),
    ("TRACKS Z", "line 1: another word is expected"),
    ("TRACKS Y 1 DO 1 STEP 1 MASK 1 ;", "line 1: MASK is refused"),
    (
        "TRACKS Y 1 DO 1 STEP 1 LAYER ;",
        "line 1: another word is expected",
    ),
    (
        "TRACKS Y 1 DO 1 STEP 1 LAYER M1 MASK",
        "line 1: MASK is refused",
    ),
    ("END DESIGN", "units is missing"),
    (
        "UNITS DISTANCE MICRONS 1 ; END DESIGN",
        "die-area is missing",
    ),
    (
        "UNITS DISTANCE MICRONS 1 ; DIEAREA ( 0 0 ) ( 1 1 ) ; END DESIGN\nx",
        "line 2: another word is expected",
    ),
    ("\"", "line 1: a quote isn't closed"),
    ("VERSION 5.8 ;\n# \x07", "line 2: a byte isn't text"),
    ("DIEAREA\n0", "line 2: another word is expected"),
    ("DIEAREA ( 0\nx", "line 2: not a number"),
    (
        "DIEAREA ( 0 0 ) ( 2 2 )\n+",
        "line 2: another word is expected",
    ),
    (
        "DIEAREA ( 0 0 ) ( 2 2 ) ;\n\nDIEAREA",
        "line 3: DIEAREA stands twice",
    ),
    ("UNITS\nMICRONS", "line 2: another word is expected"),
    (
        "UNITS DISTANCE MICRONS 1\n1 ;",
        "line 2: another word is expected",
    ),
    (
        "TRACKS X 1 DO 1073741825",
        "line 1: a number above 2^30 units",
    ),
    ("TRACKS X 1\nSTEP", "line 2: another word is expected"),
    ("END\nPINS", "line 2: another word is expected"),
    ("REGIONS 0 ; END\nGROUPS", "line 2: the text ends"),
    ("BEGINEXT \"a\nb\"", "line 1: the text ends"),
    ("- a ;", "line 1: no such statement"),
];

/// Damaged sections of vias, components and pins.
const PLACEMENTS: [(&str, &str); 30] = [
    ("PINS 2 ;\n- p ;\nEND FOO", "PINS says 2 and has 1"),
    ("PINS 2 ;\n- p ;\n- p ;", "line 3: p stands twice"),
    ("PINS 1 ;\n- p + POLYGON", "line 2: POLYGON is refused"),
    ("PINS 1 ;\n- p + LAYER M1 MASK", "line 2: MASK is refused"),
    (
        "PINS 1 ;\n- p\n+ PLACED ( 0 0 ) X",
        "line 3: another word is expected",
    ),
    ("PINS 0 ; END NETS", "line 1: another word is expected"),
    ("PINS -1 ;", "line 1: a number outside its range"),
    ("PINS 0 ; END PINS\nPINS", "line 2: PINS stands twice"),
    ("VIAS", "line 1: the text ends"),
    ("VIAS 1 ;\n- V + RECT M1 ( 0 0 )", "line 2: the text ends"),
    ("VIAS 2 ;\n- V ;\n- W ;\n- V", "line 4: V stands twice"),
    ("VIAS 2 ;\n- V ;\nEND VIAS", "VIAS says 2 and has 1"),
    ("VIAS 1 ;\n- ;", "line 2: another word is expected"),
    ("VIAS 1 ;\n\nV", "line 3: another word is expected"),
    ("VIAS 0 ; END VIAS\nVIAS", "line 2: VIAS stands twice"),
    ("COMPONENTS x", "line 1: not a number"),
    (
        "COMPONENTS 1 ;\n- u1\n+",
        "line 3: another word is expected",
    ),
    (
        "COMPONENTS 1 ;\n- u1 INV\nPLACED",
        "line 3: another word is expected",
    ),
    (
        "COMPONENTS 1 ;\n- u1 INV + PLACED\n10",
        "line 3: another word is expected",
    ),
    (
        "COMPONENTS 1 ;\n- u1 INV + FIXED ( 1\n* )",
        "line 3: not a number",
    ),
    (
        "COMPONENTS 1 ;\n- u1 INV + COVER ( 1 2 )\nR90",
        "line 3: another word is expected",
    ),
    (
        "COMPONENTS 1 ;\n- u1 INV + PLACED ( 1 2 )\n;",
        "line 3: another word is expected",
    ),
    (
        "COMPONENTS 2 ;\n- u1 INV ;\n- u1",
        "line 3: u1 stands twice",
    ),
    (
        "COMPONENTS 1 ;\n- u1 INV ;\n- u2 INV ;\nEND COMPONENTS",
        "COMPONENTS says 1 and has 2",
    ),
    (
        "COMPONENTS 1 ;\n- u1 INV ; END\nCOMPONENT",
        "line 3: another word is expected",
    ),
    ("PINS 1 ;\n- p + VIA", "line 2: VIA is refused"),
    ("PINS 1 ;\n- p\n+ MASK", "line 3: MASK is refused"),
    (
        "PINS 1 ;\n- p + LAYER M1 SPACING\nx",
        "line 3: not a number",
    ),
    (
        "PINS 1 ;\n- p + LAYER M1 ( 0 0 )\n+",
        "line 3: another word is expected",
    ),
    ("PINS 1 ;\n- p NET", "line 2: another word is expected"),
];

/// Damaged blockages and special nets.
const BLOCKAGES_AND_SPECIAL_NETS: [(&str, &str); 21] = [
    (
        "BLOCKAGES 1 ; - LAYER M1\n;",
        "line 2: another word is expected",
    ),
    ("BLOCKAGES 1 ; END", "BLOCKAGES says 1 and has 0"),
    ("BLOCKAGES 1 ;\n- M1", "line 2: another word is expected"),
    (
        "BLOCKAGES 1 ;\n- LAYER M1 + SPACING\nRECT",
        "line 3: not a number",
    ),
    (
        "BLOCKAGES 1 ;\n- LAYER M1 RECT ( 0 0 ) ( 1 1 )\nPATH",
        "line 3: another word is expected",
    ),
    (
        "BLOCKAGES 1 ;\n- LAYER M1\nPOLYGON ( 0 0 ) ( 1 0 ) ( 1 1 )\n;",
        "line 4: another word is expected",
    ),
    (
        "BLOCKAGES 1 ;\n- LAYER M1\nPOLYGON ( 0 0 ) ( 1 0 ) ( 1 1 ) ( 0 2 )\n;",
        "line 3: POLYGON is refused",
    ),
    (
        "BLOCKAGES 1 ;\n- LAYER M1\nPOLYGON ( 0 0 ) ( 1 0 ) ( 1 1 ) ( 0 2 )",
        "line 3: the text ends",
    ),
    (
        "BLOCKAGES 1 ;\n- LAYER M1\nPOLYGON ( 0 0 ) ( 1 0 ) ( 1 1 ) ( 0 1 ) RECT\n1",
        "line 4: another word is expected",
    ),
    (
        "SPECIALNETS 1 ;\n- VDD (\n- VDD )",
        "line 3: another word is expected",
    ),
    (
        "SPECIALNETS 1 ;\n- VDD ( * )",
        "line 2: another word is expected",
    ),
    (
        "SPECIALNETS 1 ;\n- VDD ( * VDD\n+ MUSTJOIN",
        "line 3: another word is expected",
    ),
    (
        "SPECIALNETS 1 ;\n- VDD + SHIELD x",
        "line 2: SHIELD is refused",
    ),
    (
        "SPECIALNETS 1 ;\n- VDD\n+ POLYGON",
        "line 3: POLYGON is refused",
    ),
    (
        "SPECIALNETS 1 ;\n- VDD + ROUTED M 1\n+ STYLE 1",
        "line 3: STYLE is refused",
    ),
    (
        "SPECIALNETS 1 ;\n- VDD + RECT M + SHAPE A\n+ STYLE",
        "line 3: STYLE is refused",
    ),
    (
        "SPECIALNETS 1 ;\n- VDD + ROUTED M 1 + SHAPE\n( 0 0 )",
        "line 3: another word is expected",
    ),
    (
        "SPECIALNETS 1 ;\n- VDD + FIXED + SHAPE\n;",
        "line 3: another word is expected",
    ),
    (
        "SPECIALNETS 1 ;\n- VDD + ROUTED M 1 ( 0 0 )",
        "line 2: the text ends",
    ),
    (
        "SPECIALNETS 2 ;\n- VDD ;\n- VDD",
        "line 3: VDD stands twice",
    ),
    (
        "SPECIALNETS 0 ;\nEND SPECIALNETS SPECIALNETS",
        "line 2: SPECIALNETS stands twice",
    ),
];

/// Damaged nets.
const NETS: [(&str, &str); 10] = [
    ("NETS 1 ;\n- MUSTJOIN", "line 2: MUSTJOIN is refused"),
    ("NETS 1 ;\n- a + SUBNET", "line 2: SUBNET is refused"),
    (
        "NETS 1 ;\n- a\n( PIN p )\n( PIN q )\n( PIN r ;",
        "line 5: another word is expected",
    ),
    (
        "NETS 1 ;\n- a ( u1 A ) ( u2 A ) ( u3 A )\n( u4 )",
        "line 3: another word is expected",
    ),
    (
        "NETS 2 ;\n- a ( u1 A ) ( u2 A ) ( u3 A ) ;\nEND NETS",
        "NETS says 2 and has 1",
    ),
    (
        "NETS 1 ;\n- a ( u1\n* )",
        "line 3: another word is expected",
    ),
    (
        "NETS 1 ;\n- a ( u1 A\nB",
        "line 3: another word is expected",
    ),
    (
        "NETS 1 ;\n- a + NONDEFAULTRULE\n;",
        "line 3: another word is expected",
    ),
    ("NETS 2 ;\n- a ;\n- a", "line 3: a stands twice"),
    (
        "NETS 1 ;\n- a + ROUTED M1 ( 0 0 )\n( 1 * )",
        "line 3: the text ends",
    ),
];

#[test]
fn damaged_texts_are_refused(rt: HostRuntime) -> Result<(), Fail> {
    let alloc = rt.alloc();
    assert_eq!(rt; unlike(alloc, &STATEMENTS)?, None);
    assert_eq!(rt; unlike(alloc, &PLACEMENTS)?, None);
    assert_eq!(rt; unlike(alloc, &BLOCKAGES_AND_SPECIAL_NETS)?, None);
    assert_eq!(rt; unlike(alloc, &NETS)?, None);
    Ok(())
}

#[test]
fn a_design_with_one_damaged_line_is_refused(rt: HostRuntime) -> Result<(), Fail> {
    let alloc = rt.alloc();
    for (line, text, want) in [
        (15, "#\x00", "line 15: a byte isn't text"),
        (15, "x", "line 15: another word is expected"),
        (
            4,
            "DIEAREA ( 0 0 ) ( 1073741825 2000 ) ;",
            "line 4: a number above 2^30 units",
        ),
        (
            4,
            "DIEAREA ( 0 0 ) ( 2000 2000 ) ( 5 5 ) ;",
            "line 4: the die is no rectangle",
        ),
        (
            5,
            "TRACKS Y 100 DO 10 STEP 0 LAYER M1 ;",
            "line 5: a number outside its range",
        ),
        (11, "NETS 2 ;", "NETS says 2 and has 1"),
        (13, "- a ;", "line 13: a stands twice"),
    ] {
        let changed = design_with(alloc, line, text)?;
        assert!(rt; answers(alloc, changed.as_slice(), want)?, "{text}");
    }
    Ok(())
}
