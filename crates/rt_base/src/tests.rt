//! Worked rows of the test for conflicts and of tiles, and each public call once.
ghost use Rattle.std.specs.Prelude.{◌≤ℤ◌, ◌^◌};
ghost use Rattle.rt_base.specs.Ranges.{AreSidesWithin};

use crate::geometry::{Point, Rect};
use crate::grid::Grid;
use crate::memory::Memory;
use crate::name::Name;
use crate::orient::{Orient, place};
use crate::scan::{ScanError, tokens};
use crate::seq::Seq;
use crate::tech::{Layer, LayerNo, Owner, Shape, SpacingTable, Tech};
use crate::{conflict, gap};
use std::alloc::Global;
use std::test::Fail;

fn layer(alloc: Global, name: &[u8], spacing: i64) -> Result<Layer, Memory> {
    Ok(Layer {
        name: Name::new(alloc, name)?,
        routing: true,
        horizontal: true,
        width: 100,
        spacing,
        table: SpacingTable {
            lengths: Seq::new(alloc),
            rows: Seq::new(alloc),
        },
    })
}

/// M1 with spacing 100 and M2 with spacing 0.
fn two_layers(alloc: Global) -> Result<Tech, Memory> {
    let mut layers = Seq::new(alloc);
    layers.push(layer(alloc, b"M1", 100)?)?;
    layers.push(layer(alloc, b"M2", 0)?)?;
    Ok(Tech {
        layers,
        vias: Seq::new(alloc),
    })
}

fn rect(xl: i64, yl: i64, xh: i64, yh: i64) -> Rect
    requires x { xl ≤ℤ xh }
    requires y { yl ≤ℤ yh }
{
    Rect { xl, yl, xh, yh }
}

fn shape(layer: u32, owner: Owner, rect: Rect) -> Shape {
    Shape {
        layer: LayerNo(layer),
        rect,
        owner,
        fixed: false,
    }
}

/// Whether the two conflict, either way round; none where there is no such layer or the two ways
/// differ.
fn either_way(tech: &Tech, a: &Shape, b: &Shape) -> Option<bool> {
    let layers = tech.layers.len();
    if a.layer.0 as usize >= layers || b.layer.0 as usize >= layers {
        return None;
    }
    let answer = conflict(tech, a, b);
    if conflict(tech, b, a) == answer {
        Some(answer)
    } else {
        None
    }
}

#[test]
fn conflicts(rt: HostRuntime) -> Result<(), Fail> {
    let tech = two_layers(rt.alloc())?;
    let first = rect(0, 0, 100, 100);
    let far = rect(160, 180, 260, 280);
    let near = rect(160, 179, 260, 279);
    let touching = rect(100, -50, 200, 0);
    let beside = rect(101, 0, 200, 100);
    let net = Owner::Net(0);
    let other = Owner::Net(1);
    let nobody = Owner::Nobody;
    let rows = [
        (
            "3600 + 6400 is 10000",
            shape(0, net, first),
            shape(0, other, far),
            false,
        ),
        (
            "3600 + 6241 is 9841",
            shape(0, net, first),
            shape(0, other, near),
            true,
        ),
        (
            "both are nobody's",
            shape(0, nobody, first),
            shape(0, nobody, near),
            false,
        ),
        ("one net", shape(0, net, first), shape(0, net, near), false),
        (
            "a net and nobody",
            shape(0, net, first),
            shape(0, nobody, near),
            true,
        ),
        (
            "touching",
            shape(0, net, first),
            shape(0, other, touching),
            true,
        ),
        (
            "on two layers",
            shape(0, net, first),
            shape(1, other, near),
            false,
        ),
        (
            "spacing 0, touching",
            shape(1, net, first),
            shape(1, other, touching),
            true,
        ),
        (
            "spacing 0, one unit between",
            shape(1, net, first),
            shape(1, other, beside),
            false,
        ),
    ];
    for (what, a, b, want) in rows {
        assert_eq!(rt; either_way(&tech, &a, &b), Some(want), "{what}");
    }
    assert_eq!(rt; gap(&first, &far), (60, 80));
    assert_eq!(rt; gap(&touching, &first), (0, 0));
    Ok(())
}

#[test]
fn tiles(rt: HostRuntime) {
    let die = Rect {
        xl: 100,
        yl: 200,
        xh: 1100,
        yh: 1100,
    };
    let grid = Grid { die, tile: 400 };
    assert_eq!(rt; (grid.columns(), grid.rows(), grid.tiles()), (3, 3, 9));
    assert_eq!(rt; (grid.column(die.high()), grid.row(die.low())), (2, 0));
    let rows = [
        ("the lower left corner", rect(100, 200, 100, 200), [0, 0]),
        (
            "the upper right corner",
            rect(1100, 1100, 1100, 1100),
            [8, 8],
        ),
        (
            "up to the last unit of a column",
            rect(100, 200, 499, 200),
            [0, 0],
        ),
        ("into the next column", rect(499, 200, 500, 200), [0, 1]),
        (
            "left of the die and below it",
            rect(-90, -90, -80, -80),
            [0, 0],
        ),
        ("right of the die", rect(5000, 300, 5001, 300), [2, 2]),
        ("above the die", rect(600, 9000, 600, 9001), [7, 7]),
        ("the whole middle row", rect(-90, 650, 5000, 700), [3, 5]),
    ];
    for (what, rect, [first, last]) in rows {
        for tile in 0..12 {
            let want = first <= tile && tile <= last;
            assert_eq!(rt; grid.meets(&rect, tile), want, "{what}, tile {tile}");
        }
    }
    let point = Rect {
        xl: 0,
        yl: 0,
        xh: 0,
        yh: 0,
    };
    let least = Grid {
        die: point,
        tile: 1,
    };
    assert_eq!(rt; (least.tiles(), least.meets(&die, 0)), (1, true));
    assert!(rt; die.holds(Point { x: 100, y: 1100 }));
    assert!(rt; !die.holds(Point { x: 99, y: 1100 }));
}

#[test]
fn lists_and_names(rt: HostRuntime) -> Result<(), Fail> {
    let alloc = rt.alloc();
    let name = Name::new(alloc, b"net[3]")?;
    assert_eq!(rt; name.bytes(), b"net[3]".as_slice());
    let mut list = Seq::new(alloc);
    assert!(rt; list.is_empty());
    list.push(7)?;
    let mut list = Seq::from_vec(list.into_vec());
    list.push(8)?;
    assert_eq!(rt; (list.len(), list.as_slice()), (2, [7, 8].as_slice()));
    let shown = format!(in alloc; "{name}")?;
    assert_eq!(rt; shown.as_str(), "net[3]");
    let text = format!(in alloc; "{Memory}")?;
    assert_eq!(rt; text.as_str(), "out of memory");
    Ok(())
}

#[test]
fn scans(rt: HostRuntime) -> Result<(), Fail> {
    let alloc = rt.alloc();
    let rows: [(&str, &[u8], &[(u32, u32, u32)]); 9] = [
        ("nothing", b"", &[]),
        ("white space alone", b" \t\r\n\n", &[]),
        (
            "words and lines",
            b"VIA v1\n ; END",
            &[(1, 0, 3), (1, 4, 6), (2, 8, 9), (2, 10, 13)],
        ),
        ("a comment", b"a # b \" c\nd", &[(1, 0, 1), (2, 10, 11)]),
        (
            "no comment inside a token",
            b"a#b #c#\n#d\ne#",
            &[(1, 0, 3), (3, 11, 13)],
        ),
        (
            "no quote inside a token",
            b"a\"b c\"d",
            &[(1, 0, 3), (1, 4, 7)],
        ),
        (
            "a quote over lines",
            b"\"a\n#b\n\" c",
            &[(1, 0, 7), (3, 8, 9)],
        ),
        (
            "behind a quote",
            b"\"a\"b \"\"\"c\"#d",
            &[(1, 0, 3), (1, 3, 4), (1, 5, 7), (1, 7, 10)],
        ),
        (
            "CR LF, and a byte above 127",
            b"a\r\nb\xc3\r\n",
            &[(1, 0, 1), (2, 3, 5)],
        ),
    ];
    for (what, text, want) in rows {
        let found = tokens(alloc, text)?;
        assert_eq!(rt; found.len(), want.len(), "{what}");
        for (token, places) in found.iter().zip(want.iter()) {
            assert_eq!(rt; (token.line, token.first, token.past), *places, "{what}");
        }
    }
    Ok(())
}

#[test]
fn scan_faults(rt: HostRuntime) -> Result<(), Fail> {
    let unclosed = |line| ScanError::UnclosedQuote { line };
    let not_text = |line| ScanError::NotText { line };
    let rows = [
        ("an open quote", b"a\n \"b\nc\n".as_slice(), unclosed(2)),
        (
            "an open quote behind a closed one",
            b"\"\n\"\"",
            unclosed(2),
        ),
        ("byte 127", b"a\nb\x7f", not_text(2)),
        ("byte 0 in a comment", b"a\n# \0\nb", not_text(2)),
        ("byte 31 in a quote", b"\"\n\n\x1f\"", not_text(3)),
        ("a byte in an open quote", b"a\n\"\n\x7f", unclosed(2)),
        ("a byte before an open quote", b"a\n\x01\n\"", not_text(2)),
        ("a quote behind a comment's", b"# \"\n\x02 \"", not_text(2)),
    ];
    for (what, text, want) in rows {
        assert_eq!(rt; tokens(rt.alloc(), text).err(), Some(want), "{what}");
    }
    let shown = format!(in rt.alloc(); "{}", not_text(7))?;
    assert_eq!(rt; shown.as_str(), "line 7: a byte isn't text");
    assert_eq!(rt; ScanError::from(Memory), ScanError::Memory);
    Ok(())
}

/// A rectangle of a macro of 400 by 200.
fn pin() -> Rect
    ensures { AreSidesWithin (2 ^ 61) result }
{
    Rect {
        xl: 20,
        yl: 30,
        xh: 60,
        yh: 70,
    }
}

/// The pin in each orientation, and moved.
#[test]
fn orientations(rt: HostRuntime) {
    assert_eq!(rt; place(Orient::N, 400, 200, pin()), rect(20, 30, 60, 70));
    assert_eq!(rt; place(Orient::W, 400, 200, pin()), rect(130, 20, 170, 60));
    assert_eq!(rt; place(Orient::S, 400, 200, pin()), rect(340, 130, 380, 170));
    assert_eq!(rt; place(Orient::E, 400, 200, pin()), rect(30, 340, 70, 380));
    assert_eq!(rt; place(Orient::FN, 400, 200, pin()), rect(340, 30, 380, 70));
    assert_eq!(rt; place(Orient::FS, 400, 200, pin()), rect(20, 130, 60, 170));
    assert_eq!(rt; place(Orient::FW, 400, 200, pin()), rect(30, 20, 70, 60));
    assert_eq!(rt;
        place(Orient::FE, 400, 200, pin()),
        rect(130, 340, 170, 380)
    );
    let to = Point { x: 1000, y: -30 };
    assert_eq!(rt; pin().moved(to), rect(1020, 0, 1060, 40));
}
