//! Worked rows of polygons and of generated vias.
use crate::{Generated, generated_rects, is_rectilinear, slabs};
use rt_base::{LayerNo, Memory, Point};
use std::alloc::Global;
use std::test::Fail;

fn points(alloc: Global, pairs: &[(i64, i64)]) -> Result<Vec<Point>, Memory> {
    let mut points = Vec::new(alloc);
    for (x, y) in pairs {
        points.push(Point { x: *x, y: *y })?;
    }
    Ok(points)
}

#[test]
fn polygons(rt: HostRuntime) -> Result<(), Fail> {
    let alloc = rt.alloc();
    let rows: [(&str, &[(i64, i64)], &[(i64, i64, i64, i64)]); 5] = [
        (
            "a corner",
            &[
                (0, 0),
                (400, 0),
                (400, 200),
                (200, 200),
                (200, 400),
                (0, 400),
            ],
            &[(0, 0, 400, 200), (0, 200, 200, 400)],
        ),
        (
            "the other way round",
            &[
                (0, 400),
                (200, 400),
                (200, 200),
                (400, 200),
                (400, 0),
                (0, 0),
            ],
            &[(0, 0, 400, 200), (0, 200, 200, 400)],
        ),
        (
            "three teeth",
            &[
                (0, 0),
                (50, 0),
                (50, 20),
                (40, 20),
                (40, 10),
                (30, 10),
                (30, 20),
                (20, 20),
                (20, 10),
                (10, 10),
                (10, 20),
                (0, 20),
            ],
            &[
                (0, 0, 50, 10),
                (0, 10, 10, 20),
                (20, 10, 30, 20),
                (40, 10, 50, 20),
            ],
        ),
        (
            "a slit inside",
            &[
                (0, 0),
                (10, 0),
                (10, 10),
                (10, 0),
                (20, 0),
                (20, 10),
                (0, 10),
            ],
            &[(0, 0, 20, 10)],
        ),
        (
            "a spur outside",
            &[(0, 0), (0, 10), (0, 0), (10, 0), (10, 5), (0, 5)],
            &[(0, 0, 10, 5)],
        ),
    ];
    for (what, pairs, want) in rows {
        let points = points(alloc, pairs)?;
        let found = slabs(alloc, points.as_slice())?;
        assert_eq!(rt; found.len(), want.len(), "{what}");
        for (rect, sides) in found.iter().zip(want.iter()) {
            assert_eq!(rt; (rect.xl, rect.yl, rect.xh, rect.yh), *sides, "{what}");
        }
    }
    Ok(())
}

#[test]
fn rectilinear(rt: HostRuntime) -> Result<(), Fail> {
    let alloc = rt.alloc();
    let rows: [(&str, &[(i64, i64)], bool); 5] = [
        ("a rectangle", &[(0, 0), (4, 0), (4, 2), (0, 2)], true),
        ("three points", &[(0, 0), (4, 0), (4, 2)], false),
        ("a slope", &[(0, 0), (4, 1), (4, 2), (0, 2)], false),
        (
            "a point twice",
            &[(0, 0), (4, 0), (4, 0), (4, 2), (0, 2)],
            false,
        ),
        (
            "a slope at the end",
            &[(0, 0), (4, 0), (4, 2), (1, 2)],
            false,
        ),
    ];
    for (what, pairs, want) in rows {
        let points = points(alloc, pairs)?;
        assert_eq!(rt; is_rectilinear(points.as_slice()), want, "{what}");
    }
    Ok(())
}

/// Three columns and two rows reach over 210 by 100 units, one cut of 5 by 3 from -2 -1 to 3 2.
#[test]
fn vias(rt: HostRuntime) -> Result<(), Fail> {
    let six = Generated {
        cut: (50, 40),
        layers: (LayerNo(0), LayerNo(1), LayerNo(2)),
        spacing: (30, 20),
        enclosure: (10, 5, 15, 25),
        rows: 2,
        columns: 3,
    };
    let want = [
        (0, (-115, -55, 115, 55)),
        (2, (-120, -75, 120, 75)),
        (1, (-105, -50, -55, -10)),
        (1, (-25, -50, 25, -10)),
        (1, (55, -50, 105, -10)),
        (1, (-105, 10, -55, 50)),
        (1, (-25, 10, 25, 50)),
        (1, (55, 10, 105, 50)),
    ];
    let found = generated_rects(rt.alloc(), &six)?;
    assert_eq!(rt; found.len(), want.len());
    for ((layer, rect), want) in found.iter().zip(want.iter()) {
        assert_eq!(rt; (layer.0, (rect.xl, rect.yl, rect.xh, rect.yh)), *want);
    }
    let odd = Generated {
        cut: (5, 3),
        layers: (LayerNo(3), LayerNo(4), LayerNo(5)),
        spacing: (0, 0),
        enclosure: (0, 0, 0, 0),
        rows: 1,
        columns: 1,
    };
    for (_, rect) in generated_rects(rt.alloc(), &odd)?.iter() {
        assert_eq!(rt; (rect.xl, rect.yl, rect.xh, rect.yh), (-2, -1, 3, 2));
    }
    Ok(())
}
