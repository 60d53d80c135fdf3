//! Guides of nets by name.
ghost use Rattle.std.specs.Prelude.{◌≡◌, ◌≢◌, ◌≤◌, length, map, AllPairs, IfOk};

use crate::NetGuides;
use guide_text::{GuideError, read_guides};
use rt_base::{Layer, Memory, Name, Point, Rect, Seq, SpacingTable};
use std::alloc::Global;
use std::test::Fail;

fn layer(alloc: Global, name: &[u8], routing: bool) -> Result<Layer, Memory>
    ensures { IfOk result (λ l. l.name ≡ name.now) }
{
    Ok(Layer {
        name: Name::new(alloc, name)?,
        routing,
        horizontal: true,
        width: 100,
        spacing: 100,
        table: SpacingTable {
            lengths: Seq::new(alloc),
            rows: Seq::new(alloc),
        },
    })
}

/// Two routing layers, M1 and M2, and the cut layer V between them.
fn layers(alloc: Global) -> Result<Vec<Layer>, Memory>
    ensures apart { IfOk result (λ v. AllPairs (λ a b. a ≢ b) (map (λ l. l.name) v.items)) }
    ensures few { IfOk result (λ v. length v.items ≤ 3) }
{
    let mut layers = Vec::new(alloc);
    layers.push(layer(alloc, b"M1", true)?)?;
    layers.push(layer(alloc, b"V", false)?)?;
    layers.push(layer(alloc, b"M2", true)?)?;
    Ok(layers)
}

fn rect(xl: i64, yl: i64, xh: i64, yh: i64) -> Rect {
    Rect::hull(Point { x: xl, y: yl }, Point { x: xh, y: yh })
}

const TEXT: &[u8] =
    b"a ( 1 2 3 4 M2 5 6 7 8 M1 0 0 9 9 V 0 0 9 9 M3 )\nnone ( )\nab ( 0 0 1 1 M1 )";

/// Whether a net is guided, and its boxes.
fn answers(alloc: Global, name: &[u8]) -> Result<(bool, Seq<(u8, Rect)>), GuideError> {
    let layers = layers(alloc)?;
    let guides = read_guides(alloc, TEXT)?;
    let index = NetGuides::new(alloc, &layers, &guides)?;
    let boxes = index.boxes(alloc, &guides, name)?;
    Ok((index.is_guided(name), boxes))
}

#[test]
fn guides_by_name(rt: HostRuntime) -> Result<(), Fail> {
    let rows: [(&[u8], bool, &[(u8, Rect)]); 5] = [
        (b"a", true, &[(1, rect(1, 2, 3, 4)), (0, rect(5, 6, 7, 8))]),
        (b"ab", true, &[(0, rect(0, 0, 1, 1))]),
        (b"none", true, &[]),
        (b"b", false, &[]),
        (b"M1", false, &[]),
    ];
    for (name, guided, boxes) in rows {
        let (is_guided, found) = answers(rt.alloc(), name)?;
        assert_eq!(rt; is_guided, guided);
        assert_eq!(rt; found.as_slice(), boxes);
    }
    Ok(())
}
