//! Shapes in a row, in each store.
ghost use Rattle.std.specs.Prelude.{◌*◌, ◌^◌, ◌<◌, ◌≤ℤ◌, pos};
ghost use Rattle.rt_base.specs.Tiles.{columns_of, rows_of};

use crate::{ListStore, ShapeStore, Tile, split};
use rt_base::{Grid, LayerNo, Owner, Point, Rect, Shape};
use std::alloc::Global;
use std::process::Abort;
use std::test::Fail;

fn rect(xl: i64, yl: i64, xh: i64, yh: i64) -> Rect {
    Rect::hull(Point { x: xl, y: yl }, Point { x: xh, y: yh })
}

/// A square of a side of 100 from this x on.
fn square(x: i64, owner: Owner) -> Shape {
    Shape {
        layer: LayerNo(1),
        rect: rect(x, 0, x.saturating_add(100), 100),
        owner,
        fixed: false,
    }
}

/// Checks what is found near a small rectangle.
fn expect<S: ShapeStore>(
    rt: &impl Abort,
    alloc: Global,
    store: &S,
    want: &[Shape],
) -> Result<(), Fail> {
    let found = store.near(alloc, LayerNo(1), &rect(50, 50, 100, 60))?;
    assert!(rt; found.as_slice() == want);
    Ok(())
}

fn fill<S: ShapeStore>(store: &mut S) -> Result<(), Fail> {
    store.add(square(300, Owner::Nobody))?;
    store.add(square(100, Owner::Net(1)))?;
    store.add(square(0, Owner::Net(0)))?;
    Ok(())
}

/// Checks what is found before and after the first shape is taken out.
fn check_removal<S: ShapeStore>(rt: &impl Abort, alloc: Global, store: &mut S) -> Result<(), Fail> {
    let both = [square(0, Owner::Net(0)), square(100, Owner::Net(1))];
    expect(rt, alloc, store, &both)?;
    assert!(rt; store.remove(&square(0, Owner::Net(0))));
    let second = [square(100, Owner::Net(1))];
    expect(rt, alloc, store, &second)?;
    assert!(rt; !store.remove(&square(0, Owner::Net(0))));
    Ok(())
}

/// Two tiles side by side.
fn two_tiles() -> Grid
    ensures side { pos 1 ≤ℤ result.tile }
    ensures count { columns_of result * rows_of result < 2 ^ 32 }
{
    Grid {
        die: Rect::hull(Point { x: 0, y: 0 }, Point { x: 200, y: 100 }),
        tile: 100,
    }
}

#[test]
fn a_list_answers(rt: HostRuntime) -> Result<(), Fail> {
    let mut store = ListStore::new(rt.alloc());
    fill(&mut store)?;
    check_removal(&rt, rt.alloc(), &mut store)
}

#[test]
fn a_tile_and_its_copy_answer(rt: HostRuntime) -> Result<(), Fail> {
    let mut tile = Tile::new(rt.alloc());
    fill(&mut tile)?;
    let copy = tile.copy(rt.alloc())?;
    check_removal(&rt, rt.alloc(), &mut tile)?;
    let want = [square(0, Owner::Net(0)), square(100, Owner::Net(1))];
    expect(&rt, rt.alloc(), &copy, &want)
}

#[test]
fn a_shape_is_in_both_of_its_tiles(rt: HostRuntime) -> Result<(), Fail> {
    let grid = two_tiles();
    let wide = Shape {
        layer: LayerNo(0),
        rect: rect(50, 10, 150, 20),
        owner: Owner::Net(7),
        fixed: true,
    };
    let tiles = split(rt.alloc(), &grid, &[wide, square(120, Owner::Nobody)])?;
    assert_eq!(rt; tiles.len(), 2);
    for tile in &tiles {
        let found = tile.near(rt.alloc(), LayerNo(0), &grid.die)?;
        assert_eq!(rt; found.len(), 1);
    }
    Ok(())
}
