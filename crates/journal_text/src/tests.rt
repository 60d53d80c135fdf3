// The journals of two small chips, and the call once for each kind of block.
use super::*;
use rt_base::{Edge, EdgeKind, Grid, Layer, LayerNo, Name, Rect, Seq, SpacingTable, Via};
use std::test::Fail;
use track_graph::{Net, NetKind, Options, Tracks};

fn layer(alloc: Global, name: &[u8], routing: bool) -> Result<Layer, Memory> {
    Ok(Layer {
        name: Name::new(alloc, name)?,
        routing,
        horizontal: true,
        width: 100,
        spacing: 100,
        table: SpacingTable {
            lengths: Seq::new(alloc),
            rows: Seq::new(alloc),
        },
    })
}

fn via(alloc: Global) -> Result<Via, Memory> {
    let pad = Rect {
        xl: -50,
        yl: -50,
        xh: 50,
        yh: 50,
    };
    let mut rects = Seq::new(alloc);
    rects.push((LayerNo(0), pad))?;
    rects.push((LayerNo(1), pad))?;
    rects.push((LayerNo(2), pad))?;
    Ok(Via {
        name: Name::new(alloc, b"V12")?,
        usable: true,
        rects,
    })
}

/// M1, C1 and M2, and a via between M1 and M2.
fn tech(alloc: Global) -> Result<Tech, Memory> {
    let mut layers = Seq::new(alloc);
    layers.push(layer(alloc, b"M1", true)?)?;
    layers.push(layer(alloc, b"C1", false)?)?;
    layers.push(layer(alloc, b"M2", true)?)?;
    let mut vias = Seq::new(alloc);
    vias.push(via(alloc)?)?;
    Ok(Tech { layers, vias })
}

fn net(alloc: Global, name: &[u8]) -> Result<Net, Memory> {
    Ok(Net {
        name: Name::new(alloc, name)?,
        pins: Seq::new(alloc),
        guide: Seq::new(alloc),
        kind: NetKind::Routable,
        close: 0,
    })
}

/// The nets a and b.
fn design(alloc: Global) -> Result<Design, Memory> {
    let mut nets = Seq::new(alloc);
    nets.push(net(alloc, b"a")?)?;
    nets.push(net(alloc, b"b")?)?;
    let die = Rect {
        xl: 0,
        yl: 0,
        xh: 2000,
        yh: 2000,
    };
    Ok(Design {
        tech: tech(alloc)?,
        tracks: Tracks {
            lines: Seq::new(alloc),
            largest_step: Seq::new(alloc),
        },
        grid: Grid { die, tile: 6400 },
        nets,
        fixed: Seq::new(alloc),
        options: Options {
            via: 1000,
            tile: 6400,
            rips: 3,
        },
        skipped: Seq::new(alloc),
    })
}

fn at(level: u8, x: i64, y: i64) -> Vertex {
    Vertex {
        level,
        point: Point { x, y },
    }
}

fn along(level: u8, x: i64, y: i64) -> Edge {
    Edge {
        kind: EdgeKind::Along,
        to: at(level, x, y),
    }
}

fn by_via(level: u8, x: i64, y: i64) -> Edge {
    Edge {
        kind: EdgeKind::Via(0),
        to: at(level, x, y),
    }
}

fn at_pin(pin: u32, level: u8, x: i64, y: i64) -> Entry {
    Entry {
        vertex: at(level, x, y),
        kind: EntryKind::Pin { pin },
    }
}

fn make_walk(alloc: Global, start: Entry, edges: &[Edge], finish: Entry) -> Result<Walk, Memory> {
    Ok(Walk {
        start,
        edges: Seq::from_vec(Vec::from_slice(alloc, edges)?),
        finish,
    })
}

/// From (100, 100) on M1 to (900, 500) on M2.
fn corner(alloc: Global) -> Result<Walk, Memory> {
    let edges = [
        along(0, 300, 100),
        along(0, 500, 100),
        along(0, 700, 100),
        along(0, 900, 100),
        by_via(1, 900, 100),
        along(1, 900, 300),
        along(1, 900, 500),
    ];
    make_walk(
        alloc,
        at_pin(0, 0, 100, 100),
        &edges,
        at_pin(1, 1, 900, 500),
    )
}

/// From (300, 100) to (900, 100), both on M2, by M1.
fn short(alloc: Global) -> Result<Walk, Memory> {
    let edges = [
        by_via(0, 300, 100),
        along(0, 500, 100),
        along(0, 700, 100),
        along(0, 900, 100),
        by_via(1, 900, 100),
    ];
    make_walk(
        alloc,
        at_pin(0, 1, 300, 100),
        &edges,
        at_pin(1, 1, 900, 100),
    )
}

/// From (100, 100) to (1100, 100) on M1.
fn straight(alloc: Global) -> Result<Walk, Memory> {
    let edges = [
        along(0, 300, 100),
        along(0, 500, 100),
        along(0, 700, 100),
        along(0, 900, 100),
        along(0, 1100, 100),
    ];
    make_walk(
        alloc,
        at_pin(0, 0, 100, 100),
        &edges,
        at_pin(1, 0, 1100, 100),
    )
}

/// As the short one, over the next track of M1.
fn round(alloc: Global) -> Result<Walk, Memory> {
    let edges = [
        along(1, 300, 300),
        by_via(0, 300, 300),
        along(0, 500, 300),
        along(0, 700, 300),
        along(0, 900, 300),
        by_via(1, 900, 300),
        along(1, 900, 100),
    ];
    make_walk(
        alloc,
        at_pin(0, 1, 300, 100),
        &edges,
        at_pin(1, 1, 900, 100),
    )
}

/// The straight one for net b, which rips net a.
fn ripped_for(alloc: Global) -> Result<Block, Memory> {
    Ok(Block::RipFor {
        net: 1,
        soft: straight(alloc)?,
        ripped: Seq::from_vec(Vec::from_slice(alloc, &[0])?),
        walk: straight(alloc)?,
    })
}

#[test]
fn one_wire(rt: HostRuntime) -> Result<(), Fail> {
    let alloc = rt.alloc();
    let chip = design(alloc)?;
    let walk = corner(alloc)?;
    let mut journal = Journal::new(alloc);
    journal.reserve()?;
    journal.add(Block::Wire { net: 0, walk });
    let text = print(alloc, &chip, &journal)?;
    let wanted =
        b"journal 1\nwire a\nfrom pin 0 M1 100 100\nrun 900 100\nvia V12\nrun 900 500\nto pin 1 M2 900 500\nend\n";
    assert_eq!(rt; text.as_slice(), wanted.as_slice());
    Ok(())
}

#[test]
fn one_rip(rt: HostRuntime) -> Result<(), Fail> {
    let alloc = rt.alloc();
    let chip = design(alloc)?;
    let first = short(alloc)?;
    let rip = ripped_for(alloc)?;
    let second = round(alloc)?;
    let mut journal = Journal::new(alloc);
    journal.reserve()?;
    journal.add(Block::Wire {
        net: 0,
        walk: first,
    });
    journal.reserve()?;
    journal.add(rip);
    journal.reserve()?;
    journal.add(Block::Wire {
        net: 0,
        walk: second,
    });
    let text = print(alloc, &chip, &journal)?;
    let wanted =
        b"journal 1\nwire a\nfrom pin 0 M2 300 100\nvia V12\nrun 900 100\nvia V12\nto pin 1 M2 900 100\nend\nrip b\nfrom pin 0 M1 100 100\nrun 1100 100\nto pin 1 M1 1100 100\nripped a\nfrom pin 0 M1 100 100\nrun 1100 100\nto pin 1 M1 1100 100\nend\nwire a\nfrom pin 0 M2 300 100\nrun 300 300\nvia V12\nrun 900 300\nvia V12\nrun 900 100\nto pin 1 M2 900 100\nend\n";
    assert_eq!(rt; text.as_slice(), wanted.as_slice());
    Ok(())
}

#[test]
fn stuck(rt: HostRuntime) -> Result<(), Fail> {
    let alloc = rt.alloc();
    let chip = design(alloc)?;
    let mut journal = Journal::new(alloc);
    journal.reserve()?;
    journal.add(Block::Stuck { net: 1 });
    let text = print(alloc, &chip, &journal)?;
    assert_eq!(rt; text.as_slice(), b"journal 1\nstuck b\n".as_slice());
    Ok(())
}
