// Reports of a chip with one wire, and of nets of each kind.
use super::*;
use rt_base::{Edge, EdgeKind, Entry, EntryKind, Grid, Name, Point, Rect, Seq, Tech, Vertex, Walk};
use std::test::Fail;
use track_graph::{Net, NetKind, NetState, Options, Pin, Tracks};

fn pin(alloc: Global) -> Result<Pin, Memory> {
    Ok(Pin {
        comp: Name::new(alloc, b"PIN")?,
        pin: Name::new(alloc, b"p")?,
        rects: Seq::new(alloc),
        entries: Seq::new(alloc),
    })
}

/// A net with two pins.
fn net(alloc: Global, name: &[u8], kind: NetKind) -> Result<Net, Memory> {
    let mut pins = Seq::new(alloc);
    pins.push(pin(alloc)?)?;
    pins.push(pin(alloc)?)?;
    Ok(Net {
        name: Name::new(alloc, name)?,
        pins,
        guide: Seq::new(alloc),
        kind,
        close: 0,
    })
}

fn design(alloc: Global, nets: Seq<Net>, skipped: Seq<(Name, u32)>) -> Design {
    let die = Rect {
        xl: 0,
        yl: 0,
        xh: 2000,
        yh: 2000,
    };
    Design {
        tech: Tech {
            layers: Seq::new(alloc),
            vias: Seq::new(alloc),
        },
        tracks: Tracks {
            lines: Seq::new(alloc),
            largest_step: Seq::new(alloc),
        },
        grid: Grid { die, tile: 6400 },
        nets,
        fixed: Seq::new(alloc),
        options: Options {
            via: 1000,
            tile: 6400,
            rips: 3,
        },
        skipped,
    }
}

/// Nets n of these kinds.
fn nets_of(alloc: Global, kinds: &[NetKind]) -> Result<Seq<Net>, Memory> {
    let mut nets = Seq::new(alloc);
    for kind in kinds {
        nets.push(net(alloc, b"n", *kind)?)?;
    }
    Ok(nets)
}

/// What was skipped on the layers M1 and M2 and without a layer.
fn skipped_counts(alloc: Global) -> Result<Seq<(Name, u32)>, Memory> {
    let mut counts = Seq::new(alloc);
    counts.push((Name::new(alloc, b"M1")?, 4))?;
    counts.push((Name::new(alloc, b"M2")?, 0))?;
    counts.push((Name::new(alloc, b"-")?, 1))?;
    Ok(counts)
}

fn at(level: u8, x: i64, y: i64) -> Vertex {
    Vertex {
        level,
        point: Point { x, y },
    }
}

fn edge(kind: EdgeKind, to: Vertex) -> Edge {
    Edge { kind, to }
}

/// From (100, 100) on the lower level to (900, 500) on the upper one.
fn corner(alloc: Global) -> Result<Walk, Memory> {
    let edges = [
        edge(EdgeKind::Along, at(0, 900, 100)),
        edge(EdgeKind::Via(0), at(1, 900, 100)),
        edge(EdgeKind::Along, at(1, 900, 500)),
    ];
    Ok(Walk {
        start: Entry {
            vertex: at(0, 100, 100),
            kind: EntryKind::Pin { pin: 0 },
        },
        edges: Seq::from_vec(Vec::from_slice(alloc, &edges)?),
        finish: Entry {
            vertex: at(1, 900, 500),
            kind: EntryKind::Pin { pin: 1 },
        },
    })
}

/// What stands of a net with this wire between its two pins.
fn joined(alloc: Global, walk: Walk) -> Result<NetState, Memory> {
    Ok(NetState {
        walks: Seq::from_vec(vec![in alloc; walk]?),
        joined: Seq::from_vec(vec![in alloc; true, true]?),
        rips: 0,
        stuck: false,
    })
}

#[test]
fn one_wire(rt: HostRuntime) -> Result<(), Fail> {
    let alloc = rt.alloc();
    let chip = design(
        alloc,
        nets_of(alloc, &[NetKind::Routable])?,
        Seq::new(alloc),
    );
    let walk = corner(alloc)?;
    let state = State {
        nets: Seq::from_vec(vec![in alloc; joined(alloc, walk)?]?),
    };
    assert_eq!(rt; chip.nets.len(), state.nets.len());
    let text = report_of_state(alloc, &chip, &state, &[])?;
    let wanted =
        b"nets 1\njoined 1\nstuck 0\nunguided 0\nprewired 0\nsingle 0\nrips 0\nwire 1200\nvias 1\nskipped 0\n";
    assert_eq!(rt; text.as_slice(), wanted.as_slice());
    Ok(())
}

#[test]
fn kinds(rt: HostRuntime) -> Result<(), Fail> {
    let alloc = rt.alloc();
    let rows: [(&[NetKind], &[u8]); 4] = [
        (
            &[],
            b"nets 0\njoined 0\nstuck 0\nunguided 0\nprewired 0\nsingle 0\nrips 0\nwire 0\nvias 0\nskipped 5\nskipped-in M1 4\nskipped-in - 1\n",
        ),
        (
            &[NetKind::Routable],
            b"nets 1\njoined 0\nstuck 1\nunguided 0\nprewired 0\nsingle 0\nrips 0\nwire 0\nvias 0\nskipped 5\nskipped-in M1 4\nskipped-in - 1\nno-path n\n",
        ),
        (
            &[NetKind::Prewired, NetKind::Single, NetKind::Prewired],
            b"nets 3\njoined 0\nstuck 0\nunguided 0\nprewired 2\nsingle 1\nrips 0\nwire 0\nvias 0\nskipped 5\nskipped-in M1 4\nskipped-in - 1\n",
        ),
        (
            &[
                NetKind::Unguided,
                NetKind::Routable,
                NetKind::Unguided,
                NetKind::Single,
            ],
            b"nets 4\njoined 0\nstuck 1\nunguided 2\nprewired 0\nsingle 1\nrips 0\nwire 0\nvias 0\nskipped 5\nskipped-in M1 4\nskipped-in - 1\nno-path n\nunguided-net n\nunguided-net n\n",
        ),
    ];
    let journal = Journal::new(alloc);
    for (kinds, wanted) in rows {
        let chip = design(alloc, nets_of(alloc, kinds)?, skipped_counts(alloc)?);
        assert!(rt; journal.blocks().is_empty());
        let text = report(alloc, &chip, &journal)?;
        assert_eq!(rt; text.as_slice(), wanted);
    }
    Ok(())
}
