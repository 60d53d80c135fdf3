//! The journal as a text, a line for each thing: which net got which walk, in which order.
#![tactic(auto)]

ghost use Rattle.std.specs.Prelude.{◌≡◌, ◌++◌, flat_map, IfOk, OnOk};
ghost use Rattle.journal_text.specs.Lines.{place_text, vertex_text, kind_text, entry_text, stroke_line, entry_line, walk_lines, net_line, ripped_text, ripped_line, wire_lines, rip_lines, block_lines, journal_lines};

use rt_base::{Entry, EntryKind, Memory, Point, Tech, Vertex, Walk};
use rt_text::Text;
use std::alloc::Global;
use track_graph::{Block, Design, Journal, Stroke, edge_strokes, layer_name, net_name, via_name};

/// `x y`.
fn place(text: &mut Text, point: Point) -> Result<(), Memory>
    ensures { OnOk result (text.new ≡ text.old ++ place_text point) }
{
    text.integer(point.x)?;
    text.bytes(b" ")?;
    text.integer(point.y)?;
    Ok(())
}

/// `layer x y`.
fn vertex(text: &mut Text, tech: &Tech, vertex: Vertex) -> Result<(), Memory>
    ensures { OnOk result (text.new ≡ text.old ++ vertex_text tech.now vertex) }
{
    text.bytes(layer_name(tech, vertex.level))?;
    text.bytes(b" ")?;
    place(text, vertex.point)
}

/// How a walk begins or ends.
fn kind(text: &mut Text, kind: EntryKind) -> Result<(), Memory>
    ensures { OnOk result (text.new ≡ text.old ++ kind_text kind) }
{
    match kind {
        EntryKind::Pin { pin } => {
            text.bytes(b"pin ")?;
            text.natural(u128::from(pin))
        }
        EntryKind::Stub { pin, rect } => {
            text.bytes(b"stub ")?;
            text.natural(u128::from(pin))?;
            text.bytes(b" ")?;
            text.natural(u128::from(rect))
        }
        EntryKind::Wire => text.bytes(b"wire"),
    }
}

/// `pin k layer x y`, `stub k r layer x y` or `wire layer x y`.
fn entry(text: &mut Text, tech: &Tech, entry: &Entry) -> Result<(), Memory>
    ensures { OnOk result (text.new ≡ text.old ++ entry_text tech.now entry.now) }
{
    kind(text, entry.kind)?;
    text.bytes(b" ")?;
    vertex(text, tech, entry.vertex)
}

/// A run to its end, or a via, on a line.
fn stroke(text: &mut Text, tech: &Tech, stroke: &Stroke) -> Result<(), Memory>
    ensures { OnOk result (text.new ≡ text.old ++ stroke_line tech.now stroke.now) }
{
    match stroke {
        Stroke::Run { b, .. } => {
            text.bytes(b"run ")?;
            place(text, *b)?;
            text.bytes(b"\n")
        }
        Stroke::Via { via, .. } => {
            text.bytes(b"via ")?;
            text.bytes(via_name(tech, *via))?;
            text.bytes(b"\n")
        }
    }
}

fn strokes(text: &mut Text, tech: &Tech, strokes: &[Stroke]) -> Result<(), Memory>
    ensures { OnOk result (text.new ≡ text.old ++ flat_map (stroke_line tech.now) strokes.now) }
{
    for next in strokes {
        stroke(text, tech, next)?;
    }
    Ok(())
}

/// A word and an entry, on a line.
fn entry_line(text: &mut Text, tech: &Tech, word: &[u8], at: &Entry) -> Result<(), Memory>
    ensures { OnOk result (text.new ≡ text.old ++ entry_line word.now tech.now at.now) }
{
    text.bytes(word)?;
    entry(text, tech, at)?;
    text.bytes(b"\n")
}

/// The lines of a walk.
fn walk(alloc: Global, text: &mut Text, tech: &Tech, walk: &Walk) -> Result<(), Memory>
    ensures { OnOk result (text.new ≡ text.old ++ walk_lines tech.now walk.now) }
{
    let runs = edge_strokes(alloc, walk.start.vertex, walk.edges.as_slice())?;
    entry_line(text, tech, b"from ", &walk.start)?;
    strokes(text, tech, &runs)?;
    entry_line(text, tech, b"to ", &walk.finish)?;
    Ok(())
}

/// A word and a net's name, on a line.
fn net_line(text: &mut Text, design: &Design, word: &[u8], net: u32) -> Result<(), Memory>
    ensures { OnOk result (text.new ≡ text.old ++ net_line word.now design.now net) }
{
    text.bytes(word)?;
    text.bytes(net_name(design, net))?;
    text.bytes(b"\n")
}

fn ripped(text: &mut Text, design: &Design, nets: &[u32]) -> Result<(), Memory>
    ensures { OnOk result (text.new ≡ text.old ++ flat_map (ripped_text design.now) nets.now) }
{
    for net in nets {
        ripped_net(text, design, *net)?;
    }
    Ok(())
}

/// A space and a net's name.
fn ripped_net(text: &mut Text, design: &Design, net: u32) -> Result<(), Memory>
    ensures { OnOk result (text.new ≡ text.old ++ ripped_text design.now net) }
{
    text.bytes(b" ")?;
    text.bytes(net_name(design, net))
}

/// `ripped` and the names of the nets, on a line.
fn ripped_line(text: &mut Text, design: &Design, nets: &[u32]) -> Result<(), Memory>
    ensures { OnOk result (text.new ≡ text.old ++ ripped_line design.now nets.now) }
{
    text.bytes(b"ripped")?;
    ripped(text, design, nets)?;
    text.bytes(b"\n")?;
    Ok(())
}

/// The lines of a wire of a net.
fn wire(
    alloc: Global,
    text: &mut Text,
    design: &Design,
    net: u32,
    wire: &Walk,
) -> Result<(), Memory>
    ensures { OnOk result (text.new ≡ text.old ++ wire_lines design.now net wire.now) }
{
    net_line(text, design, b"wire ", net)?;
    walk(alloc, text, &design.tech, wire)?;
    text.bytes(b"end\n")?;
    Ok(())
}

/// The lines of a wire for which other nets are ripped.
fn rip(
    alloc: Global,
    text: &mut Text,
    design: &Design,
    net: u32,
    soft: &Walk,
    nets: &[u32],
    wire: &Walk,
) -> Result<(), Memory>
    ensures { OnOk result (text.new ≡ text.old ++ rip_lines design.now net soft.now nets.now wire.now) }
{
    net_line(text, design, b"rip ", net)?;
    walk(alloc, text, &design.tech, soft)?;
    ripped_line(text, design, nets)?;
    walk(alloc, text, &design.tech, wire)?;
    text.bytes(b"end\n")?;
    Ok(())
}

/// The lines of a block.
fn block(alloc: Global, text: &mut Text, design: &Design, block: &Block) -> Result<(), Memory>
    ensures { OnOk result (text.new ≡ text.old ++ block_lines design.now block.now) }
{
    match block {
        Block::Wire { net, walk } => wire(alloc, text, design, *net, walk),
        Block::Stuck { net } => net_line(text, design, b"stuck ", *net),
        Block::RipFor {
            net,
            soft,
            ripped,
            walk,
        } => rip(alloc, text, design, *net, soft, ripped.as_slice(), walk),
    }
}

fn blocks(alloc: Global, text: &mut Text, design: &Design, blocks: &[Block]) -> Result<(), Memory>
    ensures { OnOk result (text.new ≡ text.old ++ flat_map (block_lines design.now) blocks.now) }
{
    for next in blocks {
        block(alloc, text, design, next)?;
    }
    Ok(())
}

/// The text of a journal of the design: `journal 1`, and then the lines of each block in order.
/// Names are the bytes of the input, numbers are plain decimal, and words stand one space apart.
pub fn print(alloc: Global, design: &Design, journal: &Journal) -> Result<Vec<u8>, Memory>
    ensures { IfOk result (λ text. text.items ≡ journal_lines design.now journal.now.blocks) }
{
    let mut text = Text::new(alloc);
    text.bytes(b"journal 1\n")?;
    blocks(alloc, &mut text, design, journal.blocks())?;
    Ok(text.into_vec())
}

#[cfg(test)]
mod tests;
