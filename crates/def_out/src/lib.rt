//! The routed DEF: the DEF text with each net's wires before its closing `;`.
#![tactic(auto)]

ghost use Rattle.std.specs.Prelude.{◌≡◌, ◌++◌, ◌∷◌, ◌<◌, flat_map, length, All, IfOk, OnOk};
ghost use Rattle.track_graph.specs.Conditions.{IsStateOf};
ghost use Rattle.track_graph.specs.Designs.{IsDesign};
ghost use Rattle.track_graph.specs.NetWalks.{IsNetWalk};
ghost use Rattle.track_graph.specs.Strokes.{walk_strokes};
ghost use Rattle.def_out.specs.Conditions.{AreCloses};
ghost use Rattle.def_out.specs.Wiring.{run_text, via_text, stroke_text, further_text, wiring_text, routed_def};

use rt_base::{Memory, Point, Tech, Walk};
use rt_text::Text;
use std::alloc::Global;
use track_graph::{Design, NetState, State, Stroke, layer_name, strokes, via_layer_name, via_name};

/// `layer ( x y ) ( x y )`.
fn run(text: &mut Text, layer: &[u8], a: Point, b: Point) -> Result<(), Memory>
    ensures { OnOk result (text.new ≡ text.old ++ run_text layer.now a b) }
{
    text.bytes(layer)?;
    text.bytes(b" ")?;
    text.point(a.x, a.y)?;
    text.bytes(b" ")?;
    text.point(b.x, b.y)?;
    Ok(())
}

/// `layer ( x y ) via`.
fn via(text: &mut Text, layer: &[u8], point: Point, name: &[u8]) -> Result<(), Memory>
    ensures { OnOk result (text.new ≡ text.old ++ via_text layer.now point name.now) }
{
    text.bytes(layer)?;
    text.bytes(b" ")?;
    text.point(point.x, point.y)?;
    text.bytes(b" ")?;
    text.bytes(name)?;
    Ok(())
}

/// A run by its level's layer, or a via by its lower routing layer.
fn stroke(text: &mut Text, tech: &Tech, stroke: &Stroke) -> Result<(), Memory>
    ensures { OnOk result (text.new ≡ text.old ++ stroke_text tech.now stroke.now) }
{
    match stroke {
        Stroke::Run { level, a, b } => run(text, layer_name(tech, *level), *a, *b),
        Stroke::Via { via: number, point } => {
            let layer = via_layer_name(tech, *number);
            via(text, layer, *point, via_name(tech, *number))
        }
    }
}

/// Each on a line of its own, behind `NEW`.
fn further(text: &mut Text, tech: &Tech, strokes: &[Stroke]) -> Result<(), Memory>
    ensures { OnOk result (text.new ≡ text.old ++ flat_map (further_text tech.now) strokes.now) }
{
    for next in strokes {
        text.bytes(b"\n    NEW ")?;
        stroke(text, tech, next)?;
    }
    Ok(())
}

/// The wiring of a first stroke and of the others.
fn some_wiring(
    text: &mut Text,
    tech: &Tech,
    first: &Stroke,
    others: &[Stroke],
) -> Result<(), Memory>
    ensures { OnOk result (text.new ≡ text.old ++ wiring_text tech.now (first.now ∷ others.now)) }
{
    text.bytes(b"\n  + ROUTED ")?;
    stroke(text, tech, first)?;
    further(text, tech, others)?;
    text.bytes(b"\n")?;
    Ok(())
}

/// The wiring of these strokes, nothing where there are none.
fn wiring(text: &mut Text, tech: &Tech, strokes: &[Stroke]) -> Result<(), Memory>
    ensures { OnOk result (text.new ≡ text.old ++ wiring_text tech.now strokes.now) }
{
    match strokes.split_first() {
        Some((first, others)) => some_wiring(text, tech, first, others),
        None => Ok(()),
    }
}

/// The strokes of walks of a net, one walk after another.
fn all_strokes(
    alloc: Global,
    design: &Design,
    net: u32,
    walks: &[Walk],
) -> Result<Vec<Stroke>, Memory>
    requires design { IsDesign design.now }
    requires walks { All (IsNetWalk design.now net) walks.now }
    ensures { IfOk result (λ all. all.items ≡ flat_map (walk_strokes design.now net) walks.now) }
{
    let mut all = Vec::new(alloc);
    for walk in walks {
        let next = strokes(alloc, design, net, walk)?;
        all.extend_from_slice(&next)?;
    }
    Ok(all)
}

/// The wiring of a net's standing walks.
fn net_wiring(
    alloc: Global,
    text: &mut Text,
    design: &Design,
    net: u32,
    state: &NetState,
) -> Result<(), Memory>
    requires design { IsDesign design.now }
    requires walks { All (IsNetWalk design.now net) state.now.walks }
    ensures { OnOk result (text.new ≡ text.old ++ wiring_text design.now.tech (flat_map (walk_strokes design.now net) state.now.walks)) }
{
    let all = all_strokes(alloc, design, net, state.walks.as_slice())?;
    wiring(text, &design.tech, &all)
}

/// The DEF text with the wiring of each net's standing walks before the net's closing `;`, where
/// there is any (DEF NETS, regular wiring). All other bytes stay as they are. The text is the one
/// that the design was read from. The only error is want of memory.
pub fn write_def(
    alloc: Global,
    text: &[u8],
    design: &Design,
    state: &State,
) -> Result<Vec<u8>, Memory>
    requires design { IsDesign design.now }
    requires state { IsStateOf design.now state.now }
    requires closes { AreCloses text.now design.now.nets }
    ensures { IfOk result (λ out. out.items ≡ routed_def text.now design.now state.now) }
{
    let states = state.nets.as_slice();
    let nets = design.nets.as_slice();
    let mut out = Text::new(alloc);
    let mut from = 0;
    for (i, net) in nets.iter().enumerate() {
        let close = net.close as usize;
        out.bytes(&text[from..close])?;
        net_wiring(alloc, &mut out, design, i as u32, &states[i])?;
        from = close;
    }
    out.bytes(&text[from..])?;
    Ok(out.into_vec())
}

#[cfg(test)]
mod tests;
