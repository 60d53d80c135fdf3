//! Names and vias by their numbers.
ghost use Rattle.std.specs.Prelude.{◌≡◌, ◌==◌};
ghost use Rattle.std.specs.List.{list_any};
ghost use Rattle.track_graph.specs.Entries.{net_name_of};
ghost use Rattle.track_graph.specs.Searches.{guide_of};
ghost use Rattle.track_graph.specs.Metal.{Metal, via_rects, via_name_of, via_level_name};

use crate::design::Design;
use rt_base::{LayerNo, Rect, Tech};

/// The name of a net, empty where there is no such net. Takes no memory.
pub fn net_name(design: &Design, net: u32) -> &[u8]
    ensures { result.now ≡ net_name_of design.now net }
{
    match design.nets.as_slice().get(net as usize) {
        Some(net) => net.name.bytes(),
        None => &[],
    }
}

/// The boxes of a net's guide, each with its level, none where there is no such net. Takes no memory.
pub fn guide_of(design: &Design, net: u32) -> &[(u8, Rect)]
    ensures { result.now ≡ guide_of design.now net }
{
    match design.nets.as_slice().get(net as usize) {
        Some(net) => net.guide.as_slice(),
        None => &[],
    }
}

/// The name of a via, empty where there is no such via. Takes no memory.
pub fn via_name(tech: &Tech, via: u32) -> &[u8]
    ensures { result.now ≡ via_name_of tech.now via }
{
    match tech.vias.as_slice().get(via as usize) {
        Some(via) => via.name.bytes(),
        None => &[],
    }
}

/// The rectangles of a via round (0, 0), each on a layer, none where there is no such via. Takes no memory.
pub fn via_rects(tech: &Tech, via: u32) -> &[(LayerNo, Rect)]
    ensures { result.now ≡ via_rects tech.now via }
{
    match tech.vias.as_slice().get(via as usize) {
        Some(via) => via.rects.as_slice(),
        None => &[],
    }
}

/// Whether one of these is on the layer with this number.
fn is_on_layer(rects: &[(LayerNo, Rect)], layer: usize) -> bool
    ensures { result ≡ list_any (λ (r : Metal). r.0.0 == layer) rects.now }
{
    rects.iter().any(|r| r.0.0 as usize == layer)
}

/// The name of the lowest routing layer on which a via has a rectangle, empty where there is none.
/// Takes no memory.
pub fn via_layer_name(tech: &Tech, via: u32) -> &[u8]
    ensures { result.now ≡ via_level_name tech.now via }
{
    let rects = via_rects(tech, via);
    let layers = tech.layers.as_slice();
    for (i, layer) in layers.iter().enumerate() {
        if layer.routing && is_on_layer(rects, i) {
            return layer.name.bytes();
        }
    }
    &[]
}
