//! The two routing layers that a via joins.
ghost use Rattle.std.specs.Prelude.{◌≡◌};
ghost use Rattle.def_wires.specs.Meaning.{is_routing, with_layer, with_metal, the_two, reach_of, joined_by, other_of, beyond};

use crate::wiring::Joined;
use rt_base::{LayerNo, Rect, Tech};

/// The routing layers on which there are rectangles, as far as two are told apart.
#[derive(Clone, Copy, Debug, PartialEq, Eq)]
pub enum Reach {
    Nowhere,
    One(u32),
    Two(u32, u32),
    More,
}

impl Reach {
    /// With one more layer.
    fn with_layer(self, k: u32) -> Reach
        ensures { result ≡ with_layer self k }
    {
        match self {
            Reach::Nowhere => Reach::One(k),
            Reach::One(n) => {
                if k == n {
                    return Reach::One(n);
                }
                if k < n {
                    Reach::Two(k, n)
                } else {
                    Reach::Two(n, k)
                }
            }
            Reach::Two(lower, upper) => {
                if k == lower || k == upper {
                    Reach::Two(lower, upper)
                } else {
                    Reach::More
                }
            }
            Reach::More => Reach::More,
        }
    }

    /// The two layers, where there are exactly two.
    fn the_two(self) -> Option<Joined>
        ensures { result ≡ the_two self }
    {
        match self {
            Reach::Two(lower, upper) => Some(Joined {
                lower: LayerNo(lower),
                upper: LayerNo(upper),
            }),
            Reach::Nowhere | Reach::One(_) | Reach::More => None,
        }
    }
}

/// Whether a layer is a routing layer.
pub fn is_routing(tech: &Tech, layer: LayerNo) -> bool
    ensures { result ≡ is_routing tech.now layer.0 }
{
    match tech.layers.as_slice().get(layer.0 as usize) {
        None => false,
        Some(found) => found.routing,
    }
}

/// With one more rectangle.
fn with_metal(tech: &Tech, reach: Reach, metal: &(LayerNo, Rect)) -> Reach
    ensures { result ≡ with_metal tech.now reach metal.now }
{
    if is_routing(tech, metal.0) {
        return reach.with_layer(metal.0.0);
    }
    reach
}

/// The two routing layers on which there are rectangles, None where they aren't exactly two.
pub fn joined_by(tech: &Tech, rects: &[(LayerNo, Rect)]) -> Option<Joined>
    ensures { result ≡ joined_by tech.now rects.now }
{
    let mut reach = Reach::Nowhere;
    for metal in rects {
        reach = with_metal(tech, reach, metal);
    }
    reach.the_two()
}

impl Joined {
    /// The one of the two that isn't this one, None where neither is.
    pub fn other(self, layer: LayerNo) -> Option<LayerNo>
        ensures { result ≡ other_of self layer }
    {
        if layer == self.lower {
            return Some(self.upper);
        }
        if layer == self.upper {
            return Some(self.lower);
        }
        None
    }
}

/// The layer behind a via.
pub fn beyond(joined: Option<Joined>, layer: LayerNo) -> LayerNo
    ensures { result ≡ beyond joined layer }
{
    match joined {
        None => layer,
        Some(joined) => match joined.other(layer) {
            None => layer,
            Some(other) => other,
        },
    }
}
