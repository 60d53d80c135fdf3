//! How far the pins of a net lie apart.
ghost use Rattle.std.specs.Prelude.{◌≡◌, None, Some, fold, flat_map};
ghost use Rattle.ripup.specs.Hulls.{with_rect, with_pin, with_sides};
ghost use Rattle.track_graph.specs.Orders.{hull_extent, half_perimeter};

use rt_base::{LayerNo, Rect};
use track_graph::{Net, Pin};

/// The hull of a rectangle and of what there is already.
fn joined(hull: Option<Rect>, rect: Rect) -> Rect
    ensures { result ≡ with_sides hull rect }
{
    match hull {
        None => rect,
        Some(hull) => hull.join(rect),
    }
}

/// The hull of these rectangles and of what there is already.
fn hull_with_rects(hull: Option<Rect>, rects: &[(LayerNo, Rect)]) -> Option<Rect>
    ensures { result ≡ fold with_rect hull rects.now }
{
    let mut hull = hull;
    for rect in rects {
        hull = Some(joined(hull, rect.1));
    }
    hull
}

/// The hull of the rectangles of these pins, where there is one.
fn hull_of_pins(pins: &[Pin]) -> Option<Rect>
    ensures { result ≡ fold with_pin None pins.now }
{
    let mut hull = None;
    for pin in pins {
        hull = hull_with_rects(hull, pin.rects.as_slice());
    }
    hull
}

/// Half the perimeter of the hull of the rectangles of a net's pins, 0 where there is none. In 128
/// bits no sum is too large.
pub(crate) fn extent(net: &Net) -> u128
    ensures { result ≡ hull_extent (flat_map (λ pin. pin.rects) net.now.pins) }
{
    match hull_of_pins(net.pins.as_slice()) {
        None => 0,
        Some(hull) => {
            u128::from(hull.xh.abs_diff(hull.xl)) + u128::from(hull.yh.abs_diff(hull.yl))
        }
    }
}
