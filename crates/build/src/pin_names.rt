//! The pins of the design by their names.
ghost use Rattle.std.specs.Prelude.{◌≡◌, IfOk, bytes_eq};
ghost use Rattle.std.specs.List.{list_any};
ghost use Rattle.def_text.specs.Defs.{AreNamedApart};
ghost use Rattle.build.specs.LookUps.{pin_names, pin_rects};

use def_text::IoPin;
use rt_base::{Memory, Name, Rect};
use rt_forms::Names;
use std::alloc::Global;

/// The names of these pins, in order.
pub fn names_of_pins(alloc: Global, pins: &[IoPin]) -> Result<Names, Memory>
    requires { AreNamedApart (λ p. p.name) pins.now }
    ensures { IfOk result (λ names. names ≡ pin_names pins.now) }
{
    let mut names = Names::new(alloc);
    for pin in pins {
        let _added = names.add(alloc, pin.name.bytes())?;
    }
    Ok(names)
}

/// Whether a name is one of these.
pub fn has_name(names: &Names, name: &[u8]) -> bool
    ensures { result ≡ list_any (bytes_eq name.now) names.now }
{
    names.find(name).is_some()
}

/// The rectangles of the pin with this name, none where there is no such pin.
pub fn rects_of<'a>(names: &Names, pins: &'a [IoPin], name: &[u8]) -> &'a [(Name, Rect)]
    requires { names.now ≡ pin_names pins.now }
    ensures { result.now ≡ pin_rects pins.now name.now }
{
    match names.find(name) {
        Some(k) => pins[k].rects.as_slice(),
        None => &[],
    }
}
