//! Macros, their pins and components by name.
ghost use Rattle.std.specs.Prelude.{◌≡◌, IfOk, slice_get, option_and_then};
ghost use Rattle.std.specs.Option.{option_copied};
ghost use Rattle.std.specs.List.{AllZip};
ghost use Rattle.cells.specs.Firsts.{ArePlaces};
ghost use Rattle.cells.specs.Indexes.{ArePinsOf};

use crate::firsts::Firsts;
use crate::places::placed_rects;
use def_text::Component;
use lef_text::Macro;
use rt_base::{LayerNo, Memory, Name, Rect, Seq};
use std::alloc::Global;

/// The places of macros, of the pins of each macro, and of components, by name.
#[derive(Drop)]
pub struct CellIndex {
    pub macros: Firsts<usize>,
    pub pins: Seq<Firsts<usize>>,
    pub components: Firsts<usize>,
}

fn macros_by_name(alloc: Global, macros: &[Macro]) -> Result<Firsts<usize>, Memory>
    ensures { IfOk result (ArePlaces (λ m. m.name) macros.now) }
{
    let mut places = Firsts::new(alloc);
    for (place, each) in macros.iter().enumerate() {
        places.claim(alloc, each.name.bytes(), place)?;
    }
    Ok(places)
}

fn components_by_name(alloc: Global, components: &[Component]) -> Result<Firsts<usize>, Memory>
    ensures { IfOk result (ArePlaces (λ c. c.name) components.now) }
{
    let mut places = Firsts::new(alloc);
    for (place, component) in components.iter().enumerate() {
        places.claim(alloc, component.name.bytes(), place)?;
    }
    Ok(places)
}

fn pins_by_name(
    alloc: Global,
    pins: &[(Name, Seq<(LayerNo, Rect)>)],
) -> Result<Firsts<usize>, Memory>
    ensures { IfOk result (ArePlaces (λ p. p.0) pins.now) }
{
    let mut places = Firsts::new(alloc);
    for (place, pin) in pins.iter().enumerate() {
        places.claim(alloc, pin.0.bytes(), place)?;
    }
    Ok(places)
}

fn pins_of_macros(alloc: Global, macros: &[Macro]) -> Result<Seq<Firsts<usize>>, Memory>
    ensures { IfOk result (AllZip ArePinsOf macros.now) }
{
    let mut pins = Seq::new(alloc);
    for each in macros {
        pins.push(pins_by_name(alloc, each.pins.as_slice())?)?;
    }
    Ok(pins)
}

/// The item at a place, if there is one.
fn item_at<T>(items: &[T], place: Option<usize>) -> Option<&T>
    ensures { option_copied result ≡ option_and_then (slice_get items.now) place }
{
    match place {
        Some(k) => items.get(k),
        None => None,
    }
}

impl CellIndex {
    ghost use Rattle.std.specs.Prelude.{[], All, unwrap_or, is_some};
    ghost use Rattle.def_text.specs.Defs.{IsComponent};
    ghost use Rattle.cells.specs.Cells.{macro_of, component_of, pin_in, cell_pin};
    ghost use Rattle.cells.specs.Indexes.{AreCells};
    ghost use Rattle.cells.specs.Ranges.{IsPlaceable};

    /// The look-ups of these macros and components.
    pub fn new(
        alloc: Global,
        macros: &[Macro],
        components: &[Component],
    ) -> Result<CellIndex, Memory>
        ensures { IfOk result (AreCells macros.now components.now) }
    {
        Ok(CellIndex {
            macros: macros_by_name(alloc, macros)?,
            pins: pins_of_macros(alloc, macros)?,
            components: components_by_name(alloc, components)?,
        })
    }

    /// The macro of a name.
    pub fn macro_of<'a>(&self, macros: &'a [Macro], name: &[u8]) -> Option<&'a Macro>
        requires { ArePlaces (λ m. m.name) macros.now self.now.macros }
        ensures { option_copied result ≡ macro_of macros.now name.now }
    {
        item_at(macros, self.macros.find(name))
    }

    /// The component of a name.
    pub fn component_of<'a>(
        &self,
        components: &'a [Component],
        name: &[u8],
    ) -> Option<&'a Component>
        requires { ArePlaces (λ c. c.name) components.now self.now.components }
        ensures { option_copied result ≡ component_of components.now name.now }
    {
        item_at(components, self.components.find(name))
    }

    /// The pin of a name in the macro of a name.
    fn pin_in<'a>(
        &self,
        macros: &'a [Macro],
        of: &[u8],
        pin: &[u8],
    ) -> Option<&'a (Name, Seq<(LayerNo, Rect)>)>
        requires macros { ArePlaces (λ m. m.name) macros.now self.now.macros }
        requires pins { AllZip ArePinsOf macros.now self.now.pins }
        ensures { option_copied result ≡ option_and_then (pin_in pin.now) (macro_of macros.now of.now) }
    {
        match self.macros.find(of) {
            Some(k) => item_at(macros[k].pins.as_slice(), self.pins.as_slice()[k].find(pin)),
            None => None,
        }
    }

    /// Whether the component that a connection names has a macro with the pin that it names.
    pub fn has_pin(
        &self,
        macros: &[Macro],
        components: &[Component],
        connection: &(Name, Name),
    ) -> bool
        requires { AreCells macros.now components.now self.now }
        ensures { result ≡ is_some (cell_pin macros.now components.now connection.now) }
    {
        match self.component_of(components, connection.0.bytes()) {
            Some(component) => self
                .pin_in(macros, component.of.bytes(), connection.1.bytes())
                .is_some(),
            None => false,
        }
    }

    /// The rectangles of the pin that a connection to a component names, none where there is no such
    /// pin.
    pub fn pin_rects(
        &self,
        alloc: Global,
        macros: &[Macro],
        components: &[Component],
        connection: &(Name, Name),
    ) -> Result<Vec<(LayerNo, Rect)>, Memory>
        requires index { AreCells macros.now components.now self.now }
        requires macros { All IsPlaceable macros.now }
        requires components { All IsComponent components.now }
        ensures { IfOk result (λ v. v.items ≡ unwrap_or (cell_pin macros.now components.now connection.now) []) }
    {
        let Some(component) = self.component_of(components, connection.0.bytes()) else {
            return Ok(Vec::new(alloc));
        };
        let Some(of) = self.macro_of(macros, component.of.bytes()) else {
            return Ok(Vec::new(alloc));
        };
        match self.pin_in(macros, component.of.bytes(), connection.1.bytes()) {
            Some(pin) => placed_rects(alloc, of, component.placed, pin.1.as_slice()),
            None => Ok(Vec::new(alloc)),
        }
    }
}
