//! Layers by name, and shapes on them.
ghost use Rattle.std.specs.Prelude.{◌≡◌, IfErr, OnOk};
ghost use Rattle.rt_forms.specs.Clauses.{Reads};
ghost use Rattle.rt_forms.specs.Form.{one};
ghost use Rattle.lef_text.specs.declared.error.LefError.TheVariants.{Memory as OutOfMemory};
ghost use Rattle.lef_text.specs.Faults.{lef_faults};
ghost use Rattle.lef_text.specs.OnLayers.{layer_number as layer_number_form, layer_word as layer_word_form, with_shape, with_shapes};

use crate::error::LefError;
use crate::library::Library;
use crate::numbers::Words;
use rt_base::{LayerNo, Name, Rect, Seq};
use std::alloc::Global;

/// The number of a layer by its name, `Some(None)` where it is dropped.
fn layer_number(lib: &Library, name: &[u8]) -> Option<Option<LayerNo>>
    ensures { result ≡ layer_number_form lib.now.layer_names lib.now.numbers name.now }
{
    match lib.layer_names.find(name) {
        None => None,
        Some(k) => lib.numbers.as_slice().get(k).copied(),
    }
}

/// Takes the name of a layer before.
pub fn layer_word(
    alloc: Global,
    words: &mut Words,
    lib: &Library,
) -> Result<Option<LayerNo>, LefError>
    ensures { Reads lef_faults (λ x. x) result words.old words.new (one (layer_word_form lib.now)) }
{
    let name = words.next()?;
    if !name.is_name() {
        return Err(LefError::Expected { line: name.line });
    }
    match layer_number(lib, name.bytes) {
        Some(layer) => Ok(layer),
        None => Err(LefError::NoLayer {
            line: name.line,
            name: Name::new(alloc, name.bytes)?,
        }),
    }
}

/// Adds a shape, unless its layer is dropped.
pub fn add_shape(
    shapes: &mut Seq<(LayerNo, Rect)>,
    layer: Option<LayerNo>,
    rect: Rect,
) -> Result<(), LefError>
    ensures ok { OnOk result (shapes.new ≡ with_shape shapes.old layer rect) }
    ensures err { IfErr result (λ e. e ≡ OutOfMemory) }
{
    match layer {
        None => Ok(()),
        Some(layer) => {
            shapes.push((layer, rect))?;
            Ok(())
        }
    }
}

/// Adds the rectangles of a polygon, unless its layer is dropped.
pub fn add_shapes(
    shapes: &mut Seq<(LayerNo, Rect)>,
    layer: Option<LayerNo>,
    rects: &[Rect],
) -> Result<(), LefError>
    ensures ok { OnOk result (shapes.new ≡ with_shapes shapes.old layer rects.now) }
    ensures err { IfErr result (λ e. e ≡ OutOfMemory) }
{
    for rect in rects {
        add_shape(shapes, layer, *rect)?;
    }
    Ok(())
}
