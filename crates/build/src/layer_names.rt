//! The layers of LEF by their names.
ghost use Rattle.std.specs.Prelude.{◌≡◌, ℕ, List, ◌<◌, ◌^◌, length, map, IfOk, option_map, bytes_eq};
ghost use Rattle.std.specs.List.{list_any};
ghost use Rattle.lef_text.specs.IsLef.{AreDistinct};

use crate::pin_names::has_name;
use lef_text::Lef;
use rt_base::{Layer, LayerNo, Memory, Name, Rect};
use rt_forms::Names;
use std::alloc::Global;

/// The names of LEF's layers: of those that hold shapes, bottom up, and of the others.
#[derive(Drop)]
pub struct LayerNames {
    pub shaped: Names,
    pub dropped: Names,
}

/// The names of these layers, in order.
fn shaped_names(alloc: Global, layers: &[Layer]) -> Result<Names, Memory>
    requires { AreDistinct (map (λ l. l.name) layers.now) }
    ensures { IfOk result (λ names. names ≡ map (λ l. l.name) layers.now) }
{
    let mut names = Names::new(alloc);
    for layer in layers {
        let _added = names.add(alloc, layer.name.bytes())?;
    }
    Ok(names)
}

/// These names, each once.
fn names_once(alloc: Global, all: &[Name]) -> Result<Names, Memory>
    ensures { IfOk result (λ names. (q : List ℕ) → list_any (bytes_eq q) names ≡ list_any (bytes_eq q) all.now) }
{
    let mut names = Names::new(alloc);
    for name in all {
        let _added = names.add(alloc, name.bytes())?;
    }
    Ok(names)
}

impl LayerNames {
    ghost use Rattle.lef_text.specs.IsLef.{IsLef};
    ghost use Rattle.build.specs.LookUps.{layer_number, is_known, metals_of, layer_no_of};
    ghost use Rattle.build.specs.Indexes.{AreLayerNames};

    /// The names of LEF's layers.
    pub fn new(alloc: Global, lef: &Lef) -> Result<LayerNames, Memory>
        requires { IsLef lef.now }
        ensures { IfOk result (AreLayerNames lef.now) }
    {
        Ok(LayerNames {
            shaped: shaped_names(alloc, lef.layers.as_slice())?,
            dropped: names_once(alloc, lef.dropped.as_slice())?,
        })
    }

    /// The number of the layer with this name, if it holds shapes.
    fn number(&self, name: &[u8]) -> Option<LayerNo>
        requires { length self.now.shaped < 2 ^ 32 }
        ensures { result ≡ option_map layer_no_of (layer_number self.now name.now) }
    {
        match self.shaped.find(name) {
            Some(k) => Some(LayerNo(k as u32)),
            None => None,
        }
    }

    /// Whether LEF has a layer of this name.
    pub fn knows(&self, name: &[u8]) -> bool
        ensures { result ≡ is_known self.now name.now }
    {
        has_name(&self.shaped, name) || has_name(&self.dropped, name)
    }

    /// These rectangles, without those on layers that hold no shapes.
    pub fn metals(
        &self,
        alloc: Global,
        rects: &[(Name, Rect)],
    ) -> Result<Vec<(LayerNo, Rect)>, Memory>
        requires { length self.now.shaped < 2 ^ 32 }
        ensures { IfOk result (λ v. v.items ≡ metals_of self.now rects.now) }
    {
        let mut metals = Vec::new(alloc);
        for (name, rect) in rects {
            match self.number(name.bytes()) {
                Some(layer) => {
                    metals.push((layer, *rect))?;
                }
                None => {}
            }
        }
        Ok(metals)
    }
}
