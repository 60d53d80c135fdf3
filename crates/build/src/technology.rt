//! The technology: LEF's layers, and the vias of LEF and of DEF with those that routing may use.
ghost use Rattle.std.specs.Prelude.{◌≡◌, ◌≤◌, ◌<◌, ◌+◌, ◌^◌, All, length, IfOk};
ghost use Rattle.std.specs.List.{AllZip};
ghost use Rattle.rt_base.specs.declared.tech.Via.{Via as AVia};
ghost use Rattle.track_graph.specs.Designs.{IsTech};
ghost use Rattle.lef_text.specs.IsLef.{IsLef};
ghost use Rattle.def_wires.specs.Sound.{IsOn};
ghost use Rattle.build.specs.Built.{IsViaSaid};
ghost use Rattle.build.specs.TrackLines.{routing_layers};

use crate::copies::{copy_layers, copy_metals, copy_name};
use lef_text::Lef;
use rt_base::{Memory, Seq, Tech, Via};
use std::alloc::Global;
use track_graph::is_usable;

/// The technology without vias.
fn bare(alloc: Global, lef: &Lef) -> Result<Tech, Memory>
    requires lef { IsLef lef.now }
    requires few { length (routing_layers lef.now.layers) ≤ 16 }
    ensures layers { IfOk result (λ t. t.layers ≡ lef.now.layers) }
    ensures fits { IfOk result IsTech }
{
    Ok(Tech {
        layers: copy_layers(alloc, lef.layers.as_slice())?,
        vias: Seq::new(alloc),
    })
}

/// A via, with whether routing may use it.
fn via(alloc: Global, tech: &Tech, said: &Via) -> Result<Via, Memory>
    requires { IsTech tech.now }
    ensures { IfOk result (IsViaSaid tech.now said.now) }
{
    let rects = said.rects.as_slice();
    Ok(Via {
        name: copy_name(alloc, &said.name)?,
        usable: said.usable && is_usable(tech, rects),
        rects: copy_metals(alloc, rects)?,
    })
}

fn vias(alloc: Global, tech: &Tech, said: &[Via]) -> Result<Seq<Via>, Memory>
    requires { IsTech tech.now }
    ensures { IfOk result (AllZip (IsViaSaid tech.now) said.now) }
{
    let mut vias = Seq::new(alloc);
    for each in said {
        vias.push(via(alloc, tech, each)?)?;
    }
    Ok(vias)
}

/// The technology: LEF's layers, and these vias.
pub fn technology(alloc: Global, lef: &Lef, said: &[Via]) -> Result<Tech, Memory>
    requires lef { IsLef lef.now }
    requires few { length (routing_layers lef.now.layers) ≤ 16 }
    requires count { length said.now < 2 ^ 32 }
    requires on { All (λ (v : AVia). All (IsOn (length lef.now.layers) (2 ^ 60 + 2 ^ 30)) v.rects) said.now }
    ensures layers { IfOk result (λ t. t.layers ≡ lef.now.layers) }
    ensures vias { IfOk result (λ t. AllZip (IsViaSaid t) said.now t.vias) }
    ensures fits { IfOk result IsTech }
{
    let mut tech = bare(alloc, lef)?;
    tech.vias = vias(alloc, &tech, said)?;
    Ok(tech)
}
