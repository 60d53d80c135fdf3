//! Copies of what a design keeps.
ghost use Rattle.std.specs.Prelude.{◌≡◌, ◌++◌, IfOk, OnOk};

use rt_base::{Layer, LayerNo, Memory, Name, Rect, Seq, SpacingTable, Via};
use std::alloc::Global;

pub fn copy_name(alloc: Global, name: &Name) -> Result<Name, Memory>
    ensures { IfOk result (λ n. n ≡ name.now) }
{
    Name::new(alloc, name.bytes())
}

fn copy_numbers(alloc: Global, numbers: &[i64]) -> Result<Seq<i64>, Memory>
    ensures { IfOk result (λ s. s ≡ numbers.now) }
{
    Ok(Seq::from_vec(Vec::from_slice(alloc, numbers)?))
}

fn copy_rows(alloc: Global, rows: &[(i64, Seq<i64>)]) -> Result<Seq<(i64, Seq<i64>)>, Memory>
    ensures { IfOk result (λ s. s ≡ rows.now) }
{
    let mut copy = Seq::new(alloc);
    for (width, spacings) in rows {
        copy.push((*width, copy_numbers(alloc, spacings.as_slice())?))?;
    }
    Ok(copy)
}

fn copy_layer(alloc: Global, layer: &Layer) -> Result<Layer, Memory>
    ensures { IfOk result (λ l. l ≡ layer.now) }
{
    Ok(Layer {
        name: copy_name(alloc, &layer.name)?,
        routing: layer.routing,
        horizontal: layer.horizontal,
        width: layer.width,
        spacing: layer.spacing,
        table: SpacingTable {
            lengths: copy_numbers(alloc, layer.table.lengths.as_slice())?,
            rows: copy_rows(alloc, layer.table.rows.as_slice())?,
        },
    })
}

pub fn copy_layers(alloc: Global, layers: &[Layer]) -> Result<Seq<Layer>, Memory>
    ensures { IfOk result (λ s. s ≡ layers.now) }
{
    let mut copy = Seq::new(alloc);
    for layer in layers {
        copy.push(copy_layer(alloc, layer)?)?;
    }
    Ok(copy)
}

pub fn copy_metals(
    alloc: Global,
    metals: &[(LayerNo, Rect)],
) -> Result<Seq<(LayerNo, Rect)>, Memory>
    ensures { IfOk result (λ s. s ≡ metals.now) }
{
    Ok(Seq::from_vec(Vec::from_slice(alloc, metals)?))
}

fn copy_via(alloc: Global, via: &Via) -> Result<Via, Memory>
    ensures { IfOk result (λ v. v ≡ via.now) }
{
    Ok(Via {
        name: copy_name(alloc, &via.name)?,
        usable: via.usable,
        rects: copy_metals(alloc, via.rects.as_slice())?,
    })
}

pub fn copy_vias(alloc: Global, vias: &[Via]) -> Result<Seq<Via>, Memory>
    ensures { IfOk result (λ s. s ≡ vias.now) }
{
    let mut copy = Seq::new(alloc);
    for via in vias {
        copy.push(copy_via(alloc, via)?)?;
    }
    Ok(copy)
}

pub fn copy_counts(alloc: Global, counts: &[(Name, u32)]) -> Result<Seq<(Name, u32)>, Memory>
    ensures { IfOk result (λ s. s ≡ counts.now) }
{
    let mut copy = Seq::new(alloc);
    for (name, count) in counts {
        copy.push((copy_name(alloc, name)?, *count))?;
    }
    Ok(copy)
}
