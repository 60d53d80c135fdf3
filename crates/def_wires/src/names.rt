//! Layers and vias by their names.
ghost use Rattle.std.specs.Prelude.{◌≡◌, ◌<◌, ◌^◌, ℕ, List, length, map, IfOk, OnOk, slice_get, option_copied};
ghost use Rattle.rt_base.specs.declared.tech.Layer.{Layer as ALayer};
ghost use Rattle.rt_base.specs.declared.tech.Via.{Via as AVia};
ghost use Rattle.def_wires.specs.Meaning.{joined_by};
ghost use Rattle.def_wires.specs.Names.{found_in, layer_named, via_named, or_else, here_if, KnowsLayers, AreNamesOf};

use crate::joined::joined_by;
use crate::wiring::Joined;
use rt_base::{Layer, Memory, Seq, Tech, Via};
use rt_forms::Names;
use std::alloc::Global;

/// Names, each with a number.
#[derive(Drop)]
pub struct Index {
    names: Names,
    places: Seq<u32>,
}

impl Index {
    /// No names. Takes no memory.
    fn new(alloc: Global) -> Index
        ensures names { (word : List ℕ) → found_in result word ≡ None }
        ensures paired { length result.names ≡ length result.places }
    {
        Index {
            names: Names::new(alloc),
            places: Seq::new(alloc),
        }
    }

    /// Adds a name with its number, unless the name is there.
    fn add(&mut self, alloc: Global, name: &[u8], place: u32) -> Result<(), Memory>
        requires { length self.old.names ≡ length self.old.places }
        ensures found { OnOk result ((word : List ℕ) → found_in self.new word ≡ or_else (found_in self.old word) (here_if word name.now place)) }
        ensures paired { OnOk result (length self.new.names ≡ length self.new.places) }
    {
        if self.names.add(alloc, name)? {
            self.places.push(place)?;
        }
        Ok(())
    }

    /// The number of a name.
    pub fn find(&self, name: &[u8]) -> Option<u32>
        ensures { result ≡ found_in self.now name.now }
    {
        match self.names.find(name) {
            None => None,
            Some(k) => self.places.as_slice().get(k).copied(),
        }
    }
}

/// The layers and vias of a technology by their names, and the routing layers that each via joins.
/// Made once for a technology; a look-up takes about the same time however many there are.
#[derive(Drop)]
pub struct TechNames {
    pub layers: Index,
    pub vias: Index,
    pub joined: Seq<Option<Joined>>,
}

/// The numbers of layers by their names. The last one is added first, and stays.
fn layer_index(alloc: Global, layers: &[Layer]) -> Result<Index, Memory>
    requires { length layers.now < 2 ^ 32 }
    ensures { IfOk result (λ index. (word : List ℕ) → found_in index word ≡ layer_named layers.now word) }
{
    let mut index = Index::new(alloc);
    let mut k = layers.len();
    'layers: while k > 0 {
        k -= 1;
        index.add(alloc, layers[k].name.bytes(), k as u32)?;
    }
    Ok(index)
}

/// The numbers of vias by their names. The last one is added first, and stays.
fn via_index(alloc: Global, vias: &[Via]) -> Result<Index, Memory>
    requires { length vias.now < 2 ^ 32 }
    ensures { IfOk result (λ index. (word : List ℕ) → found_in index word ≡ via_named vias.now word) }
{
    let mut index = Index::new(alloc);
    let mut k = vias.len();
    'vias: while k > 0 {
        k -= 1;
        index.add(alloc, vias[k].name.bytes(), k as u32)?;
    }
    Ok(index)
}

/// The routing layers that each via joins.
fn joined_of(alloc: Global, tech: &Tech) -> Result<Seq<Option<Joined>>, Memory>
    ensures { IfOk result (λ joined. joined ≡ map (λ (v : AVia). joined_by tech.now v.rects) tech.now.vias) }
{
    let mut joined = Seq::new(alloc);
    'vias: for via in tech.vias.as_slice() {
        joined.push(joined_by(tech, via.rects.as_slice()))?;
    }
    Ok(joined)
}

impl TechNames {
    /// The names of a technology.
    pub fn new(alloc: Global, tech: &Tech) -> Result<TechNames, Memory>
        requires layers { length tech.now.layers < 2 ^ 32 }
        requires vias { length tech.now.vias < 2 ^ 32 }
        ensures { IfOk result (λ names. AreNamesOf names tech.now) }
    {
        Ok(TechNames {
            layers: layer_index(alloc, tech.layers.as_slice())?,
            vias: via_index(alloc, tech.vias.as_slice())?,
            joined: joined_of(alloc, tech)?,
        })
    }
}
