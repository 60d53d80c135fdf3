//! Guides by the names of their nets, and levels by the names of their layers.
ghost use Rattle.std.specs.Prelude.{◌≡◌, ◌≢◌, List, [], map, AllPairs, IfOk, slice_get, option_map, unwrap_or};
ghost use Rattle.rt_base.specs.declared.tech.Layer.{Layer};
ghost use Rattle.guide_text.specs.IsGuides.{Guide, AreGuides};
ghost use Rattle.net_guides.specs.NetGuides.{level_names as level_names_of};

use guide_text::Guides;
use rt_base::{Layer, Memory, Name, Rect, Seq};
use rt_forms::Names;
use std::alloc::Global;

/// The names of the levels, which are the routing layers bottom up, and of the nets that have a
/// guide. Look-ups take about the same time however many nets there are.
#[derive(Drop)]
pub struct NetGuides {
    pub levels: Names,
    pub nets: Names,
}

/// The names of the routing layers among these, bottom up.
fn level_names(alloc: Global, layers: &[Layer]) -> Result<Names, Memory>
    requires { AllPairs (λ a b. a ≢ b) (map (λ l. l.name) layers.now) }
    ensures { IfOk result (λ names. names ≡ level_names_of layers.now) }
{
    let mut names = Names::new(alloc);
    for layer in layers {
        if layer.routing {
            let _added = names.add(alloc, layer.name.bytes())?;
        }
    }
    Ok(names)
}

/// The names of the nets that have a guide, in order.
fn net_names(alloc: Global, nets: &[(Name, Seq<(Name, Rect)>)]) -> Result<Names, Memory>
    requires { AreGuides nets.now }
    ensures { IfOk result (λ names. names ≡ map (λ g. g.0) nets.now) }
{
    let mut names = Names::new(alloc);
    for (name, _boxes) in nets {
        let _added = names.add(alloc, name.bytes())?;
    }
    Ok(names)
}

/// The boxes of the guide with this number, none where there is no such guide.
fn boxes_at(guides: &Guides, number: usize) -> &[(Name, Rect)]
    ensures { result.now ≡ unwrap_or (option_map (λ g. g.1) (slice_get guides.now.nets number)) [] }
{
    match guides.nets.as_slice().get(number) {
        Some(net) => net.1.as_slice(),
        None => &[],
    }
}

impl NetGuides {
    ghost use Rattle.std.specs.Prelude.{◌≤◌, length, position, bytes_eq, option_and_then};
    ghost use Rattle.std.specs.List.{filter_map};
    ghost use Rattle.net_guides.specs.NetGuides.{box_among, is_guided, boxes_of};
    ghost use Rattle.net_guides.specs.Indexes.{IsIndexOf};

    /// The names of these layers and guides.
    pub fn new(alloc: Global, layers: &[Layer], guides: &Guides) -> Result<NetGuides, Memory>
        requires layers { AllPairs (λ a b. a ≢ b) (map (λ l. l.name) layers.now) }
        requires guides { AreGuides guides.now.nets }
        ensures { IfOk result (IsIndexOf layers.now guides.now.nets) }
    {
        Ok(NetGuides {
            levels: level_names(alloc, layers)?,
            nets: net_names(alloc, guides.nets.as_slice())?,
        })
    }

    /// Whether the guides have an entry of this name, perhaps one without boxes.
    pub fn is_guided(&self, name: &[u8]) -> bool
        ensures { (layers : List Layer) (guides : List Guide) → IsIndexOf layers guides self.now → result ≡ is_guided guides name.now }
    {
        self.nets.find(name).is_some()
    }

    /// The level of the routing layer with this name.
    fn level(&self, name: &[u8]) -> Option<u8>
        requires { length self.now.levels ≤ 256 }
        ensures { result ≡ position (bytes_eq name.now) self.now.levels }
    {
        match self.levels.find(name) {
            Some(level) => Some(level as u8),
            None => None,
        }
    }

    /// These boxes on their levels, without those on layers that are no routing layers.
    fn boxes_on(&self, alloc: Global, boxes: &[(Name, Rect)]) -> Result<Seq<(u8, Rect)>, Memory>
        requires { length self.now.levels ≤ 256 }
        ensures { IfOk result (λ found. found ≡ filter_map (box_among self.now.levels) boxes.now) }
    {
        let mut found = Seq::new(alloc);
        for (name, rect) in boxes {
            match self.level(name.bytes()) {
                Some(level) => {
                    found.push((level, *rect))?;
                }
                None => {}
            }
        }
        Ok(found)
    }

    /// The boxes of the net with this name, none where it has no guide.
    fn entry<'a>(&self, guides: &'a Guides, name: &[u8]) -> &'a [(Name, Rect)]
        ensures { result.now ≡ unwrap_or (option_map (λ g. g.1) (option_and_then (slice_get guides.now.nets) (position (bytes_eq name.now) self.now.nets))) [] }
    {
        match self.nets.find(name) {
            Some(number) => boxes_at(guides, number),
            None => &[],
        }
    }

    /// The boxes of the net with this name on their levels, without those on layers that are no
    /// routing layers; none where the net has no guide. `guides` are those that the names are of.
    pub fn boxes(
        &self,
        alloc: Global,
        guides: &Guides,
        name: &[u8],
    ) -> Result<Seq<(u8, Rect)>, Memory>
        requires { length self.now.levels ≤ 256 }
        ensures { IfOk result (λ boxes. (layers : List Layer) → IsIndexOf layers guides.now.nets self.now → boxes ≡ boxes_of layers guides.now.nets name.now) }
    {
        self.boxes_on(alloc, self.entry(guides, name))
    }
}
