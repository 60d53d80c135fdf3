//! Look-ups of guides by the names of nets.
ghost use Rattle.std.specs.Prelude.{[], map, option_map, unwrap_or, IfOk, IfSome};
ghost use Rattle.std.specs.Option.{option_copied};
ghost use Rattle.lef_text.specs.IsLef.{AreDistinct};
ghost use Rattle.guide_text.specs.IsGuides.{AreGuides};
ghost use Rattle.net_guides.specs.Indexes.{IsIndexOf};

use guide_text::Guides;
use net_guides::NetGuides;
use rt_base::{Layer, Memory, Seq};
use std::alloc::Global;

/// The names of these layers, and of the nets that have a guide: of none where there are no guides.
pub fn guide_index(
    alloc: Global,
    layers: &[Layer],
    guides: Option<&Guides>,
) -> Result<NetGuides, Memory>
    requires layers { AreDistinct (map (λ l. l.name) layers.now) }
    requires guides { IfSome (option_copied guides) (λ g. AreGuides g.nets) }
    ensures { IfOk result (IsIndexOf layers.now (unwrap_or (option_map (λ g. g.nets) (option_copied guides.entry)) [])) }
{
    match guides {
        Some(guides) => NetGuides::new(alloc, layers, guides),
        None => {
            let none = Guides {
                nets: Seq::new(alloc),
            };
            NetGuides::new(alloc, layers, &none)
        }
    }
}
