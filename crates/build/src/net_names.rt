//! The nets by their names.
ghost use Rattle.std.specs.Prelude.{◌≡◌, ◌<◌, ◌^◌, length, position, bytes_eq, IfOk};
ghost use Rattle.def_text.specs.Defs.{AreNamedApart};
ghost use Rattle.cells.specs.Owners.{owner_from};
ghost use Rattle.build.specs.LookUps.{net_names};

use def_text::DefNet;
use rt_base::{Memory, Owner};
use rt_forms::Names;
use std::alloc::Global;

/// The names of these nets, in order.
pub fn names_of_nets(alloc: Global, nets: &[DefNet]) -> Result<Names, Memory>
    requires { AreNamedApart (λ n. n.name) nets.now }
    ensures { IfOk result (λ names. names ≡ net_names nets.now) }
{
    let mut names = Names::new(alloc);
    for net in nets {
        let _added = names.add(alloc, net.name.bytes())?;
    }
    Ok(names)
}

/// The net with this name, of these, as an owner.
pub fn owner_named(names: &Names, name: &[u8]) -> Owner
    requires { length names.now < 2 ^ 32 }
    ensures { result ≡ owner_from (position (bytes_eq name.now) names.now) }
{
    match names.find(name) {
        Some(net) => Owner::Net(net as u32),
        None => Owner::Nobody,
    }
}
