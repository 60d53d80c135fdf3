//! Whose the pins are that nets name.
ghost use Rattle.std.specs.Prelude.{◌≡◌, ℕ, List, ◌<◌, ◌^◌, length, IfOk, OnOk, bytes_eq};
ghost use Rattle.cells.specs.Owners.{is_io as is_io_of};
ghost use Rattle.cells.specs.Indexes.{key as key_of};

use crate::firsts::Firsts;
use def_text::DefNet;
use rt_base::{Memory, Name, Owner};
use std::alloc::Global;

/// For each pin that a net names, the number of the first such net. The names are those of the
/// component and of the pin in one.
#[derive(Drop)]
pub struct Owners {
    pub nets: Firsts<u32>,
}

/// Whether these are the same bytes.
fn same(a: &[u8], b: &[u8]) -> bool
    ensures { result ≡ bytes_eq a.now b.now }
{
    a == b
}

/// Whether a connection is to a pin of the design.
pub fn is_io(connection: &(Name, Name)) -> bool
    ensures { result ≡ is_io_of connection.now }
{
    same(b"PIN", connection.0.bytes())
}

/// Component and pin in one name, such that no two pins have one.
fn key(alloc: Global, component: &[u8], pin: &[u8]) -> Result<Vec<u8>, Memory>
    ensures { IfOk result (λ v. v.items ≡ key_of component.now pin.now) }
{
    let mut key = Vec::new(alloc);
    for byte in component {
        key.push(1)?;
        key.push(*byte)?;
    }
    key.push(0)?;
    key.extend_from_slice(pin)?;
    Ok(key)
}

impl Owners {
    ghost use Rattle.std.specs.Prelude.{Some, None, if◌then◌else◌};
    ghost use Rattle.std.specs.Option.{option_or};
    ghost use Rattle.std.specs.List.{list_any};
    ghost use Rattle.rt_base.specs.Conflict.{same_owner};
    ghost use Rattle.rt_base.specs.declared.tech.Owner.TheVariants.{Net as OfNet};
    ghost use Rattle.cells.specs.Firsts.{ArePaired, first_in};
    ghost use Rattle.cells.specs.Owners.{same_pin, cell_owner};
    ghost use Rattle.cells.specs.Indexes.{key, owner_in, AreOwners};

    /// Whose the pin of a component is, or that of the design, whose component is `PIN`.
    pub fn owner(&self, alloc: Global, component: &[u8], pin: &[u8]) -> Result<Owner, Memory>
        ensures { IfOk result (λ o. o ≡ owner_in self.now (component.now, pin.now)) }
    {
        match self.nets.find(&key(alloc, component, pin)?) {
            Some(net) => Ok(Owner::Net(net)),
            None => Ok(Owner::Nobody),
        }
    }

    /// Whose the pin of a component is. A component of the name `PIN` has no pin that a net could name.
    pub fn cell_owner(&self, alloc: Global, component: &[u8], pin: &[u8]) -> Result<Owner, Memory>
        ensures { IfOk result (λ o. o ≡ cell_owner (owner_in self.now) (component.now, pin.now)) }
    {
        if same(b"PIN", component) {
            return Ok(Owner::Nobody);
        }
        self.owner(alloc, component, pin)
    }

    /// Whether the pin of a connection is a net's.
    pub fn owns(&self, alloc: Global, net: u32, connection: &(Name, Name)) -> Result<bool, Memory>
        ensures { IfOk result (λ b. b ≡ same_owner (owner_in self.now connection.now) (OfNet net)) }
    {
        let owner = self.owner(alloc, connection.0.bytes(), connection.1.bytes())?;
        Ok(owner == Owner::Net(net))
    }

    /// A net has these connections.
    fn claim_all(
        &mut self,
        alloc: Global,
        connections: &[(Name, Name)],
        net: u32,
    ) -> Result<(), Memory>
        requires { ArePaired self.old.nets }
        ensures paired { OnOk result (ArePaired self.new.nets) }
        ensures claimed { OnOk result ((c : List ℕ × List ℕ) → first_in self.new.nets (key c.0 c.1) ≡ option_or (first_in self.old.nets (key c.0 c.1)) (if list_any (same_pin c) connections.now then Some net else None)) }
    {
        for connection in connections {
            let key = key(alloc, connection.0.bytes(), connection.1.bytes())?;
            self.nets.claim(alloc, &key, net)?;
        }
        Ok(())
    }

    /// Whose the pins are that these nets name.
    pub fn new(alloc: Global, nets: &[DefNet]) -> Result<Owners, Memory>
        requires { length nets.now < 2 ^ 32 }
        ensures { IfOk result (AreOwners nets.now) }
    {
        let mut owners = Owners {
            nets: Firsts::new(alloc),
        };
        for (number, net) in nets.iter().enumerate() {
            owners.claim_all(alloc, net.pins.as_slice(), number as u32)?;
        }
        Ok(owners)
    }
}
