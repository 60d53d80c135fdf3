//! The vias and the wiring of nets that DEF brings along, with what LEF says.
#![tactic(auto)]

mod ranges;
#[cfg(test)]
mod tests;
mod vias;
mod wires;

pub use vias::{WireTech, wire_tech};
pub use wires::wires_metal;
