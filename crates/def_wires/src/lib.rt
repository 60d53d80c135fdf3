//! Wiring and vias of DEF: what a range of tokens says, and which rectangles it means.
#![tactic(auto)]

mod arrays;
mod error;
mod joined;
mod names;
mod options;
mod paths;
mod points;
mod read;
mod rectangles;
mod steps;
#[cfg(test)]
mod tests;
mod via_words;
mod vias;
mod wiring;
mod words;

pub use error::WireFault;
pub use names::TechNames;
pub use read::read_wiring;
pub use rectangles::denote;
pub use vias::read_via;
pub use wiring::{WirePath, WireStep, Wiring};
