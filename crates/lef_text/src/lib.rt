//! The reader of LEF: a library text in the numbers of a DEF, or its first fault.
#![tactic(auto)]

mod error;
#[cfg(test)]
mod form_tests;
mod generated_vias;
mod layer_words;
mod layers;
mod lef;
mod library;
mod macro_words;
mod macros;
mod numbers;
mod on_layers;
mod polygons;
mod read;
mod shape_words;
mod shapes;
mod statement_words;
mod tables;
#[cfg(test)]
mod tests;
mod text;
mod via_words;
mod vias;

pub use error::{LefError, What};
pub use lef::{Lef, Macro};
pub use read::{read_lef, read_lef_tokens};
