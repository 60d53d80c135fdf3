//! Words of tables, and numbers of texts.
#![tactic(auto)]

mod number;
mod statement;
mod table;
#[cfg(test)]
mod tests;

pub use number::{NumberFault, decimal, integer, natural};
pub use table::{distinct, find};
