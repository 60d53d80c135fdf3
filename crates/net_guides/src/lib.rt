//! Guides of nets by name, with their boxes on levels.
#![tactic(auto)]

mod index;
#[cfg(test)]
mod tests;

pub use index::NetGuides;
