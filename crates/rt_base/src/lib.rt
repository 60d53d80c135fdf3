//! Geometry, shapes, walks and the test for conflicts: what every other crate speaks of.
#![tactic(auto)]

mod distance;
mod find;
mod geometry;
mod grid;
mod memory;
mod name;
mod orient;
mod scan;
mod seq;
mod spacing;
mod split;
mod tech;
#[cfg(test)]
mod tests;
mod token;
mod walk;

pub use distance::gap;
pub use geometry::{Point, Rect, Span};
pub use grid::Grid;
pub use memory::Memory;
pub use name::Name;
pub use orient::{Orient, place};
pub use scan::{ScanError, tokens};
pub use seq::Seq;
pub use spacing::conflict;
pub use tech::{Layer, LayerNo, Owner, Shape, SpacingTable, Tech, Via};
pub use token::Token;
pub use walk::{Edge, EdgeKind, Entry, EntryKind, Vertex, Walk};
