//! Stores of shapes: all shapes of a design that stand at a time, by place, so that those near a
//! rectangle are found without a look at the rest.
#![tactic(auto)]

mod list_store;
mod size;
mod store;
mod table;
#[cfg(test)]
mod tests;
mod tile;
mod tiles;
mod touch;

pub use list_store::ListStore;
pub use store::{ShapeStore, ShapeTest};
pub use tile::Tile;
pub use tiles::split;
