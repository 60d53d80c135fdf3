//! The search for a net's least walk, vertex by vertex, over a store of shapes.
#![tactic(auto)]

mod answer;
mod bounds;
mod clash;
mod entries;
mod ground;
mod guide;
mod guided;
mod leads;
mod parts;
mod plain;
mod positions;
mod sense;
mod steps;
mod stock;
mod stops;

pub use answer::search;
pub use ground::Ground;
pub use plain::{plain_search, plain_soft};
pub use sense::Sense;
pub use stock::{Standing, Stock};
