//! Shapes that LEF and DEF describe in other ways than by rectangles: polygons and generated vias.
#![tactic(auto)]

mod ascending;
mod cut_array;
mod polygon;
mod rows;
#[cfg(test)]
mod tests;

pub use cut_array::{Generated, generated_rects};
pub use polygon::{is_rectilinear, slabs};
