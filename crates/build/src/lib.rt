//! From what LEF, DEF and guides say to one design, or to the first reason why there is none.
#![tactic(auto)]

mod checks;
mod copies;
mod design;
mod entry_counts;
mod error;
mod given;
mod guide_index;
mod layer_names;
mod level_tracks;
mod limits;
mod lookup;
mod net_names;
mod nets;
mod pin_names;
mod shapes;
mod technology;
mod track_lines;
mod wires;

pub use design::build;
pub use error::{BuildError, Limited};
pub use track_lines::default_tile;
