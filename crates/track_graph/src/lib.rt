//! The track graph: designs, walks, blocks, journals and states.
#![tactic(auto)]

mod design;
mod edges;
mod history;
mod journal;
mod levels;
mod lines;
mod look_up;
mod shapes;
mod state;
mod stroke_list;
mod stubs;
mod vias;

pub use design::{Design, Net, NetKind, Options, Pin, Tracks};
pub use edges::{edge_cost, is_edge};
pub use history::{Block, NetState, State, Stroke};
pub use journal::Journal;
pub use levels::{
    along_of, is_level_horizontal, is_vertex, layer_name, layer_number, level_layer, level_lines,
    line_at, lines_under, vertex_at,
};
pub use lines::{count_below, count_up_to, lines_in, next_above, next_below};
pub use look_up::{guide_of, net_name, via_layer_name, via_name, via_rects};
pub use shapes::{edge_shapes, entry_shapes, walk_shapes, wire_shape};
pub use state::{copy_walk, finished, fold, may_rip};
pub use stroke_list::{edge_strokes, strokes};
pub use stubs::{entry_cost, stub_point};
pub use vias::{is_usable, joins_levels};
