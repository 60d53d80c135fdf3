//! Components of macros where they are placed: their pins and their shapes, found by name, and whose
//! the pins are.
#![tactic(auto)]

mod firsts;
mod index;
mod owners;
mod places;
mod shapes;

pub use firsts::Firsts;
pub use index::CellIndex;
pub use owners::{Owners, is_io};
pub use shapes::{add_components, add_rects};
