//! Views: what stands on some tiles of the die, which may be handed from one worker to another; and
//! the searches of a net in a view.
#![tactic(auto)]

mod change;
mod net_state;
mod piece;
mod searches;
mod stocked;
mod table;
mod view;
mod whole;

pub use piece::Piece;
pub use searches::{find, find_soft};
pub use table::{Copies, Table};
pub use view::View;
