//! The order in which nets are taken, and routing on one thread.
#![tactic(auto)]

mod choice;
mod extent;
mod net_order;
mod next;
mod one_thread;
mod progress;
mod view_plan;

pub use choice::Choice;
pub use net_order::order;
pub use one_thread::finish;
pub use view_plan::plan;
