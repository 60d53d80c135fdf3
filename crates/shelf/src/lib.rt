//! Where the router's texts come from and go to: shelves of named files, and sinks for what it says.
#![tactic(auto)]

mod calls;
mod fault;
mod mem_shelf;
mod mem_sink;
mod plain_shelf;
mod plain_sink;
mod shelf;
mod sink;

pub use fault::{PutFault, SayFault, TakeFault};
pub use mem_shelf::MemShelf;
pub use mem_sink::MemSink;
pub use plain_shelf::PlainShelf;
pub use plain_sink::PlainSink;
pub use shelf::Shelf;
pub use sink::Sink;

#[cfg(test)]
mod tests;
