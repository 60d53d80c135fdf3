//! The reader of guides: for each net, the boxes of the layers that its wires stay in.
#![tactic(auto)]

mod error;
mod guides;
mod read;
#[cfg(test)]
mod tests;

pub use error::GuideError;
pub use guides::Guides;
pub use read::{read_guides, read_guides_tokens};
