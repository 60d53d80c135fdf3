//! What all readers share: the cursor over the words of a text, forms of text with their laws, and
//! distinct names in file order.
#![tactic(auto)]

mod fault;
mod names;
#[cfg(test)]
mod tests;
mod word;
mod words;

pub use fault::Fault;
pub use names::Names;
pub use word::Word;
pub use words::Words;
