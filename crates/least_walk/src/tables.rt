//! What a search writes down.
use crate::flood::Flood;
use crate::known::Known;
use crate::label::Search;
use rt_base::{Edge, Seq};
use std::alloc::Global;

/// What searches write down, kept from one to the next so that its memory is taken once: the labels,
/// the number of a cheapest target at each vertex that has one, what a flood from the targets has
/// reached, and the edges from one vertex.
#[derive(Drop)]
pub struct Tables {
    pub(crate) search: Search,
    pub(crate) ends: Known,
    pub(crate) flood: Flood,
    pub(crate) edges: Seq<Edge>,
}

impl Tables {
    /// Empty tables. Takes no memory.
    pub fn new(alloc: Global) -> Tables {
        Tables {
            search: Search::new(alloc),
            ends: Known::new(alloc),
            flood: Flood::new(alloc),
            edges: Seq::new(alloc),
        }
    }
}
