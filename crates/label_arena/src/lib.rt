//! Intervals of track lines, the bridges and runs that join them, and the labels of a search.
//!
//! An arena stands for a plain graph, which has a place for each coordinate of each interval.
//! Neighbouring places of an interval are joined at the interval's factor, a point bridge joins two
//! places, and a run joins two parallel intervals at each coordinate of a span. The arena only
//! keeps what a search needs: it never lists the places.
//!
//! The lists of an arena are appended to and never change otherwise. Beside the labels it keeps, for
//! each interval, its labels in the order of their coordinates, so that a test against them looks at
//! the two that are next to a place. Which bridges and runs an interval has is told by an index,
//! which is made once, after the last of them was added.
#![tactic(auto)]

mod arena;
mod ends;
mod group;
mod place;
mod read;
mod row;
mod steps;
#[cfg(test)]
mod tests;

pub use arena::Arena;
pub use place::{Bridge, By, Interval, IntervalNo, Label, LabelNo, Place, Run};
pub use steps::Steps;
