//! The way back from a label to a source.
//!
//! Each label of a search says from which earlier label its place was reached and by what. So the
//! labels from one back to a source are the corners of a walk: it starts at the source, and from
//! each corner to the next it slides along an interval and then takes the bridge or the run that the
//! next corner names. The walk costs what the label's distance says beyond the source's.
#![tactic(auto)]

mod corner;

pub use corner::{Corner, recover};
