//! Labels at marks of intervals: the least cost of a walk over an arena.
//!
//! The search never lists the places of an interval. A candidate waits with its distance and the
//! bound at its place as its key, the least key comes first, and it becomes a label unless a label of
//! its interval explains it. A label adds a candidate for each way that touches its interval, on
//! either side of it. Targets are never candidates: the best offer of a label to a target is kept
//! beside the queue.
//!
//! Between two steps these hold, and the proof is made of them:
//!
//! 1. Each label and each candidate stands at a mark, says how it was reached, and has a walk of its
//!    distance.
//! 2. No walk to a label's place costs less than the label says.
//! 3. Each candidate's key is its distance and the bound at its place.
//! 4. A place is covered at a cost if a label of its interval explains it at no more, or a candidate
//!    of no more waits there; each source is covered at its own cost.
//! 5. What a label leads to over a point bridge is covered at what this costs.
//! 6. So is what it leads to over a run, crossed at the coordinate of the run's span that is next to
//!    it, and onto an interval of a larger factor at each mark of the span.
//! 7. The best is an offer of some label, and no offer costs less.
//! 8. Labels stand at different places, and no label's distance and bound are above a waiting key or
//!    above the best.
//! 9. From these follows, by induction along any walk to a mark: the mark is explained at what the
//!    walk costs, or a waiting key is at most this cost and the mark's bound.
//! 10. Between marks the induction remembers the mark that it came from and the least factor since,
//!     for a run between two factors may leave places that are no marks unexplained.
//!
//! So a candidate that is taken has its least distance, and when no waiting key is below the best,
//! the best is the least cost. The marks are listed beforehand only where some run joins intervals of
//! two factors.
#![tactic(auto)]

mod answer;
mod cross;
mod even;
mod improve;
mod known;
mod marking;
mod rows;
mod search;
mod slide;

pub use answer::{Reached, label};
