//! The router as one call: from the words of a command line and the files that they name to the
//! routed design, its journal and its report.
#![tactic(auto)]

#[cfg(test)]
mod cell_tests;
#[cfg(test)]
mod design_tests;
mod lines;
mod outputs;
mod read;
mod refusal;
#[cfg(test)]
mod rip_tests;
mod run;
mod source;
#[cfg(test)]
mod tests;
mod words;

pub use lines::error_line;
pub use refusal::{DEF_MOST, GUIDE_MOST, LEF_MOST, Refusal};
pub use run::{Done, run_serial};
pub use words::{WordsFault, needs_workers};
