//! How much of a run is shown in which a job overruns the one before it.
#![tactic(auto)]

mod cut;
pub mod laws;

pub use crate::cut::{CutRun, run_cut};
