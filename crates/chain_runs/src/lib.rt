//! Chains in a run: the outputs that come, from which samples, and how old they get.
#![tactic(auto)]

mod deadline_outputs;
pub mod laws;
mod outcome;
mod outputs;
mod slices;
mod strays;
mod text;

pub use deadline_outputs::{Interval, Register, intervals_of, outputs_by};
pub use outcome::{ChainOutcome, outcome_of};
pub use outputs::{ChainOutput, Station, outputs_from, outputs_of};
pub use slices::{TaskSlice, slices_of};
pub use text::{push_run_line, run_chains_text};
