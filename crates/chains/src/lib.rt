//! Cause-effect chains of the simulated kernel: from a sample to the output that stands on it, and the bound of its age.
#![tactic(auto)]

mod bounds;
pub mod laws;
mod walks;

pub use bounds::{BoundPart, Level, PartKind, Writes, after_of, bound_of, parts_of, steps_of};
pub use walks::{ARRIVAL_LIMIT, Starts, Step, bound_by, longest_start, starts_of, step_of};
