//! What the jobs of each task came to in a run, as lines, and that it is within the bounds of the set.
#![tactic(auto)]

mod bounds;
pub mod laws;
mod outcome;
mod text;

pub use crate::bounds::{TaskBound, bounds_of};
pub use crate::outcome::{Outcome, outcome_of};
pub use crate::text::tasks_text;
