//! One side of a change.
use assignment::Placing;
use task_lines::Owner;
use task_sheet::{Preference, TaskSet};

/// A set with what becomes of it.
#[derive(Clone, Copy)]
pub struct Side<'a> {
    /// By what its tasks were taken: their weights are the sheets' own only by weights.
    pub preference: Preference,
    pub set: &'a TaskSet,
    /// Whose its interrupts are.
    pub owners: &'a [Owner],
    /// That of the set.
    pub placing: &'a Placing,
}
