//! Whose each task and interrupt of a set is, and the words of a line that name the team of a task.
#![tactic(auto)]

mod owner;

pub use crate::owner::{Owner, push_team, team_of};
