//! A set as a script's lines: one draft of a team, in which its tasks are put, and its commit; or one of each of several.
#![tactic(auto)]

pub mod laws;
mod text;

pub use crate::text::{script_text, teams_text};
