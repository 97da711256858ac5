//! Sheets with other numbers, and what a set keeps that asks less. Times are whole microseconds.
#![tactic(auto)]

mod costs;
pub mod laws;
mod others;

pub use crate::costs::last_end;
pub use crate::others::{Times, copy_sections, remade, times_of};
