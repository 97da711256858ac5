//! Whose each task and interrupt of a set's text is, which sections move along with the one before them, and the set's parts
//! by teams.
#![tactic(auto)]

mod accounts;
mod clocks;
mod followers;
pub mod laws;
mod owner;
mod parts;

pub use crate::clocks::{has_clock, is_clocked};
pub use crate::followers::along;
pub use crate::owner::{push_interrupt, read_owners};
pub use crate::parts::parts_of;
pub use task_lines::Owner;
