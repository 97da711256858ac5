//! The chains of a set: `[[chain]]` in its documents, and why they are none.
#![tactic(auto)]

mod clocks;
mod documents;
mod fault;
mod judging;
mod numbers;
mod table;

pub use crate::documents::read_written;
pub use crate::fault::{ChainCause, ChainFault, Whose};
pub use crate::judging::{CHAIN_LIMIT, Chain, read_chains};
pub use crate::table::{CHAIN_TASKS, LONGEST_LIMIT, Written};
