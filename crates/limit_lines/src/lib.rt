//! The lines that say how far the numbers of a set may go: of each task its numbers and its slack, of the interrupts, of what
//! the node takes and of the locks, and the factor on all execution.
#![tactic(auto)]

mod chained;
mod common;
mod given;
mod locks;
mod text;
mod whole;

pub use crate::chained::chain_text;
pub use crate::given::{order_given, places_given};
pub use crate::text::task_text;
pub use crate::whole::{end_text, limits_text};
