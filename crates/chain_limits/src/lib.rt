//! How far each number of a task may go in an order with a chain's bound still within its limit.
#![tactic(auto)]

mod bound;
pub mod laws;
mod reaches;

pub use crate::bound::bound_in_order;
pub use crate::reaches::{Reach, reach_in_order};
