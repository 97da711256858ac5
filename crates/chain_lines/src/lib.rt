//! The lines of a set's chains in an order: each bound beside its limit, and the parts that it is the sum of.
#![tactic(auto)]

pub mod laws;
mod leasts;
mod text;

pub use leasts::least_bounds;
pub use text::{Telling, all_met, chains_text, push_line};
