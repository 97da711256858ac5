//! What in a set is no fault, but may be a mistake: where a call is strict, the set is refused for it.
#![tactic(auto)]

mod doubt;
pub mod laws;

pub use doubt::{Doubt, first_doubt};
