//! How small a chain's bound could be in any order that passes.
#![tactic(auto)]

mod above;
pub mod laws;
mod least;
mod levels;
mod steps;

pub use above::above_at_least;
pub use least::{least_bound, least_time};
pub use levels::{levels_at, levels_of};
pub use steps::bound_with;
