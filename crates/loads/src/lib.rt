//! What costs come to, each over its period, as a fraction that nothing rounds but its last step.
#![tactic(auto)]

mod shares;

pub use crate::shares::{Share, load_in};
