//! The run that the bound of a chain describes, as a release list, and what the chain comes to there.
#![tactic(auto)]

mod aims;
mod arrivals;
mod built;
pub mod laws;
mod shown;
mod text;

pub use aims::{Aim, BlockerStart};
pub use shown::ChainCase;
pub use text::{chain_worst_text, no_bound_text};
