//! Task sets by a preference: of all passing orders the best is the one by weights, the one nearest to limit-monotonic,
//! which bears most, or the one by chains.
#![tactic(auto)]

mod asking;
mod choice;
pub mod laws;
mod preferred;

pub use asking::{Asked, AskedFault, Asking, Strictness, read_asked};
pub use chain_tables::{Chain, ChainFault};
pub use choice::Choice;
pub use doubts::Doubt;
pub use preferred::{Preferred, prefer, read_preferred};
pub use task_sheet::Preference;
