//! What a change of a set does: to its node and its interrupts, to its tasks, which come and go, and whose sheets say
//! something else, and to the levels and responses of all.
#![tactic(auto)]

mod chain_changes;
mod keys;
pub mod laws;
mod own;
mod pairs;
mod seats;
mod side;
mod text;
mod whole;

pub use crate::chain_changes::{ChainSide, chain_text};
pub use crate::seats::Seat;
pub use crate::side::Side;
pub use crate::text::change_text;
pub use crate::whole::whole_text;
