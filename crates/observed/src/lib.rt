//! What a trace shows of the jobs of a set's tasks, beside what the set promises of them.
#![tactic(auto)]

mod culprits;
mod end;
mod interrupts;
pub mod laws;
mod near;
mod observing;
mod pieces;
mod promises;
mod ranks;
mod seen;
mod shares;
mod sight;
mod strangers;
mod sweeps;

pub use crate::culprits::Culprit;
pub use crate::end::end_of;
pub use crate::interrupts::interrupts_within;
pub use crate::observing::observe;
pub use crate::pieces::{Housed, Piece, homes_of, piece_of, split_first};
pub use crate::promises::{Promise, levels_of, promises_of};
pub use crate::seen::Seen;
pub use crate::sight::{Observed, Sight, observe_at, observe_places};
