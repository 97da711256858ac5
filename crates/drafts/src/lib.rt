//! The desk's state, drafts on it, and the book of what was decided.
#![tactic(auto)]

mod applying;
mod book;
mod change;
mod draft;
mod entry;
mod interrupts;
mod judging;
pub mod laws;
mod placed;
mod proposal;
mod roster;
mod settling;
mod state;
mod team;

pub use applying::{Applied, apply, make_changes};
pub use book::{Book, Decided};
pub use change::{Change, Refusal};
pub use draft::{CHANGE_LIMIT, Draft, EditCause, EditRefusal, PutFault};
pub use entry::{Decision, Entry};
pub use interrupts::TeamInterrupt;
pub use judging::{Judged, judge, judged_as, judged_by};
pub use placed::{BestOrder, StuckSet};
pub use proposal::{Proposal, ProposeFault, VerdictFault, propose, propose_with};
pub use roster::{Owned, find_task};
pub use settling::{HeldFault, SettleFault, Settled};
pub use state::NodeState;
pub use team::{TEAM_LIMIT, Team};
