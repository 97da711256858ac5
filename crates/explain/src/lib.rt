//! Why a bound is what it is, and which tasks really collide.
#![tactic(auto)]

mod accounts;
mod blocker;
mod conflict;
mod explanation;
pub mod laws;
mod needs;
mod one_task;
mod parts;
mod shares;
mod text;

pub use crate::accounts::{Account, response_account};
pub use crate::blocker::{Blocker, first_blocker};
pub use crate::conflict::{greatest_within, least_conflict};
pub use crate::explanation::{Explanation, explain};
pub use crate::needs::{Need, needs_account};
pub use crate::one_task::task_text;
pub use crate::parts::{Above, Interruption, Parts, parts_of};
pub use crate::shares::load;
pub use crate::text::{push_account, push_conflict, push_load, push_needs, push_parts, sheet_uses};
