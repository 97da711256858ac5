//! Whether a certificate shows what it says, by arithmetic of its own.
#![tactic(auto)]

mod ages;
mod checking;
mod fault;
pub mod laws;
mod levels;
mod naming;
mod outranking;
mod refuting;
mod work;

pub use checking::{Checked, check};
pub use fault::CheckFault;
