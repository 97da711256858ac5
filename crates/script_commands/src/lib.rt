//! The commands of `desk` on a script.
#![tactic(auto)]

mod playing;
mod rush;

pub use playing::{lines_of, play};
pub use rush::run_rush;
