//! Rushing a script: each team's lines run on a thread of its own over one locked book, and then the log is printed.
#![tactic(auto)]

mod hand;
mod note;
mod printing;
mod rushing;
mod site;
mod split;
mod teams;

pub use note::{Missed, Note};
pub use rushing::{RushTexts, rush_lines};
