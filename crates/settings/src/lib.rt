//! What a node is set to: the level of each thread, and the ceiling of each mutex.
#![tactic(auto)]

pub mod laws;
mod numbered;
mod numbering;
mod staying;
mod text;

pub use crate::numbered::{anew_text, kept_text};
pub use crate::staying::MOST_NUMBER;
pub use crate::text::settings_text;
