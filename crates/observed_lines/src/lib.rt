//! The lines that say what a trace shows, and which promises it breaks.
#![tactic(auto)]

mod breaks;
mod broken;
mod causes;
mod jobless;
pub mod laws;
mod leeway;
mod reached;
mod sweep;
mod text;

pub use crate::breaks::{breaks_any, is_kept};
pub use crate::jobless::is_clean;
pub use crate::leeway::Leeway;
pub use crate::text::observed_text;
