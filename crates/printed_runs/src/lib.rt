//! The text that a run is printed as, which is read back as its trace and breaks no promise.
#![tactic(auto)]

pub mod laws;
mod text;

pub use crate::text::trace_text;
