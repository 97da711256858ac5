//! Laws of the pictures of runs: of an admitted set no job is drawn as missed, and each job of the window stands in exactly
//! one place.
#![tactic(auto)]

pub mod laws;
