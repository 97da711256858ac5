//! A run of the simulated kernel breaks no promise of its set that a trace shows.
#![tactic(auto)]

pub mod laws;
