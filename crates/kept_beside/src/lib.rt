//! A run beside timers and interrupts breaks no promise of its set that a trace shows.
#![tactic(auto)]

pub mod laws;
