//! POSIX's thread lists run whom the tick rule of the simulated kernel picks.
#![tactic(auto)]

pub mod laws;
