//! What the best order of a set by deadlines bears.
#![tactic(auto)]

pub mod laws;
