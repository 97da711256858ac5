//! What a printed bound of a chain promises.
#![tactic(auto)]

pub mod laws;
