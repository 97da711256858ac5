//! The lines of refusals that no command comes to, as tests: those of a rush that went wrong.
#![tactic(auto)]

#[cfg(test)]
mod refusals;
