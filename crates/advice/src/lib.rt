//! What a person is told on standard error beside an answer: a sentence for a refusal, notes on a set.
#![tactic(auto)]

mod advice;
mod causes;
mod sentence;

pub use advice::Advice;
pub use causes::{LastError, tell_unwritten};
