//! The words of a command line, and the call that they name.
#![tactic(auto)]

mod calls;
mod commands;
mod words;

pub use calls::{
    Call, Input, MOST_PRIORITY, MOST_ROOM, MOST_TEAM, Named, OfNumber, OfOne, OfTwo, Options,
    Preferred,
};
pub use words::{WordsFault, read_words};
