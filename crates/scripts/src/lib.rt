//! Scripts: what teams do with their drafts, line by line.
#![tactic(auto)]

mod fields;
mod line;
mod node;
mod reading;
mod rows;
mod rush_fault;
mod sections;

pub use line::{Line, PutSheet, Row, ScriptFault};
pub use reading::read_script;
pub use rush_fault::RushFault;
