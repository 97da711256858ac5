//! Chains in a trace of a node: the outputs that came, how old they got, and which tasks of chains weren't steady.
#![tactic(auto)]

mod deadlines;
mod executions;
mod lates;
mod outputs;
mod scene;
mod steady;
mod text;

pub use deadlines::deadline_outputs;
pub use executions::{Execution, executions_in};
pub use outputs::{Watch, outputs_in};
pub use text::{ChainsSeen, see_chains};
