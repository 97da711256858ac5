//! Sets with what the node itself takes, beside the tasks' own work.
#![tactic(auto)]

pub mod laws;
mod padding;

pub use padding::{PadFault, pad};
pub use task_sheet::Node;
