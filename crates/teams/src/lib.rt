//! One set from the documents of several teams. Each document is read by itself, so that none says anything of another's
//! tasks, and a refusal names the team.
#![tactic(auto)]

mod fault;
mod gathering;
mod keeping;
pub mod laws;
mod naming;
mod node;
mod reading;
mod rights;
mod strictness;
mod text;
mod uniting;

pub use crate::fault::TeamsFault;
pub use crate::gathering::{first_part, node_part, read_gathered};
pub use crate::node::{NodeFault, Quantity};
pub use crate::reading::Part;
pub use crate::strictness::is_strict;
pub use crate::text::{is_gathered, read_text};
