//! Readers and writers that keep what became of their calls, inputs that are read whole, and bytes that are held back.
#![tactic(auto)]

mod held;
mod input;
mod outlet;
mod patient;
mod watched;

pub use held::Held;
pub use input::{INPUT_LIMIT, InputFault, TRACE_LIMIT, read_input};
pub use outlet::Outlet;
pub use watched::{ReadFault, Watched, WriteFailed};
