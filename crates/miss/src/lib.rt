//! Runs in which a task misses its deadline: what shows that an order doesn't pass.
#![tactic(auto)]

mod find;
mod going;
pub mod laws;
mod orders;
mod reaching;
mod reason;
mod shown;
mod worst;

pub use crate::find::show_miss;
pub use crate::going::end_of;
pub use crate::reaching::{Reached, WorstRun, case_of, reach};
pub use crate::shown::{Miss, NoRun, Shown};
pub use crate::worst::{Run, worst_case};
