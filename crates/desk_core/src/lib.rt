//! The core over events.
#![tactic(auto)]

mod desk_core;
mod events;
pub mod laws;
mod live;
mod notes;
mod slot;
mod stage;
mod told;
mod trial;

pub use desk_core::{Core, StepFault, run};
pub use events::{Cause, Event, Reply, Standing};
pub use told::Told;
pub use trial::Trial;
