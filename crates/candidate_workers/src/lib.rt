//! The candidates of each level, tested side by side.
#![tactic(auto)]

mod asking;
mod assaying;
mod candidates;
mod claims;
mod crew;
mod gate;
mod gathering;
mod laws;
mod threads;
mod view;

pub use asking::WorkFault;
pub use assaying::{AssayFault, WORKER_LIMIT, assay};
pub use candidates::Candidates;
pub use claims::{ClaimSeat, ClaimTable};
pub use crew::share_out;
pub use gate::{Gate, OpenGate};
pub use gathering::{Claimed, Crew, Handed};
pub use laws::{claims_find_all, demands_are_bounded};
pub use threads::threads_worth;
pub use view::View;
