//! What a job does from when it is ready to its finish: it executes, or waits while another does; and which jobs of a task
//! arrive close to each other.
#![tactic(auto)]

mod bands;
pub mod laws;
mod waits;

pub use bands::{Band, band_in, is_banded, joins, stretch_of};
pub use waits::wait_in;
