//! The locked book: a desk that several teams use at once, each by its pass.
#![tactic(auto)]

mod answer;
mod asking;
mod closing;
mod commit;
mod content;
mod desk;
mod foreign;
pub mod laws;
mod locked;
mod own;
mod pass;

pub use answer::{DeskFault, OpenFault, Settlement};
pub use closing::{CloseCause, CloseFault, Closing, NewFault};
pub use commit::{CommitCause, CommitFault};
pub use desk::Desk;
pub use locked::Locked;
pub use pass::{Pass, Receipt};
