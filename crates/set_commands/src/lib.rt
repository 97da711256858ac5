//! The commands of `desk` on a task set alone.
#![tactic(auto)]

mod admit;
mod certify;
mod chained;
mod explain_lines;
pub mod laws;
mod limits_lines;
mod releases;
mod script;
mod worst;

pub use admit::{admit_set, place, settle_set};
pub use certify::{certified, print_certificate};
pub use chained::Placed;
pub use explain_lines::explain_set;
pub use limits_lines::limit_set;
pub use releases::run_releases;
pub use script::run_script;
pub use worst::worst_set;
