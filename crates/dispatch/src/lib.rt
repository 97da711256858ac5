//! Which command a call of `desk` runs, and on which inputs.
#![tactic(auto)]

mod running;

pub use running::{CallEnd, NotOpened, Opens, run_call};
