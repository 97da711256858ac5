//! The commands of `desk`, as functions over readers and writers that give the exit status.
#![tactic(auto)]

mod of_one;
mod of_two;

pub use answering::{
    Audience, CommandRefusal, Nobody, RushFault, Status, TextFault, Which, base_of, refuse,
    refuse_words,
};
pub use of_one::carry_out;
pub use of_two::carry_out_on_both;
pub use script_commands::run_rush;
pub use set_commands::run_releases;
