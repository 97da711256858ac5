//! What a person is told of a refusal or of a set: plain sentences that name the place, the value and its limit.
#![tactic(auto)]

mod asked;
mod causes;
mod chained;
mod choices;
mod clocks;
mod conflicts;
mod density;
mod gathered;
mod lists;
mod nearest;
mod node;
mod notes;
mod overload;
mod padding;
mod pieces;
mod puts;
mod records;
mod runs;
mod sets;
mod shown;
mod strangers;
mod texts;
mod told;
mod traces;
mod tree;
mod values;

pub use asked::{of_chain, of_neither, of_task, of_tasks, of_window};
pub use chained::of_chains;
pub use choices::{put_names_decide, put_override, put_past_priorities};
pub use conflicts::{put_conflict, put_parted};
pub use density::{greatest_until, of_density};
pub use gathered::{of_doubt, of_set_text};
pub use lists::{of_release_line, of_run, of_settings};
pub use notes::put_notes;
pub use overload::put_overload;
pub use puts::of_script;
pub use records::{of_certificate, of_check};
pub use runs::{
    leaves_out, put_chain_missed, put_chain_missed_here, put_chain_missed_in_new,
    put_chains_left_out, put_left_out, put_one_overran, put_overran, put_periods_stay, put_unrun,
    put_unrun_of, put_unseen,
};
pub use shown::push_clean;
pub use strangers::{put_empty, put_strange_threads, put_strangers};
pub use traces::of_trace;
