//! What all commands of `desk` share: their inputs, refusals, statuses, and what is printed.
#![tactic(auto)]

mod answer;
mod asked;
mod audience;
mod notes;
mod output;
mod phrase;
mod refusal;
mod sets;
mod status;

pub use answer::{Answer, OrderPart, infeasible_text, joined, placing_text};
pub use asked::{asked_task, find_chain, no_such_chain};
pub use audience::{Audience, Nobody, Which};
pub use notes::Notes;
pub use output::{print, print_answer, refuse, refuse_words};
pub use refusal::CommandRefusal;
pub use release_list::TextFault;
pub use scripts::RushFault;
pub use sets::{
    Both, asking_of, base_of, is_sorted, read_one, read_owned, read_told, read_two, room_of,
    team_chosen, tell,
};
pub use status::{Status, placing_status};
