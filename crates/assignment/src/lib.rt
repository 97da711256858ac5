//! Assignment of levels to a set's tasks, from the lowest level up.
#![tactic(auto)]

mod assigning;
mod climb;
mod feasibility;
pub mod laws;
mod level;
mod members;
mod outcome;
mod placing;
mod question;
mod tried;
mod verdict;

pub use assigning::assign;
pub use climb::{Climb, ClimbFault, Unfinished};
pub use feasibility::{is_feasible, is_feasible_at, obstruction_at, standing};
pub use level::{Closed, Level, NotAll, TakeFault};
pub use members::{members_at, members_of};
pub use outcome::{Outcome, Reason, least_over};
pub use placing::{Place, Placing, place_all, tasks_of_places};
pub use question::{AnswerFault, Finding, Question};
pub use tried::latest;
pub use verdict::{Assignment, Failure, LevelRecord, Obstruction, Verdict};
