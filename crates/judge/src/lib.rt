//! An order that a node has already: what the numbers of its threads and mutexes say, whether each task meets its deadline
//! there, and why.
#![tactic(auto)]

mod by_ceilings;
mod explained;
mod fault;
mod front;
mod judging;
mod kept_order;
pub mod laws;
mod levels;
mod missed;
mod node;
mod numbers;
mod order;
mod places;
mod raised;
mod reading;
mod rows;
mod settings_fault;
mod slack;
mod text;

pub use crate::explained::{Parted, explained_text, levels_of, order_of};
pub use crate::fault::SettingsFault;
pub use crate::front::{Front, read_front};
pub use crate::judging::{JudgedTask, Judgement, all_meet, judge_order};
pub use crate::kept_order::{read_kept, read_kept_numbers};
pub use crate::levels::{LevelRow, Told, account_rows, placed_rows, push_rows};
pub use crate::node::{JudgedNode, judge_given, judge_rows, judge_settings};
pub use crate::places::places_of;
pub use crate::reading::order_of_rows;
pub use crate::rows::{NUMBER_LIMIT, Setting, SettingRow};
pub use crate::slack::sorted_if;
pub use crate::text::{first_text, judged_text};
