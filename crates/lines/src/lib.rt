//! Lines of a text, their words, and the numbers and names that words are: what certificates, release lists and
//! scripts share. The names of a set's tasks in a line that is written.
#![tactic(auto)]

mod cutting;
mod kept_lines;
mod known;
pub mod laws;
mod naming;
mod next;
mod numbers;
mod place;
mod words;

pub use cutting::cut;
pub use kept_lines::{KeptLine, LineRow, next_kept, read_lines};
pub use known::{push_some, push_some_wide};
pub use naming::{push_name, push_names};
pub use next::{complete_line, next_line};
pub use numbers::{name_of, number_of};
pub use place::TextPlace;
pub use words::Words;
