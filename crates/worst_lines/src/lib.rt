//! The worst case of a task as a release list: of an admitted set how long its job takes there, of a refused one as a
//! run in which it misses its deadline, or why it is none.
#![tactic(auto)]

mod asked;
mod below;
mod deciding;
pub mod laws;
mod text;
mod worst;

pub use crate::deciding::judge_deciding;
pub use crate::text::{settings_judged, worst_text, worst_text_in};
pub use crate::worst::Worst;
