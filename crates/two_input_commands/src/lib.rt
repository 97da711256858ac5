//! The commands of `desk` on a task set and a second input, by their answers.
#![tactic(auto)]

mod beside;
mod chained;
mod check;
mod diff_lines;
mod draw;
mod explain_at_lines;
mod in_order;
mod judge_lines;
mod keep_lines;
pub mod laws;
mod limits_at_lines;
mod observe_lines;
mod reached;
mod simulate;
mod view;
mod way;
mod worst_at_lines;

pub use beside::{draw_beside_both, parts_of};
pub use check::check_both;
pub use diff_lines::compare_both;
pub use draw::draw_both;
pub use explain_at_lines::explain_both;
pub use judge_lines::judge_both;
pub use keep_lines::keep_both;
pub use limits_at_lines::limit_both;
pub use observe_lines::{leeway_of, observe_both};
pub use simulate::simulate_both;
pub use worst_at_lines::worst_both;
