//! What is drawn of jobs: boxes and bands from arrivals up to bounds, the marks of releases, what is missed, bars of who
//! executes, in the rows, with what is held in them, and in the lane of the processor, and signs of responses that changed.
#![tactic(auto)]

mod band;
mod bars;
mod changes;
mod held;
mod jobs;
mod lane;
mod marks;
mod misses;
mod parts;
mod stripes;
mod ticks;

pub use band::put_greatest;
pub use bars::put_slices;
pub use changes::{all_changed, put_changes};
pub use held::{held_beside, held_locks};
pub use jobs::put_jobs;
pub use lane::{put_lane_head, put_lane_line, put_lanes};
pub use marks::put_all_marks;
pub use misses::{all_missed, latest_in, missed_in, put_badge, put_misses};
pub use stripes::{locks_high, put_locks_group};
