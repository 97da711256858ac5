//! Where everything lies in a picture of a run: the window of time, the rows that are shown and the locks of their tasks.
#![tactic(auto)]

mod boxes;
mod chart;
mod frame;
mod locks;
mod numbers;
mod places;
mod rows;
mod signs;
mod slices;
mod tones;
mod view;

pub use boxes::{Bar, bar_of, has_room};
pub use chart::{Chart, Lane};
pub use frame::{
    Frame, LOWEST_TOP, RIGHTMOST, WIDEST_STEP, end_of, ended, frame_beside, frame_of, in_millis,
    is_before, is_by_end, is_from_start, level_of, sees, sees_between, sees_from, sees_up_to,
    start_of, step_of, steps_before, time_letters, top_of, x_after, x_of,
};
pub use locks::{LOCKS_LIMIT, locks_beside, locks_of, note_names};
pub use numbers::{Known, ShownTime, unit_of};
pub use places::{FREE, PLACES_LIMIT, below_of, lower_places, upper_places};
pub use rows::{Spot, TaskRow, find_row, job_at, name_in, name_of, place_in, spot_named, tone_in};
pub use signs::{put_sign, put_sign_of};
pub use slices::{executed_after, executed_with, slice_at, starts_rise, ticks_of};
pub use tones::{LOCK_TONES, TASK_TONES, Toned, fitted_tone, tone_named, tones_of};
pub use view::{View, paper_width, shown_of};
