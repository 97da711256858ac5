//! The picture of a run: one SVG document, with why jobs wait: for a task above, or for one below that blocks by a lock.
#![tactic(auto)]

mod beside;
mod blocker;
mod document;
mod ground;
pub mod laws;
mod legend;
mod margin;
mod sides;
mod style;
mod title;
mod waits;
mod why;

pub use beside::{DrawnRun, draw_beside};
pub use document::draw;
