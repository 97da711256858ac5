//! The way of a datum along a chain, drawn into the picture of a run.
#![tactic(auto)]

mod ground;
pub mod laws;
mod legs;
mod marks;
mod signs;
mod sources;
mod stands;
mod stops;
mod style;
mod way;

pub use legs::{Leg, newest_of, path_at};
pub use sources::{Source, outputs_in, source_of};
pub use stands::{Stand, oldest};
pub use way::{Way, laid_over, way_text};
