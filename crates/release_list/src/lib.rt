//! Release lists: the releases of streams of jobs, the densest that a set allows and random ones, and their text, which is
//! written and read.
#![tactic(auto)]

mod dense;
pub mod laws;
mod list;
pub mod random_laws;
mod random_list;
mod reading;
mod steady;
mod stream;
mod text;

pub use crate::dense::{densest, stream_of};
pub use crate::list::list_of;
pub use crate::random_list::random;
pub use crate::reading::{TextFault, read_releases};
pub use crate::steady::SteadyTask;
pub use crate::stream::Stream;
pub use crate::text::list_text;
