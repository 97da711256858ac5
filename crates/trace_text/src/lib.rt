//! A trace: what executed when on a node, and when jobs arrived and finished.
#![tactic(auto)]

mod fault;
mod reading;
mod rows;

pub use crate::fault::TraceFault;
pub use crate::reading::{JOB_LIMIT, SLICE_LIMIT, TraceLines, read_trace_at};
pub use crate::rows::{TraceJob, TraceRow, TraceSlice};
