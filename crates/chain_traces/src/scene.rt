//! What the chains of a trace are seen by.

use crate::executions::Execution;
use chains::Level;
use observed::Seen;
use task_sheet::TaskSet;

// What is let pass of a trace, the set and the levels of an order, the jobs that are seen, by arrivals, the slices, by time, and
// when it ends.
#[derive(Clone, Copy)]
pub(crate) struct Scene<'a> {
    pub(crate) tolerance: u64,
    pub(crate) set: &'a TaskSet,
    pub(crate) levels: &'a [Level],
    pub(crate) seen: &'a [Seen],
    pub(crate) executions: &'a [Execution],
    pub(crate) end: u64,
}
