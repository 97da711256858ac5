//! Streams of jobs.
use task_sheet::Name;

/// Jobs of one task: the first arrives at `first` and is late, each further one arrives a period after the one before and
/// isn't; in microseconds.
#[derive(Clone, Copy)]
pub struct Stream {
    pub name: Name,
    pub first: u64,
    pub late: u64,
    pub period: u64,
}
