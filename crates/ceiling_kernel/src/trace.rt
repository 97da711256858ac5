//! What a simulation is given, and what it gives.
ghost use Rattle.std.specs.Prelude.{◌≡◌};
ghost use Rattle.ceiling_kernel.specs.declared.trace.RunFault.TheVariants.{OutOfMemory};

use std::alloc::AllocError;
use task_sheet::Name;

/// A job of the task with that name arrives at that time, becomes ready so much later, and executes for so long, or for
/// its task's cost, with the critical sections of its task up to there; in microseconds.
#[derive(Clone, Copy, Debug, PartialEq, Eq)]
pub struct Release {
    pub time: u64,
    pub name: Name,
    pub late: u64,
    pub runs: Option<u64>,
}

/// A longest run of ticks of one job, from `start` up to `stop`, in microseconds. A job is named by its place among the
/// releases, from 0.
#[derive(Clone, Copy, Debug, PartialEq, Eq)]
pub struct Slice {
    pub job: usize,
    pub start: u64,
    pub stop: u64,
}

/// A job: its task's name, when it arrived, and when it finished, if it did; in microseconds.
#[derive(Clone, Copy, Debug, PartialEq, Eq)]
pub struct JobRecord {
    pub name: Name,
    pub release: u64,
    pub finish: Option<u64>,
}

/// What happened: the slices by time, and the jobs in the order of the releases.
#[derive(Drop)]
pub struct Trace {
    pub slices: Vec<Slice>,
    pub jobs: Vec<JobRecord>,
}

/// Why there is no trace. A place is that of a release in the list, from 1; times are in microseconds.
#[derive(Clone, Copy, Debug, PartialEq, Eq)]
pub enum RunFault {
    /// A release arrives before the one before it in the list.
    Unsorted { place: usize },
    /// No task of the set has the release's name.
    UnknownTask { place: usize },
    /// A release arrives less than a period after its task's release before.
    TooSoon { place: usize },
    /// A release is later than its task's jitter.
    TooLate { place: usize },
    /// A release executes nothing, or more than its task's cost.
    OutsideCost { place: usize },
    /// `until` is above 60,000,000, or a release becomes ready at it or after it.
    PastHorizon,
    /// There are more than 10,000 releases.
    TooMany,
    /// A job of the task becomes ready at this time, and its job before isn't finished then.
    Overrun { name: Name, time: u64 },
    /// Out of memory.
    OutOfMemory,
}

impl From<AllocError> for RunFault {
    ghost from_gives = { λ _ fault. fault ≡ OutOfMemory };

    fn from(_: AllocError) -> RunFault {
        RunFault::OutOfMemory
    }
}
