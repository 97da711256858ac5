//! What is shown of a task at its place in an order.
use ceiling_kernel::Release;

/// A run in which a task misses its deadline: the task's index, the place of its job among the releases, from 0, and when
/// the run ends, which is at that job's deadline, in microseconds.
#[derive(Drop)]
pub struct Miss {
    pub task: usize,
    pub job: usize,
    pub until: u64,
    pub releases: Vec<Release>,
}

/// Why the worst case of a task that may not be placed there isn't a run in which it misses its deadline.
#[derive(Clone, Copy, Debug, PartialEq, Eq)]
pub enum NoRun {
    /// It passes, but a task stands above it above which it must stand: of these the one of least rank.
    MustOutrank { other: usize },
    /// Its worst case has more than 10,000 releases.
    TooMany,
    /// This one above it doesn't pass, the lowest such: in the worst case a job above overruns, or this one's is done in time.
    Below { above: usize },
    /// A job's last tick is inside a section that a task above reaches, so that it finishes sooner than the analysis says:
    /// in time in the worst case.
    EndsInside,
    /// Without timers and interrupts it would pass with a tick less of the section that blocks it, which has begun before;
    /// not with all of it.
    WithinTick,
    /// It would pass if no timer and no interrupt took anything, as none does in a run.
    WithinInterrupts,
}

/// What is shown of a task at its place in an order.
#[derive(Drop)]
pub enum Shown {
    /// It may be placed there.
    Stands,
    /// It misses its deadline in its worst case.
    Misses(Miss),
    /// It may not be placed there, and its worst case is no run in which it misses its deadline.
    NoRun(NoRun),
}
