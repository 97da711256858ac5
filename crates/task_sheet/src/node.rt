//! What the node itself takes, as a document says it.
ghost use Rattle.std.specs.Prelude.{◌≡◌};
ghost use Rattle.task_sheet.specs.Sheet.{no_overhead};

/// The most interrupts of a set.
pub const INTERRUPT_LIMIT: usize = 8;

/// The shortest period of an interrupt, in microseconds.
pub const INTERRUPT_FROM: u64 = 100;

/// What the node itself takes beside the tasks' own work; times in microseconds.
#[derive(Clone, Copy, Debug, PartialEq, Eq)]
pub struct Node {
    /// Of each job: its timer, the switches to and from it, its call to sleep.
    pub job: u64,
    /// Of each lock of each section: locking and unlocking it.
    pub lock: u64,
    /// How long after a timer's time its thread begins at most.
    pub late: u64,
    /// Of whoever executes when a task's timer comes; it is a part of `job`.
    pub release: u64,
}

impl Node {
    /// A node that takes nothing.
    pub fn none() -> Node
        ensures { result ≡ no_overhead }
    {
        Node {
            job: 0,
            lock: 0,
            late: 0,
            release: 0,
        }
    }
}

/// An interrupt that no task asks for, as of a clock or a device; times in microseconds.
#[derive(Clone, Copy, Debug, PartialEq, Eq)]
pub struct Interrupt {
    /// The least time between two of them: from 100 to 10,000,000.
    pub period: u64,
    /// What each takes of whoever executes: at most its period.
    pub cost: u64,
}
