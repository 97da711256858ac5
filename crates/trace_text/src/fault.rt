//! Why a text is no trace of a set.
ghost use Rattle.std.specs.Prelude.{◌≡◌};
ghost use Rattle.trace_text.specs.declared.fault.TraceFault.TheVariants.{OutOfMemory};

use std::alloc::AllocError;

/// Why a text is no trace of a set. Lines are counted from 1. Each is looked for over the whole text before the next.
#[derive(Clone, Copy, Debug, PartialEq, Eq)]
pub enum TraceFault {
    /// The line is none that a trace may have.
    BadLine { line: u64 },
    /// The slice of the line begins before the end of the one before it.
    SliceOverlap { line: u64 },
    /// The job of the line arrives before the one before it.
    JobUnsorted { line: u64 },
    /// There are more slices or jobs than the limits.
    TooManyLines,
    /// The slice of the line is of a task of the set, and lies in no job of it.
    NoJob { line: u64 },
    /// An allocation was refused.
    OutOfMemory,
}

impl From<AllocError> for TraceFault {
    ghost from_gives = { λ _ fault. fault ≡ OutOfMemory };

    fn from(_e: AllocError) -> TraceFault {
        TraceFault::OutOfMemory
    }
}
