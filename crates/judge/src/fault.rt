//! Why a text is no settings of a set.
ghost use Rattle.std.specs.Prelude.{◌≡◌};
ghost use Rattle.judge.specs.declared.fault.SettingsFault.TheVariants.{OutOfMemory};

use std::alloc::AllocError;
use task_sheet::Name;

/// Why a text is no settings of a set. Lines are counted from 1. Each is looked for over the whole text before the
/// next.
#[derive(Clone, Copy, Debug)]
pub enum SettingsFault {
    /// The line is none that settings may have.
    BadLine { line: u64 },
    /// The thread of the line has the name of no task of the set.
    UnknownTask { line: u64 },
    /// The mutex of the line has the name of no lock of the set.
    UnknownLock { line: u64 },
    /// The thread of the line has a line before it.
    SameTask { line: u64 },
    /// The mutex of the line has a line before it.
    SameLock { line: u64 },
    /// The thread of the line has the number of one before it.
    SameNumber { line: u64 },
    /// The task has no thread: the first such by rank.
    MissingTask { name: Name },
    /// Some lock has a mutex, and this one has none: the first such in the order of first sight.
    MissingLock { name: Name },
    /// The mutex of the lock isn't at the number of its highest user, which is this: the first such in the order of first
    /// sight.
    WrongCeiling { name: Name, number: u64 },
    /// An allocation was refused.
    OutOfMemory,
}

impl From<AllocError> for SettingsFault {
    ghost from_gives = { λ _ fault. fault ≡ OutOfMemory };

    fn from(_e: AllocError) -> SettingsFault {
        SettingsFault::OutOfMemory
    }
}
