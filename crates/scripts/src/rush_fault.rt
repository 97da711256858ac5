//! Why the teams of a script have no log.

use std::alloc::{AllocError, AllocFailed};

/// Why lines were not run to the end of all teams.
#[derive(Clone, Copy, Debug, PartialEq, Eq)]
pub enum RushFault {
    /// Memory ran out.
    OutOfMemory,
    /// The system refused a thread.
    ThreadRefused,
    /// The book's tasks of a team are not those that its pass knows.
    Foreign,
    /// The book's version is below that of an admission that a pass knows.
    Behind,
    /// The receipts of a pass are not its team's entries.
    ReceiptMismatch,
}

impl From<AllocError> for RushFault {
    ghost use Rattle.std.specs.Prelude.{◌≡◌};
    ghost use Rattle.scripts.specs.declared.rush_fault.RushFault.TheVariants.{OutOfMemory};

    ghost from_gives = { λ _ fault. fault ≡ OutOfMemory };

    fn from(_e: AllocError) -> RushFault {
        RushFault::OutOfMemory
    }
}

impl<T: Drop> From<AllocFailed<T>> for RushFault {
    ghost use Rattle.std.specs.Prelude.{◌≡◌};
    ghost use Rattle.scripts.specs.declared.rush_fault.RushFault.TheVariants.{OutOfMemory};

    ghost from_gives = { λ _ fault. fault ≡ OutOfMemory };

    fn from(_e: AllocFailed<T>) -> RushFault {
        RushFault::OutOfMemory
    }
}
