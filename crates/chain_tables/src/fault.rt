//! Why chains are none.
ghost use Rattle.std.specs.Prelude.{◌≡◌};

use std::alloc::{AllocError, AllocFailed};
use task_sheet::{Key, Name};

/// Why a document's chains are none. A chain is named by its place in the document, from 1.
#[derive(Clone, Copy, Debug, PartialEq, Eq)]
pub enum ChainCause {
    /// The chain's table has a key that is not known.
    UnknownKey { chain: usize },
    /// It lacks a key.
    MissingKey { chain: usize, key: Key },
    /// The value at a key is of another kind; a negative number is none.
    WrongKind { chain: usize, key: Key },
    /// The chain's name, or that of a task of it, is no name.
    BadName { chain: usize },
    /// The chain has no task, or more than 8.
    Length { chain: usize },
    /// A task stands twice in it.
    TaskTwice { chain: usize },
    /// The limit at a key isn't from 1 to 1,000,000,000.
    BadLimit { chain: usize, key: Key },
    /// There isn't one offset for each of its tasks.
    BadOffsets { chain: usize },
    /// When its tasks write is neither `finish` nor `deadline`.
    BadWrites { chain: usize },
    /// There are more than 16 chains.
    TooManyChains,
    /// The chain is the first with the name of one before it.
    SameName { chain: usize },
}

/// Whose a document is that a set's text has.
#[derive(Clone, Copy, Debug, PartialEq, Eq)]
pub enum Whose {
    /// The text is one document.
    Alone,
    /// The node's, in front of those of teams.
    Node,
    /// A team's.
    Team { team: Name },
}

/// Why a set's text says no chains.
#[derive(Clone, Copy, Debug, PartialEq, Eq)]
pub enum ChainFault {
    /// Those of a document are none.
    Document {
        whose: Whose,
        cause: ChainCause,
    },
    /// The team's chain has the name of one of another team, whose document stands before its own. A document of the node
    /// is called `node` in place of a team.
    Taken {
        team: Name,
        chain: Name,
        other: Name,
    },
    /// There are more than 16 chains in all documents together.
    TooManyChains,
    /// A chain has a task that the set doesn't have.
    NoSuchTask {
        chain: Name,
        task: Name,
    },
    /// The offset that a chain has of a task isn't below its period, or isn't the one that a chain before it has.
    BadOffset {
        chain: Name,
        task: Name,
    },
    /// The first task of a chain arrives more than 10,000 times until all its tasks arrive as at first.
    TooManyArrivals {
        chain: Name,
    },
    /// An allocation was refused.
    OutOfMemory,
}

impl From<AllocError> for ChainFault {
    ghost use Rattle.chain_tables.specs.declared.fault.ChainFault.TheVariants.{OutOfMemory};

    ghost from_gives = { λ _ fault. fault ≡ OutOfMemory };

    fn from(_error: AllocError) -> ChainFault {
        ChainFault::OutOfMemory
    }
}

impl<T: Drop> From<AllocFailed<T>> for ChainFault {
    ghost use Rattle.chain_tables.specs.declared.fault.ChainFault.TheVariants.{OutOfMemory};

    ghost from_gives = { λ _ fault. fault ≡ OutOfMemory };

    fn from(_error: AllocFailed<T>) -> ChainFault {
        ChainFault::OutOfMemory
    }
}
