//! Why documents of teams are no set.
ghost use Rattle.std.specs.Prelude.{◌≡◌};
ghost use Rattle.teams.specs.declared.fault.TeamsFault.TheVariants.{OutOfMemory};

use crate::node::{NodeFault, Quantity};
use overheads::PadFault;
use std::alloc::AllocError;
use task_sheet::{Key, Name, SetFault, SheetCause};
use thiserror::Error;

/// Why a text is no set. Of documents of teams, the first reason: all are read before their tasks are put together.
#[derive(Clone, Copy, Debug, PartialEq, Eq, Error)]
pub enum TeamsFault {
    /// The text is one document, which is no set.
    #[error("{fault}")]
    Alone {
        fault: SetFault,
    },
    /// The part, by its place from 1, doesn't begin with a line `#% TEAM COUNT`, or has fewer bytes than that.
    #[error("part {part}: no head")]
    BadHead {
        part: usize,
    },
    /// A team's document is no set by itself.
    #[error("{team}: {fault}")]
    Of {
        team: Name,
        fault: SetFault,
    },
    /// A task of a team has the name of a task of another, which stands before it.
    #[error("{team}: {task} is a task of {other}")]
    Taken {
        team: Name,
        task: Name,
        other: Name,
    },
    /// A team's document has a key that is the node's: the node has a document, which doesn't give the team the right.
    #[error("{team}: {key:?} is the node's")]
    NodesOwn {
        team: Name,
        key: Key,
    },
    /// A section, by its place from 1, of a team's task takes a lock that the node's document doesn't list.
    #[error("{team}: {task}, section {section}: no lock {lock}")]
    UnknownLock {
        team: Name,
        task: Name,
        section: usize,
        lock: Name,
    },
    /// With the own names of its locks, in the place of second names, a team's task is no sheet.
    #[error("{team}: {task}: {cause}")]
    Renamed {
        team: Name,
        task: Name,
        cause: SheetCause,
    },
    /// A team's document prefers otherwise than that of another, which stands before it.
    #[error("{team}: prefers otherwise than {other}")]
    OtherPreference {
        team: Name,
        other: Name,
    },
    /// A team's document says another node than that of another, which stands before it.
    #[error("{team}: another node than {other}")]
    OtherNode {
        team: Name,
        other: Name,
    },
    /// The documents have more than 8 interrupts together.
    #[error("more than 8 interrupts")]
    TooManyInterrupts,
    /// The node's document is none.
    #[error("node: {fault}")]
    Node {
        fault: NodeFault,
    },
    /// The node's document has a budget of a team that has no document.
    #[error("no document of {team}")]
    NoSuchTeam {
        team: Name,
    },
    /// A team takes more than its budget has. A load is in thousandths, rounded up; a section is in microseconds.
    #[error("{team}: {quantity:?} {number} of {limit}")]
    PastBudget {
        team: Name,
        quantity: Quantity,
        number: u64,
        limit: u64,
    },
    /// The set has no room for what the node takes.
    #[error("{fault}")]
    Padded {
        fault: PadFault,
    },
    /// There are more than 32 tasks.
    #[error("more than 32 tasks")]
    TooManyTasks,
    /// An allocation was refused.
    #[error("out of memory")]
    OutOfMemory,
}

impl From<AllocError> for TeamsFault {
    ghost from_gives = { λ _ fault. fault ≡ OutOfMemory };

    fn from(_e: AllocError) -> TeamsFault {
        TeamsFault::OutOfMemory
    }
}
