//! Why a certificate does not show what it says.

use task_sheet::Name;

/// The first fault of a certificate. Levels are counted from 1, the lowest first; level 0 is the
/// whole certificate.
#[derive(Clone, Copy, Debug)]
pub enum CheckFault {
    /// The certificate's version doesn't serve for the set: it is the fifth, and it shows no order or the
    /// set has no chains; or another one, and both; it is the fourth, and no task of the set has a timer
    /// that takes time or an interrupt on its account; or an earlier one, and some task has; or the first,
    /// and some task has jitter or must stand above another one.
    WrongVersion,
    /// At level 0 the levels do not name the set's tasks each once, or a member is no task or named
    /// twice; at another the failures are not of remaining tasks of smaller rank than the chosen
    /// one, by rank.
    WrongTasks { level: usize },
    /// The level's time is not from 1 to what its task's jitter leaves of the deadline, or less
    /// than its demand; or its task must stand above one that is above it.
    BadPass { level: usize },
    /// The numbers do not climb from 1 past what the jitter leaves of the deadline by the work
    /// requested; or the other task is not one above it above which it must stand.
    BadChain { level: usize, name: Name },
    /// A remaining task of smaller rank than the chosen one has no failure; this is the one of
    /// least rank.
    MissingFail { level: usize, name: Name },
    /// A set without members.
    EmptySet,
    /// Its chains are not the set's, in their order.
    WrongChains,
    /// The chain's number is less than what its parts come to.
    BadAge { name: Name },
}
