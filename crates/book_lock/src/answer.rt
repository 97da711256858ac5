//! Answers of a desk.

use drafts::{NodeState, Proposal};
use std::sync::Arc;
use task_sheet::Name;

/// What became of a proposal.
#[derive(Drop)]
pub enum Settlement {
    /// The pass keeps a receipt of this place.
    Decided {
        place: usize,
    },
    /// The present version is above its base; nothing changed.
    Stale {
        fresh: Arc<NodeState>,
        proposal: Proposal,
    },
}

/// Why a proposal was not settled; it is handed back.
#[derive(Drop)]
pub enum DeskFault {
    /// It isn't the pass's team's.
    OtherTeam { proposal: Proposal },
    /// Its base is of a version above the present one; or of the present one, but on the present state its changes don't
    /// come to what was judged.
    Stranger { proposal: Proposal },
    OutOfMemory { proposal: Proposal },
}

/// Why no draft was opened.
#[derive(Drop)]
pub enum OpenFault {
    /// The book's tasks of the team aren't those of the pass: the first name on which they differ.
    Foreign { name: Name },
    /// The book's version is below that of an admitted receipt of the pass.
    Behind { version: u64 },
    OutOfMemory,
}
