//! Reading the documents of teams.
ghost use Rattle.teams.specs.ReadsTeams.{ReadsPart};

use crate::fault::TeamsFault;
use crate::uniting::TeamSet;
use std::alloc::Global;
use task_sheet::{Name, SetFault, read_document};

/// A team's document.
#[derive(Clone, Copy)]
pub struct Part<'a> {
    pub team: Name,
    pub text: &'a [u8],
}

// The set of a document; or why it is none, with its team.
pub(crate) fn read_part(alloc: Global, part: &Part<'_>) -> Result<TeamSet, TeamsFault>
    ensures { ReadsPart part.now result }
{
    match read_document(alloc, part.text) {
        Ok(document) => Ok(TeamSet {
            team: part.team,
            set: document.set.into_sheets(),
            prefers: document.prefers,
            node: document.node,
            interrupts: document.interrupts,
        }),
        Err(SetFault::OutOfMemory) => Err(TeamsFault::OutOfMemory),
        Err(fault) => Err(TeamsFault::Of {
            team: part.team,
            fault,
        }),
    }
}
