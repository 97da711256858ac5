//! What actors ask of the core, and what it answers.

ghost use Rattle.std.specs.Prelude.{◌≡◌};
ghost use Rattle.desk_core.specs.declared.events.Cause.TheVariants.{NoSuchDraft};
ghost use Rattle.desk_core.specs.declared.events.Reply.TheVariants.{Refused};
ghost use Rattle.desk_core.specs.World.{cause_of};

use assignment::{Finding, Question};
use drafts::{EditRefusal, Entry, Team};
use std::sync::Arc;
use task_sheet::{Name, Sheet};

/// Why an event is refused.
#[derive(Clone, Copy)]
pub enum Cause {
    /// No draft has the number, or it has ended.
    NoSuchDraft,
    /// Another team holds the name.
    NotYours,
    /// No task has the name that is to be removed.
    NoSuchTask,
    /// The draft has `CHANGE_LIMIT` changes, none of them on the name.
    DraftFull,
    /// The draft's changes are refused on its base.
    Untestable,
    /// The finding is on no candidate of the present level. Where the verdict is complete, there is no such level.
    Stranger,
    /// The candidate has a finding.
    Twice,
}

impl Cause {
    /// The cause of an edit that is refused.
    pub fn of_edit(refusal: EditRefusal) -> Cause
        ensures { result ≡ cause_of refusal }
    {
        match refusal {
            EditRefusal::NotYours => Cause::NotYours,
            EditRefusal::NoSuchTask => Cause::NoSuchTask,
            EditRefusal::DraftFull => Cause::DraftFull,
        }
    }
}

/// What an actor asks of the core.
#[derive(Drop)]
pub enum Event {
    /// A draft on the present state.
    Open { team: Team },
    /// A sheet for a draft.
    Put { draft: usize, sheet: Sheet },
    /// The task of a name is removed in a draft.
    Remove { draft: usize, name: Name },
    /// A finding for the test of a draft.
    Found { draft: usize, finding: Finding },
    /// A decision on a draft.
    Commit { draft: usize },
    /// A draft ends without a decision.
    Abandon { draft: usize },
}

/// What the core answers.
#[derive(Drop)]
pub enum Reply {
    /// The draft's number, from 1, and the version of its base.
    Opened {
        draft: usize,
        version: u64,
    },
    /// The change is made, or the draft has ended.
    Done,
    /// The finding is taken; it doesn't decide the present level.
    Taken,
    /// The finding decides a level, counted from 1: this task has it, and this response in microseconds.
    LevelDone {
        level: usize,
        name: Name,
        response: u64,
    },
    /// The finding completes the verdict. The names of the obstruction by rank; none where some order passes.
    Tested {
        infeasible: Vec<Name>,
    },
    /// The draft was tested on a state before the present one. It is now on the present one, of this version, without
    /// findings.
    Stale {
        version: u64,
    },
    /// The entry is logged at this place, counted from 1, and the draft has ended.
    Decided {
        place: usize,
        entry: Arc<Entry>,
    },
    /// Nothing changes.
    Refused {
        cause: Cause,
    },
}

impl Reply {
    // The reply where the draft isn't live.
    pub(crate) fn no_such_draft() -> Reply
        ensures { result ≡ Refused NoSuchDraft }
    {
        let cause = Cause::NoSuchDraft;
        Reply::Refused { cause }
    }
}

/// Where a draft stands.
#[derive(Drop)]
pub enum Standing {
    NoSuchDraft,
    /// Its changes are refused on its base.
    Untestable,
    /// The question on the missing candidate of least rank at the present level.
    Asking { question: Question },
    /// The names of the obstruction by rank; none where it is admitted.
    Tested { infeasible: Vec<Name> },
}
