//! Changes with what becomes of the set that they come to.

ghost use Rattle.std.specs.Prelude.{◌≡◌, ◌<◌, ◌≤◌, [], length, All, IfOk, vec_capacity};
ghost use Rattle.task_sheet.specs.declared.set.TheConstants.{TASK_LIMIT};
ghost use Rattle.task_sheet.specs.Indexes.{among, indexes_of};
ghost use Rattle.task_sheet.specs.Verdicts.{tasks_of};
ghost use Rattle.assignment.specs.Placings.{IsPlacingOf, places_of};
ghost use Rattle.assignment.specs.Verdict.{verdict_set};
ghost use Rattle.drafts.specs.Applied.{applied};
ghost use Rattle.drafts.specs.Outcomes.{IsJudged, IsJudgedSet};

use crate::applying::{Applied, apply};
use crate::change::Refusal;
use crate::draft::Draft;
use crate::placed::{BestOrder, StuckSet};
use crate::state::NodeState;
use assignment::{Failure, LevelRecord, Place, Placing, Verdict, place_all};
use ceilings::{LockTable, Tabled};
use std::alloc::{AllocError, Global};
use std::sync::Arc;
use task_sheet::{Members, TaskSet};

/// What changes come to, with what becomes of the set.
#[derive(Drop)]
pub enum Judged {
    Refused { refusal: Refusal },
    /// Some order passes; this is the best.
    Best { order: BestOrder },
    /// No order passes.
    Stuck { stuck: StuckSet },
}

/// A set with its placing.
pub fn judged_as(set: Arc<TaskSet>, placing: Placing) -> Judged
    requires { IsPlacingOf set.value placing }
    ensures { IsJudgedSet set.value result }
{
    match placing {
        Placing::Best(places) => Judged::Best {
            order: BestOrder::new(set, places),
        },
        Placing::Stuck(members) => Judged::Stuck {
            stuck: StuckSet::new(set, members),
        },
    }
}

// The places of levels, into a list with room for them.
fn places_of(levels: &[LevelRecord], mut places: Vec<Place>) -> Vec<Place>
    requires empty { places.items ≡ [] }
    requires room { length levels.now ≤ vec_capacity places }
    ensures { result.items ≡ places_of levels.now }
{
    for level in levels {
        places.push_reserved(Place {
            task: level.task,
            response: level.response,
        });
    }
    places
}

// The tasks that fail.
fn members_of(fails: &[Failure]) -> Members
    requires { All (λ f. f.task < TASK_LIMIT) fails.now }
    ensures { indexes_of result ≡ among (tasks_of fails.now) }
{
    let mut members = Members::empty();
    for failure in fails {
        members = members.with(failure.task);
    }
    members
}

/// A set with what its verdict says, without the reasons, into a list with room for its tasks.
pub fn judged_by(set: Arc<TaskSet>, verdict: &Verdict, room: Vec<Place>) -> Judged
    requires same { verdict_set verdict.now ≡ set.value }
    requires empty { room.items ≡ [] }
    requires room { length set.value ≤ vec_capacity room }
    ensures { IsJudgedSet set.value result }
{
    match verdict {
        Verdict::Admitted(assignment) => Judged::Best {
            order: BestOrder::new(set, places_of(assignment.levels(), room)),
        },
        Verdict::Infeasible(obstruction) => {
            // The set is small: the proof has it from its number.
            let _ = set.len();
            Judged::Stuck {
                stuck: StuckSet::new(set, members_of(obstruction.members())),
            }
        }
    }
}

/// What becomes of a set, worked out on the caller's thread.
pub(crate) fn judge_set(alloc: Global, set: Arc<TaskSet>) -> Result<Judged, AllocError>
    ensures { IfOk result (λ judged. IsJudgedSet set.value judged) }
{
    let table = LockTable::new(alloc, &set)?;
    let placing = place_all(alloc, &Tabled::of(&set, &table))?;
    Ok(judged_as(set, placing))
}

/// What a draft's changes come to on a state, tested on the caller's thread.
pub fn judge(alloc: Global, draft: &Draft, state: &NodeState) -> Result<Judged, AllocError>
    ensures { IfOk result (λ judged. IsJudged
        (applied draft.now.team state.now.node draft.now.changes) judged) }
{
    match apply(alloc, draft, state)? {
        Applied::Refused { refusal } => Ok(Judged::Refused { refusal }),
        Applied::Tasks { set } => judge_set(alloc, set),
    }
}
