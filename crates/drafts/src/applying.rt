//! What changes make of what stands on the node.

ghost use Rattle.std.specs.Prelude.{◌≡◌, None, IfOk};
ghost use Rattle.std.specs.List.Sorted.{IsStrictlySortedBy};
ghost use Rattle.task_sheet.specs.Rank.{rank_cmp};
ghost use Rattle.task_sheet.specs.SheetsFault.{sheets_fault};
ghost use Rattle.drafts.specs.Applied.{after_change, all_changes, if_few, applied};
ghost use Rattle.drafts.specs.Rosters.{AreWithin, IsRoster, IsMade};
ghost use Rattle.drafts.specs.Outcomes.{IsApplied};

use crate::change::{Change, Refusal};
use crate::draft::Draft;
use crate::interrupts::{TeamInterrupt, charge};
use crate::roster::{Owned, is_foreign, is_there, place, sheets_of, take_out};
use crate::state::NodeState;
use crate::team::Team;
use indexmap::IndexMap;
use std::alloc::{AllocError, Global};
use std::sync::Arc;
use task_sheet::{INTERRUPT_LIMIT, Name, SetCause, Sheet, TASK_LIMIT, TaskSet};

/// What changes come to.
#[derive(Drop)]
pub enum Applied {
    /// These tasks by rank, with all interrupts of the node.
    Tasks { set: Arc<TaskSet> },
    Refused { refusal: Refusal },
}

// Puts a sheet without its interrupts, or answers why it is refused.
#[tactic(auto, using(crate::proofs::RosterLaws::roster_without, crate::proofs::RosterLaws::no_interrupts))]
fn put(
    alloc: Global,
    team: Team,
    tasks: &mut Vec<Owned>,
    sheet: &Sheet,
) -> Result<Option<Refusal>, AllocError>
    requires { IsRoster tasks.old.items }
    ensures roster { IsRoster tasks.new.items }
    ensures ok { let outcome = after_change team tasks.old.items sheet.now.name
        (Change.Put sheet.now) in
        IfOk result (IsMade outcome tasks.new.items) }
{
    let name = sheet.name();
    if is_foreign(tasks, team, name) {
        return Ok(Some(Refusal::NotYours { name }));
    }
    let sheet = sheet.copy(alloc)?.interrupted(Vec::new(alloc));
    take_out(tasks, name);
    place(tasks, Owned { sheet, team })?;
    Ok(None)
}

// Removes the task of a name, or answers why that is refused.
#[tactic(auto, using(crate::proofs::RosterLaws::roster_without))]
fn remove(team: Team, tasks: &mut Vec<Owned>, name: Name) -> Option<Refusal>
    requires { IsRoster tasks.old.items }
    ensures roster { IsRoster tasks.new.items }
    ensures made { IsMade
        (after_change team tasks.old.items name Change.Remove) tasks.new.items result }
{
    if is_foreign(tasks, team, name) {
        return Some(Refusal::NotYours { name });
    }
    if !is_there(tasks, name) {
        return Some(Refusal::NoSuchTask { name });
    }
    take_out(tasks, name);
    None
}

// Makes one change of a team, or answers why it is refused.
fn make_change(
    alloc: Global,
    team: Team,
    tasks: &mut Vec<Owned>,
    name: Name,
    change: &Change,
) -> Result<Option<Refusal>, AllocError>
    requires { IsRoster tasks.old.items }
    ensures roster { IsRoster tasks.new.items }
    ensures ok { IfOk result (IsMade
        (after_change team tasks.old.items name change.now) tasks.new.items) }
{
    match change {
        Change::Put(sheet) => put(alloc, team, tasks, sheet),
        Change::Remove => Ok(remove(team, tasks, name)),
    }
}

/// Makes a team's changes in their order, or answers why the first that is refused is.
pub fn make_changes(
    alloc: Global,
    team: Team,
    tasks: &mut Vec<Owned>,
    changes: &IndexMap<Name, Change>,
) -> Result<Option<Refusal>, AllocError>
    requires { IsRoster tasks.old.items }
    ensures roster { IsRoster tasks.new.items }
    ensures ok { IfOk result (IsMade
        (all_changes team tasks.old.items changes.now.entries) tasks.new.items) }
{
    for place in 0..changes.len() {
        let Some((name, change)) = changes.get_index(place) else {
            unreachable!();
        };
        match make_change(alloc, team, tasks, *name, change)? {
            Some(refusal) => return Ok(Some(refusal)),
            None => {}
        }
    }
    Ok(None)
}

// The set of sheets that are by rank.
#[tactic(auto, using(crate::proofs::RosterLaws::ranked_set))]
fn make_set(alloc: Global, sheets: Vec<Sheet>) -> Result<TaskSet, AllocError>
    requires ranked { IsStrictlySortedBy rank_cmp sheets.items }
    requires fits { sheets_fault sheets.items ≡ None }
    ensures { IfOk result (λ set. set ≡ sheets.items) }
{
    match TaskSet::new(alloc, sheets) {
        Ok(set) => Ok(set),
        Err(fault) => match fault.cause {
            SetCause::OutOfMemory => Err(AllocError),
            SetCause::SameName { task: _ } => unreachable!(),
            SetCause::TooManyTasks => unreachable!(),
        },
    }
}

// The set of the tasks with the interrupts, unless there are too many.
#[tactic(auto, using(crate::proofs::RosterLaws::are_interrupts))]
fn as_set(
    alloc: Global,
    tasks: Vec<Owned>,
    interrupts: &[TeamInterrupt],
) -> Result<Applied, AllocError>
    requires roster { IsRoster tasks.items }
    requires within { AreWithin interrupts.now }
    ensures { IfOk result (IsApplied (if_few interrupts.now tasks.items)) }
{
    if tasks.len() > TASK_LIMIT {
        let refusal = Refusal::TooManyTasks;
        return Ok(Applied::Refused { refusal });
    }
    if interrupts.len() > INTERRUPT_LIMIT {
        let refusal = Refusal::TooManyInterrupts;
        return Ok(Applied::Refused { refusal });
    }
    let sheets = charge(alloc, sheets_of(alloc, tasks)?, interrupts)?;
    let set = make_set(alloc, sheets)?;
    match Arc::new(alloc, set) {
        Ok(set) => Ok(Applied::Tasks { set }),
        Err(_) => Err(AllocError),
    }
}

/// What a draft's changes, in their order, come to on a state. The first that is refused decides, and after all the
/// number of tasks, then that of interrupts.
pub fn apply(alloc: Global, draft: &Draft, state: &NodeState) -> Result<Applied, AllocError>
    ensures { IfOk result (IsApplied (applied draft.now.team state.now.node draft.now.changes)) }
{
    let mut tasks = state.roster(alloc)?;
    match make_changes(alloc, draft.team(), &mut tasks, draft.changes())? {
        Some(refusal) => Ok(Applied::Refused { refusal }),
        None => {
            let interrupts = state.interrupts_after(alloc, draft.team(), draft.changes())?;
            as_set(alloc, tasks, &interrupts)
        }
    }
}
