//! Rosters: the tasks on the node with their teams, by rank, while changes are made.

ghost use Rattle.std.specs.Prelude.{◌≡◌, ◌↔◌, ◌≤◌, ◌<◌, length, insert, position, not, option_copied, IsTrue, IfOk, OnOk, OnErr};
ghost use Rattle.std.specs.Ordering.{is_lt};
ghost use Rattle.task_sheet.specs.Rank.{rank_cmp};
ghost use Rattle.drafts.specs.Applied.{sheets_of, held, is_foreign, is_there, without_name, placed};

use crate::team::Team;
use std::alloc::{AllocError, Global};
use task_sheet::{Name, Sheet};

/// A sheet on the node, and the team that holds it.
#[derive(Drop)]
pub struct Owned {
    pub sheet: Sheet,
    pub team: Team,
}

impl Owned {
    /// The same task again.
    pub fn copy(&self, alloc: Global) -> Result<Owned, AllocError>
        ensures { IfOk result (λ task. task ≡ self.now) }
    {
        Ok(Owned {
            sheet: self.sheet.copy(alloc)?,
            team: self.team,
        })
    }

    /// Whether two tasks are the same.
    pub fn is_same(&self, other: &Owned) -> bool
        ensures { IsTrue result ↔ (self.now ≡ other.now) }
    {
        self.sheet == other.sheet && self.team.number() == other.team.number()
    }
}

// The same tasks again.
pub(crate) fn copy_tasks(alloc: Global, tasks: &[Owned]) -> Result<Vec<Owned>, AllocError>
    ensures { IfOk result (λ copies. copies.items ≡ tasks.now) }
{
    let mut copies = Vec::with_capacity(alloc, tasks.len())?;
    for task in tasks {
        copies.push(task.copy(alloc)?)?;
    }
    Ok(copies)
}

// Whether two lists of tasks are the same.
pub(crate) fn are_same(first: &[Owned], second: &[Owned]) -> bool
    ensures { IsTrue result ↔ (first.now ≡ second.now) }
{
    if first.len() != second.len() {
        return false;
    }
    for index in 0..first.len() {
        if !first[index].is_same(&second[index]) {
            return false;
        }
    }
    true
}

// The sheets, without their teams.
pub(crate) fn sheets_of(alloc: Global, tasks: Vec<Owned>) -> Result<Vec<Sheet>, AllocError>
    ensures { IfOk result (λ sheets. sheets.items ≡ sheets_of tasks.items) }
{
    let mut sheets = Vec::with_capacity(alloc, tasks.len())?;
    for task in tasks {
        sheets.push(task.sheet)?;
    }
    Ok(sheets)
}

/// The task of a name.
pub fn find_task(tasks: &[Owned], name: Name) -> Option<&Owned>
    ensures { option_copied result ≡ held name tasks.now }
{
    tasks.iter().find(|task| task.sheet.name() == name)
}

// Whether another team holds the name.
pub(crate) fn is_foreign(tasks: &[Owned], team: Team, name: Name) -> bool
    ensures { result ≡ is_foreign team (held name tasks.now) }
{
    match find_task(tasks, name) {
        Some(task) => task.team.number() != team.number(),
        None => false,
    }
}

// Whether a task has the name.
pub(crate) fn is_there(tasks: &[Owned], name: Name) -> bool
    ensures { result ≡ is_there (held name tasks.now) }
{
    find_task(tasks, name).is_some()
}

// Takes the task of a name out.
pub(crate) fn take_out(tasks: &mut Vec<Owned>, name: Name)
    ensures { tasks.new.items ≡ without_name name tasks.old.items }
{
    tasks.retain(|task| task.sheet.name() != name);
}

// Whether a task is of lesser rank than another.
fn is_before(first: &Sheet, second: &Sheet) -> bool
    ensures { result ≡ is_lt (rank_cmp first.now second.now) }
{
    (first.weight(), first.name()) < (second.weight(), second.name())
}

// The first task that is not before another by rank.
fn first_beyond(tasks: &[Owned], task: &Owned) -> Option<usize>
    ensures { result ≡ position (λ x. not (is_lt (rank_cmp x.sheet task.now.sheet))) tasks.now }
{
    tasks
        .iter()
        .position(|other| !is_before(&other.sheet, &task.sheet))
}

// Where a task goes by its rank.
#[tactic(auto, using(crate::proofs::RosterLaws::place_some, crate::proofs::RosterLaws::place_none))]
fn place_of(tasks: &[Owned], task: &Owned) -> usize
    ensures within { result ≤ length tasks.now }
    ensures placed { insert tasks.now result task.now ≡ placed task.now tasks.now }
{
    match first_beyond(tasks, task) {
        Some(place) => place,
        None => tasks.len(),
    }
}

// Puts a task in by its rank.
pub(crate) fn place(tasks: &mut Vec<Owned>, task: Owned) -> Result<(), AllocError>
    ensures ok { OnOk result (tasks.new.items ≡ placed task tasks.old.items) }
    ensures err { OnErr result (tasks.new.items ≡ tasks.old.items) }
{
    let place = place_of(tasks, &task);
    tasks.insert(place, task)?;
    Ok(())
}
