//! Sets of tasks.
ghost use Rattle.std.specs.Prelude.{◌≡◌, ◌≢◌, ◌==◌, ◌↔◌, ◌+◌, ◌≤◌, List, [], ◌∷◌, ◌++◌, length, true, false, Some, None, Err, IsTrue, IfOk, IfErr, All, option_map, slice_get, position};
ghost use Rattle.task_sheet.specs.Sheet.{Task, IsValidSheet, same_bytes};
ghost use Rattle.task_sheet.specs.Rank.{IsByRank};
ghost use Rattle.task_sheet.specs.TaskSet.{IsTaskSet, AreDistinct, first_repeat, has_name, others_of, same_name};
ghost use Rattle.task_sheet.specs.declared.set.TheConstants.{TASK_LIMIT};
ghost use Rattle.task_sheet.specs.SheetsFault.{sheets_fault, with_fault};

use crate::name::Name;
use crate::sheet::Sheet;
use std::alloc::{AllocError, Global};
use std::collections::BTreeSet;
use std::fmt;
use std::marker::Model;
use thiserror::Error;

/// The most tasks of a set.
pub const TASK_LIMIT: usize = 32;

/// Why sheets are no set. A task is named by its place among those given, from 1.
#[derive(Clone, Copy, Debug, PartialEq, Eq, Error)]
pub enum SetCause {
    /// The task is the first with the name of one before it.
    SameName { task: usize },
    /// There are more than 32 tasks.
    TooManyTasks,
    /// An allocation was refused.
    OutOfMemory,
}

impl fmt::Display for SetCause {
    fn fmt<W: fmt::Write>(&self, f: &mut fmt::Formatter<W>) -> fmt::Result {
        match self {
            SetCause::SameName { task } => write!(f, "task {task}: a task before it has its name"),
            SetCause::TooManyTasks => f.write_str("more than 32 tasks"),
            SetCause::OutOfMemory => f.write_str("out of memory"),
        }
    }
}

/// The sheets are no set. They are handed back in their order.
#[derive(Debug, Drop)]
pub struct SheetsFault {
    /// The first reason, in the order that `TaskSet::new` gives.
    pub cause: SetCause,
    /// The sheets as they were given.
    pub sheets: Vec<Sheet>,
}

/// Why a sheet can't be added to a set.
#[derive(Clone, Copy, Debug, PartialEq, Eq)]
pub enum WithCause {
    /// A task of the set has its name.
    SameName,
    /// The set has 32 tasks.
    TooManyTasks,
    /// An allocation was refused.
    OutOfMemory,
}

/// The sheet was not added to a set. It is handed back.
#[derive(Debug, Drop)]
pub struct WithFault {
    /// The first reason, in the order that `TaskSet::with` gives.
    pub cause: WithCause,
    /// The sheet as it was given.
    pub sheet: Sheet,
}

/// Why a task can't be taken out of a set.
#[derive(Clone, Copy, Debug, PartialEq, Eq)]
pub enum WithoutFault {
    /// No task of the set has the name.
    NoSuchTask,
    /// An allocation was refused.
    OutOfMemory,
}

/// At most 32 sheets with distinct names, by rank: by weight, then by the bytes of the name. A task's
/// index in the set is its place in this order, from 0. Tasks of less rank are wanted at lower levels, where
/// levels are assigned from the lowest up (Audsley 1991).
#[derive(Debug, Drop)]
pub struct TaskSet {
    sheets: Vec<Sheet>,
}

impl Model for TaskSet {
    ghost use Rattle.std.specs.Prelude.{List};
    ghost use Rattle.task_sheet.specs.Sheet.{Task};

    ghost Value = { List Task };

    ghost use Rattle.task_sheet.specs.SetFields.{sheets_of, IsSetKept};

    ghost view = { sheets_of };

    ghost invariant = { IsSetKept };
}

// Some sheet has the name.
fn is_taken(sheets: &[Sheet], name: Name) -> bool
    ensures { result ≡ has_name sheets.now name }
{
    sheets.iter().any(|sheet| sheet.name() == name)
}

// The place of the first sheet that has the name of one before it.
fn first_repeat(alloc: Global, sheets: &[Sheet]) -> Result<Option<usize>, AllocError>
    ensures first { IfOk result (λ place. place ≡ first_repeat [] 1 sheets.now) }
    ensures valid { IfOk result (λ place. place ≡ None → All IsValidSheet sheets.now) }
    ensures distinct { IfOk result (λ place. place ≡ None → AreDistinct same_name sheets.now) }
{
    let mut names = BTreeSet::new(alloc);
    for (i, sheet) in sheets.iter().enumerate() {
        if !names.insert(sheet.name())? {
            return Ok(Some(i + 1));
        }
    }
    Ok(None)
}

/// Sheets that say the same.
pub fn copy_sheets(alloc: Global, sheets: &[Sheet]) -> Result<Vec<Sheet>, AllocError>
    ensures { IfOk result (λ v. v.items ≡ sheets.now) }
{
    let mut copies = Vec::new(alloc);
    for sheet in sheets {
        copies.push(sheet.copy(alloc)?)?;
    }
    Ok(copies)
}

/// Sheets that say the same as those that have another name.
pub fn copy_others(alloc: Global, sheets: &[Sheet], name: Name) -> Result<Vec<Sheet>, AllocError>
    ensures { IfOk result (λ v. v.items ≡ others_of sheets.now name) }
{
    let mut others = Vec::new(alloc);
    for sheet in sheets {
        if sheet.name() != name {
            others.push(sheet.copy(alloc)?)?;
        }
    }
    Ok(others)
}

// The set of the sheets.
fn by_rank(mut sheets: Vec<Sheet>) -> TaskSet
    requires valid { All IsValidSheet sheets.items }
    requires distinct { AreDistinct same_name sheets.items }
    requires few { length sheets.items ≤ TASK_LIMIT }
    ensures { IsByRank sheets.items result }
{
    sheets.sort_unstable_by_key(|sheet| (sheet.weight(), sheet.name()));
    TaskSet { sheets }
}

impl TaskSet {
    /// The set of the sheets. Refused in this order: `SameName`, `TooManyTasks`.
    pub fn new(alloc: Global, sheets: Vec<Sheet>) -> Result<TaskSet, SheetsFault>
        ensures ok { IfOk result (λ set. (sheets_fault sheets.items ≡ None)
            × IsByRank sheets.items set) }
        ensures err { IfErr result (λ e. e.cause ≢ SetCause.OutOfMemory
            → sheets_fault sheets.items ≡ Some e.cause) }
        ensures back { IfErr result (λ e. e.sheets.items ≡ sheets.items) }
    {
        let cause = match first_repeat(alloc, &sheets) {
            Ok(None) if sheets.len() <= TASK_LIMIT => return Ok(by_rank(sheets)),
            Ok(None) => SetCause::TooManyTasks,
            Ok(Some(task)) => SetCause::SameName { task },
            Err(_) => SetCause::OutOfMemory,
        };
        Err(SheetsFault { cause, sheets })
    }

    /// How many tasks the set has.
    pub fn len(&self) -> usize
        ensures count { result ≡ length self.now }
        ensures limit { result ≤ TASK_LIMIT }
    {
        self.sheets.len()
    }

    /// Whether the set has no task.
    pub fn is_empty(&self) -> bool
        ensures { result ≡ (length self.now == 0) }
    {
        self.sheets.is_empty()
    }

    /// The sheet at an index; none past the last.
    pub fn get(&self, index: usize) -> Option<&Sheet>
        ensures { option_map (λ s. s.now) result ≡ slice_get self.now index }
    {
        self.sheets.get(index)
    }

    /// The index of the task with a name; none where no task has it.
    pub fn find(&self, name: Name) -> Option<usize>
        ensures { result ≡ position (λ s. same_bytes s.name name) self.now }
    {
        self.sheets.iter().position(|sheet| sheet.name() == name)
    }

    /// The sheets by rank, as a slice.
    pub fn sheets(&self) -> &[Sheet]
        ensures same { result.now ≡ self.now }
        ensures kept { IsTaskSet self.now }
    {
        &self.sheets
    }

    /// The sheets by rank.
    pub fn into_sheets(self) -> Vec<Sheet>
        ensures { result.items ≡ self }
    {
        self.sheets
    }

    /// Whether two sets say the same: equal sheets in the order of rank, with their sections and locks in order.
    pub fn is_same(&self, other: &TaskSet) -> bool
        ensures { IsTrue result ↔ (self.now ≡ other.now) }
    {
        self.sheets.as_slice() == other.sheets.as_slice()
    }

    /// A set that says the same.
    pub fn copy(&self, alloc: Global) -> Result<TaskSet, AllocError>
        ensures { IfOk result (λ set. set ≡ self.now) }
    {
        let sheets = copy_sheets(alloc, &self.sheets)?;
        Ok(TaskSet { sheets })
    }

    /// The set of these tasks and one more. Refused in this order: `SameName`, `TooManyTasks`.
    pub fn with(&self, alloc: Global, sheet: Sheet) -> Result<TaskSet, WithFault>
        ensures ok { IfOk result (λ set. (with_fault self.now sheet ≡ None)
            × IsByRank (self.now ++ sheet ∷ []) set) }
        ensures err { IfErr result (λ e. e.cause ≢ WithCause.OutOfMemory
            → with_fault self.now sheet ≡ Some e.cause) }
        ensures memory { IfErr result (λ e. e.cause ≡ WithCause.OutOfMemory
            → with_fault self.now sheet ≡ None) }
        ensures back { IfErr result (λ e. e.sheet ≡ sheet) }
    {
        if is_taken(&self.sheets, sheet.name()) {
            let cause = WithCause::SameName;
            return Err(WithFault { cause, sheet });
        }
        if self.sheets.len() >= TASK_LIMIT {
            let cause = WithCause::TooManyTasks;
            return Err(WithFault { cause, sheet });
        }
        let cause = WithCause::OutOfMemory;
        let Ok(mut sheets) = copy_sheets(alloc, &self.sheets) else {
            return Err(WithFault { cause, sheet });
        };
        match sheets.push(sheet) {
            Ok(()) => Ok(by_rank(sheets)),
            Err(refused) => Err(WithFault {
                cause,
                sheet: refused.value,
            }),
        }
    }

    /// The set of these tasks without the one that has the name. Refused: `NoSuchTask`.
    pub fn without(&self, alloc: Global, name: Name) -> Result<TaskSet, WithoutFault>
        ensures ok { IfOk result (λ set. (has_name self.now name ≡ true)
            × (set ≡ others_of self.now name)) }
        ensures absent { (result ≡ Err WithoutFault.NoSuchTask) ↔ (has_name self.now name ≡ false) }
    {
        if !is_taken(&self.sheets, name) {
            return Err(WithoutFault::NoSuchTask);
        }
        match copy_others(alloc, &self.sheets, name) {
            Ok(sheets) => Ok(TaskSet { sheets }),
            Err(_) => Err(WithoutFault::OutOfMemory),
        }
    }
}
