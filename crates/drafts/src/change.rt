//! Changes, and why they are refused.
ghost use Rattle.std.specs.Prelude.{◌≡◌, ◌↔◌, IsTrue, IfOk};

use std::alloc::{AllocError, Global};
use task_sheet::{Name, Sheet};

/// What a draft does with a name.
#[derive(Drop)]
pub enum Change {
    /// The name gets the sheet; and the team the interrupts on its account, where there are some, in the place of all that
    /// it said before.
    Put(Sheet),
    /// The name's task goes. No interrupt goes with it.
    Remove,
}

impl Change {
    /// The same change again.
    pub fn copy(&self, alloc: Global) -> Result<Change, AllocError>
        ensures { IfOk result (λ change. change ≡ self.now) }
    {
        match self {
            Change::Put(sheet) => Ok(Change::Put(sheet.copy(alloc)?)),
            Change::Remove => Ok(Change::Remove),
        }
    }
}

/// Why a team's changes are refused.
#[derive(Clone, Copy)]
pub enum Refusal {
    /// Another team holds the name.
    NotYours { name: Name },
    /// No task has the name that is to be removed.
    NoSuchTask { name: Name },
    /// More than `TASK_LIMIT` tasks.
    TooManyTasks,
    /// More than `INTERRUPT_LIMIT` interrupts, of all teams.
    TooManyInterrupts,
}

impl Refusal {
    /// Whether two refusals are the same.
    pub fn is_same(&self, other: &Refusal) -> bool
        ensures { IsTrue result ↔ (self.now ≡ other.now) }
    {
        match (self, other) {
            (Refusal::NotYours { name: a }, Refusal::NotYours { name: b }) => a == b,
            (Refusal::NoSuchTask { name: a }, Refusal::NoSuchTask { name: b }) => a == b,
            (Refusal::TooManyTasks, Refusal::TooManyTasks) => true,
            (Refusal::TooManyInterrupts, Refusal::TooManyInterrupts) => true,
            _ => false,
        }
    }
}
