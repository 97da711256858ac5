//! The users of locks, and the ceilings that follow from them (Sha, Rajkumar, Lehoczky 1990; POSIX.1-2017,
//! `PTHREAD_PRIO_PROTECT`).
#![tactic(auto)]

ghost use Rattle.std.specs.Prelude.{IfOk};
ghost use Rattle.task_sheet.specs.SetCodes.{set_codes};
ghost use Rattle.ceilings.specs.Holds.{TableData};
ghost use Rattle.ceilings.specs.IsTableOf.{IsTableOf};

mod holds;
mod outranked;
mod tabled;
mod users;

use crate::holds::{TaskHolds, holds_of};
use crate::outranked::outranked_of;
use crate::users::LockUsers;
use std::alloc::{AllocError, Global};
use std::marker::Model;
pub use tabled::Tabled;
use task_sheet::{Members, TASK_LIMIT, TaskSet};

/// What the names of a set come to: each lock, in the order of first sight, with the tasks that use it; what the sections
/// of each task hold; and the tasks above which each task must stand. It is made once a set, and lent to each question.
#[derive(Drop)]
pub struct LockTable {
    users: LockUsers,
    holds: Vec<TaskHolds>,
    outranked: [Members; TASK_LIMIT],
}

impl Model for LockTable {
    ghost Value = { TableData };

    ghost coded = { Prim.hlevel set_codes };

    ghost view = { λ t. record {
      users = t.users;
      holds = t.holds.items;
      outranked = t.outranked;
    } };
}

impl LockTable {
    /// The table of a set's locks. The error is out of memory.
    pub fn new(alloc: Global, set: &TaskSet) -> Result<LockTable, AllocError>
        ensures { IfOk result (λ table. IsTableOf set.now table) }
    {
        let users = LockUsers::new(alloc, set)?;
        let holds = holds_of(alloc, set, &users)?;
        let outranked = outranked_of(set);
        Ok(LockTable {
            users,
            holds,
            outranked,
        })
    }
}
