//! What the sections of each task hold, made ready to be asked who reaches it.
ghost use Rattle.std.specs.Prelude.{◌≡◌, ◌<◌, ◌≤◌, List, length, max, IfOk, OnOk, if◌then◌else◌};
ghost use Rattle.std.specs.Ordering.{nat_cmp};
ghost use Rattle.std.specs.FinSet.{FinSet};
ghost use Rattle.task_sheet.specs.Sheet.{Task};
ghost use Rattle.task_sheet.specs.declared.set.TheConstants.{TASK_LIMIT};
ghost use Rattle.task_sheet.specs.Indexes.{indexes_of};
ghost use Rattle.task_sheet.specs.Locks.{reaches};
ghost use Rattle.task_sheet.specs.Demand.{longest_reached};
ghost use Rattle.task_sheet.specs.SetCodes.{set_codes};
ghost use Rattle.ceilings.specs.Holds.{is_reached, longest_of, longest_from, longest_held, longest_outside, HoldData, TaskHoldsData};
ghost use Rattle.ceilings.specs.IsTableOf.{AreUsersOf};

use crate::users::LockUsers;
use std::alloc::{AllocError, Global};
use std::marker::Model;
use task_sheet::{Members, Section, Sheet, TaskSet};

/// A section's hold of one lock: the users of the lock, and the section's length in microseconds.
#[derive(Clone, Copy)]
pub(crate) struct Hold {
    users: Members,
    len: u64,
}

impl Model for Hold {
    ghost Value = { HoldData };

    ghost coded = { Prim.hlevel set_codes };

    ghost view = { λ h. record { users = h.users; len = h.len } };

    ghost inverse = { λ d. record { users = d.users; len = d.len } };
}

impl Hold {
    // Whether some member uses the lock.
    fn is_reached(&self, members: Members) -> bool
        ensures { result ≡ is_reached members self.now }
    {
        self.users.meets(members)
    }
}

/// What the sections of a task hold, and a length that none of them is above.
#[derive(Drop)]
pub(crate) struct TaskHolds {
    task: usize,
    longest: u64,
    holds: Vec<Hold>,
}

impl Model for TaskHolds {
    ghost Value = { TaskHoldsData };

    ghost coded = { Prim.hlevel set_codes };

    ghost view = { λ t. record { task = t.task; holds = t.holds.items } };

    ghost invariant = { λ t. (t.task < TASK_LIMIT)
        × ((members : FinSet nat_cmp) → longest_of t.holds.items members ≤ t.longest) };
}

impl TaskHolds {
    // What the sections of the task at an index hold.
    fn new(task: usize, holds: Vec<Hold>) -> TaskHolds
        requires { task < TASK_LIMIT }
        ensures { result ≡ record { task = task; holds = holds.items } }
    {
        let longest = longest_len(&holds);
        TaskHolds {
            task,
            longest,
            holds,
        }
    }

    // The greater of a length and that of its longest section that the members reach, where it is no member.
    fn longest_with(&self, members: Members, other: u64) -> u64
        ensures { result ≡ max other (longest_from members self.now) }
    {
        if self.longest <= other || members.has(self.task) {
            return other;
        }
        other.max(longest_of(&self.holds, members))
    }
}

// The greatest length of the sections.
fn longest_len(holds: &[Hold]) -> u64
    ensures { (members : FinSet nat_cmp) → longest_of holds.now members ≤ result }
{
    let mut longest = 0;
    for hold in holds {
        longest = longest.max(hold.len);
    }
    longest
}

// The length of the longest section that the members reach; 0 if there is none.
fn longest_of(holds: &[Hold], members: Members) -> u64
    ensures { result ≡ longest_of holds.now members }
{
    let mut longest = 0;
    for hold in holds {
        if hold.is_reached(members) {
            longest = longest.max(hold.len);
        }
    }
    longest
}

// Notes the locks of a section.
fn hold_section(
    holds: &mut Vec<Hold>,
    users: &LockUsers,
    section: &Section,
) -> Result<(), AllocError>
    ensures { OnOk result ((U : List Task) → AreUsersOf U users.now → (members : FinSet nat_cmp)
        → longest_of holds.new.items members ≡ max (longest_of holds.old.items members)
        (if reaches U (indexes_of members) section.now then section.now.len else 0)) }
{
    for lock in &section.locks {
        holds.push(Hold {
            users: users.users(*lock),
            len: section.len,
        })?;
    }
    Ok(())
}

// What the sections of a task hold.
fn hold_task(alloc: Global, users: &LockUsers, sheet: &Sheet) -> Result<Vec<Hold>, AllocError>
    ensures { IfOk result
        (λ holds. (U : List Task) → AreUsersOf U users.now → (members : FinSet nat_cmp)
        → longest_of holds.items members ≡ longest_reached U (indexes_of members) sheet.now) }
{
    let mut holds = Vec::new(alloc);
    for section in sheet.sections() {
        hold_section(&mut holds, users, section)?;
    }
    Ok(holds)
}

/// What the sections of each task of a set hold. The users are those of the set's locks; the error is out of memory.
pub(crate) fn holds_of(
    alloc: Global,
    set: &TaskSet,
    users: &LockUsers,
) -> Result<Vec<TaskHolds>, AllocError>
    requires { AreUsersOf set.now users.now }
    ensures { IfOk result (λ tasks. (members : FinSet nat_cmp)
        → longest_held tasks.items members ≡ longest_outside set.now (indexes_of members)) }
{
    let mut tasks = Vec::new(alloc);
    for (index, sheet) in set.sheets().iter().enumerate() {
        let holds = hold_task(alloc, users, sheet)?;
        tasks.push(TaskHolds::new(index, holds))?;
    }
    Ok(tasks)
}

/// The length of the longest section, of a task that is no member, that the members reach; 0 if there is none. A task
/// with no longer section than one that was found isn't looked into.
pub(crate) fn longest_held(tasks: &[TaskHolds], members: Members) -> u64
    ensures { result ≡ longest_held tasks.now members }
{
    let mut longest = 0;
    for held in tasks {
        longest = held.longest_with(members, longest);
    }
    longest
}
