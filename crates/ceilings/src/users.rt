//! The users of locks.
ghost use Rattle.std.specs.Prelude.{◌≡◌, ◌<◌, ◌≤◌, ℕ, List, length, position, slice_get, All, IfOk, OnOk};
ghost use Rattle.std.specs.FinSet as set;
ghost use Rattle.std.specs.Coded.{coded×, coded_list, coded_ℕ};
ghost use Rattle.task_sheet.specs.Sheet.{Task, same_bytes, task_at};
ghost use Rattle.task_sheet.specs.declared.set.TheConstants.{TASK_LIMIT};
ghost use Rattle.task_sheet.specs.Indexes.{indexes_of};
ghost use Rattle.task_sheet.specs.Locks.{uses, reaches, ceiling_of};
ghost use Rattle.ceilings.specs.Table.{locks_in, users_in, some_uses, with_user, with_section, with_user_of, Table};
ghost use Rattle.ceilings.specs.IsTableOf.{AreUsersOf, locks_of};

use indexmap::IndexMap;
use std::alloc::{AllocError, Global};
use std::marker::Model;
use task_sheet::{Members, Name, Section, Sheet, TaskSet};

/// Each lock of a set, in the order of first sight, with the tasks that use it.
#[derive(Drop)]
pub(crate) struct LockUsers {
    users: IndexMap<Name, Members>,
}

impl Model for LockUsers {
    ghost Value = { Table };

    ghost coded = { coded_list (coded× (coded_list coded_ℕ) (set.code coded_ℕ)) };

    ghost view = { λ t. t.users.entries };
}

// How often the sections name a lock.
fn uses_in(sections: &[Section]) -> usize {
    sections.iter().fold(
        0,
        |uses: usize, section| uses.saturating_add(section.locks.len()),
    )
}

// How often the sections of the sheets name a lock.
fn uses_of(sheets: &[Sheet]) -> usize {
    sheets.iter().fold(
        0,
        |uses: usize, sheet| uses.saturating_add(uses_in(sheet.sections())),
    )
}

impl LockUsers {
    /// The users of a set's locks. The error is out of memory.
    pub(crate) fn new(alloc: Global, set: &TaskSet) -> Result<LockUsers, AllocError>
        ensures { IfOk result (λ table. AreUsersOf set.now table) }
    {
        let mut table = LockUsers {
            users: IndexMap::with_capacity(alloc, uses_of(set.sheets()))?,
        };
        for (index, sheet) in set.sheets().iter().enumerate() {
            table.note_task(index, sheet)?;
        }
        Ok(table)
    }

    // Notes the task at an index as a user of the locks of its sections.
    fn note_task(&mut self, index: usize, sheet: &Sheet) -> Result<(), AllocError>
        requires { index < TASK_LIMIT }
        ensures { OnOk result (self.new ≡ with_user_of index self.old sheet.now) }
    {
        for section in sheet.sections() {
            self.note_section(index, section)?;
        }
        Ok(())
    }

    // Notes the task at an index as a user of the section's locks.
    fn note_section(&mut self, index: usize, section: &Section) -> Result<(), AllocError>
        requires { index < TASK_LIMIT }
        ensures { OnOk result (self.new ≡ with_section index self.old section.now) }
    {
        for lock in &section.locks {
            self.note_user(index, *lock)?;
        }
        Ok(())
    }

    // Notes the task at an index as a user of the lock.
    fn note_user(&mut self, index: usize, lock: Name) -> Result<(), AllocError>
        requires { index < TASK_LIMIT }
        ensures { OnOk result (self.new ≡ with_user index self.old lock) }
    {
        let users = self.users(lock).with(index);
        self.users.insert(lock, users)?;
        Ok(())
    }

    /// The tasks that use a lock: none for a lock that nobody names.
    pub(crate) fn users(&self, lock: Name) -> Members
        ensures noted { result ≡ users_in self.now lock }
        ensures uses { (U : List Task) → AreUsersOf U self.now → (k : ℕ)
            → indexes_of result k ≡ uses (task_at U k) lock }
    {
        match self.users.get(&lock) {
            Some(users) => *users,
            None => Members::empty(),
        }
    }

    /// How many locks the set has.
    pub(crate) fn count(&self) -> usize
        ensures noted { result ≡ length (locks_in self.now) }
        ensures locks { (U : List Task) → AreUsersOf U self.now → result ≡ length (locks_of U) }
    {
        self.users.len()
    }

    /// The place of a lock in the order of first sight, from 0; none for a lock that nobody names.
    pub(crate) fn index_of(&self, lock: Name) -> Option<usize>
        ensures noted { result ≡ position (same_bytes lock) (locks_in self.now) }
        ensures first_sight { (U : List Task) → AreUsersOf U self.now
            → result ≡ position (same_bytes lock) (locks_of U) }
    {
        self.users.get_index_of(&lock)
    }

    /// The lock at a place in the order of first sight, from 0; none past the last.
    pub(crate) fn lock_at(&self, place: usize) -> Option<Name>
        ensures noted { result ≡ slice_get (locks_in self.now) place }
        ensures first_sight { (U : List Task) → AreUsersOf U self.now
            → result ≡ slice_get (locks_of U) place }
    {
        match self.users.get_index(place) {
            Some((lock, _)) => Some(*lock),
            None => None,
        }
    }

    // Whether some member uses one of the locks.
    fn some_uses(&self, locks: &[Name], members: Members) -> bool
        ensures { result ≡ some_uses self.now members locks.now }
    {
        locks.iter().any(|lock| self.users(*lock).meets(members))
    }

    /// Whether some member uses one of the section's locks.
    pub(crate) fn reaches(&self, section: &Section, members: Members) -> bool
        ensures noted { result ≡ some_uses self.now members section.now.locks }
        ensures reaches { (U : List Task) → AreUsersOf U self.now
            → result ≡ reaches U (indexes_of members) section.now }
    {
        self.some_uses(&section.locks, members)
    }

    /// The ceiling of a lock where the tasks stand in this order, lowest first: the level, from 1, of its highest user;
    /// none for a lock that nobody names.
    pub(crate) fn ceiling(&self, lock: Name, order: &[usize]) -> Option<u32>
        requires within { All (λ index. index < TASK_LIMIT) order.now }
        requires few { length order.now ≤ TASK_LIMIT }
        ensures { (U : List Task) → AreUsersOf U self.now → result ≡ ceiling_of U order.now lock }
    {
        let users = self.users(lock);
        let mut highest = None;
        for (below, index) in order.iter().enumerate() {
            if users.has(*index) {
                highest = Some(below as u32 + 1);
            }
        }
        highest
    }
}
