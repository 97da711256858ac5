//! Sets with the tables of their locks.
ghost use Rattle.std.specs.Prelude.{◌≡◌, ◌<◌, ◌≤◌, ℕ, length, position, slice_get, All};
ghost use Rattle.task_sheet.specs.Sheet.{same_bytes, task_at};
ghost use Rattle.task_sheet.specs.declared.set.TheConstants.{TASK_LIMIT};
ghost use Rattle.task_sheet.specs.Indexes.{indexes_of};
ghost use Rattle.task_sheet.specs.Locks.{uses, reaches, ceiling_of};
ghost use Rattle.task_sheet.specs.Orders.{must_outrank};
ghost use Rattle.task_sheet.specs.TaskSet.{IsTaskSet};
ghost use Rattle.ceilings.specs.Holds.{longest_outside};
ghost use Rattle.ceilings.specs.IsTableOf.{IsTableOf, locks_of};

use crate::LockTable;
use crate::holds::longest_held;
use std::marker::Model;
use task_sheet::{Members, Name, Section, Sheet, TASK_LIMIT, TaskSet};

/// A set with the table of its locks, which is made once and lent to each question.
#[derive(Drop)]
pub struct Tabled<'a> {
    set: &'a TaskSet,
    table: &'a LockTable,
}

impl<'a> Model for Tabled<'a> {
    ghost use Rattle.std.specs.Prelude.{List};
    ghost use Rattle.task_sheet.specs.Sheet.{Task};
    ghost use Rattle.ceilings.specs.IsTableOf.{IsTableOf};

    ghost Value = { List Task };

    ghost view = { λ t. t.set.now };

    ghost invariant = { λ t. IsTableOf t.set.now t.table.now };
}

impl<'a> Tabled<'a> {
    /// A set with its table.
    pub fn of(set: &'a TaskSet, table: &'a LockTable) -> Tabled<'a>
        requires { IsTableOf set.now table.now }
        ensures { result ≡ set.entry.now }
    {
        Tabled { set, table }
    }

    /// The set.
    pub fn tasks(&self) -> &'a TaskSet
        ensures { result.now ≡ self.now }
    {
        self.set
    }

    /// The table: it serves each set that has the same locks, sections and names to outrank.
    pub fn table(&self) -> &'a LockTable
        ensures { IsTableOf self.now result.now }
    {
        self.table
    }

    /// The sheets by rank, as a slice.
    pub fn sheets(&self) -> &'a [Sheet]
        ensures same { result.now ≡ self.now }
        ensures kept { IsTaskSet self.now }
    {
        self.set.sheets()
    }

    /// How many tasks the set has.
    pub fn len(&self) -> usize
        ensures count { result ≡ length self.now }
        ensures limit { result ≤ TASK_LIMIT }
    {
        self.set.len()
    }

    /// The tasks that use a lock: none for a lock that nobody names.
    pub fn users(&self, lock: Name) -> Members
        ensures { (k : ℕ) → indexes_of result k ≡ uses (task_at self.now k) lock }
    {
        let table = self.table;
        table.users.users(lock)
    }

    /// How many locks the set has.
    pub fn lock_count(&self) -> usize
        ensures { result ≡ length (locks_of self.now) }
    {
        let table = self.table;
        table.users.count()
    }

    /// The place of a lock in the order of first sight, from 0; none for a lock that nobody names.
    pub fn lock_index(&self, lock: Name) -> Option<usize>
        ensures { result ≡ position (same_bytes lock) (locks_of self.now) }
    {
        let table = self.table;
        table.users.index_of(lock)
    }

    /// The lock at a place in the order of first sight, from 0; none past the last.
    pub fn lock_at(&self, place: usize) -> Option<Name>
        ensures { result ≡ slice_get (locks_of self.now) place }
    {
        let table = self.table;
        table.users.lock_at(place)
    }

    /// Whether some member uses one of the section's locks.
    pub fn reaches(&self, section: &Section, members: Members) -> bool
        ensures { result ≡ reaches self.now (indexes_of members) section.now }
    {
        let table = self.table;
        table.users.reaches(section, members)
    }

    /// The length of the longest section, of a task that is no member, that the members reach; 0 if there is none.
    pub fn longest_outside(&self, members: Members) -> u64
        ensures { result ≡ longest_outside self.now (indexes_of members) }
    {
        let table = self.table;
        longest_held(&table.holds, members)
    }

    /// The tasks of the set above which the task at an index must stand.
    pub fn outranked(&self, task: usize) -> Members
        requires { task < length self.now }
        ensures { (k : ℕ) → k < length self.now → indexes_of result k ≡ must_outrank self.now task k }
    {
        let table = self.table;
        table.outranked[task]
    }

    /// The ceiling of a lock where the tasks stand in this order, lowest first: the level, from 1, of its highest user;
    /// none for a lock that nobody names.
    pub fn ceiling(&self, lock: Name, order: &[usize]) -> Option<u32>
        requires within { All (λ index. index < TASK_LIMIT) order.now }
        requires few { length order.now ≤ TASK_LIMIT }
        ensures { result ≡ ceiling_of self.now order.now lock }
    {
        let table = self.table;
        table.users.ceiling(lock, order)
    }
}
