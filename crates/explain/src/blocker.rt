//! The section that blocks a task longest.
ghost use Rattle.std.specs.Prelude.{◌≡◌, ◌<◌, length, find, IfSome, IfNone};
ghost use Rattle.task_sheet.specs.Sheet.{task_at};
ghost use Rattle.task_sheet.specs.Indexes.{indexes_of};
ghost use Rattle.explain.specs.Blocking.{IsBlockerOf, has_user, reached_lock, BlockerData};
ghost use Rattle.explain.specs.Blocking.{HasNoneBefore, IsFirstOf};

use blocking::blocking;
use ceilings::Tabled;
use std::marker::Model;
use task_sheet::{Members, Name, Section};

/// A section that blocks: its task's index, its place among that task's sections from 0, its length in microseconds,
/// and the first of its locks, as written, that makes it block.
#[derive(Drop)]
pub struct Blocker {
    pub task: usize,
    pub place: u32,
    pub len: u64,
    pub lock: Name,
}

impl Model for Blocker {
    ghost Value = { BlockerData };

    ghost view = { λ b. record { task = b.task; place = b.place; len = b.len; lock = b.lock } };
}

// Some member uses a lock.
fn has_user(set: &Tabled<'_>, lock: Name, members: Members) -> bool
    ensures { result ≡ has_user set.now (indexes_of members) lock }
{
    // The set is valid: the proof has it from its sheets.
    let _ = set.sheets();
    set.users(lock).meets(members)
}

// The first of some locks that some member uses.
fn first_used(set: &Tabled<'_>, locks: &[Name], members: Members) -> Option<Name>
    ensures { result ≡ find (has_user set.now (indexes_of members)) locks.now }
{
    locks
        .iter()
        .copied()
        .find(|lock| has_user(set, *lock, members))
}

// Of a section's locks the first as written that some member uses.
fn reached_lock(set: &Tabled<'_>, section: &Section, members: Members) -> Option<Name>
    ensures { result ≡ reached_lock set.now (indexes_of members) section.now }
{
    first_used(set, &section.locks, members)
}

// Of a task's sections that are this long the first that the members reach.
fn first_of(set: &Tabled<'_>, task: usize, members: Members, len: u64) -> Option<Blocker>
    requires { task < length set.now }
    ensures some { IfSome result (λ b.
        IsFirstOf set.now (indexes_of members) task len b) }
    ensures none { IfNone result
        (HasNoneBefore set.now (indexes_of members) task len
        (length (task_at set.now task).sections)) }
{
    for (place, section) in set.sheets()[task].sections().iter().enumerate() {
        if section.len == len {
            if let Some(lock) = reached_lock(set, section, members) {
                return Some(Blocker {
                    task,
                    place: place as u32,
                    len,
                    lock,
                });
            }
        }
    }
    None
}

/// Of the sections that block a task longest with these above it the first, by the rank of its task and its place;
/// none where nothing blocks (Sha, Rajkumar, Lehoczky 1990).
pub fn first_blocker(set: &Tabled<'_>, task: usize, above: Members) -> Option<Blocker>
    requires { task < length set.now }
    ensures { IsBlockerOf set.now task (indexes_of above) result }
{
    // The set is valid: the proof has it from its sheets.
    let _ = set.sheets();
    let longest = blocking(set, task, above);
    if longest == 0 {
        return None;
    }
    let members = above.with(task);
    for owner in 0..set.len() {
        if !members.has(owner) {
            if let Some(found) = first_of(set, owner, members, longest) {
                return Some(found);
            }
        }
    }
    None
}
