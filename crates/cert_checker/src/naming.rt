//! The tasks that names are.
ghost use Rattle.std.specs.Prelude.{◌≡◌, ℕ, ◌<◌, ◌≤◌, ◌&&◌, not, nat_lt, true, false, List, length, map, MatchOption};
ghost use Rattle.std.specs.Fn.{FnReturnsAt};
ghost use Rattle.task_sheet.specs.Indexes.{indexes_of, no_index, with_index, among};
ghost use Rattle.task_sheet.specs.declared.set.TheConstants.{TASK_LIMIT};
ghost use Rattle.task_sheet.specs.Verdicts.{tasks_of, order_of};
ghost use Rattle.cert_checker.specs.Ready.{task_by_name, failures_of, levels_of};
ghost use Rattle.cert_checker.specs.CertificateFaults.{are_new, has_all};

use certificate::{CertFail, CertLevel};
use task_sheet::{Members, Name, TaskSet};

/// The index of the task with a name; a name that no task has gets the number of the tasks.
pub fn task_by_name(set: &TaskSet, name: Name) -> usize
    ensures is { result ≡ task_by_name set.now name }
    ensures few { length set.now ≤ TASK_LIMIT }
{
    set.find(name).unwrap_or(set.len())
}

// The tasks that were seen, and one more, if it is one and was not seen.
fn see(set: &TaskSet, seen: Members, name: Name) -> Option<Members>
    ensures { MatchOption result
        ((nat_lt (task_by_name set.now name) (length set.now)
        && not (indexes_of seen (task_by_name set.now name))) ≡ false)
        (λ m. ((nat_lt (task_by_name set.now name) (length set.now)
        && not (indexes_of seen (task_by_name set.now name))) ≡ true)
        × (indexes_of m ≡ with_index (indexes_of seen) (task_by_name set.now name))) }
{
    let task = task_by_name(set, name);
    if task < set.len() && !seen.has(task) {
        Some(seen.with(task))
    } else {
        None
    }
}

// The tasks that the names of items are, where each is one and none is named twice.
fn tasks_named<T, F: Fn(&T) -> Name>(set: &TaskSet, items: &[T], name_of: F) -> Option<Members>
    requires { F.IsAlwaysCallable name_of }
    ensures { (task : T → ℕ)
        → ((item : T) (name : List ℕ) → FnReturnsAt F.Fn name_of item name
        → task_by_name set.now name ≡ task item)
        → MatchOption result
        (are_new (length set.now) no_index (map task items.now) ≡ false)
        (λ m. (are_new (length set.now) no_index (map task items.now) ≡ true)
        × (indexes_of m ≡ among (map task items.now))) }
{
    let mut seen = Members::empty();
    for item in items {
        seen = see(set, seen, name_of(item))?;
    }
    Some(seen)
}

/// The tasks of failures, where each is one and none is named twice.
pub fn tasks_of(set: &TaskSet, fails: &[CertFail]) -> Option<Members>
    ensures { MatchOption result
        (are_new (length set.now) no_index (tasks_of (failures_of set.now fails.now)) ≡ false)
        (λ m. (are_new (length set.now) no_index (tasks_of (failures_of set.now fails.now)) ≡ true)
        × (indexes_of m ≡ among (tasks_of (failures_of set.now fails.now)))) }
{
    tasks_named(set, fails, |fail| fail.name)
}

// The tasks of levels, where each is one and none is named twice.
fn order_of(set: &TaskSet, levels: &[CertLevel]) -> Option<Members>
    ensures { MatchOption result
        (are_new (length set.now) no_index (order_of (levels_of set.now levels.now)) ≡ false)
        (λ m. (are_new (length set.now) no_index (order_of (levels_of set.now levels.now)) ≡ true)
        × (indexes_of m ≡ among (order_of (levels_of set.now levels.now)))) }
{
    tasks_named(set, levels, |level| level.name)
}

// Whether all tasks of the set were seen.
fn has_all(set: &TaskSet, seen: Members) -> bool
    ensures { result ≡ has_all (length set.now) (indexes_of seen) }
{
    for k in 0..set.len() {
        if !seen.has(k) {
            return false;
        }
    }
    true
}

/// Whether the levels name each task of the set once, and nothing else.
pub fn is_order(set: &TaskSet, levels: &[CertLevel]) -> bool
    ensures { result
        ≡ (are_new (length set.now) no_index (order_of (levels_of set.now levels.now))
        && has_all (length set.now) (among (order_of (levels_of set.now levels.now)))) }
{
    match order_of(set, levels) {
        Some(seen) => has_all(set, seen),
        None => false,
    }
}
