//! The checks of the levels.
ghost use Rattle.std.specs.Prelude.{◌≡◌, ◌<◌, ◌≤◌, ◌&&◌, nat_le, nat_lt, length, All, IfSome};
ghost use Rattle.task_sheet.specs.Indexes.{indexes_of, among};
ghost use Rattle.task_sheet.specs.Orders.{all_of};
ghost use Rattle.task_sheet.specs.declared.set.TheConstants.{TASK_LIMIT};
ghost use Rattle.task_sheet.specs.Verdicts.{tasks_of};
ghost use Rattle.certificate.specs.Body.{CertLevelData};
ghost use Rattle.cert_checker.specs.Ready.{task_by_name, failures_of};
ghost use Rattle.cert_checker.specs.CertificateFaults.{fault_unless, are_lesser, first_unnamed, missing_at, level_fault, levels_fault};

use crate::fault::CheckFault;
use crate::naming::task_by_name;
use crate::refuting::{bad_fail, time_stands};
use certificate::{CertFail, CertLevel};
use task_sheet::{Members, Name, TaskSet};

/// What is asked of each level.
#[derive(Clone, Copy)]
pub enum LevelCheck {
    /// Its failures are of remaining tasks of smaller rank, by rank.
    Tasks,
    /// Its time is within the deadline, and covers the demand; its task need not stand above one
    /// above it.
    Pass,
    /// Its failures are such.
    Chains,
    /// Each remaining task of smaller rank has a failure.
    Missing,
}

// Whether the task is left, below the chosen one, and no less than the first that may come.
fn is_lesser(left: Members, from: usize, chosen: usize, task: usize) -> bool
    requires { chosen ≤ TASK_LIMIT }
    ensures { result ≡ (nat_le from task && nat_lt task chosen && indexes_of left task) }
{
    from <= task && task < chosen && left.has(task)
}

// Whether the failures are of tasks that are left and lie below the chosen one, by rank.
fn are_lesser(set: &TaskSet, left: Members, chosen: usize, fails: &[CertFail]) -> bool
    requires { chosen ≤ TASK_LIMIT }
    ensures { result
        ≡ are_lesser (indexes_of left) 0 chosen (tasks_of (failures_of set.now fails.now)) }
{
    let mut from = 0;
    for fail in fails {
        let task = task_by_name(set, fail.name);
        if !is_lesser(left, from, chosen, task) {
            return false;
        }
        from = task + 1;
    }
    true
}

// Whether some failure is of the task.
fn has_failure(set: &TaskSet, fails: &[CertFail], task: usize) -> bool
    ensures { result ≡ among (tasks_of (failures_of set.now fails.now)) task }
{
    for fail in fails {
        if task_by_name(set, fail.name) == task {
            return true;
        }
    }
    false
}

// The least task that is left, lies below the chosen one and has no failure.
fn first_unnamed(set: &TaskSet, left: Members, chosen: usize, fails: &[CertFail]) -> Option<usize>
    requires { chosen ≤ TASK_LIMIT }
    ensures is { result
        ≡ first_unnamed (indexes_of left) (tasks_of (failures_of set.now fails.now)) chosen }
    ensures below { IfSome result (λ k. k < chosen) }
{
    for k in 0..chosen {
        if left.has(k) && !has_failure(set, fails, k) {
            return Some(k);
        }
    }
    None
}

// The failure that is missing at a level.
fn missing_at(set: &TaskSet, place: usize, missing: Option<usize>) -> Option<CheckFault>
    requires { IfSome missing (λ k. k < length set.now) }
    ensures { result ≡ missing_at set.now place missing }
{
    let task = missing?;
    Some(CheckFault::MissingFail {
        level: place,
        name: set.sheets()[task].name(),
    })
}

// The fault, where the test fails.
fn fault_unless(is_met: bool, fault: CheckFault) -> Option<CheckFault>
    ensures { result ≡ fault_unless is_met fault }
{
    if is_met { None } else { Some(fault) }
}

// The fault of a level's task, time and failures.
fn level_fault(
    set: &TaskSet,
    asked: LevelCheck,
    level: usize,
    left: Members,
    name: Name,
    time: u64,
    fails: &[CertFail],
) -> Option<CheckFault>
    requires { task_by_name set.now name < length set.now }
    ensures { let l : CertLevelData = record { name = name; time = time; fails = fails.now } in
        result ≡ level_fault set.now asked level (indexes_of left) l }
{
    let task = task_by_name(set, name);
    match asked {
        LevelCheck::Tasks => fault_unless(
            are_lesser(set, left, task, fails),
            CheckFault::WrongTasks { level },
        ),
        LevelCheck::Pass => fault_unless(
            time_stands(set, left, task, time),
            CheckFault::BadPass { level },
        ),
        LevelCheck::Chains => bad_fail(set, level, left, fails),
        LevelCheck::Missing => missing_at(set, level, first_unnamed(set, left, task, fails)),
    }
}

/// The first fault of the levels, which name tasks of the set.
pub fn levels_fault(set: &TaskSet, asked: LevelCheck, levels: &[CertLevel]) -> Option<CheckFault>
    requires { All (λ (l : CertLevelData). task_by_name set.now l.name < length set.now) levels.now }
    ensures { result ≡ levels_fault set.now asked 1 (all_of set.now) levels.now }
{
    let mut left = Members::all(set.len());
    for (i, level) in levels.iter().enumerate() {
        match level_fault(set, asked, i + 1, left, level.name, level.t, &level.fails) {
            Some(fault) => return Some(fault),
            None => left = left.without(task_by_name(set, level.name)),
        }
    }
    None
}
