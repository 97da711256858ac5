//! Of the tasks that are left the one that speaks for all: one order decides.
ghost use Rattle.std.specs.Prelude.{◌≡◌, ◌↔◌, ◌<◌, ℕ, length, IfSome, IfNone, IsTrue};
ghost use Rattle.task_sheet.specs.TaskSet.{IsTaskSet};
ghost use Rattle.task_sheet.specs.Indexes.{indexes_of, IsPart};
ghost use Rattle.task_sheet.specs.Orders.{all_of};
ghost use Rattle.latest_first.specs.LatestFirst.{IsFirstLatest, IsFree, IsLatest};
ghost use Rattle.assignment.specs.Longer.{is_longer};

use crate::outcome::must_outrank_any;
use ceilings::Tabled;
use task_sheet::{Members, TaskSet};

// Whether a task is left, and need not stand above another one that is.
fn is_free(set: &Tabled<'_>, left: Members, task: usize) -> bool
    requires task { task < length set.now }
    requires part { IsPart (indexes_of left) (all_of set.now) }
    ensures { IsTrue result ↔ IsFree set.now (indexes_of left) task }
{
    // The set is valid: the proof has it from its sheets.
    let _ = set.sheets();
    left.has(task) && !must_outrank_any(set, task, left.without(task))
}

// Whether a task has a longer limit than the one that was found, or is the first.
fn is_longer(set: &TaskSet, found: Option<usize>, task: usize) -> bool
    requires task { task < length set.now }
    requires found { IfSome found (λ other. other < length set.now) }
    ensures { result ≡ is_longer set.now found task }
{
    let sheets = set.sheets();
    match found {
        Some(other) => sheets[other].limit() < sheets[task].limit(),
        None => true,
    }
}

/// Of the tasks that are left and need not stand above another of them the first with the longest limit: where it does
/// not pass below the others, none does (Leung, Whitehead 1982; Zuhily, Burns 2007).
pub fn latest(set: &Tabled<'_>, left: Members) -> Option<usize>
    requires { IsPart (indexes_of left) (all_of set.now) }
    ensures some { IfSome result (IsLatest set.now (indexes_of left)) }
    ensures first { IfSome result (IsFirstLatest set.now (indexes_of left)) }
    ensures none { IfNone result ((j : ℕ) → ¬ IsFree set.now (indexes_of left) j) }
    ensures kept { IsTaskSet set.now }
{
    let mut found = None;
    for task in 0..set.sheets().len() {
        if is_free(set, left, task) && is_longer(set.tasks(), found, task) {
            found = Some(task);
        }
    }
    found
}
