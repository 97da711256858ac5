//! A least conflict of a set (Audsley 1991).
ghost use Rattle.std.specs.Prelude.{◌<◌, length, IfSome, IfNone};
ghost use Rattle.task_sheet.specs.declared.set.TheConstants.{TASK_LIMIT};
ghost use Rattle.task_sheet.specs.Indexes.{indexes_of, IsPart};
ghost use Rattle.task_sheet.specs.Orders.{all_of};
ghost use Rattle.task_sheet.specs.Levels.{IsObstruction};
ghost use Rattle.explain.specs.Conflict.{HoldsObstruction, IsGreatestWithin, IsLeastConflict, IsGoneThrough, IsLeftOf};

use assignment::standing;
use ceilings::Tabled;
use task_sheet::Members;

/// The greatest obstruction within some tasks of a set; none where they hold none.
pub fn greatest_within(set: &Tabled<'_>, tasks: Members) -> Option<Members>
    requires { IsPart (indexes_of tasks) (all_of set.now) }
    ensures some { IfSome result (λ found. IsGreatestWithin set.now (indexes_of tasks)
        (indexes_of found)) }
    ensures none { IfNone result (¬ HoldsObstruction set.now (indexes_of tasks)) }
{
    // The set is valid: the proof has it from its sheets.
    let _sheets = set.sheets();
    let mut left = tasks;
    while let Some(task) = standing(set, left) {
        left = left.without(task);
    }
    if left.is_empty() { None } else { Some(left) }
}

// What some tasks become where one of them is gone through.
fn gone_through(set: &Tabled<'_>, task: usize, tasks: Members) -> Members
    requires task { task < TASK_LIMIT }
    requires part { IsPart (indexes_of tasks) (all_of set.now) }
    ensures { IsGoneThrough set.now task (indexes_of tasks) (indexes_of result) }
{
    if !tasks.has(task) {
        return tasks;
    }
    match greatest_within(set, tasks.without(task)) {
        Some(rest) => rest,
        None => tasks,
    }
}

/// A least conflict within an obstruction: its members are gone through by rank, and where what is left without one
/// still holds an obstruction, the greatest of these takes its place.
pub fn least_conflict(set: &Tabled<'_>, obstruction: Members) -> Members
    requires { IsObstruction set.now (indexes_of obstruction) }
    ensures least { IsLeastConflict set.now (indexes_of result) }
    ensures part { IsPart (indexes_of result) (indexes_of obstruction) }
    ensures way { IsLeftOf set.now (indexes_of obstruction) (length set.now) (indexes_of result) }
{
    let mut conflict = obstruction;
    for task in 0..set.len() {
        conflict = gone_through(set, task, conflict);
    }
    conflict
}
