//! Which tasks stand above a task in each order that passes: what is left where no other task may stand below the rest
//! (after Audsley 1991).
ghost use Rattle.std.specs.Prelude.{◌↔◌, ◌<◌, length, IsTrue, IfSome, IfNone};
ghost use Rattle.task_sheet.specs.Indexes.{indexes_of, IsPart};
ghost use Rattle.task_sheet.specs.Orders.{all_of, Stands, IsFeasible};
ghost use Rattle.least_chains.specs.LeastAbove.{IsLeastAbove, IsOtherBelow, NoOtherStands};

use assignment::least_over;
use ceilings::Tabled;
use response_time::passes;
use task_sheet::Members;

// Whether a task may stand below these.
fn may_stand(set: &Tabled<'_>, task: usize, above: Members) -> bool
    requires { task < length set.now }
    ensures { IsTrue result ↔ Stands set.now task (indexes_of above) }
{
    match least_over(set, task, above) {
        Some(_) => false,
        None => passes(set, task, above),
    }
}

// Whether of the tasks that are left this other one may stand below the rest.
fn is_other_below(set: &Tabled<'_>, left: Members, task: usize, other: usize) -> bool
    requires { other < length set.now }
    ensures { IsTrue result ↔ IsOtherBelow set.now (indexes_of left) task other }
{
    // A task of the set is below 32: the proof has it from the set's length.
    let _ = set.len();
    if other == task || !left.has(other) {
        return false;
    }
    may_stand(set, other, left.without(other))
}

// Of the tasks that are left the first other one that may stand below the rest; none where none may.
fn other_below(set: &Tabled<'_>, left: Members, task: usize) -> Option<usize>
    requires { IsPart (indexes_of left) (all_of set.now) }
    ensures some { IfSome result (IsOtherBelow set.now (indexes_of left) task) }
    ensures none { IfNone result (NoOtherStands set.now (indexes_of left) task) }
{
    for other in 0..set.len() {
        if is_other_below(set, left, task, other) {
            return Some(other);
        }
    }
    None
}

/// The tasks that stand above a task in each order that passes, where one does; in some such order no other does.
pub fn above_at_least(set: &Tabled<'_>, task: usize) -> Members
    requires task { task < length set.now }
    requires some { IsFeasible set.now }
    ensures { IsLeastAbove set.now task (indexes_of result) }
{
    let mut left = Members::all(set.sheets().len());
    while let Some(other) = other_below(set, left, task) {
        left = left.without(other);
    }
    left.without(task)
}
