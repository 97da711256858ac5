//! The order in which a refused set is looked at, and what becomes of its tasks there.
ghost use Rattle.std.specs.Prelude.{◌<◌, ℕ, IfOk, IfSome, IfNone, IsTrue, IsFalse};
ghost use Rattle.task_sheet.specs.Indexes.{indexes_of, IsPart};
ghost use Rattle.task_sheet.specs.Orders.{all_of};
ghost use Rattle.judge.specs.Judgements.{AllJudged, order_judged};
ghost use Rattle.worst_lines.specs.Deciding.{IsDeciding, IsNext};

use assignment::latest;
use ceilings::Tabled;
use judge::{JudgedTask, judge_order};
use std::alloc::{AllocError, Global};
use task_sheet::Members;

// The first task that is left.
fn first_left(set: &Tabled<'_>, left: Members) -> Option<usize>
    requires part { IsPart (indexes_of left) (all_of set.now) }
    ensures some { IfSome result (λ task. IsTrue (indexes_of left task)) }
    ensures none { IfNone result ((j : ℕ) → IsFalse (indexes_of left j)) }
{
    for task in 0..set.sheets().len() {
        if left.has(task) {
            return Some(task);
        }
    }
    None
}

// Of the tasks that are left one that may be the lowest; none where none is left.
fn next(set: &Tabled<'_>, left: Members) -> Option<usize>
    requires { IsPart (indexes_of left) (all_of set.now) }
    ensures some { IfSome result (IsNext set.now (indexes_of left)) }
    ensures none { IfNone result ((j : ℕ) → IsFalse (indexes_of left j)) }
{
    match latest(set, left) {
        Some(task) => Some(task),
        None => first_left(set, left),
    }
}

/// An order of a set that decides, the lowest task first. The error is out of memory.
pub(crate) fn deciding_order(alloc: Global, set: &Tabled<'_>) -> Result<Vec<usize>, AllocError>
    ensures { IfOk result (λ order. IsDeciding set.now order.items) }
{
    let mut left = Members::all(set.sheets().len());
    let mut order = Vec::with_capacity(alloc, left.len())?;
    while let Some(task) = next(set, left) {
        left = left.without(task);
        order.push(task)?;
    }
    Ok(order)
}

/// What becomes of each task of a set in an order that decides, the lowest task first. The error is out of memory.
pub fn judge_deciding(alloc: Global, set: &Tabled<'_>) -> Result<Vec<JudgedTask>, AllocError>
    ensures decides { IfOk result (λ judged. IsDeciding set.now (order_judged judged.items)) }
    ensures each { IfOk result (λ judged. AllJudged set.now judged.items) }
{
    let order = deciding_order(alloc, set)?;
    let judged = judge_order(alloc, set, &order)?;
    Ok(judged)
}
