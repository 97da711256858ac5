//! The order in which a task of a minimal conflict is looked at.
ghost use Rattle.std.specs.Prelude.{◌≡◌, IfOk, IsTrue, length};
ghost use Rattle.task_sheet.specs.Indexes.{indexes_of, listed_below, IsPart};
ghost use Rattle.task_sheet.specs.Orders.{all_of};
ghost use Rattle.explain.specs.Conflict.{IsLeastConflict};
ghost use Rattle.worst_lines.specs.Below.{IsOrderBelow, others_of};

use assignment::standing;
use ceilings::Tabled;
use std::alloc::{AllocError, Global};
use task_sheet::Members;

// The tasks that aren't of a conflict, by rank.
fn others(alloc: Global, set: &Tabled<'_>, conflict: Members) -> Result<Vec<usize>, AllocError>
    requires { IsPart (indexes_of conflict) (all_of set.now) }
    ensures { IfOk result (λ others. others.items
        ≡ listed_below (length set.now) (others_of set.now (indexes_of conflict))) }
{
    let mut others = Vec::new(alloc);
    for task in 0..set.sheets().len() {
        if !conflict.has(task) {
            others.push(task)?;
        }
    }
    Ok(others)
}

/// The order in which a task of a minimal conflict stands just below the others of it, which pass there, and above all other
/// tasks, these by rank. The error is out of memory.
pub(crate) fn order_below(
    alloc: Global,
    set: &Tabled<'_>,
    conflict: Members,
    task: usize,
) -> Result<Vec<usize>, AllocError>
    requires conflict { IsLeastConflict set.now (indexes_of conflict) }
    requires member { IsTrue (indexes_of conflict task) }
    ensures { IfOk result (λ order. IsOrderBelow set.now (indexes_of conflict) task order.items) }
{
    // The set is valid: the proof has it from its sheets.
    let _ = set.sheets();
    let mut order = others(alloc, set, conflict)?;
    order.push(task)?;
    let mut left = conflict.without(task);
    while let Some(next) = standing(set, left) {
        left = left.without(next);
        order.push(next)?;
    }
    Ok(order)
}
