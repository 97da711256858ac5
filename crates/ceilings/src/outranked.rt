//! The tasks above which each task of a set must stand.
ghost use Rattle.std.specs.Prelude.{◌≡◌, ◌<◌, ℕ, length};
ghost use Rattle.task_sheet.specs.Sheet.{outranks_task, task_at};
ghost use Rattle.task_sheet.specs.Indexes.{indexes_of};
ghost use Rattle.ceilings.specs.IsTableOf.{AreOutrankedOf};

use task_sheet::{Members, Sheet, TASK_LIMIT, TaskSet};

// The tasks of a set above which a task must stand.
fn outranked(set: &TaskSet, sheet: &Sheet) -> Members
    ensures { (k : ℕ) → k < length set.now
        → indexes_of result k ≡ outranks_task sheet.now (task_at set.now k) }
{
    let mut found = Members::empty();
    for (index, other) in set.sheets().iter().enumerate() {
        if sheet.must_outrank(other) {
            found = found.with(index);
        }
    }
    found
}

/// For each task of a set, those above which it must stand: names are compared here, and at no question. A task that
/// names none costs nothing.
pub(crate) fn outranked_of(set: &TaskSet) -> [Members; TASK_LIMIT]
    ensures { AreOutrankedOf set.now result }
{
    let mut rows = [Members::empty(); TASK_LIMIT];
    for (index, sheet) in set.sheets().iter().enumerate() {
        if !sheet.outranks().is_empty() {
            rows[index] = outranked(set, sheet);
        }
    }
    rows
}
