//! The tasks above which a task must stand, by sheets alone.
ghost use Rattle.std.specs.Prelude.{◌≡◌, ◌<◌, length};
ghost use Rattle.task_sheet.specs.Indexes.{indexes_of};
ghost use Rattle.task_sheet.specs.Orders.{must_outrank, must_outrank_any};

use task_sheet::{Members, TaskSet};

/// Whether a task must stand above another one.
pub fn must_outrank(set: &TaskSet, task: usize, other: usize) -> bool
    requires task { task < length set.now }
    requires other { other < length set.now }
    ensures { result ≡ must_outrank set.now task other }
{
    let sheets = set.sheets();
    sheets[task].must_outrank(&sheets[other])
}

/// Whether a task must stand above one of these.
pub fn must_outrank_any(set: &TaskSet, task: usize, above: Members) -> bool
    requires { task < length set.now }
    ensures { result ≡ must_outrank_any set.now task (indexes_of above) }
{
    // The set is small: the proof has it from its sheets.
    let _ = set.sheets();
    for other in 0..set.len() {
        if above.has(other) && must_outrank(set, task, other) {
            return true;
        }
    }
    false
}
