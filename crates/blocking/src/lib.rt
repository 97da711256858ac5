//! How long a lower task's critical section can hold a task up (Sha, Rajkumar, Lehoczky 1990). Times are whole
//! microseconds.
#![tactic(auto)]

ghost use Rattle.std.specs.Prelude.{◌≡◌, ◌<◌, ◌≤◌, length};
ghost use Rattle.task_sheet.specs.Indexes.{indexes_of};
ghost use Rattle.task_sheet.specs.declared.sheet.TheConstants.{PERIOD_TO};
ghost use Rattle.task_sheet.specs.Demand.{blocking_of};

use ceilings::Tabled;
use task_sheet::Members;

/// The blocking of a task with these above it, in microseconds: the length of the longest section, of a task that is
/// neither among these nor `task`, that these or `task` reach; 0 if there is none (Sha, Rajkumar, Lehoczky 1990).
pub fn blocking(set: &Tabled<'_>, task: usize, above: Members) -> u64
    requires { task < length set.now }
    ensures is { result ≡ blocking_of set.now task (indexes_of above) }
    ensures short { result ≤ PERIOD_TO }
{
    // The set is valid: the proof has it from its sheets.
    let _ = set.sheets();
    set.longest_outside(above.with(task))
}
