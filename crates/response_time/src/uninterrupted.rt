//! Whether a task would pass if no timer and no interrupt took anything.
ghost use Rattle.std.specs.Prelude.{◌↔◌, ◌<◌, length, IsTrue};
ghost use Rattle.task_sheet.specs.Sheet.{task_at};
ghost use Rattle.task_sheet.specs.Indexes.{indexes_of};
ghost use Rattle.task_sheet.specs.Demand.{limit_of};
ghost use Rattle.task_sheet.specs.Responses.{Covers};
ghost use Rattle.response_time.specs.Workload.{work_of};

use crate::first_cover;
use ceilings::Tabled;
use task_sheet::Members;

/// Whether a task would pass with these above it if no timer and no interrupt took anything: some window within what its
/// jitter leaves of its deadline covers its work.
pub fn passes_uninterrupted(set: &Tabled<'_>, task: usize, above: Members) -> bool
    requires { task < length set.now }
    ensures { IsTrue result ↔ Covers (work_of set.now task (indexes_of above))
        (limit_of (task_at set.now task)) }
{
    first_cover(set, task, above, false).is_some()
}
