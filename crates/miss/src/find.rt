//! What is shown of a task at its place in an order: whether it misses its deadline in its worst case.
ghost use Rattle.std.specs.Prelude.{◌≡◌, ◌<◌, length, IfOk};
ghost use Rattle.ceiling_kernel.specs.Tick.{node_in};
ghost use Rattle.task_sheet.specs.Orders.{IsOrder};
ghost use Rattle.miss.specs.Shown.{IsShown};

use crate::orders::kernel_of;
use crate::reaching::{Reached, reach_in};
use crate::reason::{members_above, why_not};
use crate::shown::{Miss, NoRun, Shown};
use assignment::least_over;
use ceiling_kernel::Kernel;
use ceilings::{LockTable, Tabled};
use response_time::passes;
use std::alloc::{AllocError, Global};
use task_sheet::TaskSet;

// What is shown of the task in an order.
fn shown_in(
    alloc: Global,
    kernel: &Kernel,
    set: &Tabled<'_>,
    order: &[usize],
    task: usize,
) -> Result<Shown, AllocError>
    requires kernel { kernel.now ≡ node_in set.now order.now }
    requires order { IsOrder set.now order.now }
    requires task { task < length set.now }
    ensures { IfOk result (IsShown (node_in set.now order.now) task) }
{
    // The set is valid: the proof has it from its sheets.
    let _ = set.sheets();
    let members = members_above(set, order, task);
    if passes(set, task, members) {
        return match least_over(set, task, members) {
            Some(other) => Ok(Shown::NoRun(NoRun::MustOutrank { other })),
            None => Ok(Shown::Stands),
        };
    }
    match reach_in(alloc, kernel, set, order, task)? {
        Reached::TooMany => Ok(Shown::NoRun(NoRun::TooMany)),
        Reached::Stopped => Ok(Shown::NoRun(why_not(set, order, task))),
        Reached::Ran(run) => {
            if run.finish.is_some() {
                return Ok(Shown::NoRun(why_not(set, order, task)));
            }
            Ok(Shown::Misses(Miss {
                task,
                job: run.job,
                until: run.until,
                releases: run.releases,
            }))
        }
    }
}

/// What is shown of a task of the set at its place in an order, lowest first: it may be placed there, or it
/// misses its deadline in its worst case, or why that is no run in which it does. The error is out of memory.
pub fn show_miss(
    alloc: Global,
    set: &TaskSet,
    order: &[usize],
    task: usize,
) -> Result<Shown, AllocError>
    requires task { task < length set.now }
    requires order { IsOrder set.now order.now }
    ensures { IfOk result (IsShown (node_in set.now order.now) task) }
{
    let kernel = kernel_of(alloc, set, order)?;
    let table = LockTable::new(alloc, set)?;
    shown_in(alloc, &kernel, &Tabled::of(set, &table), order, task)
}
