//! The worst case of a task in an order.
ghost use Rattle.std.specs.Prelude.{◌<◌, length, IfOk};
ghost use Rattle.task_sheet.specs.Orders.{IsOrder};
ghost use Rattle.worst_lines.specs.Worst.{IsWorstOf};

use judge::{JudgedTask, Judgement};
use miss::{Reached, Shown, reach, show_miss};
use std::alloc::{AllocError, Global};
use task_sheet::TaskSet;

/// What is shown of a task's worst case.
#[derive(Drop)]
pub enum Worst {
    /// The task meets its deadline: within how long of its arrival each of its jobs is done, in microseconds, and what became
    /// of its job there.
    Comes { bound: u64, reached: Reached },
    /// It doesn't: its worst case as a run in which it misses it, or why that is none.
    Fails(Shown),
}

/// What is shown of the worst case of a task that was judged in an order. The error is out of memory.
pub(crate) fn worst_of(
    alloc: Global,
    set: &TaskSet,
    order: &[usize],
    entry: JudgedTask,
) -> Result<Worst, AllocError>
    requires task { entry.task < length set.now }
    requires order { IsOrder set.now order.now }
    ensures { IfOk result (IsWorstOf set.now order.now entry) }
{
    match entry.judgement {
        Judgement::Meets { response } => {
            let reached = reach(alloc, set, order, entry.task)?;
            Ok(Worst::Comes {
                bound: response,
                reached,
            })
        }
        Judgement::Misses { .. } => Ok(Worst::Fails(show_miss(alloc, set, order, entry.task)?)),
        Judgement::Below { .. } => Ok(Worst::Fails(show_miss(alloc, set, order, entry.task)?)),
    }
}
