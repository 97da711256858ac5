//! How far a run in which a job misses its deadline goes on: until that job is done.
ghost use Rattle.std.specs.Prelude.{◌≡◌, IfOk};
ghost use Rattle.ceiling_kernel.specs.Tick.{node_in};
ghost use Rattle.task_sheet.specs.Orders.{IsOrder};
ghost use Rattle.miss.specs.Going.{GoesOnUntil, IsDoneLater, finish_of};

use crate::orders::kernel_of;
use crate::shown::Miss;
use ceiling_kernel::{HORIZON, JobRecord, Kernel, RunFault};
use std::alloc::{AllocError, Global};
use task_sheet::TaskSet;

// When the job at a place is done, if there is one, and it is.
fn finish_of(jobs: &[JobRecord], place: usize) -> Option<u64>
    ensures { result ≡ finish_of jobs.now place }
{
    match jobs.get(place) {
        Some(job) => job.finish,
        None => None,
    }
}

// When the job of a miss is done in a run that goes on, if it is.
fn done_later(alloc: Global, kernel: &Kernel, miss: &Miss) -> Result<Option<u64>, AllocError>
    ensures { IfOk result (IsDoneLater kernel.now miss.now) }
{
    match kernel.run(alloc, &miss.releases, HORIZON) {
        Ok(trace) => Ok(finish_of(&trace.jobs, miss.job)),
        Err(fault) => match fault {
            RunFault::OutOfMemory => Err(AllocError),
            _ => Ok(None),
        },
    }
}

/// Until when the run of a miss goes on in the order that it was found in, lowest first: until its job is done, in
/// microseconds. The error is out of memory.
pub fn end_of(alloc: Global, set: &TaskSet, order: &[usize], miss: &Miss) -> Result<u64, AllocError>
    requires { IsOrder set.now order.now }
    ensures { IfOk result (GoesOnUntil (node_in set.now order.now) miss.now) }
{
    let kernel = kernel_of(alloc, set, order)?;
    let finish = done_later(alloc, &kernel, miss)?;
    Ok(finish.unwrap_or(miss.until))
}
