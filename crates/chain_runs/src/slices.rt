//! The slices of a run, each with the task of its job.
ghost use Rattle.std.specs.Prelude.{◌≡◌, IfOk, map, option_map};
ghost use Rattle.chain_runs.specs.Slices.{is_finish, slice_of, slices_of, task_of};

use ceiling_kernel::{JobRecord, Slice, Trace};
use std::alloc::{AllocError, Global};
use task_sheet::TaskSet;

/// A slice by the index of its job's task, from `start` up to `stop`, in microseconds, and whether the job finishes with it.
#[derive(Clone, Copy)]
pub struct TaskSlice {
    pub task: usize,
    pub start: u64,
    pub stop: u64,
    pub ends: bool,
}

// A job finishes at a time.
fn is_finish(finish: Option<u64>, time: u64) -> bool
    ensures { result ≡ is_finish finish time }
{
    match finish {
        Some(finish) => finish == time,
        None => false,
    }
}

// The index of a job's task; the number of tasks where its name is unknown.
pub(crate) fn task_of(set: &TaskSet, job: JobRecord) -> usize
    ensures { result ≡ task_of set.now job }
{
    set.find(job.name).unwrap_or(set.len())
}

// A slice by its task.
fn slice_of(set: &TaskSet, jobs: &[JobRecord], slice: Slice) -> TaskSlice
    ensures { result ≡ slice_of set.now jobs.now slice }
{
    let (start, stop) = (slice.start, slice.stop);
    match jobs.get(slice.job) {
        Some(job) => TaskSlice {
            task: task_of(set, *job),
            start,
            stop,
            ends: is_finish(job.finish, stop),
        },
        None => TaskSlice {
            task: set.len(),
            start,
            stop,
            ends: false,
        },
    }
}

/// The slices of a run, by time. The error is out of memory.
pub fn slices_of(alloc: Global, set: &TaskSet, trace: &Trace) -> Result<Vec<TaskSlice>, AllocError>
    ensures { IfOk result (λ slices. slices.items ≡ slices_of set.now trace.now) }
{
    let mut slices = Vec::with_capacity(alloc, trace.slices.len())?;
    for slice in &trace.slices {
        slices.push(slice_of(set, &trace.jobs, *slice))?;
    }
    Ok(slices)
}
