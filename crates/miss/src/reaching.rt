//! The worst case of a task, run to its end.
ghost use Rattle.std.specs.Prelude.{◌≡◌, ◌<◌, ℕ, length, IfOk, IfSome, IfNone};
ghost use Rattle.std.specs.Bool.{OnTrue, OnFalse};
ghost use Rattle.ceiling_kernel.specs.Tick.{node_in};
ghost use Rattle.ceiling_kernel.specs.Releases.{task_number, release_at};
ghost use Rattle.task_sheet.specs.Orders.{IsOrder};
ghost use Rattle.miss.specs.Reached.{IsReachedOf};
ghost use Rattle.miss.specs.Shown.{IsCaseOf};

use crate::orders::kernel_of;
use crate::worst::{Run, worst_case};
use ceiling_kernel::{Kernel, Release, RunFault, above};
use ceilings::{LockTable, Tabled};
use std::alloc::{AllocError, Global};
use task_sheet::TaskSet;

/// The worst case of a task, run by a kernel: the place of the task's first job among the releases, from 0; when that job
/// finishes, if it does by the end of the run, which is its deadline; in microseconds.
#[derive(Drop)]
pub struct WorstRun {
    pub job: usize,
    pub finish: Option<u64>,
    pub until: u64,
    pub releases: Vec<Release>,
}

/// What comes of running a task's worst case.
#[derive(Drop)]
pub enum Reached {
    /// It was run to its end.
    Ran(WorstRun),
    /// It has more than 10,000 releases.
    TooMany,
    /// A job of a task above overran the one before it.
    Stopped,
}

// The release is one of the task's.
fn is_of(set: &Tabled<'_>, task: usize, release: Release) -> bool
    requires { task < length set.now }
    ensures yes { OnTrue result (task_number set.now release ≡ task) }
    ensures no { OnFalse result (¬ (task_number set.now release ≡ task)) }
{
    let Some(found) = set.tasks().find(release.name) else {
        return false;
    };
    found == task
}

// The place of the first release of a task.
fn first_of(set: &Tabled<'_>, task: usize, releases: &[Release]) -> Option<usize>
    requires { task < length set.now }
    ensures some { IfSome result (λ j. (j < length releases.now)
        × (task_number set.now (release_at releases.now j) ≡ task)) }
    ensures none { IfNone result ((j : ℕ) → j < length releases.now
        → ¬ (task_number set.now (release_at releases.now j) ≡ task)) }
{
    for place in 0..releases.len() {
        if is_of(set, task, releases[place]) {
            return Some(place);
        }
    }
    None
}

/// What comes of the worst case of a task in an order.
pub(crate) fn reach_in(
    alloc: Global,
    kernel: &Kernel,
    set: &Tabled<'_>,
    order: &[usize],
    task: usize,
) -> Result<Reached, AllocError>
    requires kernel { kernel.now ≡ node_in set.now order.now }
    requires order { IsOrder set.now order.now }
    requires task { task < length set.now }
    ensures { IfOk result (IsReachedOf (node_in set.now order.now) task) }
{
    // The set is valid: the proof has it from its sheets.
    let _ = set.sheets();
    let Some(run) = worst_case(alloc, set, task, above(order, task))? else {
        return Ok(Reached::TooMany);
    };
    match kernel.run(alloc, &run.releases, run.until) {
        Ok(trace) => match first_of(set, task, &run.releases) {
            Some(job) => Ok(Reached::Ran(WorstRun {
                job,
                finish: trace.jobs[job].finish,
                until: run.until,
                releases: run.releases,
            })),
            None => Ok(Reached::Stopped),
        },
        Err(fault) => match fault {
            RunFault::OutOfMemory => Err(AllocError),
            _ => Ok(Reached::Stopped),
        },
    }
}

/// What comes of the worst case of a task of the set in an order, lowest first. It is run to its end wherever the tasks
/// above pass and it has no more than 10,000 releases. The error is out of memory.
pub fn reach(
    alloc: Global,
    set: &TaskSet,
    order: &[usize],
    task: usize,
) -> Result<Reached, AllocError>
    requires task { task < length set.now }
    requires order { IsOrder set.now order.now }
    ensures { IfOk result (IsReachedOf (node_in set.now order.now) task) }
{
    let kernel = kernel_of(alloc, set, order)?;
    let table = LockTable::new(alloc, set)?;
    reach_in(alloc, &kernel, &Tabled::of(set, &table), order, task)
}

// The worst case of a task in an order, whatever comes of it.
fn case_in(
    alloc: Global,
    set: &Tabled<'_>,
    order: &[usize],
    task: usize,
) -> Result<Option<Run>, AllocError>
    requires order { IsOrder set.now order.now }
    requires task { task < length set.now }
    ensures { IfOk result (IsCaseOf (node_in set.now order.now) task) }
{
    // The set is valid: the proof has it from its sheets.
    let _ = set.sheets();
    let case = worst_case(alloc, set, task, above(order, task))?;
    Ok(case)
}

/// The worst case of a task of the set in an order, lowest first, whatever comes of it; none where it has more than 10,000
/// releases. The error is out of memory.
pub fn case_of(
    alloc: Global,
    set: &TaskSet,
    order: &[usize],
    task: usize,
) -> Result<Option<Run>, AllocError>
    requires task { task < length set.now }
    requires order { IsOrder set.now order.now }
    ensures { IfOk result (IsCaseOf (node_in set.now order.now) task) }
{
    let table = LockTable::new(alloc, set)?;
    case_in(alloc, &Tabled::of(set, &table), order, task)
}
