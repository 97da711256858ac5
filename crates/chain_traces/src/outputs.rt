//! The outputs of a chain in a trace whose tasks write at their finishes.
ghost use Rattle.std.specs.Prelude.{◌≡◌, IfOk, None, Some, map};
ghost use Rattle.chain_traces.specs.Outputs.{along, begun, fresh, is_job, is_over, last_output, output_by, outputs_in, settled, written_at};

use crate::executions::Execution;
use chain_runs::ChainOutput;
use std::alloc::{AllocError, Global};

/// What is known of a task of a chain: the job that has begun and hasn't finished, by its place, and when it will; the sample
/// behind what that job has read, and the one behind what the last finished job wrote, where there are such; in microseconds.
#[derive(Clone, Copy)]
pub struct Watch {
    pub task: usize,
    pub job: Option<usize>,
    pub finish: Option<u64>,
    pub read: Option<u64>,
    pub written: Option<u64>,
}

// A finish has come.
fn is_over(time: u64, finish: Option<u64>) -> bool
    ensures { result ≡ is_over time finish }
{
    match finish {
        Some(finish) => finish <= time,
        None => false,
    }
}

// A task at a time: a job that has finished has written.
fn settled(time: u64, watch: Watch) -> Watch
    ensures { result ≡ settled time watch }
{
    if !is_over(time, watch.finish) {
        return watch;
    }
    Watch {
        task: watch.task,
        job: None,
        finish: None,
        read: None,
        written: watch.read,
    }
}

// This is the job at a place.
fn is_job(job: Option<usize>, place: usize) -> bool
    ensures { result ≡ is_job job place }
{
    match job {
        Some(job) => job == place,
        None => false,
    }
}

// A job of the task begins with a slice, unless it has begun.
fn begun(execution: Execution, offered: Option<u64>, watch: Watch) -> Watch
    ensures { result ≡ begun execution offered watch }
{
    if watch.task != execution.task || is_job(watch.job, execution.job) {
        return watch;
    }
    Watch {
        task: watch.task,
        job: Some(execution.job),
        finish: execution.finish,
        read: offered,
        written: watch.written,
    }
}

// What a job wrote as it finished.
fn written_at(finish: Option<u64>, read: Option<u64>) -> Option<ChainOutput>
    ensures { result ≡ written_at finish read }
{
    match finish {
        Some(finish) => Some(ChainOutput {
            finish,
            sample: read,
        }),
        None => None,
    }
}

// What has come of a task by a time.
fn output_by(time: u64, watch: Watch) -> Option<ChainOutput>
    ensures { result ≡ output_by time watch }
{
    if is_over(time, watch.finish) {
        written_at(watch.finish, watch.read)
    } else {
        None
    }
}

// What has come of the last task by a time.
fn last_output(watches: &[Watch], time: u64) -> Option<ChainOutput>
    ensures { result ≡ last_output None time watches.now }
{
    let mut found = None;
    for watch in watches {
        found = output_by(time, *watch);
    }
    found
}

// A slice begins: jobs that have finished have written, and its own job reads what the task before has written, unless it has
// begun.
fn pass(watches: &mut [Watch], execution: Execution)
    ensures { watches.new ≡ along execution (Some execution.start) watches.old }
{
    let mut offered = Some(execution.start);
    for watch in watches.iter_mut() {
        let now = settled(execution.start, *watch);
        *watch = begun(execution, offered, now);
        offered = now.written;
    }
}

// The tasks of a chain before a trace.
fn fresh(alloc: Global, tasks: &[usize]) -> Result<Vec<Watch>, AllocError>
    ensures { IfOk result (λ watches. watches.items ≡ map fresh tasks.now) }
{
    let mut watches = Vec::with_capacity(alloc, tasks.len())?;
    for task in tasks {
        watches.push(Watch {
            task: *task,
            job: None,
            finish: None,
            read: None,
            written: None,
        })?;
    }
    Ok(watches)
}

/// The outputs of a chain of tasks, by their indexes, the first one first, in a trace of these slices, which ends then: the
/// finished jobs of its last task, each with the sample that its path begins with. The error is out of memory.
pub fn outputs_in(
    alloc: Global,
    end: u64,
    executions: &[Execution],
    tasks: &[usize],
) -> Result<Vec<ChainOutput>, AllocError>
    ensures { IfOk result (λ outputs. outputs.items ≡ outputs_in end executions.now tasks.now) }
{
    let mut watches = fresh(alloc, tasks)?;
    let mut outputs = Vec::new(alloc);
    for execution in executions {
        if let Some(output) = last_output(&watches, execution.start) {
            outputs.push(output)?;
        }
        pass(&mut watches, *execution);
    }
    if let Some(output) = last_output(&watches, end) {
        outputs.push(output)?;
    }
    Ok(outputs)
}
