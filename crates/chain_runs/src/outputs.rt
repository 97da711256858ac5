//! The outputs of a chain in a run.
ghost use Rattle.std.specs.Prelude.{◌≡◌, IfOk, None, Some, map};
ghost use Rattle.chain_runs.specs.ChainOutputs.{outputs_of};
ghost use Rattle.chain_runs.specs.Outputs.{after_slice, along, fresh, last_output, output_at, outputs_from, read_by};

use crate::deadline_outputs::{intervals_of, outputs_by};
use crate::slices::{TaskSlice, slices_of};
use ceiling_kernel::Trace;
use chains::Writes;
use std::alloc::{AllocError, Global};
use task_sheet::TaskSet;

/// What is known of a task of a chain: whether a job of it has begun and isn't finished, the sample that stands behind what
/// that job has read, and the one behind what its last finished job wrote, where there are such; in microseconds.
#[derive(Clone, Copy)]
pub struct Station {
    pub task: usize,
    pub runs: bool,
    pub read: Option<u64>,
    pub written: Option<u64>,
}

/// An output of a chain: when it came, and its sample, where it has one; in microseconds.
#[derive(Clone, Copy, Debug, PartialEq, Eq)]
pub struct ChainOutput {
    pub finish: u64,
    pub sample: Option<u64>,
}

// What the job of a task has read that executes in a slice: as it began, or what is offered now.
fn read_by(station: Station, offered: Option<u64>) -> Option<u64>
    ensures { result ≡ read_by station offered }
{
    if station.runs { station.read } else { offered }
}

// A task after a slice.
fn after_slice(slice: TaskSlice, offered: Option<u64>, station: Station) -> Station
    ensures { result ≡ after_slice slice offered station }
{
    if station.task != slice.task {
        return station;
    }
    let read = read_by(station, offered);
    Station {
        task: station.task,
        runs: !slice.ends,
        read,
        written: if slice.ends { read } else { station.written },
    }
}

// What a task writes with a slice.
fn output_at(slice: TaskSlice, offered: Option<u64>, station: Station) -> Option<ChainOutput>
    ensures { result ≡ output_at slice offered station }
{
    if station.task == slice.task && slice.ends {
        let (finish, sample) = (slice.stop, read_by(station, offered));
        Some(ChainOutput { finish, sample })
    } else {
        None
    }
}

// A slice goes by: each task of the chain reads what the one before it has written. What comes of the last one.
fn pass(stations: &mut [Station], slice: TaskSlice) -> Option<ChainOutput>
    ensures stations { stations.new ≡ along slice (Some slice.start) stations.old }
    ensures output { result ≡ last_output None slice (Some slice.start) stations.old }
{
    let mut offered = Some(slice.start);
    let mut output = None;
    for station in stations.iter_mut() {
        let before = *station;
        output = output_at(slice, offered, before);
        *station = after_slice(slice, offered, before);
        offered = before.written;
    }
    output
}

// The tasks of a chain before a run.
fn fresh(alloc: Global, tasks: &[usize]) -> Result<Vec<Station>, AllocError>
    ensures { IfOk result (λ stations. stations.items ≡ map fresh tasks.now) }
{
    let mut stations = Vec::with_capacity(alloc, tasks.len())?;
    for task in tasks {
        stations.push(Station {
            task: *task,
            runs: false,
            read: None,
            written: None,
        })?;
    }
    Ok(stations)
}

/// The outputs of a chain of tasks that write at their finishes, by their indexes, the first one first, in a run of these slices,
/// by time: the finished jobs of its last task, each with the sample that its path begins with. The error is out of memory.
pub fn outputs_from(
    alloc: Global,
    slices: &[TaskSlice],
    tasks: &[usize],
) -> Result<Vec<ChainOutput>, AllocError>
    ensures { IfOk result (λ outputs. outputs.items ≡ outputs_from (map fresh tasks.now) slices.now) }
{
    let mut stations = fresh(alloc, tasks)?;
    let mut outputs = Vec::new(alloc);
    for slice in slices {
        if let Some(output) = pass(&mut stations, *slice) {
            outputs.push(output)?;
        }
    }
    Ok(outputs)
}

/// The outputs of a chain of tasks, by their indexes, the first one first, in a run that ends at `until`, by time: what jobs of
/// its last task write, each with the sample that its path begins with. The error is out of memory.
pub fn outputs_of(
    alloc: Global,
    set: &TaskSet,
    until: u64,
    trace: &Trace,
    writes: Writes,
    tasks: &[usize],
) -> Result<Vec<ChainOutput>, AllocError>
    ensures { IfOk result (λ outputs. outputs.items ≡ outputs_of writes set.now until trace.now tasks.now) }
{
    match writes {
        Writes::AtFinish => {
            let slices = slices_of(alloc, set, trace)?;
            outputs_from(alloc, &slices, tasks)
        }
        Writes::AtDeadline => {
            let intervals = intervals_of(alloc, set, trace)?;
            outputs_by(alloc, until, &intervals, tasks)
        }
    }
}
