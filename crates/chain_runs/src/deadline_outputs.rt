//! The outputs of a chain whose tasks write at their deadlines.
ghost use Rattle.std.specs.Prelude.{◌≡◌, IfOk, None, Some, map};
ghost use Rattle.chain_runs.specs.DeadlineOutputs.{after_start, blank, handed_on, interval_of, intervals_of, last_by, output_by, outputs_by, shown_at};

use crate::outputs::ChainOutput;
use crate::slices::task_of;
use ceiling_kernel::{JobRecord, Trace};
use chains::{Writes, after_of};
use std::alloc::{AllocError, Global};
use task_sheet::TaskSet;

/// When a job reads and when it writes, by the index of its task: as it arrives, and a deadline later (its logical
/// execution interval); in microseconds.
#[derive(Clone, Copy)]
pub struct Interval {
    pub task: usize,
    pub start: u64,
    pub stop: u128,
}

/// What is known of the register of a chain's task: when its last job writes, the sample that stands behind what that
/// job has read, and the one behind what was written before, where there are such; in microseconds.
#[derive(Clone, Copy)]
pub struct Register {
    pub task: usize,
    pub writes_at: u128,
    pub read: Option<u64>,
    pub written: Option<u64>,
}

// The interval of a job.
fn interval_of(set: &TaskSet, job: JobRecord) -> Interval
    ensures { result ≡ interval_of set.now job }
{
    let start = job.release;
    let task = task_of(set, job);
    let deadline = after_of(set, &[], Writes::AtDeadline, task, &[]).time;
    Interval {
        task,
        start,
        stop: start as u128 + deadline as u128,
    }
}

/// The intervals of the jobs of a run, by arrival. The error is out of memory.
pub fn intervals_of(
    alloc: Global,
    set: &TaskSet,
    trace: &Trace,
) -> Result<Vec<Interval>, AllocError>
    ensures { IfOk result (λ intervals. intervals.items ≡ intervals_of set.now trace.now) }
{
    let mut intervals = Vec::with_capacity(alloc, trace.jobs.len())?;
    for job in &trace.jobs {
        intervals.push(interval_of(set, *job))?;
    }
    Ok(intervals)
}

// What a register shows at a time.
fn shown_at(register: Register, time: u64) -> Option<u64>
    ensures { result ≡ shown_at register time }
{
    if register.writes_at <= time as u128 {
        register.read
    } else {
        register.written
    }
}

// A register when an interval begins.
fn after_start(interval: Interval, offered: Option<u64>, register: Register) -> Register
    ensures { result ≡ after_start interval offered register }
{
    if register.task != interval.task {
        return register;
    }
    Register {
        task: register.task,
        writes_at: interval.stop,
        read: offered,
        written: shown_at(register, interval.start),
    }
}

// What a task writes as an interval ends, where that is by the end of the run.
fn output_by(
    until: u64,
    interval: Interval,
    offered: Option<u64>,
    register: Register,
) -> Option<ChainOutput>
    ensures { result ≡ output_by until interval offered register }
{
    if register.task == interval.task && interval.stop <= until as u128 {
        let (finish, sample) = (interval.stop as u64, offered);
        Some(ChainOutput { finish, sample })
    } else {
        None
    }
}

// An interval begins: its job reads what the register of the task before it shows. What comes of the last task.
fn hand_on(registers: &mut [Register], until: u64, interval: Interval) -> Option<ChainOutput>
    ensures registers { registers.new ≡ handed_on interval (Some interval.start) registers.old }
    ensures output { result ≡ last_by until None interval (Some interval.start) registers.old }
{
    let mut offered = Some(interval.start);
    let mut output = None;
    for register in registers.iter_mut() {
        let before = *register;
        output = output_by(until, interval, offered, before);
        *register = after_start(interval, offered, before);
        offered = shown_at(before, interval.start);
    }
    output
}

// The registers of a chain's tasks before a run.
fn blanks(alloc: Global, tasks: &[usize]) -> Result<Vec<Register>, AllocError>
    ensures { IfOk result (λ registers. registers.items ≡ map blank tasks.now) }
{
    let mut registers = Vec::with_capacity(alloc, tasks.len())?;
    for task in tasks {
        registers.push(Register {
            task: *task,
            writes_at: 0,
            read: None,
            written: None,
        })?;
    }
    Ok(registers)
}

/// The outputs of a chain of tasks that write at their deadlines, by their indexes, the first one first, in a run of
/// these intervals that ends at `until`, by time. The error is out of memory.
pub fn outputs_by(
    alloc: Global,
    until: u64,
    intervals: &[Interval],
    tasks: &[usize],
) -> Result<Vec<ChainOutput>, AllocError>
    ensures { IfOk result (λ outputs. outputs.items ≡ outputs_by until (map blank tasks.now) intervals.now) }
{
    let mut registers = blanks(alloc, tasks)?;
    let mut outputs = Vec::new(alloc);
    for interval in intervals {
        if let Some(output) = hand_on(&mut registers, until, *interval) {
            outputs.push(output)?;
        }
    }
    Ok(outputs)
}
