//! The outputs of a chain in a trace whose tasks write at their deadlines.
ghost use Rattle.std.specs.Prelude.{◌≡◌, IfOk, None, Some};
ghost use Rattle.chain_traces.specs.DeadlineOutputs.{deadline_outputs, handed_on, later_than, output_of, sampled, standing};

use chain_runs::ChainOutput;
use chains::{Writes, after_of};
use observed::Seen;
use std::alloc::{AllocError, Global};
use task_sheet::TaskSet;

// What stands of outputs at a time: the sample behind it, and those that come later.
#[derive(Clone, Copy)]
struct Standing<'a> {
    time: u64,
    sample: Option<u64>,
    later: &'a [ChainOutput],
}

// What stands at a time of outputs behind one that was found before.
fn stand_from<'a>(time: u64, found: Option<u64>, outputs: &'a [ChainOutput]) -> Standing<'a>
    ensures time { result.time ≡ time }
    ensures sample { result.sample ≡ standing time found outputs.now }
    ensures later { result.later.now ≡ later_than time outputs.now }
{
    let mut sample = found;
    let mut later = outputs;
    while let Some((output, others)) = later.split_first() {
        if time < output.finish {
            return Standing {
                time,
                sample,
                later,
            };
        }
        sample = output.sample;
        later = others;
    }
    Standing {
        time,
        sample,
        later,
    }
}

// The same of outputs, where it is known of another time.
fn stand_next<'a>(time: u64, known: Standing<'a>, outputs: &'a [ChainOutput]) -> Standing<'a>
    requires sample { known.sample ≡ standing known.time None outputs.now }
    requires later { known.later.now ≡ later_than known.time outputs.now }
    ensures time { result.time ≡ time }
    ensures sample { result.sample ≡ standing time None outputs.now }
    ensures later { result.later.now ≡ later_than time outputs.now }
{
    if time < known.time {
        stand_from(time, None, outputs)
    } else {
        stand_from(time, known.sample, known.later)
    }
}

// What a job writes, where it is one of a task, and its deadline comes by the end.
fn output_of(
    set: &TaskSet,
    end: u64,
    task: usize,
    read: Option<u64>,
    seen: &Seen,
) -> Option<ChainOutput>
    ensures { result ≡ output_of set.now end task read seen.now }
{
    let deadline = after_of(set, &[], Writes::AtDeadline, task, &[]).time;
    let time = seen.arrival as u128 + deadline as u128;
    if seen.promise.task == task && time <= end as u128 {
        let (finish, sample) = (time as u64, read);
        Some(ChainOutput { finish, sample })
    } else {
        None
    }
}

// What comes of a chain's first task.
fn sampled(
    alloc: Global,
    set: &TaskSet,
    end: u64,
    task: usize,
    seen: &[Seen],
) -> Result<Vec<ChainOutput>, AllocError>
    ensures { IfOk result (λ outputs. outputs.items ≡ sampled set.now end task seen.now) }
{
    let mut outputs = Vec::new(alloc);
    for job in seen {
        if let Some(output) = output_of(set, end, task, Some(job.arrival), job) {
            outputs.push(output)?;
        }
    }
    Ok(outputs)
}

// What comes of another, behind one of which this has come.
fn handed_on(
    alloc: Global,
    set: &TaskSet,
    end: u64,
    task: usize,
    written: &[ChainOutput],
    seen: &[Seen],
) -> Result<Vec<ChainOutput>, AllocError>
    ensures { IfOk result (λ outputs. outputs.items ≡ handed_on set.now end task written.now seen.now) }
{
    let mut outputs = Vec::new(alloc);
    let mut standing = stand_from(0, None, written);
    for job in seen {
        standing = stand_next(job.arrival, standing, written);
        if let Some(output) = output_of(set, end, task, standing.sample, job) {
            outputs.push(output)?;
        }
    }
    Ok(outputs)
}

/// The outputs of a chain of tasks that write at their deadlines, by their indexes, the first one first, where these jobs are seen:
/// those that come by the end, each with the sample that its path begins with. The error is out of memory.
pub fn deadline_outputs(
    alloc: Global,
    set: &TaskSet,
    end: u64,
    tasks: &[usize],
    seen: &[Seen],
) -> Result<Vec<ChainOutput>, AllocError>
    ensures { IfOk result (λ outputs. outputs.items ≡ deadline_outputs set.now end tasks.now seen.now) }
{
    let Some((first, others)) = tasks.split_first() else {
        return Ok(Vec::new(alloc));
    };
    let mut outputs = sampled(alloc, set, end, *first, seen)?;
    for task in others {
        outputs = handed_on(alloc, set, end, *task, &outputs, seen)?;
    }
    Ok(outputs)
}
