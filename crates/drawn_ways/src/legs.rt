//! The jobs of a path.
ghost use Rattle.std.specs.Prelude.{◌≡◌, IfOk, None, reverse};
ghost use Rattle.drawn_ways.specs.Legs.{back, leg_of, newest_leg, newest_of, path_at};
ghost use Rattle.drawn_ways.specs.Sources.{outputs_in};

use crate::sources::{Source, outputs_in};
use chain_runs::ChainOutput;
use std::alloc::{AllocError, Global};

/// A job of a chain's task, by the task's index, from when it reads to when it writes, in microseconds: from its start to its
/// finish, or from its arrival to its deadline.
#[derive(Clone, Copy)]
pub struct Leg {
    pub task: usize,
    pub start: u64,
    pub stop: u64,
}

// A job of a task that has written, by the output of a chain of the task alone.
fn leg_of(task: usize, output: ChainOutput) -> Option<Leg>
    ensures { result ≡ leg_of task output }
{
    match output.sample {
        None => None,
        Some(start) => Some(Leg {
            task,
            start,
            stop: output.finish,
        }),
    }
}

// Of some that have written by a time, the last.
fn newest_leg(task: usize, time: u64, outputs: &[ChainOutput]) -> Option<Leg>
    ensures { result ≡ newest_leg task time outputs.now None }
{
    let mut found = None;
    for output in outputs {
        if output.finish <= time {
            found = leg_of(task, *output);
        }
    }
    found
}

/// Of the jobs of a task that have written by a time in a run, the last, if there is one. The error is out of memory.
pub fn newest_of(
    alloc: Global,
    source: &Source,
    task: usize,
    time: u64,
) -> Result<Option<Leg>, AllocError>
    ensures { IfOk result (λ leg. leg ≡ newest_of (outputs_in source.now) task time) }
{
    let outputs = outputs_in(alloc, source, &[task])?;
    Ok(newest_leg(task, time, &outputs))
}

// The tasks of a chain, the last one first.
fn turned(alloc: Global, tasks: &[usize]) -> Result<Vec<usize>, AllocError>
    ensures { IfOk result (λ turned. turned.items ≡ reverse tasks.now) }
{
    let mut turned = Vec::with_capacity(alloc, tasks.len())?;
    turned.extend_from_slice(tasks)?;
    turned.reverse();
    Ok(turned)
}

// The jobs of the path of what stands at a time, along tasks of which each reads what the one behind it writes.
fn back(alloc: Global, source: &Source, tasks: &[usize], time: u64) -> Result<Vec<Leg>, AllocError>
    ensures { IfOk result (λ legs. legs.items ≡ back (outputs_in source.now) tasks.now time) }
{
    let mut legs = Vec::with_capacity(alloc, tasks.len())?;
    let mut time = time;
    for task in tasks {
        let Some(leg) = newest_of(alloc, source, *task, time)? else {
            return Ok(legs);
        };
        legs.push(leg)?;
        time = leg.start;
    }
    Ok(legs)
}

/// The jobs of the path of what stands at a time of a run behind a chain of tasks, by their indexes, the first one first; the
/// last job stands first. Where nothing stands there are none. The error is out of memory.
pub fn path_at(
    alloc: Global,
    source: &Source,
    tasks: &[usize],
    time: u64,
) -> Result<Vec<Leg>, AllocError>
    ensures { IfOk result (λ legs. legs.items ≡ path_at (outputs_in source.now) tasks.now time) }
{
    let turned = turned(alloc, tasks)?;
    back(alloc, source, &turned, time)
}
