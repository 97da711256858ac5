//! What a trace shows: a line for each task, and then the promises that are broken.
ghost use Rattle.std.specs.Prelude.{◌≡◌, ◌++◌, OnOk, IfOk, string_bytes};
ghost use Rattle.observed_lines.specs.ObservedLines.{beside_words, missing_lines, observed_lines, task_line, task_lines};

use crate::broken::push_all_broken;
use crate::jobless::push_all_jobless;
use crate::leeway::Leeway;
use crate::reached::{greatest_response, reached_of};
use observed::{Promise, Seen};
use std::alloc::{AllocError, Global};

// A time, or `-` for none, and what is promised of it.
fn push_beside(text: &mut String, time: Option<u64>, promised: u64) -> Result<(), AllocError>
    ensures { OnOk result (string_bytes text.new
        ≡ string_bytes text.old ++ beside_words time promised) }
{
    match time {
        Some(time) => write!(text, " {time} {promised}"),
        None => write!(text, " - {promised}"),
    }
}

// The line of a task at a level.
fn push_task(
    text: &mut String,
    level: usize,
    promise: &Promise,
    seen: &[Seen],
) -> Result<(), AllocError>
    ensures { OnOk result (string_bytes text.new
        ≡ string_bytes text.old ++ task_line level promise.now seen.now) }
{
    let reached = reached_of(level, seen);
    let name = promise.name;
    let jobs = reached.jobs;
    let executed = reached.executed;
    let cost = promise.cost;
    write!(text, "task {name} {jobs} {executed} {cost}")?;
    push_beside(text, reached.gap, promise.period)?;
    push_beside(text, greatest_response(level, seen), promise.bound)?;
    text.push_str("\n")
}

// A line for each task.
fn push_tasks(text: &mut String, promises: &[Promise], seen: &[Seen]) -> Result<(), AllocError>
    ensures { OnOk result (string_bytes text.new
        ≡ string_bytes text.old ++ task_lines 0 promises.now seen.now) }
{
    for (level, promise) in promises.iter().enumerate() {
        push_task(text, level, promise, seen)?;
    }
    Ok(())
}

// Those that have no job, unless they need not have one.
fn push_missing(
    text: &mut String,
    leeway: Leeway,
    promises: &[Promise],
    seen: &[Seen],
) -> Result<(), AllocError>
    ensures { OnOk result (string_bytes text.new
        ≡ string_bytes text.old ++ missing_lines leeway promises.now seen.now) }
{
    if leeway.jobless {
        Ok(())
    } else {
        push_all_jobless(text, promises, seen)
    }
}

/// The lines that say what a trace shows: for each task of these promises, the lowest level first, its name, how many jobs
/// it has, the longest execution of one and its cost, the least time between two arrivals, `-` where there is none, and
/// its period, the greatest response, `-` where no job is done, and its bound; then each task that has no job, unless they
/// need not have one; then, for each job in its order, the promises that it breaks by more than the tolerance, and last those
/// of them that follow from others. Times are in microseconds. The error is out of memory.
pub fn observed_text(
    alloc: Global,
    leeway: Leeway,
    promises: &[Promise],
    seen: &[Seen],
) -> Result<String, AllocError>
    ensures { IfOk result (λ text. string_bytes text
        ≡ observed_lines leeway promises.now seen.now) }
{
    let mut text = String::new(alloc);
    push_tasks(&mut text, promises, seen)?;
    push_missing(&mut text, leeway, promises, seen)?;
    push_all_broken(alloc, &mut text, leeway.tolerance, seen)?;
    Ok(text)
}
