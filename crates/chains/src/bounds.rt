//! A chain's bound and its parts, from the levels of an order.
ghost use Rattle.std.specs.Prelude.{◌≡◌, ◌<◌, ◌++◌, ◌^◌, [], IfOk, drop, map};
ghost use Rattle.std.specs.List.{list_all};
ghost use Rattle.task_sheet.specs.Sheet.{task_at};
ghost use Rattle.ceiling_kernel.specs.Tick.{level_in_order, node_in};
ghost use Rattle.chains.specs.Gaps.{gap_of};
ghost use Rattle.chains.specs.Parts.{after_of, afters_of, bound_in, has_response, order_of, parts_of, response_in, steps_of, time_in, wait_for, walk_parts};
ghost use Rattle.chains.specs.Walks.{steps_with};
ghost use Rattle.chains.specs.declared.bounds.Writes.TheVariants.{AtFinish};
ghost use Rattle.ceiling_kernel.specs.Waits.{lateness_of};

use crate::walks::{Step, bound_by, longest_start, next_by, step_of};
use std::alloc::{AllocError, Global};
use task_sheet::TaskSet;

/// A level of an order: the index of its task, and the task's response there in microseconds from the arrival; none where
/// the task misses its deadline.
#[derive(Clone, Copy)]
pub struct Level {
    pub task: usize,
    pub response: Option<u64>,
}

/// When the tasks of a chain read and write.
#[derive(Clone, Copy, Debug, PartialEq, Eq)]
pub enum Writes {
    /// Each job reads as it begins, and writes as it finishes.
    AtFinish,
    /// Each job reads as it arrives, and writes a deadline later (logical execution time).
    AtDeadline,
}

/// What a part of a chain's bound is.
#[derive(Clone, Copy, Debug, PartialEq, Eq)]
pub enum PartKind {
    /// How long until the task's next job arrives.
    Wait,
    /// How late a job of the task may be; the next task stands below it.
    Jitter,
    /// The task's response, less the cost of the next task, which stands above it.
    Handover { next: usize },
    /// The response of the last task.
    Response,
    /// The task's deadline, where it writes then.
    Deadline,
}

/// A part of a chain's bound, by the index of its task, in microseconds.
#[derive(Clone, Copy, Debug, PartialEq, Eq)]
pub struct BoundPart {
    pub kind: PartKind,
    pub task: usize,
    pub time: u64,
}

// The period of the task at an index.
pub(crate) fn period_at(set: &TaskSet, task: usize) -> u64
    ensures { result ≡ gap_of (task_at set.now task) }
{
    match set.get(task) {
        Some(sheet) => sheet.period(),
        None => 1,
    }
}

// How late a job of the task at an index may be.
fn jitter_at(set: &TaskSet, task: usize) -> u64
    ensures { result ≡ lateness_of (task_at set.now task) }
{
    match set.get(task) {
        Some(sheet) => sheet.jitter(),
        None => 0,
    }
}

// The cost of the task at an index.
fn cost_at(set: &TaskSet, task: usize) -> u64
    ensures { result ≡ (task_at set.now task).cost }
{
    match set.get(task) {
        Some(sheet) => sheet.cost(),
        None => 0,
    }
}

// The deadline of the task at an index.
fn deadline_at(set: &TaskSet, task: usize) -> u64
    ensures { result ≡ (task_at set.now task).deadline }
{
    match set.get(task) {
        Some(sheet) => sheet.deadline(),
        None => 0,
    }
}

// The level of a task, from 1; 0 where it has none.
fn level_of(levels: &[Level], task: usize) -> usize
    ensures { result ≡ level_in_order (node_in [] (order_of levels.now)) task }
{
    for (i, level) in levels.iter().enumerate() {
        if level.task == task {
            return i + 1;
        }
    }
    0
}

// The response of a task, where it has one.
fn response_of(levels: &[Level], task: usize) -> Option<u64>
    ensures { result ≡ response_in levels.now task }
{
    for level in levels {
        if level.task == task {
            return level.response;
        }
    }
    None
}

// The same, 0 where it has none.
fn time_of(levels: &[Level], task: usize) -> u64
    ensures { result ≡ time_in levels.now task }
{
    response_of(levels, task).unwrap_or(0)
}

// What is handed over at its finish from a task to the first of these others, or the task's response where there is none.
fn at_finish(set: &TaskSet, levels: &[Level], task: usize, others: &[usize]) -> BoundPart
    ensures { result ≡ after_of AtFinish (node_in set.now (order_of levels.now)) (time_in levels.now)
        task others.now }
{
    let Some(next) = others.first() else {
        let (kind, time) = (PartKind::Response, time_of(levels, task));
        return BoundPart { kind, task, time };
    };
    if level_of(levels, *next) < level_of(levels, task) {
        let (kind, time) = (PartKind::Jitter, jitter_at(set, task));
        return BoundPart { kind, task, time };
    }
    let kind = PartKind::Handover { next: *next };
    let time = time_of(levels, task).saturating_sub(cost_at(set, *next));
    BoundPart { kind, task, time }
}

/// The part behind it: what is handed over from a task to the first of these others, or the task's response where there is
/// none; its deadline, where the tasks write then.
pub fn after_of(
    set: &TaskSet,
    levels: &[Level],
    writes: Writes,
    task: usize,
    others: &[usize],
) -> BoundPart
    ensures { result ≡ after_of writes (node_in set.now (order_of levels.now)) (time_in levels.now)
        task others.now }
{
    match writes {
        Writes::AtFinish => at_finish(set, levels, task, others),
        Writes::AtDeadline => BoundPart {
            kind: PartKind::Deadline,
            task,
            time: deadline_at(set, task),
        },
    }
}

// Each of the tasks has a response.
fn have_responses(levels: &[Level], tasks: &[usize]) -> bool
    ensures { result ≡ list_all (has_response levels.now) tasks.now }
{
    tasks
        .iter()
        .all(|task| response_of(levels, *task).is_some())
}

// The offsets behind the first.
fn behind(offsets: &[u64]) -> &[u64]
    ensures { result.now ≡ drop 1 offsets.now }
{
    match offsets.split_first() {
        Some((_, others)) => others,
        None => offsets,
    }
}

/// The steps of a chain of tasks, by their indexes, the first one first, in microseconds; the offsets are theirs, or none
/// where none is known. The error is out of memory.
pub fn steps_of(
    alloc: Global,
    set: &TaskSet,
    levels: &[Level],
    writes: Writes,
    offsets: &[u64],
    tasks: &[usize],
) -> Result<Vec<Step>, AllocError>
    ensures { IfOk result (λ steps. steps.items ≡ steps_of writes offsets.now
        (node_in set.now (order_of levels.now)) (time_in levels.now) tasks.now) }
{
    let mut steps = Vec::with_capacity(alloc, tasks.len())?;
    let mut known = offsets;
    let mut rest = tasks;
    while let Some((task, others)) = rest.split_first() {
        let after = after_of(set, levels, writes, *task, others);
        steps.push(step_of(set, known, *task, after.time))?;
        known = behind(known);
        rest = others;
    }
    Ok(steps)
}

// The wait of so long for a task's next job.
fn wait_for(task: usize, time: u64) -> BoundPart
    ensures { result ≡ wait_for task time }
{
    let kind = PartKind::Wait;
    BoundPart { kind, task, time }
}

// Adds the parts of a walk that comes to the first of these tasks at a time.
fn push_walk(
    parts: &mut Vec<BoundPart>,
    set: &TaskSet,
    levels: &[Level],
    writes: Writes,
    offsets: &[u64],
    tasks: &[usize],
    from: u128,
) -> Result<(), AllocError>
    requires { from < 2 ^ 83 }
    ensures { IfOk result (λ _. parts.new.items ≡ parts.old.items ++ walk_parts
        (steps_of writes offsets.now (node_in set.now (order_of levels.now)) (time_in levels.now) tasks.now)
        (afters_of writes (node_in set.now (order_of levels.now)) (time_in levels.now) tasks.now) from) }
{
    let mut time = from;
    let mut known = offsets;
    let mut rest = tasks;
    while let Some((task, others)) = rest.split_first() {
        let after = after_of(set, levels, writes, *task, others);
        let step = step_of(set, known, *task, after.time);
        let arrival = next_by(&step, time);
        parts.push(wait_for(after.task, (arrival - time) as u64))?;
        parts.push(after)?;
        time = arrival + step.delay as u128;
        known = behind(known);
        rest = others;
    }
    Ok(())
}

/// The parts of its bound: those of the longest span. The error is out of memory.
pub fn parts_of(
    alloc: Global,
    set: &TaskSet,
    levels: &[Level],
    writes: Writes,
    offsets: &[u64],
    tasks: &[usize],
) -> Result<Vec<BoundPart>, AllocError>
    ensures { IfOk result (λ parts. parts.items ≡ parts_of writes offsets.now
        (node_in set.now (order_of levels.now)) (time_in levels.now) tasks.now) }
{
    let steps = steps_of(alloc, set, levels, writes, offsets, tasks)?;
    let start = longest_start(&steps);
    let mut parts = Vec::new(alloc);
    if let Some((task, others)) = tasks.split_first() {
        let after = after_of(set, levels, writes, *task, others);
        let step = step_of(set, offsets, *task, after.time);
        parts.push(wait_for(after.task, step.period))?;
        parts.push(after)?;
        let from = start + step.period as u128 + step.delay as u128;
        push_walk(
            &mut parts,
            set,
            levels,
            writes,
            behind(offsets),
            others,
            from,
        )?;
    }
    Ok(parts)
}

/// Its bound, in microseconds: how long the longest span takes. None where one of its tasks misses its deadline, or where walks
/// begin nowhere. The error is out of memory.
pub fn bound_of(
    alloc: Global,
    set: &TaskSet,
    levels: &[Level],
    writes: Writes,
    offsets: &[u64],
    tasks: &[usize],
) -> Result<Option<u128>, AllocError>
    ensures { IfOk result (λ bound. bound ≡ bound_in writes offsets.now set.now levels.now tasks.now) }
{
    if !have_responses(levels, tasks) {
        return Ok(None);
    }
    let steps = steps_of(alloc, set, levels, writes, offsets, tasks)?;
    Ok(bound_by(&steps))
}
