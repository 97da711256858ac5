//! The least bound of a chain, from the least part of each of its tasks.
ghost use Rattle.std.specs.Prelude.{◌≡◌, ◌<◌, length, IfOk};
ghost use Rattle.task_sheet.specs.Sheet.{task_at};
ghost use Rattle.task_sheet.specs.Indexes.{indexes_of, IsPart};
ghost use Rattle.task_sheet.specs.Orders.{all_of, IsFeasible};
ghost use Rattle.chains.specs.declared.bounds.Writes.TheVariants.{AtFinish};
ghost use Rattle.least_chains.specs.LeastBound.{AreLeastParts, IsLeastBound, IsLeastPart, least_time};

use crate::above::above_at_least;
use crate::steps::bound_with;
use ceilings::Tabled;
use chains::Writes;
use response_time::response_in_time;
use std::alloc::{AllocError, Global};
use task_sheet::Members;

// Whether a task is one of these.
fn is_one(set: &Tabled<'_>, members: Members, task: usize) -> bool
    requires { IsPart (indexes_of members) (all_of set.now) }
    ensures { result ≡ indexes_of members task }
{
    task < set.len() && members.has(task)
}

// The cost of the task at an index.
fn cost_at(set: &Tabled<'_>, task: usize) -> u64
    ensures { result ≡ (task_at set.now task).cost }
{
    match set.sheets().get(task) {
        Some(sheet) => sheet.cost(),
        None => 0,
    }
}

// The deadline of the task at an index.
fn deadline_at(set: &Tabled<'_>, task: usize) -> u64
    ensures { result ≡ (task_at set.now task).deadline }
{
    match set.sheets().get(task) {
        Some(sheet) => sheet.deadline(),
        None => 0,
    }
}

/// The part behind the wait of a task in front of these others, where it writes as it finishes, these stand above it and
/// this is its response with them, in microseconds; the least one, where they do in each order that passes.
pub fn least_time(
    set: &Tabled<'_>,
    task: usize,
    above: Members,
    response: u64,
    others: &[usize],
) -> u64
    requires task { task < length set.now }
    requires part { IsPart (indexes_of above) (all_of set.now) }
    ensures { result ≡ least_time set.now task (indexes_of above) response others.now }
{
    let Some(next) = others.first() else {
        return response;
    };
    if *next == task || is_one(set, above, *next) {
        response.saturating_sub(cost_at(set, *next))
    } else {
        set.sheets()[task].jitter()
    }
}

// The least part behind the wait of a task in front of these others, where it writes as it finishes.
fn least_at_finish(set: &Tabled<'_>, task: usize, others: &[usize]) -> u64
    requires { IsFeasible set.now }
    ensures { IsLeastPart AtFinish set.now task others.now result }
{
    // The set is valid: the proof has it from its sheets.
    let _ = set.sheets();
    if task >= set.len() {
        return 0;
    }
    let above = above_at_least(set, task);
    match response_in_time(set, task, above) {
        Some(response) => least_time(set, task, above, response, others),
        None => unreachable!(),
    }
}

// The least part by when the tasks write: at its deadline a task does so in each order.
fn least_part(set: &Tabled<'_>, writes: Writes, task: usize, others: &[usize]) -> u64
    requires { IsFeasible set.now }
    ensures { IsLeastPart writes set.now task others.now result }
{
    // The set is valid: the proof has it from its sheets.
    let _ = set.sheets();
    match writes {
        Writes::AtFinish => least_at_finish(set, task, others),
        Writes::AtDeadline => deadline_at(set, task),
    }
}

// The least part behind the wait of each task of a chain. The error is out of memory.
fn least_parts(
    alloc: Global,
    set: &Tabled<'_>,
    writes: Writes,
    tasks: &[usize],
) -> Result<Vec<u64>, AllocError>
    requires { IsFeasible set.now }
    ensures { IfOk result (λ parts. AreLeastParts writes set.now tasks.now parts.items) }
{
    let mut parts = Vec::with_capacity(alloc, tasks.len())?;
    let mut rest = tasks;
    while let Some((task, others)) = rest.split_first() {
        parts.push(least_part(set, writes, *task, others))?;
        rest = others;
    }
    Ok(parts)
}

/// How small the bound of a chain of tasks, by their indexes, the first one first, could be in any order that passes,
/// where one does, in microseconds: what it is with the least part of each task, which some order reaches. No order that
/// passes has a bound below it. The offsets are the tasks', or none where none is known; it is none where over
/// `ARRIVAL_LIMIT` arrivals of the first task come until all arrive as at first. The error is out of memory.
pub fn least_bound(
    alloc: Global,
    set: &Tabled<'_>,
    writes: Writes,
    offsets: &[u64],
    tasks: &[usize],
) -> Result<Option<u128>, AllocError>
    requires { IsFeasible set.now }
    ensures { IfOk result (IsLeastBound writes offsets.now set.now tasks.now) }
{
    let parts = least_parts(alloc, set, writes, tasks)?;
    bound_with(alloc, set.tasks(), offsets, &parts, tasks)
}
