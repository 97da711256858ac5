//! The bound of a chain in an order that passes, from the responses of its tasks alone.
ghost use Rattle.std.specs.Prelude.{◌≡◌, ◌<◌, ◌↔◌, List, length, IfOk, IsTrue};
ghost use Rattle.std.specs.List.{list_all};
ghost use Rattle.task_sheet.specs.Orders.{all_of, IsPassingOrder};
ghost use Rattle.chains.specs.Parts.{bound_in, order_of};
ghost use Rattle.chains.specs.declared.bounds.Level.{Level};
ghost use Rattle.chains.specs.declared.bounds.Writes.TheVariants.{AtFinish};
ghost use Rattle.least_chains.specs.LeastBound.{ArePassing, part_in, parts_in};
ghost use Rattle.chain_limits.specs.Reaches.{IsMetIn};

use assignment::members_of;
use ceiling_kernel::above;
use ceilings::Tabled;
use chains::Writes;
use least_chains::{bound_with, least_time};
use response_time::response_in_time;
use std::alloc::{AllocError, Global};
use task_sheet::Members;

// The part behind the wait of a task in front of these others, where it writes as it finishes.
fn part_at_finish(set: &Tabled<'_>, order: &[usize], task: usize, others: &[usize]) -> u64
    requires task { task < length set.now }
    requires passing { IsPassingOrder set.now order.now }
    ensures { (levels : List Level) → ArePassing set.now levels → order_of levels ≡ order.now
        → result ≡ part_in AtFinish set.now levels task others.now }
{
    // The set is valid: the proof has it from its sheets.
    let _ = set.sheets();
    let above = members_of(above(order, task));
    match response_in_time(set, task, above) {
        Some(response) => least_time(set, task, above, response, others),
        None => unreachable!(),
    }
}

// The part by when the tasks write: no order moves a deadline. One that is no task of the set has none.
fn part_behind(
    set: &Tabled<'_>,
    order: &[usize],
    writes: Writes,
    task: usize,
    others: &[usize],
) -> u64
    requires { IsPassingOrder set.now order.now }
    ensures { (levels : List Level) → ArePassing set.now levels → order_of levels ≡ order.now
        → result ≡ part_in writes set.now levels task others.now }
{
    let sheets = set.sheets();
    if task >= set.len() {
        return 0;
    }
    match writes {
        Writes::AtFinish => part_at_finish(set, order, task, others),
        Writes::AtDeadline => sheets[task].deadline(),
    }
}

// Those of a chain's tasks. The error is out of memory.
fn parts_in(
    alloc: Global,
    set: &Tabled<'_>,
    order: &[usize],
    writes: Writes,
    tasks: &[usize],
) -> Result<Vec<u64>, AllocError>
    requires { IsPassingOrder set.now order.now }
    ensures { IfOk result (λ parts. (levels : List Level) → ArePassing set.now levels → order_of levels ≡ order.now
        → parts.items ≡ parts_in writes set.now levels tasks.now) }
{
    let mut parts = Vec::with_capacity(alloc, tasks.len())?;
    let mut rest = tasks;
    while let Some((task, others)) = rest.split_first() {
        parts.push(part_behind(set, order, writes, *task, others))?;
        rest = others;
    }
    Ok(parts)
}

// Whether each is a task of the set.
fn are_tasks(set: &Tabled<'_>, tasks: &[usize]) -> bool
    ensures { result ≡ list_all (all_of set.now) tasks.now }
{
    let count = set.len();
    tasks.iter().all(|task| *task < count)
}

/// The bound of a chain of tasks, by their indexes, the first one first, in an order that passes, in microseconds. The
/// offsets are theirs, or none where none is known. None where one is no task of the set, or over `ARRIVAL_LIMIT` arrivals of
/// the first task come until all arrive as at first. The error is out of memory.
pub fn bound_in_order(
    alloc: Global,
    set: &Tabled<'_>,
    order: &[usize],
    writes: Writes,
    offsets: &[u64],
    tasks: &[usize],
) -> Result<Option<u128>, AllocError>
    requires { IsPassingOrder set.now order.now }
    ensures { IfOk result (λ bound. (levels : List Level) → ArePassing set.now levels
        → order_of levels ≡ order.now → bound
        ≡ bound_in writes offsets.now set.now levels tasks.now) }
{
    // The set is valid: the proof has it from its sheets.
    let _ = set.sheets();
    if !are_tasks(set, tasks) {
        return Ok(None);
    }
    let parts = parts_in(alloc, set, order, writes, tasks)?;
    bound_with(alloc, set.tasks(), offsets, &parts, tasks)
}

/// Whether in an order that passes it is within a limit. The error is out of memory.
pub(crate) fn is_met(
    alloc: Global,
    set: &Tabled<'_>,
    order: &[usize],
    writes: Writes,
    offsets: &[u64],
    tasks: &[usize],
    limit: u64,
) -> Result<bool, AllocError>
    requires { IsPassingOrder set.now order.now }
    ensures { IfOk result (λ is. IsTrue is ↔ IsMetIn writes offsets.now order.now tasks.now limit set.now) }
{
    // The set is valid: the proof has it from its sheets.
    let _ = set.sheets();
    match bound_in_order(alloc, set, order, writes, offsets, tasks)? {
        Some(bound) => Ok(bound <= limit as u128),
        None => Ok(false),
    }
}
