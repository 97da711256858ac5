//! The furthest value of a number with which an order passes and a chain is met.
ghost use Rattle.std.specs.Prelude.{◌+◌, ◌<◌, ◌≤◌, length, IfOk};
ghost use Rattle.task_sheet.specs.Sheet.{task_at};
ghost use Rattle.task_sheet.specs.TaskSet.{IsTaskSet};
ghost use Rattle.task_sheet.specs.Orders.{IsOrder};
ghost use Rattle.limits.specs.Numbers.{HasNumber, IsSpan, MayHave, at_distance, numbered};
ghost use Rattle.chain_limits.specs.Reaches.{AnswersReach, Grows, IsMetIn};
ghost use Rattle.chain_limits.specs.Standings.{IsStanding};

use crate::bound::is_met;
use ceilings::{LockTable, Tabled};
use chains::Writes;
use limits::{Number, Span, at_distance, keeps_sections, numbered, order_passes, span_in};
use std::alloc::{AllocError, Global};

/// How far a number may go with a chain met in an order.
#[derive(Clone, Copy, Debug, PartialEq, Eq)]
pub struct Reach {
    /// The furthest value.
    pub furthest: u64,
    /// The order passes with a further one.
    pub is_bound: bool,
}

/// What becomes of an order and a chain in it.
#[derive(Clone, Copy, PartialEq, Eq)]
pub(crate) enum Standing {
    /// The order doesn't pass.
    Fails,
    /// It does, and the chain's bound is past the limit.
    Misses,
    /// The bound is within it.
    Meets,
}

// What becomes of an order, and of a chain of tasks in it. The error is out of memory.
fn judge_standing(
    alloc: Global,
    set: &Tabled<'_>,
    order: &[usize],
    writes: Writes,
    offsets: &[u64],
    tasks: &[usize],
    limit: u64,
) -> Result<Standing, AllocError>
    requires { IsOrder set.now order.now }
    ensures { IfOk result (IsStanding writes offsets.now order.now tasks.now limit set.now) }
{
    if !order_passes(set, order) {
        return Ok(Standing::Fails);
    }
    if is_met(alloc, set, order, writes, offsets, tasks, limit)? {
        Ok(Standing::Meets)
    } else {
        Ok(Standing::Misses)
    }
}

// The same with this number of a task. Only another length of a section needs another table.
fn stands_with(
    alloc: Global,
    set: &Tabled<'_>,
    order: &[usize],
    writes: Writes,
    offsets: &[u64],
    tasks: &[usize],
    limit: u64,
    task: usize,
    number: Number,
    value: u64,
) -> Result<Standing, AllocError>
    requires each { IsOrder set.now order.now }
    requires task { task < length set.now }
    requires has { HasNumber (task_at set.now task) number }
    requires may { MayHave set.now task number value }
    ensures { IfOk result (IsStanding writes offsets.now order.now tasks.now limit (numbered set.now task number value)) }
{
    let other = numbered(alloc, set, task, number, value)?;
    if keeps_sections(number) {
        let same = Tabled::of(&other, set.table());
        return judge_standing(alloc, &same, order, writes, offsets, tasks, limit);
    }
    let table = LockTable::new(alloc, &other)?;
    let anew = Tabled::of(&other, &table);
    judge_standing(alloc, &anew, order, writes, offsets, tasks, limit)
}

// The furthest value, where the chain is met with the easiest.
fn reach_past(
    alloc: Global,
    set: &Tabled<'_>,
    order: &[usize],
    writes: Writes,
    offsets: &[u64],
    tasks: &[usize],
    limit: u64,
    task: usize,
    number: Number,
    span: Span,
) -> Result<Reach, AllocError>
    requires kept { IsTaskSet set.now }
    requires each { IsOrder set.now order.now }
    requires task { task < length set.now }
    requires has { HasNumber (task_at set.now task) number }
    requires grows { Grows number }
    requires span { IsSpan (task_at set.now task) number span.easiest span.length }
    requires short { span.easiest + span.length ≤ 20000000 }
    requires met { IsMetIn writes offsets.now order.now tasks.now limit
        (numbered set.now task number (at_distance number span.easiest 0)) }
    ensures { IfOk result (λ reach. AnswersReach writes offsets.now order.now tasks.now limit set.now task number (Some reach)) }
{
    let mut met = 0;
    let mut missing = span.length + 1;
    let mut is_bound = false;
    while missing - met > 1 {
        let middle = met + (missing - met) / 2;
        let value = at_distance(number, span.easiest, middle);
        match stands_with(
            alloc, set, order, writes, offsets, tasks, limit, task, number, value,
        )? {
            Standing::Meets => met = middle,
            Standing::Misses => {
                missing = middle;
                is_bound = true;
            }
            Standing::Fails => missing = middle,
        }
    }
    let furthest = at_distance(number, span.easiest, met);
    Ok(Reach { furthest, is_bound })
}

/// The furthest value that a cost, a jitter or a length of a section may have with which an order of the set passes as it
/// stands and the bound of a chain of tasks in it is within a limit, all else equal, whether it is so with the task's own
/// or not; none where none helps. With it, whether the order passes with a further one: else it is the furthest in the
/// order. The error is out of memory.
pub fn reach_in_order(
    alloc: Global,
    set: &Tabled<'_>,
    order: &[usize],
    writes: Writes,
    offsets: &[u64],
    tasks: &[usize],
    limit: u64,
    task: usize,
    number: Number,
) -> Result<Option<Reach>, AllocError>
    requires each { IsOrder set.now order.now }
    requires task { task < length set.now }
    requires has { HasNumber (task_at set.now task) number }
    requires grows { Grows number }
    ensures { IfOk result (AnswersReach writes offsets.now order.now tasks.now limit set.now task number) }
{
    let span = span_in(set, task, number);
    match stands_with(
        alloc,
        set,
        order,
        writes,
        offsets,
        tasks,
        limit,
        task,
        number,
        span.easiest,
    )? {
        Standing::Fails => Ok(None),
        Standing::Misses => Ok(None),
        Standing::Meets => {
            let reach = reach_past(
                alloc, set, order, writes, offsets, tasks, limit, task, number, span,
            )?;
            Ok(Some(reach))
        }
    }
}
