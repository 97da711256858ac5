//! The jobs that the bound of a chain counts.
ghost use Rattle.std.specs.Prelude.{◌≡◌, ◌<◌, ◌≤◌, ◌+◌, ◌^◌, max, option_map, Option, length, All, IfOk, MatchOption};
ghost use Rattle.std.specs.Int.{next_multiple_of};
ghost use Rattle.task_sheet.specs.Demand.{greatest_of};
ghost use Rattle.task_sheet.specs.Sheet.{task_at};
ghost use Rattle.task_sheet.specs.Indexes.{indexes_of};
ghost use Rattle.ceiling_kernel.specs.declared.accept.TheConstants.{HORIZON};
ghost use Rattle.ceiling_kernel.specs.Waits.{lateness_of};
ghost use Rattle.chains.specs.Gaps.{gap_of};
ghost use Rattle.chains.specs.Parts.{order_of};
ghost use Rattle.explain.specs.Blocking.{BlockerData, IsBlockerOf};
ghost use Rattle.chain_worst.specs.Aims.{AreAims, IsAim, aim_time, before_tick, begin_of, blocker_start, early_of, end_of, round_of, start_of};

use assignment::members_of;
use ceiling_kernel::{HORIZON, above};
use ceilings::Tabled;
use chains::{Level, Step, Writes, after_of, longest_start, starts_of, step_of};
use explain::{Blocker, first_blocker};
use std::alloc::{AllocError, Global};
use task_sheet::{Members, Section, TaskSet};

/// When the job of a task arrives whose section blocks an aim, by the task's index, in microseconds.
#[derive(Clone, Copy)]
pub struct BlockerStart {
    pub task: usize,
    pub time: u64,
}

/// A job that a chain's bound counts, by the index of its task: the tasks above it, when it arrives and is ready, its
/// response, and the job that blocks it, if there is one; in microseconds.
#[derive(Clone, Copy)]
pub struct Aim {
    pub task: usize,
    pub above: Members,
    pub arrival: u64,
    pub ready: u64,
    pub response: u64,
    pub blocker: Option<BlockerStart>,
}

// The longest period of a chain's tasks.
fn longest_of(set: &TaskSet, tasks: &[usize]) -> u64
    ensures { result ≡ greatest_of (λ i. gap_of (task_at set.now i)) tasks.now }
{
    let mut longest = 0;
    for task in tasks {
        longest = longest.max(step_of(set, &[], *task, 0).period);
    }
    longest
}

// How long before it is to execute, or to be ready, a job of a set may arrive.
fn lead_in_of(set: &TaskSet) -> u64
    ensures { result ≡ greatest_of (λ t. max t.cost (lateness_of t)) set.now }
{
    let mut lead = 0;
    for sheet in set.sheets() {
        lead = lead.max(sheet.cost().max(sheet.jitter()));
    }
    lead
}

/// By when each task of a chain has had a job, and whatever leads up to an aim has room.
pub(crate) fn begin_of(set: &TaskSet, tasks: &[usize]) -> u64
    ensures { result ≡ begin_of set.now tasks.now }
{
    longest_of(set, tasks).max(lead_in_of(set))
}

// When the job arrives that blocks an aim which is ready then.
fn before_tick(ready: u64, section: Option<&Section>) -> u64
    ensures { result ≡ before_tick ready (option_map (λ s. s.now) section.entry) }
{
    match section {
        Some(section) => ready.saturating_sub(section.at).saturating_sub(1),
        None => ready,
    }
}

// The job of a blocker that blocks it.
fn blocker_start(set: &Tabled<'_>, ready: u64, blocker: &Blocker) -> BlockerStart
    requires { blocker.now.task < length set.now }
    ensures { result ≡ blocker_start set.now ready blocker.now }
{
    let sheet = &set.sheets()[blocker.task];
    BlockerStart {
        task: blocker.task,
        time: before_tick(ready, sheet.sections().get(blocker.place as usize)),
    }
}

// The job that blocks a task with these above it, which is ready then, if there is one.
fn start_of(set: &Tabled<'_>, task: usize, above: Members, ready: u64) -> Option<BlockerStart>
    requires { task < length set.now }
    ensures { (b : Option BlockerData) × IsBlockerOf set.now task (indexes_of above) b
        × (result ≡ start_of set.now ready b) }
{
    match first_blocker(set, task, above) {
        Some(blocker) => Some(blocker_start(set, ready, &blocker)),
        None => None,
    }
}

// The aim of a task in an order whose levels have responses, which arrives at a time.
fn aim_of(set: &Tabled<'_>, levels: &[Level], order: &[usize], task: usize, arrival: u64) -> Aim
    requires order { order.now ≡ order_of levels.now }
    requires within { All (λ k. k < length set.now) order.now }
    requires task { task < length set.now }
    requires arrival { arrival ≤ HORIZON }
    ensures { IsAim set.now levels.now task arrival result }
{
    let sheets = set.sheets();
    let above = members_of(above(order, task));
    let ready = arrival + sheets[task].jitter();
    Aim {
        task,
        above,
        arrival,
        ready,
        response: after_of(set.tasks(), levels, Writes::AtFinish, task, &[]).time,
        blocker: start_of(set, task, above, ready),
    }
}

// The least multiple of a period at a time or later.
fn whole_from(time: u128, period: u128) -> u128
    requires time { time < 2 ^ 100 }
    requires period { period < 2 ^ 100 }
    ensures whole { result ≡ next_multiple_of time period }
    ensures soon { (time ≤ result) × (result ≤ time + period) }
{
    if period == 0 {
        time
    } else {
        time.next_multiple_of(period)
    }
}

// How long until all tasks of a chain with these steps arrive as at first.
fn round_of(steps: &[Step]) -> u128
    ensures round { result ≡ round_of steps.now }
    ensures soon { result < 2 ^ 80 }
{
    let Some((step, _)) = steps.split_first() else {
        return 0;
    };
    match starts_of(steps) {
        Some(starts) => starts.count as u128 * step.period as u128,
        None => 0,
    }
}

/// When a job of the first task of a chain with these steps comes too early: from a time on.
pub(crate) fn early_of(steps: &[Step], begin: u64) -> u128
    ensures early { result ≡ early_of steps.now begin }
    ensures soon { result < 2 ^ 100 }
{
    let begin = begin as u128;
    let Some((step, _)) = steps.split_first() else {
        return begin;
    };
    match step.offset {
        None => begin,
        Some(_) => {
            let start = longest_start(steps);
            start + whole_from(begin.saturating_sub(start), round_of(steps))
        }
    }
}

// When the aim of a task arrives that reads what comes to it at a time.
fn aim_time(step: &Step, time: u64) -> u128
    ensures arrival { result ≡ aim_time step.now.offset step.now.period time }
    ensures late { (time ≤ result) × (result < 2 ^ 66) }
{
    let time = time as u128;
    match step.offset {
        None => time + step.period.saturating_sub(1) as u128,
        Some(offset) => {
            let offset = offset as u128;
            offset + whole_from(time.saturating_sub(offset), step.period as u128)
        }
    }
}

/// When the run ends of a chain with these steps, to whose first task something comes at a time, where that is within the horizon.
pub(crate) fn end_of(steps: &[Step], time: u128) -> Option<u64>
    ensures { MatchOption result (HORIZON < end_of steps.now time)
        (λ end. (end ≡ end_of steps.now time) × (end ≤ HORIZON)) }
{
    let mut end = time;
    for step in steps {
        if end > HORIZON as u128 {
            return None;
        }
        end = aim_time(step, end as u64) + step.delay as u128;
    }
    if end > HORIZON as u128 {
        None
    } else {
        Some(end as u64)
    }
}

/// The aims of tasks with these steps in an order whose levels have responses, where something comes to the first at a time. The
/// error is out of memory.
pub(crate) fn aims_of(
    alloc: Global,
    set: &Tabled<'_>,
    levels: &[Level],
    order: &[usize],
    steps: &[Step],
    begin: u64,
    tasks: &[usize],
) -> Result<Vec<Aim>, AllocError>
    requires order { order.now ≡ order_of levels.now }
    requires within { All (λ k. k < length set.now) order.now }
    requires tasks { All (λ k. k < length set.now) tasks.now }
    requires horizon { end_of steps.now begin ≤ HORIZON }
    ensures { IfOk result (λ aims. AreAims set.now levels.now steps.now begin tasks.now aims.items) }
{
    let mut aims = Vec::new(alloc);
    let mut time = begin;
    let mut walk = steps;
    let mut rest = tasks;
    while let Some((step, more)) = walk.split_first() {
        let Some((task, others)) = rest.split_first() else {
            return Ok(aims);
        };
        let arrival = aim_time(step, time) as u64;
        aims.push(aim_of(set, levels, order, *task, arrival))?;
        time = arrival + step.delay;
        walk = more;
        rest = others;
    }
    Ok(aims)
}
