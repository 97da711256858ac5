//! Walks along a chain: how long it takes at most until what a task writes is read and written by the next.
ghost use Rattle.std.specs.Prelude.{◌≡◌, ◌≤◌, ◌<◌, ◌+◌, ◌%◌, ◌==◌, ◌^◌, option_map};
ghost use Rattle.std.specs.Int.{next_multiple_of};
ghost use Rattle.task_sheet.specs.Demand.{greatest_of};
ghost use Rattle.chains.specs.Walks.{are_below, are_whole, arrivals, bound_by, first_whole, is_below, longest_start, next_by, span_from, starts_of, step_of};
ghost use Rattle.chains.specs.declared.walks.TheConstants.{ARRIVAL_LIMIT};

use crate::bounds::period_at;
use task_sheet::TaskSet;

/// The most arrivals of a chain's first task until all its tasks arrive as at first, where their offsets are known.
pub const ARRIVAL_LIMIT: u16 = 10_000;

/// What a walk has of a task, in microseconds: its period, its offset, none where it isn't known, and how long the part
/// behind its wait takes.
#[derive(Clone, Copy, Debug, PartialEq, Eq)]
pub struct Step {
    pub period: u64,
    pub offset: Option<u64>,
    pub delay: u64,
}

/// Where walks begin: so many times, a period apart, in microseconds.
#[derive(Clone, Copy, Debug, PartialEq, Eq)]
pub struct Starts {
    pub first: u64,
    pub period: u64,
    pub count: u16,
}

/// The step of a task of a set, of which these are the offsets of it and the tasks behind it in its chain.
pub fn step_of(set: &TaskSet, offsets: &[u64], task: usize, delay: u64) -> Step
    ensures { result ≡ step_of set.now offsets.now task delay }
{
    Step {
        period: period_at(set, task),
        offset: offsets.first().copied(),
        delay,
    }
}

// The least multiple of a period at a time or later.
fn whole_from(time: u128, period: u64) -> u128
    requires { time < 2 ^ 127 }
    ensures whole { result ≡ next_multiple_of time period }
    ensures soon { (time ≤ result) × (result < time + 2 ^ 64) }
{
    if period == 0 {
        time
    } else {
        time.next_multiple_of(period as u128)
    }
}

// By when a job arrives that comes at a time or later.
pub(crate) fn next_by(step: &Step, time: u128) -> u128
    requires { time < 2 ^ 127 }
    ensures time { result ≡ next_by step.now.offset step.now.period time }
    ensures soon { (time ≤ result) × (result < time + 2 ^ 64) }
{
    match step.offset {
        None => time + step.period as u128,
        Some(offset) => {
            let offset = offset as u128;
            offset + whole_from(time.saturating_sub(offset), step.period)
        }
    }
}

// How long after an arrival of the first task at a time what its next job reads is written.
fn span_from(steps: &[Step], start: u128) -> u128
    requires { start < 2 ^ 81 }
    ensures { result ≡ span_from steps.now start }
{
    let Some((first, others)) = steps.split_first() else {
        return 0;
    };
    let mut time = start + first.period as u128 + first.delay as u128;
    for step in others {
        time = next_by(step, time) + step.delay as u128;
    }
    time - start
}

// Whether a step's offset, where it is known, is below its period.
fn is_below(step: &Step) -> bool
    ensures { result ≡ is_below step.now.offset step.now.period }
{
    match step.offset {
        None => true,
        Some(offset) => offset < step.period,
    }
}

// Whether each step's is.
fn are_below(steps: &[Step]) -> bool
    ensures { result ≡ are_below steps.now }
{
    steps.iter().all(is_below)
}

// Whether a time is a number of whole periods.
fn is_whole(time: u128, period: u64) -> bool
    ensures { result ≡ (time % period == 0) }
{
    if period == 0 {
        time == 0
    } else {
        time % period as u128 == 0
    }
}

// Whether it is of each task's.
fn are_whole(steps: &[Step], time: u128) -> bool
    ensures { result ≡ are_whole steps.now time }
{
    steps.iter().all(|step| is_whole(time, step.period))
}

// The first number of periods that is whole periods of each task, up to the limit.
fn first_whole(steps: &[Step], period: u64) -> Option<u16>
    ensures { result ≡ first_whole steps.now period ARRIVAL_LIMIT 1 }
{
    for n in 1..ARRIVAL_LIMIT + 1 {
        if are_whole(steps, n as u128 * period as u128) {
            return Some(n);
        }
    }
    None
}

/// Where walks begin: at 0, where the first task's offset isn't known; else at its arrivals until all tasks arrive as at
/// first. None where these are more than `ARRIVAL_LIMIT`, or an offset isn't below its period.
pub fn starts_of(steps: &[Step]) -> Option<Starts>
    ensures { option_map (λ s. arrivals s.first s.period s.count) result ≡ starts_of steps.now }
{
    let at_zero = Starts {
        first: 0,
        period: 0,
        count: 1,
    };
    let Some(step) = steps.first() else {
        return Some(at_zero);
    };
    let Some(first) = step.offset else {
        return Some(at_zero);
    };
    if !are_below(steps) {
        return None;
    }
    let count = first_whole(steps, step.period)?;
    Some(Starts {
        first,
        period: step.period,
        count,
    })
}

// How long the longest span from one of these starts takes.
fn longest_of(steps: &[Step], starts: Starts) -> u128
    ensures { result ≡ greatest_of (λ t. span_from steps.now t)
        (arrivals starts.first starts.period starts.count) }
{
    let mut longest = 0;
    let mut start = starts.first as u128;
    for n in 0..starts.count {
        longest = longest.max(span_from(steps, start));
        start += starts.period as u128;
    }
    longest
}

/// How long the longest span takes, in microseconds; none where walks begin nowhere.
pub fn bound_by(steps: &[Step]) -> Option<u128>
    ensures { result ≡ bound_by steps.now }
{
    let starts = starts_of(steps)?;
    Some(longest_of(steps, starts))
}

/// Where the first of the longest begins; 0 where walks begin nowhere.
pub fn longest_start(steps: &[Step]) -> u128
    ensures start { result ≡ longest_start steps.now }
    ensures soon { result < 2 ^ 81 }
{
    let Some(starts) = starts_of(steps) else {
        return 0;
    };
    let longest = longest_of(steps, starts);
    let mut start = starts.first as u128;
    for n in 0..starts.count {
        if span_from(steps, start) == longest {
            return start;
        }
        start += starts.period as u128;
    }
    0
}
