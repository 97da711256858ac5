//! The bounds of chains that the numbers of a certificate's levels give, by arithmetic of its own: a chain's gaps, its
//! handovers and its last response, added up; or its gaps and deadlines; on one clock the longest span of a round.
ghost use Rattle.std.specs.Prelude.{◌≡◌, ◌+◌, ◌%◌, ◌==◌, ◌<◌, ◌≤◌, ◌^◌, ℕ, nat_le, [], List, drop, option_map};
ghost use Rattle.task_sheet.specs.Sheet.{task_at};
ghost use Rattle.task_sheet.specs.Verdicts.{order_of};
ghost use Rattle.ceiling_kernel.specs.Tick.{level_in_order, node_in};
ghost use Rattle.chains.specs.Gaps.{gap_of};
ghost use Rattle.chains.specs.Parts.{after_of, steps_of};
ghost use Rattle.chains.specs.Walks.{are_below, are_whole, arrivals, first_known, first_whole, next_by, span_from, starts_of, steps_with, walk_from};
ghost use Rattle.task_sheet.specs.Demand.{greatest_of};
ghost use Rattle.std.specs.Int.{next_multiple_of};
ghost use Rattle.chains.specs.declared.bounds.Writes.TheVariants.{AtFinish};
ghost use Rattle.ceiling_kernel.specs.Waits.{lateness_of};
ghost use Rattle.cert_checker.specs.Ready.{levels_of};
ghost use Rattle.cert_checker.specs.Ages.{covers_chain, node_of, response_in, steps_in};
ghost use Rattle.cert_checker.specs.CertificateFaults.{are_named, bad_age, chains_fault};

use crate::fault::CheckFault;
use crate::naming::task_by_name;
use certificate::{CertChain, CertLevel};
use chain_tables::Chain;
use chains::{ARRIVAL_LIMIT, Writes};
use task_sheet::TaskSet;

// Where spans of a chain begin: so many times, a period apart, in microseconds.
#[derive(Clone, Copy)]
struct Starts {
    first: u64,
    period: u64,
    count: u16,
}

// How far apart the arrivals of a task may be.
fn gap_at(set: &TaskSet, task: usize) -> u64
    ensures { result ≡ gap_of (task_at set.now task) }
{
    match set.get(task) {
        Some(sheet) => sheet.period(),
        None => 1,
    }
}

// How late a job of a task may be.
fn jitter_at(set: &TaskSet, task: usize) -> u64
    ensures { result ≡ lateness_of (task_at set.now task) }
{
    match set.get(task) {
        Some(sheet) => sheet.jitter(),
        None => 0,
    }
}

// What a task executes at the most.
fn cost_at(set: &TaskSet, task: usize) -> u64
    ensures { result ≡ (task_at set.now task).cost }
{
    match set.get(task) {
        Some(sheet) => sheet.cost(),
        None => 0,
    }
}

// The deadline of a task.
fn deadline_at(set: &TaskSet, task: usize) -> u64
    ensures { result ≡ (task_at set.now task).deadline }
{
    match set.get(task) {
        Some(sheet) => sheet.deadline(),
        None => 0,
    }
}

// The level of a task, from 1; 0 where none names it.
fn level_of(set: &TaskSet, levels: &[CertLevel], task: usize) -> usize
    ensures { result ≡ level_in_order (node_in [] (order_of (levels_of set.now levels.now))) task }
{
    for (i, level) in levels.iter().enumerate() {
        if task_by_name(set, level.name) == task {
            return i + 1;
        }
    }
    0
}

// The response of a task: its level's number and its jitter; 0 where no level names it.
fn response_of(set: &TaskSet, levels: &[CertLevel], task: usize) -> u128
    ensures is { result ≡ response_in (levels_of set.now levels.now) task }
    ensures fits { result ≤ 2 ^ 65 }
{
    for level in levels {
        if task_by_name(set, level.name) == task {
            return level.t as u128 + jitter_at(set, task) as u128;
        }
    }
    0
}

// What a task hands over at its finish to the first of these others, or its response where there is none.
fn at_finish(set: &TaskSet, levels: &[CertLevel], task: usize, others: &[usize]) -> u128
    ensures is { result ≡ (after_of AtFinish (node_in set.now (order_of (levels_of set.now levels.now)))
        (response_in (levels_of set.now levels.now)) task others.now).time }
    ensures fits { result ≤ 2 ^ 65 }
{
    let Some(next) = others.first() else {
        return response_of(set, levels, task);
    };
    if level_of(set, levels, *next) < level_of(set, levels, task) {
        return jitter_at(set, task) as u128;
    }
    response_of(set, levels, task).saturating_sub(cost_at(set, *next) as u128)
}

// What comes behind a task's gap: what it hands over, or its deadline, where it writes then.
fn time_after(
    set: &TaskSet,
    levels: &[CertLevel],
    writes: Writes,
    task: usize,
    others: &[usize],
) -> u128
    ensures is { result ≡ (after_of writes (node_in set.now (order_of (levels_of set.now levels.now)))
        (response_in (levels_of set.now levels.now)) task others.now).time }
    ensures fits { result ≤ 2 ^ 65 }
{
    match writes {
        Writes::AtFinish => at_finish(set, levels, task, others),
        Writes::AtDeadline => deadline_at(set, task) as u128,
    }
}

// The least number of whole periods that takes a time or longer.
fn whole_from(time: u128, period: u64) -> u128
    requires { time < 2 ^ 127 }
    ensures whole { result ≡ next_multiple_of time period }
    ensures soon { (time ≤ result) × (result < time + 2 ^ 64) }
{
    if period == 0 {
        return time;
    }
    time.next_multiple_of(period as u128)
}

// By when a job of this period and offset, where that is known, arrives that comes at a time or later.
fn next_by(offset: Option<u64>, period: u64, time: u128) -> u128
    requires { time < 2 ^ 127 }
    ensures time { result ≡ next_by offset period time }
    ensures soon { (time ≤ result) × (result < time + 2 ^ 64) }
{
    match offset {
        None => time + period as u128,
        Some(offset) => {
            let past = time.saturating_sub(offset as u128);
            offset as u128 + whole_from(past, period)
        }
    }
}

// The first of some offsets, where they are known.
fn first_of(offsets: &[u64]) -> Option<u64>
    ensures { result ≡ first_known offsets.now }
{
    offsets.first().copied()
}

// Those behind it.
fn others_of(offsets: &[u64]) -> &[u64]
    ensures { result.now ≡ drop 1 offsets.now }
{
    match offsets.split_first() {
        Some((_, others)) => others,
        None => offsets,
    }
}

// When what comes to the first of these tasks at a time is written by the last one.
fn walk_from(
    set: &TaskSet,
    levels: &[CertLevel],
    writes: Writes,
    offsets: &[u64],
    tasks: &[usize],
    start: u128,
) -> u128
    requires { start < 2 ^ 90 }
    ensures end { result ≡ walk_from (steps_of writes offsets.now (node_of set.now (levels_of set.now levels.now))
        (response_in (levels_of set.now levels.now)) tasks.now) start }
    ensures late { start ≤ result }
{
    let mut time = start;
    let mut known = offsets;
    let mut rest = tasks;
    while let Some((task, others)) = rest.split_first() {
        time = next_by(first_of(known), gap_at(set, *task), time);
        time += time_after(set, levels, writes, *task, others);
        known = others_of(known);
        rest = others;
    }
    time
}

// How long after an arrival of a chain's first task at a time what its next job reads is written.
fn span_from(set: &TaskSet, levels: &[CertLevel], chain: &Chain, start: u128) -> u128
    requires { start < 2 ^ 81 }
    ensures { result ≡ span_from (steps_in set.now (levels_of set.now levels.now) chain.now) start }
{
    let Some((first, others)) = chain.tasks.split_first() else {
        return 0;
    };
    let time = start + gap_at(set, *first) as u128;
    let time = time + time_after(set, levels, chain.writes, *first, others);
    walk_from(
        set,
        levels,
        chain.writes,
        others_of(&chain.offsets),
        others,
        time,
    ) - start
}

// Whether the offsets that are known are below the periods.
#[tactic(auto, using(crate::proofs::StartLaws::none_below))]
fn are_below(set: &TaskSet, offsets: &[u64], tasks: &[usize]) -> bool
    ensures { result ≡ are_below (steps_with set.now offsets.now [] tasks.now) }
{
    let mut known = offsets;
    for task in tasks {
        let Some((offset, others)) = known.split_first() else {
            return true;
        };
        if *offset >= gap_at(set, *task) {
            return false;
        }
        known = others;
    }
    true
}

// Whether a time is a number of whole periods.
fn is_whole(time: u128, period: u64) -> bool
    ensures { result ≡ (time % period == 0) }
{
    if period == 0 {
        return time == 0;
    }
    time % period as u128 == 0
}

// Whether it is of each task's.
fn are_whole(set: &TaskSet, tasks: &[usize], time: u128) -> bool
    ensures { result ≡ are_whole (steps_with set.now [] [] tasks.now) time }
{
    for task in tasks {
        if !is_whole(time, gap_at(set, *task)) {
            return false;
        }
    }
    true
}

// The first number of periods that is whole periods of each task, up to the limit.
fn first_whole(set: &TaskSet, tasks: &[usize], period: u64) -> Option<u16>
    ensures { (offsets : List ℕ)
        → result ≡ first_whole (steps_with set.now offsets [] tasks.now) period ARRIVAL_LIMIT 1 }
{
    for n in 1..=ARRIVAL_LIMIT {
        if are_whole(set, tasks, n as u128 * period as u128) {
            return Some(n);
        }
    }
    None
}

// Whether no span of a chain is longer than a number that begins at one of so many times, a period apart.
fn are_within(
    set: &TaskSet,
    levels: &[CertLevel],
    chain: &Chain,
    starts: Starts,
    number: u64,
) -> bool
    ensures { result ≡ nat_le (greatest_of (λ t. span_from (steps_in set.now (levels_of set.now levels.now) chain.now) t)
        (arrivals starts.first starts.period starts.count)) number }
{
    let mut start = starts.first as u128;
    for n in 0..starts.count {
        if span_from(set, levels, chain, start) > number as u128 {
            return false;
        }
        start += starts.period as u128;
    }
    true
}

// Where spans of a chain begin; nowhere where its tasks don't come together again soon enough, or an offset isn't below its
// period.
fn starts_of(set: &TaskSet, chain: &Chain) -> Option<Starts>
    ensures { option_map (λ s. arrivals s.first s.period s.count) result
        ≡ starts_of (steps_with set.now chain.now.offsets [] chain.now.tasks) }
{
    let at_zero = Starts {
        first: 0,
        period: 0,
        count: 1,
    };
    let Some(task) = chain.tasks.first() else {
        return Some(at_zero);
    };
    let Some(first) = first_of(&chain.offsets) else {
        return Some(at_zero);
    };
    if !are_below(set, &chain.offsets, &chain.tasks) {
        return None;
    }
    let period = gap_at(set, *task);
    let count = first_whole(set, &chain.tasks, period)?;
    Some(Starts {
        first,
        period,
        count,
    })
}

// Whether a number is no less than a chain's bound.
fn covers_chain(set: &TaskSet, levels: &[CertLevel], chain: &Chain, number: u64) -> bool
    ensures { result ≡ covers_chain set.now (levels_of set.now levels.now) chain.now number }
{
    match starts_of(set, chain) {
        Some(starts) => are_within(set, levels, chain, starts, number),
        None => false,
    }
}

// Whether these are the chains by name, in order.
fn are_named(chains: &[Chain], said: &[CertChain]) -> bool
    ensures { result ≡ are_named chains.now said.now }
{
    let mut rest = said;
    for chain in chains {
        match rest.split_first() {
            Some((first, others)) if first.name == chain.name => rest = others,
            _ => return false,
        }
    }
    rest.is_empty()
}

// The first of the chains whose number is below its bound.
fn bad_age(
    set: &TaskSet,
    levels: &[CertLevel],
    chains: &[Chain],
    said: &[CertChain],
) -> Option<CheckFault>
    ensures { result ≡ bad_age set.now (levels_of set.now levels.now) chains.now said.now }
{
    let mut rest = said;
    for chain in chains {
        let (first, others) = rest.split_first()?;
        if !covers_chain(set, levels, chain, first.number) {
            return Some(CheckFault::BadAge { name: chain.name });
        }
        rest = others;
    }
    None
}

/// The first fault of what is said of a set's chains.
pub fn chains_fault(
    set: &TaskSet,
    levels: &[CertLevel],
    chains: &[Chain],
    said: &[CertChain],
) -> Option<CheckFault>
    ensures { result ≡ chains_fault set.now (levels_of set.now levels.now) chains.now said.now }
{
    if !are_named(chains, said) {
        return Some(CheckFault::WrongChains);
    }
    bad_age(set, levels, chains, said)
}
