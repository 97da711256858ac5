//! From what a broken promise of a job follows.
ghost use Rattle.std.specs.Prelude.{◌≡◌, ◌++◌, ◌==◌, IfOk, OnOk, string_bytes};
ghost use Rattle.std.specs.List.{list_any};
ghost use Rattle.observed_lines.specs.Causes.{after_words, as_cause, breaks_own, costs_others, delays, is_among, is_there, late_by, may_delay, overlap, own_of, source_of, sources_in, wait_of, word_of};

use crate::breaks::{
    breaks_blocking, breaks_cost, breaks_foreign, breaks_idle, breaks_jitter, breaks_period,
    breaks_priority,
};
use observed::{Culprit, Seen};
use std::alloc::{AllocError, Global};
use task_sheet::Name;

// A promise that a job breaks.
#[derive(Clone, Copy)]
pub(crate) enum Broken {
    Priority,
    Cost,
    Period,
    Late,
    Blocked,
    Foreign,
    Idle,
}

// What a job of a task breaks, from which something else follows.
#[derive(Clone, Copy)]
pub(crate) struct Cause {
    pub what: Broken,
    pub name: Name,
    pub arrival: u64,
}

// A job that breaks something itself: its task's level, and for how long it was there, and others may wait for it who need
// not have, in microseconds.
#[derive(Clone, Copy)]
pub(crate) struct Source {
    pub cause: Cause,
    pub level: usize,
    pub lasted: u64,
    pub costs: u128,
}

// From what follows what a job breaks while it waits, and that it took longer than its bound.
#[derive(Clone, Copy)]
pub(crate) struct Behind {
    pub blocked: Option<Cause>,
    pub bound: Option<Cause>,
}

// What is asked of a job: whether it delays another, or blocks it, and others may wait for it so long at least, in
// microseconds.
#[derive(Clone, Copy)]
pub(crate) struct Asked {
    pub blocks: bool,
    pub least: u128,
}

// It breaks something itself, or its thread's settings or its timer do.
fn breaks_own(tolerance: u64, seen: &Seen) -> bool
    ensures { result ≡ breaks_own tolerance seen.now }
{
    breaks_priority(seen)
        || breaks_cost(tolerance, seen)
        || breaks_period(tolerance, seen)
        || breaks_jitter(tolerance, seen)
}

// The first of these.
fn own_of(tolerance: u64, seen: &Seen) -> Broken
    ensures { result ≡ own_of tolerance seen.now }
{
    if breaks_priority(seen) {
        Broken::Priority
    } else if breaks_cost(tolerance, seen) {
        Broken::Cost
    } else if breaks_period(tolerance, seen) {
        Broken::Period
    } else {
        Broken::Late
    }
}

// What a job breaks, as a cause.
fn as_cause(what: Broken, seen: &Seen) -> Cause
    ensures { result ≡ as_cause what seen.now }
{
    Cause {
        what,
        name: seen.promise.name,
        arrival: seen.arrival,
    }
}

// How late it was ready, past its jitter.
fn late_by(seen: &Seen) -> u64
    ensures { result ≡ late_by seen.now }
{
    match seen.delay {
        Some(delay) => delay.saturating_sub(seen.promise.jitter),
        None => 0,
    }
}

// For how long others may wait for it who need not have.
fn costs_others(tolerance: u64, seen: &Seen) -> u128
    ensures { result ≡ costs_others tolerance seen.now }
{
    let stray = if breaks_priority(seen) {
        seen.lasted
    } else {
        0
    };
    let soon = if breaks_period(tolerance, seen) {
        seen.executed
    } else {
        0
    };
    let over = seen.executed.saturating_sub(seen.may_execute);
    let late = u128::from(late_by(seen));
    u128::from(stray).max(soon.max(over.max(late)))
}

// What it breaks first, as a cause.
fn source_of(tolerance: u64, seen: &Seen) -> Source
    ensures { result ≡ source_of tolerance seen.now }
{
    Source {
        cause: as_cause(own_of(tolerance, seen), seen),
        level: seen.level,
        lasted: seen.lasted,
        costs: costs_others(tolerance, seen),
    }
}

// That of each job that breaks something so.
pub(crate) fn sources_in(
    alloc: Global,
    tolerance: u64,
    seen: &[Seen],
) -> Result<Vec<Source>, AllocError>
    ensures { IfOk result (λ causes. causes.items ≡ sources_in tolerance seen.now) }
{
    let mut causes = Vec::new(alloc);
    for job in seen {
        if breaks_own(tolerance, job) {
            causes.push(source_of(tolerance, job))?;
        }
    }
    Ok(causes)
}

// It is there behind a time.
pub(crate) fn is_there(time: u64, source: &Source) -> bool
    ensures { result ≡ is_there time source.now }
{
    u128::from(time) < u128::from(source.cause.arrival) + u128::from(source.lasted)
}

// Both jobs are there at some time.
fn overlap(source: &Source, seen: &Seen) -> bool
    ensures { result ≡ overlap source.now seen.now }
{
    u128::from(source.cause.arrival) < u128::from(seen.arrival) + u128::from(seen.lasted)
        && is_there(seen.arrival, source)
}

// The task of a level is among these.
fn has_level(culprits: &[Culprit], level: usize) -> bool
    ensures { result ≡ list_any (λ d. d.level == level) culprits.now }
{
    culprits.iter().any(|culprit| culprit.level == level)
}

// Its task stands no lower than the other's, or to block it is the same, or is one of those that are named to have blocked it.
fn may_delay(blocks: bool, source: &Source, seen: &Seen) -> bool
    ensures { result ≡ may_delay blocks source.now seen.now }
{
    let stands = if blocks {
        seen.level == source.level
    } else {
        seen.level <= source.level
    };
    stands || has_level(seen.culprits(), source.level)
}

// A job delays, or blocks, another, or itself, and others may wait for it so long at least.
pub(crate) fn delays(asked: Asked, source: &Source, seen: &Seen) -> bool
    ensures { result ≡ delays asked.blocks asked.least source.now seen.now }
{
    overlap(source, seen) && may_delay(asked.blocks, source, seen) && asked.least <= source.costs
}

// What it broke while it waited.
pub(crate) fn wait_of(tolerance: u64, seen: &Seen) -> Option<Cause>
    ensures { result ≡ wait_of tolerance seen.now }
{
    if breaks_blocking(tolerance, seen) {
        Some(as_cause(Broken::Blocked, seen))
    } else if breaks_foreign(tolerance, seen) {
        Some(as_cause(Broken::Foreign, seen))
    } else if breaks_idle(tolerance, seen) {
        Some(as_cause(Broken::Idle, seen))
    } else {
        None
    }
}

// As a word.
fn word_of<'a>(what: Broken) -> &'a str
    ensures { result.now ≡ word_of what }
{
    match what {
        Broken::Priority => "priority",
        Broken::Cost => "cost",
        Broken::Period => "period",
        Broken::Late => "late",
        Broken::Blocked => "blocked",
        Broken::Foreign => "foreign",
        Broken::Idle => "idle",
    }
}

// The cause, if there is one, and the end of the line.
pub(crate) fn push_after(text: &mut String, cause: &Option<Cause>) -> Result<(), AllocError>
    ensures { OnOk result (string_bytes text.new ≡ string_bytes text.old ++ after_words cause.now) }
{
    match cause {
        Some(cause) => {
            let what = word_of(cause.what);
            let name = cause.name;
            let arrival = cause.arrival;
            writeln!(text, " after {what} {name} {arrival}")
        }
        None => text.push_str("\n"),
    }
}

// Among those that follow from something it is one, or among those that don't.
pub(crate) fn is_among(follows: bool, cause: &Option<Cause>) -> bool
    ensures { result ≡ is_among follows cause.now }
{
    match cause {
        Some(_) => follows,
        None => !follows,
    }
}
