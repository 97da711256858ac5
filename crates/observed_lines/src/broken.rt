//! The lines of the promises that jobs break.
ghost use Rattle.std.specs.Prelude.{◌≡◌, ◌++◌, OnOk, string_bytes};
ghost use Rattle.observed_lines.specs.Broken.{at_words, blocked_words, bound_words, broken_lines, by_words, cost_words, culprits_words, delay_words, foreign_words, idle_words, jitter_words, late_words, limit_words, others_words, own_lines, own_words, period_words, priority_words, strange_words, stray_words, wait_lines, wait_words};

use crate::breaks::{
    breaks_blocking, breaks_bound, breaks_cost, breaks_foreign, breaks_idle, breaks_jitter,
    breaks_period, breaks_priority, may_idle,
};
use crate::causes::{Behind, Cause, Source, is_among, push_after, sources_in};
use crate::sweep::{Known, are_in_order, behind_of, move_on};
use observed::{Culprit, Seen};
use std::alloc::{AllocError, Global};
use task_sheet::Name;

// What is broken, by the task's name and its job's arrival.
fn push_at(text: &mut String, what: &str, seen: &Seen) -> Result<(), AllocError>
    ensures { OnOk result (string_bytes text.new
        ≡ string_bytes text.old ++ at_words what.now seen.now) }
{
    let name = seen.promise.name;
    let arrival = seen.arrival;
    write!(text, "{what} {name} {arrival}")
}

// A time, of a limit, which isn't written where it is 0.
fn push_limit(text: &mut String, time: u128, limit: u128) -> Result<(), AllocError>
    ensures { OnOk result (string_bytes text.new
        ≡ string_bytes text.old ++ limit_words time limit) }
{
    if limit == 0 {
        write!(text, " {time}")
    } else {
        write!(text, " {time} of {limit}")
    }
}

// Who else executed, and for how long.
fn push_others(text: &mut String, culprits: &[Culprit]) -> Result<(), AllocError>
    ensures { OnOk result (string_bytes text.new ≡ string_bytes text.old ++ others_words culprits.now) }
{
    for culprit in culprits {
        let name = culprit.name;
        let time = culprit.time;
        write!(text, ", {name} {time}")?;
    }
    Ok(())
}

// Who executed, and for how long.
fn push_culprits(text: &mut String, culprits: &[Culprit]) -> Result<(), AllocError>
    ensures { OnOk result (string_bytes text.new ≡ string_bytes text.old ++ culprits_words culprits.now) }
{
    match culprits.split_first() {
        Some((first, others)) => {
            let name = first.name;
            let time = first.time;
            write!(text, " by {name} {time}")?;
            push_others(text, others)
        }
        None => Ok(()),
    }
}

// Behind whom it waited, and the end of the line.
fn push_by(text: &mut String, by: Option<Name>) -> Result<(), AllocError>
    ensures { OnOk result (string_bytes text.new ≡ string_bytes text.old ++ by_words by) }
{
    match by {
        Some(name) => writeln!(text, " by {name}"),
        None => text.push_str("\n"),
    }
}

// At which priority it ran, of its thread's, and the end of the line.
fn push_stray(text: &mut String, priority: Option<u64>, number: u64) -> Result<(), AllocError>
    ensures { OnOk result (string_bytes text.new ≡ string_bytes text.old ++ stray_words priority number) }
{
    match priority {
        Some(priority) => writeln!(text, " {priority} of {number}"),
        None => text.push_str("\n"),
    }
}

// It ran at a priority that is neither its thread's nor a ceiling of its locks.
fn push_priority(text: &mut String, seen: &Seen) -> Result<(), AllocError>
    ensures { OnOk result (string_bytes text.new ≡ string_bytes text.old ++ priority_words seen.now) }
{
    if !breaks_priority(seen) {
        return Ok(());
    }
    push_at(text, "priority", seen)?;
    push_stray(text, seen.stray(), seen.promise.number)
}

// It executed longer than it may.
fn push_cost(text: &mut String, tolerance: u64, seen: &Seen) -> Result<(), AllocError>
    ensures { OnOk result (string_bytes text.new
        ≡ string_bytes text.old ++ cost_words tolerance seen.now) }
{
    if !breaks_cost(tolerance, seen) {
        return Ok(());
    }
    let executed = seen.executed;
    let most = seen.may_execute;
    push_at(text, "cost", seen)?;
    writeln!(text, " {executed} of {most}")
}

// It arrived sooner after the one before it than it may.
fn push_period(text: &mut String, tolerance: u64, seen: &Seen) -> Result<(), AllocError>
    ensures { OnOk result (string_bytes text.new
        ≡ string_bytes text.old ++ period_words tolerance seen.now) }
{
    if !breaks_period(tolerance, seen) {
        return Ok(());
    }
    let least = seen.closest();
    push_at(text, "period", seen)?;
    match seen.gap {
        Some(gap) => writeln!(text, " {gap} of {least}"),
        None => text.push_str("\n"),
    }
}

// How long after its arrival it was ready, of the jitter, and the end of the line.
fn push_delay(text: &mut String, delay: Option<u64>, jitter: u64) -> Result<(), AllocError>
    ensures { OnOk result (string_bytes text.new ≡ string_bytes text.old ++ delay_words delay jitter) }
{
    match delay {
        Some(delay) => writeln!(text, " {delay} of {jitter}"),
        None => text.push_str("\n"),
    }
}

// It was ready later after its arrival than its jitter.
fn push_jitter(text: &mut String, tolerance: u64, seen: &Seen) -> Result<(), AllocError>
    ensures { OnOk result (string_bytes text.new
        ≡ string_bytes text.old ++ jitter_words tolerance seen.now) }
{
    if !breaks_jitter(tolerance, seen) {
        return Ok(());
    }
    push_at(text, "late", seen)?;
    push_delay(text, seen.delay, seen.promise.jitter)
}

// What a job breaks itself.
fn push_own(text: &mut String, tolerance: u64, seen: &Seen) -> Result<(), AllocError>
    ensures { OnOk result (string_bytes text.new
        ≡ string_bytes text.old ++ own_words tolerance seen.now) }
{
    push_priority(text, seen)?;
    push_cost(text, tolerance, seen)?;
    push_period(text, tolerance, seen)?;
    push_jitter(text, tolerance, seen)
}

// It is done, and how long it took; or it is open; and from what this follows.
fn push_late(text: &mut String, cause: &Option<Cause>, seen: &Seen) -> Result<(), AllocError>
    ensures { OnOk result (string_bytes text.new
        ≡ string_bytes text.old ++ late_words cause.now seen.now) }
{
    if !seen.is_finished {
        push_at(text, "open", seen)?;
        return push_after(text, cause);
    }
    let lasted = seen.lasted;
    let bound = seen.promise.bound;
    push_at(text, "bound", seen)?;
    write!(text, " {lasted} of {bound}")?;
    push_after(text, cause)
}

// It took longer than its bound, or isn't done and its bound is past.
fn push_bound(
    text: &mut String,
    follows: bool,
    cause: &Option<Cause>,
    tolerance: u64,
    seen: &Seen,
) -> Result<(), AllocError>
    ensures { OnOk result (string_bytes text.new
        ≡ string_bytes text.old ++ bound_words follows cause.now tolerance seen.now) }
{
    if breaks_bound(tolerance, seen) && is_among(follows, cause) {
        push_late(text, cause, seen)
    } else {
        Ok(())
    }
}

// While it waited, tasks below it executed for longer than they may.
fn push_blocked(
    text: &mut String,
    follows: bool,
    cause: &Option<Cause>,
    tolerance: u64,
    seen: &Seen,
) -> Result<(), AllocError>
    ensures { OnOk result (string_bytes text.new
        ≡ string_bytes text.old ++ blocked_words follows cause.now tolerance seen.now) }
{
    if !(breaks_blocking(tolerance, seen) && is_among(follows, cause)) {
        return Ok(());
    }
    let time = seen.blocked();
    let most = seen.may_be_blocked;
    push_at(text, "blocked", seen)?;
    write!(text, " {time} of {most}")?;
    push_culprits(text, seen.culprits())?;
    push_after(text, cause)
}

// While it waited, threads executed that the set doesn't have, for longer than what may be taken.
fn push_foreign(text: &mut String, tolerance: u64, seen: &Seen) -> Result<(), AllocError>
    ensures { OnOk result (string_bytes text.new
        ≡ string_bytes text.old ++ foreign_words tolerance seen.now) }
{
    if !breaks_foreign(tolerance, seen) {
        return Ok(());
    }
    push_at(text, "foreign", seen)?;
    push_limit(text, seen.foreign(), seen.may_be_taken())?;
    push_by(text, seen.stranger())
}

// While it waited, nobody executed for longer than what is left of that.
fn push_idle(text: &mut String, tolerance: u64, seen: &Seen) -> Result<(), AllocError>
    ensures { OnOk result (string_bytes text.new
        ≡ string_bytes text.old ++ idle_words tolerance seen.now) }
{
    if !breaks_idle(tolerance, seen) {
        return Ok(());
    }
    push_at(text, "idle", seen)?;
    push_limit(text, u128::from(seen.idle), may_idle(seen))?;
    text.push_str("\n")
}

// Both, among what follows from nothing.
fn push_strange(
    text: &mut String,
    follows: bool,
    tolerance: u64,
    seen: &Seen,
) -> Result<(), AllocError>
    ensures { OnOk result (string_bytes text.new
        ≡ string_bytes text.old ++ strange_words follows tolerance seen.now) }
{
    if follows {
        return Ok(());
    }
    push_foreign(text, tolerance, seen)?;
    push_idle(text, tolerance, seen)
}

// What a job breaks while it waits, and its bound: what follows from nothing, or what follows from something.
fn push_wait(
    text: &mut String,
    follows: bool,
    behind: Behind,
    tolerance: u64,
    seen: &Seen,
) -> Result<(), AllocError>
    ensures { OnOk result (string_bytes text.new
        ≡ string_bytes text.old ++ wait_words follows behind tolerance seen.now) }
{
    push_blocked(text, follows, &behind.blocked, tolerance, seen)?;
    push_strange(text, follows, tolerance, seen)?;
    push_bound(text, follows, &behind.bound, tolerance, seen)
}

// What each job breaks itself.
fn push_all_own(text: &mut String, tolerance: u64, seen: &[Seen]) -> Result<(), AllocError>
    ensures { OnOk result (string_bytes text.new
        ≡ string_bytes text.old ++ own_lines tolerance seen.now) }
{
    for job in seen {
        push_own(text, tolerance, job)?;
    }
    Ok(())
}

// What each job breaks while it waits, and its bound.
fn push_waits(
    alloc: Global,
    text: &mut String,
    follows: bool,
    causes: &[Source],
    tolerance: u64,
    seen: &[Seen],
) -> Result<(), AllocError>
    ensures { OnOk result (string_bytes text.new
        ≡ string_bytes text.old ++ wait_lines follows causes.now tolerance seen.now) }
{
    let in_order = are_in_order(causes);
    let mut live = Vec::new(alloc);
    let mut rest = causes;
    let mut reached = 0;
    for job in seen {
        rest = move_on(causes, &mut live, rest, in_order, reached, job.arrival)?;
        reached = job.arrival;
        let known = Known {
            live: &live,
            rest,
            in_order,
        };
        let behind = behind_of(known, tolerance, job);
        push_wait(text, follows, behind, tolerance, job)?;
    }
    Ok(())
}

// What each job breaks: first what it breaks itself, last what follows from something.
pub(crate) fn push_all_broken(
    alloc: Global,
    text: &mut String,
    tolerance: u64,
    seen: &[Seen],
) -> Result<(), AllocError>
    ensures { OnOk result (string_bytes text.new
        ≡ string_bytes text.old ++ broken_lines tolerance seen.now) }
{
    let causes = sources_in(alloc, tolerance, seen)?;
    push_all_own(text, tolerance, seen)?;
    push_waits(alloc, text, false, &causes, tolerance, seen)?;
    push_waits(alloc, text, true, &causes, tolerance, seen)
}
