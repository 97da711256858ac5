//! Who delays a job, found in a sweep over jobs by their arrivals.
ghost use Rattle.std.specs.Prelude.{◌≡◌, ◌++◌, ◌+◌, ◌≤◌, nat_le, true, IfOk, List};
ghost use Rattle.std.specs.List.{filter, find};
ghost use Rattle.observed_lines.specs.Causes.{behind_in, blocked_cause, bound_cause, cause_of, delays, is_there};
ghost use Rattle.observed_lines.specs.Sweeps.{Agree, come_from};
ghost use Rattle.observed_lines.specs.declared.causes.Source.{Source};

use crate::breaks::{breaks_blocking, breaks_bound};
use crate::causes::{Asked, Behind, Cause, Source, delays, is_there, wait_of};
use observed::Seen;
use std::alloc::AllocError;

// Each came no sooner than the one before it.
pub(crate) fn are_in_order(causes: &[Source]) -> bool
    ensures { result ≡ come_from 0 causes.now }
{
    let mut least = 0;
    for source in causes {
        if source.cause.arrival < least {
            return false;
        }
        least = source.cause.arrival;
    }
    true
}

// Keeps those that are there behind a time.
fn keep(live: &mut Vec<Source>, time: u64)
    ensures { live.new.items ≡ filter (is_there time) live.old.items }
{
    live.retain(|source| is_there(time, source));
}

// Takes in those that came up to a time and are there behind it; the others are left.
fn take_in<'a>(
    live: &mut Vec<Source>,
    rest: &'a [Source],
    in_order: bool,
    time: u64,
) -> Result<&'a [Source], AllocError>
    requires { in_order ≡ true → come_from 0 rest.now ≡ true }
    ensures same { IfOk result (λ left. Agree time (live.new.items ++ left.now) (live.old.items ++ rest.now)) }
    ensures order { IfOk result (λ left. in_order ≡ true → come_from 0 left.now ≡ true) }
{
    let mut left = rest;
    while let Some((source, more)) = left.split_first() {
        if time < source.cause.arrival {
            return Ok(left);
        }
        if is_there(time, source) {
            live.push(*source)?;
        }
        left = more;
    }
    Ok(left)
}

// It comes behind the end of a job.
fn is_behind(source: &Source, seen: &Seen) -> bool
    ensures { result ≡ nat_le (seen.now.arrival + seen.now.lasted) source.now.cause.arrival }
{
    u128::from(seen.arrival) + u128::from(seen.lasted) <= u128::from(source.cause.arrival)
}

// The first of some that delays a job so; none that comes behind its end does.
fn first_ahead(causes: &[Source], in_order: bool, asked: Asked, seen: &Seen) -> Option<Source>
    requires { in_order ≡ true → come_from 0 causes.now ≡ true }
    ensures { result ≡ find (λ c. delays asked.blocks asked.least c seen.now) causes.now }
{
    for source in causes {
        if in_order && is_behind(source, seen) {
            return None;
        }
        if delays(asked, source, seen) {
            return Some(*source);
        }
    }
    None
}

// Causes that were there before, and those that are to come, by arrival or not.
#[derive(Clone, Copy)]
pub(crate) struct Known<'a> {
    pub live: &'a [Source],
    pub rest: &'a [Source],
    pub in_order: bool,
}

// The same of both.
fn first_of(known: Known<'_>, asked: Asked, seen: &Seen) -> Option<Source>
    requires { known.in_order ≡ true → come_from 0 known.rest.now ≡ true }
    ensures { result ≡ find (λ c. delays asked.blocks asked.least c seen.now) (known.entry.live.now ++ known.entry.rest.now) }
{
    match first_ahead(known.live, false, asked, seen) {
        Some(source) => Some(source),
        None => first_ahead(known.rest, known.in_order, asked, seen),
    }
}

// That, as a cause, of all causes.
fn cause_of(known: Known<'_>, blocks: bool, least: u128, seen: &Seen) -> Option<Cause>
    requires { known.in_order ≡ true → come_from 0 known.rest.now ≡ true }
    ensures { (causes : List Source) → Agree seen.now.arrival (known.entry.live.now ++ known.entry.rest.now) causes
        → result ≡ cause_of blocks least causes seen.now }
{
    let first = first_of(known, Asked { blocks, least }, seen)?;
    Some(first.cause)
}

// From what follows that it was blocked.
fn blocked_cause(known: Known<'_>, tolerance: u64, seen: &Seen) -> Option<Cause>
    requires { known.in_order ≡ true → come_from 0 known.rest.now ≡ true }
    ensures { (causes : List Source) → Agree seen.now.arrival (known.entry.live.now ++ known.entry.rest.now) causes
        → result ≡ blocked_cause tolerance causes seen.now }
{
    if !breaks_blocking(tolerance, seen) {
        return None;
    }
    let past = seen.blocked().saturating_sub(seen.may_be_blocked);
    cause_of(
        known,
        true,
        past.saturating_sub(u128::from(tolerance)),
        seen,
    )
}

// From what follows that it took longer than its bound.
fn bound_cause(known: Known<'_>, tolerance: u64, seen: &Seen) -> Option<Cause>
    requires { known.in_order ≡ true → come_from 0 known.rest.now ≡ true }
    ensures { (causes : List Source) → Agree seen.now.arrival (known.entry.live.now ++ known.entry.rest.now) causes
        → result ≡ bound_cause tolerance causes seen.now }
{
    if !breaks_bound(tolerance, seen) {
        return None;
    }
    let past = seen.lasted.saturating_sub(seen.promise.bound);
    let least = past.saturating_sub(tolerance);
    if let Some(cause) = cause_of(known, false, u128::from(least), seen) {
        return Some(cause);
    }
    match wait_of(tolerance, seen) {
        Some(cause) => Some(cause),
        None => cause_of(known, false, 0, seen),
    }
}

// Both.
pub(crate) fn behind_of(known: Known<'_>, tolerance: u64, seen: &Seen) -> Behind
    requires { known.in_order ≡ true → come_from 0 known.rest.now ≡ true }
    ensures { (causes : List Source) → Agree seen.now.arrival (known.entry.live.now ++ known.entry.rest.now) causes
        → result ≡ behind_in tolerance causes seen.now }
{
    Behind {
        blocked: blocked_cause(known, tolerance, seen),
        bound: bound_cause(known, tolerance, seen),
    }
}

// Of the causes, those that were there before a time and are there behind it, and as the result those that are to come, where
// they are known for another time.
pub(crate) fn move_on<'a>(
    causes: &'a [Source],
    live: &mut Vec<Source>,
    rest: &'a [Source],
    in_order: bool,
    reached: u64,
    time: u64,
) -> Result<&'a [Source], AllocError>
    requires all { in_order ≡ true → come_from 0 causes.now ≡ true }
    requires order { in_order ≡ true → come_from 0 rest.now ≡ true }
    requires known { Agree reached (live.old.items ++ rest.now) causes.now }
    ensures same { IfOk result (λ left. Agree time (live.new.items ++ left.now) causes.now) }
    ensures order { IfOk result (λ left. in_order ≡ true → come_from 0 left.now ≡ true) }
{
    if time < reached {
        live.clear();
        return take_in(live, causes, in_order, time);
    }
    keep(live, time);
    let left = take_in(live, rest, in_order, time)?;
    Ok(left)
}
