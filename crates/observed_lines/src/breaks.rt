//! Which promises a job breaks. Each is broken where it is missed by more than the tolerance.
ghost use Rattle.std.specs.Prelude.{◌≡◌};
ghost use Rattle.observed_lines.specs.Breaks.{breaks_any, breaks_blocking, breaks_bound, breaks_cost, breaks_foreign, breaks_idle, breaks_jitter, breaks_period, breaks_priority, is_kept, is_over, is_past, is_short, may_idle};

use observed::Seen;

// A time is past a limit by more than the tolerance.
fn is_past(tolerance: u64, time: u128, limit: u128) -> bool
    ensures { result ≡ is_past tolerance time limit }
{
    u128::from(tolerance) < time.saturating_sub(limit)
}

// A time, if there is one, is short of a limit by more than the tolerance.
fn is_short(tolerance: u64, time: Option<u64>, limit: u64) -> bool
    ensures { result ≡ is_short tolerance time limit }
{
    match time {
        Some(time) => tolerance < limit.saturating_sub(time),
        None => false,
    }
}

// A time, if there is one, is past a limit by more than the tolerance.
fn is_over(tolerance: u64, time: Option<u64>, limit: u64) -> bool
    ensures { result ≡ is_over tolerance time limit }
{
    match time {
        Some(time) => is_past(tolerance, u128::from(time), u128::from(limit)),
        None => false,
    }
}

// What is left for nobody of what may be taken while it waits.
pub(crate) fn may_idle(seen: &Seen) -> u128
    ensures { result ≡ may_idle seen.now }
{
    seen.may_be_taken().saturating_sub(seen.foreign())
}

// It ran at a priority that is neither its thread's nor a ceiling of its locks.
pub(crate) fn breaks_priority(seen: &Seen) -> bool
    ensures { result ≡ breaks_priority seen.now }
{
    seen.stray().is_some()
}

// It executed longer than it may.
pub(crate) fn breaks_cost(tolerance: u64, seen: &Seen) -> bool
    ensures { result ≡ breaks_cost tolerance seen.now }
{
    is_past(tolerance, seen.executed, seen.may_execute)
}

// It arrived sooner after the one before it than it may.
pub(crate) fn breaks_period(tolerance: u64, seen: &Seen) -> bool
    ensures { result ≡ breaks_period tolerance seen.now }
{
    is_short(tolerance, seen.gap, seen.closest())
}

// It was ready later after its arrival than its jitter.
pub(crate) fn breaks_jitter(tolerance: u64, seen: &Seen) -> bool
    ensures { result ≡ breaks_jitter tolerance seen.now }
{
    is_over(tolerance, seen.delay, seen.promise.jitter)
}

// It took longer than its bound, or isn't done and its bound is past.
pub(crate) fn breaks_bound(tolerance: u64, seen: &Seen) -> bool
    ensures { result ≡ breaks_bound tolerance seen.now }
{
    is_past(
        tolerance,
        u128::from(seen.lasted),
        u128::from(seen.promise.bound),
    )
}

// While it waited, tasks below it executed for longer than they may.
pub(crate) fn breaks_blocking(tolerance: u64, seen: &Seen) -> bool
    ensures { result ≡ breaks_blocking tolerance seen.now }
{
    is_past(tolerance, seen.blocked(), seen.may_be_blocked)
}

// While it waited, threads executed that the set doesn't have, for longer than what may be taken.
pub(crate) fn breaks_foreign(tolerance: u64, seen: &Seen) -> bool
    ensures { result ≡ breaks_foreign tolerance seen.now }
{
    is_past(tolerance, seen.foreign(), seen.may_be_taken())
}

// While it waited, nobody executed for longer than what is left of that.
pub(crate) fn breaks_idle(tolerance: u64, seen: &Seen) -> bool
    ensures { result ≡ breaks_idle tolerance seen.now }
{
    is_past(tolerance, u128::from(seen.idle), may_idle(seen))
}

/// Whether a job breaks a promise.
pub fn breaks_any(tolerance: u64, seen: &Seen) -> bool
    ensures { result ≡ breaks_any tolerance seen.now }
{
    breaks_priority(seen)
        || breaks_cost(tolerance, seen)
        || breaks_period(tolerance, seen)
        || breaks_jitter(tolerance, seen)
        || breaks_bound(tolerance, seen)
        || breaks_blocking(tolerance, seen)
        || breaks_foreign(tolerance, seen)
        || breaks_idle(tolerance, seen)
}

/// Whether no job breaks a promise.
pub fn is_kept(tolerance: u64, seen: &[Seen]) -> bool
    ensures { result ≡ is_kept tolerance seen.now }
{
    seen.iter().all(|job| !breaks_any(tolerance, job))
}
