//! Which jobs of a trace aren't steady.
ghost use Rattle.std.specs.Prelude.{◌≡◌};
ghost use Rattle.std.specs.List.{list_any};
ghost use Rattle.chain_traces.specs.Steady.{farthest, has_task, is_linked, is_past, is_unsteady};

use chain_tables::Chain;
use observed::Seen;

/// The longest time between two arrivals, where the task is steady, in microseconds.
pub(crate) fn farthest(seen: &Seen) -> u128
    ensures { result ≡ farthest seen.now }
{
    let period = seen.promise.period as u128;
    match seen.delay {
        Some(_) => period,
        None => period + seen.promise.jitter as u128,
    }
}

/// A time, where there is one, less what is let pass, is longer than it may be.
pub(crate) fn is_past(tolerance: u64, most: u128, time: Option<u64>) -> bool
    ensures { result ≡ is_past tolerance most time }
{
    match time {
        Some(time) => most < time.saturating_sub(tolerance) as u128,
        None => false,
    }
}

// A chain has a task.
fn has_task(task: usize, chain: &Chain) -> bool
    ensures { result ≡ has_task task chain.now }
{
    chain.tasks.iter().any(|own| *own == task)
}

// One of them has.
fn is_linked(chains: &[Chain], task: usize) -> bool
    ensures { result ≡ is_linked chains.now task }
{
    chains.iter().any(|chain| has_task(task, chain))
}

/// A job of a chain's task isn't steady.
pub(crate) fn is_unsteady(tolerance: u64, chains: &[Chain], seen: &Seen) -> bool
    ensures { result ≡ is_unsteady tolerance chains.now seen.now }
{
    is_linked(chains, seen.promise.task) && is_past(tolerance, farthest(seen), seen.gap)
}

/// One of these jobs isn't.
pub(crate) fn any_unsteady(tolerance: u64, chains: &[Chain], seen: &[Seen]) -> bool
    ensures { result ≡ list_any (is_unsteady tolerance chains.now) seen.now }
{
    seen.iter().any(|job| is_unsteady(tolerance, chains, job))
}
