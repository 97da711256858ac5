//! A commit is tested by as many workers as are asked for, in its first round and in a later one.
ghost use Rattle.std.specs.Prelude.{◌≡◌};

use crate::desks::{Pair, Site, Start, put, two_teams};
use crate::gates::CrowdGate;
use book_lock::Pass;
use candidate_workers::OpenGate;
use drafts::Draft;
use example_sets::wait_until;
use std::alloc::Global;
use std::marker::Brand;
use std::sync::Wait;
use std::sync::atomic::Ordering;
use std::sync::ledger::Ledger;
use std::test::*;
use std::thread;
use std::thread::Threads;

// Ten tasks with their periods. Over the periods of the long ones the short ones are released so often that the set is
// worth threads.
const TASKS: [(&str, u64); 10] = [
    ("a", 1000),
    ("b", 1000),
    ("c", 1000),
    ("d", 1000),
    ("e", 1000),
    ("v", 10_000_000),
    ("w", 10_000_000),
    ("x", 10_000_000),
    ("y", 10_000_000),
    ("z", 10_000_000),
];

// A draft of the pass's team that puts the ten tasks.
fn long_draft<L: Ledger, R: Threads + Wait>(
    site: &Site<'_, L, R>,
    pass: &Pass<L>,
) -> Result<Draft, Fail> {
    let mut draft = site.opened(pass)?;
    for (text, period) in TASKS {
        put(site.alloc, &mut draft, text, period, 10)?;
    }
    Ok(draft)
}

// Commits once so many questions have come to the other's gate, and lets them go on; the place, 0 where there is none.
fn commit_between<L: Ledger, R: Threads + Wait>(
    site: &Site<'_, L, R>,
    pass: &mut Pass<L>,
    draft: Draft,
    gate: &CrowdGate,
) -> usize {
    let came = wait_until(&gate.first, gate.wanted);
    let place = site.placed(pass, draft, 1, &OpenGate);
    gate.goes_on.store(1, Ordering::SeqCst);
    if came { place } else { 0 }
}

/// The places of team 1's draft, by so many workers, and of team 2's, which commits during its first round.
pub fn commit_at_once<L: Ledger + Send + Sync, R: Threads + Wait + Sync>(
    two: &mut Pair<'_, L, R>,
    one: Draft,
    other: Draft,
    workers: usize,
    gate: &CrowdGate,
) -> (usize, usize) {
    let Pair {
        site,
        first,
        second,
    } = two;
    thread::join(
        site.rt,
        || site.placed(first, one, workers, gate),
        || commit_between(site, second, other, gate),
    )
}

// The places of team 1's ten tasks, by so many workers, of which so many have to be at the gate at the same time in each
// round, and of team 2's task; 0 where there is none.
fn counted_on<L: Ledger + Send + Sync, R: Threads + Wait + Sync>(
    start: Start<'_, R>,
    workers: usize,
    wanted: u64,
) -> Result<(usize, usize), Fail>
    requires { (start.blank.name ≡ L.name) × (start.blank.parts ≡ L.parts) × (L.parts ≡ 8) }
{
    let mut two = two_teams::<L, R>(start)?;
    let one = long_draft(&two.site, &two.first)?;
    let other = two.site.drafted(&two.second, "other", 10)?;
    let gate = CrowdGate::new(wanted, TASKS.len());
    let places = commit_at_once(&mut two, one, other, workers, &gate);
    let _ = two.closed()?;
    Ok(places)
}

fn counted<R: Threads + Wait + Sync>(
    rt: &R,
    alloc: Global,
    workers: usize,
    wanted: u64,
) -> Result<(usize, usize), Fail> {
    counted_on::<Brand, R>(Start::new(rt, alloc), workers, wanted)
}

#[test]
fn as_many_workers_as_asked_for(rt: HostRuntime) -> Result<(), Fail> {
    for (workers, wanted) in [(1usize, 1u64), (2, 2), (4, 4), (8, 8)] {
        let (first, second) = counted(&rt, rt.alloc(), workers, wanted)?;
        assert!(rt; second == 1, "too few workers came in the first round");
        assert!(rt; first == 2, "too few workers came in a later round");
    }
    Ok(())
}

#[test]
fn no_more_workers_than_asked_for(rt: HostRuntime) -> Result<(), Fail> {
    for (workers, wanted) in [(1usize, 2u64), (2, 3), (4, 5)] {
        let (first, second) = counted(&rt, rt.alloc(), workers, wanted)?;
        assert!(rt; (first, second) == (0, 0));
    }
    Ok(())
}
