//! A commit that is overtaken three times.
ghost use Rattle.std.specs.Prelude.{◌≡◌};

use crate::desks::{Pair, Site, Start, responses, said, two_teams};
use crate::gates::CountingGate;
use book_lock::Pass;
use drafts::Draft;
use example_sets::{name, wait_until};
use std::marker::Brand;
use std::sync::Wait;
use std::sync::atomic::Ordering;
use std::sync::ledger::Ledger;
use std::test::*;
use std::thread;
use std::thread::Threads;

// Commits b three times, each once a question that shows the commits before has come to the gate.
fn commit_thrice<L: Ledger, R: Threads + Wait>(
    site: &Site<'_, L, R>,
    pass: &mut Pass<L>,
    gate: &CountingGate,
) -> Result<(), Fail> {
    for (commits, cost) in [(1u64, 1000u64), (2, 1100), (3, 1200)] {
        if !wait_until(&gate.shown, commits) {
            return Err("a question in time")?;
        }
        let _ = site.commit_one(pass, "b", cost)?;
        gate.made.store(commits, Ordering::SeqCst);
    }
    Ok(())
}

// What a receipt of team 1 says, and the responses of the two tasks at the end, a lowest.
fn what_is_left<L: Ledger, R: Threads + Wait>(
    two: Pair<'_, L, R>,
) -> Result<((u64, u64), Option<(u64, u64)>), Fail> {
    let receipt = said(&two.first.receipts().first().ok_or("a receipt")?.entry);
    let closing = two.closed()?;
    Ok((receipt, responses(&closing.state)))
}

// The place of team 1's draft, 0 where there is none, which team 2's commits overtake.
fn commit_at_once<L: Ledger + Send + Sync, R: Threads + Wait + Sync>(
    two: &mut Pair<'_, L, R>,
    draft: Draft,
    gate: &CountingGate,
) -> Result<usize, Fail> {
    let Pair {
        site,
        first,
        second,
    } = two;
    let (place, others) = thread::join(
        site.rt,
        || site.placed(first, draft, 1, gate),
        || commit_thrice(site, second, gate),
    );
    others?;
    Ok(place)
}

// The place of team 1's commit; one more than the most commits of team 2 that a held question showed, and whether one
// showed all three; and what is left.
type Found = (usize, (u64, bool), ((u64, u64), Option<(u64, u64)>));

fn overtaken_on<L: Ledger + Send + Sync, R: Threads + Wait + Sync>(
    start: Start<'_, R>,
) -> Result<Found, Fail>
    requires { (start.blank.name ≡ L.name) × (start.blank.parts ≡ L.parts) × (L.parts ≡ 8) }
{
    let mut two = two_teams::<L, R>(start)?;
    let draft = two.site.drafted(&two.first, "a", 1000)?;
    let gate = CountingGate::new(name("b")?);
    let place = commit_at_once(&mut two, draft, &gate)?;
    let seen = (
        gate.shown.load(Ordering::SeqCst),
        gate.past.load(Ordering::SeqCst),
    );
    Ok((place, seen, what_is_left(two)?))
}

#[test]
fn overtaken_three_times(rt: HostRuntime) -> Result<(), Fail> {
    let found = overtaken_on::<Brand, _>(Start::new(&rt, rt.alloc()))?;
    assert!(rt; found == (4, (3, false), ((1, 4), Some((2200, 1200)))));
    Ok(())
}
