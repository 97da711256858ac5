//! Opening and closing desks.
ghost use Rattle.std.specs.Prelude.{◌≡◌};

use crate::desks::{Pair, Start, close, two_teams, with};
use book_lock::{CloseCause, Desk, NewFault, Pass};
use example_sets::again;
use std::alloc::Global;
use std::marker::Brand;
use std::sync::Wait;
use std::sync::ledger::{Blank, Ledger};
use std::test::*;
use std::thread::Threads;

// How many passes a desk for so many teams has; none where it is refused.
fn passes_on<L: Ledger>(alloc: Global, blank: Blank, teams: u64) -> Option<usize>
    requires { (blank.name ≡ L.name) × (blank.parts ≡ L.parts) × (L.parts ≡ 8) }
{
    let answer = again!(
        Desk::<L>::new(alloc, blank, teams),
        NewFault::OutOfMemory { blank }
    );
    match answer {
        Ok((_, passes)) => Some(passes.len()),
        Err(NewFault::BadTeams { blank: _ }) => None,
        Err(NewFault::OutOfMemory { blank: _ }) => Some(0),
    }
}

#[test]
fn numbers_of_teams(rt: HostRuntime) -> Result<(), Fail> {
    for (teams, want) in [(0, None), (1, Some(1)), (8, Some(8)), (9, None)] {
        let found = passes_on::<Brand>(rt.alloc(), Blank::new(8), teams);
        assert_eq!(rt; found, want);
    }
    Ok(())
}

// The team that is missing with one pass alone; the desk and the passes come back.
fn close_alone<L: Ledger>(
    alloc: Global,
    desk: Desk<L>,
    pass: Pass<L>,
) -> Result<(u64, Desk<L>, Vec<Pass<L>>), Fail> {
    let passes = with(Vec::new(alloc), pass)?;
    let Err(fault) = desk.close(passes) else {
        return Err("a fault")?;
    };
    match fault.cause {
        CloseCause::MissingPass { team } => Ok((team, fault.desk, fault.passes)),
        CloseCause::ReceiptMismatch { team: _ } => Err("a missing pass")?,
    }
}

// A desk on which team 1 commits once: the team that is missing with its pass alone, and the length of the log with
// both.
fn closed_on<L: Ledger, R: Threads + Wait>(start: Start<'_, R>) -> Result<(u64, usize), Fail>
    requires { (start.blank.name ≡ L.name) × (start.blank.parts ≡ L.parts) × (L.parts ≡ 8) }
{
    let mut two = two_teams::<L, R>(start)?;
    let _ = two.commit_first("a", 6000)?;
    let Pair {
        site,
        first,
        second,
    } = two;
    let (team, desk, passes) = close_alone(site.alloc, site.desk, first)?;
    let closing = close(desk, with(passes, second)?)?;
    Ok((team, closing.log.len()))
}

#[test]
fn opening_and_closing(rt: HostRuntime) -> Result<(), Fail> {
    let found = closed_on::<Brand, _>(Start::new(&rt, rt.alloc()))?;
    assert!(rt; found == (2, 1));
    Ok(())
}
