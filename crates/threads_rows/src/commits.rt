//! What a commit refuses, and a commit during an analysis.
ghost use Rattle.std.specs.Prelude.{◌≡◌};

use crate::desks::{Pair, Start, two_teams};
use crate::gates::{CrowdGate, ShutOne};
use crate::workers::commit_at_once;
use book_lock::CommitCause;
use candidate_workers::OpenGate;
use drafts::Draft;
use std::marker::Brand;
use std::sync::Wait;
use std::sync::ledger::Ledger;
use std::test::*;
use std::thread::Threads;

// A cause by its number in the order of refusals; 4 only where the gate shut out a.
fn number_of(cause: &CommitCause) -> u64 {
    match cause {
        CommitCause::OtherTeam => 1,
        CommitCause::BadWorkers => 2,
        CommitCause::ThreadRefused => 3,
        CommitCause::GateShut { name } if name.as_str() == "a" => 4,
        CommitCause::GateShut { .. } => 0,
        CommitCause::OutOfMemory => 5,
    }
}

// Why a draft isn't decided by team 2's pass, as a number; and the draft.
fn cause_of<L: Ledger, R: Threads + Wait>(
    two: &mut Pair<'_, L, R>,
    draft: Draft,
    workers: usize,
    shut: bool,
) -> Result<(u64, Draft), Fail> {
    let Pair { site, second, .. } = two;
    let answer = if shut {
        site.answer_to(second, draft, workers, &ShutOne { task: 0 })
    } else {
        site.answer_to(second, draft, workers, &OpenGate)
    };
    match answer {
        Ok(_) => Err("a fault")?,
        Err(fault) => Ok((number_of(&fault.cause), fault.draft)),
    }
}

// Why team 1's draft isn't decided, why team 2's own isn't without workers, and then with a gate that shuts it out; and how
// many changes the drafts that came back have.
fn three_causes<L: Ledger, R: Threads + Wait>(
    two: &mut Pair<'_, L, R>,
) -> Result<((u64, u64, u64), usize), Fail> {
    let (other, own) = two.draft_both(("b", 6000), ("a", 6000))?;
    let (team, other) = cause_of(two, other, 0, false)?;
    let (workers, own) = cause_of(two, own, 0, false)?;
    let (shut, own) = cause_of(two, own, 1, true)?;
    Ok(((team, workers, shut), other.len() + own.len()))
}

// These, and the length of the log.
fn causes_on<L: Ledger, R: Threads + Wait>(
    start: Start<'_, R>,
) -> Result<((u64, u64, u64), usize, usize), Fail>
    requires { (start.blank.name ≡ L.name) × (start.blank.parts ≡ L.parts) × (L.parts ≡ 8) }
{
    let mut two = two_teams::<L, R>(start)?;
    let (causes, changes) = three_causes(&mut two)?;
    Ok((causes, changes, two.closed()?.log.len()))
}

#[test]
fn refusals_of_a_commit(rt: HostRuntime) -> Result<(), Fail> {
    let found = causes_on::<Brand, _>(Start::new(&rt, rt.alloc()))?;
    assert!(rt; found == ((1, 2, 4), 2, 0));
    Ok(())
}

// The places of a and b, where b is committed while a gate holds the question on a; then the desk is closed.
fn during_on<L: Ledger + Send + Sync, R: Threads + Wait + Sync>(
    start: Start<'_, R>,
) -> Result<(usize, usize), Fail>
    requires { (start.blank.name ≡ L.name) × (start.blank.parts ≡ L.parts) × (L.parts ≡ 8) }
{
    let mut two = two_teams::<L, R>(start)?;
    let (one, other) = two.draft_both(("a", 4000), ("b", 4000))?;
    let places = commit_at_once(&mut two, one, other, 1, &CrowdGate::new(1, 1));
    let _ = two.closed()?;
    Ok(places)
}

#[test]
fn a_commit_during_an_analysis(rt: HostRuntime) -> Result<(), Fail> {
    let found = during_on::<Brand, _>(Start::new(&rt, rt.alloc()))?;
    assert!(rt; found == (2, 1));
    Ok(())
}
