//! A proposal that is stale.
ghost use Rattle.std.specs.Prelude.{◌≡◌};

use crate::desks::{Pair, Site, Start, two_teams};
use book_lock::{DeskFault, Pass, Settlement};
use drafts::{Draft, Proposal, ProposeFault, propose};
use example_sets::again;
use std::alloc::Global;
use std::marker::Brand;
use std::sync::Wait;
use std::sync::ledger::Ledger;
use std::test::*;
use std::thread::Threads;

fn proposed(alloc: Global, draft: Draft) -> Result<Proposal, Fail> {
    match again!(propose(alloc, draft), ProposeFault { draft }) {
        Ok(proposal) => Ok(proposal),
        Err(_) => Err("a proposal")?,
    }
}

// The place of a proposal that is decided, and none; or 0, and the version of the fresh state, where it is stale.
fn outcome_of<L: Ledger, R: Wait>(
    site: &Site<'_, L, R>,
    pass: &mut Pass<L>,
    proposal: Proposal,
) -> Result<(usize, Option<u64>), Fail> {
    let answer = again!(
        site.desk.settle(site.rt, site.alloc, pass, proposal),
        DeskFault::OutOfMemory { proposal }
    );
    match answer {
        Ok(Settlement::Decided { place }) => Ok((place, None)),
        Ok(Settlement::Stale { fresh, .. }) => Ok((0, Some(fresh.version()))),
        Err(_) => Err("an outcome")?,
    }
}

// What becomes of proposals of both teams on version 0, of a and b.
fn settle_both<L: Ledger, R: Threads + Wait>(
    two: &mut Pair<'_, L, R>,
) -> Result<((usize, Option<u64>), (usize, Option<u64>)), Fail> {
    let (one, other) = two.draft_both(("a", 6000), ("b", 6000))?;
    let first = proposed(two.site.alloc, one)?;
    let second = proposed(two.site.alloc, other)?;
    let decided = outcome_of(&two.site, &mut two.first, first)?;
    Ok((decided, outcome_of(&two.site, &mut two.second, second)?))
}

// That, and the length of the log.
fn settled_on<L: Ledger, R: Threads + Wait>(
    start: Start<'_, R>,
) -> Result<(((usize, Option<u64>), (usize, Option<u64>)), usize), Fail>
    requires { (start.blank.name ≡ L.name) × (start.blank.parts ≡ L.parts) × (L.parts ≡ 8) }
{
    let mut two = two_teams::<L, R>(start)?;
    let settled = settle_both(&mut two)?;
    Ok((settled, two.closed()?.log.len()))
}

#[test]
fn a_stale_proposal(rt: HostRuntime) -> Result<(), Fail> {
    let found = settled_on::<Brand, _>(Start::new(&rt, rt.alloc()))?;
    assert!(rt; found == (((1, None), (0, Some(1))), 1));
    Ok(())
}
