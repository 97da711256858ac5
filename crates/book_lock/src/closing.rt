//! Making and closing a desk.

ghost use Rattle.std.specs.Prelude.{◌≡◌, ◌≤◌, ◌<◌, ◌^◌, ◌↔◌, [], length, map, IsTrue, IfOk, IfErr, MatchOption};
ghost use Rattle.drafts.specs.Books.{Book};
ghost use Rattle.drafts.specs.declared.team.TheConstants.{TEAM_LIMIT};
ghost use Rattle.book_lock.specs.PassFields.{receipt_of};
ghost use Rattle.book_lock.specs.TeamPass.{newcomers, has_team, placed_entries, parts_of, receipt_count};
ghost use Rattle.book_lock.specs.Closing.{IsBadTeams, IsNoDesk, AllThere, IsMissing, IsReceipted, AllReceipted, IsMismatch, IsDeskClosed, IsUnclosed};

use crate::content::is_same_entry;
use crate::desk::Desk;
use crate::locked::Locked;
use crate::pass::{Pass, Receipt};
use drafts::{Book, Entry, NodeState, TEAM_LIMIT, Team};
use std::alloc::Global;
use std::sync::ledger::{Blank, Ledger, Share};
use std::sync::{Arc, Mutex};

/// Why there is no desk; the blank is handed back.
#[derive(Drop)]
pub enum NewFault {
    /// There are no teams, or more than `TEAM_LIMIT`.
    BadTeams { blank: Blank },
    OutOfMemory { blank: Blank },
}

/// The state and the log of a desk that was closed.
#[derive(Drop)]
pub struct Closing {
    pub state: Arc<NodeState>,
    pub log: Vec<Arc<Entry>>,
}

/// Why a desk wasn't closed.
#[derive(Drop)]
pub enum CloseCause {
    /// The least team without a pass.
    MissingPass { team: u64 },
    /// The least team whose receipts aren't its entries.
    ReceiptMismatch { team: u64 },
}

/// The desk wasn't closed; it is handed back with the passes.
#[derive(Drop)]
pub struct CloseFault<L: Ledger> {
    pub cause: CloseCause,
    pub desk: Desk<L>,
    pub passes: Vec<Pass<L>>,
}

// Whether a pass is of that team.
fn is_there<L: Ledger>(team: u64, passes: &[Pass<L>]) -> bool
    ensures { result ≡ has_team team passes.now }
{
    for pass in passes {
        if pass.team().number() == team {
            return true;
        }
    }
    false
}

// The least team without a pass.
fn missing<L: Ledger>(teams: u64, passes: &[Pass<L>]) -> Option<u64>
    requires { teams ≤ TEAM_LIMIT }
    ensures { MatchOption result (AllThere teams passes.now) (IsMissing teams passes.now) }
{
    for team in 1..teams + 1 {
        if !is_there(team, passes) {
            return Some(team);
        }
    }
    None
}

// Whether a receipt is of this entry at this place.
fn is_receipt(place: usize, entry: &Entry, receipt: &Receipt) -> bool
    ensures { IsTrue result ↔ (receipt_of receipt.now ≡ (place, entry.now)) }
{
    receipt.place == place && is_same_entry(&receipt.entry, entry)
}

// Whether a team's entries with their places are these receipts.
fn agrees(team: u64, log: &[Arc<Entry>], receipts: &[Receipt]) -> bool
    requires { length log.now < 2 ^ 63 }
    ensures { IsTrue result
        ↔ (map receipt_of receipts.now ≡ placed_entries team 1 (map (λ e. e.value) log.now)) }
{
    let mut next = 0;
    for (i, entry) in log.iter().enumerate() {
        if entry.team().number() == team {
            if next == receipts.len() || !is_receipt(i + 1, entry, &receipts[next]) {
                return false;
            }
            next += 1;
        }
    }
    next == receipts.len()
}

// Whether the receipts of each pass of a team are the team's entries.
fn all_agree<L: Ledger>(team: u64, passes: &[Pass<L>], log: &[Arc<Entry>]) -> bool
    requires { length log.now < 2 ^ 63 }
    ensures { IsTrue result ↔ IsReceipted passes.now (map (λ e. e.value) log.now) team }
{
    for pass in passes {
        if pass.team().number() == team && !agrees(team, log, pass.receipts()) {
            return false;
        }
    }
    true
}

// The least team whose receipts aren't its entries.
fn mismatch<L: Ledger>(teams: u64, passes: &[Pass<L>], log: &[Arc<Entry>]) -> Option<u64>
    requires few { teams ≤ TEAM_LIMIT }
    requires short { length log.now < 2 ^ 63 }
    ensures { MatchOption result
        (AllReceipted teams passes.now (map (λ e. e.value) log.now))
        (IsMismatch teams passes.now (map (λ e. e.value) log.now)) }
{
    for team in 1..teams + 1 {
        if !all_agree(team, passes, log) {
            return Some(team);
        }
    }
    None
}

// The shares of all passes in one, where there are passes.
fn united<L: Ledger>(passes: Vec<Pass<L>>) -> Option<Share<L>>
    ensures { MatchOption result (passes.items ≡ [])
        (λ all. (all.parts ≡ parts_of passes.items) × (all.amount ≡ receipt_count passes.items)) }
{
    let mut rest = passes.into_iter();
    let mut all = rest.next()?.into_share();
    for pass in rest {
        all.merge(pass.into_share());
    }
    Some(all)
}

impl<L: Ledger> Desk<L> {
    /// A desk for so many teams, and a pass for each; together these have all parts of the ledger. Refused: `BadTeams`.
    pub fn new(alloc: Global, blank: Blank, teams: u64) -> Result<(Desk<L>, Vec<Pass<L>>), NewFault>
        requires { (blank.name ≡ L.name) × (blank.parts ≡ L.parts) × (L.parts ≡ TEAM_LIMIT) }
        ensures ok { IfOk result (λ r. (¬ IsBadTeams teams) × (r.0 ≡ teams)
            × (r.1.items ≡ newcomers 1 teams)) }
        ensures whole { IfOk result (λ r. parts_of r.1.items ≡ L.parts) }
        ensures err { IfErr result (λ fault. IsNoDesk blank teams fault) }
    {
        if teams == 0 || teams > TEAM_LIMIT {
            return Err(NewFault::BadTeams { blank });
        }
        let Ok(mut passes) = Vec::with_capacity(alloc, teams as usize) else {
            return Err(NewFault::OutOfMemory { blank });
        };
        let Ok(book) = Book::new(alloc) else {
            return Err(NewFault::OutOfMemory { blank });
        };
        let (decisions, mut rest) = blank.open::<L>();
        let first = rest.split_off(TEAM_LIMIT + 1 - teams, 0);
        passes.push_reserved(Pass::new(alloc, team_of(1), first));
        for i in 1..teams {
            let share = rest.split_off(1, 0);
            passes.push_reserved(Pass::new(alloc, team_of(i + 1), share));
        }
        let locked = Mutex::new(Locked::new(book, decisions));
        Ok((Desk { locked, teams }, passes))
    }

    /// The state and the log, where each team's receipts are its entries. The log has no fewer entries than the passes
    /// count together, and just as many where they have all parts of the ledger, as those of `new` have.
    /// Refused in this order: `MissingPass`, `ReceiptMismatch`.
    pub fn close(self, passes: Vec<Pass<L>>) -> Result<Closing, CloseFault<L>>
        ensures ok { IfOk result (λ closing. IsDeskClosed self passes.items
            (let b : Book = record {
              desk = closing.state.value;
              log = map
                  (λ e. e.value) closing.log.items;
            } in b)) }
        ensures bound { IfOk result (λ closing. receipt_count passes.items ≤ length closing.log.items) }
        ensures counted { IfOk result (λ closing. parts_of passes.items ≡ L.parts →
            length closing.log.items ≡ receipt_count passes.items) }
        ensures err { IfErr result (λ fault. IsUnclosed self passes.items fault.cause) }
        ensures desk { IfErr result (λ fault. fault.desk ≡ self) }
        ensures passes { IfErr result (λ fault. fault.passes.items ≡ passes.items) }
    {
        let Desk { locked, teams } = self;
        if let Some(team) = missing(teams, &passes) {
            let cause = CloseCause::MissingPass { team };
            let desk = Desk { locked, teams };
            return Err(CloseFault {
                cause,
                desk,
                passes,
            });
        }
        let mut locked = locked.into_inner();
        // The book is legal: the proof has it from its state.
        let _ = locked.state();
        if let Some(team) = mismatch(teams, &passes, locked.log()) {
            let cause = CloseCause::ReceiptMismatch { team };
            let locked = Mutex::new(locked);
            let desk = Desk { locked, teams };
            return Err(CloseFault {
                cause,
                desk,
                passes,
            });
        }
        let Some(mut all) = united(passes) else {
            unreachable!()
        };
        locked.audit(&mut all);
        let (state, log) = locked.into_parts();
        Ok(Closing { state, log })
    }
}

// The team of a number.
fn team_of(number: u64) -> Team
    requires { (1 ≤ number) × (number ≤ TEAM_LIMIT) }
    ensures { result ≡ number }
{
    match Team::new(number) {
        Some(team) => team,
        None => unreachable!(),
    }
}
