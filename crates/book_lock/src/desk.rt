//! The desk.

ghost use Rattle.std.specs.Prelude.{◌≤◌, IfErr, IfOk, ℕ, ◌<◌};
ghost use Rattle.drafts.specs.declared.team.TheConstants.{TEAM_LIMIT};
ghost use Rattle.book_lock.specs.Settles.{AnswersProposal};
ghost use Rattle.book_lock.specs.Opening.{IsNotOpenedFor, IsOpenedFor};

use crate::answer::{DeskFault, OpenFault, Settlement};
use crate::locked::Locked;
use crate::pass::Pass;
use drafts::{Draft, Proposal};
use std::alloc::Global;
use std::marker::Model;
use std::sync::ledger::Ledger;
use std::sync::{Mutex, Wait};

/// A book for several teams at once.
#[derive(Drop)]
pub struct Desk<L: Ledger> {
    pub(crate) locked: Mutex<Locked<L>>,
    pub(crate) teams: u64,
}

impl<L: Ledger> Model for Desk<L> {
    ghost Value = { ℕ };

    ghost view = { λ d. d.teams };

    ghost invariant = { λ d. (0 < d.teams) × (d.teams ≤ TEAM_LIMIT) };
}

impl<L: Ledger> Desk<L> {
    /// A draft on the present state. Refused in this order: `Foreign`, `Behind`.
    pub fn open(&self, rt: &impl Wait, alloc: Global, pass: &Pass<L>) -> Result<Draft, OpenFault>
        ensures draft { IfOk result (λ draft. IsOpenedFor pass.now draft) }
        ensures fault { IfErr result (λ fault. IsNotOpenedFor pass.now fault) }
    {
        let locked = self.locked.lock(rt);
        locked.open(alloc, pass)
    }

    /// Settles a proposal by what it says. Refused in this order: `OtherTeam`, `Stranger`.
    pub fn settle(
        &self,
        rt: &impl Wait,
        alloc: Global,
        pass: &mut Pass<L>,
        proposal: Proposal,
    ) -> Result<Settlement, DeskFault>
        ensures { AnswersProposal proposal pass.old result pass.new }
    {
        if proposal.draft().team().number() != pass.team().number() {
            return Err(DeskFault::OtherTeam { proposal });
        }
        let mut locked = self.locked.lock(rt);
        locked.settle(alloc, pass, proposal)
    }
}
