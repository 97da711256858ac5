//! A commit: tests outside the lock, the decision under it.

ghost use Rattle.std.specs.Prelude.{◌≡◌};
ghost use Rattle.candidate_workers.specs.WorkerFaults.{IsBadCount};
ghost use Rattle.book_lock.specs.Settles.{HoldsSome};
ghost use Rattle.book_lock.specs.Commits.{IsRound, IsLater, Commits};

use crate::answer::{DeskFault, Settlement};
use crate::asking::examine;
use crate::desk::Desk;
use crate::pass::Pass;
use candidate_workers::{Gate, WORKER_LIMIT};
use drafts::{Draft, HeldFault, NodeState};
use std::alloc::Global;
use std::sync::ledger::Ledger;
use std::sync::{Arc, Wait};
use std::thread::Threads;
use task_sheet::Name;

/// Why there is no decision.
#[derive(Drop)]
pub enum CommitCause {
    /// The draft isn't the pass's team's.
    OtherTeam,
    /// There are no workers, or more than `WORKER_LIMIT`.
    BadWorkers,
    /// The system refused a thread.
    ThreadRefused,
    /// The gate shut out a question on the task of this name.
    GateShut { name: Name },
    OutOfMemory,
}

/// There is no decision; the draft is handed back on the base that it came with.
#[derive(Drop)]
pub struct CommitFault {
    pub cause: CommitCause,
    pub draft: Draft,
}

impl CommitFault {
    // The same, with the draft on another base.
    fn on(self, base: Arc<NodeState>) -> CommitFault
        ensures cause { result.cause ≡ self.cause }
        ensures draft { result.draft
            ≡ record { team = self.draft.team; base = base.value; changes = self.draft.changes } }
    {
        CommitFault {
            cause: self.cause,
            draft: self.draft.rebase(base),
        }
    }
}

/// What became of a draft in one round.
#[derive(Drop)]
pub enum Round {
    Decided { place: usize },
    /// Another commit came first; the draft is on a later state. Here is its base of before.
    Overtaken { draft: Draft, base: Arc<NodeState> },
}

// How drafts are committed: on which desk, by how many workers, past which gate.
#[derive(Drop)]
struct Committer<'a, L: Ledger, G: Gate, R> {
    rt: &'a R,
    alloc: Global,
    desk: &'a Desk<L>,
    workers: usize,
    gate: &'a G,
}

impl<'a, L: Ledger, G: Gate + Sync, R: Threads + Wait> Committer<'a, L, G, R> {
    // Decides on a draft on the present state, tested under the lock.
    fn settle_held(&self, pass: &mut Pass<L>, draft: Draft) -> Result<usize, HeldFault>
        requires { draft.team ≡ pass.old.team }
        ensures { HoldsSome draft pass.old result pass.new }
    {
        let desk = self.desk;
        let mut locked = desk.locked.lock(self.rt);
        locked.settle_held(self.alloc, pass, draft)
    }

    // Tests a draft outside the lock and settles it under it. A stranger is decided at once.
    fn round(&self, pass: &mut Pass<L>, draft: Draft) -> Result<Round, CommitFault>
        requires team { draft.team ≡ pass.old.team }
        requires workers { IsBadCount self.now.workers → ⊥ }
        ensures { IsRound (λ q. G.may_shut self.now.gate.now q)
            (λ q. G.always_shuts self.now.gate.now q) draft pass.old result pass.new }
    {
        let proposal = match examine(self.rt, self.alloc, draft, self.workers, self.gate) {
            Ok(proposal) => proposal,
            Err(fault) => return Err(fault),
        };
        match self.desk.settle(self.rt, self.alloc, pass, proposal) {
            Ok(Settlement::Decided { place }) => Ok(Round::Decided { place }),
            Ok(Settlement::Stale { fresh, proposal }) => {
                let (draft, base) = proposal.into_draft().exchange(fresh);
                Ok(Round::Overtaken { draft, base })
            }
            Err(DeskFault::OtherTeam { proposal: _ }) => unreachable!(),
            Err(DeskFault::Stranger { proposal }) => {
                match self.settle_held(pass, proposal.into_draft()) {
                    Ok(place) => Ok(Round::Decided { place }),
                    Err(fault) => Err(CommitFault {
                        cause: CommitCause::OutOfMemory,
                        draft: fault.draft,
                    }),
                }
            }
            Err(DeskFault::OutOfMemory { proposal }) => Err(CommitFault {
                cause: CommitCause::OutOfMemory,
                draft: proposal.into_draft(),
            }),
        }
    }

    // Two more rounds, and then a decision under the lock. What is handed back gets this base.
    fn later_rounds(
        &self,
        pass: &mut Pass<L>,
        draft: Draft,
        base: Arc<NodeState>,
    ) -> Result<usize, CommitFault>
        requires team { draft.team ≡ pass.old.team }
        requires workers { IsBadCount self.now.workers → ⊥ }
        ensures { IsLater (λ q. G.may_shut self.now.gate.now q)
            draft base.value pass.old result pass.new }
    {
        let mut draft = draft;
        for _round in 0..2u32 {
            match self.round(pass, draft) {
                Ok(Round::Decided { place }) => return Ok(place),
                Ok(
                    Round::Overtaken {
                        draft: next,
                        base: _,
                    },
                ) => draft = next,
                Err(fault) => return Err(fault.on(base)),
            }
        }
        match self.settle_held(pass, draft) {
            Ok(place) => Ok(place),
            Err(fault) => Err(CommitFault {
                cause: CommitCause::OutOfMemory,
                draft: fault.draft.rebase(base),
            }),
        }
    }
}

impl<L: Ledger> Desk<L> {
    /// Commits a draft: up to three rounds outside the lock, and then a decision under it. The place of the pass's new
    /// receipt. Refused in this order: `OtherTeam`, `BadWorkers`; then what came of the tests.
    pub fn commit<'a, G: Gate + Sync, R: Threads + Wait>(
        &'a self,
        rt: &'a R,
        alloc: Global,
        pass: &mut Pass<L>,
        draft: Draft,
        workers: usize,
        gate: &'a G,
    ) -> Result<usize, CommitFault>
        ensures { Commits (λ q. G.may_shut gate.now q) (λ q. G.always_shuts gate.now q)
            workers draft pass.old result pass.new }
    {
        if draft.team().number() != pass.team().number() {
            let cause = CommitCause::OtherTeam;
            return Err(CommitFault { cause, draft });
        }
        if workers == 0 || workers > WORKER_LIMIT {
            let cause = CommitCause::BadWorkers;
            return Err(CommitFault { cause, draft });
        }
        let committer = Committer {
            rt,
            alloc,
            desk: self,
            workers,
            gate,
        };
        match committer.round(pass, draft) {
            Ok(Round::Decided { place }) => Ok(place),
            Ok(Round::Overtaken { draft, base }) => { committer.later_rounds(pass, draft, base) }
            Err(fault) => Err(fault),
        }
    }
}
