//! The test of a draft on its base, with no lock.

ghost use Rattle.std.specs.Prelude.{◌≡◌, ◌<◌, IfOk, IfErr, OnOk};
ghost use Rattle.candidate_workers.specs.WorkerFaults.{IsBadCount};
ghost use Rattle.drafts.specs.Edits.{on_base};
ghost use Rattle.drafts.specs.Outcomes.{IsJudged, IsJudgedSet};
ghost use Rattle.book_lock.specs.Asking.{NoneShutOf, NoneShutApplied, IsUntestedSet, IsUntested, IsOnTask, IsCauseOf};

use crate::commit::{CommitCause, CommitFault};
use candidate_workers::{AssayFault, Gate, assay, threads_worth};
use drafts::{Applied, Draft, Judged, Proposal, judged_as};
use std::alloc::Global;
use std::sync::{Arc, Wait};
use std::thread::Threads;
use task_sheet::TaskSet;

// Why there is no decision, where there is no placing.
fn cause_of(set: &TaskSet, fault: AssayFault) -> CommitCause
    requires { IsOnTask set.now fault }
    ensures { IsCauseOf set.now fault result }
{
    match fault {
        AssayFault::BadWorkers => CommitCause::BadWorkers,
        AssayFault::ThreadRefused => CommitCause::ThreadRefused,
        AssayFault::GateShut { task } => CommitCause::GateShut {
            name: set.sheets()[task].name(),
        },
        AssayFault::OutOfMemory => CommitCause::OutOfMemory,
    }
}

// A set with its placing, by at most so many workers.
fn test_set<G: Gate + Sync, R: Threads + Wait>(
    rt: &R,
    alloc: Global,
    set: Arc<TaskSet>,
    workers: usize,
    gate: &G,
) -> Result<Judged, CommitCause>
    requires { IsBadCount workers → ⊥ }
    ensures right { IfOk result (λ judged. IsJudgedSet set.value judged) }
    ensures asked { OnOk result (NoneShutOf (λ q. G.always_shuts gate.now q) set.value) }
    ensures fault { IfErr result (λ cause. IsUntestedSet
        (λ q. G.may_shut gate.now q) set.value cause) }
{
    // The set is valid: the proof has it from its sheets.
    let _ = set.sheets();
    let Ok(own) = set.clone() else {
        return Err(CommitCause::OutOfMemory);
    };
    match assay(rt, alloc, own, threads_worth(&set, workers), gate) {
        Ok(placing) => Ok(judged_as(set, placing)),
        Err(fault) => Err(cause_of(&set, fault)),
    }
}

// What a draft's changes come to on its base.
fn test<G: Gate + Sync, R: Threads + Wait>(
    rt: &R,
    alloc: Global,
    draft: &Draft,
    workers: usize,
    gate: &G,
) -> Result<Judged, CommitCause>
    requires { IsBadCount workers → ⊥ }
    ensures right { IfOk result (λ judged. IsJudged (on_base draft.now) judged) }
    ensures asked { OnOk result (NoneShutApplied (λ q. G.always_shuts gate.now q) (on_base draft.now)) }
    ensures fault { IfErr result (λ cause. IsUntested (λ q. G.may_shut gate.now q)
        (on_base draft.now) cause) }
{
    match draft.applied(alloc) {
        Err(_) => Err(CommitCause::OutOfMemory),
        Ok(Applied::Refused { refusal }) => Ok(Judged::Refused { refusal }),
        Ok(Applied::Tasks { set }) => test_set(rt, alloc, set, workers, gate),
    }
}

// The proposal of a draft, tested by workers. A draft whose changes are refused asks no gate.
pub(crate) fn examine<G: Gate + Sync, R: Threads + Wait>(
    rt: &R,
    alloc: Global,
    draft: Draft,
    workers: usize,
    gate: &G,
) -> Result<Proposal, CommitFault>
    requires { IsBadCount workers → ⊥ }
    ensures ok { IfOk result (λ proposal. proposal.draft ≡ draft) }
    ensures asked { OnOk result (NoneShutApplied (λ q. G.always_shuts gate.now q) (on_base draft)) }
    ensures back { IfErr result (λ fault. fault.draft ≡ draft) }
    ensures fault { IfErr result (λ fault. IsUntested (λ q. G.may_shut gate.now q)
        (on_base draft) fault.cause) }
{
    match test(rt, alloc, &draft, workers, gate) {
        Ok(judged) => Ok(Proposal::with(draft, judged)),
        Err(cause) => Err(CommitFault { cause, draft }),
    }
}
