//! Proposals: a draft with what its changes come to on its base.

ghost use Rattle.std.specs.Prelude.{◌≡◌, IfOk, IfErr, IfSome, IfNone};
ghost use Rattle.assignment.specs.Verdict.{verdict_set};
ghost use Rattle.drafts.specs.Edits.{on_base};
ghost use Rattle.drafts.specs.Outcomes.{IsJudged, IsJudgedSet};
ghost use Rattle.drafts.specs.VerdictFaults.{IsOnSet, IsVerdictFault};
ghost use Rattle.drafts.specs.Proposals.{IsProposal};

use crate::applying::Applied;
use crate::draft::Draft;
use crate::judging::{Judged, judge, judged_by};
use assignment::Verdict;
use std::alloc::{AllocError, Global};
use std::marker::Model;

/// A draft with the refusal of its changes on its base, or what becomes of the set that they come to.
#[derive(Drop)]
pub struct Proposal {
    draft: Draft,
    judged: Judged,
}

impl Model for Proposal {
    ghost use Rattle.drafts.specs.Proposals.{ProposalData, IsProposal};

    ghost Value = { ProposalData };

    ghost view = { λ p. record { draft = p.draft; judged = p.judged } };

    ghost invariant = { λ p. IsProposal (record { draft = p.draft; judged = p.judged }) };
}

/// Memory ran out; the draft is handed back.
#[derive(Drop)]
pub struct ProposeFault {
    pub draft: Draft,
}

/// Why a draft and a verdict are no proposal; both are handed back.
#[derive(Drop)]
pub enum VerdictFault {
    /// The changes are refused, or come to another set than that of the verdict.
    Stranger { draft: Draft, verdict: Verdict },
    OutOfMemory { draft: Draft, verdict: Verdict },
}

// What a verdict says of the set that a draft's changes come to; none where it is on another, or they are refused.
fn judged_with(
    alloc: Global,
    draft: &Draft,
    verdict: &Verdict,
) -> Result<Option<Judged>, AllocError>
    ensures right { IfOk result (λ judged. IfSome judged (IsJudgedSet (verdict_set verdict.now))) }
    ensures same { IfOk result (λ judged. IfSome judged
        (λ _. IsOnSet (on_base draft.now) (verdict_set verdict.now))) }
    ensures other { IfOk result (λ judged. IfNone judged
        (¬ IsOnSet (on_base draft.now) (verdict_set verdict.now))) }
{
    match draft.applied(alloc)? {
        Applied::Refused { refusal: _ } => Ok(None),
        Applied::Tasks { set } => {
            if !verdict.set().is_same(&set) {
                return Ok(None);
            }
            let room = Vec::with_capacity(alloc, set.len())?;
            Ok(Some(judged_by(set, verdict, room)))
        }
    }
}

/// The proposal of a draft, tested on the caller's thread.
pub fn propose(alloc: Global, draft: Draft) -> Result<Proposal, ProposeFault>
    ensures ok { IfOk result (λ proposal. proposal.draft ≡ draft) }
    ensures right { IfOk result IsProposal }
    ensures back { IfErr result (λ fault. fault.draft ≡ draft) }
{
    match judge(alloc, &draft, draft.base()) {
        Ok(judged) => Ok(Proposal { draft, judged }),
        Err(_) => Err(ProposeFault { draft }),
    }
}

/// The proposal of a draft with what a verdict says that was worked out elsewhere. Refused: `Stranger`.
pub fn propose_with(alloc: Global, draft: Draft, verdict: Verdict) -> Result<Proposal, VerdictFault>
    ensures ok { IfOk result (λ proposal. (proposal.draft ≡ draft)
        × IsJudgedSet (verdict_set verdict) proposal.judged) }
    ensures right { IfOk result IsProposal }
    ensures same { IfOk result (λ proposal. IsOnSet (on_base draft) (verdict_set verdict)) }
    ensures err { IfErr result (IsVerdictFault draft verdict) }
{
    match judged_with(alloc, &draft, &verdict) {
        Err(_) => Err(VerdictFault::OutOfMemory { draft, verdict }),
        Ok(None) => Err(VerdictFault::Stranger { draft, verdict }),
        Ok(Some(judged)) => Ok(Proposal { draft, judged }),
    }
}

impl Proposal {
    /// The proposal of a draft with what its changes come to on its base.
    pub fn with(draft: Draft, judged: Judged) -> Proposal
        requires { IsJudged (on_base draft) judged }
        ensures { result.draft ≡ draft }
    {
        Proposal { draft, judged }
    }

    /// The draft with its changes and its base.
    pub fn draft(&self) -> &Draft
        ensures { result.now ≡ self.now.draft }
    {
        &self.draft
    }

    /// What the changes come to on the base.
    pub fn judged(&self) -> &Judged
        ensures same { result.now ≡ self.now.judged }
        ensures right { IsJudged (on_base self.now.draft) self.now.judged }
    {
        &self.judged
    }

    /// The draft, out of the proposal.
    pub fn into_draft(self) -> Draft
        ensures { result ≡ self.draft }
    {
        self.draft
    }
}
