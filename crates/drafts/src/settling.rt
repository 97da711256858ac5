//! Settling proposals and drafts in a book.

ghost use Rattle.std.specs.Prelude.{◌≡◌, ◌↔◌, IsTrue, IfOk, IfErr, OnErr};
ghost use Rattle.drafts.specs.Books.{logged, IsNextEntry};
ghost use Rattle.drafts.specs.Proposals.{StillHolds};
ghost use Rattle.drafts.specs.Settling.{IsSettled};

use crate::applying::{Applied, apply};
use crate::book::{Book, Decided};
use crate::draft::Draft;
use crate::entry::Entry;
use crate::judging::Judged;
use crate::proposal::Proposal;
use crate::state::NodeState;
use std::alloc::{AllocError, Global};
use std::sync::Arc;

/// What became of a proposal.
#[derive(Drop)]
pub enum Settled {
    /// The present version is above its base; nothing changed.
    Stale {
        fresh: Arc<NodeState>,
        proposal: Proposal,
    },
    /// One entry is logged.
    Decided {
        place: usize,
        entry: Arc<Entry>,
    },
}

/// Why a proposal was not settled; it is handed back.
#[derive(Drop)]
pub enum SettleFault {
    /// Its base is of a version above the present one; or of the present one, but on the present state its changes don't
    /// come to what was judged.
    Stranger { proposal: Proposal },
    OutOfMemory { proposal: Proposal },
}

/// Memory ran out; the draft is handed back.
#[derive(Drop)]
pub struct HeldFault {
    pub draft: Draft,
}

// Whether a proposal's changes come to the same on the present state. They do where its tasks and
// interrupts are those of the base, and then nothing is applied again.
fn still_holds(alloc: Global, book: &Book, proposal: &Proposal) -> Result<bool, AllocError>
    ensures { IfOk result (λ holds. IsTrue holds ↔ StillHolds book.now proposal.now) }
{
    let draft = proposal.draft();
    if draft.base().has_same_node(book.state()) {
        // What was judged is right for the base: the proof has it from the judgement.
        let _ = proposal.judged();
        return Ok(true);
    }
    match apply(alloc, draft, book.state())? {
        Applied::Refused { refusal } => match proposal.judged() {
            Judged::Refused { refusal: told } => Ok(told.is_same(&refusal)),
            _ => Ok(false),
        },
        Applied::Tasks { set } => match proposal.judged() {
            Judged::Refused { refusal: _ } => Ok(false),
            Judged::Best { order } => Ok(order.set().is_same(&set)),
            Judged::Stuck { stuck } => Ok(stuck.set().is_same(&set)),
        },
    }
}

impl Book {
    /// Settles a proposal by what it says. Refused: `Stranger`.
    pub fn settle(&mut self, alloc: Global, proposal: Proposal) -> Result<Settled, SettleFault>
        ensures { IsSettled self.old proposal self.new result }
    {
        let base = proposal.draft().base_version();
        let version = self.state().version();
        if base > version {
            return Err(SettleFault::Stranger { proposal });
        }
        if base < version {
            return match self.snapshot() {
                Ok(fresh) => Ok(Settled::Stale { fresh, proposal }),
                Err(_) => Err(SettleFault::OutOfMemory { proposal }),
            };
        }
        match still_holds(alloc, self, &proposal) {
            Err(_) => Err(SettleFault::OutOfMemory { proposal }),
            Ok(false) => Err(SettleFault::Stranger { proposal }),
            Ok(true) => match self.enter(alloc, proposal.draft(), proposal.judged()) {
                Ok(Decided { place, entry }) => Ok(Settled::Decided { place, entry }),
                Err(_) => Err(SettleFault::OutOfMemory { proposal }),
            },
        }
    }

    /// Applies a draft's changes to the present state, tests them, and logs the decision. It is never stale.
    pub fn settle_held(&mut self, alloc: Global, draft: Draft) -> Result<Decided, HeldFault>
        ensures entry { IfOk result (λ d. IsNextEntry self.old draft d.place d.entry.value) }
        ensures ok { IfOk result (λ d. self.new ≡ logged self.old d.entry.value) }
        ensures err { OnErr result (self.new ≡ self.old) }
        ensures back { IfErr result (λ fault. fault.draft ≡ draft) }
    {
        match self.test_and_enter(alloc, &draft) {
            Ok(decided) => Ok(decided),
            Err(_) => Err(HeldFault { draft }),
        }
    }
}
