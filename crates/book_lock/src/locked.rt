//! What lies under the lock, and the functions that are lent it.

ghost use Rattle.std.specs.Prelude.{◌≡◌, ◌≤◌, length, map};
ghost use Rattle.drafts.specs.Books.{IsLegalBook, Book};
ghost use Rattle.book_lock.specs.Settles.{Settles, Holds};
ghost use Rattle.book_lock.specs.Opening.{OpensDraft};

use crate::answer::{DeskFault, OpenFault, Settlement};
use crate::foreign::foreign;
use crate::pass::{Pass, Receipt, later};
use drafts::{Book, Decided, Draft, Entry, HeldFault, NodeState, Proposal, SettleFault, Settled};
use std::alloc::Global;
use std::marker::Model;
use std::sync::ledger::{Ledger, Share};
use std::sync::{Arc, ledger};

/// The book, with the ledger of its decisions. To a contract it is the book.
#[derive(Drop)]
pub struct Locked<L: Ledger> {
    book: Book,
    decisions: ledger::Book<L>,
}

impl<L: Ledger> Model for Locked<L> {
    ghost Value = { Book };

    ghost view = { λ l. l.book };

    ghost invariant = { λ l. l.decisions.total ≡ length l.book.log };
}

impl<L: Ledger> Locked<L> {
    pub(crate) fn new(book: Book, decisions: ledger::Book<L>) -> Locked<L>
        requires { decisions.total ≡ length book.log }
        ensures { result ≡ book }
    {
        Locked { book, decisions }
    }

    /// The present state, with a best order of its tasks.
    pub fn state(&self) -> &NodeState
        ensures state { result.now ≡ self.now.desk }
        ensures legal { IsLegalBook self.now }
    {
        self.book.state()
    }

    /// The entries in their order.
    pub fn log(&self) -> &[Arc<Entry>]
        ensures { map (λ e. e.value) result.now ≡ self.now.log }
    {
        self.book.log()
    }

    /// A share has no more decisions than the log, which is legal; that of all passes together has as many.
    pub fn audit(&mut self, all: &mut Share<L>)
        ensures legal { IsLegalBook self.old }
        ensures bound { all.old.amount ≤ length self.old.log }
        ensures counted { all.old.parts ≡ L.parts → length self.old.log ≡ all.old.amount }
        ensures same { self.new ≡ self.old }
        ensures share { (all.new.amount ≡ all.old.amount) × (all.new.parts ≡ all.old.parts) }
    {
        // The book is legal: the proof has it from its state.
        let _ = self.book.state();
        self.decisions.audit(all);
    }

    // The state and the log.
    pub(crate) fn into_parts(self) -> (Arc<NodeState>, Vec<Arc<Entry>>)
        ensures state { result.0.value ≡ self.desk }
        ensures log { map (λ e. e.value) result.1.items ≡ self.log }
        ensures legal { IsLegalBook self }
    {
        self.book.into_parts()
    }

    /// A draft on the present state, for a team that knows what its tasks are.
    pub fn open(&self, alloc: Global, pass: &Pass<L>) -> Result<Draft, OpenFault>
        ensures legal { IsLegalBook self.now }
        ensures opens { OpensDraft self.now pass.now result }
    {
        let state = self.book.state();
        match foreign(alloc, state, pass.team, &pass.tasks) {
            Err(_) => return Err(OpenFault::OutOfMemory),
            Ok(Some(name)) => return Err(OpenFault::Foreign { name }),
            Ok(None) => {}
        }
        let version = state.version();
        if !pass.is_up_to(version) {
            return Err(OpenFault::Behind { version });
        }
        match self.book.snapshot() {
            Ok(base) => Ok(Draft::new(alloc, pass.team, base)),
            Err(_) => Err(OpenFault::OutOfMemory),
        }
    }

    /// Settles a proposal of the pass's team.
    pub fn settle(
        &mut self,
        alloc: Global,
        pass: &mut Pass<L>,
        proposal: Proposal,
    ) -> Result<Settlement, DeskFault>
        requires { proposal.draft.team ≡ pass.old.team }
        ensures legal { IsLegalBook self.old × IsLegalBook self.new }
        ensures settles { Settles self.old proposal pass.old result self.new pass.new }
    {
        // The book is legal: the proof has it from its state.
        let _ = self.book.state();
        let Ok(tasks) = pass.tasks.changed(alloc, proposal.draft()) else {
            return Err(DeskFault::OutOfMemory { proposal });
        };
        if pass.receipts.reserve(1).is_err() {
            return Err(DeskFault::OutOfMemory { proposal });
        }
        match self.book.settle(alloc, proposal) {
            Ok(Settled::Decided { place, entry }) => {
                self.decisions.add(&mut pass.share, 1);
                pass.tasks.keep(entry.decision(), tasks);
                pass.latest = later(pass.latest, entry.decision());
                pass.receipts.push_reserved(Receipt { place, entry });
                // The book is legal: the proof has it from its state.
                let _ = self.book.state();
                Ok(Settlement::Decided { place })
            }
            Ok(Settled::Stale { fresh, proposal }) => Ok(Settlement::Stale { fresh, proposal }),
            Err(SettleFault::Stranger { proposal }) => Err(DeskFault::Stranger { proposal }),
            Err(SettleFault::OutOfMemory { proposal }) => Err(DeskFault::OutOfMemory { proposal }),
        }
    }

    /// Decides on a draft of the pass's team on the present state. It is never stale.
    pub fn settle_held(
        &mut self,
        alloc: Global,
        pass: &mut Pass<L>,
        draft: Draft,
    ) -> Result<usize, HeldFault>
        requires { draft.team ≡ pass.old.team }
        ensures legal { IsLegalBook self.old × IsLegalBook self.new }
        ensures holds { Holds self.old draft pass.old result self.new pass.new }
    {
        // The book is legal: the proof has it from its state.
        let _ = self.book.state();
        let Ok(tasks) = pass.tasks.changed(alloc, &draft) else {
            return Err(HeldFault { draft });
        };
        if pass.receipts.reserve(1).is_err() {
            return Err(HeldFault { draft });
        }
        match self.book.settle_held(alloc, draft) {
            Ok(Decided { place, entry }) => {
                self.decisions.add(&mut pass.share, 1);
                pass.tasks.keep(entry.decision(), tasks);
                pass.latest = later(pass.latest, entry.decision());
                pass.receipts.push_reserved(Receipt { place, entry });
                // The book is legal: the proof has it from its state.
                let _ = self.book.state();
                Ok(place)
            }
            Err(fault) => Err(fault),
        }
    }
}
