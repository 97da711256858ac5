//! The book: the present state, and the log that led to it.

ghost use Rattle.std.specs.Prelude.{◌≡◌, ◌<◌, ◌+◌, ◌^◌, Ok, IfOk, IfSome, IfNone, OnOk, OnErr, length, map, option_map};
ghost use Rattle.drafts.specs.Applied.{all_changes, applied};
ghost use Rattle.drafts.specs.Edits.{on_base};
ghost use Rattle.drafts.specs.Machine.{Entry, IsDecision};
ghost use Rattle.drafts.specs.Rosters.{AreMade, IsRoster};
ghost use Rattle.drafts.specs.Outcomes.{IsJudged, IsSaid, IsNextState, IsEntryOf, after_next};
ghost use Rattle.drafts.specs.Rulings.{ruling_of};
ghost use Rattle.drafts.specs.Books.{empty_book, logged, IsLegalBook, IsNextEntry};

use crate::applying::make_changes;
use crate::change::Change;
use crate::draft::Draft;
use crate::entry::{Decision, Entry};
use crate::judging::{Judged, judge};
use crate::roster::Owned;
use crate::state::NodeState;
use indexmap::IndexMap;
use std::alloc::{AllocError, Global};
use std::marker::Model;
use std::sync::Arc;
use task_sheet::Name;

/// The present state, and the log that led to it.
#[derive(Drop)]
pub struct Book {
    state: Arc<NodeState>,
    log: Vec<Arc<Entry>>,
}

impl Model for Book {
    ghost use Rattle.drafts.specs.Rulings.{ruling_of};
    ghost use Rattle.drafts.specs.Books.{Book};

    ghost Value = { Book };

    ghost use Rattle.drafts.specs.BookFields.{book_of, IsBookKept};

    ghost view = { book_of };

    ghost invariant = { IsBookKept };
}

/// Where a decision stands in the log, from 1, and its entry.
#[derive(Drop)]
pub struct Decided {
    pub place: usize,
    pub entry: Arc<Entry>,
}

// The changes again, by name, in their order.
fn list_changes(
    alloc: Global,
    changes: &IndexMap<Name, Change>,
) -> Result<Vec<(Name, Change)>, AllocError>
    ensures { IfOk result (λ v. v.items ≡ changes.now.entries) }
{
    let mut copies = Vec::new(alloc);
    for (name, change) in changes.iter() {
        copies.push((*name, change.copy(alloc)?))?;
    }
    Ok(copies)
}

// The decision that follows from what was judged.
fn decide(version: u64, judged: &Judged) -> Result<Decision, AllocError>
    requires { version + 1 < 2 ^ 64 }
    ensures { IfOk result (λ d. IsSaid version judged.now (ruling_of d)) }
{
    match judged {
        Judged::Refused { refusal } => Ok(Decision::Refused { refusal: *refusal }),
        Judged::Best { order: _ } => Ok(Decision::Admitted {
            version: version + 1,
        }),
        Judged::Stuck { stuck } => {
            // The set is valid: the proof has it from its sheets.
            let _ = stuck.set().sheets();
            Ok(Decision::Infeasible {
                stuck: stuck.copy()?,
            })
        }
    }
}

// The line of a draft's changes that were judged at a version.
fn make_entry(
    alloc: Global,
    version: u64,
    draft: &Draft,
    judged: &Judged,
) -> Result<Arc<Entry>, AllocError>
    requires { version + 1 < 2 ^ 64 }
    ensures { IfOk result (λ e. IsEntryOf version draft.now judged.now e.value) }
{
    let decision = decide(version, judged)?;
    let changes = list_changes(alloc, draft.changes())?;
    match Arc::new(alloc, Entry::new(draft.team(), changes, decision)) {
        Ok(entry) => Ok(entry),
        Err(_) => Err(AllocError),
    }
}

// Moves to the next state, if there is one.
fn move_on(state: &mut Arc<NodeState>, next: Option<Arc<NodeState>>)
    ensures { state.new.value ≡ after_next state.old.value (option_map (λ s. s.value) next) }
{
    if let Some(next) = next {
        *state = next;
    }
}

impl Book {
    /// An empty book.
    pub fn new(alloc: Global) -> Result<Book, AllocError>
        ensures { IfOk result (λ book. book ≡ empty_book) }
    {
        match Arc::new(alloc, NodeState::empty(alloc)?) {
            Ok(state) => Ok(Book {
                state,
                log: Vec::new(alloc),
            }),
            Err(_) => Err(AllocError),
        }
    }

    /// The present state.
    #[tactic(auto, using(crate::proofs::BookLaws::book_legal))]
    pub fn state(&self) -> &NodeState
        ensures now { result.now ≡ self.now.desk }
        ensures legal { IsLegalBook self.now }
    {
        &self.state
    }

    /// The present state, to be shared. It is never written again: an admitted commit makes another one.
    pub fn snapshot(&self) -> Result<Arc<NodeState>, AllocError>
        ensures { IfOk result (λ state. state.value ≡ self.now.desk) }
    {
        self.state.clone()
    }

    /// The entries in their order.
    pub fn log(&self) -> &[Arc<Entry>]
        ensures { map (λ e. e.value) result.now ≡ self.now.log }
    {
        &self.log
    }

    /// The state and the log, out of the book.
    #[tactic(auto, using(crate::proofs::BookLaws::book_legal))]
    pub fn into_parts(self) -> (Arc<NodeState>, Vec<Arc<Entry>>)
        ensures state { result.0.value ≡ self.desk }
        ensures log { map (λ e. e.value) result.1.items ≡ self.log }
        ensures legal { IsLegalBook self }
    {
        (self.state, self.log)
    }

    // The version of the present state. It has room to count on: each admission has a place in the log.
    #[tactic(auto, using(crate::proofs::BookLaws::version_fits))]
    fn version(&self) -> u64
        ensures same { result ≡ self.now.desk.version }
        ensures room { result + 1 < 2 ^ 64 }
    {
        self.state.version()
    }

    // Logs an entry of the machine, moves to the state after it, and gives its place.
    fn log_entry(
        &mut self,
        entry: Arc<Entry>,
        next: Option<Arc<NodeState>>,
    ) -> Result<usize, AllocError>
        requires decision { IsDecision
            self.old.desk entry.value.team entry.value.changes entry.value.decision }
        requires next { after_next self.old.desk (option_map (λ s. s.value) next)
            ≡ (logged self.old entry.value).desk }
        ensures place { IfOk result (λ place. place ≡ length self.old.log + 1) }
        ensures ok { OnOk result (self.new ≡ logged self.old entry.value) }
        ensures err { OnErr result (self.new ≡ self.old) }
    {
        self.log.push(entry)?;
        move_on(&mut self.state, next);
        Ok(self.log.len())
    }

    // The tasks after a draft's changes, which aren't refused.
    fn tasks_after(&self, alloc: Global, draft: &Draft) -> Result<Vec<Owned>, AllocError>
        requires { AreMade
            (all_changes draft.now.team self.now.desk.node.tasks draft.now.changes) }
        ensures same { IfOk result (λ tasks. Ok tasks.items
            ≡ all_changes draft.now.team self.now.desk.node.tasks draft.now.changes) }
        ensures roster { IfOk result (λ tasks. IsRoster tasks.items) }
    {
        let mut tasks = self.state.roster(alloc)?;
        match make_changes(alloc, draft.team(), &mut tasks, draft.changes())? {
            Some(_) => unreachable!(),
            None => Ok(tasks),
        }
    }

    // The state after a decision: what is admitted on the node, or the present one.
    fn next_state(
        &self,
        alloc: Global,
        draft: &Draft,
        judged: &Judged,
    ) -> Result<Option<Arc<NodeState>>, AllocError>
        requires judged { IsJudged
            (applied draft.now.team self.now.desk.node draft.now.changes) judged.now }
        requires room { self.now.desk.version + 1 < 2 ^ 64 }
        ensures { let outcome = applied draft.now.team self.now.desk.node draft.now.changes in
            IfOk result (λ next. IsNextState self.now.desk outcome judged.now
            (option_map (λ s. s.value) next)) }
    {
        match judged {
            Judged::Refused { refusal: _ } => Ok(None),
            Judged::Stuck { stuck: _ } => Ok(None),
            Judged::Best { order } => {
                let tasks = self.tasks_after(alloc, draft)?;
                let interrupts = self
                    .state
                    .interrupts_after(alloc, draft.team(), draft.changes())?;
                let version = self.state.version() + 1;
                let next = NodeState::with(version, tasks, interrupts, order.copy(alloc)?);
                match Arc::new(alloc, next) {
                    Ok(next) => Ok(Some(next)),
                    Err(_) => Err(AllocError),
                }
            }
        }
    }

    /// Logs the decision on a draft's changes to the present state, which were judged, and moves to what is admitted.
    pub fn enter(
        &mut self,
        alloc: Global,
        draft: &Draft,
        judged: &Judged,
    ) -> Result<Decided, AllocError>
        requires { IsJudged
            (applied draft.now.team self.old.desk.node draft.now.changes) judged.now }
        ensures entry { IfOk result (λ d. IsNextEntry self.old draft.now d.place d.entry.value) }
        ensures said { IfOk result
            (λ d. IsSaid self.old.desk.version judged.now d.entry.value.decision) }
        ensures ok { IfOk result (λ d. self.new ≡ logged self.old d.entry.value) }
        ensures err { OnErr result (self.new ≡ self.old) }
    {
        let version = self.version();
        let next = self.next_state(alloc, draft, judged)?;
        let entry = make_entry(alloc, version, draft, judged)?;
        let place = self.log_entry(entry.clone()?, next)?;
        Ok(Decided { place, entry })
    }

    /// Logs the decision on a draft's changes, which were judged on its base, and moves to what is admitted. None where
    /// the present state hasn't the tasks and the interrupts of the base, and then nothing changes.
    pub fn enter_tested(
        &mut self,
        alloc: Global,
        draft: &Draft,
        judged: &Judged,
    ) -> Result<Option<Decided>, AllocError>
        requires { IsJudged (on_base draft.now) judged.now }
        ensures entry { IfOk result (λ decided. IfSome decided
            (λ d. IsNextEntry self.old draft.now d.place d.entry.value)) }
        ensures said { IfOk result (λ decided. IfSome decided
            (λ d. IsSaid self.old.desk.version judged.now d.entry.value.decision)) }
        ensures ok { IfOk result (λ decided. IfSome decided
            (λ d. self.new ≡ logged self.old d.entry.value)) }
        ensures other { IfOk result (λ decided. IfNone decided
            (¬ (draft.now.base.node ≡ self.old.desk.node))) }
        ensures none { IfOk result (λ decided. IfNone decided (self.new ≡ self.old)) }
        ensures err { OnErr result (self.new ≡ self.old) }
    {
        if !draft.base().has_same_node(self.state()) {
            return Ok(None);
        }
        match self.enter(alloc, draft, judged) {
            Ok(decided) => Ok(Some(decided)),
            Err(fault) => Err(fault),
        }
    }

    /// Decides on a draft's changes to the present state.
    pub fn test_and_enter(&mut self, alloc: Global, draft: &Draft) -> Result<Decided, AllocError>
        ensures entry { IfOk result (λ d. IsNextEntry self.old draft.now d.place d.entry.value) }
        ensures ok { IfOk result (λ d. self.new ≡ logged self.old d.entry.value) }
        ensures err { OnErr result (self.new ≡ self.old) }
    {
        let judged = judge(alloc, draft, &self.state)?;
        self.enter(alloc, draft, &judged)
    }
}
