//! The core: the book, and the drafts by number.

ghost use Rattle.std.specs.Prelude.{◌≡◌, ◌<◌, ◌+◌, None, IfOk, IfErr, OnErr, IsSome, MatchOption, length, slice_index_or};
ghost use Rattle.desk_core.specs.declared.events.Event.TheVariants.{Open, Put, Remove, Found, Commit, Abandon};
ghost use Rattle.desk_core.specs.World.{live_at, start, Happens, IsRun};
ghost use Rattle.desk_core.specs.Advances.{IsAdvanced};
ghost use Rattle.desk_core.specs.Standings.{IsQuestionOf, IsStanding};
ghost use Rattle.drafts.specs.Books.{IsLegalBook};

use crate::events::{Event, Reply, Standing};
use crate::slot::Slot;
use assignment::{AnswerFault, Finding, Question};
use drafts::{Book, Team};
use std::alloc::{AllocError, Global};
use std::marker::Model;
use task_sheet::{Name, Sheet};

/// The book, and the drafts by number, from 1.
#[derive(Drop)]
pub struct Core {
    book: Book,
    drafts: Vec<Slot>,
}

impl Model for Core {
    ghost use Rattle.desk_core.specs.World.{World, set_codes};

    ghost Value = { World };

    ghost coded = { Prim.hlevel set_codes };

    ghost view = { λ c. record { book = c.book; drafts = c.drafts.items } };
}

/// Memory ran out; the event is handed back, and the core is as it was.
#[derive(Drop)]
pub struct StepFault {
    pub event: Event,
}

// The place of a draft that is live.
fn place_of(drafts: &[Slot], number: usize) -> Option<usize>
    ensures { MatchOption result (live_at drafts.now number ≡ None)
        (λ i. (i + 1 ≡ number) × (i < length drafts.now)
        × (live_at drafts.now number ≡ slice_index_or drafts.now i None)
        × IsSome (live_at drafts.now number)) }
{
    if number == 0 {
        return None;
    }
    let i = number - 1;
    if i < drafts.len() && drafts[i].is_live() {
        Some(i)
    } else {
        None
    }
}

impl Core {
    /// A core without drafts over an empty book.
    pub fn new(alloc: Global) -> Result<Core, AllocError>
        ensures { IfOk result (λ core. core ≡ start) }
    {
        Ok(Core {
            book: Book::new(alloc)?,
            drafts: Vec::new(alloc),
        })
    }

    /// The book.
    pub fn book(&self) -> &Book
        ensures { result.now ≡ self.now.book }
    {
        &self.book
    }

    // A draft on the present state.
    fn open(&mut self, team: Team) -> Result<Reply, AllocError>
        ensures ok { IfOk result (λ r. Happens self.old (Open team) r self.new) }
        ensures err { OnErr result (self.new ≡ self.old) }
    {
        let version = self.book.state().version();
        let base = self.book.snapshot()?;
        match self.drafts.push(Slot::open(team, base)) {
            Ok(()) => Ok(Reply::Opened {
                draft: self.drafts.len(),
                version,
            }),
            Err(_) => Err(AllocError),
        }
    }

    // A sheet put into a draft.
    fn put(&mut self, alloc: Global, draft: usize, sheet: Sheet) -> Result<Reply, Sheet>
        ensures ok { IfOk result (λ r. Happens self.old (Put draft sheet) r self.new) }
        ensures err { OnErr result (self.new ≡ self.old) }
        ensures back { IfErr result (λ back. back ≡ sheet) }
    {
        match place_of(&self.drafts, draft) {
            None => Ok(Reply::no_such_draft()),
            Some(i) => self.drafts[i].put(alloc, sheet),
        }
    }

    // A task removed in a draft.
    fn remove(&mut self, alloc: Global, draft: usize, name: Name) -> Result<Reply, AllocError>
        ensures ok { IfOk result (λ r. Happens self.old (Remove draft name) r self.new) }
        ensures err { OnErr result (self.new ≡ self.old) }
    {
        match place_of(&self.drafts, draft) {
            None => Ok(Reply::no_such_draft()),
            Some(i) => self.drafts[i].remove(alloc, name),
        }
    }

    // A finding brought to a draft.
    fn found(&mut self, alloc: Global, draft: usize, finding: Finding) -> Result<Reply, Finding>
        ensures ok { IfOk result (λ r. Happens self.old (Found draft finding) r self.new) }
        ensures err { OnErr result (self.new ≡ self.old) }
        ensures back { IfErr result (λ back. back ≡ finding) }
    {
        match place_of(&self.drafts, draft) {
            None => Ok(Reply::no_such_draft()),
            Some(i) => self.drafts[i].take(alloc, finding),
        }
    }

    // A commit.
    fn commit(&mut self, alloc: Global, draft: usize) -> Result<Reply, AllocError>
        ensures ok { IfOk result (λ r. Happens self.old (Commit draft) r self.new) }
        ensures err { OnErr result (self.new ≡ self.old) }
    {
        match place_of(&self.drafts, draft) {
            None => Ok(Reply::no_such_draft()),
            Some(i) => self.drafts[i].commit(alloc, &mut self.book),
        }
    }

    // A draft ended without a decision.
    fn abandon(&mut self, draft: usize) -> Reply
        ensures { Happens self.old (Abandon draft) result self.new }
    {
        match place_of(&self.drafts, draft) {
            None => Reply::no_such_draft(),
            Some(i) => self.drafts[i].abandon(),
        }
    }

    /// Where a draft stands. The first question begins its test.
    pub fn standing(&mut self, alloc: Global, draft: usize) -> Result<Standing, AllocError>
        ensures same { self.new ≡ self.old }
        ensures ok { IfOk result (IsStanding (live_at self.old.drafts draft)) }
    {
        match place_of(&self.drafts, draft) {
            None => Ok(Standing::NoSuchDraft),
            Some(i) => self.drafts[i].standing(alloc),
        }
    }

    /// The question on the candidate of a name at a draft's present level: none where no candidate has the name, or the
    /// draft has no present level. The first question begins the draft's test.
    pub fn question(
        &mut self,
        alloc: Global,
        draft: usize,
        name: Name,
    ) -> Result<Option<Question>, AllocError>
        ensures same { self.new ≡ self.old }
        ensures ok { IfOk result (IsQuestionOf (live_at self.old.drafts draft) name) }
    {
        match place_of(&self.drafts, draft) {
            None => Ok(None),
            Some(i) => self.drafts[i].question(alloc, name),
        }
    }

    /// The answer to a question, by the lock table of a draft's test where the question is on its set. The fault is
    /// out of memory.
    pub fn answer(
        &self,
        alloc: Global,
        draft: usize,
        question: Question,
    ) -> Result<Finding, AnswerFault>
        ensures ok { IfOk result (λ finding. finding.question ≡ question) }
        ensures err { IfErr result (λ fault. fault.question ≡ question) }
    {
        match place_of(&self.drafts, draft) {
            None => question.answer(alloc),
            Some(i) => match self.drafts[i].trial() {
                Some(trial) => trial.answer(alloc, question),
                None => question.answer(alloc),
            },
        }
    }

    /// Answers the question that a draft's standing asks, and brings it the finding, as an event does: the reply. None
    /// where it asks none. The finding is known to answer the draft's own question, so no sets are compared. The error
    /// is out of memory, which leaves the core as it was.
    pub fn advance(&mut self, alloc: Global, draft: usize) -> Result<Option<Reply>, AllocError>
        ensures ok { IfOk result (IsAdvanced self.old draft self.new) }
        ensures err { OnErr result (self.new ≡ self.old) }
    {
        match place_of(&self.drafts, draft) {
            None => Ok(None),
            Some(i) => self.drafts[i].advance(alloc),
        }
    }

    /// Answers one event.
    pub fn step(&mut self, alloc: Global, event: Event) -> Result<Reply, StepFault>
        ensures ok { IfOk result (λ r. Happens self.old event r self.new) }
        ensures err { OnErr result (self.new ≡ self.old) }
        ensures back { IfErr result (λ fault. fault.event ≡ event) }
    {
        match event {
            Event::Open { team } => match self.open(team) {
                Ok(reply) => Ok(reply),
                Err(_) => Err(StepFault {
                    event: Event::Open { team },
                }),
            },
            Event::Put { draft, sheet } => match self.put(alloc, draft, sheet) {
                Ok(reply) => Ok(reply),
                Err(sheet) => Err(StepFault {
                    event: Event::Put { draft, sheet },
                }),
            },
            Event::Remove { draft, name } => match self.remove(alloc, draft, name) {
                Ok(reply) => Ok(reply),
                Err(_) => Err(StepFault {
                    event: Event::Remove { draft, name },
                }),
            },
            Event::Found { draft, finding } => match self.found(alloc, draft, finding) {
                Ok(reply) => Ok(reply),
                Err(finding) => Err(StepFault {
                    event: Event::Found { draft, finding },
                }),
            },
            Event::Commit { draft } => match self.commit(alloc, draft) {
                Ok(reply) => Ok(reply),
                Err(_) => Err(StepFault {
                    event: Event::Commit { draft },
                }),
            },
            Event::Abandon { draft } => Ok(self.abandon(draft)),
        }
    }
}

/// Answers events in their order, from an empty book on.
pub fn run(alloc: Global, events: Vec<Event>) -> Result<(Core, Vec<Reply>), AllocError>
    ensures run { IfOk result (λ r. IsRun start events.items r.1.items r.0) }
    ensures legal { IfOk result (λ r. IsLegalBook r.0.book) }
{
    let mut core = Core::new(alloc)?;
    let mut replies = Vec::new(alloc);
    for event in events {
        let Ok(reply) = core.step(alloc, event) else {
            return Err(AllocError);
        };
        replies.push(reply)?;
    }
    // The book is legal: the proof has it from its state.
    let _ = core.book().state();
    Ok((core, replies))
}
