//! The slots of drafts.

ghost use Rattle.std.specs.Prelude.{◌≡◌, None, Some, IfOk, IfErr, IsTrue, IsSome, OnOk, OnErr, ◌↔◌};
ghost use Rattle.drafts.specs.Edits.{after_put, after_remove};
ghost use Rattle.desk_core.specs.Advances.{IsAdvancedIn};
ghost use Rattle.desk_core.specs.SlotFields.{IsGrown, slot_of};
ghost use Rattle.desk_core.specs.Slots.{IsEditIn, IsFoundIn, IsCommitIn, IsAbandonIn};
ghost use Rattle.desk_core.specs.Standings.{IsQuestionOf, IsStanding};
ghost use Rattle.desk_core.specs.World.{opened};

use crate::events::{Reply, Standing};
use crate::live::Live;
use crate::trial::Trial;
use assignment::{Finding, Question};
use drafts::{Book, NodeState, Team};
use std::alloc::{AllocError, Global};
use std::marker::Model;
use std::mem;
use std::sync::Arc;
use task_sheet::{Name, Sheet};

/// What a slot holds.
#[derive(Drop)]
pub enum SlotContents {
    /// The draft has ended.
    Nothing,
    /// The draft was opened, and nothing was asked of it yet.
    Opened { team: Team, base: Arc<NodeState> },
    /// The draft lies by itself, so that the slot of one that was only opened is small.
    Grown { live: Box<Live> },
}

/// The slot of a draft: the draft, or none where it has ended.
#[derive(Drop)]
pub struct Slot {
    kept: SlotContents,
}

impl Model for Slot {
    ghost use Rattle.std.specs.Prelude.{Option};
    ghost use Rattle.desk_core.specs.World.{Live, set_codes};

    ghost Value = { Option Live };

    ghost coded = { Prim.hlevel set_codes };

    ghost use Rattle.desk_core.specs.SlotFields.{kept_in};

    ghost view = { kept_in };
}

// Lets a draft that was only opened grow, so that something can be asked of it.
fn grow(alloc: Global, kept: &mut SlotContents) -> Result<(), AllocError>
    ensures same { slot_of kept.new ≡ slot_of kept.old }
    ensures ok { OnOk result (IsGrown kept.new) }
{
    if let SlotContents::Opened { team, base } = kept {
        let live = Box::new(alloc, Live::new(alloc, *team, base.clone()?))?;
        *kept = SlotContents::Grown { live };
    }
    Ok(())
}

impl Slot {
    /// A draft without changes.
    pub fn open(team: Team, base: Arc<NodeState>) -> Slot
        ensures { result ≡ Some (opened team base.value) }
    {
        Slot {
            kept: SlotContents::Opened { team, base },
        }
    }

    /// Whether the draft hasn't ended.
    pub fn is_live(&self) -> bool
        ensures { IsTrue result ↔ IsSome self.now }
    {
        match &self.kept {
            SlotContents::Nothing => false,
            _ => true,
        }
    }

    /// The test of the draft, where it goes on.
    pub fn trial(&self) -> Option<&Trial> {
        match &self.kept {
            SlotContents::Grown { live } => live.trial(),
            _ => None,
        }
    }

    /// Where the draft stands.
    pub fn standing(&mut self, alloc: Global) -> Result<Standing, AllocError>
        ensures same { self.new ≡ self.old }
        ensures ok { IfOk result (IsStanding self.old) }
    {
        grow(alloc, &mut self.kept)?;
        match &mut self.kept {
            SlotContents::Grown { live } => live.standing(alloc),
            SlotContents::Opened { .. } => unreachable!(),
            SlotContents::Nothing => Ok(Standing::NoSuchDraft),
        }
    }

    /// The question on the candidate of a name at the draft's present level.
    pub fn question(&mut self, alloc: Global, name: Name) -> Result<Option<Question>, AllocError>
        ensures same { self.new ≡ self.old }
        ensures ok { IfOk result (IsQuestionOf self.old name) }
    {
        grow(alloc, &mut self.kept)?;
        match &mut self.kept {
            SlotContents::Grown { live } => live.question(alloc, name),
            SlotContents::Opened { .. } => unreachable!(),
            SlotContents::Nothing => Ok(None),
        }
    }

    /// Puts a sheet into the draft.
    pub fn put(&mut self, alloc: Global, sheet: Sheet) -> Result<Reply, Sheet>
        ensures ok { IfOk result (λ r. IsEditIn self.old (λ l. after_put l.draft sheet) r self.new) }
        ensures err { OnErr result (self.new ≡ self.old) }
        ensures back { IfErr result (λ back. back ≡ sheet) }
    {
        if grow(alloc, &mut self.kept).is_err() {
            return Err(sheet);
        }
        match &mut self.kept {
            SlotContents::Grown { live } => live.put(sheet),
            SlotContents::Opened { .. } => unreachable!(),
            SlotContents::Nothing => Ok(Reply::no_such_draft()),
        }
    }

    /// Removes a task in the draft.
    pub fn remove(&mut self, alloc: Global, name: Name) -> Result<Reply, AllocError>
        ensures ok { IfOk result
            (λ r. IsEditIn self.old (λ l. after_remove l.draft name) r self.new) }
        ensures err { OnErr result (self.new ≡ self.old) }
    {
        grow(alloc, &mut self.kept)?;
        match &mut self.kept {
            SlotContents::Grown { live } => live.remove(name),
            SlotContents::Opened { .. } => unreachable!(),
            SlotContents::Nothing => Ok(Reply::no_such_draft()),
        }
    }

    /// Brings a finding to the draft.
    pub fn take(&mut self, alloc: Global, finding: Finding) -> Result<Reply, Finding>
        ensures ok { IfOk result (λ r. IsFoundIn self.old finding.question r self.new) }
        ensures err { OnErr result (self.new ≡ self.old) }
        ensures back { IfErr result (λ back. back ≡ finding) }
    {
        if grow(alloc, &mut self.kept).is_err() {
            return Err(finding);
        }
        match &mut self.kept {
            SlotContents::Grown { live } => live.take(alloc, finding),
            SlotContents::Opened { .. } => unreachable!(),
            SlotContents::Nothing => Ok(Reply::no_such_draft()),
        }
    }

    /// Answers the question that the draft asks, and brings it the finding. None where it asks none.
    pub fn advance(&mut self, alloc: Global) -> Result<Option<Reply>, AllocError>
        ensures ok { IfOk result (IsAdvancedIn self.old self.new) }
        ensures err { OnErr result (self.new ≡ self.old) }
    {
        grow(alloc, &mut self.kept)?;
        match &mut self.kept {
            SlotContents::Grown { live } => live.advance(alloc),
            SlotContents::Opened { .. } => unreachable!(),
            SlotContents::Nothing => Ok(None),
        }
    }

    /// Ends the draft.
    pub fn abandon(&mut self) -> Reply
        ensures ok { IsAbandonIn self.old result self.new }
        ensures gone { self.new ≡ None }
    {
        match mem::replace(&mut self.kept, SlotContents::Nothing) {
            SlotContents::Nothing => Reply::no_such_draft(),
            _ => Reply::Done,
        }
    }

    /// Commits the draft: one that is tested on a state before the present one goes to the present one; one that is tested
    /// on the present one ends with what its test came to; any other is tested on the present state and ends.
    pub fn commit(&mut self, alloc: Global, book: &mut Book) -> Result<Reply, AllocError>
        ensures ok { IfOk result (λ r. IsCommitIn book.old self.old r book.new self.new) }
        ensures err_book { OnErr result (book.new ≡ book.old) }
        ensures err_slot { OnErr result (self.new ≡ self.old) }
    {
        grow(alloc, &mut self.kept)?;
        let live = match &mut self.kept {
            SlotContents::Grown { live } => live,
            SlotContents::Opened { .. } => unreachable!(),
            SlotContents::Nothing => return Ok(Reply::no_such_draft()),
        };
        let decided = if live.is_tested(alloc)? {
            let version = book.state().version();
            if live.draft().base_version() < version {
                live.rebase(book.snapshot()?);
                return Ok(Reply::Stale { version });
            }
            live.enter(alloc, book)?
        } else {
            None
        };
        let decided = match decided {
            Some(decided) => decided,
            None => book.test_and_enter(alloc, live.draft())?,
        };
        self.kept = SlotContents::Nothing;
        Ok(Reply::Decided {
            place: decided.place,
            entry: decided.entry,
        })
    }
}
