//! Drafts that haven't ended.

ghost use Rattle.std.specs.Prelude.{◌≡◌, ◌↔◌, [], Some, IfOk, IfErr, IfSome, IfNone, IsTrue, OnErr, ◌≤◌, List, Result, length, vec_capacity};
ghost use Rattle.drafts.specs.Applied.{OnNode};
ghost use Rattle.drafts.specs.Books.{logged, IsNextEntry};
ghost use Rattle.drafts.specs.Edits.{after_put, after_remove, on_base};
ghost use Rattle.desk_core.specs.Advances.{IsAdvancedIn, IsAdvancedOn};
ghost use Rattle.desk_core.specs.Brought.{IsTelling};
ghost use Rattle.desk_core.specs.declared.told.Told.{Told};
ghost use Rattle.desk_core.specs.World.{opened, rebased, IsEdited, IsToldReply, IsFound, IsBroughtTo, IsTestedDraft};
ghost use Rattle.desk_core.specs.Standings.{IsQuestionOn, IsStandingOn};
ghost use Rattle.desk_core.specs.Stages.{IsStage, IsTrialOn, found_of};
ghost use Rattle.drafts.specs.declared.change.Refusal.{Refusal};

use crate::events::{Cause, Reply, Standing};
use crate::stage::{Stage, begin, enter, is_tested, put_away, question, standing};
use crate::told::Told;
use crate::trial::Trial;
use assignment::{Finding, Question};
use drafts::{Book, Decided, Draft, EditCause, NodeState, PutFault, Team};
use std::alloc::{AllocError, Global};
use std::marker::Model;
use std::sync::Arc;
use task_sheet::{Name, Sheet};

/// A draft that hasn't ended, and how far its test has come.
#[derive(Drop)]
pub struct Live {
    draft: Draft,
    stage: Stage,
}

impl Model for Live {
    ghost use Rattle.desk_core.specs.World.{Live, set_codes};

    ghost Value = { Live };

    ghost coded = { Prim.hlevel set_codes };

    ghost use Rattle.desk_core.specs.LiveFields.{live_of, IsLiveKept};

    ghost view = { live_of };

    ghost invariant = { IsLiveKept };
}

// What the core answers to a finding that a trial has answered.
fn reply_to(trial: &Trial, told: Told, names: Vec<Name>) -> Reply
    requires told { IsTelling trial.now told }
    requires empty { names.items ≡ [] }
    requires room { length trial.now.set ≤ vec_capacity names }
    ensures { IsToldReply trial.now.set told result }
{
    match told {
        Told::Stranger => Reply::Refused {
            cause: Cause::Stranger,
        },
        Told::Twice => Reply::Refused {
            cause: Cause::Twice,
        },
        Told::Taken => Reply::Taken,
        Told::LevelDone {
            level,
            task,
            response,
        } => match trial.set().get(task) {
            Some(sheet) => Reply::LevelDone {
                level,
                name: sheet.name(),
                response,
            },
            None => unreachable!(),
        },
        Told::Tested => Reply::Tested {
            infeasible: trial.infeasible(names),
        },
    }
}

// Brings a finding to a trial.
fn bring(alloc: Global, trial: &mut Trial, finding: Finding) -> Result<Reply, Finding>
    ensures brought { (outcome : Result OnNode Refusal) → IsTrialOn outcome trial.old
        → IfOk result (λ r. IsFound outcome trial.old.found finding.question r trial.new.found) }
    ensures same { trial.new.set ≡ trial.old.set }
    ensures err { OnErr result (trial.new ≡ trial.old) }
    ensures back { IfErr result (λ back. back ≡ finding) }
{
    let Ok(names) = Vec::with_capacity(alloc, trial.set().len()) else {
        return Err(finding);
    };
    let told = trial.take(alloc, finding)?;
    Ok(reply_to(trial, told, names))
}

// Brings a finding to the test of a draft.
fn bring_to(
    alloc: Global,
    draft: &Draft,
    stage: &mut Stage,
    finding: Finding,
) -> Result<Reply, Finding>
    requires { IsStage (on_base draft.now) stage.old }
    ensures kept { IsStage (on_base draft.now) stage.new }
    ensures found { let outcome = on_base draft.now in let found = found_of stage.old in
        IfOk result (λ r. IsFound outcome found finding.question r (found_of stage.new)) }
    ensures err { OnErr result (found_of stage.new ≡ found_of stage.old) }
    ensures back { IfErr result (λ back. back ≡ finding) }
{
    match begin(alloc, draft, stage) {
        Ok(true) => {}
        Ok(false) => {
            let cause = Cause::Untestable;
            return Ok(Reply::Refused { cause });
        }
        Err(_) => return Err(finding),
    }
    match stage {
        Stage::Fresh => unreachable!(),
        Stage::Trying { trial } => bring(alloc, trial, finding),
        Stage::Tested { .. } => Ok(Reply::Refused {
            cause: Cause::Stranger,
        }),
    }
}

// Brings a trial the finding on its next question.
fn advance(alloc: Global, trial: &mut Trial) -> Result<Option<Reply>, AllocError>
    ensures ok { (outcome : Result OnNode Refusal) → IsTrialOn outcome trial.old
        → IfOk result (IsAdvancedOn outcome trial.old.found trial.new.found) }
    ensures same { trial.new.set ≡ trial.old.set }
    ensures err { OnErr result (trial.new ≡ trial.old) }
{
    let names = Vec::with_capacity(alloc, trial.set().len())?;
    match trial.advance(alloc)? {
        Some(told) => Ok(Some(reply_to(trial, told, names))),
        None => Ok(None),
    }
}

// Brings the test of a draft the finding on its next question.
fn advance_to(alloc: Global, draft: &Draft, stage: &mut Stage) -> Result<Option<Reply>, AllocError>
    requires { IsStage (on_base draft.now) stage.old }
    ensures kept { IsStage (on_base draft.now) stage.new }
    ensures ok { IfOk result
        (IsAdvancedOn (on_base draft.now) (found_of stage.old) (found_of stage.new)) }
    ensures err { OnErr result (found_of stage.new ≡ found_of stage.old) }
{
    if !begin(alloc, draft, stage)? {
        return Ok(None);
    }
    match stage {
        Stage::Fresh => unreachable!(),
        Stage::Trying { trial } => advance(alloc, trial),
        Stage::Tested { .. } => Ok(None),
    }
}

impl Live {
    /// A draft without changes.
    pub fn new(alloc: Global, team: Team, base: Arc<NodeState>) -> Live
        ensures { result ≡ opened team base.value }
    {
        Live {
            draft: Draft::new(alloc, team, base),
            stage: Stage::Fresh,
        }
    }

    /// The draft.
    pub fn draft(&self) -> &Draft
        ensures { result.now ≡ self.now.draft }
    {
        &self.draft
    }

    /// Puts a sheet. Where memory runs out, it is handed back.
    pub fn put(&mut self, sheet: Sheet) -> Result<Reply, Sheet>
        ensures ok { IfOk result
            (λ r. IsEdited self.old (after_put self.old.draft sheet) r self.new) }
        ensures err { OnErr result (self.new ≡ self.old) }
        ensures back { IfErr result (λ back. back ≡ sheet) }
    {
        match self.draft.put(sheet) {
            Ok(()) => {
                self.stage = Stage::Fresh;
                Ok(Reply::Done)
            }
            Err(
                PutFault {
                    cause: EditCause::Refused { refusal },
                    sheet: _,
                },
            ) => Ok(Reply::Refused {
                cause: Cause::of_edit(refusal),
            }),
            Err(
                PutFault {
                    cause: EditCause::OutOfMemory,
                    sheet,
                },
            ) => Err(sheet),
        }
    }

    /// Removes the task of a name.
    pub fn remove(&mut self, name: Name) -> Result<Reply, AllocError>
        ensures ok { IfOk result
            (λ r. IsEdited self.old (after_remove self.old.draft name) r self.new) }
        ensures err { OnErr result (self.new ≡ self.old) }
    {
        match self.draft.remove(name) {
            Ok(()) => {
                self.stage = Stage::Fresh;
                Ok(Reply::Done)
            }
            Err(EditCause::Refused { refusal }) => Ok(Reply::Refused {
                cause: Cause::of_edit(refusal),
            }),
            Err(EditCause::OutOfMemory) => Err(AllocError),
        }
    }

    /// Puts the draft on another state, without findings.
    pub fn rebase(&mut self, fresh: Arc<NodeState>)
        ensures { self.new ≡ rebased self.old fresh.value }
    {
        self.draft.move_to(fresh);
        self.stage = Stage::Fresh;
    }

    /// Brings a finding. Where memory runs out, it is handed back.
    pub fn take(&mut self, alloc: Global, finding: Finding) -> Result<Reply, Finding>
        ensures ok { IfOk result (λ r. IsBroughtTo self.old finding.question r self.new) }
        ensures err { OnErr result (self.new ≡ self.old) }
        ensures back { IfErr result (λ back. back ≡ finding) }
    {
        let reply = bring_to(alloc, &self.draft, &mut self.stage, finding)?;
        put_away(&mut self.stage);
        Ok(reply)
    }

    /// Answers the question that the draft asks, and brings it the finding. None where it asks none.
    pub fn advance(&mut self, alloc: Global) -> Result<Option<Reply>, AllocError>
        ensures ok { IfOk result (IsAdvancedIn (Some self.old) (Some self.new)) }
        ensures err { OnErr result (self.new ≡ self.old) }
    {
        let reply = advance_to(alloc, &self.draft, &mut self.stage)?;
        put_away(&mut self.stage);
        Ok(reply)
    }

    /// Whether the findings complete the verdict.
    pub fn is_tested(&mut self, alloc: Global) -> Result<bool, AllocError>
        ensures same { self.new ≡ self.old }
        ensures ok { IfOk result (λ tested. IsTrue tested ↔ IsTestedDraft self.old) }
    {
        is_tested(alloc, &self.draft, &mut self.stage)
    }

    /// Enters into the book what the complete test came to. None where the book's present state hasn't the tasks and the
    /// interrupts of the base.
    pub fn enter(&mut self, alloc: Global, book: &mut Book) -> Result<Option<Decided>, AllocError>
        requires { IsTestedDraft self.old }
        ensures same { self.new ≡ self.old }
        ensures entry { IfOk result (λ decided. IfSome decided
            (λ d. IsNextEntry book.old self.old.draft d.place d.entry.value)) }
        ensures ok { IfOk result (λ decided. IfSome decided
            (λ d. book.new ≡ logged book.old d.entry.value)) }
        ensures other { IfOk result (λ decided. IfNone decided
            (¬ (self.old.draft.base.node ≡ book.old.desk.node))) }
        ensures none { IfOk result (λ decided. IfNone decided (book.new ≡ book.old)) }
        ensures err { OnErr result (book.new ≡ book.old) }
    {
        enter(alloc, &self.draft, &mut self.stage, book)
    }

    /// Where the draft stands.
    pub fn standing(&mut self, alloc: Global) -> Result<Standing, AllocError>
        ensures same { self.new ≡ self.old }
        ensures ok { IfOk result (IsStandingOn (on_base self.old.draft) self.old.found) }
    {
        standing(alloc, &self.draft, &mut self.stage)
    }

    /// The question on the candidate of a name at the present level.
    pub fn question(&mut self, alloc: Global, name: Name) -> Result<Option<Question>, AllocError>
        ensures same { self.new ≡ self.old }
        ensures ok { IfOk result (IsQuestionOn (on_base self.old.draft) self.old.found name) }
    {
        question(alloc, &self.draft, &mut self.stage, name)
    }

    /// The test of the draft, where it goes on.
    pub fn trial(&self) -> Option<&Trial> {
        match &self.stage {
            Stage::Trying { trial } => Some(trial),
            _ => None,
        }
    }
}
