//! How far the test of a draft has come.

ghost use Rattle.std.specs.Prelude.{◌≡◌, ◌↔◌, true, IfOk, IfSome, IfNone, OnErr, IsTrue, List, Result};
ghost use Rattle.task_sheet.specs.Sheet.{Task};
ghost use Rattle.drafts.specs.Applied.{OnNode};
ghost use Rattle.drafts.specs.Books.{logged, IsNextEntry};
ghost use Rattle.drafts.specs.declared.change.Refusal.{Refusal};
ghost use Rattle.drafts.specs.Edits.{on_base};
ghost use Rattle.drafts.specs.Outcomes.{IsJudgedSet};
ghost use Rattle.desk_core.specs.Findings.{IsTested};
ghost use Rattle.desk_core.specs.Stages.{found_of, is_begun, IsStage, IsBegun, IsComplete, IsTrialOf};
ghost use Rattle.desk_core.specs.declared.stage.Stage.TheVariants.{Trying};
ghost use Rattle.desk_core.specs.Standings.{IsQuestionOn, IsStandingOn, IsTrying};
ghost use Rattle.desk_core.specs.World.{IsShown, IsTestedOn};

use crate::events::Standing;
use crate::notes::Notes;
use crate::trial::{Trial, list_names};
use assignment::Question;
use drafts::{Applied, Book, Decided, Draft, Judged};
use std::alloc::{AllocError, Global};
use std::mem;
use task_sheet::Name;

/// How far the test of a draft's changes on its base has come.
#[derive(Drop)]
pub enum Stage {
    /// No finding was brought yet.
    Fresh,
    /// Findings were brought. The trial lies by itself, so that a draft without one is small.
    Trying { trial: Box<Trial> },
    /// The findings have completed the verdict: what was judged is kept.
    Tested { judged: Judged, found: Notes },
}

// A trial of what a draft's changes come to on its base, where they apply.
fn try_out(alloc: Global, draft: &Draft) -> Result<Option<Trial>, AllocError>
    ensures { IfOk result (λ trial. IsTrialOf (on_base draft.now) trial) }
{
    match draft.applied(alloc)? {
        Applied::Refused { refusal: _ } => Ok(None),
        Applied::Tasks { set } => Ok(Some(Trial::begin(alloc, set)?)),
    }
}

/// Begins the test where it isn't begun yet. False where the changes don't apply.
pub fn begin(alloc: Global, draft: &Draft, stage: &mut Stage) -> Result<bool, AllocError>
    requires { IsStage (on_base draft.now) stage.old }
    ensures kept { IsStage (on_base draft.now) stage.new }
    ensures found { found_of stage.new ≡ found_of stage.old }
    ensures ok { IfOk result (λ applies. IsBegun (on_base draft.now) stage.new applies) }
{
    match stage {
        Stage::Fresh => match try_out(alloc, draft)? {
            None => Ok(false),
            Some(trial) => match Box::new(alloc, trial) {
                Ok(trial) => {
                    *stage = Stage::Trying { trial };
                    Ok(true)
                }
                Err(_) => Err(AllocError),
            },
        },
        _ => Ok(true),
    }
}

// What a trial comes to.
fn rest_of(trial: Box<Trial>) -> Stage
    ensures kept { (outcome : Result OnNode Refusal) → IsStage outcome (Trying trial)
        → IsStage outcome result }
    ensures found { found_of result ≡ trial.value.found }
    ensures complete { IsTested trial.value.set trial.value.found → IsComplete result }
{
    if !trial.is_tested() {
        return Stage::Trying { trial };
    }
    let (judged, found) = Box::into_inner(trial).finish();
    Stage::Tested { judged, found }
}

/// Keeps of a complete test what was judged, and the findings.
pub fn put_away(stage: &mut Stage)
    ensures kept { (outcome : Result OnNode Refusal) → IsStage outcome stage.old
        → IsStage outcome stage.new }
    ensures found { found_of stage.new ≡ found_of stage.old }
    ensures complete { (outcome : Result OnNode Refusal) → IsStage outcome stage.old
        → is_begun stage.old ≡ true → IsTestedOn outcome (found_of stage.old)
        → IsComplete stage.new }
{
    match mem::replace(stage, Stage::Fresh) {
        Stage::Trying { trial } => *stage = rest_of(trial),
        other => *stage = other,
    }
}

/// Enters into the book what a complete test came to. None where the book's present state hasn't the tasks and the
/// interrupts of the base.
pub fn enter(
    alloc: Global,
    draft: &Draft,
    stage: &mut Stage,
    book: &mut Book,
) -> Result<Option<Decided>, AllocError>
    requires kept { IsStage (on_base draft.now) stage.old }
    requires tested { IsTestedOn (on_base draft.now) (found_of stage.old) }
    ensures kept { IsStage (on_base draft.now) stage.new }
    ensures found { found_of stage.new ≡ found_of stage.old }
    ensures entry { IfOk result (λ decided. IfSome decided
        (λ d. IsNextEntry book.old draft.now d.place d.entry.value)) }
    ensures ok { IfOk result (λ decided. IfSome decided
        (λ d. book.new ≡ logged book.old d.entry.value)) }
    ensures other { IfOk result (λ decided. IfNone decided
        (¬ (draft.now.base.node ≡ book.old.desk.node))) }
    ensures none { IfOk result (λ decided. IfNone decided (book.new ≡ book.old)) }
    ensures err { OnErr result (book.new ≡ book.old) }
{
    if !begin(alloc, draft, stage)? {
        unreachable!();
    }
    put_away(stage);
    match stage {
        Stage::Tested { judged, .. } => book.enter_tested(alloc, draft, judged),
        _ => unreachable!(),
    }
}

// Whether a draft has no finding, and a task that asks for one. That its test isn't complete is known then, and it need
// not begin.
fn is_surely_untested(draft: &Draft, stage: &Stage) -> bool
    ensures { IsTrue result → ¬ IsTestedOn (on_base draft.now) (found_of stage.now) }
{
    match stage {
        Stage::Fresh => draft.has_put(),
        _ => false,
    }
}

/// Whether the findings complete the verdict on a draft's changes.
pub fn is_tested(alloc: Global, draft: &Draft, stage: &mut Stage) -> Result<bool, AllocError>
    requires { IsStage (on_base draft.now) stage.old }
    ensures kept { IsStage (on_base draft.now) stage.new }
    ensures found { found_of stage.new ≡ found_of stage.old }
    ensures ok { IfOk result
        (λ tested. IsTrue tested ↔ IsTestedOn (on_base draft.now) (found_of stage.old)) }
{
    if is_surely_untested(draft, stage) || !begin(alloc, draft, stage)? {
        return Ok(false);
    }
    match stage {
        Stage::Fresh => unreachable!(),
        Stage::Trying { trial } => Ok(trial.is_tested()),
        Stage::Tested { .. } => Ok(true),
    }
}

// Where a draft stands whose changes apply.
fn trying(alloc: Global, trial: &Trial) -> Result<Standing, AllocError>
    ensures { IfOk result (IsTrying trial.now.set trial.now.found) }
{
    match trial.asking()? {
        Some(question) => Ok(Standing::Asking { question }),
        None => {
            let room = Vec::with_capacity(alloc, trial.set().len())?;
            let infeasible = trial.infeasible(room);
            Ok(Standing::Tested { infeasible })
        }
    }
}

// The names that what was judged of a set shows.
fn shown_by(alloc: Global, judged: &Judged) -> Result<Vec<Name>, AllocError>
    ensures { (U : List Task) → IsJudgedSet U judged.now
        → IfOk result (λ names. IsShown U names.items) }
{
    match judged {
        Judged::Stuck { stuck } => {
            // The set is valid: the proof has it from its sheets.
            let _ = stuck.set().sheets();
            let room = Vec::with_capacity(alloc, stuck.set().len())?;
            Ok(list_names(stuck.set(), stuck.members(), room))
        }
        _ => Ok(Vec::new(alloc)),
    }
}

/// Where a draft stands.
pub fn standing(alloc: Global, draft: &Draft, stage: &mut Stage) -> Result<Standing, AllocError>
    requires { IsStage (on_base draft.now) stage.old }
    ensures kept { IsStage (on_base draft.now) stage.new }
    ensures found { found_of stage.new ≡ found_of stage.old }
    ensures ok { IfOk result (IsStandingOn (on_base draft.now) (found_of stage.old)) }
{
    if !begin(alloc, draft, stage)? {
        return Ok(Standing::Untestable);
    }
    match &*stage {
        Stage::Fresh => unreachable!(),
        Stage::Trying { trial } => trying(alloc, trial),
        Stage::Tested { judged, .. } => {
            let infeasible = shown_by(alloc, judged)?;
            Ok(Standing::Tested { infeasible })
        }
    }
}

/// The question on the candidate of a name at a draft's present level.
pub fn question(
    alloc: Global,
    draft: &Draft,
    stage: &mut Stage,
    name: Name,
) -> Result<Option<Question>, AllocError>
    requires { IsStage (on_base draft.now) stage.old }
    ensures kept { IsStage (on_base draft.now) stage.new }
    ensures found { found_of stage.new ≡ found_of stage.old }
    ensures ok { IfOk result (IsQuestionOn (on_base draft.now) (found_of stage.old) name) }
{
    if !begin(alloc, draft, stage)? {
        return Ok(None);
    }
    match stage {
        Stage::Fresh => unreachable!(),
        Stage::Trying { trial } => trial.question(name),
        Stage::Tested { .. } => Ok(None),
    }
}
