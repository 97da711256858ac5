//! Questions whether a task may stand, and findings on them.
ghost use Rattle.std.specs.Prelude.{◌≡◌, ◌↔◌, ◌<◌, length, IsTrue, IsFalse, IfOk, IfErr, IfSome, IfNone};
ghost use Rattle.task_sheet.specs.Indexes.{indexes_of, IsPart};
ghost use Rattle.task_sheet.specs.Orders.{all_of, must_outrank_any, Stands};
ghost use Rattle.task_sheet.specs.Verdicts.{IsLeastOver};
ghost use Rattle.task_sheet.specs.SetCodes.{set_codes};
ghost use Rattle.ceilings.specs.IsTableOf.{IsTableOf};
ghost use Rattle.assignment.specs.Questions.{IsQuestion, IsRight, QuestionData, FindingData};

use crate::outcome::{Outcome, Reason, least_over, must_outrank_any, unbound_outcome};
use ceilings::{LockTable, Tabled};
use response_time::respond;
use std::alloc::{AllocError, Global};
use std::marker::Model;
use std::sync::Arc;
use task_sheet::{Members, TaskSet};

/// Whether a task of a set may stand with some other tasks of the set above it: it passes, and need not stand above
/// any of them.
#[derive(Drop)]
pub struct Question {
    set: Arc<TaskSet>,
    above: Members,
    task: usize,
}

impl Model for Question {
    ghost Value = { QuestionData };

    ghost coded = { Prim.hlevel set_codes };

    ghost view = { λ q. record { set = q.set.value; above = q.above; task = q.task } };

    ghost invariant = { λ q. IsQuestion
        (record { set = q.set.value; above = q.above; task = q.task }) };
}

/// A question with its answer: the response in microseconds, or the reason why the task may not stand there: the full
/// chain that shows that there is no response within the deadline (Audsley et al. 1993), or a task above it above which
/// it must stand.
#[derive(Drop)]
pub struct Finding {
    question: Question,
    answer: Outcome,
}

impl Model for Finding {
    ghost Value = { FindingData };

    ghost coded = { Prim.hlevel set_codes };

    ghost view = { λ f. record { question = f.question; answer = f.answer } };

    ghost invariant = { λ f. IsRight f.question f.answer };
}

/// Memory ran out; the question is handed back.
#[derive(Drop)]
pub struct AnswerFault {
    pub question: Question,
}

impl Question {
    /// The question on a task, by its index, with some tasks above it.
    pub fn new(set: Arc<TaskSet>, above: Members, task: usize) -> Question
        requires task { task < length set.value }
        requires above { IsPart (indexes_of above) (all_of set.value) }
        requires apart { IsFalse (indexes_of above task) }
        ensures { result ≡ record { set = set.value; above = above; task = task } }
    {
        Question { set, above, task }
    }

    /// The set of the task.
    pub fn set(&self) -> &TaskSet
        ensures { result.now ≡ self.now.set }
    {
        &self.set
    }

    /// The tasks above it.
    pub fn above(&self) -> Members
        ensures same { result ≡ self.now.above }
        ensures kept { IsQuestion self.now }
    {
        self.above
    }

    /// The task's index.
    pub fn task(&self) -> usize
        ensures same { result ≡ self.now.task }
        ensures kept { IsQuestion self.now }
    {
        self.task
    }

    /// The answer to the question. The fault is out of memory.
    pub fn answer(self, alloc: Global) -> Result<Finding, AnswerFault>
        ensures ok { IfOk result (λ finding. finding.question ≡ self) }
        ensures err { IfErr result (λ fault. fault.question ≡ self) }
    {
        let Ok(table) = LockTable::new(alloc, &self.set) else {
            return Err(AnswerFault { question: self });
        };
        self.answer_by(alloc, &table)
    }

    /// The answer to the question, by the table of its set's locks. The fault is out of memory.
    pub fn answer_by(self, alloc: Global, table: &LockTable) -> Result<Finding, AnswerFault>
        requires { IsTableOf self.set table.now }
        ensures ok { IfOk result (λ finding. finding.question ≡ self) }
        ensures err { IfErr result (λ fault. fault.question ≡ self) }
    {
        match answer_to(alloc, &self, table) {
            Ok(answer) => Ok(Finding {
                question: self,
                answer,
            }),
            Err(_) => Err(AnswerFault { question: self }),
        }
    }
}

// The task of least rank above that of a question that it must outrank.
fn over(question: &Question, table: &LockTable) -> Option<usize>
    requires { IsTableOf question.now.set table.now }
    ensures none { IfNone result
        (IsFalse (must_outrank_any question.now.set question.now.task (indexes_of question.now.above))) }
    ensures some { IfSome result (λ other.
        IsLeastOver question.now.set question.now.task (indexes_of question.now.above) other) }
{
    let set = Tabled::of(&question.set, table);
    if !must_outrank_any(&set, question.task, question.above) {
        return None;
    }
    least_over(&set, question.task, question.above)
}

// The right answer to a question.
fn answer_to(alloc: Global, question: &Question, table: &LockTable) -> Result<Outcome, AllocError>
    requires { IsTableOf question.now.set table.now }
    ensures { IfOk result (λ answer. IsRight question.now answer) }
{
    if let Some(other) = over(question, table) {
        return Ok(Outcome::Fail {
            reason: Reason::Over(other),
        });
    }
    let set = Tabled::of(&question.set, table);
    let response = respond(alloc, &set, question.task, question.above)?;
    Ok(unbound_outcome(response.answer))
}

impl Finding {
    /// The question.
    pub fn question(&self) -> &Question
        ensures { result.now ≡ self.now.question }
    {
        &self.question
    }

    /// The answer, which is right.
    pub fn answer(&self) -> &Outcome
        ensures same { result.now ≡ self.now.answer }
        ensures right { IsRight self.now.question self.now.answer }
    {
        &self.answer
    }

    /// Whether the task may stand there: the answer is a response.
    pub fn passes(&self) -> bool
        ensures { IsTrue result
            ↔ Stands self.now.question.set self.now.question.task
            (indexes_of self.now.question.above) }
    {
        // The set is valid: the proof has it from its sheets.
        let _ = self.question.set().sheets();
        match &self.answer {
            Outcome::Pass { .. } => true,
            Outcome::Fail { .. } => false,
        }
    }

    // The answer, out of the finding.
    pub(crate) fn into_answer(self) -> Outcome
        ensures same { result ≡ self.answer }
        ensures right { IsRight self.question result }
    {
        self.answer
    }
}
