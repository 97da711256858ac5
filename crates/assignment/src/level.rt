//! Levels, which gather findings in any order (Audsley 1991).
ghost use Rattle.std.specs.Prelude.{◌≡◌, ◌↔◌, ◌<◌, ◌≤◌, [], length, replicate, None, Some, IsTrue, IsOk, IsSome, IfOk, IfErr, slice_get, slice_set, slice_index_or, vec_capacity};
ghost use Rattle.std.specs.FinSet.{contains, len};
ghost use Rattle.task_sheet.specs.Indexes.{indexes_of, listed_below, IsPart};
ghost use Rattle.task_sheet.specs.Orders.{all_of};
ghost use Rattle.assignment.specs.Levels.{with_finding, IsAsked, IsDecided, IsEnough, AreRight, lets_stand};
ghost use Rattle.assignment.specs.Closes.{IsClosed};
ghost use Rattle.assignment.specs.Takes.{IsTaken};

use crate::outcome::Outcome;
use crate::question::{Finding, Question};
use crate::verdict::{Failure, LevelRecord};
use std::alloc::{AllocError, Global};
use std::marker::Model;
use std::sync::Arc;
use task_sheet::{Members, TaskSet};

/// The findings on a level's candidates, which are the tasks that are left. Each candidate is asked with the others
/// above it.
#[derive(Drop)]
pub struct Level {
    set: Arc<TaskSet>,
    left: Members,
    missing: Members,
    answers: Vec<Option<Outcome>>,
    fails: Vec<Failure>,
}

impl Model for Level {
    ghost use Rattle.assignment.specs.Levels.{LevelState, set_codes};

    ghost Value = { LevelState };

    ghost coded = { Prim.hlevel set_codes };

    ghost use Rattle.assignment.specs.LevelFields.{IsLevelKept};

    ghost view = { λ l. record { set = l.set.value; left = l.left; missing = l.missing } };

    ghost invariant = { IsLevelKept };
}

/// Why a finding was not taken; it is handed back.
#[derive(Drop)]
pub enum TakeFault {
    /// It answers no question of this level: its set differs in content, or its task is no candidate,
    /// or those above its task are not the others that are left.
    Stranger { finding: Finding },
    /// The candidate has a finding.
    Twice { finding: Finding },
}

/// The level is not decided; it is handed back.
#[derive(Drop)]
pub struct NotAll {
    pub level: Level,
}

/// What a level comes to.
#[derive(Drop)]
pub enum Closed {
    /// The candidate of least rank that may stand, with the failures of all candidates of smaller rank, by rank.
    Chosen(LevelRecord),
    /// None may stand: the failures of all, by rank.
    Obstruction(Vec<Failure>),
}

// No answer for each of so many tasks.
fn unanswered(alloc: Global, count: usize) -> Result<Vec<Option<Outcome>>, AllocError>
    ensures { IfOk result (λ answers. answers.items ≡ replicate count None) }
{
    let mut answers = Vec::with_capacity(alloc, count)?;
    for _ in 0..count {
        answers.push(None)?;
    }
    Ok(answers)
}

// Whether the answer on a task lets it stand there.
fn lets_stand(answer: &Outcome) -> bool
    ensures { result ≡ lets_stand answer.now }
{
    match answer {
        Outcome::Pass { .. } => true,
        Outcome::Fail { .. } => false,
    }
}

// The answer on a task that has one.
fn take_answer(answers: &mut Vec<Option<Outcome>>, task: usize) -> Outcome
    requires within { task < length answers.old.items }
    requires known { IsSome (slice_index_or answers.old.items task None) }
    ensures value { Some result ≡ slice_index_or answers.old.items task None }
    ensures taken { answers.new.items ≡ slice_set answers.old.items task None }
{
    match answers[task].take() {
        Some(answer) => answer,
        None => unreachable!(),
    }
}

// What the answers on the candidates come to, where they are enough; the failures get room that is there.
fn gather(
    set: &TaskSet,
    left: Members,
    mut answers: Vec<Option<Outcome>>,
    mut fails: Vec<Failure>,
) -> Closed
    requires part { IsPart (indexes_of left) (all_of set.now) }
    requires some { 0 < len left }
    requires right { AreRight set.now (indexes_of left) answers.items }
    requires enough { IsEnough set.now (indexes_of left) answers.items }
    requires empty { fails.items ≡ [] }
    requires room { length set.now ≤ vec_capacity fails }
    ensures { IsClosed set.now (indexes_of left) result }
{
    for task in 0..set.sheets().len() {
        if left.has(task) {
            match take_answer(&mut answers, task) {
                Outcome::Pass { response } => {
                    return Closed::Chosen(LevelRecord {
                        task,
                        response,
                        fails,
                    });
                }
                Outcome::Fail { reason } => fails.push_reserved(Failure { task, reason }),
            }
        }
    }
    Closed::Obstruction(fails)
}

impl Level {
    /// A level whose candidates are the tasks that are left, without findings. The error is out of memory; nothing
    /// else of the level takes memory.
    pub fn start(alloc: Global, set: Arc<TaskSet>, left: Members) -> Result<Level, AllocError>
        requires part { IsPart (indexes_of left) (all_of set.value) }
        requires some { 0 < len left }
        ensures { IfOk result
            (λ level. level ≡ record { set = set.value; left = left; missing = left }) }
    {
        let count = set.sheets().len();
        let answers = unanswered(alloc, count)?;
        let fails = Vec::with_capacity(alloc, count)?;
        Ok(Level {
            set,
            left,
            missing: left,
            answers,
            fails,
        })
    }

    /// The set of the candidates.
    pub fn set(&self) -> &TaskSet
        ensures { result.now ≡ self.now.set }
    {
        &self.set
    }

    /// The candidates.
    pub fn left(&self) -> Members
        ensures same { result ≡ self.now.left }
        ensures part { IsPart (indexes_of self.now.left) (all_of self.now.set) }
        ensures some { 0 < len self.now.left }
    {
        self.left
    }

    /// The candidate at a place by rank, counted from 0.
    pub fn candidate(&self, place: usize) -> Option<usize>
        ensures { result
            ≡ slice_get (listed_below (length self.now.set) (indexes_of self.now.left)) place }
    {
        let mut before = 0;
        for task in 0..self.set.len() {
            if self.left.has(task) {
                if before == place {
                    return Some(task);
                }
                before += 1;
            }
        }
        None
    }

    /// The question on a candidate, with the others that are left above it. The error is that the set has too many owners.
    #[tactic(auto, using(crate::proofs::AskLaws::others_above))]
    pub fn question(&self, task: usize) -> Result<Question, AllocError>
        requires { IsTrue (contains self.now.left task) }
        ensures asked { IfOk result (λ question. IsAsked self.now question) }
        ensures task { IfOk result (λ question. question.task ≡ task) }
    {
        let set = self.set.clone()?;
        Ok(Question::new(set, self.left.without(task), task))
    }

    /// The candidates without a finding.
    pub fn missing(&self) -> Members
        ensures same { result ≡ self.now.missing }
        ensures part { IsPart (indexes_of self.now.missing) (indexes_of self.now.left) }
    {
        self.missing
    }

    // Whether this is the question on one of the candidates.
    fn asks(&self, question: &Question) -> bool
        ensures { IsTrue result ↔ IsAsked self.now question.now }
    {
        let task = question.task();
        self.set.is_same(question.set())
            && self.left.has(task)
            && question.above() == self.left.without(task)
    }

    /// Takes a finding. Refused in this order: `Stranger`, `Twice`; the level is then unchanged.
    pub fn take(&mut self, finding: Finding) -> Result<(), TakeFault>
        ensures { IsTaken self.old finding self.new result }
    {
        if !self.asks(finding.question()) {
            return Err(TakeFault::Stranger { finding });
        }
        if !self.missing.has(finding.question().task()) {
            return Err(TakeFault::Twice { finding });
        }
        self.accept(finding);
        Ok(())
    }

    /// Takes a finding that is known to answer the level's question: no sets are compared. A double changes nothing.
    pub fn accept(&mut self, finding: Finding)
        requires asked { IsAsked self.old finding.question }
        ensures { self.new ≡ with_finding self.old finding.question.task }
    {
        let task = finding.question().task();
        if self.missing.has(task) {
            self.missing = self.missing.without(task);
            self.answers[task] = Some(finding.into_answer());
        }
    }

    /// Whether all candidates have a finding, or all up to one that may stand.
    pub fn decided(&self) -> bool
        ensures { IsTrue result ↔ IsDecided self.now }
    {
        for task in 0..self.set.len() {
            if self.left.has(task) {
                match &self.answers[task] {
                    None => return false,
                    Some(answer) if lets_stand(answer) => return true,
                    Some(_) => {}
                }
            }
        }
        true
    }

    /// What the level comes to, in whatever order its findings came. Refused where it is not decided.
    pub fn close(self) -> Result<Closed, NotAll>
        ensures decided { IsOk result ↔ IsDecided self }
        ensures closed { IfOk result (λ closed. IsClosed self.set (indexes_of self.left) closed) }
        ensures back { IfErr result (λ fault. fault.level ≡ self) }
    {
        if !self.decided() {
            return Err(NotAll { level: self });
        }
        let Level {
            set,
            left,
            missing: _,
            answers,
            fails,
        } = self;
        Ok(gather(&set, left, answers, fails))
    }
}
