//! The candidates of a level.
ghost use Rattle.std.specs.Prelude.{◌≡◌, ◌<◌, length, IfNone, IfOk, IfSome, IsTrue};
ghost use Rattle.std.specs.FinSet.{contains, remove};
ghost use Rattle.task_sheet.specs.MembersWords.{all_below};
ghost use Rattle.task_sheet.specs.Indexes.{indexes_of, without_index, IsPart};
ghost use Rattle.task_sheet.specs.Demand.{IsResponseOf};
ghost use Rattle.task_sheet.specs.Orders.{all_of, Stands};
ghost use Rattle.ceilings.specs.IsTableOf.{IsTableOf};
ghost use Rattle.candidate_workers.specs.Claims.{count_of, candidate_at};
ghost use Rattle.candidate_workers.specs.Passing.{question_on};

use assignment::Question;
use ceilings::{LockTable, Tabled};
use response_time::response_in_time;
use std::alloc::AllocError;
use std::marker::Model;
use std::sync::Arc;
use task_sheet::{Members, TaskSet};

/// The tasks of a set that are left at a level, its candidates. Each is asked with the others above it.
#[derive(Drop)]
pub struct Candidates {
    set: Arc<TaskSet>,
    left: Members,
}

impl Model for Candidates {
    ghost use Rattle.task_sheet.specs.Indexes.{indexes_of, IsPart};
    ghost use Rattle.task_sheet.specs.Orders.{all_of};
    ghost use Rattle.candidate_workers.specs.Candidates.{CandidatesData, set_codes};

    ghost Value = { CandidatesData };

    ghost coded = { Prim.hlevel set_codes };

    ghost view = { λ c. record { set = c.set.value; left = c.left } };

    ghost invariant = { λ c. IsPart (indexes_of c.left) (all_of c.set.value) };
}

impl Candidates {
    /// Those of the lowest level: all tasks of a set.
    pub fn all(set: Arc<TaskSet>) -> Candidates
        ensures { result ≡ record { set = set.value; left = all_below (length set.value) } }
    {
        let left = Members::all(set.len());
        Candidates { set, left }
    }

    /// Their set.
    pub fn set(&self) -> &TaskSet
        ensures { result.now ≡ self.now.set }
    {
        &self.set
    }

    /// Their indexes.
    pub fn left(&self) -> Members
        ensures same { result ≡ self.now.left }
        ensures part { IsPart (indexes_of self.now.left) (all_of self.now.set) }
    {
        self.left
    }

    /// The one at a place by rank, counted from 0.
    pub fn at(&self, place: usize) -> usize
        requires { place < count_of self.now }
        ensures task { result ≡ candidate_at self.now place }
        ensures member { IsTrue (contains self.now.left result) }
    {
        let mut before = 0;
        for task in 0..self.set.len() {
            if self.left.has(task) {
                if before == place {
                    return task;
                }
                before += 1;
            }
        }
        unreachable!()
    }

    /// The question on one of them. The error is that the set has too many owners.
    #[tactic(auto, using(assignment::proofs::AskLaws::others_above))]
    pub fn question(&self, task: usize) -> Result<Question, AllocError>
        requires { IsTrue (contains self.now.left task) }
        ensures { IfOk result (λ question. question ≡ question_on self.now task) }
    {
        // Its tasks are few: the proof has it from the set.
        let _ = self.set.len();
        let set = self.set.clone()?;
        Ok(Question::new(set, self.left.without(task), task))
    }

    /// The response of one of them below the others, in microseconds from the arrival; none where it may not stand there.
    pub fn response(&self, table: &LockTable, task: usize) -> Option<u64>
        requires task { IsTrue (contains self.now.left task) }
        requires table { IsTableOf self.now.set table.now }
        ensures some { IfSome result (λ response. IsResponseOf self.now.set task
            (without_index (indexes_of self.now.left) task) response) }
        ensures stands { IfSome result
            (λ _. Stands self.now.set task (without_index (indexes_of self.now.left) task)) }
        ensures none { IfNone result
            (¬ Stands self.now.set task (without_index (indexes_of self.now.left) task)) }
    {
        let set = Tabled::of(&self.set, table);
        let above = self.left.without(task);
        if set.outranked(task).meets(above) {
            return None;
        }
        response_in_time(&set, task, above)
    }

    /// Places one of them: those of the next level are the others.
    pub fn place(&mut self, task: usize)
        requires { IsTrue (contains self.old.left task) }
        ensures { self.new ≡ record { set = self.old.set; left = remove self.old.left task } }
    {
        // Its tasks are few: the proof has it from the set.
        let _ = self.set.len();
        self.left = self.left.without(task);
    }
}
