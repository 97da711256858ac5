//! Verdicts on sets of tasks.
ghost use Rattle.std.specs.Prelude.{◌≡◌};
ghost use Rattle.task_sheet.specs.Verdicts.{IsBestOrder, IsStuck, IsVerdictOf};
ghost use Rattle.assignment.specs.Verdict.{verdict_set, verdict_of};

use crate::outcome::Reason;
use std::marker::Model;
use std::sync::Arc;
use task_sheet::TaskSet;

/// A task that may not stand where it was asked, by its index, and the reason that shows it.
#[derive(Drop)]
pub struct Failure {
    pub task: usize,
    pub reason: Reason,
}

impl Model for Failure {
    ghost use Rattle.task_sheet.specs.Verdicts.{FailureData};
    ghost use Rattle.assignment.specs.Outcomes.{reason_of};

    ghost Value = { FailureData };

    ghost view = { λ f. record { task = f.task; reason = reason_of f.reason } };
}

/// A level: the index of its task, the task's response there in microseconds,
/// and the failures of the remaining tasks of smaller rank, by rank.
#[derive(Drop)]
pub struct LevelRecord {
    pub task: usize,
    pub response: u64,
    pub fails: Vec<Failure>,
}

impl Model for LevelRecord {
    ghost use Rattle.task_sheet.specs.Verdicts.{LevelData};

    ghost Value = { LevelData };

    ghost view = { λ l. record { task = l.task; response = l.response; fails = l.fails.items } };
}

/// The best order of a set, level by level, the lowest first (Audsley 1991).
#[derive(Drop)]
pub struct Assignment {
    set: Arc<TaskSet>,
    levels: Vec<LevelRecord>,
}

impl Model for Assignment {
    ghost use Rattle.task_sheet.specs.Verdicts.{IsBestOrder};
    ghost use Rattle.assignment.specs.AssignmentData.{AssignmentData};

    ghost Value = { AssignmentData };

    ghost view = { λ a. record { set = a.set.value; levels = a.levels.items } };

    ghost invariant = { λ a. IsBestOrder a.set.value a.levels.items };
}

/// The greatest set of tasks of which none may stand below the others, each with the reason why; the tasks outside it
/// stand below.
#[derive(Drop)]
pub struct Obstruction {
    set: Arc<TaskSet>,
    members: Vec<Failure>,
}

impl Model for Obstruction {
    ghost use Rattle.task_sheet.specs.Verdicts.{IsStuck};
    ghost use Rattle.assignment.specs.AssignmentData.{ObstructionData};

    ghost Value = { ObstructionData };

    ghost view = { λ o. record { set = o.set.value; members = o.members.items } };

    ghost invariant = { λ o. IsStuck o.set.value o.members.items };
}

/// What became of a set.
#[derive(Drop)]
pub enum Verdict {
    /// Some order passes; this is the best.
    Admitted(Assignment),
    /// No order passes.
    Infeasible(Obstruction),
}

impl Assignment {
    // The assignment of a set.
    pub(crate) fn new(set: Arc<TaskSet>, levels: Vec<LevelRecord>) -> Assignment
        requires { IsBestOrder set.value levels.items }
        ensures { result ≡ record { set = set.value; levels = levels.items } }
    {
        Assignment { set, levels }
    }

    /// The set whose order this is.
    pub fn set(&self) -> &TaskSet
        ensures same { result.now ≡ self.now.set }
        ensures best { IsBestOrder self.now.set self.now.levels }
    {
        &self.set
    }

    /// The levels, the lowest first.
    pub fn levels(&self) -> &[LevelRecord]
        ensures same { result.now ≡ self.now.levels }
        ensures best { IsBestOrder self.now.set self.now.levels }
    {
        &self.levels
    }
}

impl Obstruction {
    // The obstruction of a set.
    pub(crate) fn new(set: Arc<TaskSet>, members: Vec<Failure>) -> Obstruction
        requires { IsStuck set.value members.items }
        ensures { result ≡ record { set = set.value; members = members.items } }
    {
        Obstruction { set, members }
    }

    /// The set in which this stands.
    pub fn set(&self) -> &TaskSet
        ensures same { result.now ≡ self.now.set }
        ensures stuck { IsStuck self.now.set self.now.members }
    {
        &self.set
    }

    /// The members, by rank.
    pub fn members(&self) -> &[Failure]
        ensures same { result.now ≡ self.now.members }
        ensures stuck { IsStuck self.now.set self.now.members }
    {
        &self.members
    }
}

impl Verdict {
    /// The set that this is the verdict of.
    pub fn set(&self) -> &TaskSet
        ensures same { result.now ≡ verdict_set self.now }
        ensures verdict { IsVerdictOf (verdict_set self.now) (verdict_of self.now) }
    {
        match self {
            Verdict::Admitted(assignment) => assignment.set(),
            Verdict::Infeasible(obstruction) => obstruction.set(),
        }
    }
}
