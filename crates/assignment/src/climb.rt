//! The climb from the lowest level up (Audsley 1991).
ghost use Rattle.std.specs.Prelude.{◌≡◌, ◌↔◌, ◌<◌, ◌⊎◌, false, [], ◌∷◌, ◌++◌, length, is_some, IsTrue, IfOk, IfSome};
ghost use Rattle.std.specs.FinSet.{len, remove};
ghost use Rattle.task_sheet.specs.MembersWords.{all_below};
ghost use Rattle.task_sheet.specs.Indexes.{indexes_of, listed_below, IsPart};
ghost use Rattle.task_sheet.specs.Orders.{all_of};
ghost use Rattle.task_sheet.specs.Levels.{IsChosen};
ghost use Rattle.task_sheet.specs.Verdicts.{tasks_of, IsLevel, IsStuck};
ghost use Rattle.assignment.specs.Climbs.{IsClimbing, IsNext, IsPlaced, IsEnded, IsUnfinished};
ghost use Rattle.assignment.specs.Levels.{IsDecided};
ghost use Rattle.assignment.specs.Climbing.{ClosesLevel, Finishes};

use crate::level::{Closed, Level};
use crate::verdict::{Assignment, Failure, LevelRecord, Obstruction, Verdict};
use std::alloc::{AllocError, Global};
use std::marker::Model;
use std::sync::Arc;
use task_sheet::{Members, TaskSet};

/// The levels of a set that are closed, from the lowest up, and the tasks that are not yet placed.
#[derive(Drop)]
pub struct Climb {
    set: Arc<TaskSet>,
    left: Members,
    levels: Vec<LevelRecord>,
    members: Option<Vec<Failure>>,
}

impl Model for Climb {
    ghost use Rattle.assignment.specs.Climbs.{ClimbState, set_codes};

    ghost Value = { ClimbState };

    ghost coded = { Prim.hlevel set_codes };

    ghost use Rattle.std.specs.Prelude.{is_some};
    ghost use Rattle.assignment.specs.ClimbFields.{IsClimbKept};

    ghost view = { λ c. record {
      set = c.set.value;
      levels = c.levels.items;
      left = c.left;
      stuck = is_some c.members;
    } };

    ghost invariant = { IsClimbKept };
}

/// Why a level was not closed; it is handed back.
#[derive(Drop)]
pub enum ClimbFault {
    /// It is no level of this climb: its set differs in content, or its candidates are not the tasks that are left,
    /// or an obstruction was closed before.
    Stranger { level: Level },
    /// It is not decided.
    NotAll { level: Level },
}

/// Tasks are left, and no obstruction was closed; the climb is handed back.
#[derive(Drop)]
pub struct Unfinished {
    pub climb: Climb,
}

impl Climb {
    /// A climb with all tasks of the set left. The error is out of memory. Closing levels needs no premise on memory.
    pub fn start(alloc: Global, set: Arc<TaskSet>) -> Result<Climb, AllocError>
        ensures { IfOk result (λ climb. climb
            ≡ record {
              set = set.value;
              levels = [];
              left = all_below (length set.value);
              stuck = false;
            }) }
    {
        let left = Members::all(set.sheets().len());
        let levels = Vec::with_capacity(alloc, left.len())?;
        Ok(Climb {
            set,
            left,
            levels,
            members: None,
        })
    }

    /// The tasks that are not yet placed.
    #[tactic(auto, using(crate::proofs::ClimbLaws::left_part))]
    pub fn left(&self) -> Members
        ensures same { result ≡ self.now.left }
        ensures part { IsPart (indexes_of self.now.left) (all_of self.now.set) }
    {
        self.left
    }

    /// The levels that are closed, the lowest first.
    pub fn levels(&self) -> &[LevelRecord]
        ensures same { result.now ≡ self.now.levels }
        ensures right { IsClimbing self.now.set self.now.left self.now.levels }
    {
        &self.levels
    }

    /// The members of the obstruction that was closed, by rank: the tasks that are left. None where no obstruction was
    /// closed.
    pub fn members(&self) -> Option<&[Failure]>
        ensures stuck { IfSome result (λ members. IsStuck self.now.set members.now) }
        ensures rest { IfSome result (λ members. tasks_of members.now
            ≡ listed_below (length self.now.set) (indexes_of self.now.left)) }
        ensures some { is_some result ≡ self.now.stuck }
    {
        match &self.members {
            Some(members) => Some(members),
            None => None,
        }
    }

    // Whether this is the next level.
    fn expects(&self, level: &Level) -> bool
        ensures { IsTrue result ↔ IsNext self.now level.now }
    {
        self.set.is_same(level.set()) && level.left() == self.left && self.members.is_none()
    }

    // Places the task of a level.
    fn place(&mut self, level: LevelRecord)
        requires chosen { IsChosen self.old.set (indexes_of self.old.left) level.task }
        requires level { IsLevel self.old.set (indexes_of self.old.left) level }
        requires goes_on { self.old.stuck ≡ false }
        ensures { self.new ≡ record {
          set = self.old.set;
          levels = self.old.levels ++ level ∷ [];
          left = remove self.old.left level.task;
          stuck = false;
        } }
    {
        self.left = self.left.without(level.task);
        self.levels.push_reserved(level);
    }

    /// The next level, without findings. The error is out of memory.
    #[tactic(auto, using(crate::proofs::StepLaws::some_counted))]
    pub fn start_level(&self, alloc: Global) -> Result<Level, AllocError>
        requires { IsUnfinished self.now }
        ensures { IfOk result (λ level. level
            ≡ record { set = self.now.set; left = self.now.left; missing = self.now.left }) }
    {
        Level::start(alloc, self.set.clone()?, self.left())
    }

    /// Closes the next level: its task is placed, or the climb ends at an obstruction.
    /// Refused in this order: `Stranger`, `NotAll`; the climb is then unchanged.
    pub fn close(&mut self, level: Level) -> Result<(), ClimbFault>
        ensures { ClosesLevel self.old level self.new result }
    {
        if !self.expects(&level) {
            return Err(ClimbFault::Stranger { level });
        }
        if !level.decided() {
            return Err(ClimbFault::NotAll { level });
        }
        self.close_own(level);
        Ok(())
    }

    /// Closes a level that is known to be the next one and decided, as one from `start_level` is: no sets are compared.
    pub fn close_own(&mut self, level: Level)
        requires next { IsNext self.old level }
        requires decided { IsDecided level }
        ensures { IsPlaced self.old self.new ⊎ IsEnded self.old self.new }
    {
        match level.close() {
            Ok(Closed::Chosen(record)) => self.place(record),
            Ok(Closed::Obstruction(members)) => self.members = Some(members),
            Err(_) => unreachable!(),
        }
    }

    /// Whether tasks are left, and no obstruction was closed.
    pub fn is_unfinished(&self) -> bool
        ensures { IsTrue result ↔ IsUnfinished self.now }
    {
        self.members.is_none() && self.left.len() > 0
    }

    /// The verdict of the set. Refused where tasks are left and no obstruction was closed.
    pub fn finish(self) -> Result<Verdict, Unfinished>
        ensures { Finishes self result }
    {
        if self.is_unfinished() {
            return Err(Unfinished { climb: self });
        }
        let Climb {
            set,
            left: _,
            levels,
            members,
        } = self;
        match members {
            Some(members) => Ok(Verdict::Infeasible(Obstruction::new(set, members))),
            None => Ok(Verdict::Admitted(Assignment::new(set, levels))),
        }
    }
}
