//! The state of the node.

ghost use Rattle.std.specs.Prelude.{◌≡◌, ◌↔◌, ◌==◌, ◌&&◌, ◌||◌, ℕ, ◌<◌, ◌≤◌, length, IsTrue, IfOk, option_map};
ghost use Rattle.std.specs.FinSet.{contains};
ghost use Rattle.task_sheet.specs.declared.set.TheConstants.{TASK_LIMIT};
ghost use Rattle.assignment.specs.Placings.{IsBestPlacing};
ghost use Rattle.drafts.specs.Applied.{set_of, held, interrupts_after, is_foreign, is_there, is_team_at, teams_of};
ghost use Rattle.drafts.specs.Rosters.{AreWithin, IsRoster};
ghost use Rattle.drafts.specs.Edits.{sheet_held};
ghost use Rattle.drafts.specs.Machine.{empty_desk};

use crate::change::Change;
use crate::interrupts::{self, TeamInterrupt, make_all_said};
use crate::judging::{Judged, judge_set};
use crate::placed::BestOrder;
use crate::roster::{self, Owned, copy_tasks, find_task};
use crate::team::Team;
use indexmap::IndexMap;
use std::alloc::{AllocError, Global};
use std::marker::Model;
use std::sync::Arc;
use task_sheet::{Members, Name, Sheet, TaskSet};

/// How many commits were admitted, the tasks by rank with their teams, the interrupts, and the best order of the tasks.
#[derive(Drop)]
pub struct NodeState {
    version: u64,
    tasks: Vec<Owned>,
    interrupts: Vec<TeamInterrupt>,
    order: BestOrder,
}

impl Model for NodeState {
    ghost use Rattle.drafts.specs.Machine.{MachineState};

    ghost Value = { MachineState };

    ghost use Rattle.drafts.specs.StateFields.{state_of, IsStateKept};

    ghost view = { state_of };

    ghost invariant = { IsStateKept };
}

// The set with the index as a member where it is wanted.
fn noted(members: Members, index: usize, wanted: bool) -> Members
    requires { index < TASK_LIMIT }
    ensures { (i : ℕ) → contains result i ≡ ((i == index) && wanted || contains members i) }
{
    if wanted { members.with(index) } else { members }
}

// Where a team's tasks stand in a list of tasks.
fn places_of(tasks: &[Owned], team: Team) -> Members
    requires { length tasks.now ≤ TASK_LIMIT }
    ensures { (i : ℕ) → contains result i ≡ is_team_at team (teams_of tasks.now) i }
{
    let mut members = Members::empty();
    for (index, task) in tasks.iter().enumerate() {
        members = noted(members, index, task.team.number() == team.number());
    }
    members
}

impl NodeState {
    // The state of a version with these tasks by rank, these interrupts, and the best order of their set.
    pub(crate) fn with(
        version: u64,
        tasks: Vec<Owned>,
        interrupts: Vec<TeamInterrupt>,
        order: BestOrder,
    ) -> NodeState
        requires roster { IsRoster tasks.items }
        requires within { AreWithin interrupts.items }
        requires set { order.set
            ≡ set_of (record { tasks = tasks.items; interrupts = interrupts.items }) }
        ensures { result
            ≡ record {
              version = version;
              node = record { tasks = tasks.items; interrupts = interrupts.items };
            } }
    {
        NodeState {
            version,
            tasks,
            interrupts,
            order,
        }
    }

    /// Version 0, without tasks and interrupts.
    pub fn empty(alloc: Global) -> Result<NodeState, AllocError>
        ensures { IfOk result (λ state. state ≡ empty_desk) }
    {
        let Ok(set) = TaskSet::new(alloc, Vec::new(alloc)) else {
            return Err(AllocError);
        };
        let Ok(set) = Arc::new(alloc, set) else {
            return Err(AllocError);
        };
        match judge_set(alloc, set)? {
            Judged::Best { order } => Ok(NodeState::with(
                0,
                Vec::new(alloc),
                Vec::new(alloc),
                order,
            )),
            Judged::Refused { refusal: _ } => unreachable!(),
            Judged::Stuck { stuck: _ } => unreachable!(),
        }
    }

    /// How many commits were admitted.
    pub fn version(&self) -> u64
        ensures { result ≡ self.now.version }
    {
        self.version
    }

    /// The tasks by rank, with the interrupts on the account of the first.
    pub fn set(&self) -> &TaskSet
        ensures { result.now ≡ set_of self.now.node }
    {
        self.order.set()
    }

    /// The best order of the tasks.
    pub fn order(&self) -> &BestOrder
        ensures same { result.now.set ≡ set_of self.now.node }
        ensures best { IsBestPlacing (set_of self.now.node) result.now.places }
    {
        // The order is the best: the proof has it from its places.
        let _ = self.order.places();
        &self.order
    }

    /// The team that holds a name.
    pub fn team_of(&self, name: Name) -> Option<Team>
        ensures { result ≡ option_map (λ o. o.team) (held name self.now.node.tasks) }
    {
        match find_task(&self.tasks, name) {
            Some(task) => Some(task.team),
            None => None,
        }
    }

    // Whether another team holds the name.
    pub(crate) fn is_foreign(&self, team: Team, name: Name) -> bool
        ensures { result ≡ is_foreign team (held name self.now.node.tasks) }
    {
        roster::is_foreign(&self.tasks, team, name)
    }

    // Whether a task has the name.
    pub(crate) fn has(&self, name: Name) -> bool
        ensures { result ≡ is_there (held name self.now.node.tasks) }
    {
        roster::is_there(&self.tasks, name)
    }

    // The sheet of a name.
    pub(crate) fn sheet_of(&self, name: Name) -> Option<&Sheet>
        ensures { option_map (λ s. s.now) result ≡ sheet_held (held name self.now.node.tasks) }
    {
        match find_task(&self.tasks, name) {
            Some(task) => Some(&task.sheet),
            None => None,
        }
    }

    /// The indexes of a team's tasks.
    pub fn tasks_of(&self, team: Team) -> Members
        ensures { (i : ℕ) → contains result i ≡ is_team_at team (teams_of self.now.node.tasks) i }
    {
        // The set is small: the proof has it from its number.
        let _ = self.set().len();
        places_of(&self.tasks, team)
    }

    /// The tasks with their teams, copied.
    pub fn roster(&self, alloc: Global) -> Result<Vec<Owned>, AllocError>
        ensures same { IfOk result (λ tasks. tasks.items ≡ self.now.node.tasks) }
        ensures roster { IfOk result (λ tasks. IsRoster tasks.items) }
    {
        copy_tasks(alloc, &self.tasks)
    }

    // The interrupts after a team's changes.
    pub(crate) fn interrupts_after(
        &self,
        alloc: Global,
        team: Team,
        changes: &IndexMap<Name, Change>,
    ) -> Result<Vec<TeamInterrupt>, AllocError>
        ensures same { IfOk result (λ all. all.items
            ≡ interrupts_after team self.now.node.interrupts changes.now.entries) }
        ensures within { IfOk result (λ all. AreWithin all.items) }
    {
        let mut interrupts = Vec::from_slice(alloc, &self.interrupts)?;
        make_all_said(team, &mut interrupts, changes)?;
        Ok(interrupts)
    }

    // Whether the same tasks of the same teams stand on two states, with the same interrupts.
    pub(crate) fn has_same_node(&self, other: &NodeState) -> bool
        ensures { IsTrue result ↔ (self.now.node ≡ other.now.node) }
    {
        roster::are_same(&self.tasks, &other.tasks)
            && interrupts::are_same(&self.interrupts, &other.interrupts)
    }

    /// The same state again.
    pub fn copy(&self, alloc: Global) -> Result<NodeState, AllocError>
        ensures { IfOk result (λ state. state ≡ self.now) }
    {
        let order = self.order.copy(alloc)?;
        let tasks = copy_tasks(alloc, &self.tasks)?;
        let interrupts = Vec::from_slice(alloc, &self.interrupts)?;
        Ok(NodeState {
            version: self.version,
            tasks,
            interrupts,
            order,
        })
    }
}
