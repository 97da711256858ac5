//! A team's own tasks, and what its changes make of them.

ghost use Rattle.std.specs.Prelude.{◌≡◌, [], IfOk};
ghost use Rattle.drafts.specs.Applied.{all_changes};
ghost use Rattle.drafts.specs.Rosters.{IsRoster};
ghost use Rattle.drafts.specs.Rulings.{ruling_of};
ghost use Rattle.book_lock.specs.Own.{own_of, own_after};

use drafts::{Decision, Draft, NodeState, Owned, Refusal, Team, make_changes};
use std::alloc::{AllocError, Global};
use std::marker::Model;

/// A team's own tasks, by rank.
#[derive(Drop)]
pub(crate) struct OwnTasks {
    tasks: Vec<Owned>,
}

impl Model for OwnTasks {
    ghost use Rattle.std.specs.Prelude.{List};
    ghost use Rattle.drafts.specs.declared.roster.Owned.{Owned};
    ghost use Rattle.drafts.specs.Rosters.{IsRoster};

    ghost Value = { List Owned };

    ghost view = { λ o. o.tasks.items };

    ghost invariant = { λ o. IsRoster o.tasks.items };
}

// The same tasks again.
fn copy_tasks(alloc: Global, tasks: &[Owned]) -> Result<Vec<Owned>, AllocError>
    ensures { IfOk result (λ v. v.items ≡ tasks.now) }
{
    let mut copies = Vec::new(alloc);
    for task in tasks {
        copies.push(task.copy(alloc)?)?;
    }
    Ok(copies)
}

impl OwnTasks {
    /// None.
    pub(crate) fn new(alloc: Global) -> OwnTasks
        ensures { result ≡ [] }
    {
        OwnTasks {
            tasks: Vec::new(alloc),
        }
    }

    // Those of a team in a state.
    pub(crate) fn of(alloc: Global, state: &NodeState, team: Team) -> Result<OwnTasks, AllocError>
        ensures { IfOk result (λ own. own ≡ own_of team state.now.node.tasks) }
    {
        let mut tasks = state.roster(alloc)?;
        tasks.retain(|task| task.team.number() == team.number());
        Ok(OwnTasks { tasks })
    }

    /// The tasks by rank.
    pub(crate) fn tasks(&self) -> &[Owned]
        ensures same { result.now ≡ self.now }
        ensures roster { IsRoster self.now }
    {
        &self.tasks
    }

    // Those after a draft's changes, or why these are refused.
    pub(crate) fn changed(
        &self,
        alloc: Global,
        draft: &Draft,
    ) -> Result<Result<OwnTasks, Refusal>, AllocError>
        ensures { IfOk result (λ r. r ≡ all_changes draft.now.team self.now draft.now.changes) }
    {
        let mut tasks = copy_tasks(alloc, &self.tasks)?;
        match make_changes(alloc, draft.team(), &mut tasks, draft.changes())? {
            Some(refusal) => Ok(Err(refusal)),
            None => Ok(Ok(OwnTasks { tasks })),
        }
    }

    // Takes those that a decision's changes lead to, where it admits them.
    pub(crate) fn keep(&mut self, decision: &Decision, changed: Result<OwnTasks, Refusal>)
        ensures { self.new ≡ own_after (ruling_of decision.now) changed self.old }
    {
        match decision {
            Decision::Admitted { version: _ } => {
                if let Ok(tasks) = changed {
                    *self = tasks;
                }
            }
            Decision::Refused { refusal: _ } => {}
            Decision::Infeasible { stuck: _ } => {}
        }
    }
}
