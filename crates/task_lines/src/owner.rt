//! Whose a task or an interrupt is.
ghost use Rattle.std.specs.Prelude.{◌≡◌, ◌++◌, OnOk, string_bytes};
ghost use Rattle.task_lines.specs.Teams.{team_by, team_of, team_said, team_words};

use std::alloc::AllocError;
use task_sheet::{Name, TaskSet};

/// What a set's text says beside the set. A team is the one whose document has it: `node` for the node's.
#[derive(Clone, Copy, Debug)]
pub enum Owner {
    /// Whose a task is.
    Task { name: Name, team: Name },
    /// Whose an interrupt is.
    Interrupt { team: Name },
    /// The section of a task at a place, from 0, doesn't say where it begins: where the one before it ends.
    Follower { task: Name, place: usize },
    /// The task of this index arrives on a clock, by the offsets of a chain.
    Clocked { task: usize },
}

// The team, where it is the one of the task of this name.
fn team_by(owner: Owner, name: &[u8]) -> Option<Name>
    ensures { result ≡ team_by owner name.now }
{
    match owner {
        Owner::Task { name: task, team } => {
            if task.bytes() == name {
                Some(team)
            } else {
                None
            }
        }
        Owner::Interrupt { .. } | Owner::Follower { .. } | Owner::Clocked { .. } => None,
    }
}

/// The team of the first task with this name.
pub fn team_of(owners: &[Owner], name: &[u8]) -> Option<Name>
    ensures { result ≡ team_of owners.now name.now }
{
    for owner in owners {
        let team = team_by(*owner, name);
        if team.is_some() {
            return team;
        }
    }
    None
}

// The words that name a team, where there is one.
fn push_said(text: &mut String, team: Option<Name>) -> Result<(), AllocError>
    ensures { OnOk result (string_bytes text.new ≡ string_bytes text.old ++ team_said team) }
{
    match team {
        Some(team) => write!(text, " team {team}"),
        None => Ok(()),
    }
}

/// The words that name the team of the task at an index; none where no team has it. The error is out of memory.
pub fn push_team(
    text: &mut String,
    owners: &[Owner],
    set: &TaskSet,
    task: usize,
) -> Result<(), AllocError>
    ensures { OnOk result (string_bytes text.new
        ≡ string_bytes text.old ++ team_words owners.now set.now task) }
{
    match set.get(task) {
        Some(sheet) => push_said(text, team_of(owners, sheet.name().bytes())),
        None => push_said(text, team_of(owners, b"")),
    }
}
