//! Whether teams say what is the node's.
ghost use Rattle.std.specs.Prelude.{◌≡◌};
ghost use Rattle.teams.specs.Rights.{has_right, nodes_key, right_fault, rights_fault};

use crate::fault::TeamsFault;
use crate::node::Budget;
use crate::uniting::TeamSet;
use task_sheet::{Key, Name};

// The first key of a team's document that is the node's.
fn nodes_key(part: &TeamSet) -> Option<Key>
    ensures { result ≡ nodes_key part.now }
{
    if part.prefers.is_some() {
        Some(Key::Prefer)
    } else if part.node.is_some() {
        Some(Key::Node)
    } else if !part.interrupts.is_empty() {
        Some(Key::Interrupt)
    } else {
        None
    }
}

// Whether a team has the right to say what is the node's.
fn has_right(budgets: &[Budget], team: Name) -> bool
    ensures { result ≡ has_right budgets.now team }
{
    budgets
        .iter()
        .any(|budget| budget.team == team && budget.right)
}

// That a team's document says what is the node's without the right to.
fn right_fault(budgets: &[Budget], part: &TeamSet) -> Option<TeamsFault>
    ensures { result ≡ right_fault budgets.now part.now }
{
    let key = nodes_key(part)?;
    let team = part.team;
    if has_right(budgets, team) {
        None
    } else {
        Some(TeamsFault::NodesOwn { team, key })
    }
}

// The first document that says what is the node's without the right to.
pub(crate) fn rights_fault(budgets: &[Budget], sets: &[TeamSet]) -> Option<TeamsFault>
    ensures { result ≡ rights_fault budgets.now sets.now }
{
    for part in sets {
        if let Some(fault) = right_fault(budgets, part) {
            return Some(fault);
        }
    }
    None
}
