//! Teams.
ghost use Rattle.std.specs.Prelude.{◌≡◌, ◌≤◌, IfSome, IfNone};
ghost use Rattle.drafts.specs.declared.team.TheConstants.{TEAM_LIMIT};

use std::marker::Model;

/// The most teams of the node.
pub const TEAM_LIMIT: u64 = 8;

/// A team of the node, from 1 to `TEAM_LIMIT`.
#[derive(Clone, Copy, PartialEq, Eq)]
pub struct Team {
    number: u64,
}

impl Model for Team {
    ghost use Rattle.std.specs.Prelude.{ℕ};
    ghost use Rattle.std.specs.Coded.{coded_ℕ};

    ghost Value = { ℕ };

    ghost coded = { coded_ℕ };

    ghost use Rattle.drafts.specs.Teams.{team_number, team_of, IsTeam};

    ghost view = { team_number };

    ghost invariant = { IsTeam };

    ghost inverse = { team_of };
}

impl Team {
    /// The team of a number; none outside 1 to `TEAM_LIMIT`.
    pub fn new(number: u64) -> Option<Team>
        ensures none { IfNone result (1 ≤ number → number ≤ TEAM_LIMIT → ⊥) }
        ensures some { IfSome result (λ team. (team ≡ number) × (1 ≤ number) × (number ≤ TEAM_LIMIT)) }
    {
        if 1 <= number && number <= TEAM_LIMIT {
            Some(Team { number })
        } else {
            None
        }
    }

    /// The number, from 1 to `TEAM_LIMIT`.
    pub fn number(self) -> u64
        ensures same { result ≡ self }
        ensures from { 1 ≤ result }
        ensures to { result ≤ TEAM_LIMIT }
    {
        self.number
    }
}
