//! The lines of the log.
ghost use Rattle.std.specs.Prelude.{◌≡◌};
ghost use Rattle.drafts.specs.Rulings.{ruling_of};

use crate::change::{Change, Refusal};
use crate::placed::StuckSet;
use crate::team::Team;
use std::marker::Model;
use task_sheet::Name;

/// What was decided of a commit.
#[derive(Drop)]
pub enum Decision {
    Admitted { version: u64 },
    Refused { refusal: Refusal },
    Infeasible { stuck: StuckSet },
}

/// A line of the log.
#[derive(Drop)]
pub struct Entry {
    team: Team,
    changes: Vec<(Name, Change)>,
    decision: Decision,
}

impl Model for Entry {
    ghost use Rattle.drafts.specs.Machine.{Entry};
    ghost use Rattle.drafts.specs.Rulings.{ruling_of};

    ghost Value = { Entry };

    ghost view = { λ e. record { team = e.team; changes = e.changes.items; decision = ruling_of e.decision } };
}

impl Entry {
    // A line of these parts.
    pub(crate) fn new(team: Team, changes: Vec<(Name, Change)>, decision: Decision) -> Entry
        ensures { result
            ≡ record { team = team; changes = changes.items; decision = ruling_of decision } }
    {
        Entry {
            team,
            changes,
            decision,
        }
    }

    /// Whose changes they are.
    pub fn team(&self) -> Team
        ensures { result ≡ self.now.team }
    {
        self.team
    }

    /// The changes by name, in their order.
    pub fn changes(&self) -> &[(Name, Change)]
        ensures { result.now ≡ self.now.changes }
    {
        &self.changes
    }

    /// What was decided.
    pub fn decision(&self) -> &Decision
        ensures { ruling_of result.now ≡ self.now.decision }
    {
        &self.decision
    }
}
