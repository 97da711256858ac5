//! A team's pass.

ghost use Rattle.std.specs.Prelude.{◌≡◌, ◌<◌, ◌&&◌, ℕ, nat_le, length, map};
ghost use Rattle.drafts.specs.Rulings.{ruling_of};
ghost use Rattle.book_lock.specs.TeamPass.{newcomer, is_up_to, admitted_version};
ghost use Rattle.book_lock.specs.PassFields.{receipt_of};

use crate::own::OwnTasks;
use drafts::{Decision, Entry, Owned, Team};
use std::alloc::Global;
use std::marker::Model;
use std::sync::Arc;
use std::sync::ledger::{Ledger, Share};

/// A decision on the team's changes, and its place in the log.
#[derive(Drop)]
pub struct Receipt {
    pub place: usize,
    pub entry: Arc<Entry>,
}

/// What a team knows. Its share of the ledger counts its receipts, and the latest version to which one of them admits is
/// kept beside them (0 where none does).
#[derive(Drop)]
pub struct Pass<L: Ledger> {
    pub(crate) team: Team,
    pub(crate) share: Share<L>,
    pub(crate) tasks: OwnTasks,
    pub(crate) receipts: Vec<Receipt>,
    pub(crate) latest: u64,
}

impl<L: Ledger> Model for Pass<L> {
    ghost use Rattle.std.specs.Prelude.{◌≡◌, ◌<◌, length, map};
    ghost use Rattle.book_lock.specs.TeamPass.{Known};
    ghost use Rattle.book_lock.specs.PassFields.{receipt_of, IsLatest};

    ghost Value = { Known };

    ghost view = { λ p. record {
      team = p.team;
      parts = p.share.parts;
      tasks = p.tasks;
      receipts = map receipt_of p.receipts.items;
    } };

    ghost invariant = { λ p. (0 < p.share.parts)
        × (p.share.amount ≡ length p.receipts.items)
        × IsLatest p.latest (map receipt_of p.receipts.items) };
}

impl<L: Ledger> Pass<L> {
    pub(crate) fn new(alloc: Global, team: Team, share: Share<L>) -> Pass<L>
        requires { (0 < share.parts) × (share.amount ≡ 0) }
        ensures { result ≡ newcomer team share.parts }
    {
        Pass {
            team,
            share,
            tasks: OwnTasks::new(alloc),
            receipts: Vec::new(alloc),
            latest: 0,
        }
    }

    // Its share of the ledger.
    pub(crate) fn into_share(self) -> Share<L>
        ensures parts { result.parts ≡ self.parts }
        ensures amount { result.amount ≡ length self.receipts }
    {
        let Pass {
            team: _,
            share,
            tasks: _,
            receipts: _,
            latest: _,
        } = self;
        share
    }

    // Whether no admitted receipt is of a later version.
    pub(crate) fn is_up_to(&self, version: u64) -> bool
        ensures { result ≡ is_up_to version self.now.receipts }
    {
        self.latest <= version
    }

    /// The team.
    pub fn team(&self) -> Team
        ensures { result ≡ self.now.team }
    {
        self.team
    }

    /// How many decisions the pass counts.
    pub fn count(&self) -> usize
        ensures { result ≡ length self.now.receipts }
    {
        self.receipts.len()
    }

    /// The team's tasks by rank.
    pub fn tasks(&self) -> &[Owned]
        ensures { result.now ≡ self.now.tasks }
    {
        self.tasks.tasks()
    }

    /// The decisions with their places, in their order.
    pub fn receipts(&self) -> &[Receipt]
        ensures { map receipt_of result.now ≡ self.now.receipts }
    {
        &self.receipts
    }
}

// The version of an admission; 0 of another decision.
fn version_of(decision: &Decision) -> u64
    ensures { result ≡ admitted_version (ruling_of decision.now) }
{
    match decision {
        Decision::Admitted { version } => *version,
        Decision::Refused { refusal: _ } => 0,
        Decision::Infeasible { stuck: _ } => 0,
    }
}

// The later of a version and that to which a decision admits.
pub(crate) fn later(latest: u64, decision: &Decision) -> u64
    ensures { (version : ℕ) → nat_le result version
        ≡ (nat_le latest version && nat_le (admitted_version (ruling_of decision.now)) version) }
{
    latest.max(version_of(decision))
}
