//! A desk of two teams, and what a team does on it.
ghost use Rattle.std.specs.Prelude.{◌≡◌};

use book_lock::{Closing, CommitCause, CommitFault, Desk, NewFault, OpenFault, Pass};
use candidate_workers::{Gate, OpenGate};
use drafts::{Decision, Draft, EditCause, Entry, NodeState, PutFault};
use example_sets::{again, name};
use std::alloc::Global;
use std::sync::Wait;
use std::sync::ledger::{Blank, Ledger};
use std::test::Fail;
use std::thread::Threads;
use task_sheet::Sheet;

/// What a desk is made with, and what its teams run on.
#[derive(Drop)]
pub struct Start<'a, R> {
    pub rt: &'a R,
    pub alloc: Global,
    pub blank: Blank,
}

impl<'a, R> Start<'a, R> {
    /// With a blank of eight parts, one for each team that a desk may have.
    pub fn new(rt: &'a R, alloc: Global) -> Start<'a, R>
        ensures { result.blank.parts ≡ 8 }
    {
        Start {
            rt,
            alloc,
            blank: Blank::new(8),
        }
    }
}

/// A desk, and what its teams run on.
#[derive(Drop)]
pub struct Site<'a, L: Ledger, R> {
    pub rt: &'a R,
    pub alloc: Global,
    pub desk: Desk<L>,
}

/// A desk, and the passes of its two teams.
#[derive(Drop)]
pub struct Pair<'a, L: Ledger, R> {
    pub site: Site<'a, L, R>,
    pub first: Pass<L>,
    pub second: Pass<L>,
}

/// A desk of two teams.
pub fn two_teams<L: Ledger, R>(start: Start<'_, R>) -> Result<Pair<'_, L, R>, Fail>
    requires { (start.blank.name ≡ L.name) × (start.blank.parts ≡ L.parts) × (L.parts ≡ 8) }
{
    let Start { rt, alloc, blank } = start;
    let answer = again!(
        Desk::<L>::new(alloc, blank, 2),
        NewFault::OutOfMemory { blank }
    );
    let Ok((desk, mut passes)) = answer else {
        return Err("a desk")?;
    };
    let second = passes.pop().ok_or("the second pass")?;
    let first = passes.pop().ok_or("the first pass")?;
    Ok(Pair {
        site: Site { rt, alloc, desk },
        first,
        second,
    })
}

/// The passes, and one more behind them.
pub fn with<L: Ledger>(mut passes: Vec<Pass<L>>, pass: Pass<L>) -> Result<Vec<Pass<L>>, Fail> {
    if passes.push(pass).is_err() {
        return Err("memory")?;
    }
    Ok(passes)
}

/// Closes the desk with these passes.
pub fn close<L: Ledger>(desk: Desk<L>, passes: Vec<Pass<L>>) -> Result<Closing, Fail> {
    match desk.close(passes) {
        Ok(closing) => Ok(closing),
        Err(_) => Err("a closed desk")?,
    }
}

/// Puts a task without sections, whose deadline is its period.
pub fn put(
    alloc: Global,
    draft: &mut Draft,
    text: &str,
    period: u64,
    cost: u64,
) -> Result<(), Fail> {
    let sheet = Sheet::new(name(text)?, 0, period, period, cost, Vec::new(alloc));
    let sheet = sheet.ok().ok_or("a sheet")?;
    let answer = again!(
        draft.put(sheet),
        PutFault {
            cause: EditCause::OutOfMemory,
            sheet
        }
    );
    answer.ok().ok_or("a put")?;
    Ok(())
}

impl<'a, L: Ledger, R: Threads + Wait> Site<'a, L, R> {
    /// An empty draft of the pass's team.
    pub fn opened(&self, pass: &Pass<L>) -> Result<Draft, Fail> {
        let answer = again!(
            self.desk.open(self.rt, self.alloc, pass),
            OpenFault::OutOfMemory
        );
        Ok(answer.ok().ok_or("a draft")?)
    }

    /// A draft of the pass's team that puts one task of this cost, with a deadline of 10,000, its period.
    pub fn drafted(&self, pass: &Pass<L>, text: &str, cost: u64) -> Result<Draft, Fail> {
        let mut draft = self.opened(pass)?;
        put(self.alloc, &mut draft, text, 10000, cost)?;
        Ok(draft)
    }

    /// What comes of a draft, tested by so many workers with a gate.
    pub fn answer_to<G: Gate + Sync>(
        &self,
        pass: &mut Pass<L>,
        draft: Draft,
        workers: usize,
        gate: &G,
    ) -> Result<usize, CommitFault> {
        again!(
            self.desk
                .commit(self.rt, self.alloc, pass, draft, workers, gate),
            CommitFault {
                cause: CommitCause::OutOfMemory | CommitCause::ThreadRefused,
                draft
            }
        )
    }

    /// The place of a draft's decision, tested by so many workers with a gate, 0 where there is none.
    pub fn placed<G: Gate + Sync>(
        &self,
        pass: &mut Pass<L>,
        draft: Draft,
        workers: usize,
        gate: &G,
    ) -> usize {
        self.answer_to(pass, draft, workers, gate).unwrap_or(0)
    }

    /// The place of a draft's decision, tested by one worker with an open gate.
    pub fn committed(&self, pass: &mut Pass<L>, draft: Draft) -> Result<usize, Fail> {
        let answer = self.answer_to(pass, draft, 1, &OpenGate);
        Ok(answer.ok().ok_or("a decision")?)
    }

    /// The same of a draft of the pass's team that puts one task of this cost.
    pub fn commit_one(&self, pass: &mut Pass<L>, text: &str, cost: u64) -> Result<usize, Fail> {
        let draft = self.drafted(pass, text, cost)?;
        self.committed(pass, draft)
    }
}

impl<'a, L: Ledger, R: Threads + Wait> Pair<'a, L, R> {
    /// The place of the decision on a draft of team 1 that puts one task of this cost.
    pub fn commit_first(&mut self, text: &str, cost: u64) -> Result<usize, Fail> {
        self.site.commit_one(&mut self.first, text, cost)
    }

    /// Drafts of both teams on the present state, of which each puts one task of this name and cost.
    pub fn draft_both(
        &self,
        first: (&str, u64),
        second: (&str, u64),
    ) -> Result<(Draft, Draft), Fail> {
        let one = self.site.drafted(&self.first, first.0, first.1)?;
        let other = self.site.drafted(&self.second, second.0, second.1)?;
        Ok((one, other))
    }

    /// Closes the desk with both passes.
    pub fn closed(self) -> Result<Closing, Fail> {
        let Pair {
            site,
            first,
            second,
        } = self;
        let passes = with(with(Vec::new(site.alloc), first)?, second)?;
        close(site.desk, passes)
    }
}

/// What an entry says: the version where it is admitted, 100 where it is refused, 200 where it is infeasible; the team
/// before it.
pub fn said(entry: &Entry) -> (u64, u64) {
    let what = match entry.decision() {
        Decision::Admitted { version } => *version,
        Decision::Refused { refusal: _ } => 100,
        Decision::Infeasible { stuck: _ } => 200,
    };
    (entry.team().number(), what)
}

/// The responses of the two tasks of a state, the lowest first; none where there are not two.
pub fn responses(state: &NodeState) -> Option<(u64, u64)> {
    match state.order().places() {
        [low, high] => Some((low.response, high.response)),
        _ => None,
    }
}
