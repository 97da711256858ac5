//! The lines of all teams on one desk.
ghost use Rattle.std.specs.Prelude.{◌≡◌, IfOk, string_bytes};
ghost use Rattle.candidate_workers.specs.WorkerFaults.{IsBadCount};
ghost use Rattle.drafts.specs.declared.team.TheConstants.{TEAM_LIMIT};
ghost use Rattle.rushes.specs.Printed.{IsRushText};

use crate::printing::{log_text, notes_text};
use crate::site::Site;
use crate::split::Split;
use crate::teams::{passes_of, run_teams, teams_of};
use book_lock::{CloseCause, Desk};
use drafts::TEAM_LIMIT;
use scripts::{Line, RushFault};
use std::alloc::Global;
use std::marker::Brand;
use std::sync::Wait;
use std::sync::ledger::{Blank, Ledger};
use std::thread::Threads;

/// What is printed of a rush.
#[derive(Drop)]
pub struct RushTexts {
    /// The lines of the log, and then those of the book.
    pub log: String,
    /// What is reported of lines that did nothing, by team and then by line.
    pub notes: String,
}

// Runs all lines on a new desk, closes it, and gives what is printed of it.
fn rush_on<L: Ledger + Send + Sync, R: Threads + Wait + Sync>(
    rt: &R,
    alloc: Global,
    blank: Blank,
    lines: &[Line],
    workers: usize,
) -> Result<RushTexts, RushFault>
    requires blank { (blank.name ≡ L.name) × (blank.parts ≡ L.parts) × (L.parts ≡ TEAM_LIMIT) }
    requires workers { IsBadCount workers → ⊥ }
    ensures { IfOk result (λ texts. IsRushText workers lines.now (string_bytes texts.log)
        (string_bytes texts.notes)) }
{
    let split = Split::new(alloc, lines)?;
    let Ok((desk, passes)) = Desk::<L>::new(alloc, blank, TEAM_LIMIT) else {
        return Err(RushFault::OutOfMemory);
    };
    // For the teams that come back; made before any thread starts.
    let room = Vec::with_capacity(alloc, passes.len())?;
    let site = Site {
        rt,
        alloc,
        desk: &desk,
        workers,
    };
    let ends = run_teams(&site, passes, &split)?;
    let teams = teams_of(ends, room)?;
    let notes = notes_text(alloc, &teams)?;
    let passes = passes_of(alloc, teams)?;
    match desk.close(passes) {
        Ok(closing) => {
            let log = log_text(alloc, &closing)?;
            Ok(RushTexts { log, notes })
        }
        Err(fault) => match fault.cause {
            CloseCause::ReceiptMismatch { team: _ } => Err(RushFault::ReceiptMismatch),
            CloseCause::MissingPass { team: _ } => unreachable!(),
        },
    }
}

/// Runs the lines of a script on an empty desk of `TEAM_LIMIT` teams, those of each team in their order on a thread of its own,
/// with at most so many workers for each commit, and gives the lines of the log and of the book, and what is reported of
/// lines that did nothing: their edit was refused, or their draft had ended. Lines `found` and `test` do nothing on other
/// drafts, and nothing is reported of that. A fault is that of the least team that has one.
pub fn rush_lines<R: Threads + Wait + Sync>(
    rt: &R,
    alloc: Global,
    lines: &[Line],
    workers: usize,
) -> Result<RushTexts, RushFault>
    requires { IsBadCount workers → ⊥ }
    ensures { IfOk result (λ texts. IsRushText workers lines.now (string_bytes texts.log)
        (string_bytes texts.notes)) }
{
    rush_on::<Brand, R>(rt, alloc, Blank::new(TEAM_LIMIT), lines, workers)
}
