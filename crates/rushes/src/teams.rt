//! A thread for each team.
ghost use Rattle.std.specs.Prelude.{◌≡◌, ◌≤◌, [], IfOk, IfErr, length, map, vec_capacity};
ghost use Rattle.candidate_workers.specs.WorkerFaults.{IsBadCount};
ghost use Rattle.rushes.specs.RushFaults.{Each, IsEnd, first_fault};
ghost use Rattle.rushes.specs.TeamLines.{lines_of};

use crate::hand::{Hand, run_lines};
use crate::site::Site;
use crate::split::{Split, TeamLine};
use book_lock::Pass;
use scripts::RushFault;
use std::alloc::{AllocError, Global};
use std::snapshot::Snapshot;
use std::sync::Wait;
use std::sync::ledger::Ledger;
use std::thread;
use std::thread::{Promise, PromisedHandle, Scope, Threads};

/// What a team's lines come to: the team after all of them, or the fault that ended them.
pub(crate) type Ended<L> = Result<Hand<L>, RushFault>;

/// What a thread gives back is what the lines made of this pass.
#[derive(Drop)]
pub(crate) struct TeamPromise<'a, L: Ledger> {
    lines: &'a [TeamLine<'a>],
    pass: Snapshot<Pass<L>>,
    workers: usize,
}

impl<'a, L: Ledger> Promise<Result<Hand<L>, RushFault>> for TeamPromise<'a, L> {
    ghost kept_by = { λ p r. IsEnd p.workers p.lines.now p.pass.value r };
}

// The thread of a team; or what the team came to, if it needs none or got none.
type Started<'a, L> = Result<PromisedHandle<Ended<L>, TeamPromise<'a, L>>, Ended<L>>;

// Starts a team's thread. A team without lines needs none.
fn start<'s, 'e: 's, L: Ledger + Send + Sync, R: Threads + Wait + Sync>(
    site: &'e Site<'e, L, R>,
    scope: &Scope<'s, &'e ()>,
    pass: Pass<L>,
    lines: &'e [TeamLine<'e>],
) -> Started<'e, L>
    requires { IsBadCount site.now.workers → ⊥ }
    ensures thread { IfOk result (λ h. (h.promise.lines.now ≡ lines.now)
        × (h.promise.workers ≡ site.now.workers)
        × (h.promise.pass.value ≡ pass)) }
    ensures over { IfErr result (λ ended. IsEnd site.now.workers lines.now pass ended) }
{
    if lines.is_empty() {
        return Err(run_lines(site, pass, lines));
    }
    let kept = TeamPromise {
        lines,
        pass: Snapshot::of(&pass),
        workers: site.workers,
    };
    match scope.spawn_with(kept, move || { run_lines(site, pass, lines) }) {
        Ok(handle) => Ok(handle),
        Err(_) => Err(Err(RushFault::ThreadRefused)),
    }
}

// What a team came to, once its thread is joined.
fn finish<'e, L: Ledger, R: Threads>(rt: &R, started: Started<'e, L>) -> Ended<L>
    ensures thread { IfOk started.entry (λ h. IsEnd h.promise.workers h.promise.lines.now
        h.promise.pass.value result) }
    ensures over { IfErr started.entry (λ ended. result ≡ ended) }
{
    match started {
        Ok(handle) => handle.join(rt),
        Err(ended) => ended,
    }
}

// Joins all teams in their order, and gives what each came to.
fn join_all<'e, L: Ledger, R: Threads>(
    rt: &R,
    all: Vec<Started<'e, L>>,
    room: Vec<Ended<L>>,
) -> Vec<Ended<L>>
    requires empty { room.items ≡ [] }
    requires room { length all.items ≤ vec_capacity room }
    ensures { Each (λ started ended. IfOk started
        (λ h. IsEnd h.promise.workers h.promise.lines.now h.promise.pass.value ended)
        × IfErr started (λ over. ended ≡ over))
        all.entry.items result.items }
{
    let mut ends = room;
    for started in all {
        ends.push_reserved(finish(rt, started));
    }
    ends
}

// Starts all teams, and joins them.
fn run_all<'s, 'e: 's, L: Ledger + Send + Sync, R: Threads + Wait + Sync>(
    site: &'e Site<'e, L, R>,
    scope: &Scope<'s, &'e ()>,
    passes: Vec<Pass<L>>,
    split: &'e Split<'e>,
) -> Result<Vec<Ended<L>>, AllocError>
    requires { IsBadCount site.now.workers → ⊥ }
    ensures { IfOk result (λ ends. Each
        (λ start ended. IsEnd site.now.workers (lines_of start.team [] split.now) start ended)
        passes.items ends.items) }
{
    let room = Vec::with_capacity(site.alloc, passes.len())?;
    let mut all = Vec::with_capacity(site.alloc, passes.len())?;
    for pass in passes {
        let lines = split.lines_of(pass.team());
        all.push_reserved(start(site, scope, pass, lines));
    }
    Ok(join_all(site.rt, all, room))
}

/// Runs the lines of each pass's team on a thread of its own, joins all threads, and gives what each team came to, in
/// the order of the passes.
pub(crate) fn run_teams<L: Ledger + Send + Sync, R: Threads + Wait + Sync>(
    site: &Site<'_, L, R>,
    passes: Vec<Pass<L>>,
    split: &Split<'_>,
) -> Result<Vec<Ended<L>>, AllocError>
    requires { IsBadCount site.now.workers → ⊥ }
    ensures { IfOk result (λ ends. Each
        (λ start ended. IsEnd site.now.workers (lines_of start.team [] split.now) start ended)
        passes.items ends.items) }
{
    thread::scope(
        thread::scope_env(),
        site.rt,
        |scope| -> Result<Vec<Ended<L>>, AllocError>
            requires { IsBadCount site.now.workers → ⊥ }
            ensures { IfOk result (λ ends. Each
                (λ start ended. IsEnd site.entry.now.workers
                (lines_of start.team [] split.entry.now) start ended)
                passes.items ends.items) }
        { run_all(site, scope, passes, split) },
    )
}

/// All teams in the order of their ends, put into room that was made before; or the fault of the first team that has one.
pub(crate) fn teams_of<L: Ledger>(
    ends: Vec<Ended<L>>,
    room: Vec<Hand<L>>,
) -> Result<Vec<Hand<L>>, RushFault>
    requires empty { room.items ≡ [] }
    requires room { length ends.items ≤ vec_capacity room }
    ensures teams { IfOk result (λ teams. ends.items ≡ map (λ last. Ok last) teams.items) }
    ensures fault { IfErr result (λ fault. first_fault ends.items ≡ Some fault) }
{
    let mut teams = room;
    for ended in ends {
        teams.push_reserved(ended?);
    }
    Ok(teams)
}

/// The passes of teams.
pub(crate) fn passes_of<L: Ledger>(
    alloc: Global,
    teams: Vec<Hand<L>>,
) -> Result<Vec<Pass<L>>, AllocError>
    ensures { IfOk result (λ passes. passes.items ≡ map (λ last. last.pass) teams.items) }
{
    let mut passes = Vec::with_capacity(alloc, teams.len())?;
    for last in teams {
        passes.push(last.into_pass())?;
    }
    Ok(passes)
}
