//! Of which level and of which job a slice of a trace is.
ghost use Rattle.std.specs.Prelude.{◌≡◌, ◌<◌, [], ◌∷◌, List, true, length, map, MatchOption, IfOk, IfSome};
ghost use Rattle.observed.specs.Pieces.{homeless_line, is_homeless, is_of, job_of, level_of, piece_with, pieces_at, pieces_of};
ghost use Rattle.observed.specs.Sweeps.{arrive_from, begin_from};
ghost use Rattle.observed.specs.declared.promises.Promise.{Promise};

use crate::promises::Promise;
use crate::sweeps::{find_job, jobs_rise, slices_rise};
use std::alloc::{AllocError, Global};
use task_sheet::Name;
use trace_text::{TraceJob, TraceSlice};

/// A slice of a trace, in microseconds, with the level of its task, counted from 0, and the place of its job among the
/// jobs of the trace, where it has them.
#[derive(Clone, Copy)]
pub struct Piece {
    pub line: u64,
    pub name: Name,
    pub level: Option<usize>,
    pub job: Option<usize>,
    pub start: u64,
    pub stop: u64,
    /// At which the thread ran, where it is said.
    pub priority: Option<u64>,
}

// The level of the task with a name; none for a thread of the node's own.
pub(crate) fn level_of(promises: &[Promise], name: Name) -> Option<usize>
    ensures is { result ≡ level_of promises.now name }
    ensures within { IfSome result (λ level. level < length promises.now) }
{
    promises.iter().position(|promise| promise.name == name)
}

// The slice is of the job's task and lies between its arrival and its finish.
pub(crate) fn is_of(job: TraceJob, slice: TraceSlice) -> bool
    ensures { result ≡ is_of slice job }
{
    job.name == slice.name
        && job.arrival <= slice.start
        && slice.stop <= job.finish.unwrap_or(slice.stop)
}

// The place of the first job that a slice is of.
fn job_of(jobs: &[TraceJob], slice: TraceSlice) -> Option<usize>
    ensures { result ≡ job_of jobs.now slice }
{
    jobs.iter().position(|job| is_of(*job, slice))
}

/// A slice with its level and its job.
pub fn piece_of(promises: &[Promise], slice: &TraceSlice, job: Option<usize>) -> Piece
    ensures { result ≡ piece_with promises.now slice.now job }
{
    Piece {
        line: slice.line,
        name: slice.name,
        level: level_of(promises, slice.name),
        job,
        start: slice.start,
        stop: slice.stop,
        priority: slice.priority,
    }
}

// The place of the job that each slice is of, where slices and jobs stand by time.
fn homes_swept(
    alloc: Global,
    jobs: &[TraceJob],
    slices: &[TraceSlice],
) -> Result<Vec<Option<usize>>, AllocError>
    requires jobs { arrive_from 0 jobs.now ≡ true }
    requires slices { begin_from 0 slices.now ≡ true }
    ensures { IfOk result (λ homes. homes.items ≡ map (job_of jobs.now) slices.now) }
{
    let mut homes = Vec::with_capacity(alloc, slices.len())?;
    let mut live = Vec::new(alloc);
    let mut next = 0;
    let mut reached = 0;
    for slice in slices {
        let found = find_job(&mut live, jobs, next, slice)?;
        reached = slice.start;
        next = found.next;
        homes.push(found.job)?;
    }
    Ok(homes)
}

// The same where they may stand in any order.
fn homes_found(
    alloc: Global,
    jobs: &[TraceJob],
    slices: &[TraceSlice],
) -> Result<Vec<Option<usize>>, AllocError>
    ensures { IfOk result (λ homes. homes.items ≡ map (job_of jobs.now) slices.now) }
{
    let mut homes = Vec::with_capacity(alloc, slices.len())?;
    for slice in slices {
        homes.push(job_of(jobs, *slice))?;
    }
    Ok(homes)
}

/// The place of the first job that each slice of a trace lies in. The error is out of memory.
#[tactic(auto, using(crate::proofs::HomeLaws::housed))]
pub fn homes_of(
    alloc: Global,
    jobs: &[TraceJob],
    slices: &[TraceSlice],
) -> Result<Vec<Option<usize>>, AllocError>
    ensures homes { IfOk result (λ homes. homes.items ≡ map (job_of jobs.now) slices.now) }
    ensures pieces { IfOk result (λ homes. (promises : List Promise)
        → pieces_at promises homes.items slices.now ≡ pieces_of promises jobs.now slices.now) }
{
    if jobs_rise(jobs) && slices_rise(slices) {
        homes_swept(alloc, jobs, slices)
    } else {
        homes_found(alloc, jobs, slices)
    }
}

/// Slices of a trace, and beside each the place of the first job that it lies in, if it does in one.
#[derive(Clone, Copy)]
pub struct Housed<'a> {
    pub slices: &'a [TraceSlice],
    pub homes: &'a [Option<usize>],
}

/// The first of slices, the place of its job, and the others.
pub fn split_first<'a>(
    _promises: &[Promise],
    housed: Housed<'a>,
) -> Option<(&'a TraceSlice, Option<usize>, Housed<'a>)>
    ensures parts { MatchOption result
        (pieces_at _promises.now housed.entry.homes.now housed.entry.slices.now ≡ [])
        (λ x. pieces_at _promises.now housed.entry.homes.now housed.entry.slices.now
        ≡ piece_with _promises.now x.0.now x.1 ∷ pieces_at _promises.now x.2.homes.now x.2.slices.now) }
    ensures less { IfSome result (λ x. length x.2.homes.now < length housed.entry.homes.now) }
{
    let (home, homes) = housed.homes.split_first()?;
    let (slice, slices) = housed.slices.split_first()?;
    Some((slice, *home, Housed { slices, homes }))
}

// A piece is of a task of the set, and lies in no job of it.
fn is_homeless(piece: &Piece) -> bool
    ensures { result ≡ is_homeless piece.now }
{
    piece.level.is_some() && piece.job.is_none()
}

// The line of the first of such pieces.
pub(crate) fn homeless_line(promises: &[Promise], housed: Housed<'_>) -> Option<u64>
    ensures { result ≡ homeless_line (pieces_at promises.now housed.entry.homes.now housed.entry.slices.now) }
{
    let mut rest = housed;
    while let Some((slice, home, more)) = split_first(promises, rest) {
        let piece = piece_of(promises, slice, home);
        if is_homeless(&piece) {
            return Some(piece.line);
        }
        rest = more;
    }
    None
}
