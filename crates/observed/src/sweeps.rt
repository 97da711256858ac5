//! The job that a slice is of, found in a sweep over jobs and slices that stand by time.
ghost use Rattle.std.specs.Prelude.{◌≡◌, ◌≤◌, ◌<◌, ◌++◌, ◌∷◌, [], true, drop, length, IfOk, OnOk};
ghost use Rattle.std.specs.List.{filter};
ghost use Rattle.observed.specs.Pieces.{job_of};
ghost use Rattle.observed.specs.Sweeps.{AreAlike, IsSwept, arrive_from, begin_behind, begin_from, goes_on, is_over, place_in, stand_from};

use crate::pieces::is_of;
use std::alloc::AllocError;
use trace_text::{TraceJob, TraceSlice};

// A job, and its place among those of a trace.
#[derive(Clone, Copy)]
pub(crate) struct Standing {
    pub place: usize,
    pub job: TraceJob,
}

// What was found: the place of the job that a slice is of, and of the first job that arrives later.
#[derive(Clone, Copy)]
pub(crate) struct Found {
    pub job: Option<usize>,
    pub next: usize,
}

// Each job arrives no sooner than the one before it.
pub(crate) fn jobs_rise(jobs: &[TraceJob]) -> bool
    ensures { result ≡ arrive_from 0 jobs.now }
{
    let mut least = 0;
    for job in jobs {
        if job.arrival < least {
            return false;
        }
        least = job.arrival;
    }
    true
}

// Each slice lasts, and begins no sooner than the one before it.
pub(crate) fn slices_rise(slices: &[TraceSlice]) -> bool
    ensures { result ≡ begin_from 0 slices.now }
{
    let mut least = 0;
    for slice in slices {
        if slice.start < least || slice.stop <= slice.start {
            return false;
        }
        least = slice.start;
    }
    true
}

// A job is finished by a time.
fn is_over(time: u64, job: TraceJob) -> bool
    ensures { result ≡ is_over time job }
{
    match job.finish {
        Some(finish) => finish <= time,
        None => false,
    }
}

// It isn't over by a time.
fn goes_on(time: u64, standing: &Standing) -> bool
    ensures { result ≡ goes_on time standing.now }
{
    !is_over(time, standing.job)
}

// Keeps those that aren't over by a time.
fn keep(live: &mut Vec<Standing>, time: u64)
    ensures { live.new.items ≡ filter (goes_on time) live.old.items }
{
    live.retain(|standing| goes_on(time, standing));
}

// Takes in a job at a place, unless it is over by a time.
fn take_one(
    live: &mut Vec<Standing>,
    place: usize,
    job: &TraceJob,
    time: u64,
) -> Result<(), AllocError>
    ensures { OnOk result (live.new.items
        ≡ live.old.items ++ filter (goes_on time) (stand_from place (job.now ∷ []))) }
{
    if !is_over(time, *job) {
        live.push(Standing { place, job: *job })?;
    }
    Ok(())
}

// Takes in the jobs from a place on that arrive up to a time and aren't over by then. The place of the first that arrives later.
fn take_in(
    live: &mut Vec<Standing>,
    jobs: &[TraceJob],
    next: usize,
    time: u64,
) -> Result<usize, AllocError>
    requires { IsSwept jobs.now time live.old.items next }
    ensures swept { IfOk result (λ place. IsSwept jobs.now time live.new.items place) }
    ensures behind { IfOk result (λ place. begin_behind time (drop place jobs.now) ≡ true) }
{
    let mut place = next;
    while place < jobs.len() && jobs[place].arrival <= time {
        take_one(live, place, &jobs[place], time)?;
        place += 1;
    }
    Ok(place)
}

// The place of the first of some that a slice is of.
fn place_in(live: &[Standing], slice: &TraceSlice) -> Option<usize>
    ensures { result ≡ place_in slice.now live.now }
{
    for standing in live {
        if is_of(standing.job, *slice) {
            return Some(standing.place);
        }
    }
    None
}

// The job that a slice is of, where those before a place that it may be of are known.
pub(crate) fn find_job(
    live: &mut Vec<Standing>,
    jobs: &[TraceJob],
    next: usize,
    slice: &TraceSlice,
) -> Result<Found, AllocError>
    requires swept { IsSwept jobs.now slice.now.start live.old.items next }
    requires lasts { slice.now.start < slice.now.stop }
    ensures swept { IfOk result (λ found. IsSwept jobs.now slice.now.start live.new.items found.next) }
    ensures job { IfOk result (λ found. found.job ≡ job_of jobs.now slice.now) }
{
    keep(live, slice.start);
    let next = take_in(live, jobs, next, slice.start)?;
    let job = place_in(live, slice);
    Ok(Found { job, next })
}
