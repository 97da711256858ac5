//! What a trace shows of the jobs of a set's tasks.
ghost use Rattle.std.specs.Prelude.{◌≡◌, ◌<◌, length, map, All, None, MatchResult, IfOk};
ghost use Rattle.trace_text.specs.TraceFaults.{IsTraceFault};
ghost use Rattle.observed.specs.Observed.{observed_fault, observed_in, seen_jobs};
ghost use Rattle.observed.specs.Pieces.{pieces_at};

use crate::end::end_of;
use crate::near::{behind, behind_next, fill_near, rises};
use crate::pieces::{Housed, homeless_line, homes_of, level_of};
use crate::promises::{Promise, shared, shared_at};
use crate::seen::{Seen, seen_job, until_of};
use ceilings::Tabled;
use std::alloc::{AllocError, Global};
use std::rc::Rc;
use trace_text::{TraceFault, TraceJob, TraceLines};

// What is seen of each job of a task of the set.
fn seen_jobs(
    alloc: Global,
    set: &Tabled<'_>,
    promises: &[Promise],
    shared: &[Rc<Promise>],
    end: u64,
    housed: Housed<'_>,
    jobs: &[TraceJob],
) -> Result<Vec<Seen>, AllocError>
    requires tasks { All (λ p. p.task < length set.now) promises.now }
    requires shared { map (λ s. s.value) shared.now ≡ promises.now }
    ensures { IfOk result (λ seen. seen.items
        ≡ seen_jobs set.now promises.now end
        (pieces_at promises.now housed.entry.homes.now housed.entry.slices.now) jobs.now) }
{
    let sorted = rises(promises, housed);
    let mut seen = Vec::new(alloc);
    let mut near = Vec::new(alloc);
    let mut reached = 0;
    let mut rest = behind(promises, housed, 0);
    for place in 0..jobs.len() {
        let job = &jobs[place];
        rest = behind_next(promises, housed, rest, reached, job.arrival);
        reached = job.arrival;
        if let Some(level) = level_of(promises, job.name) {
            fill_near(&mut near, promises, sorted, rest, until_of(end, job))?;
            let promise = shared_at(shared, promises, level);
            let before = &jobs[..place];
            seen.push(seen_job(
                alloc, set, promises, promise, level, end, &near, before, job,
            )?)?;
        }
    }
    Ok(seen)
}

/// What a trace shows of the jobs of a set's tasks, of which these are the promises, the lowest level first: the jobs in
/// their order, without those of threads that the set doesn't have. Refused only as `NoJob`, at the first slice of a task
/// that lies in no job of it, or as `OutOfMemory`.
#[tactic(auto, using(crate::proofs::HomeLaws::housed))]
pub fn observe(
    alloc: Global,
    set: &Tabled<'_>,
    promises: &[Promise],
    trace: &TraceLines,
) -> Result<Vec<Seen>, TraceFault>
    requires { All (λ p. p.task < length set.now) promises.now }
    ensures { MatchResult result
        (λ seen. (observed_fault promises.now trace.now ≡ None)
        × (seen.items ≡ observed_in set.now promises.now trace.now))
        (λ fault. IsTraceFault fault (observed_fault promises.now trace.now)) }
{
    let homes = homes_of(alloc, &trace.jobs, &trace.slices)?;
    let housed = Housed {
        slices: &trace.slices,
        homes: &homes,
    };
    if let Some(line) = homeless_line(promises, housed) {
        return Err(TraceFault::NoJob { line });
    }
    let end = end_of(&trace.slices, &trace.jobs);
    let shared = shared(alloc, promises)?;
    let seen = seen_jobs(alloc, set, promises, &shared, end, housed, &trace.jobs)?;
    Ok(seen)
}
