//! The end of a trace.
ghost use Rattle.std.specs.Prelude.{◌≡◌};
ghost use Rattle.task_sheet.specs.Demand.{greatest_of};
ghost use Rattle.observed.specs.End.{end_of, last_of};

use trace_text::{TraceJob, TraceSlice};

// The last time that a job has.
fn last_of(job: TraceJob) -> u64
    ensures { result ≡ last_of job }
{
    job.finish.unwrap_or(job.arrival)
}

// The last stop of slices, 0 of none.
fn last_stop(slices: &[TraceSlice]) -> u64
    ensures { result ≡ greatest_of (λ s. s.stop) slices.now }
{
    let mut last = 0;
    for slice in slices {
        last = slice.stop.max(last);
    }
    last
}

// The last time of jobs, 0 of none.
fn last_time(jobs: &[TraceJob]) -> u64
    ensures { result ≡ greatest_of last_of jobs.now }
{
    let mut last = 0;
    for job in jobs {
        last = last_of(*job).max(last);
    }
    last
}

/// The last time of a trace, in microseconds.
pub fn end_of(slices: &[TraceSlice], jobs: &[TraceJob]) -> u64
    ensures { result ≡ end_of slices.now jobs.now }
{
    last_stop(slices).max(last_time(jobs))
}
