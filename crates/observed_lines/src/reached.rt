//! What the jobs of a level came to.
ghost use Rattle.std.specs.Prelude.{◌≡◌, length};
ghost use Rattle.task_sheet.specs.Demand.{greatest_of};
ghost use Rattle.observed_lines.specs.ObservedLines.{greatest_response};
ghost use Rattle.observed_lines.specs.Reached.{is_done_of, least_gap, lesser_gap, of_level};

use observed::Seen;

// The jobs of a level: how many there are, for how long one executed at most, and the least gap
// before one, if there is one.
#[derive(Clone, Copy)]
pub(crate) struct Reached {
    pub jobs: usize,
    pub executed: u128,
    pub gap: Option<u64>,
}

// The lesser of two gaps, if there are any.
fn lesser_gap(one: Option<u64>, other: Option<u64>) -> Option<u64>
    ensures { result ≡ lesser_gap one other }
{
    match (one, other) {
        (Some(one), Some(other)) => Some(one.min(other)),
        (Some(one), None) => Some(one),
        (None, other) => other,
    }
}

// What the jobs of a level came to.
pub(crate) fn reached_of(level: usize, seen: &[Seen]) -> Reached
    ensures jobs { result.jobs ≡ length (of_level level seen.now) }
    ensures executed { result.executed ≡ greatest_of (λ s. s.executed) (of_level level seen.now) }
    ensures gap { result.gap ≡ least_gap (of_level level seen.now) }
{
    let mut jobs = 0;
    let mut executed: u128 = 0;
    let mut gap = None;
    for job in seen {
        if job.level == level {
            jobs += 1;
            executed = executed.max(job.executed);
            gap = lesser_gap(gap, job.gap);
        }
    }
    Reached {
        jobs,
        executed,
        gap,
    }
}

// The job is of the level, and done.
fn is_done_of(level: usize, job: &Seen) -> bool
    ensures { result ≡ is_done_of level job.now }
{
    job.level == level && job.is_finished
}

// The greatest response of a level, where a job of it is done.
pub(crate) fn greatest_response(level: usize, seen: &[Seen]) -> Option<u64>
    ensures { result ≡ greatest_response level seen.now }
{
    let mut done: usize = 0;
    let mut greatest = 0;
    for job in seen {
        if is_done_of(level, job) {
            done += 1;
            greatest = greatest.max(job.lasted);
        }
    }
    if done == 0 {
        return None;
    }
    Some(greatest)
}
