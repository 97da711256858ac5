//! What the jobs of a task came to.
ghost use Rattle.std.specs.Prelude.{◌≡◌, length};
ghost use Rattle.task_sheet.specs.Demand.{greatest_of};
ghost use Rattle.run_lines.specs.Reached.{done_of, is_done_of, response_of};

use ceiling_kernel::JobRecord;
use task_sheet::Name;

/// How many jobs of a task are done, and the greatest response among them, in microseconds.
#[derive(Clone, Copy)]
pub struct Outcome {
    pub done: usize,
    pub greatest: u64,
}

// The job is done, and one of the task with a name.
fn is_done_of(job: JobRecord, name: Name) -> bool
    ensures { result ≡ is_done_of name job }
{
    job.finish.is_some() && job.name == name
}

// From its arrival to its finish.
fn response_of(job: JobRecord) -> u64
    ensures { result ≡ response_of job }
{
    job.finish.unwrap_or(0).saturating_sub(job.release)
}

/// What the jobs of the task with a name came to.
pub fn outcome_of(jobs: &[JobRecord], name: Name) -> Outcome
    ensures done { result.done ≡ length (done_of name jobs.now) }
    ensures greatest { result.greatest ≡ greatest_of response_of (done_of name jobs.now) }
{
    let mut done = 0;
    let mut greatest = 0;
    for job in jobs {
        if is_done_of(*job, name) {
            done += 1;
            greatest = greatest.max(response_of(*job));
        }
    }
    Outcome { done, greatest }
}
