//! Jobs of a task that arrive close to each other, as bands.
ghost use Rattle.std.specs.Prelude.{◌≡◌, ◌+◌, ◌-◌, ◌<◌, ◌≤◌, length, nat_lt};
ghost use Rattle.task_sheet.specs.Demand.{greatest_of};
ghost use Rattle.pieces.specs.Bands.{job_of, all_of, last_of, is_close, joins, begins, next_of, stretch_of, band_of, is_banded, arrival_of};

use ceiling_kernel::JobRecord;
use task_sheet::Name;

/// Jobs of a task: how many they are, and when the last of them arrives, in microseconds.
#[derive(Clone, Copy)]
pub struct Band {
    pub count: usize,
    pub latest: u64,
}

/// The jobs of the task with a name among some.
pub fn band_in(jobs: &[JobRecord], name: Name) -> Band
    ensures count { result.count ≡ length (all_of name jobs.now) }
    ensures latest { result.latest ≡ greatest_of arrival_of (all_of name jobs.now) }
{
    let mut count = 0;
    let mut latest = 0;
    for job in jobs {
        if job.name == name {
            count += 1;
            latest = job.release.max(latest);
        }
    }
    Band { count, latest }
}

// The job at a place.
fn job_at(jobs: &[JobRecord], n: usize) -> JobRecord
    requires { n < length jobs.now }
    ensures { result ≡ job_of jobs.now n }
{
    jobs[n]
}

// The last job of a task among the first n.
fn last_of(jobs: &[JobRecord], name: Name, n: usize) -> Option<JobRecord>
    requires { n ≤ length jobs.now }
    ensures { result ≡ last_of jobs.now name n }
{
    for i in 0..n {
        let job = job_at(jobs, n - 1 - i);
        if job.name == name {
            return Some(job);
        }
    }
    None
}

// Whether a job arrives less than a gap behind one before it.
fn is_close(gap: u64, last: Option<JobRecord>, job: JobRecord) -> bool
    ensures { result ≡ is_close gap last job }
{
    match last {
        None => false,
        Some(last) => job.release.saturating_sub(last.release) < gap,
    }
}

/// Whether job n arrives less than a gap behind the one before it of its task: it stands in the same band.
pub fn joins(gap: u64, jobs: &[JobRecord], n: usize) -> bool
    requires { n < length jobs.now }
    ensures { result ≡ joins gap jobs.now n }
{
    let job = job_at(jobs, n);
    is_close(gap, last_of(jobs, job.name, n), job)
}

// Whether a band of a task begins with job n.
fn begins(gap: u64, jobs: &[JobRecord], name: Name, n: usize) -> bool
    requires { n < length jobs.now }
    ensures { result ≡ begins gap jobs.now name n }
{
    let job = job_at(jobs, n);
    job.name == name && !joins(gap, jobs, n)
}

// With which job the next band of job n's task begins, or how many jobs there are.
fn next_of(gap: u64, jobs: &[JobRecord], n: usize) -> usize
    requires { n < length jobs.now }
    ensures value { result ≡ next_of gap jobs.now n }
    ensures behind { n < result }
    ensures within { result ≤ length jobs.now }
{
    let name = job_at(jobs, n).name;
    for next in n + 1..jobs.len() {
        if begins(gap, jobs, name, next) {
            return next;
        }
    }
    jobs.len()
}

/// All jobs from job n up to the one with which the next band of its task begins: those of them that are of its task are one
/// band, where job n doesn't join another.
pub fn stretch_of(gap: u64, jobs: &[JobRecord], n: usize) -> &[JobRecord]
    requires { n < length jobs.now }
    ensures { result.now ≡ stretch_of gap jobs.now n }
{
    let next = next_of(gap, jobs, n);
    &jobs[n..next]
}

// Whether more than job n stand in the band that begins with it.
fn has_more(gap: u64, jobs: &[JobRecord], n: usize) -> bool
    requires { n < length jobs.now }
    ensures { result ≡ nat_lt 1 (length (band_of gap jobs.now n)) }
{
    let stretch = stretch_of(gap, jobs, n);
    band_in(stretch, job_at(jobs, n).name).count > 1
}

/// Whether job n stands in a band with others.
pub fn is_banded(gap: u64, jobs: &[JobRecord], n: usize) -> bool
    ensures { result ≡ is_banded gap jobs.now n }
{
    n < jobs.len() && (joins(gap, jobs, n) || has_more(gap, jobs, n))
}
