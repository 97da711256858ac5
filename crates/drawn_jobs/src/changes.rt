//! Responses that changed.
ghost use Rattle.std.specs.Prelude.{◌+◌, ◌<◌, ◌≡◌, ◌≤◌, ◌^◌, ◌++◌, OnOk, length, slice_get, string_bytes};
ghost use Rattle.frames.specs.declared.places.TheConstants.{PLACES_LIMIT};
ghost use Rattle.frames.specs.PictureRows.{record_at};
ghost use Rattle.drawn_jobs.specs.Changes.{all_changed, change_at, change_of, change_sign, changes_text, counted_with, done_by, has_changed, is_changed, response_text, response_word, same_finish, same_release};

use crate::marks::is_shown;
use ceiling_kernel::JobRecord;
use frames::{Chart, Frame, ended, job_at, name_of, top_of, x_of};
use std::alloc::AllocError;

// Whether two jobs are of one release.
fn same_release(old: &JobRecord, job: &JobRecord) -> bool
    ensures { result ≡ same_release old.now job.now }
{
    old.name == job.name && old.release == job.release
}

// Whether both are done at one time, or neither is done.
fn same_finish(finish: Option<u64>, other: Option<u64>) -> bool
    ensures { result ≡ same_finish finish other }
{
    match finish {
        None => other.is_none(),
        Some(finish) => match other {
            None => false,
            Some(other) => finish == other,
        },
    }
}

// When a job is done, as far as it is known by an end.
fn done_by(end: u64, finish: Option<u64>) -> Option<u64>
    ensures { result ≡ done_by end finish }
{
    match finish {
        None => None,
        Some(finish) => if finish <= end { Some(finish) } else { None },
    }
}

// Whether the response of a job is another than before, as far as it is known by the end of both runs.
fn is_changed(end: u64, old: &JobRecord, job: &JobRecord) -> bool
    ensures { result ≡ is_changed end old.now job.now }
{
    same_release(old, job) && !same_finish(done_by(end, old.finish), done_by(end, job.finish))
}

// Whether the response of job i is another than that of the job of the same number before.
fn has_changed(end: u64, old: &[JobRecord], jobs: &[JobRecord], i: usize) -> bool
    requires { i < length jobs.now }
    ensures { result ≡ has_changed end (record_at jobs.now i) (slice_get old.now i) }
{
    i < old.len() && is_changed(end, &job_at(old, i), &job_at(jobs, i))
}

// A count, and one more where something is so.
fn counted_with(is: bool, count: usize) -> usize
    requires { count < 2 ^ 63 }
    ensures value { result ≡ counted_with is count }
    ensures within { result ≤ count + 1 }
{
    if is { count + 1 } else { count }
}

/// How many responses are another than in a run before, as far as they are known by the end of both.
pub fn all_changed(end: u64, old: &[JobRecord], jobs: &[JobRecord]) -> usize
    ensures { result ≡ all_changed end old.now jobs.now }
{
    let mut count = 0;
    for i in 0..jobs.len() {
        count = counted_with(has_changed(end, old, jobs, i), count);
    }
    count
}

// How long after its arrival a job is done.
fn put_response(job: &JobRecord, text: &mut String) -> Result<(), AllocError>
    ensures { OnOk result (string_bytes text.new ≡ string_bytes text.old
        ++ response_text job.now.release job.now.finish) }
{
    match job.finish {
        None => text.push_str("not done"),
        Some(finish) => {
            let response = finish.saturating_sub(job.release);
            write!(text, "{response} us")
        }
    }
}

// What stands before that.
fn response_word(finish: Option<u64>) -> &'static str
    ensures { result.now ≡ response_word finish }
{
    match finish {
        None => ": ",
        Some(_) => ": response ",
    }
}

// A sign below the end of a response, and what that was before.
fn put_change_sign(
    frame: Frame,
    k: usize,
    old: &JobRecord,
    job: &JobRecord,
    text: &mut String,
) -> Result<(), AllocError>
    requires { k ≤ PLACES_LIMIT }
    ensures { OnOk result (string_bytes text.new ≡ string_bytes text.old
        ++ change_sign frame k old.now job.now) }
{
    let (x, y) = (x_of(frame, ended(frame, job)), top_of(k) + 360);
    let (name, word) = (job.name, response_word(job.finish));
    write!(
        text,
        "<path class=\"ch\" d=\"M{x} {y}l-45 80h90z\"><title>{name}{word}"
    )?;
    put_response(job, text)?;
    text.push_str(", before ")?;
    put_response(old, text)?;
    writeln!(text, "</title></path>")
}

// The same where the response is another, and its end is in the window.
fn put_change(
    frame: Frame,
    end: u64,
    k: usize,
    old: &JobRecord,
    job: &JobRecord,
    text: &mut String,
) -> Result<(), AllocError>
    requires { k ≤ PLACES_LIMIT }
    ensures { OnOk result (string_bytes text.new ≡ string_bytes text.old
        ++ change_of frame end k job.now old.now) }
{
    if is_changed(end, old, job) && is_shown(frame, ended(frame, job), 0) {
        put_change_sign(frame, k, old, job, text)?;
    }
    Ok(())
}

// Job i, beside the one of the same number before.
fn put_change_at(
    chart: &Chart<'_>,
    end: u64,
    old: &[JobRecord],
    i: usize,
    text: &mut String,
) -> Result<(), AllocError>
    requires { i < length chart.now.jobs.now }
    ensures { OnOk result (string_bytes text.new ≡ string_bytes text.old
        ++ change_at chart.now.frame end chart.now.rows.now chart.now.shown.now old.now
        chart.now.jobs.now i) }
{
    let Some(spot) = chart.spot_of(name_of(chart.jobs, i)) else {
        return Ok(());
    };
    if i < old.len() {
        let job = job_at(chart.jobs, i);
        put_change(chart.frame, end, spot.k, &job_at(old, i), &job, text)?;
    }
    Ok(())
}

/// Puts a sign at each job whose response is another than in a run before, as far as it is known by the end of both.
#[tactic(auto, using(frames::proofs::Eachs::each_init, frames::proofs::Eachs::each_next))]
pub fn put_changes(
    chart: &Chart<'_>,
    end: u64,
    old: &[JobRecord],
    text: &mut String,
) -> Result<(), AllocError>
    ensures { OnOk result (string_bytes text.new ≡ string_bytes text.old
        ++ changes_text chart.now.frame end chart.now.rows.now chart.now.shown.now old.now
        chart.now.jobs.now) }
{
    for i in 0..chart.jobs.len() {
        put_change_at(chart, end, old, i, text)?;
    }
    Ok(())
}
