//! Jobs that miss their deadlines.
ghost use Rattle.std.specs.Prelude.{◌+◌, ◌++◌, ◌<◌, ◌≡◌, OnOk, length, string_bytes};
ghost use Rattle.frames.specs.PictureRows.{at_spot, spot_in};
ghost use Rattle.drawn_jobs.specs.Misses.{all_missed, badge_after, badge_text, due_badge, has_badge, hatch_path, hatch_text, is_late, is_seen_miss, late_by, latest_in, miss_text, missed_in, misses, misses_in, misses_text, row_misses};

use crate::jobs::{limit_of, put_job_signs, put_told};
use ceiling_kernel::JobRecord;
use frames::{
    Bar, Chart, Frame, Lane, TaskRow, ended, find_row, is_by_end, is_from_start, job_at, sees_from,
    top_of, x_after, x_of,
};
use std::alloc::AllocError;

// Whether a job of a row's task misses its deadline.
fn is_late(frame: Frame, row: &TaskRow, job: &JobRecord) -> bool
    ensures { result ≡ is_late frame row.now job.now }
{
    let deadline = row.sheet.deadline();
    match job.finish {
        Some(finish) => finish.saturating_sub(job.release) > deadline,
        None => frame.until.saturating_sub(job.release) >= deadline,
    }
}

// Whether it is one of a row's task, too.
fn misses_in(frame: Frame, row: &TaskRow, job: &JobRecord) -> bool
    ensures { result ≡ misses_in frame row.now job.now }
{
    job.name == row.sheet.name() && is_late(frame, row, job)
}

/// How many jobs of a row's task miss their deadlines.
pub fn missed_in(frame: Frame, row: &TaskRow, jobs: &[JobRecord]) -> usize
    ensures { result ≡ missed_in frame row.now jobs.now }
{
    let mut count = 0;
    for job in jobs {
        count += misses_in(frame, row, job) as usize;
    }
    count
}

// How long after its deadline a job of a row's task is done; 0 where it isn't done later.
fn late_by(row: &TaskRow, job: &JobRecord) -> u64
    ensures { result ≡ late_by row.now job.now }
{
    if job.name != row.sheet.name() {
        return 0;
    }
    match job.finish {
        Some(finish) => {
            let response = finish.saturating_sub(job.release);
            response.saturating_sub(row.sheet.deadline())
        }
        None => 0,
    }
}

/// How long after its deadline the latest job of a row's task is done, in microseconds; 0 where none is done later.
pub fn latest_in(row: &TaskRow, jobs: &[JobRecord]) -> u64
    ensures { result ≡ latest_in row.now jobs.now }
{
    let mut latest = 0;
    for job in jobs {
        latest = late_by(row, job).max(latest);
    }
    latest
}

// Whether a job misses its deadline.
fn misses(frame: Frame, rows: &[TaskRow], job: &JobRecord) -> bool
    ensures { result ≡ misses frame rows.now job.now }
{
    match find_row(rows, job.name) {
        Some(k) => is_late(frame, &rows[k], job),
        None => false,
    }
}

/// How many of all jobs do.
pub fn all_missed(frame: Frame, rows: &[TaskRow], jobs: &[JobRecord]) -> usize
    ensures { result ≡ all_missed frame rows.now jobs.now }
{
    let mut count = 0;
    for job in jobs {
        count += misses(frame, rows, job) as usize;
    }
    count
}

// Whether a job of a row's task misses its deadline in the window.
fn is_seen_miss(frame: Frame, row: &TaskRow, job: &JobRecord) -> bool
    ensures { result ≡ is_seen_miss frame row.now job.now }
{
    misses_in(frame, row, job)
        && is_by_end(frame, job.release, row.sheet.deadline())
        && frame.from < ended(frame, job)
}

// Whether the deadline of a job has a badge: the last one, if there is one, is 18 pixels before it.
fn has_badge(frame: Frame, row: &TaskRow, last: Option<u64>, job: &JobRecord) -> bool
    ensures { result ≡ has_badge frame last (job.now.release + row.now.sheet.deadline) }
{
    let deadline = row.sheet.deadline();
    if !is_from_start(frame, job.release, deadline) {
        return false;
    }
    match last {
        None => true,
        Some(last) => {
            let x = x_after(frame, job.release, deadline);
            x >= 180 && last <= x - 180
        }
    }
}

// The last badge behind a job.
fn badge_after(frame: Frame, row: &TaskRow, last: Option<u64>, job: &JobRecord) -> Option<u64>
    ensures { result ≡ badge_after frame row.now last job.now }
{
    if is_seen_miss(frame, row, job) && has_badge(frame, row, last, job) {
        Some(x_after(frame, job.release, row.sheet.deadline()))
    } else {
        last
    }
}

/// Puts a disc with a cross.
pub fn put_badge(x: u64, y: u64, text: &mut String) -> Result<(), AllocError>
    ensures { OnOk result (string_bytes text.new ≡ string_bytes text.old ++ badge_text x y) }
{
    writeln!(
        text,
        "<path class=\"x\" d=\"M{x} {y}h1\"/><path class=\"y\" d=\"M{x} {y}m-38-38l76 76m0-76l-76 76\"/>"
    )
}

// From the deadline up to the finish, or to the end, and what is told of it.
fn put_hatch(lane: &Lane<'_>, job: &JobRecord, text: &mut String) -> Result<(), AllocError>
    ensures { OnOk result (string_bytes text.new ≡ string_bytes text.old
        ++ hatch_text (hatch_path lane.now.frame lane.now.spot.k lane.now.row.now job.now)
        lane.now.row.now job.now) }
{
    let deadline = lane.row.sheet.deadline();
    let x = x_after(lane.frame, job.release, deadline);
    let hatch = Bar {
        x,
        right: x_of(lane.frame, ended(lane.frame, job)).max(x + 20),
        y: top_of(lane.spot.k) + 145,
        high: 220,
    };
    write!(text, "<path class=\"z\" d=\"{hatch}\"><title>")?;
    put_told(job, text)?;
    writeln!(text, ", deadline {deadline} us missed</title></path>")
}

// A badge at the deadline, where that has one.
fn put_due_badge(
    lane: &Lane<'_>,
    last: Option<u64>,
    job: &JobRecord,
    text: &mut String,
) -> Result<(), AllocError>
    ensures { OnOk result (string_bytes text.new ≡ string_bytes text.old
        ++ due_badge lane.now.frame lane.now.spot.k last (job.now.release +
        lane.now.row.now.sheet.deadline)) }
{
    if !has_badge(lane.frame, lane.row, last, job) {
        return Ok(());
    }
    let x = x_after(lane.frame, job.release, lane.row.sheet.deadline());
    put_badge(x, top_of(lane.spot.k) + 85, text)
}

// A job in a row, if it misses its deadline in the window.
fn put_miss(
    lane: &Lane<'_>,
    last: Option<u64>,
    job: &JobRecord,
    text: &mut String,
) -> Result<(), AllocError>
    ensures { OnOk result (string_bytes text.new ≡ string_bytes text.old
        ++ miss_text lane.now.frame lane.now.spot.k lane.now.row.now last job.now) }
{
    if !is_seen_miss(lane.frame, lane.row, job) {
        return Ok(());
    }
    put_hatch(lane, job, text)?;
    put_due_badge(lane, last, job, text)?;
    // (a job whose box is in the window has signs there)
    if !sees_from(lane.frame, job.release, limit_of(lane.row)) {
        put_job_signs(lane, job, text)?;
    }
    Ok(())
}

// Those of a row.
fn put_row_misses(lane: &Lane<'_>, jobs: &[JobRecord], text: &mut String) -> Result<(), AllocError>
    ensures { OnOk result (string_bytes text.new ≡ string_bytes text.old
        ++ row_misses lane.now.frame jobs.now lane.now.spot.k lane.now.row.now) }
{
    let mut last = None;
    for i in 0..jobs.len() {
        let job = job_at(jobs, i);
        put_miss(lane, last, &job, text)?;
        last = badge_after(lane.frame, lane.row, last, &job);
    }
    Ok(())
}

// What is missed in the row at a place, where one stands there.
fn put_misses_at(chart: &Chart<'_>, k: usize, text: &mut String) -> Result<(), AllocError>
    requires { k < length chart.now.shown.now }
    ensures { OnOk result (string_bytes text.new ≡ string_bytes text.old
        ++ at_spot chart.now.rows.now (spot_in chart.now.shown.now k) (λ s. row_misses
        chart.now.frame chart.now.jobs.now s.k)) }
{
    let spot = chart.spot(k);
    if spot.rank < chart.rows.len() {
        put_row_misses(&chart.lane(spot), chart.jobs, text)?;
    }
    Ok(())
}

/// Puts what is missed in each row.
#[tactic(auto, using(frames::proofs::Eachs::each_init, frames::proofs::Eachs::each_next))]
pub fn put_misses(chart: &Chart<'_>, text: &mut String) -> Result<(), AllocError>
    ensures { OnOk result (string_bytes text.new ≡ string_bytes text.old
        ++ misses_text chart.now.frame chart.now.rows.now chart.now.shown.now chart.now.jobs.now) }
{
    for k in 0..chart.shown.len() {
        put_misses_at(chart, k, text)?;
    }
    Ok(())
}
