//! Jobs, from their arrivals up to their bounds.
ghost use Rattle.std.specs.Prelude.{◌+◌, ◌++◌, ◌<◌, ◌≡◌, ◌≤◌, OnOk, length, string_bytes};
ghost use Rattle.frames.specs.Frame.{right_of, top_of, x_of};
ghost use Rattle.frames.specs.declared.frame.TheConstants.{RIGHTMOST};
ghost use Rattle.frames.specs.PictureRows.{on_spot, record_at};
ghost use Rattle.drawn_jobs.specs.Bands.{jobs_text, place_text};
ghost use Rattle.drawn_jobs.specs.Jobs.{goes_back, goes_on, job_signs, job_text, job_words, limit_of, sign_text, signs_text, unrun_text};

use crate::band::put_place;
use ceiling_kernel::JobRecord;
use frames::{
    Bar, Chart, Frame, Known, Lane, TaskRow, bar_of, ended, name_of, sees_between, sees_from,
    start_of, top_of, x_after, x_of,
};
use std::alloc::AllocError;

// How long after its arrival a job of a row's task is done at the latest, or without a bound has to be.
pub(crate) fn limit_of(row: &TaskRow) -> u64
    ensures { result ≡ limit_of row.now }
{
    row.bound.unwrap_or(row.sheet.deadline())
}

// Whether a job goes on before the window.
fn goes_back(frame: Frame, job: &JobRecord) -> bool
    ensures { result ≡ goes_back frame job.now }
{
    job.release < frame.from && frame.from < ended(frame, job)
}

// Whether it goes on behind the window.
pub(crate) fn goes_on(frame: Frame, finish: Option<u64>) -> bool
    ensures { result ≡ goes_on frame finish }
{
    match finish {
        Some(finish) => frame.to < finish,
        None => true,
    }
}

// Whose job it is, when it arrives and is done, and how long after its arrival.
pub(crate) fn put_told(job: &JobRecord, text: &mut String) -> Result<(), AllocError>
    ensures { OnOk result (string_bytes text.new ≡ string_bytes text.old
        ++ job_words job.now.name job.now.release job.now.finish) }
{
    let (name, arrival) = (job.name, job.release);
    match job.finish {
        Some(finish) => {
            let response = finish.saturating_sub(arrival);
            write!(
                text,
                "{name}: arrival {arrival}, done {finish}, response {response}"
            )
        }
        None => write!(text, "{name}: arrival {arrival}, not done"),
    }
}

// A box from an arrival up to the bound or deadline of a job that arrives then or later.
pub(crate) fn limit_box(lane: &Lane<'_>, first: u64, latest: u64) -> Bar
    ensures x { result.x ≡ x_of lane.now.frame first }
    ensures right { result.right ≡ right_of lane.now.frame first (latest + limit_of lane.now.row.now) }
    ensures y { result.y ≡ top_of lane.now.spot.k + 165 }
    ensures high { result.high ≡ 180 }
    ensures within { result.x ≤ RIGHTMOST }
{
    let right = x_after(lane.frame, latest, limit_of(lane.row));
    bar_of(x_of(lane.frame, first), right, lane.spot.k)
}

// A sign of a class at a place, and a shape from there on, where it is wanted.
pub(crate) fn put_sign(
    wanted: bool,
    class: &str,
    x: u64,
    y: u64,
    shape: &str,
    text: &mut String,
) -> Result<(), AllocError>
    ensures { OnOk result (string_bytes text.new ≡ string_bytes text.old
        ++ sign_text wanted class.now x y shape.now) }
{
    if wanted {
        writeln!(text, "<path class=\"{class}\" d=\"M{x} {y}{shape}\"/>")?;
    }
    Ok(())
}

// Where the run ends in the window; the window's end, if it does later.
fn run_end(frame: Frame) -> u64
    ensures value { result ≡ x_of frame frame.until }
    ensures within { result ≤ RIGHTMOST }
{
    let until = frame.until;
    x_of(frame, until)
}

// Signs at the beginning and at the end, or where the run ends, for what goes on before the window and behind it.
pub(crate) fn put_signs(
    lane: &Lane<'_>,
    back: bool,
    on: bool,
    text: &mut String,
) -> Result<(), AllocError>
    ensures { OnOk result (string_bytes text.new ≡ string_bytes text.old
        ++ signs_text lane.now.frame lane.now.spot.k back on) }
{
    let y = top_of(lane.spot.k) + 195;
    let shape = "m-20 0l-60 60 60 60m-60-120l-60 60 60 60";
    put_sign(back, "a", start_of(lane.frame), y, shape, text)?;
    let shape = "m20 0l60 60-60 60m60-120l60 60-60 60";
    put_sign(on, "a", run_end(lane.frame), y, shape, text)
}

// Those of a job.
pub(crate) fn put_job_signs(
    lane: &Lane<'_>,
    job: &JobRecord,
    text: &mut String,
) -> Result<(), AllocError>
    ensures { OnOk result (string_bytes text.new ≡ string_bytes text.old
        ++ job_signs lane.now.frame lane.now.spot.k job.now) }
{
    let frame = lane.frame;
    put_signs(
        lane,
        goes_back(frame, job),
        goes_on(frame, job.finish),
        text,
    )
}

// The end of a box up to the bound of a job that arrives then, where that is in the window: what timers and interrupts take
// of the bound, up to which no run comes.
pub(crate) fn put_unrun(lane: &Lane<'_>, arrival: u64, text: &mut String) -> Result<(), AllocError>
    ensures { OnOk result (string_bytes text.new ≡ string_bytes text.old
        ++ unrun_text lane.now.frame lane.now.spot.k lane.now.row.now arrival) }
{
    let limit = limit_of(lane.row);
    let unrun = lane.row.unrun;
    let kept = limit.saturating_sub(unrun);
    if unrun == 0 || !sees_between(lane.frame, arrival, kept, limit) {
        return Ok(());
    }
    let x = x_after(lane.frame, arrival, kept);
    let bar = bar_of(x, x_after(lane.frame, arrival, limit), lane.spot.k);
    writeln!(
        text,
        "<path class=\"wt\" d=\"{bar}\"><title>timers and interrupts, not in this run: {unrun} us</title></path>"
    )
}

// A job in a row, where its box is in the window.
pub(crate) fn put_job_in(
    lane: &Lane<'_>,
    job: &JobRecord,
    text: &mut String,
) -> Result<(), AllocError>
    ensures { OnOk result (string_bytes text.new ≡ string_bytes text.old
        ++ job_text lane.now.frame job.now lane.now.spot.k lane.now.row.now) }
{
    if !sees_from(lane.frame, job.release, limit_of(lane.row)) {
        return Ok(());
    }
    let bar = limit_box(lane, job.release, job.release);
    let (bound, deadline) = (Known(lane.row.bound), lane.row.sheet.deadline());
    write!(text, "<path class=\"w\" d=\"{bar}\"><title>")?;
    put_told(job, text)?;
    writeln!(
        text,
        ", bound {bound}, deadline {deadline} us</title></path>"
    )?;
    put_unrun(lane, job.release, text)?;
    put_job_signs(lane, job, text)
}

// Job i in the row of its task, alone or in a band.
fn put_job(chart: &Chart<'_>, i: usize, text: &mut String) -> Result<(), AllocError>
    requires { i < length chart.now.jobs.now }
    ensures { OnOk result (string_bytes text.new ≡ string_bytes text.old
        ++ on_spot chart.now.rows.now chart.now.shown.now (record_at chart.now.jobs.now i).name
        (λ s row. place_text chart.now.frame chart.now.jobs.now i s.k row)) }
{
    match chart.spot_of(name_of(chart.jobs, i)) {
        None => Ok(()),
        Some(spot) => put_place(&chart.lane(spot), chart.jobs, i, text),
    }
}

/// Puts each job, alone or in a band.
#[tactic(auto, using(frames::proofs::Eachs::each_init, frames::proofs::Eachs::each_next))]
pub fn put_jobs(chart: &Chart<'_>, text: &mut String) -> Result<(), AllocError>
    ensures { OnOk result (string_bytes text.new ≡ string_bytes text.old
        ++ jobs_text chart.now.frame chart.now.rows.now chart.now.shown.now chart.now.jobs.now) }
{
    for i in 0..chart.jobs.len() {
        put_job(chart, i, text)?;
    }
    Ok(())
}
