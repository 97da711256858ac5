//! Jobs of a task that are too close to be drawn apart.
ghost use Rattle.std.specs.Prelude.{◌<◌, ◌≡◌, ◌≤◌, ◌++◌, OnOk, length, string_bytes};
ghost use Rattle.run_lines.specs.RunLines.{greatest_words};
ghost use Rattle.frames.specs.Boxes.{box_path};
ghost use Rattle.frames.specs.declared.places.TheConstants.{PLACES_LIMIT};
ghost use Rattle.frames.specs.declared.frame.TheConstants.{RIGHTMOST};
ghost use Rattle.drawn_jobs.specs.Bands.{any_on, band_box, band_label, band_with, band_words, gap_of, last_bound, place_text, wide_words};

use crate::jobs::{goes_on, limit_box, limit_of, put_job_in, put_sign, put_signs, put_unrun};
use crate::marks::is_shown;
use ceiling_kernel::JobRecord;
use frames::{
    Bar, Frame, Known, Lane, ShownTime, in_millis, is_before, job_at, sees_up_to, top_of, unit_of,
    x_after,
};
use pieces::{Band, band_in, joins, stretch_of};
use run_lines::{Outcome, outcome_of};
use std::alloc::AllocError;
use task_sheet::Name;

// How many microseconds 20 pixels are.
pub(crate) fn gap_of(frame: Frame) -> u64
    ensures { result ≡ gap_of frame }
{
    200 * (frame.to - frame.from) / frame.span
}

// Whether of some jobs one of the task with a name goes on behind the window.
fn any_on(frame: Frame, name: Name, jobs: &[JobRecord]) -> bool
    ensures { result ≡ any_on frame name jobs.now }
{
    jobs.iter()
        .any(|job| job.name == name && goes_on(frame, job.finish))
}

// The box of a band, how many jobs are in it, and when they arrive.
fn put_band_box(
    bar: Bar,
    first: &JobRecord,
    band: Band,
    text: &mut String,
) -> Result<(), AllocError>
    ensures { OnOk result (string_bytes text.new ≡ string_bytes text.old
        ++ band_box (box_path bar.x bar.right bar.y bar.high) first.now band.count band.latest) }
{
    let (name, arrival) = (first.name, first.release);
    let (count, latest) = (band.count, band.latest);
    write!(
        text,
        "<path class=\"l w\" d=\"{bar}\"><title>{name}: {count} jobs, arrivals {arrival} to {latest}"
    )
}

// How many of them are done, the greatest response among those, their bound and their deadline.
fn put_band_words(
    outcome: Outcome,
    bound: Option<u64>,
    deadline: u64,
    text: &mut String,
) -> Result<(), AllocError>
    ensures { OnOk result (string_bytes text.new ≡ string_bytes text.old
        ++ band_words outcome.done outcome.greatest bound deadline) }
{
    let (done, bound) = (outcome.done, Known(bound));
    write!(text, ", done {done}, longest response ")?;
    put_greatest(outcome, text)?;
    writeln!(
        text,
        ", bound {bound}, deadline {deadline} us</title></path>"
    )
}

// What stands behind the number of jobs of a band so wide.
fn put_wide(millis: bool, wide: u64, outcome: Outcome, text: &mut String) -> Result<(), AllocError>
    ensures { OnOk result (string_bytes text.new ≡ string_bytes text.old
        ++ wide_words millis wide outcome.done outcome.greatest) }
{
    if wide < 1_860 {
        return Ok(());
    }
    if outcome.done == 0 {
        return text.push_str(" jobs");
    }
    let longest = ShownTime {
        millis,
        micros: outcome.greatest,
    };
    let unit = unit_of(millis);
    write!(text, " jobs, longest {longest}{unit}")
}

// What stands below a band that reaches from a place up to another.
fn put_label(
    millis: bool,
    x: u64,
    right: u64,
    k: usize,
    count: usize,
    outcome: Outcome,
    text: &mut String,
) -> Result<(), AllocError>
    requires place { x ≤ RIGHTMOST }
    requires row { k ≤ PLACES_LIMIT }
    ensures { OnOk result (string_bytes text.new ≡ string_bytes text.old
        ++ band_label millis x right k count outcome.done outcome.greatest) }
{
    let (left, y) = (x + 20, top_of(k) + 455);
    write!(text, "<text x=\"{left}\" y=\"{y}\">{count}")?;
    put_wide(millis, right.saturating_sub(x), outcome, text)?;
    text.push_str("</text>\n")
}

// A bracket at a bound behind the latest arrival, if there is one, where that is in the picture.
fn put_last_bound(lane: &Lane<'_>, latest: u64, text: &mut String) -> Result<(), AllocError>
    ensures { OnOk result (string_bytes text.new ≡ string_bytes text.old
        ++ last_bound lane.now.frame lane.now.spot.k latest lane.now.row.now.bound) }
{
    let Some(bound) = lane.row.bound else {
        return Ok(());
    };
    let shown = is_shown(lane.frame, latest, bound);
    let x = x_after(lane.frame, latest, bound);
    let y = top_of(lane.spot.k) + 155;
    put_sign(shown, "b", x, y, "h-35m35 0v40m0 120v40h-35", text)
}

// A band, where its box is in the window.
fn put_band(
    lane: &Lane<'_>,
    first: &JobRecord,
    jobs: &[JobRecord],
    band: Band,
    outcome: Outcome,
    text: &mut String,
) -> Result<(), AllocError>
    ensures { OnOk result (string_bytes text.new ≡ string_bytes text.old
        ++ band_with lane.now.frame lane.now.spot.k lane.now.row.now first.now jobs.now band.count
        band.latest outcome.done outcome.greatest) }
{
    if !sees_up_to(lane.frame, first.release, band.latest, limit_of(lane.row)) {
        return Ok(());
    }
    let bar = limit_box(lane, first.release, band.latest);
    let row = lane.row;
    put_band_box(bar, first, band, text)?;
    put_band_words(outcome, row.bound, row.sheet.deadline(), text)?;
    let millis = in_millis(lane.frame);
    put_label(
        millis,
        bar.x,
        bar.right,
        lane.spot.k,
        band.count,
        outcome,
        text,
    )?;
    put_unrun(lane, band.latest, text)?;
    put_last_bound(lane, band.latest, text)?;
    let back = is_before(lane.frame, first.release);
    put_signs(lane, back, any_on(lane.frame, first.name, jobs), text)
}

// Job i in a row, alone or with those that join it in a band; what joins one before it has been drawn with that.
pub(crate) fn put_place(
    lane: &Lane<'_>,
    jobs: &[JobRecord],
    i: usize,
    text: &mut String,
) -> Result<(), AllocError>
    requires { i < length jobs.now }
    ensures { OnOk result (string_bytes text.new ≡ string_bytes text.old
        ++ place_text lane.now.frame jobs.now i lane.now.spot.k lane.now.row.now) }
{
    let gap = gap_of(lane.frame);
    if joins(gap, jobs, i) {
        return Ok(());
    }
    let first = job_at(jobs, i);
    let stretch = stretch_of(gap, jobs, i);
    let band = band_in(stretch, first.name);
    if band.count > 1 {
        let outcome = outcome_of(stretch, first.name);
        put_band(lane, &first, stretch, band, outcome, text)
    } else {
        put_job_in(lane, &first, text)
    }
}

/// Puts the greatest response of jobs that are done, or `-` for none.
pub fn put_greatest(outcome: Outcome, text: &mut String) -> Result<(), AllocError>
    ensures { OnOk result (string_bytes text.new ≡ string_bytes text.old
        ++ greatest_words outcome.done outcome.greatest) }
{
    if outcome.done == 0 {
        return text.push_str("-");
    }
    let greatest = outcome.greatest;
    write!(text, "{greatest}")
}
