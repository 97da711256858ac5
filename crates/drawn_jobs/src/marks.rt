//! The marks of releases.
ghost use Rattle.std.specs.Prelude.{◌+◌, ◌++◌, ◌<◌, ◌≡◌, OnOk, length, string_bytes};
ghost use Rattle.ceiling_kernel.specs.Releases.{release_at};
ghost use Rattle.frames.specs.Frame.{is_in};
ghost use Rattle.drawn_jobs.specs.Marks.{all_marks, later_text, mark_alone, mark_text, marks_text, ready_text};

use crate::band::gap_of;
use ceiling_kernel::Release;
use frames::{Chart, Frame, Lane, is_by_end, is_from_start, sees_from, top_of, x_after, x_of};
use pieces::is_banded;
use std::alloc::AllocError;

// The kinds of marks.
#[derive(Clone, Copy)]
enum Mark {
    // An arrow up at the arrival.
    Arrival,
    // A line from the arrival to when the job becomes ready, where that is later.
    Ready,
    // A bracket at the bound, where there is one.
    Bound,
    // An arrow down at the deadline.
    Deadline,
}

// Whether the time that comes so long after another is in the picture.
pub(crate) fn is_shown(frame: Frame, time: u64, len: u64) -> bool
    ensures { result ≡ is_in frame (time + len) }
{
    is_from_start(frame, time, len) && is_by_end(frame, time, len)
}

// The release at a place.
fn release_at(releases: &[Release], i: usize) -> Release
    requires { i < length releases.now }
    ensures { result ≡ release_at releases.now i }
{
    releases[i]
}

// A line to when the job becomes ready, where that is later.
fn put_ready(frame: Frame, release: Release, y: u64, text: &mut String) -> Result<(), AllocError>
    ensures { OnOk result (string_bytes text.new ≡ string_bytes text.old ++ ready_text frame release y) }
{
    if release.late == 0 || !sees_from(frame, release.time, release.late) {
        return Ok(());
    }
    let x = x_of(frame, release.time);
    let ready = x_after(frame, release.time, release.late);
    writeln!(text, "M{x} {y}H{ready}")
}

// A mark so long after the arrival, where that is in the picture.
fn put_later(
    frame: Frame,
    release: Release,
    len: u64,
    y: u64,
    shape: &str,
    text: &mut String,
) -> Result<(), AllocError>
    ensures { OnOk result (string_bytes text.new ≡ string_bytes text.old
        ++ later_text frame release len y shape.now) }
{
    if !is_shown(frame, release.time, len) {
        return Ok(());
    }
    let x = x_after(frame, release.time, len);
    write!(text, "M{x} {y}{shape}")
}

// The mark of a release in a row.
fn put_mark_in(
    mark: Mark,
    release: Release,
    lane: &Lane<'_>,
    text: &mut String,
) -> Result<(), AllocError>
    ensures { OnOk result (string_bytes text.new ≡ string_bytes text.old
        ++ mark_text lane.now.frame mark release lane.now.spot.k lane.now.row.now) }
{
    let frame = lane.frame;
    let row = lane.row;
    let top = top_of(lane.spot.k);
    match mark {
        Mark::Arrival => {
            let shape = "v-100m-35 50l35-50 35 50\n";
            put_later(frame, release, 0, top + 450, shape, text)
        }
        Mark::Ready => put_ready(frame, release, top + 255, text),
        Mark::Bound => match row.bound {
            None => Ok(()),
            Some(len) => {
                let shape = "h-35m35 0v40m0 120v40h-35\n";
                put_later(frame, release, len, top + 155, shape, text)
            }
        },
        Mark::Deadline => {
            let shape = "v100m0 0l-35-50h70z\n";
            let len = row.sheet.deadline();
            put_later(frame, release, len, top + 60, shape, text)
        }
    }
}

// The mark of release i, whose job stands alone.
fn put_mark_alone(
    chart: &Chart<'_>,
    mark: Mark,
    i: usize,
    text: &mut String,
) -> Result<(), AllocError>
    requires { i < length chart.now.releases.now }
    ensures { OnOk result (string_bytes text.new ≡ string_bytes text.old
        ++ mark_alone chart.now.frame chart.now.rows.now chart.now.shown.now chart.now.jobs.now mark
        i (release_at chart.now.releases.now i)) }
{
    if is_banded(gap_of(chart.frame), chart.jobs, i) {
        return Ok(());
    }
    let release = release_at(chart.releases, i);
    let Some(spot) = chart.spot_of(release.name) else {
        return Ok(());
    };
    put_mark_in(mark, release, &chart.lane(spot), text)
}

// The marks of a kind, as one path of a class.
#[tactic(auto, using(frames::proofs::Eachs::each_init, frames::proofs::Eachs::each_next))]
fn put_marks(
    chart: &Chart<'_>,
    mark: Mark,
    class: &str,
    text: &mut String,
) -> Result<(), AllocError>
    ensures { OnOk result (string_bytes text.new ≡ string_bytes text.old
        ++ marks_text chart.now.frame chart.now.rows.now chart.now.shown.now chart.now.jobs.now mark
        class.now chart.now.releases.now) }
{
    write!(text, "<path class=\"{class}\" d=\"\n")?;
    for i in 0..chart.releases.len() {
        put_mark_alone(chart, mark, i, text)?;
    }
    writeln!(text, "\"/>")
}

/// Puts the marks of all kinds.
pub fn put_all_marks(chart: &Chart<'_>, text: &mut String) -> Result<(), AllocError>
    ensures { OnOk result (string_bytes text.new ≡ string_bytes text.old
        ++ all_marks chart.now.frame chart.now.rows.now chart.now.shown.now chart.now.jobs.now
        chart.now.releases.now) }
{
    put_marks(chart, Mark::Ready, "r", text)?;
    put_marks(chart, Mark::Arrival, "a", text)?;
    put_marks(chart, Mark::Bound, "b", text)?;
    put_marks(chart, Mark::Deadline, "d", text)
}
