//! Slices, as bars.
ghost use Rattle.std.specs.Prelude.{◌≡◌, ◌++◌, OnOk, length, slice_index, string_bytes};
ghost use Rattle.drawn_jobs.specs.Bars.{bar_text, slice_by, slice_text, slices_text};
ghost use Rattle.drawn_jobs.specs.Sections.{AreUncounted, counted};

use crate::parts::put_dark;
use ceiling_kernel::Slice;
use frames::{Chart, Lane, bar_of, executed_after, sees, x_of};
use std::alloc::AllocError;

// Counts the ticks of a slice, and says how many its job executed before; none where there is no such job.
pub(crate) fn count_slice(executed: &mut [u64], slice: Slice) -> u64
    ensures before { result ≡ slice_index executed.old slice.job }
    ensures counted { executed.new ≡ counted executed.old slice }
{
    if slice.job >= executed.len() {
        return 0;
    }
    let before = executed[slice.job];
    executed[slice.job] = executed_after(before, slice);
    before
}

// A slice.
fn put_slice_bar(slice: Slice, lane: &Lane<'_>, text: &mut String) -> Result<(), AllocError>
    ensures { OnOk result (string_bytes text.new ≡ string_bytes text.old
        ++ bar_text lane.now.frame slice lane.now.spot.k lane.now.row.now) }
{
    let (start, stop) = (slice.start, slice.stop);
    let (tone, name) = (lane.row.tone, lane.row.sheet.name());
    let bar = bar_of(x_of(lane.frame, start), x_of(lane.frame, stop), lane.spot.k);
    writeln!(
        text,
        "<path class=\"e f{tone}\" d=\"{bar}\"><title>{name} {start} to {stop} us</title></path>"
    )
}

// A slice and its darker parts, where it is in the window.
fn put_slice_in(
    executed: u64,
    slice: Slice,
    lane: &Lane<'_>,
    text: &mut String,
) -> Result<(), AllocError>
    ensures { OnOk result (string_bytes text.new ≡ string_bytes text.old
        ++ slice_text lane.now.frame lane.now.locks.now executed slice lane.now.spot
        lane.now.row.now) }
{
    if !sees(lane.frame, slice.start, slice.stop) {
        return Ok(());
    }
    put_slice_bar(slice, lane, text)?;
    for section in lane.row.sheet.sections() {
        put_dark(executed, slice, lane, section, text)?;
    }
    Ok(())
}

// A slice in the row of the task of its job, if that is shown; its ticks are counted.
fn put_slice(
    chart: &Chart<'_>,
    executed: &mut [u64],
    slice: Slice,
    text: &mut String,
) -> Result<(), AllocError>
    ensures put { OnOk result (string_bytes text.new ≡ string_bytes text.old
        ++ slice_by chart.now.frame chart.now.locks.now chart.now.rows.now chart.now.shown.now
        chart.now.jobs.now (slice_index executed.old slice.job) slice) }
    ensures counted { executed.new ≡ counted executed.old slice }
{
    let before = count_slice(executed, slice);
    let Some(job) = chart.job_of(slice) else {
        return Ok(());
    };
    let Some(spot) = chart.spot_of(job.name) else {
        return Ok(());
    };
    put_slice_in(before, slice, &chart.lane(spot), text)
}

/// Puts each slice into its row, by time. The ticks that each job has executed are counted; none were before.
pub fn put_slices(
    chart: &Chart<'_>,
    executed: &mut [u64],
    text: &mut String,
) -> Result<(), AllocError>
    requires { AreUncounted executed.old (length chart.now.jobs.now) }
    ensures { OnOk result (string_bytes text.new ≡ string_bytes text.old
        ++ slices_text chart.now.frame chart.now.locks.now chart.now.rows.now chart.now.shown.now
        chart.now.jobs.now chart.now.slices.now) }
{
    for slice in chart.slices {
        put_slice(chart, executed, *slice, text)?;
    }
    Ok(())
}
