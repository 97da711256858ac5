//! The lane of the processor.
ghost use Rattle.std.specs.Prelude.{◌*◌, ◌+◌, ◌<◌, ◌≡◌, ◌≤◌, ◌++◌, OnOk, string_bytes};
ghost use Rattle.ceiling_kernel.specs.declared.accept.TheConstants.{HORIZON};
ghost use Rattle.drawn_jobs.specs.Lane.{busy_from, busy_of, edge_class, lane_bar, lane_by, lane_head, lane_label, lane_line, lane_right, lane_text, lanes_text, level_room, seen_for};
ghost use Rattle.frames.specs.declared.frame.TheConstants.{RIGHTMOST};

use ceiling_kernel::Slice;
use frames::{
    Bar, Chart, Frame, Lane, Spot, TaskRow, end_of, find_row, has_room, level_of, sees, x_of,
};
use std::alloc::AllocError;

// For how long slices execute in the window.
fn busy_in(frame: Frame, slices: &[Slice]) -> u64
    ensures { result ≡ busy_from frame 0 slices.now }
{
    let mut busy = 0;
    for slice in slices {
        let start = slice.start.max(frame.from);
        let stop = slice.stop.min(frame.to);
        busy = busy.min(slice.start) + stop.saturating_sub(start);
    }
    busy
}

// How much of the window is before the end of the run.
fn seen_for(frame: Frame) -> u64
    ensures value { result ≡ seen_for frame }
    ensures some { 0 < result }
    ensures within { result ≤ HORIZON }
{
    frame.to.min(frame.until).saturating_sub(frame.from).max(1)
}

// For how much of that slices execute, in thousandths.
fn busy_of(frame: Frame, slices: &[Slice]) -> u64
    ensures { result ≡ busy_of frame slices.now }
{
    let len = seen_for(frame);
    1_000 * busy_in(frame, slices).min(len) / len
}

// Where a slice's bar ends.
fn lane_right(frame: Frame, slice: Slice) -> u64
    ensures value { result ≡ lane_right frame slice }
    ensures within { result ≤ RIGHTMOST + 1 }
{
    x_of(frame, slice.stop).max(x_of(frame, slice.start) + 1)
}

// An edge round a bar that has room for it.
fn edge_class(wide: u64) -> &'static str
    ensures { result.now ≡ edge_class wide }
{
    if wide >= 60 { " o" } else { "" }
}

// How much room a level needs.
fn level_room(level: u64) -> u64
    ensures { result ≡ level_room level }
{
    if level < 10 { 106 } else { 172 }
}

/// Puts the name of the processor's lane, and how busy it is.
pub fn put_lane_head(chart: &Chart<'_>, text: &mut String) -> Result<(), AllocError>
    ensures { OnOk result (string_bytes text.new ≡ string_bytes text.old
        ++ lane_head chart.now.frame chart.now.slices.now) }
{
    let busy = busy_of(chart.frame, chart.slices);
    let (percent, tenth) = (busy / 10, busy % 10);
    writeln!(
        text,
        "<text class=\"n\" x=\"500\" y=\"1460\">processor</text>\
        <text x=\"500\" y=\"1580\">busy {percent}.{tenth} %</text>"
    )
}

/// Puts its line.
pub fn put_lane_line(frame: Frame, text: &mut String) -> Result<(), AllocError>
    ensures { OnOk result (string_bytes text.new ≡ string_bytes text.old ++ lane_line frame) }
{
    let (x, right) = (frame.left, end_of(frame));
    writeln!(text, "<path class=\"l\" d=\"M{x} 1570H{right}\"/>")
}

// The bar of a slice.
fn put_lane_bar(slice: Slice, lane: &Lane<'_>, text: &mut String) -> Result<(), AllocError>
    ensures { OnOk result (string_bytes text.new ≡ string_bytes text.old
        ++ lane_bar lane.now.frame slice lane.now.row.now) }
{
    let x = x_of(lane.frame, slice.start);
    let right = lane_right(lane.frame, slice);
    let bar = Bar {
        x,
        right,
        y: 1_350,
        high: 220,
    };
    let (tone, edge) = (lane.row.tone, edge_class(right.saturating_sub(x)));
    let (name, start, stop) = (lane.row.sheet.name(), slice.start, slice.stop);
    writeln!(
        text,
        "<path class=\"f{tone}{edge}\" d=\"{bar}\"><title>{name} executes {start} to {stop} us</title></path>"
    )
}

// The task's name where a bar has room for it, else its level, else nothing.
fn put_lane_label(
    x: u64,
    right: u64,
    level: u64,
    row: &TaskRow,
    text: &mut String,
) -> Result<(), AllocError>
    requires { x + right ≤ 2 * RIGHTMOST + 1 }
    ensures { OnOk result (string_bytes text.new ≡ string_bytes text.old
        ++ lane_label x right level row.now) }
{
    let (wide, middle) = (right.saturating_sub(x), (x + right) / 2);
    let name = row.sheet.name();
    if has_room(name, wide) {
        writeln!(
            text,
            "<text class=\"u\" x=\"{middle}\" y=\"1498\">{name}</text>"
        )
    } else if wide >= level_room(level) {
        writeln!(
            text,
            "<text class=\"u\" x=\"{middle}\" y=\"1498\">{level}</text>"
        )
    } else {
        Ok(())
    }
}

// A slice of a row's task, where it is in the window.
fn put_lane_slice(slice: Slice, lane: &Lane<'_>, text: &mut String) -> Result<(), AllocError>
    ensures { OnOk result (string_bytes text.new ≡ string_bytes text.old
        ++ lane_text lane.now.frame slice lane.now.spot.rank lane.now.row.now) }
{
    if !sees(lane.frame, slice.start, slice.stop) {
        return Ok(());
    }
    put_lane_bar(slice, lane, text)?;
    let x = x_of(lane.frame, slice.start);
    let right = lane_right(lane.frame, slice);
    let level = level_of(lane.frame, lane.spot.rank);
    put_lane_label(x, right, level, lane.row, text)
}

// A slice of a job, if there is one, in the tone of the row of its task.
fn put_lane_by(chart: &Chart<'_>, slice: Slice, text: &mut String) -> Result<(), AllocError>
    ensures { OnOk result (string_bytes text.new ≡ string_bytes text.old
        ++ lane_by chart.now.frame chart.now.rows.now chart.now.jobs.now slice) }
{
    let Some(job) = chart.job_of(slice) else {
        return Ok(());
    };
    let Some(rank) = find_row(chart.rows, job.name) else {
        return Ok(());
    };
    put_lane_slice(slice, &chart.lane(Spot { rank, k: rank }), text)
}

/// Puts each slice into it, by time.
pub fn put_lanes(chart: &Chart<'_>, text: &mut String) -> Result<(), AllocError>
    ensures { OnOk result (string_bytes text.new ≡ string_bytes text.old
        ++ lanes_text chart.now.frame chart.now.rows.now chart.now.jobs.now chart.now.slices.now) }
{
    for slice in chart.slices {
        put_lane_by(chart, *slice, text)?;
    }
    Ok(())
}
