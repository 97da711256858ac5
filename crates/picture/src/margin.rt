//! The margin: each row's level, tone and name, and how long its jobs take at most.
ghost use Rattle.std.specs.Prelude.{◌<◌, ◌≡◌, ◌++◌, OnOk, length, string_bytes};
ghost use Rattle.frames.specs.Frame.{in_millis, level_of};
ghost use Rattle.frames.specs.PictureRows.{at_spot, spot_in};
ghost use Rattle.picture.specs.Document.{margin_group, margins_text};
ghost use Rattle.picture.specs.Margin.{bound_words, late_words, level_text, limits_text, margin_text, missed_line, name_class, name_text, number_words};

use ceiling_kernel::JobRecord;
use drawn_jobs::{latest_in, missed_in, put_greatest, put_lane_head};
use frames::{Chart, Known, Lane, ShownTime, in_millis, level_of, top_of, unit_of};
use run_lines::outcome_of;
use std::alloc::AllocError;

// A name is red where a deadline is missed.
fn name_class(missed: usize) -> &'static str
    ensures { result.now ≡ name_class missed }
{
    if missed == 0 { "n" } else { "n q" }
}

// A row's level, and the tone of its task.
fn put_level(lane: &Lane<'_>, text: &mut String) -> Result<(), AllocError>
    ensures { OnOk result (string_bytes text.new ≡ string_bytes text.old
        ++ level_text lane.now.frame lane.now.spot lane.now.row.now) }
{
    let (level, tone) = (level_of(lane.frame, lane.spot.rank), lane.row.tone);
    let (y, top) = (top_of(lane.spot.k) + 230, top_of(lane.spot.k) + 130);
    write!(
        text,
        "<text class=\"v\" x=\"300\" y=\"{y}\">{level}</text>\
        <rect class=\"f{tone}\" x=\"350\" y=\"{top}\" width=\"100\" height=\"100\" rx=\"20\"/>\n"
    )
}

// The number of a row's thread, where settings say it, and it isn't the row's level.
fn put_number(level: u64, number: Option<u64>, text: &mut String) -> Result<(), AllocError>
    ensures { OnOk result (string_bytes text.new ≡ string_bytes text.old
        ++ number_words level number) }
{
    let Some(number) = number else {
        return Ok(());
    };
    if number == level {
        return Ok(());
    }
    write!(text, "<tspan class=\"nn\" dx=\"45\">{number}</tspan>")
}

// The name of a row, and the number, with what its jobs came to.
fn put_row_name(
    missed: usize,
    lane: &Lane<'_>,
    jobs: &[JobRecord],
    text: &mut String,
) -> Result<(), AllocError>
    ensures { OnOk result (string_bytes text.new ≡ string_bytes text.old
        ++ name_text missed jobs.now lane.now.spot.k (level_of lane.now.frame
        lane.now.spot.rank) lane.now.row.now) }
{
    let name = lane.row.sheet.name();
    let outcome = outcome_of(jobs, name);
    let (class, y, done) = (name_class(missed), top_of(lane.spot.k) + 230, outcome.done);
    write!(
        text,
        "<text class=\"{class}\" x=\"500\" y=\"{y}\"><title>done: {done}, greatest response: "
    )?;
    put_greatest(outcome, text)?;
    let bound = Known(lane.row.bound);
    write!(text, ", bound: {bound} us</title>{name}")?;
    put_number(level_of(lane.frame, lane.spot.rank), lane.row.number, text)?;
    writeln!(text, "</text>")
}

// A bound, if there is one, up to the deadline behind it.
fn put_bound(millis: bool, bound: Option<u64>, text: &mut String) -> Result<(), AllocError>
    ensures { OnOk result (string_bytes text.new ≡ string_bytes text.old
        ++ bound_words millis bound) }
{
    let Some(bound) = bound else {
        return text.push_str("deadline ");
    };
    let bound = ShownTime {
        millis,
        micros: bound,
    };
    write!(text, "bound {bound} of ")
}

// The bound and the deadline, in the picture's unit; without a bound the deadline.
fn put_limits(lane: &Lane<'_>, text: &mut String) -> Result<(), AllocError>
    ensures { OnOk result (string_bytes text.new ≡ string_bytes text.old
        ++ limits_text (in_millis lane.now.frame) lane.now.spot.k lane.now.row.now) }
{
    let millis = in_millis(lane.frame);
    let deadline = ShownTime {
        millis,
        micros: lane.row.sheet.deadline(),
    };
    let (y, unit) = (top_of(lane.spot.k) + 355, unit_of(millis));
    write!(text, "<text x=\"500\" y=\"{y}\">")?;
    put_bound(millis, lane.row.bound, text)?;
    write!(text, "{deadline}{unit}</text>\n")
}

// By how much, where a job is done late.
fn put_late(millis: bool, late: u64, text: &mut String) -> Result<(), AllocError>
    ensures { OnOk result (string_bytes text.new ≡ string_bytes text.old
        ++ late_words millis late) }
{
    if late == 0 {
        return Ok(());
    }
    let late = ShownTime {
        millis,
        micros: late,
    };
    let unit = unit_of(millis);
    write!(text, ", {late}{unit} late")
}

// Below them how many deadlines are missed, where some are, and by how much at most.
fn put_missed_line(
    missed: usize,
    late: u64,
    lane: &Lane<'_>,
    text: &mut String,
) -> Result<(), AllocError>
    ensures { OnOk result (string_bytes text.new ≡ string_bytes text.old
        ++ missed_line (in_millis lane.now.frame) missed late lane.now.spot.k) }
{
    if missed == 0 {
        return Ok(());
    }
    let y = top_of(lane.spot.k) + 460;
    write!(
        text,
        "<text class=\"qn\" x=\"500\" y=\"{y}\">missed: {missed}"
    )?;
    put_late(in_millis(lane.frame), late, text)?;
    writeln!(text, "</text>")
}

// A row's part of the margin.
fn put_margin(lane: &Lane<'_>, jobs: &[JobRecord], text: &mut String) -> Result<(), AllocError>
    ensures { OnOk result (string_bytes text.new ≡ string_bytes text.old
        ++ margin_text lane.now.frame jobs.now lane.now.spot lane.now.row.now) }
{
    let missed = missed_in(lane.frame, lane.row, jobs);
    put_level(lane, text)?;
    put_row_name(missed, lane, jobs, text)?;
    put_limits(lane, text)?;
    put_missed_line(missed, latest_in(lane.row, jobs), lane, text)
}

// The part of the row at a place, where one stands there.
fn put_margin_at(chart: &Chart<'_>, k: usize, text: &mut String) -> Result<(), AllocError>
    requires { k < length chart.now.shown.now }
    ensures { OnOk result (string_bytes text.new ≡ string_bytes text.old
        ++ at_spot chart.now.rows.now (spot_in chart.now.shown.now k) (margin_text
        chart.now.frame chart.now.jobs.now)) }
{
    let spot = chart.spot(k);
    if spot.rank >= chart.rows.len() {
        return Ok(());
    }
    put_margin(&chart.lane(spot), chart.jobs, text)
}

// The rows' parts.
#[tactic(auto, using(frames::proofs::Eachs::each_init, frames::proofs::Eachs::each_next))]
pub(crate) fn put_margins(chart: &Chart<'_>, text: &mut String) -> Result<(), AllocError>
    ensures { OnOk result (string_bytes text.new ≡ string_bytes text.old
        ++ margins_text chart.now.frame chart.now.rows.now chart.now.shown.now
        chart.now.jobs.now) }
{
    for k in 0..chart.shown.len() {
        put_margin_at(chart, k, text)?;
    }
    Ok(())
}

// The margin, as a group.
pub(crate) fn put_group(chart: &Chart<'_>, text: &mut String) -> Result<(), AllocError>
    ensures { OnOk result (string_bytes text.new ≡ string_bytes text.old
        ++ margin_group chart.now.frame chart.now.rows.now chart.now.shown.now
        chart.now.jobs.now chart.now.slices.now) }
{
    let unit = unit_of(in_millis(chart.frame));
    write!(
        text,
        "<g id=\"n\">\n<text x=\"500\" y=\"1200\">time in{unit}</text>\n"
    )?;
    put_lane_head(chart, text)?;
    put_margins(chart, text)?;
    writeln!(text, "</g>")
}
