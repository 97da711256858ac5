//! What stands still.
ghost use Rattle.std.specs.Prelude.{◌*◌, ◌<◌, ◌≡◌, ◌≤◌, ◌++◌, OnOk, length, string_bytes};
ghost use Rattle.frames.specs.declared.places.TheConstants.{PLACES_LIMIT};
ghost use Rattle.frames.specs.declared.frame.TheConstants.{RIGHTMOST, WIDEST_STEP};
ghost use Rattle.frames.specs.declared.locks.TheConstants.{LOCKS_LIMIT};
ghost use Rattle.picture.specs.Document.{are_interrupted, document_head, ground_text, lines_text, paper_wide, size_head, size_words, ticks_text, unrun_words, verdict_head, verdict_letters, verdict_text, what_text, window_words};
ghost use Rattle.picture.specs.Scale.{line_text, number_x, tick_text};

use crate::margin::put_group;
use crate::style::STYLE;
use crate::title::{letters_behind, put_title_in, put_title_tail};
use drawn_jobs::{all_missed, locks_high, put_badge, put_lane_line, put_locks_group};
use frames::{
    Chart, Frame, ShownTime, TaskRow, Toned, end_of, in_millis, start_of, step_of, steps_before,
    time_letters, top_of, unit_of, x_of,
};
use std::alloc::AllocError;

// Where the number of a line stands in the scale.
fn number_x(frame: Frame, time: u64) -> u64
    ensures { result ≡ number_x frame time }
{
    let x = x_of(frame, time);
    if time_letters(in_millis(frame), time) < 7 {
        x
    } else {
        x.min(end_of(frame).saturating_sub(90))
    }
}

// How wide paper of an A size is across, in millimetres.
fn paper_wide(size: u64) -> u64
    ensures value { result ≡ paper_wide size }
    ensures within { result ≤ 420 }
{
    if size == 3 { 420 } else { 297 }
}

// How wide and high the picture is, in pixels, or on paper in millimetres.
fn put_size(paper: Option<u64>, wide: u64, high: u64, text: &mut String) -> Result<(), AllocError>
    requires some { 0 < wide }
    requires wide { wide ≤ 2 * RIGHTMOST }
    requires high { high ≤ 2000000 }
    ensures { OnOk result (string_bytes text.new ≡ string_bytes text.old
        ++ size_words paper wide high) }
{
    match paper {
        None => {
            let (across, up) = (wide / 10, high / 10);
            write!(text, " width=\"{across}\" height=\"{up}")
        }
        Some(size) => {
            let across = paper_wide(size);
            let up = (across * high + wide - 1) / wide;
            write!(text, " width=\"{across}mm\" height=\"{up}mm")
        }
    }
}

// The first line, and that.
pub(crate) fn put_size_head(
    frame: Frame,
    wide: u64,
    high: u64,
    text: &mut String,
) -> Result<(), AllocError>
    requires some { 0 < wide }
    requires wide { wide ≤ 2 * RIGHTMOST }
    requires high { high ≤ 2000000 }
    ensures { OnOk result (string_bytes text.new ≡ string_bytes text.old
        ++ size_head frame.paper wide high) }
{
    text.push_str(
        "<?xml version=\"1.0\" encoding=\"UTF-8\"?>\n<svg xmlns=\"http://www.w3.org/2000/svg\" \
        version=\"1.1\"",
    )?;
    put_size(frame.paper, wide, high, text)
}

// The first lines, and the title, with what was given behind it.
fn put_head(chart: &Chart<'_>, locks: usize, text: &mut String) -> Result<(), AllocError>
    requires { locks ≤ LOCKS_LIMIT }
    ensures { OnOk result (string_bytes text.new ≡ string_bytes text.old
        ++ document_head chart.now.frame chart.now.title.now locks (length chart.now.shown.now)
        (length chart.now.rows.now) (length chart.now.jobs.now) chart.now.until) }
{
    let high = top_of(chart.shown.len()) + 120 + locks_high(chart.frame, locks);
    let wide = end_of(chart.frame) + 200;
    put_size_head(chart.frame, wide, high, text)?;
    let (rows, jobs, until) = (chart.rows.len(), chart.jobs.len(), chart.until);
    write!(
        text,
        "\" viewBox=\"0 0 {wide} {high}\">\n<title>tasks: {rows}, jobs: {jobs}, until {until} us"
    )?;
    put_title_tail(chart.title, text)?;
    writeln!(text, "</title>")
}

// A line down through the rows, and its time.
fn put_tick(frame: Frame, bottom: u64, time: u64, text: &mut String) -> Result<(), AllocError>
    ensures { OnOk result (string_bytes text.new ≡ string_bytes text.old
        ++ tick_text frame bottom time) }
{
    let (x, number) = (x_of(frame, time), number_x(frame, time));
    let shown = ShownTime {
        millis: in_millis(frame),
        micros: time,
    };
    write!(
        text,
        "<path class=\"g\" d=\"M{x} 1230V{bottom}\"/>\
        <text class=\"s\" x=\"{number}\" y=\"1200\">{shown}</text>\n"
    )
}

// The scale.
#[tactic(auto, using(frames::proofs::Eachs::each_init, frames::proofs::Eachs::each_next))]
pub(crate) fn put_ticks(
    frame: Frame,
    bottom: u64,
    step: u64,
    text: &mut String,
) -> Result<(), AllocError>
    requires some { 0 < step }
    requires within { step ≤ WIDEST_STEP }
    ensures { OnOk result (string_bytes text.new ≡ string_bytes text.old
        ++ ticks_text frame bottom step) }
{
    let first = steps_before(frame, step);
    let count = (frame.to / step + 1).saturating_sub(first);
    for i in 0..count {
        put_tick(frame, bottom, (first + i) * step, text)?;
    }
    Ok(())
}

// The line between rows, and the line of a row, below its bars.
fn put_line(frame: Frame, k: usize, text: &mut String) -> Result<(), AllocError>
    requires { k ≤ PLACES_LIMIT }
    ensures { OnOk result (string_bytes text.new ≡ string_bytes text.old ++ line_text frame k) }
{
    let top = top_of(k);
    let end = end_of(frame);
    let (start, line) = (start_of(frame), top + 345);
    write!(
        text,
        "<path class=\"g\" d=\"M100 {top}H{end}\"/><path class=\"l\" d=\"M{start} {line}H{end}\"/>\n"
    )
}

// The lines of the rows.
#[tactic(auto, using(frames::proofs::Eachs::each_init, frames::proofs::Eachs::each_next))]
fn put_lines(chart: &Chart<'_>, text: &mut String) -> Result<(), AllocError>
    ensures { OnOk result (string_bytes text.new ≡ string_bytes text.old
        ++ lines_text chart.now.frame (length chart.now.shown.now)) }
{
    for k in 0..chart.shown.len() {
        put_line(chart.frame, k, text)?;
    }
    Ok(())
}

// Whether a deadline is missed, and how many are.
fn put_verdict_head(missed: usize, text: &mut String) -> Result<(), AllocError>
    ensures { OnOk result (string_bytes text.new ≡ string_bytes text.old ++ verdict_head missed) }
{
    if missed == 0 {
        text.push_str("<text class=\"t\" x=\"100\" y=\"200\">no deadline missed")
    } else {
        put_badge(190, 150, text)?;
        write!(
            text,
            "<text class=\"t q\" x=\"320\" y=\"200\">deadlines missed: {missed}"
        )
    }
}

// How many letters that takes, and what stands between it and a title.
fn verdict_letters(missed: usize) -> usize
    ensures { result ≡ verdict_letters missed }
{
    match missed {
        0 => 21,
        _ => 28,
    }
}

// The same, and behind it what was given as title, as far as there is room.
fn put_verdict(
    frame: Frame,
    title: &str,
    missed: usize,
    text: &mut String,
) -> Result<(), AllocError>
    ensures { OnOk result (string_bytes text.new ≡ string_bytes text.old
        ++ verdict_text frame title.now missed) }
{
    put_verdict_head(missed, text)?;
    put_title_in(title, letters_behind(frame, verdict_letters(missed)), text)?;
    text.push_str("</text>\n")
}

// What part of it is drawn, where that isn't all.
pub(crate) fn put_window(millis: bool, frame: Frame, text: &mut String) -> Result<(), AllocError>
    ensures { OnOk result (string_bytes text.new ≡ string_bytes text.old
        ++ window_words millis frame) }
{
    if frame.from == 0 && frame.to == frame.until {
        return Ok(());
    }
    let from = ShownTime {
        millis,
        micros: frame.from,
    };
    let to = ShownTime {
        millis,
        micros: frame.to,
    };
    let unit = unit_of(millis);
    write!(text, ", shown: {from} to {to}{unit}")
}

// Whether some task has a timer that takes time, or an interrupt on its account.
pub(crate) fn are_interrupted(rows: &[TaskRow]) -> bool
    ensures { result ≡ are_interrupted rows.now }
{
    rows.iter().any(|row| row.sheet.interrupts_some())
}

// That the bounds then count what the run lacks.
pub(crate) fn put_unrun(rows: &[TaskRow], text: &mut String) -> Result<(), AllocError>
    ensures { OnOk result (string_bytes text.new ≡ string_bytes text.old ++ unrun_words rows.now) }
{
    if !are_interrupted(rows) {
        return Ok(());
    }
    text.push_str(", timers and interrupts in the bounds alone")
}

// The run, what it lacks, and what part of it is drawn.
fn put_what(
    frame: Frame,
    rows: &[TaskRow],
    jobs: usize,
    until: u64,
    text: &mut String,
) -> Result<(), AllocError>
    ensures { OnOk result (string_bytes text.new ≡ string_bytes text.old
        ++ what_text frame rows.now jobs until) }
{
    let (count, millis) = (rows.len(), in_millis(frame));
    let end = ShownTime {
        millis,
        micros: until,
    };
    let unit = unit_of(millis);
    write!(
        text,
        "<text x=\"100\" y=\"390\">tasks: {count}, jobs: {jobs}, until {end}{unit}"
    )?;
    put_unrun(rows, text)?;
    put_window(millis, frame, text)?;
    writeln!(text, "</text>")
}

// What stands still: how the elements look, whether a deadline is missed, what is drawn, the scale, the lines of the lane
// and of the rows, the margin, and the locks that are held.
pub(crate) fn put_ground(
    chart: &Chart<'_>,
    held: &[Toned],
    text: &mut String,
) -> Result<(), AllocError>
    requires { length held.now ≤ LOCKS_LIMIT }
    ensures { OnOk result (string_bytes text.new ≡ string_bytes text.old
        ++ ground_text chart.now.frame chart.now.title.now held.now chart.now.rows.now
        chart.now.shown.now chart.now.jobs.now chart.now.slices.now chart.now.until) }
{
    let frame = chart.frame;
    put_head(chart, held.len(), text)?;
    text.push_str(STYLE)?;
    let missed = all_missed(frame, chart.rows, chart.jobs);
    put_verdict(frame, chart.title, missed, text)?;
    put_what(frame, chart.rows, chart.jobs.len(), chart.until, text)?;
    put_ticks(frame, top_of(chart.shown.len()), step_of(frame), text)?;
    put_lane_line(frame, text)?;
    put_lines(chart, text)?;
    put_group(chart, text)?;
    put_locks_group(frame, chart.shown.len(), held, text)
}
