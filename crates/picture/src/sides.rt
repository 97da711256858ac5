//! What stands still in a picture of two runs, and their lanes of the processor.
ghost use Rattle.std.specs.Prelude.{◌+◌, ◌*◌, ◌<◌, ◌≡◌, ◌≤◌, ◌++◌, OnOk, length, string_bytes};
ghost use Rattle.frames.specs.PictureRows.{at_places, at_spot, spot_in};
ghost use Rattle.frames.specs.declared.frame.TheConstants.{RIGHTMOST};
ghost use Rattle.frames.specs.declared.locks.TheConstants.{LOCKS_LIMIT};
ghost use Rattle.frames.specs.declared.places.TheConstants.{PLACES_LIMIT};
ghost use Rattle.picture.specs.Beside.{end_at, end_text, ground_beside, head_beside, known_to, lane_side, lanes_beside, later_of, margin_side, margins_beside, missed_letters, missed_words, name_word, pair_text, pairs_text, side_words, sides_words, size_beside, styles_beside, unrun_beside, verdict_beside, what_beside, word_at, end_words};
ghost use Rattle.picture.specs.Waits.{scene_of};

use crate::ground::{are_interrupted, put_size_head, put_ticks, put_unrun, put_window};
use crate::margin::put_margins;
use crate::style::{BESIDE_STYLE, STYLE};
use crate::title::{letters_behind, put_title_in, put_title_tail};
use drawn_jobs::{
    all_changed, all_missed, locks_high, put_lane_head, put_lane_line, put_lanes, put_locks_group,
};
use frames::{
    Chart, Frame, ShownTime, TaskRow, Toned, end_of, in_millis, start_of, step_of, top_of, unit_of,
    x_of,
};
use std::alloc::AllocError;

// A run: how many tasks and jobs it has, and when it ends.
fn put_side_words(
    millis: bool,
    word: &str,
    chart: &Chart<'_>,
    text: &mut String,
) -> Result<(), AllocError>
    ensures { OnOk result (string_bytes text.new ≡ string_bytes text.old
        ++ side_words millis word.now (scene_of chart.now) chart.now.until) }
{
    let (rows, jobs) = (chart.rows.len(), chart.jobs.len());
    let end = ShownTime {
        millis,
        micros: chart.until,
    };
    let unit = unit_of(millis);
    write!(
        text,
        "{word} tasks: {rows}, jobs: {jobs}, until {end}{unit}"
    )
}

// Both.
fn put_sides_words(
    millis: bool,
    old: &Chart<'_>,
    new: &Chart<'_>,
    text: &mut String,
) -> Result<(), AllocError>
    ensures { OnOk result (string_bytes text.new ≡ string_bytes text.old
        ++ sides_words millis (scene_of old.now) (scene_of new.now) old.now.until new.now.until) }
{
    put_side_words(millis, "before:", old, text)?;
    put_side_words(millis, ", after:", new, text)
}

// How wide and high the picture is.
fn put_size_beside(new: &Chart<'_>, locks: usize, text: &mut String) -> Result<(), AllocError>
    requires { locks ≤ LOCKS_LIMIT }
    ensures { OnOk result (string_bytes text.new ≡ string_bytes text.old
        ++ size_beside (scene_of new.now) locks) }
{
    let high = top_of(new.shown.len()) + 120 + locks_high(new.frame, locks);
    let wide = end_of(new.frame) + 200;
    put_size_head(new.frame, wide, high, text)?;
    write!(text, "\" viewBox=\"0 0 {wide} {high}\">\n<title>")
}

// The first lines, and the title, with what was given behind it.
fn put_head(
    old: &Chart<'_>,
    new: &Chart<'_>,
    locks: usize,
    text: &mut String,
) -> Result<(), AllocError>
    requires { locks ≤ LOCKS_LIMIT }
    ensures { OnOk result (string_bytes text.new ≡ string_bytes text.old
        ++ head_beside (scene_of old.now) (scene_of new.now) new.now.title.now locks
        old.now.until new.now.until) }
{
    put_size_beside(new, locks, text)?;
    put_sides_words(false, old, new, text)?;
    put_title_tail(new.title, text)?;
    text.push_str("</title>\n")
}

// Whether a deadline is missed, and how many are.
fn put_missed(missed: usize, text: &mut String) -> Result<(), AllocError>
    ensures { OnOk result (string_bytes text.new ≡ string_bytes text.old ++ missed_words missed) }
{
    if missed == 0 {
        text.push_str("no deadline missed")
    } else {
        write!(
            text,
            "<tspan class=\"q\">deadlines missed: {missed}</tspan>"
        )
    }
}

// How many letters that takes.
fn missed_letters(missed: usize) -> usize
    ensures letters { result ≡ missed_letters missed }
    ensures few { result ≤ 23 }
{
    if missed == 0 { 18 } else { 23 }
}

// The same before and after, and behind it what was given as title, as far as there is room.
fn put_verdict(
    frame: Frame,
    title: &str,
    old: usize,
    new: usize,
    text: &mut String,
) -> Result<(), AllocError>
    ensures { OnOk result (string_bytes text.new ≡ string_bytes text.old
        ++ verdict_beside frame title.now old new) }
{
    text.push_str("<text class=\"t\" x=\"100\" y=\"200\">before: ")?;
    put_missed(old, text)?;
    text.push_str(", after: ")?;
    put_missed(new, text)?;
    let before = 20 + missed_letters(old) + missed_letters(new);
    put_title_in(title, letters_behind(frame, before), text)?;
    writeln!(text, "</text>")
}

// That the bounds of one of them count what the run lacks.
fn put_unrun_beside(old: &[TaskRow], new: &[TaskRow], text: &mut String) -> Result<(), AllocError>
    ensures { OnOk result (string_bytes text.new ≡ string_bytes text.old
        ++ unrun_beside old.now new.now) }
{
    if are_interrupted(old) {
        put_unrun(old, text)
    } else {
        put_unrun(new, text)
    }
}

// Up to when both are known.
pub(crate) fn known_to(old: &Chart<'_>, new: &Chart<'_>) -> u64
    ensures { result ≡ known_to (scene_of old.now) (scene_of new.now) }
{
    old.frame.until.min(new.frame.until)
}

// The frame of the one that ends later.
fn later_of(old: Frame, new: Frame) -> Frame
    ensures { result ≡ later_of old new }
{
    if old.until < new.until { new } else { old }
}

// The runs, how many responses changed, what the runs lack, and what part of them is drawn.
fn put_what(
    millis: bool,
    old: &Chart<'_>,
    new: &Chart<'_>,
    text: &mut String,
) -> Result<(), AllocError>
    ensures { OnOk result (string_bytes text.new ≡ string_bytes text.old
        ++ what_beside millis (scene_of old.now) (scene_of new.now) old.now.until new.now.until) }
{
    let changed = all_changed(known_to(old, new), old.jobs, new.jobs);
    text.push_str("<text x=\"100\" y=\"390\">")?;
    put_sides_words(millis, old, new, text)?;
    write!(text, ", responses changed: {changed}")?;
    put_unrun_beside(old.rows, new.rows, text)?;
    put_window(millis, later_of(old.frame, new.frame), text)?;
    writeln!(text, "</text>")
}

// The line above the two rows of a task, and the lines of both, below their bars.
fn put_pair(frame: Frame, n: usize, text: &mut String) -> Result<(), AllocError>
    requires { 2 * n + 2 ≤ PLACES_LIMIT }
    ensures { OnOk result (string_bytes text.new ≡ string_bytes text.old ++ pair_text frame n) }
{
    let (upper, lower) = (top_of(2 * n + 1), top_of(2 * n + 2));
    let (left, end) = (start_of(frame), end_of(frame));
    let (one, other) = (upper + 345, lower + 345);
    write!(
        text,
        "<path class=\"g\" d=\"M100 {upper}H{end}\"/>\
        <path class=\"l\" d=\"M{left} {one}H{end}M{left} {other}H{end}\"/>\n"
    )
}

// Those of so many places.
#[tactic(auto, using(frames::proofs::Eachs::each_init, frames::proofs::Eachs::each_next))]
fn put_pairs(frame: Frame, places: usize, text: &mut String) -> Result<(), AllocError>
    requires { places ≤ PLACES_LIMIT }
    ensures { OnOk result (string_bytes text.new ≡ string_bytes text.old
        ++ pairs_text frame places) }
{
    for n in 0..places / 2 {
        put_pair(frame, n, text)?;
    }
    Ok(())
}

// A word in the margin.
fn put_word(word: &str, y: u64, text: &mut String) -> Result<(), AllocError>
    ensures { OnOk result (string_bytes text.new ≡ string_bytes text.old ++ word_at word.now y) }
{
    write!(
        text,
        "<text class=\"ba\" x=\"500\" y=\"{y}\">{word}</text>\n"
    )
}

// The same above the name of the row at a place, where one stands there.
fn put_name_word(
    chart: &Chart<'_>,
    word: &str,
    k: usize,
    text: &mut String,
) -> Result<(), AllocError>
    requires { k < length chart.now.shown.now }
    ensures { OnOk result (string_bytes text.new ≡ string_bytes text.old
        ++ at_spot chart.now.rows.now (spot_in chart.now.shown.now k) (name_word word.now)) }
{
    let spot = chart.spot(k);
    if spot.rank >= chart.rows.len() {
        return Ok(());
    }
    put_word(word, top_of(spot.k) + 105, text)
}

// The same above the names of a run's rows.
#[tactic(auto, using(frames::proofs::Eachs::each_init, frames::proofs::Eachs::each_next))]
fn put_name_words(chart: &Chart<'_>, word: &str, text: &mut String) -> Result<(), AllocError>
    ensures { OnOk result (string_bytes text.new ≡ string_bytes text.old
        ++ at_places chart.now.rows.now chart.now.shown.now (name_word word.now)) }
{
    for k in 0..chart.shown.len() {
        put_name_word(chart, word, k, text)?;
    }
    Ok(())
}

// The margin of a run.
fn put_margin_side(chart: &Chart<'_>, word: &str, text: &mut String) -> Result<(), AllocError>
    ensures { OnOk result (string_bytes text.new ≡ string_bytes text.old
        ++ margin_side (scene_of chart.now) word.now) }
{
    put_margins(chart, text)?;
    put_name_words(chart, word, text)
}

// The margins of both, as a group.
fn put_margins_beside(old: &Chart<'_>, new: &Chart<'_>, text: &mut String) -> Result<(), AllocError>
    ensures { OnOk result (string_bytes text.new ≡ string_bytes text.old
        ++ margins_beside (scene_of old.now) (scene_of new.now)) }
{
    let unit = unit_of(in_millis(new.frame));
    write!(
        text,
        "<g id=\"n\">\n<text x=\"500\" y=\"1200\">time in{unit}</text>\n"
    )?;
    put_margin_side(old, "before", text)?;
    put_margin_side(new, "after", text)?;
    writeln!(text, "</g>")
}

// How the elements look, in a picture of two runs.
fn put_styles(text: &mut String) -> Result<(), AllocError>
    ensures { OnOk result (string_bytes text.new ≡ string_bytes text.old ++ styles_beside) }
{
    text.push_str(STYLE)?;
    text.push_str(BESIDE_STYLE)
}

// What stands still: how the elements look, how many deadlines are missed, what is drawn, the scale, the lines of the rows,
// the margins, and the locks that are held.
pub(crate) fn put_ground_beside(
    old: &Chart<'_>,
    new: &Chart<'_>,
    held: &[Toned],
    text: &mut String,
) -> Result<(), AllocError>
    requires { length held.now ≤ LOCKS_LIMIT }
    ensures { OnOk result (string_bytes text.new ≡ string_bytes text.old
        ++ ground_beside (scene_of old.now) (scene_of new.now) new.now.title.now held.now
        old.now.until new.now.until) }
{
    let frame = new.frame;
    let places = new.shown.len();
    put_head(old, new, held.len(), text)?;
    put_styles(text)?;
    let before = all_missed(old.frame, old.rows, old.jobs);
    let after = all_missed(frame, new.rows, new.jobs);
    put_verdict(frame, new.title, before, after, text)?;
    put_what(in_millis(frame), old, new, text)?;
    put_ticks(frame, top_of(places), step_of(frame), text)?;
    put_pairs(frame, places, text)?;
    put_margins_beside(old, new, text)?;
    put_locks_group(frame, places, held, text)
}

// A line and words in a lane.
fn put_end_at(frame: Frame, words: &str, x: u64, text: &mut String) -> Result<(), AllocError>
    requires { x ≤ RIGHTMOST }
    ensures { OnOk result (string_bytes text.new ≡ string_bytes text.old
        ++ end_at frame words.now x) }
{
    let place = (x + 40).min(end_of(frame).saturating_sub(400));
    write!(
        text,
        "<path class=\"en\" d=\"M{x} 1330v240\"/>\
        <text class=\"ba\" x=\"{place}\" y=\"1498\">{words}</text>\n"
    )
}

// The words, of a run that ends in the window, or has ended before it.
fn end_words(frame: Frame) -> &'static str
    ensures { result.now ≡ end_words frame }
{
    if frame.until < frame.from {
        "run has ended"
    } else {
        "run ends"
    }
}

// The same where a run ends, if it does before the window's end.
fn put_end(frame: Frame, text: &mut String) -> Result<(), AllocError>
    ensures { OnOk result (string_bytes text.new ≡ string_bytes text.old ++ end_text frame) }
{
    let until = frame.until;
    if until >= frame.to {
        return Ok(());
    }
    put_end_at(frame, end_words(frame), x_of(frame, until), text)
}

// The lane of the processor, with a word that says of which run, and where that ends.
fn put_lane_side(chart: &Chart<'_>, word: &str, text: &mut String) -> Result<(), AllocError>
    ensures { OnOk result (string_bytes text.new ≡ string_bytes text.old
        ++ lane_side (scene_of chart.now) word.now) }
{
    put_lane_line(chart.frame, text)?;
    put_lane_head(chart, text)?;
    put_word(word, 1345, text)?;
    put_lanes(chart, text)?;
    put_end(chart.frame, text)
}

// That of one run, and below it, by a place, that of the other.
pub(crate) fn put_lanes_beside(
    old: &Chart<'_>,
    new: &Chart<'_>,
    text: &mut String,
) -> Result<(), AllocError>
    ensures { OnOk result (string_bytes text.new ≡ string_bytes text.old
        ++ lanes_beside (scene_of old.now) (scene_of new.now)) }
{
    put_lane_side(old, "before", text)?;
    text.push_str("<g transform=\"translate(0 480)\">\n")?;
    put_lane_side(new, "after", text)?;
    text.push_str("</g>\n")
}
