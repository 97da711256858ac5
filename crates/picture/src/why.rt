//! How the waits of jobs are drawn.
ghost use Rattle.std.specs.Prelude.{◌<◌, ◌≡◌, ◌≤◌, ◌++◌, OnOk, length, string_bytes};
ghost use Rattle.frames.specs.declared.places.TheConstants.{PLACES_LIMIT};
ghost use Rattle.picture.specs.WaitTexts.{above_text, blocked_text, has_link, ink_path, job_waits, link_text, lock_words, nth_wait_text, stay_text, tone_of_lock, wait_line, wait_title, waits_text, who_text, why_text};
ghost use Rattle.picture.specs.Waits.{EndBy, scene_of, stay_of};

use crate::blocker::blocking_lock;
use crate::waits::{Past, Stay, Wait, is_behind, is_gathered, past_before, stay_of, wait_at};
use frames::{
    Chart, Frame, Spot, Toned, has_room, name_in, name_of, place_in, sees, tone_in, tone_named,
    top_of, x_of,
};
use std::alloc::AllocError;
use task_sheet::Name;

// The tone of a lock, if there is one.
fn tone_of_lock(locks: &[Toned], lock: &Option<Name>) -> u64
    ensures { result ≡ tone_of_lock locks.now lock.now }
{
    match lock {
        None => 0,
        Some(lock) => tone_named(locks, *lock),
    }
}

// By which lock, if it is known.
fn put_lock(lock: &Option<Name>, text: &mut String) -> Result<(), AllocError>
    ensures { OnOk result (string_bytes text.new ≡ string_bytes text.old ++ lock_words lock.now) }
{
    let Some(lock) = lock else {
        return Ok(());
    };
    write!(text, "with {lock} ")
}

// A path for a wait for a task above, in its tone or in the neutral ink.
fn put_ink(gathered: bool, tone: u64, text: &mut String) -> Result<(), AllocError>
    ensures { OnOk result (string_bytes text.new ≡ string_bytes text.old
        ++ ink_path gathered tone) }
{
    if gathered {
        text.push_str("<path class=\"wa ns")
    } else {
        write!(text, "<path class=\"wa i{tone}")
    }
}

// Where it goes: a line in the middle of the row at place k, up to the title.
fn put_line(x: u64, right: u64, k: usize, text: &mut String) -> Result<(), AllocError>
    requires { k ≤ PLACES_LIMIT }
    ensures { OnOk result (string_bytes text.new ≡ string_bytes text.old ++ wait_line x right k) }
{
    let y = top_of(k) + 255;
    write!(text, "\" d=\"M{x} {y}H{right}\"><title>")
}

// The title: who waits for whom, and by which lock, from when to when.
fn put_title(
    chart: &Chart<'_>,
    k: usize,
    wait: Wait,
    how: &str,
    lock: &Option<Name>,
    text: &mut String,
) -> Result<(), AllocError>
    requires row { k < length chart.now.rows.now }
    requires other { wait.row < length chart.now.rows.now }
    ensures { OnOk result (string_bytes text.new ≡ string_bytes text.old
        ++ wait_title chart.now.rows.now k wait how.now lock.now) }
{
    let (name, other) = (name_in(chart.rows, k), name_in(chart.rows, wait.row));
    write!(text, "{name}{how}{other} ")?;
    put_lock(lock, text)?;
    let (start, stop) = (wait.start, wait.stop);
    write!(text, "{start} to {stop} us</title></path>\n")
}

// A wait of a row for a task above.
fn put_above(
    chart: &Chart<'_>,
    spot: Spot,
    wait: Wait,
    gathered: bool,
    text: &mut String,
) -> Result<(), AllocError>
    requires row { spot.rank < length chart.now.rows.now }
    requires place { spot.k ≤ PLACES_LIMIT }
    requires other { wait.row < length chart.now.rows.now }
    ensures { OnOk result (string_bytes text.new ≡ string_bytes text.old
        ++ above_text (scene_of chart.now) spot wait gathered) }
{
    let x = x_of(chart.frame, wait.start);
    let right = x_of(chart.frame, wait.stop).max(x + 1);
    put_ink(gathered, tone_in(chart.rows, wait.row), text)?;
    put_line(x, right, spot.k, text)?;
    put_title(chart, spot.rank, wait, " waits for ", &None, text)
}

// Whether a wait ends before the window does and is at least 2 pixels wide.
fn has_link(frame: Frame, wait: Wait) -> bool
    ensures { result ≡ has_link frame wait }
{
    wait.stop < frame.to && x_of(frame, wait.start) + 20 <= x_of(frame, wait.stop)
}

// A link in a tone, from the end of such a wait at place k down to the bar of the task below, where that is shown.
fn put_link(
    chart: &Chart<'_>,
    k: usize,
    wait: Wait,
    tone: u64,
    text: &mut String,
) -> Result<(), AllocError>
    requires { k ≤ PLACES_LIMIT }
    ensures { OnOk result (string_bytes text.new ≡ string_bytes text.old
        ++ link_text (scene_of chart.now) k wait tone) }
{
    if !has_link(chart.frame, wait) {
        return Ok(());
    }
    let Some(m) = place_in(chart.shown, wait.row) else {
        return Ok(());
    };
    let (x, y, bar) = (
        x_of(chart.frame, wait.stop),
        top_of(k) + 255,
        top_of(m) + 165,
    );
    write!(text, "<path class=\"wj d{tone}\" d=\"M{x} {y}V{bar}\"/>\n")
}

// A wait of a row for a task below, which blocks by a lock: dots in its tone.
fn put_blocked(
    chart: &Chart<'_>,
    spot: Spot,
    wait: Wait,
    lock: Option<Name>,
    text: &mut String,
) -> Result<(), AllocError>
    requires row { spot.rank < length chart.now.rows.now }
    requires place { spot.k ≤ PLACES_LIMIT }
    requires other { wait.row < length chart.now.rows.now }
    ensures { OnOk result (string_bytes text.new ≡ string_bytes text.old
        ++ blocked_text (scene_of chart.now) spot wait lock) }
{
    let tone = tone_of_lock(chart.locks, &lock);
    let start = x_of(chart.frame, wait.start);
    let stop = x_of(chart.frame, wait.stop);
    let right = stop.saturating_sub(30).max(start + 31);
    write!(text, "<path class=\"wb d{tone}")?;
    put_line(start + 30, right, spot.k, text)?;
    put_title(chart, spot.rank, wait, " is blocked by ", &lock, text)?;
    put_link(chart, spot.k, wait, tone, text)
}

// The name of who executes, in the middle of a wait, above, where it has room.
fn put_who(chart: &Chart<'_>, k: usize, wait: Wait, text: &mut String) -> Result<(), AllocError>
    requires place { k ≤ PLACES_LIMIT }
    requires other { wait.row < length chart.now.rows.now }
    ensures { OnOk result (string_bytes text.new ≡ string_bytes text.old
        ++ who_text (scene_of chart.now) k wait) }
{
    let x = x_of(chart.frame, wait.start);
    let right = x_of(chart.frame, wait.stop);
    let name = name_in(chart.rows, wait.row);
    if !has_room(name, right.saturating_sub(x)) {
        return Ok(());
    }
    let (middle, y) = ((x + right) / 2, top_of(k) + 205);
    write!(
        text,
        "<text class=\"wl\" x=\"{middle}\" y=\"{y}\">{name}</text>\n"
    )
}

// Why a job in a row waits in slice n.
fn put_why(
    chart: &Chart<'_>,
    stay: Stay,
    spot: Spot,
    n: usize,
    wait: Wait,
    text: &mut String,
) -> Result<(), AllocError>
    requires row { spot.rank < length chart.now.rows.now }
    requires place { spot.k ≤ PLACES_LIMIT }
    requires other { wait.row < length chart.now.rows.now }
    requires slice { n < length chart.now.slices.now }
    ensures { OnOk result (string_bytes text.new ≡ string_bytes text.old
        ++ why_text (scene_of chart.now) stay spot n wait) }
{
    if spot.rank < wait.row {
        let lock = blocking_lock(chart.rows, chart.slices, spot.rank, n, wait.start, wait.row);
        put_blocked(chart, spot, wait, lock, text)
    } else {
        let gathered = is_gathered(chart, stay, spot.rank, n);
        put_above(chart, spot, wait, gathered, text)
    }
}

// That, and the name of who executes, if the job waits in that slice, and in the window.
fn put_nth_wait(
    chart: &Chart<'_>,
    stay: Stay,
    spot: Spot,
    n: usize,
    text: &mut String,
) -> Result<(), AllocError>
    requires row { spot.rank < length chart.now.rows.now }
    requires place { spot.k ≤ PLACES_LIMIT }
    requires slice { n < length chart.now.slices.now }
    ensures { OnOk result (string_bytes text.new ≡ string_bytes text.old
        ++ nth_wait_text (scene_of chart.now) stay spot n) }
{
    let Some(wait) = wait_at(chart, stay, n) else {
        return Ok(());
    };
    if !sees(chart.frame, wait.start, wait.stop) {
        return Ok(());
    }
    put_why(chart, stay, spot, n, wait, text)?;
    put_who(chart, spot.k, wait, text)
}

// The waits of a job in a row, by time: in the slices that end by then it isn't ready.
fn put_stay(
    chart: &Chart<'_>,
    stay: Stay,
    spot: Spot,
    past: Past,
    text: &mut String,
) -> Result<(), AllocError>
    requires row { spot.rank < length chart.now.rows.now }
    requires place { spot.k ≤ PLACES_LIMIT }
    requires within { past.count ≤ length chart.now.slices.now }
    requires ended { EndBy chart.now.slices.now past.count past.time }
    requires before { past.time ≤ stay.from }
    ensures { OnOk result (string_bytes text.new ≡ string_bytes text.old
        ++ stay_text (scene_of chart.now) stay spot) }
{
    for n in past.count..chart.slices.len() {
        if is_behind(chart, stay, n) {
            return Ok(());
        }
        put_nth_wait(chart, stay, spot, n, text)?;
    }
    Ok(())
}

// The waits of job j, in the row of its task.
fn put_job_waits(
    chart: &Chart<'_>,
    j: usize,
    past: Past,
    text: &mut String,
) -> Result<(), AllocError>
    requires job { j < length chart.now.jobs.now }
    requires within { past.count ≤ length chart.now.slices.now }
    requires ended { EndBy chart.now.slices.now past.count past.time }
    requires before { past.time ≤ (stay_of (scene_of chart.now) j).from }
    ensures { OnOk result (string_bytes text.new ≡ string_bytes text.old
        ++ job_waits (scene_of chart.now) j) }
{
    let name = name_of(chart.jobs, j);
    match chart.spot_of(name) {
        None => Ok(()),
        Some(spot) => put_stay(chart, stay_of(chart, j), spot, past, text),
    }
}

// Puts the waits of each job into the row of its task.
#[tactic(auto, using(frames::proofs::Eachs::each_init, frames::proofs::Eachs::each_next))]
pub(crate) fn put_waits(chart: &Chart<'_>, text: &mut String) -> Result<(), AllocError>
    ensures { OnOk result (string_bytes text.new ≡ string_bytes text.old
        ++ waits_text chart.now.frame chart.now.locks.now chart.now.rows.now chart.now.shown.now
        chart.now.releases.now chart.now.jobs.now chart.now.slices.now) }
{
    let mut past = Past { count: 0, time: 0 };
    for j in 0..chart.jobs.len() {
        past = past_before(chart, j, past);
        put_job_waits(chart, j, past, text)?;
    }
    Ok(())
}
