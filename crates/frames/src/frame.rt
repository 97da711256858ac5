//! How time and rows lie in the picture.
ghost use Rattle.std.specs.Prelude.{◌+◌, ◌<◌, ◌≡◌, ◌≤◌, length, nat_le, nat_lt};
ghost use Rattle.ceiling_kernel.specs.declared.accept.TheConstants.{HORIZON};
ghost use Rattle.task_sheet.specs.declared.set.TheConstants.{TASK_LIMIT};
ghost use Rattle.task_sheet.specs.declared.sheet.TheConstants.{PERIOD_TO};
ghost use Rattle.frames.specs.declared.places.TheConstants.{PLACES_LIMIT};
ghost use Rattle.frames.specs.Frame.{Frame, IsFrame, decade_of, ended, frame_beside, frame_end, frame_of, in_millis, is_in_millis, is_wide, least_period, left_of, level_of, limits_letters, margin_of, millis_letters, number_room, sees, span_of, step_of, steps_before, time_letters, top_of, whole_digits, x_of};
ghost use Rattle.frames.specs.declared.frame.TheConstants.{LOWEST_TOP, NARROWEST, RIGHTMOST, WIDEST_DECADE, WIDEST_MARGIN, WIDEST_STEP};

use crate::rows::TaskRow;
use crate::view::{View, window_end};
use ceiling_kernel::{HORIZON, JobRecord};
use std::marker::Model;
use task_sheet::PERIOD_TO;

// How far to the right time ends at least.
const NARROWEST: u64 = 9_400;

// How far to the right it ends at most, where no width is said.
const WIDEST: u64 = 15_800;

/// How far to the right time ends at most, in tenths of a pixel as are all places.
pub const RIGHTMOST: u64 = 159_800;

// How wide the margin to the left of it is at least.
const LEAST_MARGIN: u64 = 1_960;

// How wide it is at most.
const WIDEST_MARGIN: u64 = 2_600;

/// No row begins further down.
pub const LOWEST_TOP: u64 = 63_610;

// The widest power of ten of the scale, in microseconds.
const WIDEST_DECADE: u64 = 1_000_000;

/// The widest step of the scale, in microseconds.
pub const WIDEST_STEP: u64 = 5 * WIDEST_DECADE;

/// When a run ends, and the window of it, in microseconds; where the window begins and how wide it is, how many tasks there
/// are, and the number of the A size of the paper, if it is printed.
#[derive(Clone, Copy)]
pub struct Frame {
    pub until: u64,
    pub from: u64,
    pub to: u64,
    pub left: u64,
    pub span: u64,
    pub count: u64,
    pub paper: Option<u64>,
}

impl Model for Frame {
    ghost Value = { Frame };

    ghost view = { λ f. record { until = f.until; from = f.from; to = f.to; left = f.left; span = f.span; count = f.count; paper = f.paper } };

    ghost inverse = { λ f. record { until = f.until; from = f.from; to = f.to; left = f.left; span = f.span; count = f.count; paper = f.paper } };

    ghost invariant = { λ f. IsFrame (record { until = f.until; from = f.from; to = f.to; left = f.left; span = f.span; count = f.count; paper = f.paper }) };
}

// The shortest period of the rows.
fn least_period(rows: &[TaskRow]) -> u64
    ensures { result ≡ least_period PERIOD_TO rows.now }
{
    let mut least = PERIOD_TO;
    for row in rows {
        least = row.sheet.period().min(least);
    }
    least
}

// How many digits so many microseconds, ten seconds at most, have before the point, in milliseconds.
fn whole_digits(time: u64) -> u64
    ensures value { result ≡ whole_digits time }
    ensures few { result ≤ 5 }
{
    if time < 10_000 {
        1
    } else if time < 100_000 {
        2
    } else if time < 1_000_000 {
        3
    } else if time < 10_000_000 {
        4
    } else {
        5
    }
}

// How many letters they have with what stands behind it.
fn millis_letters(time: u64) -> u64
    ensures value { result ≡ millis_letters time }
    ensures few { result ≤ 9 }
{
    let whole = whole_digits(time);
    if time % 1000 == 0 {
        whole
    } else if time % 100 == 0 {
        whole + 2
    } else if time % 10 == 0 {
        whole + 3
    } else {
        whole + 4
    }
}

// Whether a picture's times are in milliseconds, by its window.
fn is_in_millis(window: u64) -> bool
    ensures { result ≡ is_in_millis window }
{
    window >= 10_000
}

/// How many letters so many microseconds have, in milliseconds or as they are.
pub fn time_letters(millis: bool, time: u64) -> u64
    ensures value { result ≡ time_letters millis time }
    ensures few { result ≤ 9 }
{
    if millis {
        millis_letters(time)
    } else {
        whole_digits(time) + 3
    }
}

// How many letters the line below a row's name has.
fn limits_letters(millis: bool, row: &TaskRow) -> u64
    ensures value { result ≡ limits_letters millis row.now }
    ensures few { result ≤ 40 }
{
    let deadline = time_letters(millis, row.sheet.deadline());
    match row.bound {
        Some(bound) => 13 + time_letters(millis, bound) + deadline,
        None => 12 + deadline,
    }
}

// How wide the number of a thread is behind a name, where there is one.
fn number_room(number: Option<u64>) -> u64
    ensures value { result ≡ number_room number }
    ensures few { result ≤ 500 }
{
    match number {
        Some(number) => if number < 1_000 { 250 } else { 500 },
        None => 0,
    }
}

// How wide the margin is to be for a row.
fn margin_of(millis: bool, row: &TaskRow) -> u64
    ensures { result ≡ margin_of millis row.now }
{
    let letters = (row.sheet.name().bytes().len() as u64).min(WIDEST_MARGIN);
    (700 + 78 * letters + number_room(row.number))
        .max(640 + 62 * limits_letters(millis, row))
        .min(WIDEST_MARGIN)
}

// How wide it is: where time begins.
fn left_of(millis: bool, rows: &[TaskRow]) -> u64
    ensures value { result ≡ left_of millis rows.now }
    ensures within { result ≤ WIDEST_MARGIN }
{
    let mut left = LEAST_MARGIN;
    for row in rows {
        left = margin_of(millis, row).max(left);
    }
    left
}

// How wide so much time is, to the right of a margin.
fn span_of(width: Option<u64>, left: u64, least: u64, time: u64) -> u64
    requires margin { left ≤ WIDEST_MARGIN }
    requires period { 0 < least }
    requires within { time ≤ HORIZON }
    ensures value { result ≡ span_of width left least time }
    ensures wide { NARROWEST ≤ left + result }
    ensures narrow { left + result ≤ RIGHTMOST }
{
    match width {
        None => (240 * time / least)
            .min(WIDEST - left)
            .max(NARROWEST - left),
        Some(width) => {
            let right = 10 * width.min(RIGHTMOST);
            right.saturating_sub(200).min(RIGHTMOST).max(NARROWEST) - left
        }
    }
}

/// The frame of a view of a run of the rows.
pub fn frame_of(rows: &[TaskRow], view: &View, until: u64) -> Frame
    requires { length rows.now ≤ TASK_LIMIT }
    ensures { result ≡ frame_of rows.now view.now until }
{
    let least = least_period(rows).max(1);
    let to = window_end(view, until).max(1);
    let from = view.from.min(to - 1);
    let left = left_of(is_in_millis(to - from), rows);
    let span = span_of(view.width, left, least, to - from);
    let count = rows.len() as u64;
    Frame {
        until: until.min(HORIZON).max(1),
        from,
        to,
        left,
        span,
        count,
        paper: view.paper,
    }
}

/// The frame of one of two runs side by side, of so many tasks, which ends by itself; the window goes up to the later end.
pub fn frame_beside(
    count: usize,
    old: &[TaskRow],
    new: &[TaskRow],
    view: &View,
    end: u64,
    until: u64,
) -> Frame
    requires { count ≤ TASK_LIMIT }
    ensures { result ≡ frame_beside count old.now new.now view.now end until }
{
    let least = least_period(old).min(least_period(new)).max(1);
    let to = window_end(view, until).max(1);
    let from = view.from.min(to - 1);
    let millis = is_in_millis(to - from);
    let left = left_of(millis, old).max(left_of(millis, new));
    let span = span_of(view.width, left, least, to - from);
    Frame {
        until: end.min(HORIZON).max(1),
        from,
        to,
        left,
        span,
        count: count as u64,
        paper: view.paper,
    }
}

/// Whether the picture's times are in milliseconds, where its window has ten of them; else they are in microseconds.
pub fn in_millis(frame: Frame) -> bool
    ensures { result ≡ in_millis frame }
{
    is_in_millis(frame.to - frame.from)
}

/// Where a time lies: where the window begins or ends, if it isn't in it.
pub fn x_of(frame: Frame, time: u64) -> u64
    ensures value { result ≡ x_of frame time }
    ensures within { result ≤ RIGHTMOST }
{
    let len = frame.to - frame.from;
    let gone = time.max(frame.from).min(frame.to) - frame.from;
    frame.left + gone * frame.span / len
}

/// Whether a time is before the window.
pub fn is_before(frame: Frame, time: u64) -> bool
    ensures { result ≡ nat_lt time frame.from }
{
    time < frame.from
}

/// Whether a span of time that has a tick is partly in the window.
pub fn sees(frame: Frame, start: u64, stop: u64) -> bool
    ensures { result ≡ sees frame start stop }
{
    start < frame.to && frame.from < stop
}

/// Whether a span is that ends so long after a time.
pub fn sees_up_to(frame: Frame, start: u64, time: u64, len: u64) -> bool
    ensures { result ≡ sees frame start (time + len) }
{
    start < frame.to && (frame.from < time || frame.from - time < len)
}

/// Whether a span is that begins and ends so long after a time.
pub fn sees_between(frame: Frame, time: u64, start: u64, stop: u64) -> bool
    ensures { result ≡ sees frame (time + start) (time + stop) }
{
    let begins = time < frame.to && start < frame.to - time;
    begins && (frame.from < time || frame.from - time < stop)
}

/// Whether the span of a time and so much more is.
pub fn sees_from(frame: Frame, time: u64, len: u64) -> bool
    ensures { result ≡ sees frame time (time + len) }
{
    sees_up_to(frame, time, time, len)
}

/// Where the time lies that comes so long after another.
pub fn x_after(frame: Frame, time: u64, len: u64) -> u64
    ensures value { result ≡ x_of frame (time + len) }
    ensures within { result ≤ RIGHTMOST }
{
    let time = time.min(frame.to);
    let rest = frame.to - time;
    x_of(frame, time + len.min(rest))
}

/// Where the window begins.
pub fn start_of(frame: Frame) -> u64
    ensures { result ≡ frame.left }
{
    frame.left
}

/// Where it ends.
pub fn end_of(frame: Frame) -> u64
    ensures value { result ≡ frame_end frame }
    ensures within { result ≤ RIGHTMOST }
{
    frame.left + frame.span
}

/// Where row k begins, from above.
pub fn top_of(k: usize) -> u64
    requires { k ≤ PLACES_LIMIT }
    ensures value { result ≡ top_of k }
    ensures within { result ≤ LOWEST_TOP }
{
    1690 + 480 * k as u64
}

/// Whether the time that comes so long after another isn't behind the window.
pub fn is_by_end(frame: Frame, time: u64, len: u64) -> bool
    ensures { result ≡ nat_le (time + len) frame.to }
{
    time <= frame.to && len <= frame.to - time
}

/// Whether that time isn't before the window.
pub fn is_from_start(frame: Frame, time: u64, len: u64) -> bool
    ensures { result ≡ nat_le frame.from (time + len) }
{
    frame.from <= time || frame.from - time <= len
}

/// The level of a task by its rank, from the highest level down.
pub fn level_of(frame: Frame, rank: usize) -> u64
    ensures { result ≡ level_of frame rank }
{
    frame.count.saturating_sub(rank as u64)
}

// Whether a step is wide enough.
fn is_wide(frame: Frame, step: u64) -> bool
    requires step { step ≤ WIDEST_STEP }
    ensures { result ≡ is_wide frame step }
{
    step * frame.span >= 800 * (frame.to - frame.from)
}

// The least power of ten of which five are wide enough.
fn decade_of(frame: Frame) -> u64
    ensures value { result ≡ decade_of frame }
    ensures some { 0 < result }
    ensures within { result ≤ WIDEST_DECADE }
{
    if is_wide(frame, 5) {
        1
    } else if is_wide(frame, 50) {
        10
    } else if is_wide(frame, 500) {
        100
    } else if is_wide(frame, 5_000) {
        1_000
    } else if is_wide(frame, 50_000) {
        10_000
    } else if is_wide(frame, 500_000) {
        100_000
    } else {
        WIDEST_DECADE
    }
}

/// The scale's step.
pub fn step_of(frame: Frame) -> u64
    ensures value { result ≡ step_of frame }
    ensures some { 0 < result }
    ensures within { result ≤ WIDEST_STEP }
{
    let power = decade_of(frame);
    if is_wide(frame, power) {
        power
    } else if is_wide(frame, 2 * power) {
        2 * power
    } else {
        5 * power
    }
}

/// How many steps lie before the window.
pub fn steps_before(frame: Frame, step: u64) -> u64
    requires some { 0 < step }
    requires within { step ≤ WIDEST_STEP }
    ensures { result ≡ steps_before frame step }
{
    (frame.from + step - 1) / step
}

/// When a job is done, or the end of the run.
pub fn ended(frame: Frame, job: &JobRecord) -> u64
    ensures { result ≡ ended frame job.now }
{
    job.finish.unwrap_or(frame.until)
}
