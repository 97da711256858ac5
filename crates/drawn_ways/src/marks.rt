//! How a way is drawn.
ghost use Rattle.std.specs.Prelude.{◌≡◌, ◌++◌, ◌≤◌, All, OnOk, string_bytes};
ghost use Rattle.frames.specs.Frame.{is_in};
ghost use Rattle.frames.specs.declared.frame.TheConstants.{RIGHTMOST};
ghost use Rattle.frames.specs.declared.places.TheConstants.{PLACES_LIMIT};
ghost use Rattle.drawn_ways.specs.WayMarks.{along_text, class_of, dot_text, job_text, line_y, link_text, link_to_text, path_end, path_head, stop_text, stops_text, turn_text};

use crate::stops::Stop;
use frames::{Frame, sees, top_of, x_of};
use std::alloc::AllocError;
use task_sheet::Name;

// Whose way it is: that of what stands longest, or of what comes next.
#[derive(Clone, Copy)]
pub(crate) enum Ink {
    Standing,
    Next,
}

// The class of its lines.
fn class_of(ink: Ink) -> &'static str
    ensures { result.now ≡ class_of ink }
{
    match ink {
        Ink::Standing => "ya",
        Ink::Next => "yb",
    }
}

// How high they lie in row k.
fn line_y(ink: Ink, k: usize) -> u64
    requires { k ≤ PLACES_LIMIT }
    ensures { result ≡ line_y ink k }
{
    match ink {
        Ink::Standing => top_of(k) + 215,
        Ink::Next => top_of(k) + 295,
    }
}

// Whether a time is in the window.
fn is_in(frame: Frame, time: u64) -> bool
    ensures { result ≡ is_in frame time }
{
    frame.from <= time && time <= frame.to
}

// A path, up to where it begins.
fn put_head(ink: Ink, class: &str, x: u64, k: usize, text: &mut String) -> Result<(), AllocError>
    requires { k ≤ PLACES_LIMIT }
    ensures { OnOk result (string_bytes text.new ≡ string_bytes text.old
        ++ path_head ink class.now x k) }
{
    let way = class_of(ink);
    let y = line_y(ink, k);
    write!(text, "<path class=\"{way}{class}\" d=\"M{x} {y}")
}

// Its end: a line to the right, and what it tells of a chain.
fn put_end(
    right: u64,
    chain: Name,
    how: &str,
    line: &Stop,
    text: &mut String,
) -> Result<(), AllocError>
    ensures { OnOk result (string_bytes text.new ≡ string_bytes text.old
        ++ path_end right chain how.now line.now) }
{
    let Stop {
        name,
        start,
        stop,
        ..
    } = *line;
    write!(
        text,
        "H{right}\"><title>{chain}{how}{name} {start} to {stop} us</title></path>\n"
    )
}

// A line along a row, where it is seen, and what it tells of a chain.
pub(crate) fn put_along(
    frame: Frame,
    ink: Ink,
    class: &str,
    chain: Name,
    how: &str,
    line: &Stop,
    text: &mut String,
) -> Result<(), AllocError>
    requires { line.now.k ≤ PLACES_LIMIT }
    ensures { OnOk result (string_bytes text.new ≡ string_bytes text.old
        ++ along_text frame ink class.now chain how.now line.now) }
{
    if !sees(frame, line.start, line.stop) {
        return Ok(());
    }
    put_head(ink, class, x_of(frame, line.start), line.k, text)?;
    put_end(x_of(frame, line.stop), chain, how, line, text)
}

// A dot, where a job reads in the window.
fn put_dot(frame: Frame, ink: Ink, stop: &Stop, text: &mut String) -> Result<(), AllocError>
    requires { stop.now.k ≤ PLACES_LIMIT }
    ensures { OnOk result (string_bytes text.new ≡ string_bytes text.old
        ++ dot_text frame ink stop.now) }
{
    if !is_in(frame, stop.start) {
        return Ok(());
    }
    put_head(ink, " yd", x_of(frame, stop.start), stop.k, text)?;
    text.push_str("h1\"/>\n")
}

// The same, and a line.
fn put_job(
    frame: Frame,
    ink: Ink,
    chain: Name,
    stop: &Stop,
    text: &mut String,
) -> Result<(), AllocError>
    requires { stop.now.k ≤ PLACES_LIMIT }
    ensures { OnOk result (string_bytes text.new ≡ string_bytes text.old
        ++ job_text frame ink chain stop.now) }
{
    put_dot(frame, ink, stop, text)?;
    put_along(frame, ink, "", chain, ": ", stop, text)
}

// A line to the row of the next job, where a job writes in the window.
fn put_turn(
    frame: Frame,
    ink: Ink,
    stop: &Stop,
    next: &Stop,
    text: &mut String,
) -> Result<(), AllocError>
    requires place { stop.now.k ≤ PLACES_LIMIT }
    requires next { next.now.k ≤ PLACES_LIMIT }
    ensures { OnOk result (string_bytes text.new ≡ string_bytes text.old
        ++ turn_text frame ink stop.now next.now) }
{
    if !is_in(frame, stop.stop) {
        return Ok(());
    }
    let y = line_y(ink, next.k);
    put_head(ink, "", x_of(frame, stop.stop), stop.k, text)?;
    writeln!(text, "V{y}\"/>")
}

// How what a job wrote comes to the next one: what waits until that reads.
fn put_link(
    frame: Frame,
    ink: Ink,
    chain: Name,
    stop: &Stop,
    next: &Stop,
    text: &mut String,
) -> Result<(), AllocError>
    requires place { stop.now.k ≤ PLACES_LIMIT }
    requires next { next.now.k ≤ PLACES_LIMIT }
    ensures { OnOk result (string_bytes text.new ≡ string_bytes text.old
        ++ link_text frame ink chain stop.now next.now) }
{
    let wait = Stop {
        name: next.name,
        k: next.k,
        start: stop.stop,
        stop: next.start,
    };
    put_turn(frame, ink, stop, next, text)?;
    put_along(frame, ink, " yw", chain, ": waits for ", &wait, text)
}

// How what the last of the jobs before one wrote comes to that, if there are some.
fn put_link_to(
    frame: Frame,
    ink: Ink,
    chain: Name,
    stop: &Stop,
    before: &[Stop],
    text: &mut String,
) -> Result<(), AllocError>
    requires place { stop.now.k ≤ PLACES_LIMIT }
    requires before { All (λ s. s.k ≤ PLACES_LIMIT) before.now }
    ensures { OnOk result (string_bytes text.new ≡ string_bytes text.old
        ++ link_to_text frame ink chain stop.now before.now) }
{
    match before.first() {
        Some(last) => put_link(frame, ink, chain, last, stop, text),
        None => Ok(()),
    }
}

// The same, and the job.
fn put_stop(
    frame: Frame,
    ink: Ink,
    chain: Name,
    stop: &Stop,
    before: &[Stop],
    text: &mut String,
) -> Result<(), AllocError>
    requires place { stop.now.k ≤ PLACES_LIMIT }
    requires before { All (λ s. s.k ≤ PLACES_LIMIT) before.now }
    ensures { OnOk result (string_bytes text.new ≡ string_bytes text.old
        ++ stop_text frame ink chain stop.now before.now) }
{
    put_link_to(frame, ink, chain, stop, before, text)?;
    put_job(frame, ink, chain, stop, text)
}

// Puts a way, of which the last job stands first.
pub(crate) fn put_stops(
    frame: Frame,
    ink: Ink,
    chain: Name,
    stops: &[Stop],
    text: &mut String,
) -> Result<(), AllocError>
    requires { All (λ s. s.k ≤ PLACES_LIMIT) stops.now }
    ensures { OnOk result (string_bytes text.new ≡ string_bytes text.old
        ++ stops_text frame ink chain stops.now) }
{
    let mut rest = stops;
    while let Some((stop, before)) = rest.split_first() {
        put_stop(frame, ink, chain, stop, before, text)?;
        rest = before;
    }
    Ok(())
}
