//! What is drawn of a chain in the picture of a run.
ghost use Rattle.std.specs.Prelude.{◌≡◌, ◌++◌, ◌≤◌, All, IfOk, OnOk, Some, length, option_map, string_bytes};
ghost use Rattle.frames.specs.declared.places.TheConstants.{PLACES_LIMIT};
ghost use Rattle.drawn_ways.specs.Stands.{age_of, oldest};
ghost use Rattle.drawn_ways.specs.WayTexts.{age_text, age_x, chain_line, drawn_of, ground_of, half_room, laid_over, later, stay_behind, stay_text, stops_at, stops_then, told_time, way_of, way_text, ways_of, ways_text};

use crate::ground::Ground;
use crate::legs::{Leg, path_at};
use crate::marks::{Ink, put_along, put_stops};
use crate::signs::put_signed;
use crate::sources::{outputs_in, source_of};
use crate::stands::{Stand, age_of, oldest};
use crate::stops::{Stop, stops_of};
use crate::style::STYLE;
use ceiling_kernel::Trace;
use chain_runs::ChainOutput;
use chains::Writes;
use frames::{Frame, ShownTime, TaskRow, end_of, in_millis, sees, start_of, top_of, unit_of, x_of};
use std::alloc::{AllocError, Global};
use std::fmt;
use task_sheet::{Name, TaskSet};

/// A chain: its name, when its tasks write, these by index, the first one first, and its bound in microseconds, if it has one.
#[derive(Drop)]
pub struct Way<'a> {
    pub name: Name,
    pub writes: Writes,
    pub tasks: &'a [usize],
    pub bound: Option<u64>,
}

// A time, shown in a picture's unit, or as `-` where there is none.
#[derive(Drop)]
struct Told {
    frame: Frame,
    time: Option<u64>,
}

impl fmt::Display for Told {
    ghost output = { λ told. Some (told_time told.frame told.time) };

    fn fmt<W: fmt::Write>(&self, f: &mut fmt::Formatter<W>) -> fmt::Result {
        let Some(micros) = self.time else {
            return f.write_str("-");
        };
        let millis = in_millis(self.frame);
        let (time, unit) = (ShownTime { millis, micros }, unit_of(millis));
        write!(f, "{time}{unit}")
    }
}

// Half of the room that a chain's name and an age take.
fn half_room(chain: Name) -> u64
    ensures { result ≡ half_room chain }
{
    450 + 35 * chain.bytes().len() as u64
}

// Where the middle of them lies.
fn age_x(frame: Frame, chain: Name, line: &Stop) -> u64
    ensures { result ≡ age_x frame chain line.now }
{
    let half = half_room(chain);
    let middle = (x_of(frame, line.start) + x_of(frame, line.stop)) / 2;
    middle
        .max(start_of(frame) + half)
        .min(end_of(frame).saturating_sub(half))
}

// The chain, and how old it gets, above a line that is seen.
fn put_age(
    frame: Frame,
    chain: Name,
    line: &Stop,
    stand: Stand,
    text: &mut String,
) -> Result<(), AllocError>
    requires { line.now.k ≤ PLACES_LIMIT }
    ensures { OnOk result (string_bytes text.new ≡ string_bytes text.old
        ++ age_text frame chain line.now (age_of stand)) }
{
    if !sees(frame, line.start, line.stop) {
        return Ok(());
    }
    let (x, y) = (age_x(frame, chain, line), top_of(line.k) + 140);
    let time = Some(age_of(stand));
    let age = Told { frame, time };
    write!(
        text,
        "<text class=\"yt\" x=\"{x}\" y=\"{y}\">{chain} {age}</text>\n"
    )
}

// From when to when it stands, in the row of the last task's job.
fn put_stay(
    frame: Frame,
    chain: Name,
    stand: Stand,
    last: &Stop,
    text: &mut String,
) -> Result<(), AllocError>
    requires { last.now.k ≤ PLACES_LIMIT }
    ensures { OnOk result (string_bytes text.new ≡ string_bytes text.old
        ++ stay_text frame chain stand last.now) }
{
    let stay = Stop {
        name: last.name,
        k: last.k,
        start: stand.since,
        stop: stand.until,
    };
    put_along(
        frame,
        Ink::Standing,
        " ys",
        chain,
        ": stands behind ",
        &stay,
        text,
    )?;
    put_age(frame, chain, &stay, stand, text)
}

// The same by the jobs of its path, of which the last stands first.
fn put_stay_behind(
    frame: Frame,
    chain: Name,
    stand: Stand,
    stops: &[Stop],
    text: &mut String,
) -> Result<(), AllocError>
    requires { All (λ s. s.k ≤ PLACES_LIMIT) stops.now }
    ensures { OnOk result (string_bytes text.new ≡ string_bytes text.old
        ++ stay_behind frame chain stand stops.now) }
{
    match stops.first() {
        Some(last) => put_stay(frame, chain, stand, last, text),
        None => Ok(()),
    }
}

// A path, where it is one of a later output.
fn later(since: u64, legs: &[Leg]) -> &[Leg]
    ensures { result.now ≡ later since legs.now }
{
    match legs.first() {
        Some(last) => if since < last.stop { legs } else { &[] },
        None => &[],
    }
}

// The jobs of the path of what stands at a time.
fn stops_at(
    alloc: Global,
    ground: &Ground<'_>,
    way: &Way<'_>,
    time: u64,
) -> Result<Vec<Stop>, AllocError>
    ensures stops { IfOk result (λ stops. stops.items
        ≡ stops_at (ground_of ground.now) (way_of way.now) time) }
    ensures within { IfOk result (λ stops. All (λ s. s.k ≤ PLACES_LIMIT) stops.items) }
{
    let legs = path_at(alloc, ground.source, way.tasks, time)?;
    stops_of(alloc, ground.set, ground.rows, ground.shown, &legs)
}

// Those of the path of what comes then.
fn stops_then(
    alloc: Global,
    ground: &Ground<'_>,
    way: &Way<'_>,
    stand: Stand,
) -> Result<Vec<Stop>, AllocError>
    ensures stops { IfOk result (λ stops. stops.items
        ≡ stops_then (ground_of ground.now) (way_of way.now) stand) }
    ensures within { IfOk result (λ stops. All (λ s. s.k ≤ PLACES_LIMIT) stops.items) }
{
    let legs = path_at(alloc, ground.source, way.tasks, stand.until)?;
    let legs = later(stand.since, &legs);
    stops_of(alloc, ground.set, ground.rows, ground.shown, legs)
}

// The way of what comes next, that of what stands longest, and how it stands.
fn put_ways(
    alloc: Global,
    ground: &Ground<'_>,
    way: &Way<'_>,
    stand: Stand,
    text: &mut String,
) -> Result<(), AllocError>
    ensures { OnOk result (string_bytes text.new ≡ string_bytes text.old
        ++ ways_text (ground_of ground.now) (way_of way.now) stand) }
{
    let nexts = stops_then(alloc, ground, way, stand)?;
    let stops = stops_at(alloc, ground, way, stand.since)?;
    put_stops(ground.frame, Ink::Next, way.name, &nexts, text)?;
    put_stops(ground.frame, Ink::Standing, way.name, &stops, text)?;
    put_stay_behind(ground.frame, way.name, stand, &stops, text)
}

// The same, where something stands.
fn ways_of(
    alloc: Global,
    ground: &Ground<'_>,
    way: &Way<'_>,
    stand: Option<Stand>,
) -> Result<String, AllocError>
    ensures { IfOk result (λ ways. string_bytes ways
        ≡ ways_of (ground_of ground.now) (way_of way.now) stand) }
{
    let mut ways = String::new(alloc);
    if let Some(stand) = stand {
        put_ways(alloc, ground, way, stand, &mut ways)?;
    }
    Ok(ways)
}

// The chain, the greatest age in the window, and the bound, below the rows.
fn put_chain_line(
    ground: &Ground<'_>,
    way: &Way<'_>,
    age: Option<u64>,
    text: &mut String,
) -> Result<(), AllocError>
    ensures { OnOk result (string_bytes text.new ≡ string_bytes text.old
        ++ chain_line (ground_of ground.now) (way_of way.now) age) }
{
    let y = top_of(ground.shown.len()) + 95;
    let (name, frame) = (way.name, ground.frame);
    let age = Told { frame, time: age };
    let bound = Told {
        frame,
        time: way.bound,
    };
    write!(
        text,
        "<text x=\"100\" y=\"{y}\">chain {name}: age {age} of bound {bound}</text>\n"
    )
}

// How old something gets, if there is something.
fn age_if(stand: Option<Stand>) -> Option<u64>
    ensures { result ≡ option_map age_of stand }
{
    match stand {
        None => None,
        Some(stand) => Some(age_of(stand)),
    }
}

// All that is drawn.
fn drawn_of(
    alloc: Global,
    ground: &Ground<'_>,
    way: &Way<'_>,
    stand: Option<Stand>,
) -> Result<String, AllocError>
    ensures { IfOk result (λ text. string_bytes text
        ≡ drawn_of (ground_of ground.now) (way_of way.now) stand) }
{
    let ways = ways_of(alloc, ground, way, stand)?;
    let mut text = String::new(alloc);
    text.push_str(STYLE)?;
    put_signed(way.writes, ways.as_str(), &mut text)?;
    put_chain_line(ground, way, age_if(stand), &mut text)?;
    Ok(text)
}

// Of the outputs that stand in a frame's window the one that gets oldest.
fn oldest_in(frame: Frame, outputs: &[ChainOutput]) -> Option<Stand>
    ensures { result ≡ oldest frame.from frame.to outputs.now }
{
    oldest(frame.from, frame.to, outputs)
}

/// Returns what is drawn of a chain in the picture of a run in a frame, with these rows of which these are shown, by rank: how
/// what stands longest behind it in the window came there, and what comes next. The error is out of memory.
pub fn way_text(
    alloc: Global,
    frame: Frame,
    set: &TaskSet,
    rows: &[TaskRow],
    shown: &[usize],
    trace: &Trace,
    way: &Way<'_>,
) -> Result<String, AllocError>
    requires { length shown.now ≤ PLACES_LIMIT }
    ensures { IfOk result (λ text. string_bytes text
        ≡ way_text frame set.now rows.now shown.now trace.now (way_of way.now)) }
{
    let source = source_of(alloc, set, frame.until, trace, way.writes)?;
    let outputs = outputs_in(alloc, &source, way.tasks)?;
    let stand = oldest_in(frame, &outputs);
    let ground = Ground {
        frame,
        set,
        rows,
        shown,
        source: &source,
    };
    drawn_of(alloc, &ground, way, stand)
}

/// Returns a document with a text in front of its last tag. The error is out of memory.
pub fn laid_over(alloc: Global, document: &[u8], over: &[u8]) -> Result<Vec<u8>, AllocError>
    ensures { IfOk result (λ text. text.items ≡ laid_over document.now over.now) }
{
    let end = document.len().saturating_sub(7);
    let mut text = Vec::with_capacity(alloc, document.len())?;
    text.extend_from_slice(&document[..end])?;
    text.extend_from_slice(over)?;
    text.extend_from_slice(b"</svg>\n")?;
    Ok(text)
}
