//! The parts of a slice in which its job holds locks.
ghost use Rattle.std.specs.Prelude.{◌*◌, ◌+◌, ◌≡◌, ◌≤◌, ◌++◌, OnOk, length, nat_lt, string_bytes};
ghost use Rattle.frames.specs.declared.places.TheConstants.{PLACES_LIMIT};
ghost use Rattle.drawn_jobs.specs.Bars.{dark_text, label_class, label_depth, label_text, names_text, part_box, part_left, part_right, part_text};
ghost use Rattle.frames.specs.declared.frame.TheConstants.{RIGHTMOST};

use crate::stripes::put_stripes;
use crate::ticks::{dark_from, dark_to, fits};
use ceiling_kernel::Slice;
use frames::{Bar, Frame, Lane, sees, top_of, x_of};
use std::alloc::AllocError;
use task_sheet::{Name, Section};

// Names, each after one space.
fn put_names(names: &[Name], text: &mut String) -> Result<(), AllocError>
    ensures { OnOk result (string_bytes text.new ≡ string_bytes text.old ++ names_text names.now) }
{
    for name in names {
        write!(text, " {name}")?;
    }
    Ok(())
}

// From where to where a part of a slice's bar goes.
fn part_in(frame: Frame, slice: Slice, start: u64, stop: u64) -> (u64, u64)
    ensures left { result.0 ≡ part_left frame slice start }
    ensures right { result.1 ≡ part_right frame slice start stop }
    ensures within { result.0 + result.1 ≤ 2 * RIGHTMOST + 1 }
{
    let end = x_of(frame, slice.stop).max(x_of(frame, slice.start) + 5);
    let left = x_of(frame, start).min(end - 1);
    let right = x_of(frame, stop).max(left + 1).min(end);
    (left, right)
}

// One name stands in the middle of its stripe; several, which would stand across stripes, below the bar.
fn label_class(several: bool) -> &'static str
    ensures { result.now ≡ label_class several }
{
    if several { "m" } else { "k" }
}

// How far below a row's edge.
fn label_depth(several: bool) -> u64
    ensures value { result ≡ label_depth several }
    ensures within { result ≤ 450 }
{
    if several { 450 } else { 293 }
}

// Whether names are several.
fn are_several(names: &[Name]) -> bool
    ensures { result ≡ nat_lt 1 (length names.now) }
{
    names.len() > 1
}

// The names of locks in the middle of a part, where there is room.
fn put_label(
    x: u64,
    right: u64,
    k: usize,
    names: &[Name],
    text: &mut String,
) -> Result<(), AllocError>
    requires places { x + right ≤ 2 * RIGHTMOST + 1 }
    requires row { k ≤ PLACES_LIMIT }
    ensures { OnOk result (string_bytes text.new ≡ string_bytes text.old
        ++ label_text x right k names.now) }
{
    if !fits(right.saturating_sub(x) / 68, names) {
        return Ok(());
    }
    let several = are_several(names);
    let (class, middle) = (label_class(several), (x + right) / 2);
    let y = top_of(k) + label_depth(several);
    write!(text, "<text class=\"{class}\" x=\"{middle}\" y=\"{y}\">")?;
    put_names(names, text)?;
    writeln!(text, "</text>")
}

// The box of a part in which a job holds locks.
fn put_part_box(
    lane: &Lane<'_>,
    names: &[Name],
    start: u64,
    stop: u64,
    x: u64,
    right: u64,
    text: &mut String,
) -> Result<(), AllocError>
    ensures { OnOk result (string_bytes text.new ≡ string_bytes text.old
        ++ part_box lane.now.spot.k lane.now.row.now names.now start stop x right) }
{
    let bar = Bar {
        x,
        right,
        y: top_of(lane.spot.k) + 165,
        high: 180,
    };
    let name = lane.row.sheet.name();
    write!(text, "<path class=\"h\" d=\"{bar}\"><title>{name} holds")?;
    put_names(names, text)?;
    writeln!(text, " {start} to {stop} us</title></path>")
}

// The same with stripes and names, where it is in the window.
fn put_part(
    lane: &Lane<'_>,
    slice: Slice,
    names: &[Name],
    start: u64,
    stop: u64,
    text: &mut String,
) -> Result<(), AllocError>
    ensures { OnOk result (string_bytes text.new ≡ string_bytes text.old
        ++ part_text lane.now.frame lane.now.locks.now slice lane.now.spot.k lane.now.row.now
        names.now start stop) }
{
    if !sees(lane.frame, start, stop) {
        return Ok(());
    }
    let (x, right) = part_in(lane.frame, slice, start, stop);
    put_part_box(lane, names, start, stop, x, right, text)?;
    put_stripes(lane.locks, x, right, lane.spot.k, names, text)?;
    put_label(x, right, lane.spot.k, names, text)
}

// The darker part of a slice for a section, if there is one.
pub(crate) fn put_dark(
    executed: u64,
    slice: Slice,
    lane: &Lane<'_>,
    section: &Section,
    text: &mut String,
) -> Result<(), AllocError>
    ensures { OnOk result (string_bytes text.new ≡ string_bytes text.old
        ++ dark_text lane.now.frame lane.now.locks.now executed slice lane.now.spot.k
        lane.now.row.now section.now) }
{
    let from = dark_from(section, executed);
    let to = dark_to(section, executed, slice);
    if from < to {
        let start = slice.start + from;
        let stop = slice.start + to;
        put_part(lane, slice, &section.locks, start, stop, text)?;
    }
    Ok(())
}
