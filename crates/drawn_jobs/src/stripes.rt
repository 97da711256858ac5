//! Stripes of locks over bars, and what tells of them.
ghost use Rattle.std.specs.Prelude.{◌*◌, ◌<◌, ◌≡◌, ◌≤◌, ◌++◌, OnOk, length, string_bytes};
ghost use Rattle.frames.specs.declared.places.TheConstants.{PLACES_LIMIT};
ghost use Rattle.drawn_jobs.specs.Stripes.{lock_text, lock_texts, locks_group, locks_head, locks_high, per_line, stripe_text, stripe_top, stripes_text};
ghost use Rattle.frames.specs.declared.frame.TheConstants.{RIGHTMOST};
ghost use Rattle.frames.specs.declared.locks.TheConstants.{LOCKS_LIMIT};

use frames::{Bar, Frame, Toned, end_of, tone_named, top_of};
use std::alloc::AllocError;
use task_sheet::Name;

// Where stripe i of n begins, in a bar.
fn stripe_top(n: usize, i: usize) -> u64
    ensures value { result ≡ stripe_top n i }
    ensures within { result ≤ 32_400 }
{
    180 * (i as u64).min(180) / (n as u64).max(1)
}

// How many locks the legend has in a line.
fn per_line(frame: Frame) -> u64
    ensures value { result ≡ per_line frame }
    ensures some { 0 < result }
    ensures within { result ≤ 84 }
{
    ((end_of(frame) - 900) / 2_000).max(1)
}

/// How high the legend of so many locks is.
pub fn locks_high(frame: Frame, n: usize) -> u64
    requires { n ≤ LOCKS_LIMIT }
    ensures value { result ≡ locks_high frame n }
    ensures within { result ≤ 260_000 }
{
    if n == 0 {
        return 0;
    }
    100 + 250 * ((n as u64 - 1) / per_line(frame) + 1)
}

// The stripe of a lock, number i of n, over a part of a bar.
fn put_stripe(
    locks: &[Toned],
    x: u64,
    right: u64,
    k: usize,
    n: usize,
    i: usize,
    name: Name,
    text: &mut String,
) -> Result<(), AllocError>
    requires row { k ≤ PLACES_LIMIT }
    requires place { i < n }
    ensures { OnOk result (string_bytes text.new ≡ string_bytes text.old
        ++ stripe_text locks.now x right k n i name) }
{
    let start = stripe_top(n, i);
    let stripe = Bar {
        x,
        right,
        y: top_of(k) + 165 + start,
        high: stripe_top(n, i + 1).saturating_sub(start),
    };
    let tone = tone_named(locks, name);
    writeln!(text, "<path class=\"k{tone}\" d=\"{stripe}\"/>")
}

// The stripes of some locks.
pub(crate) fn put_stripes(
    locks: &[Toned],
    x: u64,
    right: u64,
    k: usize,
    names: &[Name],
    text: &mut String,
) -> Result<(), AllocError>
    requires { k ≤ PLACES_LIMIT }
    ensures { OnOk result (string_bytes text.new ≡ string_bytes text.old
        ++ stripes_text locks.now x right k names.now) }
{
    for (i, name) in names.iter().enumerate() {
        put_stripe(locks, x, right, k, names.len(), i, *name, text)?;
    }
    Ok(())
}

// Lock i in the legend.
fn put_lock(
    frame: Frame,
    bottom: u64,
    i: usize,
    lock: Toned,
    text: &mut String,
) -> Result<(), AllocError>
    requires place { i ≤ LOCKS_LIMIT }
    requires row { bottom ≤ 2 * RIGHTMOST }
    ensures { OnOk result (string_bytes text.new ≡ string_bytes text.old
        ++ lock_text frame bottom i lock) }
{
    let each = per_line(frame);
    let x = 900 + 2_000 * (i as u64 % each);
    let y = bottom + 250 * (i as u64 / each);
    let bar = Bar {
        x,
        right: x + 200,
        y,
        high: 180,
    };
    let (name, tone) = (lock.name, lock.tone);
    let (right, low) = (x + 250, y + 128);
    writeln!(
        text,
        "<path class=\"k{tone}\" d=\"{bar}\"/><text class=\"c\" x=\"{right}\" y=\"{low}\">{name}</text>"
    )
}

// The locks, each once.
fn put_lock_texts(
    frame: Frame,
    bottom: u64,
    locks: &[Toned],
    text: &mut String,
) -> Result<(), AllocError>
    requires few { length locks.now ≤ LOCKS_LIMIT }
    requires row { bottom ≤ 2 * RIGHTMOST }
    ensures { OnOk result (string_bytes text.new ≡ string_bytes text.old
        ++ lock_texts frame bottom 0 locks.now) }
{
    for (i, lock) in locks.iter().enumerate() {
        put_lock(frame, bottom, i, *lock, text)?;
    }
    Ok(())
}

// What stands before them, where there are some.
fn put_locks_head(bottom: u64, n: usize, text: &mut String) -> Result<(), AllocError>
    requires { bottom ≤ 2 * RIGHTMOST }
    ensures { OnOk result (string_bytes text.new ≡ string_bytes text.old ++ locks_head bottom n) }
{
    if n == 0 {
        return Ok(());
    }
    let y = bottom + 128;
    writeln!(text, "<text x=\"100\" y=\"{y}\">holds a lock:</text>")
}

/// Puts the legend of some locks below so many rows, as a group.
pub fn put_locks_group(
    frame: Frame,
    rows: usize,
    locks: &[Toned],
    text: &mut String,
) -> Result<(), AllocError>
    requires rows { rows ≤ PLACES_LIMIT }
    requires few { length locks.now ≤ LOCKS_LIMIT }
    ensures { OnOk result (string_bytes text.new ≡ string_bytes text.old
        ++ locks_group frame rows locks.now) }
{
    let bottom = top_of(rows) + 120;
    text.push_str("<g id=\"k\">\n")?;
    put_locks_head(bottom, locks.len(), text)?;
    put_lock_texts(frame, bottom, locks, text)?;
    writeln!(text, "</g>")
}
