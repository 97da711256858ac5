//! Tones, each by a name: the name's own, or where a name before it has that one, the first that is free.
ghost use Rattle.std.specs.Prelude.{◌+◌, ◌<◌, ◌≡◌, ◌≤◌, IfOk, IfSome};
ghost use Rattle.frames.specs.Tones.{apart, first_free, fitted_tone, free_tone, has_tone, hash_from, last_tone, own_tone, tone_named, tones_of};
ghost use Rattle.frames.specs.declared.tones.TheConstants.{HASH_LIMIT, TONES_LIMIT};

use crate::rows::TaskRow;
use crate::view::is_chosen;
use ceiling_kernel::Release;
use std::alloc::{AllocError, Global};
use task_sheet::Name;

/// How many tones there are for tasks.
pub const TASK_TONES: u64 = 10;

/// How many there are for locks: each is a pair of one of six colours and one of six patterns.
pub const LOCK_TONES: u64 = 36;

// No more tones are asked for.
const TONES_LIMIT: u64 = 1_000;

// Sums of bytes stay below this prime.
const HASH_LIMIT: u64 = 65_521;

/// A name, and its tone.
#[derive(Clone, Copy)]
pub struct Toned {
    pub name: Name,
    pub tone: u64,
}

// A sum of a name's bytes, of which each one counts 31 times what the one behind it does.
fn hash_of(name: Name) -> u64
    ensures value { result ≡ hash_from 0 name }
    ensures within { result < HASH_LIMIT }
{
    let mut hash = 0;
    for byte in name.bytes() {
        hash = (31 * hash + u64::from(*byte)) % HASH_LIMIT;
    }
    hash
}

// The tone that a name has by itself, of so many.
fn own_tone(name: Name, count: u64) -> u64
    requires { 0 < count }
    ensures value { result ≡ own_tone count name }
    ensures within { result < count }
{
    hash_of(name) % count
}

// Whether some have a tone.
fn has_tone(given: &[Toned], tone: u64) -> bool
    ensures { result ≡ has_tone given.now tone }
{
    given.iter().any(|toned| toned.tone == tone)
}

// Of so many tones from one on the first that none of some has.
fn first_free(given: &[Toned], from: u64, count: u64) -> Option<u64>
    requires { from + count ≤ TONES_LIMIT }
    ensures value { result ≡ first_free given.now from count }
    ensures within { IfSome result (λ tone. tone < from + count) }
{
    for i in 0..count {
        if !has_tone(given, from + i) {
            return Some(from + i);
        }
    }
    None
}

// Of so many tones the first from one on that none of some has, else the first below it; that one where each is taken.
fn free_tone(given: &[Toned], own: u64, count: u64) -> u64
    requires own { own < count }
    requires few { count ≤ TONES_LIMIT }
    ensures { result ≡ free_tone given.now own count }
{
    match first_free(given, own, count - own) {
        Some(tone) => tone,
        None => first_free(given, 0, own).unwrap_or(own),
    }
}

/// The tones of some names, of so many, one after the other: each has its own or the next that is free, and where none
/// is, its own.
pub fn tones_of(alloc: Global, names: &[Name], count: u64) -> Result<Vec<Toned>, AllocError>
    requires some { 0 < count }
    requires few { count ≤ TONES_LIMIT }
    ensures { IfOk result (λ toned. toned.items ≡ tones_of count names.now) }
{
    let mut given: Vec<Toned> = Vec::with_capacity(alloc, names.len())?;
    for name in names {
        let tone = free_tone(&given, own_tone(*name, count), count);
        given.push(Toned { name: *name, tone })?;
    }
    Ok(given)
}

/// The tone of a name, among those of some.
pub fn tone_named(given: &[Toned], name: Name) -> u64
    ensures { result ≡ tone_named given.now name }
{
    for toned in given {
        if toned.name == name {
            return toned.tone;
        }
    }
    0
}

// The tone of a task's row below another: the next one, where that has its own.
fn apart(above: Option<u64>, tone: u64) -> u64
    ensures { result ≡ apart above tone }
{
    match above {
        Some(above) if above == tone => (tone % TASK_TONES + 1) % TASK_TONES,
        _ => tone,
    }
}

// The tone of the last of some rows that is shown, if one is.
fn last_tone(names: &[Name], releases: &[Release], rows: &[TaskRow]) -> Option<u64>
    ensures { result ≡ last_tone names.now releases.now None rows.now }
{
    let mut last = None;
    for row in rows {
        if is_chosen(names, releases, row.sheet.name()) {
            last = Some(row.tone);
        }
    }
    last
}

/// The tone of the row of a name's task below some rows, which is to be this one: where it is shown, another than that of
/// the shown one above it.
pub fn fitted_tone(names: &[Name], releases: &[Release], above: &[TaskRow], toned: Toned) -> u64
    ensures { result ≡ fitted_tone names.now releases.now above.now toned }
{
    if is_chosen(names, releases, toned.name) {
        apart(last_tone(names, releases, above), toned.tone)
    } else {
        toned.tone
    }
}
