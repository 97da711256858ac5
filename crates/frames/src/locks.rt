//! Locks: those of the rows, each once, by name, and their tones.
ghost use Rattle.std.specs.Prelude.{◌<◌, ◌≡◌, ◌≤◌, IfOk, IfSome, OnOk, length, position};
ghost use Rattle.frames.specs.Locks.{is_less, locks_beside, locks_of, name_place, noted, noted_names, noted_rows, noted_sections, place_of};
ghost use Rattle.frames.specs.declared.locks.TheConstants.{LOCKS_LIMIT};

use crate::rows::TaskRow;
use crate::tones::{LOCK_TONES, Toned, tones_of};
use std::alloc::{AllocError, Global};
use task_sheet::{Name, Section};

/// Rows have no more locks: 32 sheets, of 8 sections each, of 4 locks each.
pub const LOCKS_LIMIT: usize = 1_024;

// The place of a lock among some.
fn name_place(locks: &[Name], name: Name) -> Option<usize>
    ensures { result ≡ name_place locks.now name }
{
    locks.iter().position(|lock| *lock == name)
}

// The place of the first lock behind a name.
fn first_behind(locks: &[Name], name: Name) -> Option<usize>
    ensures place { result ≡ position (is_less name) locks.now }
    ensures within { IfSome result (λ k. k < length locks.now) }
{
    locks.iter().position(|lock| name < *lock)
}

// Where a lock's name stands among some: before the first one behind it.
fn place_of(locks: &[Name], name: Name) -> usize
    ensures value { result ≡ place_of locks.now name }
    ensures within { result ≤ length locks.now }
{
    first_behind(locks, name).unwrap_or(locks.len())
}

// Notes a lock, where it isn't among some.
fn note(locks: &mut Vec<Name>, name: Name) -> Result<(), AllocError>
    requires { length locks.old.items ≤ LOCKS_LIMIT }
    ensures noted { OnOk result (locks.new.items ≡ noted locks.old.items name) }
    ensures few { OnOk result (length locks.new.items ≤ LOCKS_LIMIT) }
{
    match name_place(locks, name) {
        Some(_) => Ok(()),
        None => {
            if locks.len() < LOCKS_LIMIT {
                let place = place_of(locks, name);
                locks.insert(place, name)?;
            }
            Ok(())
        }
    }
}

/// Notes some names among those of locks, each once, the least first.
pub fn note_names(locks: &mut Vec<Name>, names: &[Name]) -> Result<(), AllocError>
    requires { length locks.old.items ≤ LOCKS_LIMIT }
    ensures noted { OnOk result (locks.new.items ≡ noted_names locks.old.items names.now) }
    ensures few { OnOk result (length locks.new.items ≤ LOCKS_LIMIT) }
{
    for name in names {
        note(locks, *name)?;
    }
    Ok(())
}

// Notes those of some sections.
fn note_sections(locks: &mut Vec<Name>, sections: &[Section]) -> Result<(), AllocError>
    requires { length locks.old.items ≤ LOCKS_LIMIT }
    ensures noted { OnOk result (locks.new.items ≡ noted_sections locks.old.items sections.now) }
    ensures few { OnOk result (length locks.new.items ≤ LOCKS_LIMIT) }
{
    for section in sections {
        note_names(locks, &section.locks)?;
    }
    Ok(())
}

// Notes those of some rows.
fn note_rows(locks: &mut Vec<Name>, rows: &[TaskRow]) -> Result<(), AllocError>
    requires { length locks.old.items ≤ LOCKS_LIMIT }
    ensures noted { OnOk result (locks.new.items ≡ noted_rows locks.old.items rows.now) }
    ensures few { OnOk result (length locks.new.items ≤ LOCKS_LIMIT) }
{
    for row in rows {
        note_sections(locks, row.sheet.sections())?;
    }
    Ok(())
}

/// The locks of the rows, each once, by name, and their tones.
pub fn locks_of(alloc: Global, rows: &[TaskRow]) -> Result<Vec<Toned>, AllocError>
    ensures value { IfOk result (λ locks. locks.items ≡ locks_of rows.now) }
    ensures few { IfOk result (λ locks. length locks.items ≤ LOCKS_LIMIT) }
{
    let mut names = Vec::new(alloc);
    note_rows(&mut names, rows)?;
    tones_of(alloc, &names, LOCK_TONES)
}

/// The locks of the rows of two runs, each once, by name, and their tones.
pub fn locks_beside(
    alloc: Global,
    old: &[TaskRow],
    new: &[TaskRow],
) -> Result<Vec<Toned>, AllocError>
    ensures value { IfOk result (λ locks. locks.items ≡ locks_beside old.now new.now) }
    ensures few { IfOk result (λ locks. length locks.items ≤ LOCKS_LIMIT) }
{
    let mut names = Vec::new(alloc);
    note_rows(&mut names, old)?;
    note_rows(&mut names, new)?;
    tones_of(alloc, &names, LOCK_TONES)
}
