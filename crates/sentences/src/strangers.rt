//! Tasks that a set, or what is read beside it, speaks of, or should have, and that the set doesn't have.

use crate::pieces::put_pieces;
use judge::{SettingRow, read_front};
use lines::TextPlace;
use std::alloc::Global;
use std::io::Write;
use streams::{Held, Watched, WriteFailed};
use task_sheet::{Name, Outranks, TaskSet};

/// What is said of a name that a task outranks and that no task of the set has.
pub(crate) fn unbound(name: Name) -> &'static str {
    if name.bytes() == b"all".as_slice() {
        ", which is no task of the set: that binds nothing; to outrank all others, write outranks = \"all\""
    } else {
        ", which is no task of the set: that binds nothing"
    }
}

// The notes on those of the names that a task outranks that no task of the set has.
fn put_strangers_of<W: Write + Drop>(
    set: &TaskSet,
    task: &Name,
    names: &[Name],
    held: &mut Held,
    out: &mut Watched<W>,
) -> Result<(), WriteFailed> {
    for name in names {
        if set.find(*name).is_none() {
            let pieces = ["note: ", task.as_str(), " outranks ", name.as_str()];
            put_pieces(&pieces, held, out)?;
            put_pieces(&[unbound(*name), "\n"], held, out)?;
        }
    }
    Ok(())
}

/// Writes a note for each name that a task outranks and that no task of the set has, by rank, then as written. It takes
/// no memory.
pub fn put_strangers<W: Write + Drop>(
    set: &TaskSet,
    out: &mut Watched<W>,
) -> Result<(), WriteFailed> {
    let mut held = Held::new();
    for sheet in set.sheets() {
        if let Outranks::Named(names) = sheet.outranks() {
            put_strangers_of(set, &sheet.name(), names, &mut held, out)?;
        }
    }
    held.send(out)
}

/// Writes a note for each thread of some settings that is no task of a set, in the order of their lines.
pub fn put_strange_threads<W: Write + Drop>(
    alloc: Global,
    set: &TaskSet,
    settings: &[u8],
    out: &mut Watched<W>,
) -> Result<(), WriteFailed> {
    let Ok(front) = read_front(alloc, TextPlace::start(settings)) else {
        return Ok(());
    };
    let mut held = Held::new();
    for row in &front.rows {
        if let SettingRow::Thread(thread) = row {
            if set.find(thread.name).is_none() {
                let pieces = [
                    "note: thread ",
                    thread.name.as_str(),
                    " is no task of the set: it is left out\n",
                ];
                put_pieces(&pieces, &mut held, out)?;
            }
        }
    }
    held.send(out)
}

/// Writes a note where a set has no task. It takes no memory.
pub fn put_empty<W: Write + Drop>(set: &TaskSet, out: &mut Watched<W>) -> Result<(), WriteFailed> {
    let note: &[u8] = if set.is_empty() {
        b"note: the set has no task\n"
    } else {
        b""
    };
    out.write(note)
}
