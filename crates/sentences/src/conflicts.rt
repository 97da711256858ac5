//! Which tasks of a set no order meets together.

use crate::pieces::{put_pieces, write_note};
use crate::told::between;
use std::io::Write;
use streams::{Held, Watched, WriteFailed};
use task_sheet::{Members, TaskSet};

// The names of some tasks, by rank, with commas.
fn put_names<W: Write + Drop>(
    set: &TaskSet,
    tasks: Members,
    held: &mut Held,
    out: &mut Watched<W>,
) -> Result<(), WriteFailed> {
    let mut count = 0usize;
    for (i, sheet) in set.sheets().iter().enumerate() {
        if tasks.has(i) {
            put_pieces(&[between(count), sheet.name().as_str()], held, out)?;
            count = 1;
        }
    }
    Ok(())
}

/// Writes a note that names a least conflict within the greatest obstruction of a set. It takes no memory.
pub fn put_conflict<W: Write + Drop>(
    set: &TaskSet,
    greatest: Members,
    least: Members,
    out: &mut Watched<W>,
) -> Result<(), WriteFailed> {
    let mut held = Held::new();
    let head: &[u8] = if least.len() < greatest.len() {
        b"note: of these"
    } else {
        b"note:"
    };
    let said: &[u8] = if least.len() == 1 {
        b" can't be met in any order: desk explain says why\n"
    } else {
        b" can't be met together: desk explain says why\n"
    };
    held.put(head, out)?;
    put_names(set, least, &mut held, out)?;
    held.put(said, out)?;
    held.send(out)
}

/// Writes a note on a pair of tasks, by their indexes, that has to change places or to part. It takes no memory.
pub fn put_parted<W: Write + Drop>(
    set: &TaskSet,
    low: usize,
    high: usize,
    out: &mut Watched<W>,
) -> Result<(), WriteFailed> {
    let (Some(low), Some(high)) = (set.get(low), set.get(high)) else {
        return Ok(());
    };
    let (low, high) = (low.name(), high.name());
    let pieces = [
        "note: with ",
        high.as_str(),
        " above ",
        low.as_str(),
        ", and those below as they are, no order passes: leave out the line of one, and that one may move\n",
    ];
    write_note(&pieces, out)
}
