//! What a person is told of a run and of a trace.

use crate::pieces::{put_pieces, write_note};
use std::io::Write;
use streams::{Held, Watched, WriteFailed};
use task_sheet::{Members, Name, TaskSet};

/// Writes a note that nothing was run, since no order of the set passes. It takes no memory.
pub fn put_unrun<W: Write + Drop>(out: &mut Watched<W>) -> Result<(), WriteFailed> {
    out.write(b"note: no order passes, so there is no run: desk explain says why\n")
}

/// Writes a note that there aren't two runs, since no order of the new set passes, or of the first. It takes no memory.
pub fn put_unrun_of<W: Write + Drop>(
    is_new: bool,
    out: &mut Watched<W>,
) -> Result<(), WriteFailed> {
    let which = if is_new { "new" } else { "first" };
    let pieces = [
        "note: no order of the ",
        which,
        " set passes, so there is no picture: desk explain says why\n",
    ];
    write_note(&pieces, out)
}

/// Whether a set has timers or interrupts, which a run doesn't have.
pub fn leaves_out(set: &TaskSet) -> bool {
    for sheet in set.sheets() {
        if sheet.interrupts_some() {
            return true;
        }
    }
    false
}

/// Writes a note of a run of such a set. It takes no memory.
pub fn put_left_out<W: Write + Drop>(out: &mut Watched<W>) -> Result<(), WriteFailed> {
    out.write(b"note: what timers and interrupts take is in the bounds, and not in the run\n")
}

/// Writes a note that the chains of a set are in no script. It takes no memory.
pub fn put_chains_left_out<W: Write + Drop>(out: &mut Watched<W>) -> Result<(), WriteFailed> {
    out.write(b"note: a script has no chains: those of the set are left out\n")
}

/// Writes a note that no line moves the period of a task with an offset. It takes no memory.
pub fn put_periods_stay<W: Write + Drop>(out: &mut Watched<W>) -> Result<(), WriteFailed> {
    out.write(b"note: no line moves the period of a task with an offset: another may be refused\n")
}

/// Writes a note that a chain misses its limit in the best order of a set, of which no line says so. It takes no memory.
pub fn put_chain_missed<W: Write + Drop>(out: &mut Watched<W>) -> Result<(), WriteFailed> {
    out.write(b"note: in the best order a chain misses its limit: desk admit says which\n")
}

/// The same of the order that an answer is of, where that isn't the best one.
pub fn put_chain_missed_here<W: Write + Drop>(out: &mut Watched<W>) -> Result<(), WriteFailed> {
    out.write(b"note: in this order a chain misses its limit: desk judge says which\n")
}

/// The same of the best order of a new set.
pub fn put_chain_missed_in_new<W: Write + Drop>(out: &mut Watched<W>) -> Result<(), WriteFailed> {
    out.write(
        b"note: in the new set's best order a chain misses its limit: desk admit says which\n",
    )
}

/// Writes a note that a run ends where a job of a task is ready and the one before it isn't finished. It takes no memory.
pub fn put_overran<W: Write + Drop>(name: Name, out: &mut Watched<W>) -> Result<(), WriteFailed> {
    let pieces = [
        "note: the run ends where a job of ",
        name.as_str(),
        " is ready and the one before it isn't done\n",
    ];
    write_note(&pieces, out)
}

/// The same of one of two runs.
pub fn put_one_overran<W: Write + Drop>(
    name: Name,
    out: &mut Watched<W>,
) -> Result<(), WriteFailed> {
    let pieces = [
        "note: of the two runs one ends where a job of ",
        name.as_str(),
        " is ready and the one before it isn't done\n",
    ];
    write_note(&pieces, out)
}

// What stands in front of the first name, and of a further one.
fn before_name(count: usize) -> &'static str {
    if count == 0 {
        "note: the trace has no job of "
    } else {
        ", "
    }
}

/// Writes a note on the tasks of a set that aren't among those of which a trace shows jobs. It takes no memory.
pub fn put_unseen<W: Write + Drop>(
    set: &TaskSet,
    seen: Members,
    out: &mut Watched<W>,
) -> Result<(), WriteFailed> {
    let mut held = Held::new();
    let mut count = 0usize;
    for (i, sheet) in set.sheets().iter().enumerate() {
        if !seen.has(i) {
            put_pieces(&[before_name(count), sheet.name().as_str()], &mut held, out)?;
            count = 1;
        }
    }
    if count > 0 {
        held.put(b"\n", out)?;
    }
    held.send(out)
}
