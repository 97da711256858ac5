//! What a person is told of who says by what a set is preferred.

use crate::pieces::write_note;
use std::io::Write;
use streams::{Watched, WriteFailed};
use task_sheet::{Preference, Sheet, TaskSet};

// The highest priority of `SCHED_FIFO` on Linux.
const MOST_FIFO: u64 = 99;

/// Writes a note that a call prefers otherwise than its set, or than the new one. It takes no memory.
pub fn put_override<W: Write + Drop>(
    call: Preference,
    own: Preference,
    is_new: bool,
    out: &mut Watched<W>,
) -> Result<(), WriteFailed> {
    let whose = if is_new { "new set's" } else { "set's" };
    let pieces = [
        "note: --prefer ",
        call.word(),
        " overrides the ",
        whose,
        " prefer = \"",
        own.word(),
        "\"\n",
    ];
    write_note(&pieces, out)
}

/// That names decide the order.
pub(crate) const NAMES_DECIDE: &str =
    "names decide the order; prefer = \"deadline\" in front of the tasks has shorter ones higher";

// Whether no task has a weight, and one stands lower than one of a longer limit.
fn are_against_limits(sheets: &[Sheet]) -> bool {
    let mut is_one = false;
    let mut before = u64::MAX;
    for sheet in sheets {
        if sheet.weight() > 0 {
            return false;
        }
        is_one = is_one || before < sheet.limit();
        before = sheet.limit();
    }
    is_one
}

/// Writes a note where no task of a set has a weight and names put a task lower than one of a longer limit. It takes no
/// memory.
pub fn put_names_decide<W: Write + Drop>(
    set: &TaskSet,
    out: &mut Watched<W>,
) -> Result<(), WriteFailed> {
    if are_against_limits(set.sheets()) {
        write_note(&["note: ", NAMES_DECIDE, "\n"], out)
    } else {
        Ok(())
    }
}

/// Writes a note where a base puts the highest thread of a set above the most that Linux has for `SCHED_FIFO`. It takes no
/// memory.
pub fn put_past_priorities<W: Write + Drop>(
    base: u32,
    set: &TaskSet,
    out: &mut Watched<W>,
) -> Result<(), WriteFailed> {
    let threads = set.sheets().len() as u64;
    let note: &[u8] = if threads > 0 && u64::from(base) + threads > MOST_FIFO + 1 {
        b"note: the highest thread is above 99, the most that Linux has for SCHED_FIFO\n"
    } else {
        b""
    };
    out.write(note)
}
