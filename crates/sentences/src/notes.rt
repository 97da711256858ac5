//! What is odd in a set, though it is no fault.
ghost use Rattle.std.specs.Prelude.{◌<◌, IfSome};
ghost use Rattle.sentences.specs.declared.notes.TheConstants.{SLOTS};

use crate::pieces::put_pieces;
use std::io::Write;
use streams::{Held, Watched, WriteFailed};
use task_sheet::{Name, Sheet, TaskSet};

// How often the sections of a set name a lock at most: 32 tasks of 8 sections of 4 locks.
const USES: usize = 1024;

// How many slots a table has: twice as many, so that a lock of a set always finds its slot.
const SLOTS: usize = 2048;

// The task of a use, by its number: each task has 32 numbers, and of these each section 4.
fn user_of(sheets: &[Sheet], number: usize) -> Option<&Sheet> {
    sheets.get(number / 32)
}

// The lock of a use.
fn lock_of(sheets: &[Sheet], number: usize) -> Option<Name> {
    let section = user_of(sheets, number)?.sections().get(number / 4 % 8)?;
    section.locks.get(number % 4).copied()
}

// The locks that are known. Each has the first slot that was free from its home on, where the number of its first use
// stands, and whether another task uses it, too. A free slot has the number behind the last.
#[derive(Drop)]
struct KnownLocks {
    slots: [usize; SLOTS],
    are_shared: [bool; SLOTS],
}

// The slot from which on a lock is looked for: its home, by the hash FNV-1a of its bytes.
fn home(lock: &Name) -> usize
    ensures { result < SLOTS }
{
    let mut hash: u32 = 0x811c_9dc5;
    for byte in lock.bytes() {
        hash = (hash ^ u32::from(*byte)).wrapping_mul(0x0100_0193);
    }
    hash as usize % SLOTS
}

impl KnownLocks {
    // The slot of a lock, or the free one that is to be its own; none where others have all slots.
    fn slot_of(&self, sheets: &[Sheet], lock: Name) -> Option<usize>
        ensures { IfSome result (λ slot. slot < SLOTS) }
    {
        let home = home(&lock);
        for step in 0..SLOTS {
            let slot = (home + step) % SLOTS;
            let first = self.slots[slot];
            if first == USES || lock_of(sheets, first) == Some(lock) {
                return Some(slot);
            }
        }
        None
    }

    // The lock of a use, if there is such a use, is known.
    fn note_use(&mut self, sheets: &[Sheet], number: usize) -> Option<()> {
        let slot = self.slot_of(sheets, lock_of(sheets, number)?)?;
        if self.slots[slot] == USES {
            self.slots[slot] = number;
        } else if self.slots[slot] / 32 != number / 32 {
            self.are_shared[slot] = true;
        }
        Some(())
    }

    // The task and the lock of a use, where it is the lock's first and no other task uses that.
    fn one_user<'a>(&self, sheets: &'a [Sheet], number: usize) -> Option<(&'a Sheet, Name)> {
        let lock = lock_of(sheets, number)?;
        let slot = self.slot_of(sheets, lock)?;
        if self.are_shared[slot] || self.slots[slot] != number {
            return None;
        }
        Some((user_of(sheets, number)?, lock))
    }
}

// The locks of some sheets.
fn known_locks(sheets: &[Sheet]) -> KnownLocks {
    let mut known = KnownLocks {
        slots: [USES; SLOTS],
        are_shared: [false; SLOTS],
    };
    for number in 0..USES {
        let _ = known.note_use(sheets, number);
    }
    known
}

// The note on a lock that one task alone uses.
fn put_note<W: Write + Drop>(
    user: &Sheet,
    lock: Name,
    held: &mut Held,
    out: &mut Watched<W>,
) -> Result<(), WriteFailed> {
    let user = user.name();
    let pieces = [
        "note: lock ",
        lock.as_str(),
        " has one user, ",
        user.as_str(),
        "\n",
    ];
    put_pieces(&pieces, held, out)
}

/// Writes a note for each lock that one task alone uses, in the order of first sight. It takes no memory.
pub fn put_notes<W: Write + Drop>(set: &TaskSet, out: &mut Watched<W>) -> Result<(), WriteFailed> {
    let mut held = Held::new();
    let sheets = set.sheets();
    let known = known_locks(sheets);
    for number in 0..USES {
        if let Some((user, lock)) = known.one_user(sheets, number) {
            put_note(user, lock, &mut held, out)?;
        }
    }
    held.send(out)
}
