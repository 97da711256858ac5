//! Which ticks of a slice are darker.
ghost use Rattle.std.specs.Prelude.{◌≡◌, ◌≤◌};
ghost use Rattle.drawn_jobs.specs.Sections.{dark_from, dark_to, fits};
ghost use Rattle.frames.specs.Slices.{ticks_of};

use ceiling_kernel::Slice;
use frames::ticks_of;
use task_sheet::{Name, Section};

// Where the darker part of a slice begins.
pub(crate) fn dark_from(section: &Section, executed: u64) -> u64
    ensures { result ≡ dark_from section.now executed }
{
    section.at.saturating_sub(executed)
}

// Where it ends.
pub(crate) fn dark_to(section: &Section, executed: u64, slice: Slice) -> u64
    ensures value { result ≡ dark_to section.now executed slice }
    ensures within { result ≤ ticks_of slice }
{
    let ticks = ticks_of(slice);
    if executed >= section.at {
        let gone = executed - section.at;
        section.len.saturating_sub(gone).min(ticks)
    } else {
        let ahead = section.at - executed;
        if ahead >= ticks {
            ticks
        } else {
            ahead + section.len.min(ticks - ahead)
        }
    }
}

// Whether the names have room, a space before each.
pub(crate) fn fits(room: u64, names: &[Name]) -> bool
    ensures { result ≡ fits room names.now }
{
    let mut left = room;
    for name in names {
        let letters = name.bytes().len() as u64;
        if letters >= left {
            return false;
        }
        left -= letters + 1;
    }
    true
}
