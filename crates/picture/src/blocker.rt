//! By which lock a task below blocks.
ghost use Rattle.std.specs.List.{find};
ghost use Rattle.std.specs.Prelude.{◌<◌, ◌≡◌, ◌≤◌, length};
ghost use Rattle.frames.specs.Slices.{executed_in};
ghost use Rattle.picture.specs.Blocking.{blocking_lock, is_raised, lock_inside};

use ceiling_kernel::Slice;
use explain::sheet_uses;
use frames::{TaskRow, executed_with, slice_at};
use task_sheet::{Name, Section};

// Whether a task from row k up uses a lock.
fn is_raised(rows: &[TaskRow], k: usize, lock: Name) -> bool
    requires { k < length rows.now }
    ensures { result ≡ is_raised rows.now k lock }
{
    rows[..k + 1].iter().any(|row| sheet_uses(&row.sheet, lock))
}

// The first such lock of some.
fn first_raised(rows: &[TaskRow], k: usize, locks: &[Name]) -> Option<Name>
    requires { k < length rows.now }
    ensures { result ≡ find (is_raised rows.now k) locks.now }
{
    locks.iter().copied().find(|lock| is_raised(rows, k, *lock))
}

// Of the first section that a job is inside after so many ticks, the first such lock.
fn lock_inside(rows: &[TaskRow], k: usize, executed: u64, sections: &[Section]) -> Option<Name>
    requires { k < length rows.now }
    ensures { result ≡ lock_inside rows.now k executed sections.now }
{
    for section in sections {
        if executed > section.at && executed - section.at < section.len {
            return first_raised(rows, k, &section.locks);
        }
    }
    None
}

// How many ticks a job has executed in the first n slices.
fn executed_in(slices: &[Slice], n: usize, job: usize) -> u64
    requires { n ≤ length slices.now }
    ensures { result ≡ executed_in slices.now n job }
{
    let mut executed = 0;
    for i in 0..n {
        executed = executed_with(executed, job, slice_at(slices, i));
    }
    executed
}

// The lock by which the job of slice n, of row m, blocks row k from a time on.
pub(crate) fn blocking_lock(
    rows: &[TaskRow],
    slices: &[Slice],
    k: usize,
    n: usize,
    time: u64,
    m: usize,
) -> Option<Name>
    requires row { k < length rows.now }
    requires other { m < length rows.now }
    requires place { n < length slices.now }
    ensures { result ≡ blocking_lock rows.now slices.now k n time m }
{
    let slice = slice_at(slices, n);
    let before = executed_in(slices, n, slice.job);
    let executed = before.min(slice.start) + time.saturating_sub(slice.start);
    lock_inside(rows, k, executed, rows[m].sheet.sections())
}
