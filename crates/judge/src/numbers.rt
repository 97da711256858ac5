//! The numbers of threads, as a text has them.
ghost use Rattle.std.specs.Prelude.{◌≡◌, ◌<◌, All, IfOk, length, map};
ghost use Rattle.judge.specs.SettingFaults.{setting_number, thread_number};
ghost use Rattle.judge.specs.SettingLines.{threads_of};

use crate::rows::SettingRow;
use ceilings::Tabled;
use std::alloc::{AllocError, Global};
use task_sheet::Name;

// The number of the first thread of this name, and 0 of none.
fn number_in(rows: &[SettingRow], name: Name) -> u64
    ensures { result ≡ setting_number (threads_of rows.now) name }
{
    for row in rows {
        if let SettingRow::Thread(thread) = row {
            if thread.name == name {
                return thread.number;
            }
        }
    }
    0
}

// The number of the thread of a task.
fn number_at(set: &Tabled<'_>, rows: &[SettingRow], task: usize) -> u64
    requires { task < length set.now }
    ensures { result ≡ thread_number set.now (threads_of rows.now) task }
{
    number_in(rows, set.sheets()[task].name())
}

/// The numbers of the threads of an order's tasks.
pub(crate) fn numbers_of(
    alloc: Global,
    set: &Tabled<'_>,
    rows: &[SettingRow],
    order: &[usize],
) -> Result<Vec<u64>, AllocError>
    requires { All (λ index. index < length set.now) order.now }
    ensures { IfOk result (λ numbers. numbers.items
        ≡ map (thread_number set.now (threads_of rows.now)) order.now) }
{
    let mut numbers = Vec::with_capacity(alloc, order.len())?;
    for task in order {
        numbers.push(number_at(set, rows, *task))?;
    }
    Ok(numbers)
}
