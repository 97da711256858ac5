//! The order that settings give those of their threads that a set has as tasks.
ghost use Rattle.std.specs.Prelude.{◌≡◌, ◌<◌, length, All, MatchResult, IfOk};
ghost use Rattle.task_sheet.specs.declared.set.TheConstants.{TASK_LIMIT};
ghost use Rattle.judge.specs.SettingFaults.{IsSettingsFault};
ghost use Rattle.judge.specs.KeptOrder.{IsKeptOrder, kept_fault, threads_fault};
ghost use Rattle.judge.specs.Node.{AreNumbersIn};

use crate::fault::SettingsFault;
use crate::numbers::numbers_of;
use crate::order::thread_order;
use crate::rows::{Setting, read_rows, sort_rows};
use crate::settings_fault::{SettingField, first_again};
use ceilings::Tabled;
use std::alloc::Global;
use task_sheet::TaskSet;

// The first reason why threads have no order.
fn threads_fault(threads: &[Setting]) -> Option<SettingsFault>
    ensures { result ≡ threads_fault threads.now }
{
    if let Some(line) = first_again(threads, SettingField::Name) {
        return Some(SettingsFault::SameTask { line });
    }
    match first_again(threads, SettingField::Number) {
        Some(line) => Some(SettingsFault::SameNumber { line }),
        None => None,
    }
}

/// Reads the order of a node to which a set is to be added: those tasks of the set that have a thread, as indexes, by the
/// numbers of their threads, the lowest first. Threads of no task of the set are passed over, and so are all mutexes.
/// Refused in this order: `BadLine`, `SameTask`, `SameNumber`.
pub fn read_kept(alloc: Global, set: &TaskSet, text: &[u8]) -> Result<Vec<usize>, SettingsFault>
    ensures kept { MatchResult result
        (λ order. IsKeptOrder set.now text.now order.items)
        (λ fault. IsSettingsFault fault (kept_fault text.now)) }
    ensures within { IfOk result (λ order. All (λ index. index < TASK_LIMIT) order.items) }
{
    let rows = read_rows(alloc, text)?;
    let settings = sort_rows(alloc, &rows)?;
    if let Some(fault) = threads_fault(&settings.threads) {
        return Err(fault);
    }
    let order = thread_order(alloc, set, &settings.threads)?;
    Ok(order)
}

/// Reads the numbers that a node's threads have, to which a set is to be added: those of an order's tasks, one by one, and 0
/// where a task has no thread. Refused: `BadLine`.
pub fn read_kept_numbers(
    alloc: Global,
    set: &Tabled<'_>,
    text: &[u8],
    order: &[usize],
) -> Result<Vec<u64>, SettingsFault>
    requires { All (λ index. index < length set.now) order.now }
    ensures { MatchResult result
        (λ numbers. AreNumbersIn set.now text.now order.now numbers.items)
        (λ fault. IsSettingsFault fault (kept_fault text.now)) }
{
    let rows = read_rows(alloc, text)?;
    let numbers = numbers_of(alloc, set, &rows, order)?;
    Ok(numbers)
}
