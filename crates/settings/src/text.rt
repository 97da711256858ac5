//! The lines of an order's settings.
ghost use Rattle.std.specs.Prelude.{◌≡◌, ◌++◌, ◌<◌, ◌≤◌, ℕ, List, length, slice_get, Some, All, OnOk, IfOk, option_map, string_bytes};
ghost use Rattle.task_sheet.specs.declared.set.TheConstants.{TASK_LIMIT};
ghost use Rattle.task_sheet.specs.Locks.{ceiling_of};
ghost use Rattle.task_sheet.specs.Orders.{IsOrder};
ghost use Rattle.ceilings.specs.IsTableOf.{locks_of};
ghost use Rattle.assignment.specs.Placings.{tasks_of_places};
ghost use Rattle.settings.specs.Settings.{mutex_line, mutex_lines_from, priority_of, settings_from, thread_line, thread_lines};

use assignment::{Place, tasks_of_places};
use ceilings::{LockTable, Tabled};
use lines::push_name;
use std::alloc::{AllocError, Global};
use task_sheet::TaskSet;

// The line of a task's thread.
pub(crate) fn push_thread(
    text: &mut String,
    set: &TaskSet,
    priority: u64,
    task: usize,
) -> Result<(), AllocError>
    ensures { OnOk result (string_bytes text.new ≡ string_bytes text.old
        ++ thread_line set.now priority task) }
{
    text.push_str("thread ")?;
    push_name(text, set, task)?;
    writeln!(text, " {priority}")
}

// A line for each task of an order, of which the first has the base.
fn push_threads(
    text: &mut String,
    set: &TaskSet,
    base: u32,
    order: &[usize],
) -> Result<(), AllocError>
    requires { length order.now ≤ TASK_LIMIT }
    ensures { OnOk result (string_bytes text.new ≡ string_bytes text.old
        ++ thread_lines set.now base order.now) }
{
    for (below, task) in order.iter().enumerate() {
        push_thread(text, set, u64::from(base) + below as u64, *task)?;
    }
    Ok(())
}

// The line of the mutex of the lock at a place, with the priority of its ceiling in an order.
fn push_lock(
    text: &mut String,
    set: &Tabled<'_>,
    place: usize,
    base: u32,
    order: &[usize],
) -> Result<(), AllocError>
    requires within { All (λ index. index < TASK_LIMIT) order.now }
    requires few { length order.now ≤ TASK_LIMIT }
    ensures { OnOk result ((lock : List ℕ) → slice_get (locks_of set.now) place ≡ Some lock
        → string_bytes text.new ≡ string_bytes text.old
        ++ mutex_line lock (option_map (priority_of base) (ceiling_of set.now order.now lock))) }
{
    let Some(lock) = set.lock_at(place) else {
        return Ok(());
    };
    match set.ceiling(lock, order) {
        Some(level) => {
            let priority = (u64::from(base) + u64::from(level)).saturating_sub(1);
            writeln!(text, "mutex {lock} {priority}")
        }
        None => Ok(()),
    }
}

// A line for each lock of the set, with the priority of its ceiling in an order.
fn push_mutexes(
    text: &mut String,
    set: &Tabled<'_>,
    base: u32,
    order: &[usize],
) -> Result<(), AllocError>
    requires within { All (λ index. index < TASK_LIMIT) order.now }
    requires few { length order.now ≤ TASK_LIMIT }
    ensures { OnOk result (string_bytes text.new ≡ string_bytes text.old
        ++ mutex_lines_from set.now base order.now (locks_of set.now)) }
{
    for place in 0..set.lock_count() {
        push_lock(text, set, place, base, order)?;
    }
    Ok(())
}

/// The lines that say what a node is set to for an order of a set, its places the lowest first: the level of each
/// task's thread, and the ceiling of each lock's mutex, as priorities of which level 1 has the base. The error is out of
/// memory.
pub fn settings_text(
    alloc: Global,
    set: &TaskSet,
    base: u32,
    places: &[Place],
) -> Result<String, AllocError>
    requires { IsOrder set.now (tasks_of_places places.now) }
    ensures { IfOk result (λ text. string_bytes text
        ≡ settings_from set.now base (tasks_of_places places.now)) }
{
    let order = tasks_of_places(alloc, places)?;
    let table = LockTable::new(alloc, set)?;
    let mut text = String::new(alloc);
    push_threads(&mut text, set, base, &order)?;
    push_mutexes(&mut text, &Tabled::of(set, &table), base, &order)?;
    Ok(text)
}
