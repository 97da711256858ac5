//! The lines of an order whose threads have numbers.
ghost use Rattle.std.specs.Prelude.{◌≡◌, ◌++◌, ◌+◌, ◌-◌, ◌<◌, ◌≤◌, ℕ, List, length, replicate, slice_get, slice_index, Some, All, OnOk, IfOk, option_map, string_bytes};
ghost use Rattle.task_sheet.specs.declared.set.TheConstants.{TASK_LIMIT};
ghost use Rattle.task_sheet.specs.Locks.{ceiling_of};
ghost use Rattle.task_sheet.specs.Orders.{IsOrder};
ghost use Rattle.ceilings.specs.IsTableOf.{locks_of};
ghost use Rattle.assignment.specs.Placings.{tasks_of_places};
ghost use Rattle.settings.specs.Settings.{moved_line, moved_lines, mutex_line, mutex_lines_at, number_at, numbers_from, settings_anew, settings_at, settings_kept, thread_lines_at};

use crate::numbering::{numbers_of, top_of};
use crate::text::push_thread;
use assignment::{Place, tasks_of_places};
use ceilings::{LockTable, Tabled};
use lines::push_name;
use std::alloc::{AllocError, Global};
use task_sheet::TaskSet;

// A line for each task of an order, with its number.
fn push_threads_at(
    text: &mut String,
    set: &TaskSet,
    numbers: &[u64],
    order: &[usize],
) -> Result<(), AllocError>
    requires { length numbers.now ≡ length order.now }
    ensures { OnOk result (string_bytes text.new ≡ string_bytes text.old
        ++ thread_lines_at set.now numbers.now 0 order.now) }
{
    for (place, task) in order.iter().enumerate() {
        push_thread(text, set, numbers[place], *task)?;
    }
    Ok(())
}

// The number of the thread at a level.
fn number_at(numbers: &[u64], level: u32) -> u64
    ensures { result ≡ number_at numbers.now level }
{
    let place = (level as usize).saturating_sub(1);
    if place < numbers.len() {
        numbers[place]
    } else {
        0
    }
}

// The line of the mutex of the lock at a place, with the number of its ceiling in an order.
fn push_lock_at(
    text: &mut String,
    set: &Tabled<'_>,
    place: usize,
    numbers: &[u64],
    order: &[usize],
) -> Result<(), AllocError>
    requires within { All (λ index. index < TASK_LIMIT) order.now }
    requires few { length order.now ≤ TASK_LIMIT }
    ensures { OnOk result ((lock : List ℕ) → slice_get (locks_of set.now) place ≡ Some lock
        → string_bytes text.new ≡ string_bytes text.old
        ++ mutex_line lock (option_map (number_at numbers.now) (ceiling_of set.now order.now lock))) }
{
    let Some(lock) = set.lock_at(place) else {
        return Ok(());
    };
    match set.ceiling(lock, order) {
        Some(level) => {
            let number = number_at(numbers, level);
            writeln!(text, "mutex {lock} {number}")
        }
        None => Ok(()),
    }
}

// A line for each lock of the set, with the number of its ceiling in an order.
fn push_mutexes_at(
    text: &mut String,
    set: &Tabled<'_>,
    numbers: &[u64],
    order: &[usize],
) -> Result<(), AllocError>
    requires within { All (λ index. index < TASK_LIMIT) order.now }
    requires few { length order.now ≤ TASK_LIMIT }
    ensures { OnOk result (string_bytes text.new ≡ string_bytes text.old
        ++ mutex_lines_at set.now numbers.now order.now (locks_of set.now)) }
{
    for place in 0..set.lock_count() {
        push_lock_at(text, set, place, numbers, order)?;
    }
    Ok(())
}

// A comment, where a thread had a number and has another.
fn push_moved_one(
    text: &mut String,
    set: &TaskSet,
    task: usize,
    old: u64,
    number: u64,
) -> Result<(), AllocError>
    ensures { OnOk result (string_bytes text.new ≡ string_bytes text.old
        ++ moved_line set.now task old number) }
{
    if old == 0 || old == number {
        return Ok(());
    }
    text.push_str("# moved ")?;
    push_name(text, set, task)?;
    writeln!(text, " {old} {number}")
}

// One for each task of an order.
fn push_moved(
    text: &mut String,
    set: &TaskSet,
    old: &[u64],
    numbers: &[u64],
    order: &[usize],
) -> Result<(), AllocError>
    requires old { length old.now ≡ length order.now }
    requires numbers { length numbers.now ≡ length order.now }
    ensures { OnOk result (string_bytes text.new ≡ string_bytes text.old
        ++ moved_lines set.now old.now numbers.now 0 order.now) }
{
    for (place, task) in order.iter().enumerate() {
        push_moved_one(text, set, *task, old[place], numbers[place])?;
    }
    Ok(())
}

// The settings of an order whose threads have these numbers.
fn settings_at(
    alloc: Global,
    set: &TaskSet,
    numbers: &[u64],
    order: &[usize],
) -> Result<String, AllocError>
    requires order { IsOrder set.now order.now }
    requires numbers { length numbers.now ≡ length order.now }
    ensures { IfOk result (λ text. string_bytes text ≡ settings_at set.now numbers.now order.now) }
{
    let table = LockTable::new(alloc, set)?;
    let mut text = String::new(alloc);
    push_threads_at(&mut text, set, numbers, order)?;
    push_mutexes_at(&mut text, &Tabled::of(set, &table), numbers, order)?;
    Ok(text)
}

// The numbers of an order, from a base on.
fn numbers_from(alloc: Global, base: u32, room: u32, old: &[u64]) -> Result<Vec<u64>, AllocError>
    requires { length old.now ≤ TASK_LIMIT }
    ensures is { IfOk result (λ numbers. numbers.items ≡ numbers_from base room old.now) }
    ensures each { IfOk result (λ numbers. length numbers.items ≡ length old.now) }
{
    let most = top_of(u64::from(base), old);
    let numbers = numbers_of(alloc, u64::from(room), u64::from(base), most, old)?;
    Ok(numbers)
}

// So many threads have no number.
fn no_numbers(alloc: Global, count: usize) -> Result<Vec<u64>, AllocError>
    ensures { IfOk result (λ none. none.items ≡ replicate count 0) }
{
    vec![in alloc; 0; count]
}

/// The lines that say what a node is set to for an order of a set, its places the lowest first, whose threads have these
/// numbers, and 0 where a task has none: as many as can keep them, from the base on, with so much room beside those that are
/// given anew; and behind them those that have moved. The error is out of memory.
pub fn kept_text(
    alloc: Global,
    set: &TaskSet,
    base: u32,
    room: u32,
    old: &[u64],
    places: &[Place],
) -> Result<String, AllocError>
    requires order { IsOrder set.now (tasks_of_places places.now) }
    requires each { length old.now ≡ length places.now }
    ensures { IfOk result (λ text. string_bytes text
        ≡ settings_kept set.now base room old.now (tasks_of_places places.now)) }
{
    // The set is valid: the proof has it from its sheets.
    let _ = set.sheets();
    let order = tasks_of_places(alloc, places)?;
    let numbers = numbers_from(alloc, base, room, old)?;
    let mut text = settings_at(alloc, set, &numbers, &order)?;
    push_moved(&mut text, set, old, &numbers, &order)?;
    Ok(text)
}

/// The lines that say what a node is set to for an order of a set, its places the lowest first, from the base on, with so much
/// room beside each number. The error is out of memory.
pub fn anew_text(
    alloc: Global,
    set: &TaskSet,
    base: u32,
    room: u32,
    places: &[Place],
) -> Result<String, AllocError>
    requires { IsOrder set.now (tasks_of_places places.now) }
    ensures { IfOk result (λ text. string_bytes text
        ≡ settings_anew set.now base room (tasks_of_places places.now)) }
{
    // The set is valid: the proof has it from its sheets.
    let _ = set.sheets();
    let order = tasks_of_places(alloc, places)?;
    let none = no_numbers(alloc, order.len())?;
    let numbers = numbers_from(alloc, base, room, &none)?;
    settings_at(alloc, set, &numbers, &order)
}
