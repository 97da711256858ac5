//! The order that the numbers of threads give.
ghost use Rattle.std.specs.Prelude.{◌≡◌, ◌++◌, ◌<◌, [], length, map, None, All, IfOk, OnOk};
ghost use Rattle.task_sheet.specs.declared.set.TheConstants.{TASK_LIMIT};
ghost use Rattle.task_sheet.specs.TaskSet.{IsTaskSet};
ghost use Rattle.task_sheet.specs.Indexes.{listed_below};
ghost use Rattle.judge.specs.SettingFaults.{line_again, thread_number, same_number, threadless};
ghost use Rattle.judge.specs.KeptOrder.{IsOrderOfThreads, numbered_at, with_thread_in};
ghost use Rattle.judge.specs.Node.{IsOrderBy};

use crate::rows::Setting;
use crate::settings_fault::{is_set, number_of};
use std::alloc::{AllocError, Global};
use task_sheet::{Name, TaskSet};

// A task, by its index, with the number of its thread.
#[derive(Clone, Copy)]
struct Numbered {
    number: u64,
    task: usize,
}

// One task more with the number of its thread, where it has one.
fn push_numbered(
    numbered: &mut Vec<Numbered>,
    threads: &[Setting],
    name: Name,
    task: usize,
) -> Result<(), AllocError>
    ensures { OnOk result (numbered.new.items ≡ numbered.old.items
        ++ numbered_at threads.now name task) }
{
    if is_set(threads, name) {
        let number = number_of(threads, name);
        numbered.push(Numbered { number, task })?;
    }
    Ok(())
}

// Each task that has a thread with its number, by rank.
fn numbered_of(
    alloc: Global,
    set: &TaskSet,
    threads: &[Setting],
) -> Result<Vec<Numbered>, AllocError>
    ensures tasks { IfOk result (λ numbered. map (λ n. n.task) numbered.items
        ≡ listed_below (length set.now) (with_thread_in set.now threads.now)) }
    ensures numbers { IfOk result (λ numbered.
        All (λ n. n.number ≡ thread_number set.now threads.now n.task) numbered.items) }
    ensures kept { IsTaskSet set.now }
{
    let sheets = set.sheets();
    let mut numbered = Vec::new(alloc);
    for task in 0..sheets.len() {
        push_numbered(&mut numbered, threads, sheets[task].name(), task)?;
    }
    Ok(numbered)
}

// The tasks, in their order.
fn tasks_of(alloc: Global, numbered: &[Numbered]) -> Result<Vec<usize>, AllocError>
    ensures { IfOk result (λ order. order.items ≡ map (λ n. n.task) numbered.now) }
{
    let mut order = Vec::with_capacity(alloc, numbered.len())?;
    for entry in numbered {
        order.push(entry.task)?;
    }
    Ok(order)
}

/// The tasks of a set that have a thread, by their numbers, the lowest first.
pub(crate) fn thread_order(
    alloc: Global,
    set: &TaskSet,
    threads: &[Setting],
) -> Result<Vec<usize>, AllocError>
    requires { line_again same_number [] threads.now ≡ None }
    ensures order { IfOk result (λ order. IsOrderOfThreads set.now threads.now order.items) }
    ensures within { IfOk result (λ order. All (λ index. index < TASK_LIMIT) order.items) }
{
    let mut numbered = numbered_of(alloc, set, threads)?;
    numbered.sort_unstable_by_key(|entry| entry.number);
    let order = tasks_of(alloc, &numbered)?;
    Ok(order)
}

/// The tasks of a set by the numbers of their threads, the lowest first.
pub(crate) fn order_by(
    alloc: Global,
    set: &TaskSet,
    threads: &[Setting],
) -> Result<Vec<usize>, AllocError>
    requires all { threadless set.now threads.now ≡ None }
    requires apart { line_again same_number [] threads.now ≡ None }
    ensures { IfOk result (λ order. IsOrderBy set.now threads.now order.items) }
{
    thread_order(alloc, set, threads)
}
