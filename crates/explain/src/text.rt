//! The lines of an explanation.
ghost use Rattle.std.specs.Prelude.{◌≡◌, ◌++◌, length, OnOk, string_bytes};
ghost use Rattle.task_sheet.specs.Sheet.{task_at};
ghost use Rattle.task_sheet.specs.Overheads.{overhead_of};
ghost use Rattle.task_sheet.specs.Locks.{names_lock, uses};
ghost use Rattle.task_sheet.specs.Indexes.{indexes_of, listed_below};
ghost use Rattle.explain.specs.ExplanationLines.{above_line, above_lines, account_line, account_lines, blocked_line, blocker_line, ceiling_words, conflict_line, cost_lines, first_user, interrupt_line, interrupt_lines, interrupted_lines, load_line, need_lines, needs_lines, parts_lines, time_line, user_words};

use crate::accounts::Account;
use crate::blocker::Blocker;
use crate::needs::Need;
use crate::parts::{Above, Interruption, Parts};
use crate::shares::load;
use lines::{push_name, push_names};
use std::alloc::{AllocError, Global};
use task_lines::{Owner, push_team};
use task_sheet::{Members, Name, Section, Sheet, TaskSet};

// The line of a time of one kind, unless it is 0.
fn push_time(text: &mut String, kind: &str, time: u64) -> Result<(), AllocError>
    ensures { OnOk result (string_bytes text.new ≡ string_bytes text.old ++ time_line kind.now time) }
{
    if time == 0 {
        return Ok(());
    }
    writeln!(text, "  {kind} {time}")
}

// What of the cost of the task at an index is the node's.
fn overhead(set: &TaskSet, task: usize) -> u64
    ensures { result ≡ overhead_of (task_at set.now task) }
{
    match set.get(task) {
        Some(sheet) => sheet.overhead(),
        None => 0,
    }
}

// The lines of a task's cost: its own, and its node's.
fn push_cost(text: &mut String, set: &TaskSet, task: usize, cost: u64) -> Result<(), AllocError>
    ensures { OnOk result (string_bytes text.new ≡ string_bytes text.old
        ++ cost_lines (task_at set.now task) cost) }
{
    let overhead = overhead(set, task);
    let own = cost.saturating_sub(overhead);
    writeln!(text, "  cost {own}")?;
    push_time(text, "node", overhead.min(cost))
}

// Whether a section names a lock.
fn names(section: &Section, lock: Name) -> bool
    ensures { result ≡ names_lock section.now lock }
{
    section.locks.iter().any(|name| *name == lock)
}

/// Whether some section of a sheet names a lock.
pub fn sheet_uses(sheet: &Sheet, lock: Name) -> bool
    ensures { result ≡ uses sheet.now lock }
{
    sheet.sections().iter().any(|section| names(section, lock))
}

// The same of the task at an index.
fn uses(set: &TaskSet, task: usize, lock: Name) -> bool
    ensures { result ≡ uses (task_at set.now task) lock }
{
    match set.get(task) {
        Some(sheet) => sheet_uses(sheet, lock),
        None => false,
    }
}

// Of the tasks above, in their order, the first that uses a lock.
fn first_user(set: &TaskSet, lock: Name, above: &[Above]) -> Option<Above>
    ensures { result ≡ first_user set.now lock above.now }
{
    above
        .iter()
        .copied()
        .find(|user| uses(set, user.task, lock))
}

// That a lock has its ceiling by a task's use, if there is one.
fn push_user(text: &mut String, set: &TaskSet, user: Option<Above>) -> Result<(), AllocError>
    ensures { OnOk result (string_bytes text.new ≡ string_bytes text.old ++ user_words set.now user) }
{
    match user {
        Some(user) => {
            text.push_str(", ceiling by ")?;
            push_name(text, set, user.task)
        }
        None => Ok(()),
    }
}

// Behind a lock by which a section blocks a task that doesn't use it, the first of those above that does.
fn push_ceiling(
    text: &mut String,
    set: &TaskSet,
    task: usize,
    above: &[Above],
    lock: Name,
) -> Result<(), AllocError>
    ensures { OnOk result (string_bytes text.new ≡ string_bytes text.old
        ++ ceiling_words set.now task above.now lock) }
{
    if uses(set, task, lock) {
        return Ok(());
    }
    push_user(text, set, first_user(set, lock, above))
}

// The line of a section that blocks a task below these, with the team of the task that has it.
fn push_blocker(
    text: &mut String,
    owners: &[Owner],
    set: &TaskSet,
    task: usize,
    above: &[Above],
    blocker: &Blocker,
) -> Result<(), AllocError>
    ensures { OnOk result (string_bytes text.new ≡ string_bytes text.old
        ++ blocker_line owners.now set.now task above.now blocker.now) }
{
    let len = blocker.len;
    let number = blocker.place as u64 + 1;
    let lock = blocker.lock;
    write!(text, "  blocked {len} by ")?;
    push_name(text, set, blocker.task)?;
    write!(text, " section {number} lock {lock}")?;
    push_ceiling(text, set, task, above, lock)?;
    push_team(text, owners, set, blocker.task)?;
    text.push_str("\n")
}

// The line of the section that blocks, if there is one.
fn push_blocked(
    text: &mut String,
    owners: &[Owner],
    set: &TaskSet,
    task: usize,
    above: &[Above],
    blocker: &Option<Blocker>,
) -> Result<(), AllocError>
    ensures { OnOk result (string_bytes text.new ≡ string_bytes text.old
        ++ blocked_line owners.now set.now task above.now blocker.now) }
{
    match blocker {
        Some(blocker) => push_blocker(text, owners, set, task, above, blocker),
        None => Ok(()),
    }
}

// The line of the jobs of a task above, with its team.
fn push_above(
    text: &mut String,
    owners: &[Owner],
    set: &TaskSet,
    above: &Above,
) -> Result<(), AllocError>
    ensures { OnOk result (string_bytes text.new ≡ string_bytes text.old
        ++ above_line owners.now set.now above.now) }
{
    let jobs = above.jobs;
    let time = above.time;
    text.push_str("  above ")?;
    push_name(text, set, above.task)?;
    write!(text, " {jobs} jobs {time}")?;
    push_team(text, owners, set, above.task)?;
    text.push_str("\n")
}

// The lines of the jobs of each task above.
fn push_all_above(
    text: &mut String,
    owners: &[Owner],
    set: &TaskSet,
    above: &[Above],
) -> Result<(), AllocError>
    ensures { OnOk result (string_bytes text.new ≡ string_bytes text.old
        ++ above_lines owners.now set.now above.now) }
{
    for task in above {
        push_above(text, owners, set, task)?;
    }
    Ok(())
}

// The line of the jobs of an interrupt, which has a number, unless they take nothing.
fn push_interrupt(
    text: &mut String,
    number: usize,
    interrupt: &Interruption,
) -> Result<(), AllocError>
    ensures { OnOk result (string_bytes text.new ≡ string_bytes text.old
        ++ interrupt_line number interrupt.now) }
{
    let jobs = interrupt.jobs;
    let time = interrupt.time;
    if time == 0 {
        return Ok(());
    }
    writeln!(text, "  interrupt {number} {jobs} jobs {time}")
}

// The lines of the jobs of each interrupt.
fn push_interrupts(text: &mut String, interrupts: &[Interruption]) -> Result<(), AllocError>
    ensures { OnOk result (string_bytes text.new ≡ string_bytes text.old
        ++ interrupt_lines 1 interrupts.now) }
{
    for (before, interrupt) in interrupts.iter().enumerate() {
        push_interrupt(text, before + 1, interrupt)?;
    }
    Ok(())
}

// The lines of what timers and interrupts take.
fn push_interrupted(text: &mut String, parts: &Parts) -> Result<(), AllocError>
    ensures { OnOk result (string_bytes text.new ≡ string_bytes text.old
        ++ interrupted_lines parts.now) }
{
    push_time(text, "timers", parts.timers)?;
    push_interrupts(text, &parts.interrupts)
}

/// Adds the lines of the parts of a task's time, each once and where it is above 0. The error is out of memory.
pub fn push_parts(
    text: &mut String,
    owners: &[Owner],
    set: &TaskSet,
    task: usize,
    parts: &Parts,
) -> Result<(), AllocError>
    ensures { OnOk result (string_bytes text.new ≡ string_bytes text.old
        ++ parts_lines owners.now set.now task parts.now) }
{
    push_cost(text, set, task, parts.cost)?;
    push_time(text, "jitter", parts.jitter)?;
    push_blocked(text, owners, set, task, &parts.above, &parts.blocker)?;
    push_all_above(text, owners, set, &parts.above)?;
    push_interrupted(text, parts)
}

// The line of a time of a task, with its team.
fn push_account_line(
    text: &mut String,
    owners: &[Owner],
    set: &TaskSet,
    account: &Account,
) -> Result<(), AllocError>
    ensures { OnOk result (string_bytes text.new ≡ string_bytes text.old
        ++ account_line owners.now set.now account.now) }
{
    let time = account.time;
    let deadline = account.deadline;
    push_name(text, set, account.task)?;
    write!(text, " {time} of {deadline}")?;
    push_team(text, owners, set, account.task)?;
    text.push_str("\n")
}

/// Adds the lines of a time of a task, with its parts. The error is out of memory.
pub fn push_account(
    text: &mut String,
    owners: &[Owner],
    set: &TaskSet,
    account: &Account,
) -> Result<(), AllocError>
    ensures { OnOk result (string_bytes text.new ≡ string_bytes text.old
        ++ account_lines owners.now set.now account.now) }
{
    push_account_line(text, owners, set, account)?;
    push_parts(text, owners, set, account.task, &account.parts)
}

// The lines of a task of a conflict.
pub(crate) fn push_need(
    text: &mut String,
    owners: &[Owner],
    set: &TaskSet,
    need: &Need,
) -> Result<(), AllocError>
    ensures { OnOk result (string_bytes text.new ≡ string_bytes text.old
        ++ need_lines owners.now set.now need.now) }
{
    match need {
        Need::Needs(account) => push_account(text, owners, set, account),
        Need::MustBeAbove { task, other } => {
            push_name(text, set, *task)?;
            text.push_str(" must be above ")?;
            push_name(text, set, *other)?;
            text.push_str("\n")
        }
    }
}

/// Adds the lines of each task of a conflict. The error is out of memory.
pub fn push_needs(
    text: &mut String,
    owners: &[Owner],
    set: &TaskSet,
    needs: &[Need],
) -> Result<(), AllocError>
    ensures { OnOk result (string_bytes text.new ≡ string_bytes text.old
        ++ needs_lines owners.now set.now needs.now) }
{
    for need in needs {
        push_need(text, owners, set, need)?;
    }
    Ok(())
}

/// Adds the line of a conflict. The error is out of memory.
pub fn push_conflict(text: &mut String, set: &TaskSet, left: Members) -> Result<(), AllocError>
    ensures { OnOk result (string_bytes text.new
        ≡ string_bytes text.old ++ conflict_line set.now
        (listed_below (length set.now) (indexes_of left))) }
{
    text.push_str("conflict")?;
    push_names(text, set, left)?;
    text.push_str("\n")
}

/// Adds the line of a set's load. The error is out of memory.
pub fn push_load(alloc: Global, text: &mut String, set: &TaskSet) -> Result<(), AllocError>
    ensures { OnOk result (string_bytes text.new ≡ string_bytes text.old ++ load_line set.now) }
{
    let load = load(alloc, set)?;
    writeln!(text, "load {load}")
}
