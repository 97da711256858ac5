//! The lines of an explanation that speak of one task.
ghost use Rattle.std.specs.Prelude.{◌≡◌, ◌++◌, IfOk, OnOk, string_bytes};
ghost use Rattle.explain.specs.TaskLines.{level_lines_of, need_lines_of, need_task, needs_lines_of, response_lines_of, task_lines};

use crate::accounts::Account;
use crate::explanation::Explanation;
use crate::needs::Need;
use crate::text::{push_account, push_conflict, push_need};
use std::alloc::{AllocError, Global};
use task_lines::Owner;
use task_sheet::TaskSet;

// The lines of a level, where it is the task's.
fn push_level_of(
    text: &mut String,
    owners: &[Owner],
    set: &TaskSet,
    task: usize,
    number: usize,
    account: &Account,
) -> Result<(), AllocError>
    ensures { OnOk result (string_bytes text.new ≡ string_bytes text.old
        ++ level_lines_of owners.now set.now task number account.now) }
{
    if account.task != task {
        return Ok(());
    }
    write!(text, "{number} ")?;
    push_account(text, owners, set, account)
}

// The lines of the levels that are the task's, the lowest first.
fn push_responses_of(
    text: &mut String,
    owners: &[Owner],
    set: &TaskSet,
    task: usize,
    accounts: &[Account],
) -> Result<(), AllocError>
    ensures { OnOk result (string_bytes text.new ≡ string_bytes text.old
        ++ response_lines_of owners.now set.now task 1 accounts.now) }
{
    for (below, account) in accounts.iter().enumerate() {
        push_level_of(text, owners, set, task, below + 1, account)?;
    }
    Ok(())
}

// The task that may not stand below the others of a conflict.
fn need_task(need: &Need) -> usize
    ensures { result ≡ need_task need.now }
{
    match need {
        Need::Needs(account) => account.task,
        Need::MustBeAbove { task, .. } => *task,
    }
}

// Why a task may not stand below the others, where it is the task.
fn push_need_of(
    text: &mut String,
    owners: &[Owner],
    set: &TaskSet,
    task: usize,
    need: &Need,
) -> Result<(), AllocError>
    ensures { OnOk result (string_bytes text.new ≡ string_bytes text.old
        ++ need_lines_of owners.now set.now task need.now) }
{
    if need_task(need) != task {
        return Ok(());
    }
    push_need(text, owners, set, need)
}

// The same of each task of a conflict that is the task.
fn push_needs_of(
    text: &mut String,
    owners: &[Owner],
    set: &TaskSet,
    task: usize,
    needs: &[Need],
) -> Result<(), AllocError>
    ensures { OnOk result (string_bytes text.new ≡ string_bytes text.old
        ++ needs_lines_of owners.now set.now task needs.now) }
{
    for need in needs {
        push_need_of(text, owners, set, task, need)?;
    }
    Ok(())
}

/// The lines of one task in an explanation of a placing of its set: its level with the parts of its response, or a least
/// conflict and, where the task is of it, what it needs. The error is out of memory.
pub fn task_text(
    alloc: Global,
    owners: &[Owner],
    set: &TaskSet,
    explanation: &Explanation,
    task: usize,
) -> Result<String, AllocError>
    ensures { IfOk result (λ text. string_bytes text ≡ task_lines owners.now set.now task explanation.now) }
{
    let mut text = String::new(alloc);
    match explanation {
        Explanation::Responses(accounts) => push_responses_of(
            &mut text, owners, set, task, accounts,
        )?,
        Explanation::Conflict { left, needs } => {
            push_conflict(&mut text, set, *left)?;
            push_needs_of(&mut text, owners, set, task, needs)?;
        }
    }
    Ok(text)
}
