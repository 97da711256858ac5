//! What a task needs that misses its deadline in an order.
ghost use Rattle.std.specs.Prelude.{◌≡◌, ◌++◌, ◌<◌, length, All, IfOk, OnOk, string_bytes};
ghost use Rattle.task_sheet.specs.Indexes.{among};
ghost use Rattle.task_sheet.specs.Demand.{Passes};
ghost use Rattle.judge.specs.Judgements.{order_judged};
ghost use Rattle.judge.specs.Missed.{IsMissedBelow, missed_line, missed_lines};

use crate::explained::order_of;
use crate::judging::JudgedTask;
use assignment::members_of;
use ceilings::Tabled;
use explain::{Account, needs_account, push_parts};
use lines::push_name;
use std::alloc::{AllocError, Global};
use task_lines::{Owner, push_team};
use task_sheet::TaskSet;

/// What a task needs at least below these, the lowest first, where it doesn't pass there. The error is out of memory.
pub(crate) fn missed_account(
    alloc: Global,
    set: &Tabled<'_>,
    task: usize,
    above: &[JudgedTask],
) -> Result<Account, AllocError>
    requires task { task < length set.now }
    requires above { All (λ j. j.task < length set.now) above.now }
    requires misses { ¬ Passes set.now task (among (order_judged above.now)) }
    ensures { IfOk result (λ account.
        IsMissedBelow set.now (order_judged above.now) task account) }
{
    // The set is valid: the proof has it from its sheets.
    let _ = set.sheets();
    let mut order = order_of(alloc, above)?;
    let members = members_of(&order);
    order.reverse();
    needs_account(alloc, set, task, members, &order)
}

// The first of the lines of a level, which has a number, where its task misses its deadline.
fn push_missed_line(
    text: &mut String,
    owners: &[Owner],
    set: &TaskSet,
    number: usize,
    account: &Account,
) -> Result<(), AllocError>
    ensures { OnOk result (string_bytes text.new ≡ string_bytes text.old
        ++ missed_line owners.now set.now number account.now) }
{
    let time = account.time;
    let deadline = account.deadline;
    write!(text, "{number} ")?;
    push_name(text, set, account.task)?;
    write!(text, " misses {deadline} needs {time}")?;
    push_team(text, owners, set, account.task)?;
    text.push_str("\n")
}

/// All of them, with the parts of what it needs. The error is out of memory.
pub(crate) fn push_missed(
    text: &mut String,
    owners: &[Owner],
    set: &TaskSet,
    number: usize,
    account: &Account,
) -> Result<(), AllocError>
    ensures { OnOk result (string_bytes text.new ≡ string_bytes text.old
        ++ missed_lines owners.now set.now number account.now) }
{
    push_missed_line(text, owners, set, number, account)?;
    push_parts(text, owners, set, account.task, &account.parts)
}
