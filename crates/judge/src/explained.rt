//! What explains what becomes of the tasks of an order.
ghost use Rattle.std.specs.Prelude.{◌≡◌, ◌++◌, ◌<◌, ◌≤◌, List, length, All, IfOk, OnOk, string_bytes};
ghost use Rattle.task_sheet.specs.Sheet.{task_at};
ghost use Rattle.task_sheet.specs.Indexes.{among};
ghost use Rattle.task_sheet.specs.Demand.{IsResponseOf, Passes};
ghost use Rattle.task_sheet.specs.Orders.{IsOrder};
ghost use Rattle.explain.specs.Accounts.{IsResponseAccount};
ghost use Rattle.judge.specs.Explained.{AreAsked, AreLevels, IsMet, IsMissing, IsTold, explained_lines, is_asked, load_asked};
ghost use Rattle.judge.specs.Missed.{IsMissedBelow};
ghost use Rattle.judge.specs.Judgements.{AllJudged, IsJudgementOf, order_judged};

use crate::judging::{JudgedTask, Judgement};
use crate::levels::{LevelRow, Told, push_rows};
use crate::missed::missed_account;
use ceilings::Tabled;
use explain::{Account, push_load, response_account};
use std::alloc::{AllocError, Global};
use task_lines::Owner;
use task_sheet::TaskSet;

/// Of which levels of an order the parts are printed.
#[derive(Clone, Copy)]
pub enum Parted {
    /// Of each whose task has a time: its response, or what it needs.
    Each,
    /// Of those alone whose task misses its deadline.
    Missed,
    /// Of none: each level is a line.
    Bare,
}

/// The tasks of an order that was judged, the lowest first. The error is out of memory.
pub fn order_of(alloc: Global, judged: &[JudgedTask]) -> Result<Vec<usize>, AllocError>
    ensures { IfOk result (λ order. order.items ≡ order_judged judged.now) }
{
    let mut order = Vec::with_capacity(alloc, judged.len())?;
    for entry in judged {
        order.push(entry.task)?;
    }
    Ok(order)
}

// The response of a task below these, with what it is made of.
fn account_of(
    alloc: Global,
    set: &Tabled<'_>,
    task: usize,
    response: u64,
    above: &[JudgedTask],
) -> Result<Account, AllocError>
    requires task { task < length set.now }
    requires above { All (λ j. j.task < length set.now) above.now }
    requires response { IsResponseOf set.now task (among (order_judged above.now)) response }
    requires in_time { response ≤ (task_at set.now task).deadline }
    ensures { IfOk result (IsResponseAccount set.now (order_judged above.now)
        (record { task = task; response = response })) }
{
    let order = order_of(alloc, above)?;
    response_account(alloc, set, task, response, order)
}

// What is told of a level where its task meets its deadline.
fn told_met(
    alloc: Global,
    set: &Tabled<'_>,
    parted: Parted,
    task: usize,
    response: u64,
    above: &[JudgedTask],
) -> Result<Told, AllocError>
    requires task { task < length set.now }
    requires above { All (λ j. j.task < length set.now) above.now }
    requires response { IsResponseOf set.now task (among (order_judged above.now)) response }
    requires in_time { response ≤ (task_at set.now task).deadline }
    ensures { IfOk result (IsMet parted set.now (order_judged above.now) task response) }
{
    let judgement = Judgement::Meets { response };
    match parted {
        Parted::Each => {
            let account = account_of(alloc, set, task, response, above)?;
            Ok(Told::Response(account))
        }
        Parted::Missed => Ok(Told::Judged(JudgedTask { task, judgement }, None)),
        Parted::Bare => Ok(Told::Judged(JudgedTask { task, judgement }, None)),
    }
}

// What a task needs, with its parts.
fn told_needs(
    alloc: Global,
    set: &Tabled<'_>,
    task: usize,
    above: &[JudgedTask],
) -> Result<Told, AllocError>
    requires task { task < length set.now }
    requires above { All (λ j. j.task < length set.now) above.now }
    requires misses { ¬ Passes set.now task (among (order_judged above.now)) }
    ensures { IfOk result (λ told. (a : Account) × IsMissedBelow set.now (order_judged above.now) task a
        × (told ≡ Told.Needs a)) }
{
    let account = missed_account(alloc, set, task, above)?;
    Ok(Told::Needs(account))
}

// What is told of a level where its task misses its deadline.
fn told_missing(
    alloc: Global,
    set: &Tabled<'_>,
    parted: Parted,
    task: usize,
    needs: u64,
    above: &[JudgedTask],
) -> Result<Told, AllocError>
    requires task { task < length set.now }
    requires above { All (λ j. j.task < length set.now) above.now }
    requires misses { ¬ Passes set.now task (among (order_judged above.now)) }
    ensures { IfOk result (IsMissing parted set.now (order_judged above.now) task needs) }
{
    match parted {
        Parted::Each => told_needs(alloc, set, task, above),
        Parted::Missed => told_needs(alloc, set, task, above),
        Parted::Bare => {
            let judgement = Judgement::Misses { needs };
            Ok(Told::Judged(JudgedTask { task, judgement }, None))
        }
    }
}

// What is told of a level.
fn told_of(
    alloc: Global,
    set: &Tabled<'_>,
    parted: Parted,
    entry: JudgedTask,
    above: &[JudgedTask],
) -> Result<Told, AllocError>
    requires task { entry.task < length set.now }
    requires above { All (λ j. j.task < length set.now) above.now }
    requires judged { IsJudgementOf set.now entry.task (among (order_judged above.now))
        entry.judgement }
    ensures { IfOk result (IsTold parted set.now (order_judged above.now) entry.task entry.judgement) }
{
    match entry.judgement {
        Judgement::Meets { response } => {
            told_met(alloc, set, parted, entry.task, response, above)
        }
        Judgement::Misses { needs } => told_missing(alloc, set, parted, entry.task, needs, above),
        Judgement::Below { .. } => Ok(Told::Judged(entry, None)),
    }
}

// It is asked about this task.
fn is_asked(asked: Option<usize>, task: usize) -> bool
    ensures { result ≡ is_asked asked task }
{
    match asked {
        Some(asked) => asked == task,
        None => true,
    }
}

// Adds the row of a level, which has a number, where it is asked about its task.
fn push_asked(
    alloc: Global,
    rows: &mut Vec<LevelRow>,
    set: &Tabled<'_>,
    parted: Parted,
    asked: Option<usize>,
    number: usize,
    entry: JudgedTask,
    above: &[JudgedTask],
) -> Result<(), AllocError>
    requires task { entry.task < length set.now }
    requires above { All (λ j. j.task < length set.now) above.now }
    requires judged { IsJudgementOf set.now entry.task (among (order_judged above.now))
        entry.judgement }
    ensures { OnOk result ((more : List LevelRow) × AreAsked (is_asked asked entry.task) parted set.now
        (order_judged above.now) number entry more × (rows.new.items ≡ rows.old.items ++ more)) }
{
    if !is_asked(asked, entry.task) {
        return Ok(());
    }
    let told = told_of(alloc, set, parted, entry, above)?;
    rows.push(LevelRow { number, told })?;
    Ok(())
}

/// What is told of each level of an order that was judged, the lowest first, or of that of one task alone: with the parts of its
/// response, where they are printed, or of what it needs that misses its deadline. The error is out of memory.
pub fn levels_of(
    alloc: Global,
    set: &Tabled<'_>,
    parted: Parted,
    asked: Option<usize>,
    judged: &[JudgedTask],
) -> Result<Vec<LevelRow>, AllocError>
    requires order { IsOrder set.now (order_judged judged.now) }
    requires judged { AllJudged set.now judged.now }
    ensures { IfOk result (λ rows. AreLevels parted set.now asked 1 judged.now rows.items) }
{
    let mut rows = Vec::with_capacity(alloc, judged.len())?;
    let mut number = 1;
    let mut rest = judged;
    while let Some((entry, above)) = rest.split_first() {
        push_asked(alloc, &mut rows, set, parted, asked, number, *entry, above)?;
        number += 1;
        rest = above;
    }
    Ok(rows)
}

// The load of a set, where no task is named.
fn push_load_asked(
    alloc: Global,
    text: &mut String,
    set: &TaskSet,
    asked: Option<usize>,
) -> Result<(), AllocError>
    ensures { OnOk result (string_bytes text.new ≡ string_bytes text.old
        ++ load_asked set.now asked) }
{
    match asked {
        Some(_) => Ok(()),
        None => push_load(alloc, text, set),
    }
}

/// The lines that explain an order that was judged: each level with its parts, and then the load of the set; or that of one
/// task alone. The error is out of memory.
pub fn explained_text(
    alloc: Global,
    owners: &[Owner],
    set: &TaskSet,
    asked: Option<usize>,
    rows: &[LevelRow],
) -> Result<String, AllocError>
    ensures { IfOk result (λ text. string_bytes text
        ≡ explained_lines owners.now set.now asked rows.now) }
{
    let mut text = String::new(alloc);
    push_rows(&mut text, owners, set, rows)?;
    push_load_asked(alloc, &mut text, set, asked)?;
    Ok(text)
}
