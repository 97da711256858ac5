//! `desk explain`.
ghost use Rattle.std.specs.Prelude.{◌≡◌, ◌++◌, List, length, Ok, Some, None, IfOk, OnOk, option_map, true, string_bytes};
ghost use Rattle.task_sheet.specs.Indexes.{indexes_of, listed_below};
ghost use Rattle.assignment.specs.Placings.{IsPlacingOf};
ghost use Rattle.explain.specs.Explanations.{Explains};
ghost use Rattle.explain.specs.ExplanationLines.{conflict_line, load_line, needs_lines};
ghost use Rattle.explain.specs.TaskLines.{task_lines};
ghost use Rattle.judge.specs.Levels.{account_rows, rows_lines};
ghost use Rattle.judge.specs.Slack.{sorted_if};
ghost use Rattle.judge.specs.declared.levels.LevelRow.{LevelRow};
ghost use Rattle.judge.specs.declared.explained.Parted.TheVariants.{Missed};
ghost use Rattle.set_commands.specs.Explain.{AreDecided, ExplainsAsked, ExplainsSet, IsExplained, IsTaskExplained, conflict_said, is_short, long_lines, parted_of, reasons_said, whole_lines};
ghost use Rattle.answering.specs.OrderParts.{placing_first};
ghost use Rattle.set_commands.specs.Chained.{IsPlaced};

use crate::chained::{Placed, chained_status, chained_text};
use answering::{Answer, CommandRefusal, OrderPart, asked_task, placing_status, placing_text};
use assignment::Placing;
use ceilings::{LockTable, Tabled};
use chain_lines::Telling;
use explain::{
    Account, Explanation, Need, explain, push_conflict, push_load, push_needs, task_text,
};
use judge::{LevelRow, Parted, account_rows, levels_of, push_rows, sorted_if};
use owners::Owner;
use std::alloc::{AllocError, Global};
use task_sheet::{Members, TaskSet};
use worst_lines::judge_deciding;

// A conflict of more than three tasks, of which not all is asked for.
fn is_short(all: bool, explanation: &Explanation) -> bool
    ensures { result ≡ is_short all explanation.now }
{
    match explanation {
        Explanation::Responses(_) => false,
        Explanation::Conflict { needs, .. } => !all && needs.len() > 3,
    }
}

// Of which levels the parts are then printed.
fn parted_of(short: bool) -> Parted
    ensures { result ≡ parted_of short }
{
    if short { Parted::Bare } else { Parted::Missed }
}

// The levels of an order that decides, or that of one task in it, where no order passes; else none.
fn decided_rows(
    alloc: Global,
    set: &Tabled<'_>,
    placing: &Placing,
    parted: Parted,
    asked: Option<usize>,
) -> Result<Vec<LevelRow>, AllocError>
    ensures { IfOk result (λ rows. AreDecided parted set.now asked placing.now rows.items) }
{
    match placing {
        Placing::Best(_) => Ok(Vec::new(alloc)),
        Placing::Stuck(_) => {
            let judged = judge_deciding(alloc, set)?;
            levels_of(alloc, set, parted, asked, &judged)
        }
    }
}

// The line of a conflict, if there is one.
fn push_said(text: &mut String, set: &TaskSet, explanation: &Explanation) -> Result<(), AllocError>
    ensures { OnOk result (string_bytes text.new ≡ string_bytes text.old
        ++ conflict_said set.now explanation.now) }
{
    match explanation {
        Explanation::Responses(_) => Ok(()),
        Explanation::Conflict { left, .. } => push_conflict(text, set, *left),
    }
}

// Adds the lines of levels, by slack where it is asked for.
fn push_sorted(
    alloc: Global,
    text: &mut String,
    sorted: bool,
    owners: &[Owner],
    set: &TaskSet,
    rows: Vec<LevelRow>,
) -> Result<(), AllocError>
    ensures { OnOk result (string_bytes text.new ≡ string_bytes text.old
        ++ rows_lines owners.now set.now (sorted_if sorted set.now rows.items)) }
{
    let rows = sorted_if(alloc, sorted, set, rows)?;
    push_rows(text, owners, set, &rows)
}

// What explains a placing: the lines of an order that decides, then those of a conflict and of the load.
fn short_text(
    alloc: Global,
    sorted: bool,
    owners: &[Owner],
    set: &TaskSet,
    explanation: &Explanation,
    decided: Vec<LevelRow>,
) -> Result<String, AllocError>
    ensures { IfOk result (λ text. string_bytes text
        ≡ whole_lines true sorted owners.now set.now explanation.now decided.items) }
{
    let mut text = String::new(alloc);
    push_sorted(alloc, &mut text, sorted, owners, set, decided)?;
    push_said(&mut text, set, explanation)?;
    push_load(alloc, &mut text, set)?;
    Ok(text)
}

// What explains an order, with its load.
fn responses_text(
    alloc: Global,
    sorted: bool,
    owners: &[Owner],
    set: &TaskSet,
    accounts: Vec<Account>,
) -> Result<String, AllocError>
    ensures { IfOk result (λ text. string_bytes text
        ≡ rows_lines owners.now set.now (sorted_if sorted set.now (account_rows 1 accounts.items))
        ++ load_line set.now) }
{
    let rows = account_rows(alloc, accounts)?;
    let mut text = String::new(alloc);
    push_sorted(alloc, &mut text, sorted, owners, set, rows)?;
    push_load(alloc, &mut text, set)?;
    Ok(text)
}

// What explains a conflict, with the load and the lines of an order that decides.
fn conflict_text(
    alloc: Global,
    sorted: bool,
    owners: &[Owner],
    set: &TaskSet,
    left: Members,
    needs: &[Need],
    decided: Vec<LevelRow>,
) -> Result<String, AllocError>
    ensures { IfOk result (λ text. string_bytes text
        ≡ conflict_line set.now (listed_below (length set.now) (indexes_of left))
        ++ needs_lines owners.now set.now needs.now
        ++ load_line set.now ++ rows_lines owners.now set.now (sorted_if sorted set.now decided.items)) }
{
    let mut text = String::new(alloc);
    push_conflict(&mut text, set, left)?;
    push_needs(&mut text, owners, set, needs)?;
    push_load(alloc, &mut text, set)?;
    push_sorted(alloc, &mut text, sorted, owners, set, decided)?;
    Ok(text)
}

// The one or the other.
fn long_text(
    alloc: Global,
    sorted: bool,
    owners: &[Owner],
    set: &TaskSet,
    explanation: Explanation,
    decided: Vec<LevelRow>,
) -> Result<String, AllocError>
    ensures { IfOk result (λ text. string_bytes text
        ≡ long_lines sorted owners.now set.now explanation decided.items) }
{
    match explanation {
        Explanation::Responses(accounts) => responses_text(alloc, sorted, owners, set, accounts),
        Explanation::Conflict { left, needs } => {
            conflict_text(alloc, sorted, owners, set, left, &needs, decided)
        }
    }
}

// What explains a placing, in short or at length.
fn whole_text(
    alloc: Global,
    short: bool,
    sorted: bool,
    owners: &[Owner],
    set: &TaskSet,
    explanation: Explanation,
    decided: Vec<LevelRow>,
) -> Result<String, AllocError>
    ensures { IfOk result (λ text. string_bytes text
        ≡ whole_lines short sorted owners.now set.now explanation decided.items) }
{
    if short {
        short_text(alloc, sorted, owners, set, &explanation, decided)
    } else {
        long_text(alloc, sorted, owners, set, explanation, decided)
    }
}

// What explains a placing, and its order that decides, levels by slack where it is asked for.
fn all_reasons_text(
    alloc: Global,
    all: bool,
    sorted: bool,
    owners: &[Owner],
    set: &TaskSet,
    placing: &Placing,
) -> Result<String, AllocError>
    requires { IsPlacingOf set.now placing.now }
    ensures { IfOk result (λ text. (explanation : Explanation) × (decided : List LevelRow)
        × Explains set.now placing.now explanation
        × AreDecided (parted_of (is_short all explanation)) set.now None placing.now decided
        × (string_bytes text ≡ reasons_said owners.now set.now all sorted explanation decided)) }
{
    let table = LockTable::new(alloc, set)?;
    let tabled = Tabled::of(set, &table);
    let explanation = explain(alloc, &tabled, placing)?;
    let short = is_short(all, &explanation);
    let decided = decided_rows(alloc, &tabled, placing, parted_of(short), None)?;
    let text = whole_text(alloc, short, sorted, owners, set, explanation, decided)?;
    Ok(text)
}

// The first line of a placing, and then the lines of what explains it, the levels by slack where it is asked for.
fn whole_reasons_text(
    alloc: Global,
    all: bool,
    sorted: bool,
    owners: &[Owner],
    set: &TaskSet,
    placing: &Placing,
) -> Result<String, AllocError>
    requires { IsPlacingOf set.now placing.now }
    ensures { IfOk result (λ text. (explanation : Explanation) × (decided : List LevelRow)
        × Explains set.now placing.now explanation
        × AreDecided (parted_of (is_short all explanation)) set.now None placing.now decided
        × (string_bytes text ≡ placing_first set.now placing.now
        ++ reasons_said owners.now set.now all sorted explanation decided)) }
{
    let reasons = all_reasons_text(alloc, all, sorted, owners, set, placing)?;
    let mut text = placing_text(alloc, OrderPart::Count, set, placing)?;
    text.push_str(reasons.as_str())?;
    Ok(text)
}

// The same of a set that was placed, and then each chain with the parts of its bound.
fn explained_text(
    alloc: Global,
    all: bool,
    sorted: bool,
    placed: &Placed,
) -> Result<String, AllocError>
    requires { IsPlaced placed.now }
    ensures { IfOk result (λ text. IsExplained all sorted placed.now (string_bytes text)) }
{
    let mut text = whole_reasons_text(
        alloc,
        all,
        sorted,
        &placed.owners,
        &placed.tasks,
        &placed.placing,
    )?;
    let chains = chained_text(alloc, Telling::Parts, placed)?;
    text.push_str(chains.as_str())?;
    Ok(text)
}

// What explains the response of the task that is asked about, or that it has none, with the parts of what it needs.
fn reasons_text(
    alloc: Global,
    owners: &[Owner],
    set: &TaskSet,
    placing: &Placing,
    task: usize,
) -> Result<String, AllocError>
    requires { IsPlacingOf set.now placing.now }
    ensures { IfOk result (λ text. (explanation : Explanation) × (decided : List LevelRow)
        × Explains set.now placing.now explanation
        × AreDecided Missed set.now (Some task) placing.now decided
        × (string_bytes text ≡ task_lines owners.now set.now task explanation
        ++ rows_lines owners.now set.now decided)) }
{
    let table = LockTable::new(alloc, set)?;
    let tabled = Tabled::of(set, &table);
    let explanation = explain(alloc, &tabled, placing)?;
    let decided = decided_rows(alloc, &tabled, placing, Parted::Missed, Some(task))?;
    let mut text = task_text(alloc, owners, set, &explanation, task)?;
    push_rows(&mut text, owners, set, &decided)?;
    Ok(text)
}

// The first line of its placing, and then that.
fn explained_task(alloc: Global, placed: &Placed, task: usize) -> Result<String, AllocError>
    requires { IsPlaced placed.now }
    ensures { IfOk result (λ text. IsTaskExplained placed.now task (string_bytes text)) }
{
    let (tasks, placing) = (&placed.tasks, &placed.placing);
    let lines = reasons_text(alloc, &placed.owners, tasks, placing, task)?;
    let mut text = placing_text(alloc, OrderPart::Count, tasks, placing)?;
    text.push_str(lines.as_str())?;
    Ok(text)
}

// The answer on all, or on the task that is asked about.
fn explain_asked(
    alloc: Global,
    all: bool,
    sorted: bool,
    placed: &Placed,
    asked: Option<usize>,
) -> Result<Answer, AllocError>
    requires { IsPlaced placed.now }
    ensures { IfOk result (λ answer. ExplainsAsked all sorted placed.now asked (Ok answer)) }
{
    match asked {
        Some(task) => {
            let text = explained_task(alloc, placed, task)?;
            Ok(Answer::new(text, placing_status(&placed.placing)))
        }
        None => {
            let text = explained_text(alloc, all, sorted, placed)?;
            Ok(Answer::new(text, chained_status(placed)))
        }
    }
}

/// The answer of `desk explain` on a set that was placed, of the task that a word names; levels stand by slack, and a conflict is
/// told whole, where it is asked for.
pub fn explain_set(
    alloc: Global,
    all: bool,
    sorted: bool,
    word: Option<&str>,
    placed: &Placed,
) -> Result<Answer, CommandRefusal>
    requires { IsPlaced placed.now }
    ensures { ExplainsSet all sorted (option_map (λ w. w.now) word.entry) placed.now result }
{
    let asked = asked_task(&placed.tasks, word)?;
    let answer = explain_asked(alloc, all, sorted, placed, asked)?;
    Ok(answer)
}
