//! The lines that say what becomes of the tasks of an order.
ghost use Rattle.std.specs.Prelude.{◌≡◌, ◌++◌, ◌<◌, codes, All, OnOk, IfOk, string_bytes};
ghost use Rattle.task_sheet.specs.declared.set.TheConstants.{TASK_LIMIT};
ghost use Rattle.task_sheet.specs.Sheet.{task_at};
ghost use Rattle.task_sheet.specs.Indexes.{indexes_of};
ghost use Rattle.judge.specs.JudgementLines.{at_words, judged_words, judgement_words, meets_line, missed_line, missed_of};
ghost use Rattle.judge.specs.JudgedLines.{judged_lines};

use crate::judging::{JudgedTask, Judgement, all_meet, does_meet};
use crate::levels::{judged_rows, push_rows};
use crate::slack::sorted_if;
use lines::{push_name, push_names};
use std::alloc::{AllocError, Global};
use task_sheet::{Members, TaskSet};

/// The deadline of the task at an index, in microseconds; 0 past the end of the set.
pub(crate) fn deadline_of(set: &TaskSet, task: usize) -> u64
    ensures { result ≡ (task_at set.now task).deadline }
{
    match set.get(task) {
        Some(sheet) => sheet.deadline(),
        None => 0,
    }
}

// The tasks that don't meet their deadlines.
fn missed_of(judged: &[JudgedTask]) -> Members
    requires { All (λ j. j.task < TASK_LIMIT) judged.now }
    ensures { indexes_of result ≡ missed_of judged.now }
{
    let mut missed = Members::empty();
    for entry in judged {
        if !does_meet(entry.judgement) {
            missed = missed.with(entry.task);
        }
    }
    missed
}

// The first line where these tasks don't meet their deadlines.
fn push_missed(text: &mut String, set: &TaskSet, missed: Members) -> Result<(), AllocError>
    ensures { OnOk result (string_bytes text.new
        ≡ string_bytes text.old ++ missed_line set.now (indexes_of missed)) }
{
    text.push_str("misses")?;
    push_names(text, set, missed)?;
    text.push_str("\n")
}

// The first line.
fn push_first(text: &mut String, set: &TaskSet, judged: &[JudgedTask]) -> Result<(), AllocError>
    requires { All (λ j. j.task < TASK_LIMIT) judged.now }
    ensures { OnOk result (string_bytes text.new
        ≡ string_bytes text.old ++ meets_line set.now judged.now) }
{
    if all_meet(judged) {
        let count = judged.len();
        return writeln!(text, "meets {count}");
    }
    push_missed(text, set, missed_of(judged))
}

// What becomes of a task with this deadline.
fn push_judgement(
    text: &mut String,
    set: &TaskSet,
    deadline: u64,
    judgement: Judgement,
) -> Result<(), AllocError>
    ensures { OnOk result (string_bytes text.new
        ≡ string_bytes text.old ++ codes " " ++ judgement_words set.now deadline judgement) }
{
    match judgement {
        Judgement::Meets { response } => write!(text, " {response} of {deadline}"),
        Judgement::Misses { needs } => write!(text, " misses {deadline} needs {needs}"),
        Judgement::Below { other } => {
            text.push_str(" below ")?;
            push_name(text, set, other)
        }
    }
}

/// The number of a thread, where one is given.
pub(crate) fn push_at(text: &mut String, number: Option<u64>) -> Result<(), AllocError>
    ensures { OnOk result (string_bytes text.new ≡ string_bytes text.old ++ at_words number) }
{
    match number {
        Some(number) => write!(text, " at {number}"),
        None => Ok(()),
    }
}

/// The line of a level after its number: the task, and what becomes of it.
pub(crate) fn push_judged(
    text: &mut String,
    set: &TaskSet,
    judged: &JudgedTask,
) -> Result<(), AllocError>
    ensures { OnOk result (string_bytes text.new
        ≡ string_bytes text.old ++ judged_words set.now judged.now) }
{
    let deadline = deadline_of(set, judged.task);
    push_name(text, set, judged.task)?;
    push_judgement(text, set, deadline, judged.judgement)
}

/// The lines that say what becomes of the tasks of an order, the lowest first, or by slack where it is asked for: whether all
/// meet their deadlines, and then each, with the numbers of their threads, where they are given. The error is out of memory.
pub fn judged_text(
    alloc: Global,
    sorted: bool,
    set: &TaskSet,
    judged: &[JudgedTask],
    numbers: &[u64],
) -> Result<String, AllocError>
    requires { All (λ j. j.task < TASK_LIMIT) judged.now }
    ensures { IfOk result (λ text. string_bytes text
        ≡ judged_lines sorted set.now judged.now numbers.now) }
{
    let rows = judged_rows(alloc, judged, numbers)?;
    let rows = sorted_if(alloc, sorted, set, rows)?;
    let mut text = String::new(alloc);
    push_first(&mut text, set, judged)?;
    push_rows(&mut text, &[], set, &rows)?;
    Ok(text)
}

/// The first of them alone: whether all meet their deadlines. The error is out of memory.
pub fn first_text(alloc: Global, set: &TaskSet, judged: &[JudgedTask]) -> Result<String, AllocError>
    requires { All (λ j. j.task < TASK_LIMIT) judged.now }
    ensures { IfOk result (λ text. string_bytes text ≡ meets_line set.now judged.now) }
{
    let mut text = String::new(alloc);
    push_first(&mut text, set, judged)?;
    Ok(text)
}
