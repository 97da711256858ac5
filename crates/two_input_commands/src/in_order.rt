//! Commands with `--at SETTINGS`.
ghost use Rattle.std.specs.Prelude.{◌≡◌, ◌<◌, length, All, IfOk, IfSome, option_map, string_bytes};
ghost use Rattle.task_sheet.specs.declared.set.TheConstants.{TASK_LIMIT};
ghost use Rattle.two_input_commands.specs.InOrder.{AsksIn, JudgesOrder};
ghost use Rattle.two_input_commands.specs.Judge.{judged_status};

use crate::chained::notes_judged;
use crate::judge_lines::judged_status;
use answering::{Answer, Both, CommandRefusal, asked_task};
use judge::{JudgedNode, judge_settings};
use std::alloc::{AllocError, Global};
use task_sheet::TaskSet;

// What is said of an order that settings give.
#[derive(Drop)]
pub(crate) struct InOrder {
    // What becomes of each task in it.
    pub(crate) node: JudgedNode,
    // The lines.
    pub(crate) text: String,
}

/// What becomes of each task in the order that the text of settings gives, in which each ceiling is the least.
pub(crate) fn judge_order(
    alloc: Global,
    tasks: &TaskSet,
    text: &[u8],
) -> Result<JudgedNode, CommandRefusal>
    ensures answer { JudgesOrder tasks.now text.now result }
    ensures within { IfOk result (λ node. All (λ j. j.task < TASK_LIMIT) node.judged.items) }
{
    judge_settings(alloc, tasks, false, text).map_err(CommandRefusal::Settings)
}

// The same, and the task that is asked about.
pub(crate) fn judge_asked(
    alloc: Global,
    word: Option<&str>,
    tasks: &TaskSet,
    text: &[u8],
) -> Result<(JudgedNode, Option<usize>), CommandRefusal>
    ensures answer { AsksIn (option_map (λ w. w.now) word.entry) tasks.now text.now result }
    ensures asked { IfOk result (λ found. IfSome found.1 (λ task. task < length tasks.now)) }
    ensures within { IfOk result (λ found. All (λ j. j.task < TASK_LIMIT) found.0.judged.items) }
{
    let node = judge_order(alloc, tasks, text)?;
    let asked = asked_task(tasks, word)?;
    Ok((node, asked))
}

// The answer on both that is said of an order. The error is out of memory.
pub(crate) fn answer_in(alloc: Global, both: &Both, found: InOrder) -> Result<Answer, AllocError>
    ensures text { IfOk result (λ answer. answer.text.items ≡ string_bytes found.text) }
    ensures status { IfOk result (λ answer. answer.status ≡ judged_status found.node.judged.items) }
{
    let judged = &found.node.judged;
    let notes = notes_judged(alloc, both, judged)?;
    let status = judged_status(judged);
    Ok(Answer {
        text: found.text.into_bytes(),
        status,
        notes,
    })
}
