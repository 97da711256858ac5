//! `desk judge`.
ghost use Rattle.std.specs.Prelude.{◌≡◌, ◌<◌, All, IfOk, string_bytes};
ghost use Rattle.task_sheet.specs.declared.set.TheConstants.{TASK_LIMIT};
ghost use Rattle.two_input_commands.specs.Judge.{JudgesBoth, JudgesNode, JudgesText, judged_said, judged_status};

use crate::chained::{ChainsTold, chained_status, tell_chains};
use answering::{Answer, Both, CommandRefusal, Status};
use chain_lines::Telling;
use chain_tables::Chain;
use judge::{JudgedNode, JudgedTask, all_meet, judge_given, judged_text};
use std::alloc::{AllocError, Global};
use task_sheet::TaskSet;

// What becomes of a set's tasks in the order that the text of settings gives.
fn judge_node(
    alloc: Global,
    lower_is_higher: bool,
    tasks: &TaskSet,
    text: &[u8],
) -> Result<JudgedNode, CommandRefusal>
    ensures answer { JudgesNode lower_is_higher tasks.now text.now result }
    ensures within { IfOk result (λ node. All (λ j. j.task < TASK_LIMIT) node.judged.items) }
{
    judge_given(alloc, tasks, lower_is_higher, text).map_err(CommandRefusal::Settings)
}

// What becomes of a set's tasks in the order that the text of settings gives, by the ceilings of its mutexes, with the
// numbers of their threads; a smaller number may be the higher one. And what is told of these chains in that order.
fn judge_text(
    alloc: Global,
    lower_is_higher: bool,
    chains: &[Chain],
    tasks: &TaskSet,
    text: &[u8],
) -> Result<(JudgedNode, ChainsTold), CommandRefusal>
    ensures answer { JudgesText lower_is_higher chains.now tasks.now text.now result }
    ensures within { IfOk result (λ found. All (λ j. j.task < TASK_LIMIT) found.0.judged.items) }
{
    let node = judge_node(alloc, lower_is_higher, tasks, text)?;
    let told = tell_chains(alloc, Telling::Bound, tasks, chains, &node.judged)?;
    Ok((node, told))
}

// What is printed of an order that was judged, by slack where it is asked for, and of the chains in it. The error is out of
// memory.
fn judged_said(
    alloc: Global,
    sorted: bool,
    tasks: &TaskSet,
    node: &JudgedNode,
    told: &ChainsTold,
) -> Result<String, AllocError>
    requires { All (λ j. j.task < TASK_LIMIT) node.now.judged.items }
    ensures { IfOk result (λ text. string_bytes text ≡ judged_said sorted tasks.now node.now told.now) }
{
    let mut text = judged_text(alloc, sorted, tasks, &node.judged, &node.numbers)?;
    text.push_str(told.text.as_str())?;
    Ok(text)
}

/// The exit status of an order.
pub(crate) fn judged_status(judged: &[JudgedTask]) -> Status
    ensures { result ≡ judged_status judged.now }
{
    if all_meet(judged) {
        Status::Done
    } else {
        Status::Infeasible
    }
}

/// The answer of `desk judge` on a set and the text of settings, by slack where it is asked for.
pub fn judge_both(
    alloc: Global,
    lower_is_higher: bool,
    sorted: bool,
    both: &Both,
) -> Result<Answer, CommandRefusal>
    ensures { JudgesBoth lower_is_higher sorted both.now result }
{
    let (chains, tasks) = (&both.chains, &both.tasks);
    let (node, told) = judge_text(alloc, lower_is_higher, chains, tasks, &both.text)?;
    let text = judged_said(alloc, sorted, tasks, &node, &told)?;
    Ok(Answer::new(text, chained_status(&node.judged, told.are_met)))
}
