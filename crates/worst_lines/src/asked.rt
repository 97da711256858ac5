//! Which task's worst case is shown.
ghost use Rattle.std.specs.Prelude.{◌≡◌, ◌<◌, length, All, IfSome};
ghost use Rattle.judge.specs.Judgements.{does_meet};
ghost use Rattle.worst_lines.specs.Asked.{highest_failing, judged_at, slack_of, tighter, tightest};
ghost use Rattle.worst_lines.specs.Worst.{chosen};

use judge::{JudgedTask, Judgement, all_meet};
use task_sheet::TaskSet;

// How much later than at its response a task has to be done.
fn slack_of(set: &TaskSet, entry: JudgedTask) -> u64
    requires { entry.task < length set.now }
    ensures { result ≡ slack_of set.now entry }
{
    match entry.judgement {
        Judgement::Meets { response } => {
            let deadline = set.sheets()[entry.task].deadline();
            deadline.saturating_sub(response)
        }
        Judgement::Misses { .. } | Judgement::Below { .. } => 0,
    }
}

// Of two tasks the one of less slack; of equals the later one.
fn tighter(set: &TaskSet, found: Option<JudgedTask>, entry: JudgedTask) -> JudgedTask
    requires entry { entry.task < length set.now }
    requires found { IfSome found (λ k. k.task < length set.now) }
    ensures is { result ≡ tighter set.now found entry }
    ensures within { result.task < length set.now }
{
    match found {
        Some(other) => {
            if slack_of(set, other) < slack_of(set, entry) {
                other
            } else {
                entry
            }
        }
        None => entry,
    }
}

// Of an order the task of least slack; of equals the highest.
fn tightest(set: &TaskSet, judged: &[JudgedTask]) -> Option<JudgedTask>
    requires { All (λ j. j.task < length set.now) judged.now }
    ensures is { result ≡ tightest set.now judged.now }
    ensures within { IfSome result (λ j. j.task < length set.now) }
{
    let mut found = None;
    for entry in judged {
        found = Some(tighter(set, found, *entry));
    }
    found
}

// The task meets its deadline.
fn meets(judgement: Judgement) -> bool
    ensures { result ≡ does_meet judgement }
{
    match judgement {
        Judgement::Meets { .. } => true,
        Judgement::Misses { .. } | Judgement::Below { .. } => false,
    }
}

// Of an order the highest task that doesn't meet its deadline.
fn highest_failing(set: &TaskSet, judged: &[JudgedTask]) -> Option<JudgedTask>
    requires { All (λ j. j.task < length set.now) judged.now }
    ensures is { result ≡ highest_failing judged.now }
    ensures within { IfSome result (λ j. j.task < length set.now) }
{
    let mut found = None;
    for entry in judged {
        if !meets(entry.judgement) {
            found = Some(*entry);
        }
    }
    found
}

// The task of an index.
fn judged_at(set: &TaskSet, judged: &[JudgedTask], task: usize) -> Option<JudgedTask>
    requires { All (λ j. j.task < length set.now) judged.now }
    ensures is { result ≡ judged_at task judged.now }
    ensures within { IfSome result (λ j. j.task < length set.now) }
{
    judged.iter().copied().find(|entry| entry.task == task)
}

/// The task whose worst case is shown: the one that is asked about; else, where all meet their deadlines, that of least slack,
/// and else the highest that doesn't; none where there is no such task.
pub(crate) fn chosen(
    set: &TaskSet,
    asked: Option<usize>,
    judged: &[JudgedTask],
) -> Option<JudgedTask>
    requires { All (λ j. j.task < length set.now) judged.now }
    ensures is { result ≡ chosen set.now asked judged.now }
    ensures within { IfSome result (λ j. j.task < length set.now) }
{
    match asked {
        Some(task) => judged_at(set, judged, task),
        None => {
            if all_meet(judged) {
                tightest(set, judged)
            } else {
                highest_failing(set, judged)
            }
        }
    }
}
