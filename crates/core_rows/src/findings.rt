//! Findings in any order.
ghost use Rattle.std.specs.Prelude.{◌<◌};
ghost use Rattle.std.specs.FinSet.{len};
ghost use Rattle.task_sheet.specs.Indexes.{IsPart, indexes_of};
ghost use Rattle.task_sheet.specs.Orders.{all_of};

use assignment::{AnswerFault, Closed, Failure, Finding, Level, LevelRecord, Reason, TakeFault};
use example_sets::{THREE_TASKS, THREE_TASKS_TOO_TIGHT, again, shared_set};
use std::alloc::Global;
use std::process::Abort;
use std::test::Fail;
use task_sheet::{Members, TaskSet};

/// The index of the task a of the three tasks.
pub const A: usize = 0;

/// The index of b.
pub const B: usize = 1;

/// The index of c.
pub const C: usize = 2;

// The tasks of a set without some.
fn left_of(rt: &impl Abort, set: &TaskSet, gone: &[usize]) -> Members
    ensures part { IsPart (indexes_of result) (all_of set.now) }
    ensures some { 0 < len result }
{
    let mut left = Members::all(set.len());
    for task in gone {
        assert!(rt; *task < 32);
        left = left.without(*task);
    }
    assert!(rt; left.len() > 0);
    left
}

// The finding on a candidate of a level.
fn finding_on(rt: &impl Abort, alloc: Global, level: &Level, task: usize) -> Result<Finding, Fail> {
    assert!(rt; task < 32);
    assert!(rt; level.left().has(task));
    let question = again!(level.question(task))?;
    let answer = again!(question.answer(alloc), AnswerFault { question });
    Ok(answer.ok().ok_or("a finding")?)
}

/// The level of a document's set where some tasks are gone, with the findings on some of the others, taken in this
/// order.
pub fn level_of(
    rt: &impl Abort,
    alloc: Global,
    document: &str,
    gone: &[usize],
    found: &[usize],
) -> Result<Level, Fail> {
    let set = shared_set(alloc, document)?;
    let left = left_of(rt, &set, gone);
    let mut level = again!(Level::start(alloc, set.clone()?, left))?;
    for task in found {
        let finding = finding_on(rt, alloc, &level, *task)?;
        assert!(rt; level.take(finding).is_ok());
    }
    Ok(level)
}

// The finding on a candidate of the level of a document's set where some tasks are gone.
fn finding_at(
    rt: &impl Abort,
    alloc: Global,
    document: &str,
    gone: &[usize],
    task: usize,
) -> Result<Finding, Fail> {
    let level = level_of(rt, alloc, document, gone, &[])?;
    finding_on(rt, alloc, &level, task)
}

// Whether a reason is this chain.
fn is_chain(reason: &Reason, chain: &[u64]) -> bool {
    match reason {
        Reason::Chain(numbers) => numbers.as_slice() == chain,
        Reason::Over(_) => false,
    }
}

/// A task that fails, and its chain.
pub type Failing = (usize, &'static [u64]);

/// Whether failures are of these tasks with these chains.
pub fn are_failures(failures: &[Failure], fails: &[Failing]) -> bool {
    failures.len() == fails.len()
        && failures.iter().zip(fails).all(|(failure, (task, chain))| {
            failure.task == *task && is_chain(&failure.reason, *chain)
        })
}

/// Whether a level closed to a task with this response, and with these failures.
pub fn is_record(level: &LevelRecord, task: usize, response: u64, fails: &[Failing]) -> bool {
    level.task == task && level.response == response && are_failures(&level.fails, fails)
}

fn closes_to(level: Level, task: usize, response: u64, fails: &[Failing]) -> bool {
    match level.close() {
        Ok(Closed::Chosen(record)) => is_record(&record, task, response, fails),
        Ok(Closed::Obstruction(_)) => false,
        Err(_) => false,
    }
}

/// The failures of the first level of the three tasks.
pub const FAILURES: [Failing; 2] = [(A, &[1, 11000]), (B, &[1, 11000, 14000])];

#[test]
fn findings_in_any_order(rt: HostRuntime) -> Result<(), Fail> {
    for found in [[A, B, C], [C, B, A], [B, A, C], [C, A, B]] {
        let level = level_of(&rt, rt.alloc(), THREE_TASKS, &[], &found)?;
        assert!(rt; level.decided());
        assert!(rt; closes_to(level, C, 20000, &FAILURES));
    }
    Ok(())
}

// Findings at the first level of the three tasks that don't decide it.
const TOO_FEW: [&[usize]; 4] = [&[], &[C], &[C, B], &[A, B]];

#[test]
fn too_few_findings(rt: HostRuntime) -> Result<(), Fail> {
    for found in &TOO_FEW {
        let level = level_of(&rt, rt.alloc(), THREE_TASKS, &[], *found)?;
        assert!(rt; !level.decided());
        assert!(rt; level.close().is_err());
    }
    Ok(())
}

#[test]
fn enough_findings_of_the_second_level(rt: HostRuntime) -> Result<(), Fail> {
    let level = level_of(&rt, rt.alloc(), THREE_TASKS, &[C], &[A])?;
    assert!(rt; closes_to(level, A, 6000, &[]));
    Ok(())
}

// Delivers a finding to a level, and says what came of it.
fn deliver(level: &mut Level, finding: Finding) -> &'static str {
    match level.take(finding) {
        Ok(()) => "taken",
        Err(TakeFault::Twice { .. }) => "twice",
        Err(TakeFault::Stranger { .. }) => "stranger",
    }
}

// A document, the tasks that are gone at its level, a candidate there, and what comes of the finding on it at the first
// level of the three tasks, which has those on b and c.
const DELIVERED: [(&str, &[usize], usize, &str); 10] = [
    (THREE_TASKS, &[], B, "twice"),
    (THREE_TASKS, &[], C, "twice"),
    (THREE_TASKS_TOO_TIGHT, &[], A, "stranger"),
    (THREE_TASKS_TOO_TIGHT, &[], B, "stranger"),
    (THREE_TASKS_TOO_TIGHT, &[], C, "stranger"),
    (THREE_TASKS, &[C], A, "stranger"),
    (THREE_TASKS, &[C], B, "stranger"),
    (THREE_TASKS, &[], A, "taken"),
    (THREE_TASKS, &[], A, "twice"),
    (THREE_TASKS, &[], C, "twice"),
];

#[test]
fn doubles_and_strangers(rt: HostRuntime) -> Result<(), Fail> {
    let mut level = level_of(&rt, rt.alloc(), THREE_TASKS, &[], &[C, B])?;
    for (document, gone, task, want) in &DELIVERED {
        let finding = finding_at(&rt, rt.alloc(), *document, *gone, *task)?;
        assert_eq!(rt; deliver(&mut level, finding), *want);
    }
    assert!(rt; closes_to(level, C, 20000, &FAILURES));
    Ok(())
}
