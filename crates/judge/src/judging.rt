//! Whether each task of an order meets its deadline (Audsley et al. 1993).
ghost use Rattle.std.specs.Prelude.{◌≡◌, ◌<◌, ◌+◌, length, slice_index, drop, All, IfOk};
ghost use Rattle.task_sheet.specs.Indexes.{among, indexes_of};
ghost use Rattle.task_sheet.specs.Demand.{Passes};
ghost use Rattle.judge.specs.Judgements.{AllJudged, IsJudgementOf, IsNeeded, all_meet, does_meet, order_judged};

use assignment::{least_over, members_of};
use ceilings::Tabled;
use explain::needs_account;
use response_time::response_in_time;
use std::alloc::{AllocError, Global};
use task_sheet::Members;

/// What becomes of a task in an order.
#[derive(Clone, Copy)]
pub enum Judgement {
    /// It meets its deadline, with this response in microseconds from the arrival.
    Meets { response: u64 },
    /// It misses it: no time from 1 to what its jitter leaves of its deadline covers its demand. What it needs at least, in
    /// microseconds from the arrival: the first demand that is past that, with its jitter.
    Misses { needs: u64 },
    /// A task is above it above which it must stand: of these the one of least rank, by its index.
    Below { other: usize },
}

/// A task of an order, by its index, with what becomes of it.
#[derive(Clone, Copy)]
pub struct JudgedTask {
    pub task: usize,
    pub judgement: Judgement,
}

// What a task needs at least with these above it, where it doesn't pass with them.
fn needed(alloc: Global, set: &Tabled<'_>, task: usize, above: Members) -> Result<u64, AllocError>
    requires task { task < length set.now }
    requires fails { ¬ Passes set.now task (indexes_of above) }
    ensures { IfOk result (IsNeeded set.now task (indexes_of above)) }
{
    let account = needs_account(alloc, set, task, above, &[])?;
    Ok(account.time)
}

// What becomes of a task with these above it.
fn judge_task(
    alloc: Global,
    set: &Tabled<'_>,
    task: usize,
    above: Members,
) -> Result<Judgement, AllocError>
    requires { task < length set.now }
    ensures { IfOk result (IsJudgementOf set.now task (indexes_of above)) }
{
    if let Some(other) = least_over(set, task, above) {
        return Ok(Judgement::Below { other });
    }
    if let Some(response) = response_in_time(set, task, above) {
        return Ok(Judgement::Meets { response });
    }
    let needs = needed(alloc, set, task, above)?;
    Ok(Judgement::Misses { needs })
}

// What becomes of the task at a place of an order.
fn judge_place(
    alloc: Global,
    set: &Tabled<'_>,
    order: &[usize],
    place: usize,
) -> Result<JudgedTask, AllocError>
    requires within { All (λ index. index < length set.now) order.now }
    requires place { place < length order.now }
    ensures task { IfOk result (λ j. j.task ≡ slice_index order.now place) }
    ensures judged { IfOk result (λ j. IsJudgementOf set.now (slice_index order.now place)
        (among (drop (place + 1) order.now)) j.judgement) }
{
    // The set is valid: the proof has it from its sheets.
    let _ = set.sheets();
    let task = order[place];
    let above = members_of(&order[place + 1..]);
    let judgement = judge_task(alloc, set, task, above)?;
    Ok(JudgedTask { task, judgement })
}

/// What becomes of each task of an order, the lowest first, with the tasks after it above it: for every order, whether
/// it passes or not. The error is out of memory.
pub fn judge_order(
    alloc: Global,
    set: &Tabled<'_>,
    order: &[usize],
) -> Result<Vec<JudgedTask>, AllocError>
    requires { All (λ index. index < length set.now) order.now }
    ensures order { IfOk result (λ judged. order_judged judged.items ≡ order.now) }
    ensures judged { IfOk result (λ judged. AllJudged set.now judged.items) }
{
    let mut judged = Vec::with_capacity(alloc, order.len())?;
    for place in 0..order.len() {
        judged.push(judge_place(alloc, set, order, place)?)?;
    }
    Ok(judged)
}

// The task meets its deadline.
pub(crate) fn does_meet(judgement: Judgement) -> bool
    ensures { result ≡ does_meet judgement }
{
    match judgement {
        Judgement::Meets { .. } => true,
        Judgement::Misses { .. } | Judgement::Below { .. } => false,
    }
}

/// Whether each task of an order meets its deadline.
pub fn all_meet(judged: &[JudgedTask]) -> bool
    ensures { result ≡ all_meet judged.now }
{
    judged.iter().all(|entry| does_meet(entry.judgement))
}
