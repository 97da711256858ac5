//! Whether each task of an order meets its deadline by the ceilings that mutexes are given.
ghost use Rattle.std.specs.Prelude.{◌≡◌, ◌<◌, ◌≤◌, ◌+◌, ℕ, length, slice_index, drop, All, IfOk, IsFalse};
ghost use Rattle.task_sheet.specs.Indexes.{indexes_of};
ghost use Rattle.task_sheet.specs.Demand.{blocking_of, limit_of};
ghost use Rattle.task_sheet.specs.Orders.{must_outrank_any};
ghost use Rattle.task_sheet.specs.declared.sheet.TheConstants.{PERIOD_TO};
ghost use Rattle.judge.specs.Ceilings.{AllJudgedBy, IsJudgementBy, IsJudgementWith, blocking_at, ceiling_in, demand_blocked};
ghost use Rattle.judge.specs.SettingFaults.{thread_number};
ghost use Rattle.judge.specs.Judgements.{order_judged};
ghost use Rattle.judge.specs.Node.{IsOrderBy};

use crate::judging::{JudgedTask, Judgement};
use crate::raised::blocking_at;
use crate::rows::NodeSettings;
use assignment::{least_over, members_of};
use blocking::blocking;
use ceilings::Tabled;
use response_time::{demand, jitter_of, limit_of};
use std::alloc::{AllocError, Global};
use task_sheet::Members;

// The demand of a task in a window of some microseconds, with so much more blocking than by the least ceilings.
fn longer_demand(set: &Tabled<'_>, task: usize, above: Members, more: u64, time: u64) -> u64
    requires task { task < length set.now }
    requires more { more ≤ PERIOD_TO }
    requires time { time ≤ PERIOD_TO }
    ensures { result ≡ demand_blocked (blocking_of set.now task (indexes_of above) + more)
        set.now task (indexes_of above) time }
{
    // The set is valid: the proof has it from its sheets.
    let _ = set.sheets();
    demand(set, task, above, time) + more
}

// What becomes of a task that need not stand above any of these, with so much more blocking than by the least ceilings.
fn judge_longer(set: &Tabled<'_>, task: usize, above: Members, more: u64) -> Judgement
    requires task { task < length set.now }
    requires more { more ≤ PERIOD_TO }
    requires unbound { IsFalse (must_outrank_any set.now task (indexes_of above)) }
    ensures { IsJudgementWith (blocking_of set.now task (indexes_of above) + more)
        set.now task (indexes_of above) result }
{
    let limit = limit_of(set, task);
    let jitter = jitter_of(set, task);
    let mut time = 1;
    while time <= limit {
        let next = longer_demand(set, task, above, more, time);
        if next == time {
            return Judgement::Meets {
                response: time + jitter,
            };
        }
        time = next;
    }
    Judgement::Misses {
        needs: time + jitter,
    }
}

// What becomes of a task with these above it, where its blocking is at least that by the least ceilings.
fn judge_raised(set: &Tabled<'_>, settings: &NodeSettings, task: usize, above: Members) -> Judgement
    requires task { task < length set.now }
    requires least { blocking_of set.now task (indexes_of above) ≤ blocking_at
        (ceiling_in set.now settings.now.threads.items settings.now.mutexes.items)
        (thread_number set.now settings.now.threads.items task) set.now task (indexes_of above) }
    ensures { IsJudgementWith (blocking_at
        (ceiling_in set.now settings.now.threads.items settings.now.mutexes.items)
        (thread_number set.now settings.now.threads.items task) set.now task (indexes_of above))
        set.now task (indexes_of above) result }
{
    // The set is valid: the proof has it from its sheets.
    let _ = set.sheets();
    if let Some(other) = least_over(set, task, above) {
        return Judgement::Below { other };
    }
    let given = blocking_at(set, settings, task, above);
    let more = given - blocking(set, task, above);
    judge_longer(set, task, above, more)
}

// What becomes of the task at a place of an order.
fn judge_at(set: &Tabled<'_>, settings: &NodeSettings, order: &[usize], place: usize) -> JudgedTask
    requires order { IsOrderBy set.now settings.now.threads.items order.now }
    requires within { All (λ index. index < length set.now) order.now }
    requires place { place < length order.now }
    ensures task { result.task ≡ slice_index order.now place }
    ensures judged { IsJudgementBy set.now settings.now.threads.items settings.now.mutexes.items
        (slice_index order.now place) (drop (place + 1) order.now) result.judgement }
{
    // The set is valid: the proof has it from its sheets.
    let _ = set.sheets();
    let task = order[place];
    let above = members_of(&order[place + 1..]);
    let judgement = judge_raised(set, settings, task, above);
    JudgedTask { task, judgement }
}

/// What becomes of each task of the order that threads give, the lowest first, by the ceilings that mutexes are given. The
/// error is out of memory.
pub(crate) fn judge_by(
    alloc: Global,
    set: &Tabled<'_>,
    settings: &NodeSettings,
    order: &[usize],
) -> Result<Vec<JudgedTask>, AllocError>
    requires order { IsOrderBy set.now settings.now.threads.items order.now }
    requires within { All (λ index. index < length set.now) order.now }
    ensures order { IfOk result (λ judged. order_judged judged.items ≡ order.now) }
    ensures judged { IfOk result (λ judged. AllJudgedBy set.now settings.now.threads.items
        settings.now.mutexes.items judged.items) }
{
    let mut judged = Vec::with_capacity(alloc, order.len())?;
    for place in 0..order.len() {
        judged.push(judge_at(set, settings, order, place))?;
    }
    Ok(judged)
}
