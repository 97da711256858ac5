//! What the tasks of a conflict need.
ghost use Rattle.std.specs.Prelude.{◌≡◌, ◌<◌, ◌≤◌, length, reverse, All, IfOk, IsTrue};
ghost use Rattle.task_sheet.specs.Sheet.{task_at};
ghost use Rattle.task_sheet.specs.Indexes.{indexes_of, listed_below};
ghost use Rattle.task_sheet.specs.Responses.{IsFullChain};
ghost use Rattle.task_sheet.specs.Demand.{Passes, demand_of, limit_of};
ghost use Rattle.task_sheet.specs.Levels.{IsObstruction};
ghost use Rattle.explain.specs.Needs.{AreNeedsOf, EndsWith, IsNeedOf, IsNeedsAccount};

use crate::accounts::Account;
use crate::parts::parts_of;
use assignment::least_over;
use ceilings::Tabled;
use response_time::{Answer, respond};
use std::alloc::{AllocError, Global};
use task_sheet::Members;

/// Why a task of a conflict may not stand below the others of it.
#[derive(Drop)]
pub enum Need {
    /// It doesn't pass: the last number of its chain with its jitter, in microseconds, and the parts of that.
    Needs(Account),
    /// It must stand above some of the others: of these the one of least rank, by its index.
    MustBeAbove { task: usize, other: usize },
}

// The two last numbers of a chain.
fn last_two(chain: &[u64]) -> (u64, u64)
    requires { 2 ≤ length chain.now }
    ensures { EndsWith chain.now result.0 result.1 }
{
    let len = chain.len();
    (chain[len - 2], chain[len - 1])
}

// Some tasks of a set by rank, the last first.
fn falling(alloc: Global, set: &Tabled<'_>, tasks: Members) -> Result<Vec<usize>, AllocError>
    ensures { IfOk result (λ order. order.items
        ≡ reverse (listed_below (length set.now) (indexes_of tasks))) }
{
    let mut order = Vec::new(alloc);
    for task in 0..set.len() {
        if tasks.has(task) {
            order.push(task)?;
        }
    }
    order.reverse();
    Ok(order)
}

// What a task needs at least with these above it, who are listed in an order, by its full chain.
fn chain_account(
    alloc: Global,
    set: &Tabled<'_>,
    task: usize,
    above: Members,
    order: &[usize],
    chain: &[u64],
) -> Result<Account, AllocError>
    requires task { task < length set.now }
    requires within { All (λ index. index < length set.now) order.now }
    requires chain { IsFullChain (demand_of set.now task (indexes_of above))
        (limit_of (task_at set.now task)) chain.now }
    ensures { IfOk result (λ account.
        IsNeedsAccount set.now task (indexes_of above) order.now account) }
{
    let sheet = &set.sheets()[task];
    let (before, last) = last_two(chain);
    let parts = parts_of(alloc, set, task, above, order, before)?;
    Ok(Account {
        task,
        time: last + sheet.jitter(),
        deadline: sheet.deadline(),
        parts,
    })
}

/// What a task needs at least with these above it, where it doesn't pass with them; they are listed in an order. The error is
/// out of memory.
pub fn needs_account(
    alloc: Global,
    set: &Tabled<'_>,
    task: usize,
    above: Members,
    order: &[usize],
) -> Result<Account, AllocError>
    requires task { task < length set.now }
    requires within { All (λ index. index < length set.now) order.now }
    requires fails { ¬ Passes set.now task (indexes_of above) }
    ensures { IfOk result (λ account.
        IsNeedsAccount set.now task (indexes_of above) order.now account) }
{
    match respond(alloc, set, task, above)?.answer {
        Answer::Fail { chain } => chain_account(alloc, set, task, above, order, &chain),
        Answer::Pass { .. } => unreachable!(),
    }
}

// Why a task of a conflict may not stand below the others.
fn need_of(
    alloc: Global,
    set: &Tabled<'_>,
    conflict: Members,
    task: usize,
) -> Result<Need, AllocError>
    requires obstruction { IsObstruction set.now (indexes_of conflict) }
    requires in_set { task < length set.now }
    requires member { IsTrue (indexes_of conflict task) }
    ensures { IfOk result (λ need.
        IsNeedOf set.now (indexes_of conflict) task need) }
{
    // The set is valid: the proof has it from its sheets.
    let _ = set.sheets();
    let above = conflict.without(task);
    if let Some(other) = least_over(set, task, above) {
        return Ok(Need::MustBeAbove { task, other });
    }
    let order = falling(alloc, set, above)?;
    let account = needs_account(alloc, set, task, above, &order)?;
    Ok(Need::Needs(account))
}

/// Why each task of a conflict may not stand below the others, by rank. The error is out of memory.
pub(crate) fn needs_of(
    alloc: Global,
    set: &Tabled<'_>,
    conflict: Members,
) -> Result<Vec<Need>, AllocError>
    requires { IsObstruction set.now (indexes_of conflict) }
    ensures { IfOk result (λ needs.
        AreNeedsOf set.now (indexes_of conflict)
        (listed_below (length set.now) (indexes_of conflict)) needs.items) }
{
    let mut needs = Vec::new(alloc);
    for task in 0..set.len() {
        if conflict.has(task) {
            needs.push(need_of(alloc, set, conflict, task)?)?;
        }
    }
    Ok(needs)
}
