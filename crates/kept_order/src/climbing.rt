//! Levels from the lowest up, at which no task stands above one that has to be above it.
ghost use Rattle.std.specs.Prelude.{◌≡◌, ◌<◌, ◌+◌, ◌&&◌, ℕ, List, length, drop, slice_index, All, IfOk, IfSome, IfNone};
ghost use Rattle.task_sheet.specs.declared.set.TheConstants.{TASK_LIMIT};
ghost use Rattle.task_sheet.specs.Indexes.{among, indexes_of, without_index, IsPart};
ghost use Rattle.task_sheet.specs.Demand.{IsResponseOf};
ghost use Rattle.task_sheet.specs.Orders.{all_of};
ghost use Rattle.kept_order.specs.Keeping.{is_held, IsChosenKept, IsKeptPlacing, IsPassingKept, NoneStandsKept, StandsKept};

use assignment::{Place, least_over};
use ceilings::Tabled;
use response_time::response_in_time;
use std::alloc::{AllocError, Global};
use task_sheet::Members;

// The task is one of a list.
fn is_in(order: &[usize], task: usize) -> bool
    ensures { result ≡ among order.now task }
{
    order.iter().any(|other| *other == task)
}

// One of these is at this place of a list, and the task above it.
fn holds(kept: &[usize], place: usize, others: Members, task: usize) -> bool
    requires within { All (λ index. index < TASK_LIMIT) kept.now }
    requires place { place < length kept.now }
    ensures { result ≡ (indexes_of others (slice_index kept.now place)
        && among (drop (place + 1) kept.now) task) }
{
    others.has(kept[place]) && is_in(&kept[place + 1..], task)
}

// Some of these stands below the task in a list.
fn is_held(kept: &[usize], others: Members, task: usize) -> bool
    requires { All (λ index. index < TASK_LIMIT) kept.now }
    ensures { result ≡ is_held kept.now (indexes_of others) task }
{
    for place in 0..kept.len() {
        if holds(kept, place, others, task) {
            return true;
        }
    }
    false
}

// The response of a task with these above it, where it may stand there and none of them stands below it in a list.
#[tactic(auto, using(crate::proofs::KeepsLaws::over_fails))]
fn response_kept(set: &Tabled<'_>, kept: &[usize], task: usize, above: Members) -> Option<u64>
    requires within { All (λ index. index < TASK_LIMIT) kept.now }
    requires task { task < length set.now }
    ensures some { IfSome result
        (λ response. IsResponseOf set.now task (indexes_of above) response) }
    ensures stands { IfSome result (λ _. StandsKept set.now kept.now task (indexes_of above)) }
    ensures none { IfNone result (¬ StandsKept set.now kept.now task (indexes_of above)) }
{
    if is_held(kept, above, task) {
        return None;
    }
    match least_over(set, task, above) {
        Some(_) => None,
        None => response_in_time(set, task, above),
    }
}

// Of the tasks that are left the one of least rank that may stand below the others and has none of them below it in the
// list; none where there is none.
fn lowest(set: &Tabled<'_>, kept: &[usize], left: Members) -> Option<Place>
    requires within { All (λ index. index < TASK_LIMIT) kept.now }
    requires part { IsPart (indexes_of left) (all_of set.now) }
    ensures chosen { IfSome result
        (λ place. IsChosenKept set.now kept.now (indexes_of left) place.task) }
    ensures response { IfSome result (λ place.
        IsResponseOf set.now place.task (without_index (indexes_of left) place.task)
        place.response) }
    ensures none { IfNone result (NoneStandsKept set.now kept.now (indexes_of left)) }
{
    for task in 0..set.len() {
        if left.has(task) {
            if let Some(response) = response_kept(set, kept, task, left.without(task)) {
                return Some(Place { task, response });
            }
        }
    }
    None
}

/// The best of the orders that pass and keep the list, with its responses; none where there is none. The error is out of memory.
pub(crate) fn climb(
    alloc: Global,
    set: &Tabled<'_>,
    kept: &[usize],
) -> Result<Option<Vec<Place>>, AllocError>
    requires { All (λ index. index < TASK_LIMIT) kept.now }
    ensures some { IfOk result (λ found. IfSome found
        (λ places. IsKeptPlacing set.now kept.now places.items)) }
    ensures none { IfOk result (λ found. IfNone found
        ((order : List ℕ) → ¬ IsPassingKept set.now kept.now order)) }
{
    let mut left = Members::all(set.sheets().len());
    let mut places = Vec::with_capacity(alloc, left.len())?;
    while !left.is_empty() {
        match lowest(set, kept, left) {
            Some(place) => {
                left = left.without(place.task);
                places.push(place)?;
            }
            None => return Ok(None),
        }
    }
    Ok(Some(places))
}
