//! Which release lists a kernel runs.
ghost use Rattle.std.specs.Prelude.{◌≡◌, ◌<◌, ◌≤◌, ◌+◌, length, map, MatchResult, IfSome, Some, None};
ghost use Rattle.std.specs.List.{list_any};
ghost use Rattle.ceiling_kernel.specs.Releases.{task_number, jobs_of, first_where, is_unsorted, is_unknown, is_too_soon, is_too_late, is_outside_cost, is_past, refusal_of, IsRefusal, IsUnknown, soon_after};
ghost use Rattle.std.specs.Option.{ForSome};

use crate::trace::{Release, RunFault};
use std::alloc::Global;
use task_sheet::{TASK_LIMIT, TaskSet};

/// The last time at which a run may end, in microseconds.
pub const HORIZON: u64 = 60_000_000;

/// The most releases of a run.
pub const RELEASE_LIMIT: usize = 10_000;

// The release arrives before the one before it.
fn is_unsorted(releases: &[Release], k: usize) -> bool
    requires { k < length releases.now }
    ensures { result ≡ is_unsorted releases.now k }
{
    k > 0 && releases[k].time < releases[k - 1].time
}

// The place, from 0, of the first release that arrives before the one before it.
fn first_unsorted(releases: &[Release]) -> Option<usize>
    ensures first { result ≡ first_where (is_unsorted releases.now) (length releases.now) }
    ensures in_list { IfSome result (λ k. k < length releases.now) }
{
    (0..releases.len()).find(|k| is_unsorted(releases, *k))
}

// The index of each release's task, or the place, from 0, of the first whose task is unknown.
fn find_tasks(alloc: Global, set: &TaskSet, releases: &[Release]) -> Result<Vec<usize>, RunFault>
    ensures { MatchResult result
        (λ places. (first_where (is_unknown set.now releases.now) (length releases.now) ≡ None)
        × (places.items ≡ map (task_number set.now) releases.now))
        (IsUnknown set.now releases.now) }
{
    let mut places = Vec::new(alloc);
    for k in 0..releases.len() {
        let Some(task) = set.find(releases[k].name) else {
            return Err(RunFault::UnknownTask { place: k + 1 });
        };
        match places.push(task) {
            Ok(()) => {}
            Err(_) => return Err(RunFault::OutOfMemory),
        }
    }
    Ok(places)
}

// A time comes less than a period after another, if there is one.
fn comes_soon(before: Option<u64>, time: u64, period: u64) -> bool
    requires { ForSome before (λ b. b ≤ time) }
    ensures { result ≡ soon_after before time period }
{
    match before {
        Some(before) => time - before < period,
        None => false,
    }
}

// The place, from 0, of the first release that arrives less than a period after its task's release before.
fn first_too_soon(set: &TaskSet, releases: &[Release], places: &[usize]) -> Option<usize>
    requires sorted { first_where (is_unsorted releases.now) (length releases.now) ≡ None }
    requires known { first_where (is_unknown set.now releases.now) (length releases.now) ≡ None }
    requires places { places.now ≡ map (task_number set.now) releases.now }
    ensures first { result ≡ first_where (is_too_soon set.now (jobs_of set.now releases.now))
        (length releases.now) }
    ensures in_list { IfSome result (λ k. k < length releases.now) }
{
    let sheets = set.sheets();
    let mut last: [Option<u64>; TASK_LIMIT] = [None; TASK_LIMIT];
    for k in 0..releases.len() {
        let task = places[k];
        let time = releases[k].time;
        let period = sheets[task].period();
        if comes_soon(last[task], time, period) {
            return Some(k);
        }
        last[task] = Some(time);
    }
    None
}

// The release is later than its task's jitter.
fn is_too_late(set: &TaskSet, releases: &[Release], places: &[usize], k: usize) -> bool
    requires known { first_where (is_unknown set.now releases.now) (length releases.now) ≡ None }
    requires places { places.now ≡ map (task_number set.now) releases.now }
    requires in_list { k < length releases.now }
    ensures { result ≡ is_too_late set.now releases.now k }
{
    set.sheets()[places[k]].jitter() < releases[k].late
}

// The place, from 0, of the first release that is later than its task's jitter.
fn first_too_late(set: &TaskSet, releases: &[Release], places: &[usize]) -> Option<usize>
    requires known { first_where (is_unknown set.now releases.now) (length releases.now) ≡ None }
    requires places { places.now ≡ map (task_number set.now) releases.now }
    ensures first { result ≡ first_where (is_too_late set.now releases.now) (length releases.now) }
    ensures in_list { IfSome result (λ k. k < length releases.now) }
{
    (0..releases.len()).find(|k| is_too_late(set, releases, places, *k))
}

// The release executes nothing, or more than its task's cost.
fn is_outside_cost(set: &TaskSet, releases: &[Release], places: &[usize], k: usize) -> bool
    requires known { first_where (is_unknown set.now releases.now) (length releases.now) ≡ None }
    requires places { places.now ≡ map (task_number set.now) releases.now }
    requires in_list { k < length releases.now }
    ensures { result ≡ is_outside_cost set.now releases.now k }
{
    let cost = set.sheets()[places[k]].cost();
    let runs = releases[k].runs.unwrap_or(cost);
    runs == 0 || cost < runs
}

// The place, from 0, of the first release that executes nothing, or more than its task's cost.
fn first_outside_cost(set: &TaskSet, releases: &[Release], places: &[usize]) -> Option<usize>
    requires known { first_where (is_unknown set.now releases.now) (length releases.now) ≡ None }
    requires places { places.now ≡ map (task_number set.now) releases.now }
    ensures first { result ≡ first_where (is_outside_cost set.now releases.now) (length releases.now) }
    ensures in_list { IfSome result (λ k. k < length releases.now) }
{
    (0..releases.len()).find(|k| is_outside_cost(set, releases, places, *k))
}

// The release becomes ready at the end or after it.
fn is_past(release: &Release, until: u64) -> bool
    ensures { result ≡ is_past until release.now }
{
    until <= release.time || until - release.time <= release.late
}

// Some release does.
fn some_past(releases: &[Release], until: u64) -> bool
    ensures { result ≡ list_any (is_past until) releases.now }
{
    releases.iter().any(|release| is_past(release, until))
}

// The index of each release's task, where the list isn't refused.
pub fn accept(
    alloc: Global,
    set: &TaskSet,
    releases: &[Release],
    until: u64,
) -> Result<Vec<usize>, RunFault>
    ensures { MatchResult result
        (λ places. (refusal_of set.now releases.now until ≡ None)
        × (places.items ≡ map (task_number set.now) releases.now))
        (λ e. IsRefusal e (refusal_of set.now releases.now until)) }
{
    if let Some(k) = first_unsorted(releases) {
        return Err(RunFault::Unsorted { place: k + 1 });
    }
    let places = find_tasks(alloc, set, releases)?;
    if let Some(k) = first_too_soon(set, releases, &places) {
        return Err(RunFault::TooSoon { place: k + 1 });
    }
    if let Some(k) = first_too_late(set, releases, &places) {
        return Err(RunFault::TooLate { place: k + 1 });
    }
    if let Some(k) = first_outside_cost(set, releases, &places) {
        return Err(RunFault::OutsideCost { place: k + 1 });
    }
    if until > HORIZON || some_past(releases, until) {
        return Err(RunFault::PastHorizon);
    }
    if releases.len() > RELEASE_LIMIT {
        return Err(RunFault::TooMany);
    }
    Ok(places)
}
