//! What shows that a task fails, or may stand.
ghost use Rattle.std.specs.Prelude.{◌≡◌, ◌<◌, ◌≤◌, length};
ghost use Rattle.task_sheet.specs.Sheet.{task_at};
ghost use Rattle.task_sheet.specs.declared.sheet.TheConstants.{PERIOD_TO};
ghost use Rattle.task_sheet.specs.Indexes.{indexes_of};
ghost use Rattle.task_sheet.specs.Demand.{demand_of, limit_of};
ghost use Rattle.cert_checker.specs.Ready.{task_by_name};
ghost use Rattle.cert_checker.specs.Work.{demand_from};
ghost use Rattle.cert_checker.specs.Chains.{may_follow, goes_past, are_chain};
ghost use Rattle.certificate.specs.ReasonOf.{reason_seen};
ghost use Rattle.cert_checker.specs.CertificateFaults.{covers, time_stands, is_outranked, refutes, is_refuted, bad_fail};

use crate::fault::CheckFault;
use crate::naming::task_by_name;
use crate::outranking::{must_outrank, must_outrank_any};
use crate::work::{base_demand, demand_from, limit_of};
use certificate::{CertFail, CertReason};
use task_sheet::{Members, Name, TaskSet};

// Whether the number may stand behind the last one.
fn may_follow(set: &TaskSet, above: Members, base: u64, limit: u64, last: u64, number: u64) -> bool
    requires base { base ≤ 20000000 }
    requires limit { limit ≤ PERIOD_TO }
    ensures { result ≡ may_follow (demand_from set.now (indexes_of above) base) limit last number }
{
    last <= limit && last < number && number <= demand_from(set, above, base, last)
}

// Whether the numbers climb past the limit from the first one.
fn goes_past(
    set: &TaskSet,
    above: Members,
    base: u64,
    limit: u64,
    first: u64,
    numbers: &[u64],
) -> bool
    requires base { base ≤ 20000000 }
    requires limit { limit ≤ PERIOD_TO }
    ensures { result
        ≡ goes_past (demand_from set.now (indexes_of above) base) limit first numbers.now }
{
    let mut last = first;
    for number in numbers {
        if !may_follow(set, above, base, limit, last, *number) {
            return false;
        }
        last = *number;
    }
    limit < last
}

// Whether the numbers are a chain of the task with these above it.
fn are_chain(set: &TaskSet, task: usize, above: Members, numbers: &[u64]) -> bool
    requires { task < length set.now }
    ensures { result
        ≡ are_chain (demand_of set.now task (indexes_of above)) (limit_of (task_at set.now task))
        numbers.now }
{
    let Some((first, rest)) = numbers.split_first() else {
        return false;
    };
    if *first != 1 {
        return false;
    }
    let limit = limit_of(&set.sheets()[task]);
    let base = base_demand(set, task, above);
    goes_past(set, above, base, limit, 1, rest)
}

// Whether the time is from 1 to the limit of the task, and covers its demand below the others
// that are left.
fn covers(set: &TaskSet, left: Members, task: usize, time: u64) -> bool
    requires { task < length set.now }
    ensures { result ≡ covers set.now (indexes_of left) task time }
{
    let sheets = set.sheets();
    let limit = limit_of(&sheets[task]);
    if time < 1 || time > limit {
        return false;
    }
    let above = left.without(task);
    demand_from(set, above, base_demand(set, task, above), time) <= time
}

/// Whether the time does so, and the task need not stand above any of the others that are left.
pub fn time_stands(set: &TaskSet, left: Members, task: usize, time: u64) -> bool
    requires { task < length set.now }
    ensures { result ≡ time_stands set.now (indexes_of left) task time }
{
    // The set is small: the proof has it from its sheets.
    let _ = set.sheets();
    covers(set, left, task, time) && !must_outrank_any(set, task, left.without(task))
}

// Whether the name is that of one of the tasks above, above which the task must stand.
fn is_outranked(set: &TaskSet, task: usize, above: Members, other: Name) -> bool
    requires { task < length set.now }
    ensures { result ≡ is_outranked set.now task (indexes_of above) (task_by_name set.now other) }
{
    let other = task_by_name(set, other);
    other < set.len() && above.has(other) && must_outrank(set, task, other)
}

// Whether the reason refutes a task with these above it.
fn refutes(set: &TaskSet, task: usize, above: Members, reason: &CertReason) -> bool
    requires { task < length set.now }
    ensures { result ≡ refutes set.now task (indexes_of above) (reason_seen reason.now) }
{
    match reason {
        CertReason::Chain(numbers) => are_chain(set, task, above, numbers),
        CertReason::Over(other) => is_outranked(set, task, above, *other),
    }
}

// Whether the name is a task's, and its reason refutes it below the others that are left.
fn is_refuted(set: &TaskSet, left: Members, fail: &CertFail) -> bool
    ensures { result ≡ is_refuted set.now (indexes_of left) fail.now }
{
    let task = task_by_name(set, fail.name);
    task < set.len() && refutes(set, task, left.without(task), &fail.reason)
}

/// The first of the failures that is none.
pub fn bad_fail(
    set: &TaskSet,
    place: usize,
    left: Members,
    fails: &[CertFail],
) -> Option<CheckFault>
    ensures { result ≡ bad_fail set.now place (indexes_of left) fails.now }
{
    for fail in fails {
        if !is_refuted(set, left, fail) {
            return Some(CheckFault::BadChain {
                level: place,
                name: fail.name,
            });
        }
    }
    None
}
