//! The run that a chain's bound describes, as a release list.
ghost use Rattle.std.specs.Prelude.{◌≡◌, ◌<◌, ◌≤◌, ◌++◌, ◌∷◌, [], length, None, MatchResult, IfOk, nat_lt};
ghost use Rattle.task_sheet.specs.declared.set.TheConstants.{TASK_LIMIT};
ghost use Rattle.task_sheet.specs.Sheet.{IsValidSheet};
ghost use Rattle.task_sheet.specs.TaskSet.{IsTaskSet};
ghost use Rattle.ceiling_kernel.specs.declared.accept.TheConstants.{HORIZON, RELEASE_LIMIT};
ghost use Rattle.ceiling_kernel.specs.declared.trace.RunFault.TheVariants.{TooMany};
ghost use Rattle.ceiling_kernel.specs.Releases.{IsRefusal, refusal_of, refuse_if};
ghost use Rattle.chain_worst.specs.Built.{all_jobs, built_of, jobs_within};

use crate::aims::Aim;
use crate::arrivals::{next_of, release_at};
use ceiling_kernel::{RELEASE_LIMIT, Release, RunFault};
use std::alloc::Global;
use task_sheet::{Sheet, TaskSet};

// A release is put behind others.
fn push(releases: &mut Vec<Release>, release: Release) -> Result<(), RunFault>
    requires { length releases.old.items ≤ RELEASE_LIMIT }
    ensures { MatchResult result
        (λ _. (releases.new.items ≡ releases.old.items ++ release ∷ [])
        × (length releases.new.items ≤ RELEASE_LIMIT))
        (λ e. IsRefusal e
        (refuse_if (nat_lt RELEASE_LIMIT (length (releases.old.items ++ release ∷ []))) TooMany)) }
{
    if releases.len() == RELEASE_LIMIT {
        return Err(RunFault::TooMany);
    }
    match releases.push(release) {
        Ok(()) => Ok(()),
        Err(_) => Err(RunFault::OutOfMemory),
    }
}

// The jobs of a task are put behind others.
fn push_jobs(
    sheet: &Sheet,
    rank: usize,
    until: u64,
    aims: &[Aim],
    releases: &mut Vec<Release>,
) -> Result<(), RunFault>
    requires valid { IsValidSheet sheet.now }
    requires rank { rank < TASK_LIMIT }
    requires horizon { until ≤ HORIZON }
    requires few { length releases.old.items ≤ RELEASE_LIMIT }
    ensures { MatchResult result
        (λ _. (releases.new.items ≡ releases.old.items ++ jobs_within sheet.now rank until aims.now until)
        × (length releases.new.items ≤ RELEASE_LIMIT))
        (λ e. IsRefusal e
        (refuse_if (nat_lt RELEASE_LIMIT
        (length (releases.old.items ++ jobs_within sheet.now rank until aims.now until))) TooMany)) }
{
    let mut time = next_of(sheet, rank, until, aims, 0);
    while time < until {
        push(releases, release_at(sheet, until, aims, time))?;
        time = next_of(sheet, rank, until, aims, time + sheet.period());
    }
    Ok(())
}

// The jobs of a set, task by task.
fn jobs(alloc: Global, sheets: &[Sheet], until: u64, aims: &[Aim]) -> Result<Vec<Release>, RunFault>
    requires set { IsTaskSet sheets.now }
    requires horizon { until ≤ HORIZON }
    ensures { MatchResult result
        (λ releases. (releases.items ≡ all_jobs sheets.now until aims.now)
        × (length releases.items ≤ RELEASE_LIMIT))
        (λ e. IsRefusal e
        (refuse_if (nat_lt RELEASE_LIMIT (length (all_jobs sheets.now until aims.now))) TooMany)) }
{
    let mut releases = Vec::new(alloc);
    for rank in 0..sheets.len() {
        push_jobs(&sheets[rank], rank, until, aims, &mut releases)?;
    }
    Ok(releases)
}

/// The run that a chain's bound describes up to `until`, by its aims. Refused only as `TooMany`; a kernel of the set refuses no
/// such list.
pub(crate) fn build(
    alloc: Global,
    set: &TaskSet,
    until: u64,
    aims: &[Aim],
) -> Result<Vec<Release>, RunFault>
    requires { until ≤ HORIZON }
    ensures list { MatchResult result
        (λ releases. releases.items ≡ built_of set.now until aims.now)
        (λ e. IsRefusal e
        (refuse_if (nat_lt RELEASE_LIMIT (length (all_jobs set.now until aims.now))) TooMany)) }
    ensures accepted { IfOk result (λ releases. refusal_of set.now releases.items until ≡ None) }
{
    let mut releases = jobs(alloc, set.sheets(), until, aims)?;
    match releases.sort_by_key(|release| release.time) {
        Ok(()) => Ok(releases),
        Err(_) => Err(RunFault::OutOfMemory),
    }
}
