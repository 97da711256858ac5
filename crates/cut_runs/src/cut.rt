//! A run up to the first overrun.
ghost use Rattle.std.specs.Prelude.{◌≡◌, ℕ, Err, IfOk, nat_lt};
ghost use Rattle.ceiling_kernel.specs.Releases.{ready_of};
ghost use Rattle.ceiling_kernel.specs.Runs.{Runs};
ghost use Rattle.ceiling_kernel.specs.declared.trace.RunFault.TheVariants.{Overrun};
ghost use Rattle.cut_runs.specs.Cut.{IsTight, RunsCut, ready_before};

use ceiling_kernel::{Kernel, Release, RunFault, Trace};
use std::alloc::{AllocError, Global};
use task_sheet::Name;

/// A run as far as it is shown: up to its end, or up to when a job of this task becomes ready, the first whose task's job
/// before it isn't finished then; with the releases that are ready before, in microseconds.
#[derive(Drop)]
pub struct CutRun {
    pub overrun: Option<Name>,
    pub until: u64,
    pub releases: Vec<Release>,
    pub trace: Trace,
}

// The release is ready before a time.
fn is_ready_before(release: Release, time: u64) -> bool
    ensures { result ≡ nat_lt (ready_of release) time }
{
    release.time < time && release.late < time - release.time
}

// The releases that are.
fn ready_before(alloc: Global, releases: &[Release], time: u64) -> Result<Vec<Release>, AllocError>
    ensures { IfOk result (λ kept. kept.items ≡ ready_before time releases.now) }
{
    let mut kept = Vec::new(alloc);
    for release in releases {
        if is_ready_before(*release, time) {
            kept.push(*release)?;
        }
    }
    Ok(kept)
}

// The run of what is left of a list where a job of a task, of this name, overruns the one before it at this time.
fn run_left(
    alloc: Global,
    kernel: &Kernel<'_>,
    releases: &[Release],
    name: Name,
    time: u64,
) -> Result<CutRun, RunFault>
    ensures run { (until : ℕ) → Runs kernel.now releases.now until (Err (Overrun name time))
        → RunsCut kernel.now releases.now until result }
    ensures tighter { IfOk result (IsTight kernel.now) }
{
    let left = ready_before(alloc, releases, time)?;
    match kernel.run(alloc, &left, time) {
        Ok(trace) => Ok(CutRun {
            overrun: Some(name),
            until: time,
            releases: left,
            trace,
        }),
        // What is left is never refused.
        Err(_) => Err(RunFault::OutOfMemory),
    }
}

// What comes of a list that a kernel doesn't run to its end.
fn after_fault(
    alloc: Global,
    kernel: &Kernel<'_>,
    releases: Vec<Release>,
    fault: RunFault,
) -> Result<CutRun, RunFault>
    ensures run { (until : ℕ) → Runs kernel.now releases.items until (Err fault)
        → RunsCut kernel.now releases.items until result }
    ensures tighter { IfOk result (IsTight kernel.now) }
{
    match fault {
        RunFault::Overrun { name, time } => run_left(alloc, kernel, &releases, name, time),
        RunFault::Unsorted { .. } => Err(fault),
        RunFault::UnknownTask { .. } => Err(fault),
        RunFault::TooSoon { .. } => Err(fault),
        RunFault::TooLate { .. } => Err(fault),
        RunFault::OutsideCost { .. } => Err(fault),
        RunFault::PastHorizon => Err(fault),
        RunFault::TooMany => Err(fault),
        RunFault::OutOfMemory => Err(fault),
    }
}

/// The run of a list by a kernel, up to `until`, in microseconds, or up to the first overrun; refused as by the kernel, but
/// never for an overrun.
pub fn run_cut(
    alloc: Global,
    kernel: &Kernel<'_>,
    releases: Vec<Release>,
    until: u64,
) -> Result<CutRun, RunFault>
    ensures run { RunsCut kernel.now releases.items until result }
    ensures tighter { IfOk result (IsTight kernel.now) }
{
    match kernel.run(alloc, &releases, until) {
        Ok(trace) => Ok(CutRun {
            overrun: None,
            until,
            releases,
            trace,
        }),
        Err(fault) => after_fault(alloc, kernel, releases, fault),
    }
}
