//! What the age of a chain in a trace is held against.
ghost use Rattle.std.specs.Prelude.{◌≡◌, ◌+◌, ◌*◌, ◌≤◌, ◌^◌, length, nat_lt, sum_by};
ghost use Rattle.std.specs.List.{list_any};
ghost use Rattle.task_sheet.specs.Demand.{greatest_of};
ghost use Rattle.chain_traces.specs.Lates.{late_at, late_by, late_of, most_of, offsets_held};
ghost use Rattle.chain_traces.specs.TraceChainLines.{held_of, scene_of};

use crate::scene::Scene;
use chain_tables::Chain;
use chains::Writes;
use observed::Seen;

// How late a job may be seen to arrive.
fn late_by(seen: &Seen) -> u64
    ensures { result ≡ late_by seen.now }
{
    match seen.delay {
        Some(_) => 0,
        None => seen.promise.jitter,
    }
}

// The same of one of a task.
fn late_at(task: usize, seen: &Seen) -> u64
    ensures { result ≡ late_at task seen.now }
{
    if seen.promise.task == task {
        late_by(seen)
    } else {
        0
    }
}

// How late the jobs of a task may be.
fn late_of(seen: &[Seen], task: usize) -> u64
    ensures { result ≡ late_of seen.now task }
{
    let mut late = 0;
    for job in seen {
        late = late_at(task, job).max(late);
    }
    late
}

// Whether a job of a task may be late.
fn may_be_late(seen: &[Seen], task: usize) -> bool
    ensures { result ≡ nat_lt 0 (late_of seen.now task) }
{
    late_of(seen, task) > 0
}

// Whether one of any of these tasks may.
fn any_late(seen: &[Seen], tasks: &[usize]) -> bool
    ensures { result ≡ list_any (λ task. nat_lt 0 (late_of seen.now task)) tasks.now }
{
    tasks.iter().any(|task| may_be_late(seen, *task))
}

/// The offsets to which the age of a chain is held that has these.
pub(crate) fn offsets_held<'a>(
    writes: Writes,
    seen: &[Seen],
    tasks: &[usize],
    offsets: &'a [u64],
) -> &'a [u64]
    ensures { result.now ≡ offsets_held writes seen.now tasks.now offsets.now }
{
    match writes {
        Writes::AtDeadline if any_late(seen, tasks) => &[],
        Writes::AtDeadline | Writes::AtFinish => offsets,
    }
}

// A bound, and how late the jobs of these tasks may be.
fn late_after(bound: u128, seen: &[Seen], tasks: &[usize]) -> u128
    requires { bound ≤ length tasks.now * 2 ^ 64 }
    ensures { result ≡ bound + sum_by (late_of seen.now) tasks.now }
{
    let mut most = bound;
    let mut rest = tasks;
    while let Some((task, others)) = rest.split_first() {
        most += late_of(seen, *task) as u128;
        rest = others;
    }
    most
}

/// How old a chain with this bound, by the offsets to which its age is held, may get, as it is seen.
pub(crate) fn most_of(scene: &Scene<'_>, chain: &Chain, bound: Option<u128>) -> Option<u128>
    requires { bound ≡ held_of (scene_of scene.now) chain.now }
    ensures { result ≡ most_of chain.now.writes scene.now.seen.now chain.now.tasks bound }
{
    // The set is valid: the proof has it from its sheets.
    let _ = scene.set.sheets();
    match chain.writes {
        Writes::AtFinish => bound,
        Writes::AtDeadline => match bound {
            Some(own) => Some(late_after(own, scene.seen, &chain.tasks)),
            None => None,
        },
    }
}
