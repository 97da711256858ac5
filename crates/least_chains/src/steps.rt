//! The bound of a chain, by how long the parts behind the waits of its tasks take.
ghost use Rattle.std.specs.Prelude.{◌≡◌, drop, IfOk};
ghost use Rattle.chains.specs.Walks.{bound_by, steps_with};

use chains::{bound_by, step_of};
use std::alloc::{AllocError, Global};
use task_sheet::TaskSet;

// Numbers without the first one.
fn behind(numbers: &[u64]) -> &[u64]
    ensures { result.now ≡ drop 1 numbers.now }
{
    match numbers.split_first() {
        Some((_, others)) => others,
        None => numbers,
    }
}

/// The bound of a chain of tasks, by their indexes, the first one first, in microseconds, where the parts behind their waits
/// take so long. The offsets are theirs, or none where none is known; it is none where over `ARRIVAL_LIMIT` arrivals of the
/// first task come until all arrive as at first. The error is out of memory.
pub fn bound_with(
    alloc: Global,
    set: &TaskSet,
    offsets: &[u64],
    parts: &[u64],
    tasks: &[usize],
) -> Result<Option<u128>, AllocError>
    ensures { IfOk result (λ bound. bound ≡ bound_by (steps_with set.now offsets.now parts.now tasks.now)) }
{
    let mut steps = Vec::with_capacity(alloc, tasks.len())?;
    let mut known = offsets;
    let mut left = parts;
    for task in tasks {
        let part = left.first().copied().unwrap_or(0);
        steps.push(step_of(set, known, *task, part))?;
        known = behind(known);
        left = behind(left);
    }
    Ok(bound_by(&steps))
}
