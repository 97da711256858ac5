//! In which order the jobs of a run become ready.
ghost use Rattle.std.specs.Prelude.{◌+◌, ◌<◌, ◌^◌, All, IfOk, List};
ghost use Rattle.task_sheet.specs.Sheet.{Task};
ghost use Rattle.ceiling_kernel.specs.Releases.{jobs_of, ready_of};
ghost use Rattle.ceiling_kernel.specs.Turns.{AreTurns};

use crate::trace::Release;
use std::alloc::{AllocError, Global};

/// What a run goes through: the releases, the index of each one's task, and their turns.
#[derive(Clone, Copy)]
pub struct Agenda<'a> {
    pub releases: &'a [Release],
    pub tasks: &'a [usize],
    pub turns: &'a [(u64, usize)],
}

// When each release becomes ready, and its place, from 0, in the list: by time, and those of one time as they stand in
// the list.
pub fn turns_of(alloc: Global, releases: &[Release]) -> Result<Vec<(u64, usize)>, AllocError>
    requires { All (λ r. ready_of r < 2 ^ 64) releases.now }
    ensures { (U : List Task) → IfOk result (λ turns. AreTurns
        (jobs_of U releases.now) turns.items) }
{
    let mut turns = Vec::new(alloc);
    for k in 0..releases.len() {
        let release = releases[k];
        turns.push((release.time + release.late, k))?;
    }
    turns.sort_unstable();
    Ok(turns)
}
