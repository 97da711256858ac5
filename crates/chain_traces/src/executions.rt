//! The slices of a set's tasks in a trace, each with its job.
ghost use Rattle.std.specs.Prelude.{◌≡◌, [], IfOk};
ghost use Rattle.observed.specs.Pieces.{pieces_at};
ghost use Rattle.chain_traces.specs.Executions.{execution_of, executions_in, executions_of};

use observed::{Housed, Piece, homes_of, piece_of, split_first};
use std::alloc::{AllocError, Global};
use task_sheet::TaskSet;
use trace_text::{TraceJob, TraceLines};

/// A slice of a job: the index of its task, the job's place in the trace, where the slice begins, and the job's finish, if it
/// has one; in microseconds.
#[derive(Clone, Copy)]
pub struct Execution {
    pub task: usize,
    pub job: usize,
    pub start: u64,
    pub finish: Option<u64>,
}

// A slice with its task and its job, where it has both.
fn execution_of(set: &TaskSet, jobs: &[TraceJob], piece: &Piece) -> Option<Execution>
    ensures { result ≡ execution_of set.now jobs.now piece.now }
{
    let place = piece.job?;
    let job = jobs.get(place)?;
    let task = set.find(piece.name)?;
    Some(Execution {
        task,
        job: place,
        start: piece.start,
        finish: job.finish,
    })
}

// Those that there are.
fn executions_of(
    alloc: Global,
    set: &TaskSet,
    jobs: &[TraceJob],
    housed: Housed<'_>,
) -> Result<Vec<Execution>, AllocError>
    ensures { IfOk result (λ es. es.items
        ≡ executions_of set.now jobs.now (pieces_at [] housed.entry.homes.now housed.entry.slices.now)) }
{
    let mut executions = Vec::with_capacity(alloc, housed.slices.len())?;
    let mut rest = housed;
    while let Some((slice, home, more)) = split_first(&[], rest) {
        let piece = piece_of(&[], slice, home);
        if let Some(execution) = execution_of(set, jobs, &piece) {
            executions.push(execution)?;
        }
        rest = more;
    }
    Ok(executions)
}

/// The slices of a set's tasks in a trace, by time, each with the first job that it lies in. The error is out of memory.
pub fn executions_in(
    alloc: Global,
    set: &TaskSet,
    trace: &TraceLines,
) -> Result<Vec<Execution>, AllocError>
    ensures { IfOk result (λ es. es.items ≡ executions_in set.now trace.now) }
{
    let homes = homes_of(alloc, &trace.jobs, &trace.slices)?;
    let housed = Housed {
        slices: &trace.slices,
        homes: &homes,
    };
    executions_of(alloc, set, &trace.jobs, housed)
}
