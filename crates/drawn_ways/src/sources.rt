//! What the outputs of a run's chains come from.
ghost use Rattle.std.specs.Prelude.{◌≡◌, IfOk};
ghost use Rattle.chain_runs.specs.ChainOutputs.{outputs_of};
ghost use Rattle.drawn_ways.specs.Sources.{outputs_in};

use ceiling_kernel::Trace;
use chain_runs::{
    ChainOutput, Interval, TaskSlice, intervals_of, outputs_by, outputs_from, slices_of,
};
use chains::Writes;
use std::alloc::{AllocError, Global};
use task_sheet::TaskSet;

/// Who executes when; or, where the tasks of chains write at their deadlines, the intervals of a run's jobs, and its end.
#[derive(Drop)]
pub enum Source {
    Slices(Vec<TaskSlice>),
    Intervals {
        until: u64,
        intervals: Vec<Interval>,
    },
}

/// That of a run, which ends at `until`. The error is out of memory.
pub fn source_of(
    alloc: Global,
    set: &TaskSet,
    until: u64,
    trace: &Trace,
    writes: Writes,
) -> Result<Source, AllocError>
    ensures { IfOk result (λ source. outputs_in source ≡ outputs_of writes set.now until trace.now) }
{
    match writes {
        Writes::AtFinish => {
            let slices = slices_of(alloc, set, trace)?;
            Ok(Source::Slices(slices))
        }
        Writes::AtDeadline => {
            let intervals = intervals_of(alloc, set, trace)?;
            Ok(Source::Intervals { until, intervals })
        }
    }
}

/// The outputs of a chain of tasks, by their indexes, the first one first. The error is out of memory.
pub fn outputs_in(
    alloc: Global,
    source: &Source,
    tasks: &[usize],
) -> Result<Vec<ChainOutput>, AllocError>
    ensures { IfOk result (λ outputs. outputs.items ≡ outputs_in source.now tasks.now) }
{
    match source {
        Source::Slices(slices) => outputs_from(alloc, slices, tasks),
        Source::Intervals { until, intervals } => outputs_by(alloc, *until, intervals, tasks),
    }
}
