//! Which jobs of a run aren't on a chain's clock.
ghost use Rattle.std.specs.Prelude.{◌≡◌, ◌++◌, OnOk, string_bytes};
ghost use Rattle.std.specs.List.{find};
ghost use Rattle.lines.specs.Naming.{name_at};
ghost use Rattle.chain_runs.specs.Strays.{is_stray, phase_of, stray_line, stray_lines, stray_words};

use crate::slices::task_of;
use ceiling_kernel::{JobRecord, Trace};
use chains::step_of;
use lines::push_name;
use std::alloc::AllocError;
use task_sheet::TaskSet;

// How long after a whole number of a task's periods a time is.
fn phase_of(set: &TaskSet, task: usize, time: u64) -> u64
    ensures { result ≡ phase_of set.now task time }
{
    match step_of(set, &[], task, 0).period {
        0 => time,
        period => time % period,
    }
}

// A job is the task's, and doesn't arrive at this offset.
fn is_stray(set: &TaskSet, task: usize, offset: u64, job: &JobRecord) -> bool
    ensures { result ≡ is_stray set.now task offset job.now }
{
    task_of(set, *job) == task && phase_of(set, task, job.release) != offset
}

// The first such job.
fn first_stray(set: &TaskSet, jobs: &[JobRecord], task: usize, offset: u64) -> Option<JobRecord>
    ensures { result ≡ find (is_stray set.now task offset) jobs.now }
{
    jobs.iter()
        .copied()
        .find(|job| is_stray(set, task, offset, job))
}

// Its line, where there is one.
fn push_stray(
    text: &mut String,
    set: &TaskSet,
    task: usize,
    offset: u64,
    job: Option<JobRecord>,
) -> Result<(), AllocError>
    ensures { OnOk result (string_bytes text.new ≡ string_bytes text.old ++ stray_words set.now task offset job) }
{
    let Some(job) = job else {
        return Ok(());
    };
    text.push_str("offset ")?;
    push_name(text, set, task)?;
    let time = job.release;
    let phase = phase_of(set, task, time);
    writeln!(text, " {time} {phase} of {offset}")
}

/// The lines of tasks of which jobs don't arrive at these offsets and each period from there on, of each that of the first such
/// job.
pub(crate) fn push_strays(
    text: &mut String,
    set: &TaskSet,
    trace: &Trace,
    offsets: &[u64],
    tasks: &[usize],
) -> Result<(), AllocError>
    ensures { OnOk result (string_bytes text.new ≡ string_bytes text.old
        ++ stray_lines set.now trace.now offsets.now tasks.now) }
{
    let mut rest = tasks;
    for offset in offsets {
        let Some((task, others)) = rest.split_first() else {
            return Ok(());
        };
        let job = first_stray(set, &trace.jobs, *task, *offset);
        push_stray(text, set, *task, *offset, job)?;
        rest = others;
    }
    Ok(())
}
