//! The lines that a run is printed as.
ghost use Rattle.std.specs.Prelude.{◌≡◌, ◌++◌, slice_index_or, OnOk, IfOk, string_bytes};
ghost use Rattle.ceiling_kernel.specs.Runs.{no_record};
ghost use Rattle.printed_runs.specs.TraceLines.{job_line, job_lines, slice_line, slice_lines, trace_lines};

use ceiling_kernel::{JobRecord, Slice, Trace};
use std::alloc::{AllocError, Global};

// The name of the job at a place; nothing past the end.
fn push_job_name(text: &mut String, jobs: &[JobRecord], place: usize) -> Result<(), AllocError>
    ensures { OnOk result
        (string_bytes text.new ≡ string_bytes text.old
        ++ (slice_index_or jobs.now place no_record).name) }
{
    match jobs.get(place) {
        Some(job) => {
            let name = job.name;
            write!(text, "{name}")
        }
        None => Ok(()),
    }
}

fn push_slice(text: &mut String, jobs: &[JobRecord], slice: Slice) -> Result<(), AllocError>
    ensures { OnOk result (string_bytes text.new ≡ string_bytes text.old
        ++ slice_line jobs.now slice) }
{
    let start = slice.start;
    let stop = slice.stop;
    write!(text, "{start} {stop} ")?;
    push_job_name(text, jobs, slice.job)?;
    text.push_str("\n")
}

fn push_slices(text: &mut String, trace: &Trace) -> Result<(), AllocError>
    ensures { OnOk result
        (string_bytes text.new ≡ string_bytes text.old
        ++ slice_lines trace.now.jobs.items trace.now.slices.items) }
{
    for slice in &trace.slices {
        push_slice(text, &trace.jobs, *slice)?;
    }
    Ok(())
}

fn push_job(text: &mut String, job: JobRecord) -> Result<(), AllocError>
    ensures { OnOk result (string_bytes text.new ≡ string_bytes text.old ++ job_line job) }
{
    let name = job.name;
    let release = job.release;
    match job.finish {
        Some(finish) => writeln!(text, "job {name} {release} {finish}"),
        None => writeln!(text, "job {name} {release} -"),
    }
}

fn push_jobs(text: &mut String, jobs: &[JobRecord]) -> Result<(), AllocError>
    ensures { OnOk result (string_bytes text.new ≡ string_bytes text.old ++ job_lines jobs.now) }
{
    for job in jobs {
        push_job(text, *job)?;
    }
    Ok(())
}

/// The lines that say a trace: `START STOP NAME` for each slice, and then `job NAME ARRIVAL FINISH` for each job, with `-` where
/// it isn't done. Times are in microseconds. The error is out of memory.
pub fn trace_text(alloc: Global, trace: &Trace) -> Result<String, AllocError>
    ensures { IfOk result (λ text. string_bytes text ≡ trace_lines trace.now) }
{
    let mut text = String::new(alloc);
    push_slices(&mut text, trace)?;
    push_jobs(&mut text, &trace.jobs)?;
    Ok(text)
}
