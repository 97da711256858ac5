//! Reading a trace.
ghost use Rattle.std.specs.Prelude.{◌≡◌, ◌++◌, ◌∷◌, [], Ok, MatchResult, OnOk};
ghost use Rattle.trace_text.specs.TraceFaults.{IsRowsFault, IsTraceFault, IsTraceOf, are_too_many, overlap_in, rows_fault, sequence_fault, unsorted_in};
ghost use Rattle.trace_text.specs.TraceLines.{jobs_of, parts_of, rows_at, slices_of};

use crate::fault::TraceFault;
use crate::rows::{TraceJob, TraceRow, TraceSlice, row_in};
use lines::{TextPlace, next_kept};
use std::alloc::{AllocError, Global};

/// The most slices of a trace.
pub const SLICE_LIMIT: usize = 4_294_967_296;

/// The most jobs of a trace.
pub const JOB_LIMIT: usize = 4_294_967_296;

/// What a trace says: slices by time, none of which overlaps another, and jobs by their arrivals.
#[derive(Drop)]
pub struct TraceLines {
    pub slices: Vec<TraceSlice>,
    pub jobs: Vec<TraceJob>,
}

// The line of the first slice that begins before the end of the one before it.
fn first_overlap(slices: &[TraceSlice]) -> Option<u64>
    ensures { result ≡ overlap_in slices.now }
{
    let mut free = 0;
    for slice in slices {
        if slice.start < free {
            return Some(slice.line);
        }
        free = slice.stop;
    }
    None
}

// The line of the first job that arrives before the one before it.
fn first_unsorted(jobs: &[TraceJob]) -> Option<u64>
    ensures { result ≡ unsorted_in jobs.now }
{
    let mut earliest = 0;
    for job in jobs {
        if job.arrival < earliest {
            return Some(job.line);
        }
        earliest = job.arrival;
    }
    None
}

// There are more than the limits.
fn are_too_many(slices: &[TraceSlice], jobs: &[TraceJob]) -> bool
    ensures { result ≡ are_too_many slices.now jobs.now }
{
    slices.len() > SLICE_LIMIT || jobs.len() > JOB_LIMIT
}

// Why slices and jobs are no trace.
fn sequence_fault(slices: &[TraceSlice], jobs: &[TraceJob]) -> Option<TraceFault>
    ensures { result ≡ sequence_fault slices.now jobs.now }
{
    if let Some(line) = first_overlap(slices) {
        return Some(TraceFault::SliceOverlap { line });
    }
    if let Some(line) = first_unsorted(jobs) {
        return Some(TraceFault::JobUnsorted { line });
    }
    if are_too_many(slices, jobs) {
        return Some(TraceFault::TooManyLines);
    }
    None
}

// Puts the slice or the job of a row behind the others.
fn add(trace: &mut TraceLines, row: TraceRow) -> Result<(), AllocError>
    ensures slices { OnOk result (trace.new.slices.items ≡ trace.old.slices.items ++ slices_of (row ∷ [])) }
    ensures jobs { OnOk result (trace.new.jobs.items ≡ trace.old.jobs.items ++ jobs_of (row ∷ [])) }
{
    match row {
        TraceRow::Slice(slice) => trace.slices.push(slice)?,
        TraceRow::Job(job) => trace.jobs.push(job)?,
    }
    Ok(())
}

// The slices and the jobs of a text from a place on, each in the order of their lines. Empty lines and lines that begin with
// `#` are skipped and counted; the last line may lack its LF.
fn read_parts(alloc: Global, at: TextPlace<'_>) -> Result<TraceLines, TraceFault>
    ensures { MatchResult result
        (λ trace. parts_of (rows_at at.entry.line at.entry.rest.now) ≡ Ok (trace.slices.items, trace.jobs.items))
        (λ fault. IsRowsFault fault (rows_at at.entry.line at.entry.rest.now)) }
{
    let mut at = at;
    let mut trace = TraceLines {
        slices: Vec::new(alloc),
        jobs: Vec::new(alloc),
    };
    while let Ok((line, after)) = next_kept(at) {
        let Some(row) = row_in(line.number, line.text) else {
            return Err(TraceFault::BadLine { line: line.number });
        };
        add(&mut trace, row)?;
        at = after;
    }
    Ok(trace)
}

/// Reads a trace from a place of a text on: the lines that a simulated run prints, counted from the start of the text. Refused
/// in the order of `TraceFault`, never as `NoJob`: that is for a set to say.
#[tactic(auto, using(crate::proofs::PartLaws::trace_of, crate::proofs::PartLaws::fault_of))]
pub fn read_trace_at(alloc: Global, at: TextPlace<'_>) -> Result<TraceLines, TraceFault>
    ensures { MatchResult result
        (λ trace. IsTraceOf (rows_at at.entry.line at.entry.rest.now) trace)
        (λ fault. IsTraceFault fault (rows_fault (rows_at at.entry.line at.entry.rest.now))) }
{
    let trace = read_parts(alloc, at)?;
    match sequence_fault(&trace.slices, &trace.jobs) {
        Some(fault) => Err(fault),
        None => Ok(trace),
    }
}
