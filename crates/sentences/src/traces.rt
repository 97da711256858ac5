//! Why a text is no trace of a set.

use crate::texts::{tell_bad_line, tell_line};
use crate::told::Told;
use std::alloc::Global;
use trace_text::{JOB_LIMIT, SLICE_LIMIT, TraceFault};

/// What a person is told of a fault of a trace; none where memory runs out.
pub fn of_trace(alloc: Global, bytes: &[u8], fault: TraceFault) -> Option<String> {
    let mut told = Told::new(alloc);
    match fault {
        TraceFault::BadLine { line } => {
            let wanted =
                " has to be START STOP NAME [@P], rising, or job NAME ARRIVAL FINISH [READY], READY in between, - for no finish";
            tell_bad_line(&mut told, bytes, line, wanted);
        }
        TraceFault::SliceOverlap { line } => {
            let wrong = " begins before the end of the slice above it";
            tell_line(&mut told, bytes, line, wrong);
        }
        TraceFault::JobUnsorted { line } => {
            tell_line(
                &mut told,
                bytes,
                line,
                " arrives before the job above it: they stand by arrival",
            );
        }
        TraceFault::TooManyLines => {
            told.numbers(
                "more than {} slices or {} jobs",
                &[SLICE_LIMIT as u64, JOB_LIMIT as u64],
            );
        }
        TraceFault::NoJob { line } => {
            let wrong =
                " lies in no job of its task, between its arrival and its finish; a slice ends with its job";
            tell_line(&mut told, bytes, line, wrong);
        }
        TraceFault::OutOfMemory => told.give_up(),
    }
    told.whole()
}
