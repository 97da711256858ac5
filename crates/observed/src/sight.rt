//! What a trace shows of a set's tasks at the levels of an order, and a text at those of their best one.
ghost use Rattle.std.specs.Prelude.{◌<◌, length, All, MatchResult};
ghost use Rattle.trace_text.specs.TraceFaults.{IsTraceFault};
ghost use Rattle.trace_text.specs.TraceLines.{rows_at};
ghost use Rattle.observed.specs.Observed.{observed_fault};
ghost use Rattle.observed.specs.Promises.{promises_of};
ghost use Rattle.observed.specs.Sights.{IsShownAt, IsSightFaultOf, IsSightOf};

use crate::observing::observe;
use crate::promises::{Promise, levels_of, promises_of};
use crate::seen::Seen;
use assignment::{Place, Placing, place_all};
use ceilings::{LockTable, Tabled};
use lines::TextPlace;
use std::alloc::Global;
use task_sheet::{Members, TaskSet};
use trace_text::{TraceFault, TraceLines, read_trace_at};

/// What a trace shows of a set's tasks.
#[derive(Drop)]
pub enum Sight {
    /// No order of the set passes, so that it promises nothing: the members of the greatest obstruction.
    Infeasible(Members),
    /// The promises of the best order, the lowest level first, and what is seen of each job.
    Seen(Observed),
}

/// The promises of an order, the lowest level first, and what is seen of each job.
#[derive(Drop)]
pub struct Observed {
    pub promises: Vec<Promise>,
    pub seen: Vec<Seen>,
}

/// What a trace shows of a set's tasks at the levels of an order with these places, whose threads have these numbers.
/// Refused only as `NoJob` or `OutOfMemory`.
pub fn observe_places(
    alloc: Global,
    set: &Tabled<'_>,
    numbers: &[u64],
    places: &[Place],
    trace: &TraceLines,
) -> Result<Observed, TraceFault>
    requires { All (λ p. p.task < length set.now) places.now }
    ensures { MatchResult result
        (λ observed. IsShownAt set.now numbers.now places.now trace.now observed)
        (λ fault. IsTraceFault fault
        (observed_fault (promises_of set.now numbers.now places.now) trace.now)) }
{
    let promises = promises_of(alloc, set, numbers, places)?;
    let seen = observe(alloc, set, &promises, trace)?;
    Ok(Observed { promises, seen })
}

/// What a text shows from a place on, as a trace, of a set's tasks at the levels of their best order, whose threads have the
/// numbers of their levels, from 1. It is refused in the order of `TraceFault`, before the set is placed but for `NoJob` and `OutOfMemory`.
pub fn observe_at(alloc: Global, set: &TaskSet, at: TextPlace<'_>) -> Result<Sight, TraceFault>
    ensures { MatchResult result
        (λ sight. IsSightOf set.now (rows_at at.entry.line at.entry.rest.now) sight)
        (λ fault. IsSightFaultOf set.now (rows_at at.entry.line at.entry.rest.now) fault) }
{
    // The set is valid: the proof has it from its sheets.
    let _sheets = set.sheets();
    let trace = read_trace_at(alloc, at)?;
    let table = LockTable::new(alloc, set)?;
    let tabled = Tabled::of(set, &table);
    match place_all(alloc, &tabled)? {
        Placing::Stuck(members) => Ok(Sight::Infeasible(members)),
        Placing::Best(places) => {
            let numbers = levels_of(alloc, &places)?;
            let observed = observe_places(alloc, &tabled, &numbers, &places, &trace)?;
            Ok(Sight::Seen(observed))
        }
    }
}
