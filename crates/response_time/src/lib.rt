//! Demands and responses: whether a task meets its deadline below given others (Audsley et al. 1993). Times are whole
//! microseconds.
#![tactic(auto)]

ghost use Rattle.std.specs.Prelude.{◌≡◌, ◌+◌, ◌≤◌, ◌<◌, ◌↔◌, ℕ, List, length, IsTrue, IfOk, IfSome, IfNone, if◌then◌else◌};
ghost use Rattle.task_sheet.specs.Sheet.{task_at};
ghost use Rattle.task_sheet.specs.TaskSet.{IsTaskSet};
ghost use Rattle.response_time.specs.declared.workload.TheConstants.{WINDOW_LIMIT};
ghost use Rattle.task_sheet.specs.Indexes.{indexes_of};
ghost use Rattle.task_sheet.specs.Responses.{Covers, IsTrail};
ghost use Rattle.task_sheet.specs.Demand.{interrupts_within, demand_of, limit_of, IsResponseOf, Passes, evaluation_bound};
ghost use Rattle.response_time.specs.Answers.{IsAnswer};
ghost use Rattle.response_time.specs.Workload.{work_within, demand_with, IsFirstCover};

mod interrupts;
pub mod laws;
mod slowed;
mod uninterrupted;
mod workload;

use crate::interrupts::{has_interrupts, interrupts_within};
pub use crate::slowed::passes_at;
pub use crate::uninterrupted::passes_uninterrupted;
use crate::workload::Workload;
use ceilings::Tabled;
use std::alloc::{AllocError, Global};
use task_sheet::Members;

/// Whether a task passes.
#[derive(Drop)]
pub enum Answer {
    /// It does, with this response in microseconds: its jitter, and the least positive time that is its own demand.
    Pass { response: u64 },
    /// It does not: 1, then each demand of the number before it, up to the first that is past what the jitter leaves of
    /// the deadline.
    Fail { chain: Vec<u64> },
}

/// An answer, and how many different times within the limit led to it.
#[derive(Drop)]
pub struct Response {
    pub answer: Answer,
    pub evaluations: usize,
}

/// The longest window that serves a task, in microseconds: what its jitter leaves of its deadline.
pub fn limit_of(set: &Tabled<'_>, task: usize) -> u64
    requires { task < length set.now }
    ensures is { result ≡ limit_of (task_at set.now task) }
    ensures some { 0 < result }
    ensures short { result ≤ WINDOW_LIMIT }
    ensures kept { IsTaskSet set.now }
{
    set.sheets()[task].limit()
}

/// How long after its arrival a job of the task is released at most, in microseconds.
pub fn jitter_of(set: &Tabled<'_>, task: usize) -> u64
    requires { task < length set.now }
    ensures is { result ≡ (task_at set.now task).jitter }
    ensures short { result ≤ WINDOW_LIMIT }
{
    set.sheets()[task].jitter()
}

/// The demand of a task in a window of `time` microseconds, with these above it: its cost, its blocking, the cost of each
/// job of these that is released within the window (Audsley et al. 1993), and what the timers and the interrupts of all
/// tasks take of it (Burns, Wellings).
pub fn demand(set: &Tabled<'_>, task: usize, above: Members, time: u64) -> u64
    requires task { task < length set.now }
    requires time { time ≤ WINDOW_LIMIT }
    ensures { result ≡ demand_of set.now task (indexes_of above) time }
{
    let work = Workload::new(set, task, above, time, time).advance(time);
    work + interrupts_within(set, time)
}

// The work in a window that is no shorter than the last one, and with it what timers and interrupts take, where they count.
fn next_demand(set: &Tabled<'_>, work: &mut Workload, interrupted: bool, time: u64) -> u64
    requires time { time ≤ WINDOW_LIMIT }
    requires longer { work.old.time ≤ time }
    ensures is { result ≡ work_within time work.old
        + (if interrupted then interrupts_within set.now time else 0) }
    ensures same { (t : ℕ) → work_within t work.new ≡ work_within t work.old }
    ensures time { work.new.time ≡ time }
{
    let next = work.advance(time);
    if !interrupted {
        return next;
    }
    next + interrupts_within(set, time)
}

// The first window that covers the work of a task with these above it, and with that what timers and interrupts take, where
// they count; none where no window up to the limit does. The iteration starts at a window below which none covers the
// work, in place of 1.
pub(crate) fn first_cover(
    set: &Tabled<'_>,
    task: usize,
    above: Members,
    interrupted: bool,
) -> Option<u64>
    requires { task < length set.now }
    ensures some { IfSome result (λ window. IsFirstCover set.now task (indexes_of above) interrupted window) }
    ensures none { IfNone result (¬ Covers (demand_with interrupted set.now task (indexes_of above))
        (limit_of (task_at set.now task))) }
{
    let limit = limit_of(set, task);
    let mut work = Workload::new(set, task, above, 1, limit);
    let mut window = work.first_window(limit);
    while window <= limit {
        let next = next_demand(set, &mut work, interrupted, window);
        if next <= window {
            return Some(window);
        }
        window = next;
    }
    None
}

// What a task and those above it execute once, in microseconds. Each window has at least this demand.
fn least_demand(set: &Tabled<'_>, task: usize, above: Members) -> u64
    requires { task < length set.now }
    ensures { (time : ℕ) → 1 ≤ time → result ≤ demand_of set.now task (indexes_of above) time }
{
    let sheets = set.sheets();
    let mut least = sheets[task].cost();
    for (index, sheet) in sheets.iter().enumerate() {
        if above.has(index) {
            least += sheet.cost();
        }
    }
    least
}

/// The response of a task with these above it, in microseconds from the arrival; none where it does not pass
/// (Audsley et al. 1993). It is that of `respond`, with no chain: the iteration starts at a window below which none
/// covers the demand, in place of 1.
pub fn response_in_time(set: &Tabled<'_>, task: usize, above: Members) -> Option<u64>
    requires { task < length set.now }
    ensures some { IfSome result (λ response. IsResponseOf set.now task (indexes_of above) response
        × (response ≤ (task_at set.now task).deadline)) }
    ensures passes { IfSome result (λ _. Passes set.now task (indexes_of above)) }
    ensures none { IfNone result (¬ Passes set.now task (indexes_of above)) }
{
    if least_demand(set, task, above) > limit_of(set, task) {
        return None;
    }
    match first_cover(set, task, above, has_interrupts(set)) {
        Some(window) => Some(window + jitter_of(set, task)),
        None => None,
    }
}

/// Whether a task passes with these above it: some window within what its jitter leaves of its deadline covers its
/// demand (Audsley et al. 1993).
pub fn passes(set: &Tabled<'_>, task: usize, above: Members) -> bool
    requires { task < length set.now }
    ensures { IsTrue result ↔ Passes set.now task (indexes_of above) }
{
    response_in_time(set, task, above).is_some()
}

/// The response of a task with these above it, or the chain that shows that it has none in time (Audsley et al. 1993).
/// The error is out of memory for the numbers.
pub fn respond(
    alloc: Global,
    set: &Tabled<'_>,
    task: usize,
    above: Members,
) -> Result<Response, AllocError>
    requires { task < length set.now }
    ensures answer { IfOk result (λ r.
        IsAnswer set.now task (indexes_of above) r.answer) }
    ensures evaluations { IfOk result (λ r. (trail : List ℕ)
        × IsTrail (demand_of set.now task (indexes_of above)) (limit_of (task_at set.now task))
        trail
        × (r.evaluations ≡ length trail)) }
    ensures bound { IfOk result (λ r.
        r.evaluations
        ≤ evaluation_bound set.now (indexes_of above) (limit_of (task_at set.now task))) }
{
    let limit = limit_of(set, task);
    let interrupted = has_interrupts(set);
    let mut work = Workload::new(set, task, above, 1, limit);
    let mut numbers = Vec::new(alloc);
    let mut time = 1;
    while time <= limit {
        numbers.push(time)?;
        let next = next_demand(set, &mut work, interrupted, time);
        if next == time {
            let response = time + jitter_of(set, task);
            return Ok(Response {
                answer: Answer::Pass { response },
                evaluations: numbers.len(),
            });
        }
        time = next;
    }
    let evaluations = numbers.len();
    numbers.push(time)?;
    Ok(Response {
        answer: Answer::Fail { chain: numbers },
        evaluations,
    })
}
