//! How many threads a set is worth.
ghost use Rattle.std.specs.Prelude.{◌≡◌, ◌≤◌, ◌<◌};
ghost use Rattle.task_sheet.specs.Sheet.{IsValidSheet};
ghost use Rattle.task_sheet.specs.declared.sheet.TheConstants.{PERIOD_TO};
ghost use Rattle.candidate_workers.specs.Threads.{events_within, demands_on, demands_in, threads_worth_of};

use task_sheet::{Sheet, TaskSet};

// With fewer demands than these the test of a set is thought too short for starting threads at each of its levels.
const DEMANDS_WORTH_THREADS: u64 = 2_000_000;

// How often at most a task is released, and the interrupts on its account come, within a time.
fn events_within(sheet: &Sheet, time: u64) -> u64
    requires valid { IsValidSheet sheet.now }
    requires time { time ≤ PERIOD_TO }
    ensures is { result ≡ events_within time sheet.now }
    ensures fits { result ≤ 2000000 }
{
    let mut events = (time + sheet.jitter()).div_ceil(sheet.period());
    for interrupt in sheet.interrupts() {
        events += time.div_ceil(interrupt.period);
    }
    events
}

// A bound on the demands of a question on a task.
fn demands_on(set: &TaskSet, task: &Sheet) -> u64
    requires { IsValidSheet task.now }
    ensures is { result ≡ demands_on set.now task.now }
    ensures fits { result ≤ 100000000 }
{
    let limit = task.limit();
    let mut demands = 2;
    for sheet in set.sheets() {
        demands += events_within(sheet, limit);
    }
    demands
}

// A bound on the demands of a set's test.
fn demands_in(set: &TaskSet) -> u64
    ensures { result ≡ demands_in set.now }
{
    let mut demands = 0;
    for sheet in set.sheets() {
        demands += demands_on(set, sheet);
    }
    set.len() as u64 * demands
}

/// How many of so many workers the test of a set gets: all of them, or 1 where a bound on its demands is below a limit.
/// What the test says is the same for every number.
pub fn threads_worth(set: &TaskSet, workers: usize) -> usize
    requires { 0 < workers }
    ensures is { result ≡ threads_worth_of set.now workers }
    ensures from { 0 < result }
    ensures most { result ≤ workers }
{
    if demands_in(set) < DEMANDS_WORTH_THREADS {
        1
    } else {
        workers
    }
}
