//! What timers and interrupts take of whoever executes, in a time that may be longer than any window of the analysis.
ghost use Rattle.std.specs.Prelude.{◌≡◌, ◌≤◌, ◌<◌, ◌*◌};
ghost use Rattle.task_sheet.specs.Sheet.{IsValidSheet};
ghost use Rattle.task_sheet.specs.Demand.{interrupts_of, interrupts_within, jobs_within};

use ceilings::Tabled;
use task_sheet::Sheet;

// What comes at most once a period, each late by at most the jitter, takes of a time in microseconds.
fn time_of_jobs(time: u64, jitter: u64, period: u64, cost: u64) -> u128
    requires period { 0 < period }
    requires cost { cost ≤ period }
    requires short { period ≤ 10000000 }
    ensures is { result ≡ jobs_within period jitter time * cost }
    ensures fits { result ≤ 36893488147429103232 }
{
    let jobs = (u128::from(time) + u128::from(jitter)).div_ceil(u128::from(period));
    jobs * u128::from(cost)
}

// What a task's timer and the interrupts on its account take of a time.
fn interrupts_of(sheet: &Sheet, time: u64) -> u128
    requires { IsValidSheet sheet.now }
    ensures is { result ≡ interrupts_of time sheet.now }
    ensures fits { result ≤ 368934881474291032320 }
{
    let mut taken = time_of_jobs(time, sheet.jitter(), sheet.period(), sheet.node().release);
    for interrupt in sheet.interrupts() {
        taken += time_of_jobs(time, 0, interrupt.period, interrupt.cost);
    }
    taken
}

/// What those of all tasks of the set take of a time.
pub fn interrupts_within(set: &Tabled<'_>, time: u64) -> u128
    ensures is { result ≡ interrupts_within set.now time }
    ensures fits { result ≤ 11805916207177313034240 }
{
    let mut taken: u128 = 0;
    for sheet in set.sheets() {
        taken += interrupts_of(sheet, time);
    }
    taken
}
