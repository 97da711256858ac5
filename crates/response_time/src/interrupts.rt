//! What timers and interrupts take of whoever executes.
ghost use Rattle.std.specs.Prelude.{◌≡◌, ◌≤◌, ◌*◌};
ghost use Rattle.task_sheet.specs.Sheet.{IsValidSheet};
ghost use Rattle.task_sheet.specs.declared.set.TheConstants.{TASK_LIMIT};
ghost use Rattle.task_sheet.specs.Demand.{has_interrupts, interrupts_of, interrupts_within};
ghost use Rattle.response_time.specs.declared.workload.TheConstants.{WINDOW_LIMIT};

use ceilings::Tabled;
use task_sheet::Sheet;

/// Whether some task of the set has a timer that takes time, or an interrupt on its account.
pub(crate) fn has_interrupts(set: &Tabled<'_>) -> bool
    ensures { result ≡ has_interrupts set.now }
{
    set.sheets().iter().any(|sheet| sheet.interrupts_some())
}

// What a task's timer and the interrupts on its account take of a window of some microseconds.
fn interrupts_of(sheet: &Sheet, time: u64) -> u64
    requires valid { IsValidSheet sheet.now }
    requires time { time ≤ WINDOW_LIMIT }
    ensures is { result ≡ interrupts_of time sheet.now }
    ensures fits { result ≤ 19 * WINDOW_LIMIT }
{
    let releases = (time + sheet.jitter()).div_ceil(sheet.period());
    let mut taken = releases * sheet.node().release;
    for interrupt in sheet.interrupts() {
        taken += time.div_ceil(interrupt.period) * interrupt.cost;
    }
    taken
}

/// What those of all tasks of the set take of a window.
pub(crate) fn interrupts_within(set: &Tabled<'_>, time: u64) -> u64
    requires time { time ≤ WINDOW_LIMIT }
    ensures is { result ≡ interrupts_within set.now time }
    ensures fits { result ≤ 19 * TASK_LIMIT * WINDOW_LIMIT }
{
    let mut taken = 0;
    for sheet in set.sheets() {
        taken += interrupts_of(sheet, time);
    }
    taken
}
