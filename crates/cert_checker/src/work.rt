//! The work requested of a task and of those above it in a window, and what timers and interrupts take of it, in
//! microseconds.
ghost use Rattle.std.specs.Prelude.{◌≡◌, ◌+◌, ◌*◌, ◌<◌, ◌≤◌, length};
ghost use Rattle.task_sheet.specs.Sheet.{IsInterrupt, IsValidSheet, task_at};
ghost use Rattle.task_sheet.specs.declared.sheet.TheConstants.{PERIOD_TO};
ghost use Rattle.task_sheet.specs.Indexes.{indexes_of};
ghost use Rattle.task_sheet.specs.Locks.{names_lock, uses, shares_lock, reaches};
ghost use Rattle.task_sheet.specs.Demand.{interference_within, releases_within, limit_of, longest_reached, blocking_of, interrupt_within, interrupts_of, interrupts_within};
ghost use Rattle.cert_checker.specs.Work.{demand_from};

use task_sheet::{Interrupt, Members, Name, Section, Sheet, TaskSet};

/// The longest time that serves a task: what its jitter leaves of its deadline.
pub fn limit_of(sheet: &Sheet) -> u64
    ensures { result ≡ limit_of sheet.now }
{
    sheet.limit()
}

// How many jobs of a task are released within a window.
fn releases_within(sheet: &Sheet, time: u64) -> u64
    requires sheet { IsValidSheet sheet.now }
    requires time { time ≤ PERIOD_TO }
    ensures { result ≡ releases_within sheet.now time }
{
    (time + sheet.jitter()).div_ceil(sheet.period())
}

// Whether a section names a lock.
fn names(section: &Section, lock: Name) -> bool
    ensures { result ≡ names_lock section.now lock }
{
    section.locks.iter().any(|name| *name == lock)
}

// Whether some section of a task names a lock.
fn uses(sheet: &Sheet, lock: Name) -> bool
    ensures { result ≡ uses sheet.now lock }
{
    sheet.sections().iter().any(|section| names(section, lock))
}

// Whether a task uses one of the section's locks.
fn shares(sheet: &Sheet, section: &Section) -> bool
    ensures { result ≡ shares_lock sheet.now section.now }
{
    section.locks.iter().any(|lock| uses(sheet, *lock))
}

// Whether one of the members uses one of the section's locks.
fn reaches(set: &TaskSet, section: &Section, members: Members) -> bool
    ensures { result ≡ reaches set.now (indexes_of members) section.now }
{
    for (k, sheet) in set.sheets().iter().enumerate() {
        if members.has(k) && shares(sheet, section) {
            return true;
        }
    }
    false
}

// The longest section of a task that the members reach.
fn longest(set: &TaskSet, sheet: &Sheet, members: Members) -> u64
    ensures { result ≡ longest_reached set.now (indexes_of members) sheet.now }
{
    let mut longest = 0;
    for section in sheet.sections() {
        if reaches(set, section, members) {
            longest = longest.max(section.len);
        }
    }
    longest
}

// The longest section of a task that is neither `task` nor above it, which these reach (Sha,
// Rajkumar, Lehoczky 1990).
fn blocking(set: &TaskSet, task: usize, above: Members) -> u64
    requires { task < length set.now }
    ensures { result ≡ blocking_of set.now task (indexes_of above) }
{
    let sheets = set.sheets();
    let members = above.with(task);
    let mut longest = 0;
    for (k, sheet) in sheets.iter().enumerate() {
        if !members.has(k) {
            longest = longest.max(self::longest(set, sheet, members));
        }
    }
    longest
}

/// The part of the demand that does not grow with the window: the task's cost and its blocking.
pub fn base_demand(set: &TaskSet, task: usize, above: Members) -> u64
    requires { task < length set.now }
    ensures is { result
        ≡ (task_at set.now task).cost + blocking_of set.now task (indexes_of above) }
    ensures fits { result ≤ 20000000 }
{
    set.sheets()[task].cost() + blocking(set, task, above)
}

// What the jobs released above within a window cost (Audsley et al. 1993).
fn interference_within(set: &TaskSet, above: Members, time: u64) -> u64
    requires { time ≤ PERIOD_TO }
    ensures is { result ≡ interference_within set.now (indexes_of above) time }
    ensures fits { result ≤ 960000000 }
{
    let mut taken = 0;
    for (h, sheet) in set.sheets().iter().enumerate() {
        if above.has(h) {
            taken += releases_within(sheet, time) * sheet.cost();
        }
    }
    taken
}

// What an interrupt takes within a window: it comes at most once a period.
fn interrupt_within(interrupt: &Interrupt, time: u64) -> u64
    requires interrupt { IsInterrupt interrupt.now }
    requires time { time ≤ PERIOD_TO }
    ensures is { result ≡ interrupt_within time interrupt.now }
    ensures fits { result ≤ 20000000 }
{
    time.div_ceil(interrupt.period) * interrupt.cost
}

// What a task's timer and the interrupts on its account take within a window, of whoever executes.
fn interrupts_of(sheet: &Sheet, time: u64) -> u64
    requires sheet { IsValidSheet sheet.now }
    requires time { time ≤ PERIOD_TO }
    ensures is { result ≡ interrupts_of time sheet.now }
    ensures fits { result ≤ 190000000 }
{
    let mut taken = releases_within(sheet, time) * sheet.node().release;
    for interrupt in sheet.interrupts() {
        taken += interrupt_within(interrupt, time);
    }
    taken
}

// What those of all tasks take within a window (Burns, Wellings).
fn interrupts_within(set: &TaskSet, time: u64) -> u64
    requires { time ≤ PERIOD_TO }
    ensures is { result ≡ interrupts_within set.now time }
    ensures fits { result ≤ 6080000000 }
{
    let mut taken = 0;
    for sheet in set.sheets() {
        taken += interrupts_of(sheet, time);
    }
    taken
}

/// What must be executed in a window: the base demand, the jobs released above within it, and what
/// timers and interrupts take.
pub fn demand_from(set: &TaskSet, above: Members, once: u64, time: u64) -> u64
    requires once { once ≤ 20000000 }
    requires time { time ≤ PERIOD_TO }
    ensures { result ≡ demand_from set.now (indexes_of above) once time }
{
    once + interference_within(set, above, time) + interrupts_within(set, time)
}
