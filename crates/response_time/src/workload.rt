//! The work of one task below others, carried from a window to a longer one.
ghost use Rattle.std.specs.Prelude.{◌≡◌, ◌+◌, ◌*◌, ◌<◌, ◌≤◌, [], ℕ, length, map, sum_by};
ghost use Rattle.task_sheet.specs.Sheet.{IsValidSheet};
ghost use Rattle.task_sheet.specs.declared.set.TheConstants.{TASK_LIMIT};
ghost use Rattle.task_sheet.specs.Indexes.{indexes_of};
ghost use Rattle.task_sheet.specs.Demand.{interference_of};
ghost use Rattle.response_time.specs.declared.workload.TheConstants.{WHOLE, WINDOW_LIMIT};
ghost use Rattle.response_time.specs.Workload.{share_within, work_within, work_of, further_work, counted_to, IsCountedTo, ShareData, IsShare};

use blocking::blocking;
use ceilings::Tabled;
use std::marker::Model;
use task_sheet::{Members, Sheet, TASK_LIMIT};

// How often a task above comes, how late at most, what it takes each time, and the longest window within which no job is
// released but those that are counted, in microseconds.
#[derive(Clone, Copy)]
struct Share {
    period: u64,
    jitter: u64,
    cost: u64,
    due: u64,
}

impl Model for Share {
    ghost Value = { ShareData };

    ghost view = { λ s. record {
      period = s.period;
      jitter = s.jitter;
      cost = s.cost;
      due = s.due;
    } };

    ghost invariant = { λ s. IsShare record {
      period = s.period;
      jitter = s.jitter;
      cost = s.cost;
      due = s.due;
    } };

    ghost inverse = { λ d. record {
      period = d.period;
      jitter = d.jitter;
      cost = d.cost;
      due = d.due;
    } };
}

impl Share {
    // No work at all.
    fn none() -> Share {
        Share {
            period: 1,
            jitter: 0,
            cost: 0,
            due: 0,
        }
    }

    // The share of a task above, its jobs within a window counted, and what these take.
    fn of(sheet: &Sheet, time: u64) -> (Share, u64)
        requires valid { IsValidSheet sheet.now }
        requires time { time ≤ WINDOW_LIMIT }
        ensures is { (t : ℕ) → share_within t result.0 ≡ interference_of sheet.now t }
        ensures counted { IsCountedTo time result.0 }
        ensures work { result.1 ≡ share_within time result.0 }
        ensures fits { result.1 ≤ 3 * WINDOW_LIMIT }
    {
        let jitter = sheet.jitter();
        let period = sheet.period();
        let cost = sheet.cost();
        let jobs = (time + jitter).div_ceil(period);
        let share = Share {
            period,
            jitter,
            cost,
            due: jobs * period - jitter,
        };
        (share, jobs * cost)
    }

    // Counts the jobs within a window: what those take that were not counted. Most often there are none, or one.
    #[inline(always)]
    fn count_to(&mut self, time: u64) -> u64
        requires { time ≤ WINDOW_LIMIT }
        ensures counted { self.new ≡ counted_to time self.old }
        ensures work { result ≡ further_work time self.old }
        ensures fits { result ≤ 3 * WINDOW_LIMIT }
    {
        if time <= self.due {
            return 0;
        }
        if time <= self.due + self.period {
            self.due += self.period;
            return self.cost;
        }
        let jobs = (time - self.due).div_ceil(self.period);
        self.due += jobs * self.period;
        jobs * self.cost
    }

    // What it takes of each window at least, in parts of the whole, rounded down.
    fn parts(&self) -> u64
        ensures fits { result ≤ WHOLE }
        ensures least { (time : ℕ) → time * result ≤ WHOLE * share_within time self.now }
    {
        self.cost * WHOLE / self.period
    }
}

// The longest window that serves a task, in microseconds: no deadline is past the longest period.
const WINDOW_LIMIT: u64 = 10_000_000;

// How many parts a window is thought to have.
const WHOLE: u64 = 1 << 32;

// Counts the jobs of the shares within a window: what those take that were not counted.
#[inline(always)]
fn count_all(shares: &mut [Share], time: u64) -> u64
    requires few { length shares.old ≤ TASK_LIMIT }
    requires time { time ≤ WINDOW_LIMIT }
    ensures counted { shares.new ≡ map (counted_to time) shares.old }
    ensures work { result ≡ sum_by (further_work time) shares.old }
    ensures fits { result ≤ 3 * TASK_LIMIT * WINDOW_LIMIT }
{
    let mut work = 0;
    for share in shares.iter_mut() {
        work += share.count_to(time);
    }
    work
}

/// What must be executed for a task: at least once its cost and its blocking, and the shares of the tasks above it. That is
/// its demand but for timers and interrupts. It is carried from a window to a longer one, so that only what is released
/// between the two is counted. A task above that releases nothing more up to a limit has no share: its jobs count once.
#[derive(Drop)]
pub(crate) struct Workload {
    always: u64,
    shares: [Share; TASK_LIMIT],
    count: usize,
    time: u64,
    total: u64,
}

impl Model for Workload {
    ghost use Rattle.response_time.specs.Workload.{WorkloadData};

    ghost Value = { WorkloadData };

    ghost use Rattle.response_time.specs.WorkloadFields.{workload_of, IsKept};

    ghost view = { workload_of };

    ghost invariant = { IsKept };
}

impl Workload {
    /// The work of a task with these above it, in windows from the first one up to a limit.
    pub(crate) fn new(
        set: &Tabled<'_>,
        task: usize,
        above: Members,
        first: u64,
        limit: u64,
    ) -> Workload
        requires task { task < length set.now }
        requires first { first ≤ WINDOW_LIMIT }
        ensures is { (time : ℕ) → first ≤ time → time ≤ limit →
            work_within time result ≡ work_of set.now task (indexes_of above) time }
        ensures start { result.time ≡ first }
    {
        let sheets = set.sheets();
        let always = sheets[task].cost() + blocking(set, task, above);
        let mut work = Workload::of(always, first);
        for (index, sheet) in sheets.iter().enumerate() {
            if above.has(index) {
                work.add(sheet, limit);
            }
        }
        work
    }

    // What is executed once, and nothing else.
    fn of(always: u64, time: u64) -> Workload
        requires always { always ≤ 2 * WINDOW_LIMIT }
        requires time { time ≤ WINDOW_LIMIT }
        ensures { result ≡ record { always = always; shares = []; time = time; total = always } }
    {
        Workload {
            always,
            shares: [Share::none(); TASK_LIMIT],
            count: 0,
            time,
            total: always,
        }
    }

    // Adds what a task above executes in windows up to the limit.
    fn add(&mut self, sheet: &Sheet, limit: u64)
        requires sheet { IsValidSheet sheet.now }
        requires room { length self.old.shares < TASK_LIMIT }
        requires fits { self.old.total + 3 * WINDOW_LIMIT ≤ (2 + 3 * TASK_LIMIT) * WINDOW_LIMIT }
        ensures is { (time : ℕ) → self.old.time ≤ time → time ≤ limit →
            work_within time self.new ≡ work_within time self.old + interference_of sheet.now time }
        ensures time { self.new.time ≡ self.old.time }
        ensures room { length self.new.shares ≤ length self.old.shares + 1 }
        ensures fits { self.new.total ≤ self.old.total + 3 * WINDOW_LIMIT }
    {
        let (share, work) = Share::of(sheet, self.time);
        self.total += work;
        if share.due < limit {
            self.shares[self.count] = share;
            self.count += 1;
        } else {
            self.always += work;
        }
    }

    /// The work in a window of some microseconds, which is no shorter than the last one.
    pub(crate) fn advance(&mut self, time: u64) -> u64
        requires time { time ≤ WINDOW_LIMIT }
        requires longer { self.old.time ≤ time }
        ensures is { result ≡ work_within time self.old }
        ensures fits { result ≤ (2 + 6 * TASK_LIMIT) * WINDOW_LIMIT }
        ensures same { (t : ℕ) → work_within t self.new ≡ work_within t self.old }
        ensures time { self.new.time ≡ time }
    {
        let work = count_all(&mut self.shares[..self.count], time);
        self.total += work;
        self.time = time;
        self.total
    }

    // What is executed once in each window at least, and in parts of the whole what the rest takes of it at least:
    // tasks whose period is at least the split count once, the others by parts.
    fn least(&self, split: u64) -> (u64, u64)
        ensures once { result.0 ≤ (2 + 4 * TASK_LIMIT) * WINDOW_LIMIT }
        ensures parts { result.1 ≤ TASK_LIMIT * WHOLE }
        ensures least { (time : ℕ) → 1 ≤ time
            → time * result.1 + WHOLE * result.0 ≤ WHOLE * work_within time self.now }
    {
        let mut once = self.always;
        let mut parts = 0;
        for share in &self.shares[..self.count] {
            if share.period >= split {
                once += share.cost;
            } else {
                parts += share.parts();
            }
        }
        (once, parts)
    }

    /// A window below which none covers its work. Each window has to hold what is executed once beside the parts of
    /// it that the rest takes.
    pub(crate) fn least_window(&self, split: u64) -> u64
        ensures { (time : ℕ) → 1 ≤ time → work_within time self.now ≤ time → result ≤ time }
    {
        let (once, parts) = self.least(split);
        if parts >= WHOLE {
            return 1;
        }
        (once * WHOLE).div_ceil(WHOLE - parts)
    }

    /// A window below which none covers the work: the first that its own least window is not past, or one past the
    /// limit.
    pub(crate) fn first_window(&self, limit: u64) -> u64
        requires { limit ≤ WINDOW_LIMIT }
        ensures positive { 1 ≤ result }
        ensures least { (time : ℕ) → 1 ≤ time → work_within time self.now ≤ time → result ≤ time }
    {
        let mut window = 1;
        while window <= limit {
            let next = self.least_window(window);
            if next <= window {
                return window;
            }
            window = next;
        }
        window
    }
}
