//! What the demand of a task and its jitter are made of.
ghost use Rattle.std.specs.Prelude.{◌≡◌, ◌++◌, ◌<◌, ◌≤◌, length, map, All, IfOk, OnOk};
ghost use Rattle.task_sheet.specs.Sheet.{IsInterrupt};
ghost use Rattle.task_sheet.specs.declared.sheet.TheConstants.{PERIOD_TO};
ghost use Rattle.task_sheet.specs.Indexes.{indexes_of};
ghost use Rattle.explain.specs.Parts.{above_at, all_interrupts, interruption_at, timer_within, timers_within, IsPartsOf, AboveData, PartsData};

use crate::blocker::{Blocker, first_blocker};
use ceilings::Tabled;
use std::alloc::{AllocError, Global};
use std::marker::Model;
use task_sheet::{Interrupt, Members, Sheet};

/// The jobs of a task above, by its index, and what they execute in microseconds.
#[derive(Clone, Copy)]
pub struct Above {
    pub task: usize,
    pub jobs: u64,
    pub time: u64,
}

impl Model for Above {
    ghost Value = { AboveData };

    ghost view = { λ a. record { task = a.task; jobs = a.jobs; time = a.time } };

    ghost inverse = { λ a. record { task = a.task; jobs = a.jobs; time = a.time } };
}

/// The jobs of an interrupt, and what they execute in microseconds.
#[derive(Clone, Copy)]
pub struct Interruption {
    pub jobs: u64,
    pub time: u64,
}

/// The parts of a time, in microseconds: the task's cost, its jitter, the section that blocks it longest, the jobs of each
/// task above it, the timers of all tasks, and each interrupt of the set, by the rank of the task on whose account it is.
#[derive(Drop)]
pub struct Parts {
    pub cost: u64,
    pub jitter: u64,
    pub blocker: Option<Blocker>,
    pub above: Vec<Above>,
    pub timers: u64,
    pub interrupts: Vec<Interruption>,
}

impl Model for Parts {
    ghost Value = { PartsData };

    ghost view = { λ p. record { cost = p.cost; jitter = p.jitter; blocker = p.blocker; above = p.above.items; timers = p.timers; interrupts = p.interrupts.items } };
}

// The part of the task at an index, in a window.
fn above_at(set: &Tabled<'_>, task: usize, time: u64) -> Above
    requires task { task < length set.now }
    requires time { time ≤ PERIOD_TO }
    ensures { result ≡ above_at set.now time task }
{
    let sheet = &set.sheets()[task];
    let jobs = (time + sheet.jitter()).div_ceil(sheet.period());
    Above {
        task,
        jobs,
        time: jobs * sheet.cost(),
    }
}

// The parts of the tasks above, in their order, in a window of `time` microseconds. The error is out of memory.
fn above_parts(
    alloc: Global,
    set: &Tabled<'_>,
    order: &[usize],
    time: u64,
) -> Result<Vec<Above>, AllocError>
    requires within { All (λ task. task < length set.now) order.now }
    requires time { time ≤ PERIOD_TO }
    ensures { IfOk result (λ above. above.items ≡ map (above_at set.now time) order.now) }
{
    let mut above = Vec::with_capacity(alloc, order.len())?;
    for task in order {
        above.push(above_at(set, *task, time))?;
    }
    Ok(above)
}

// What a task's timer takes in a window.
fn timer_within(sheet: &Sheet, time: u64) -> u64
    requires { time ≤ PERIOD_TO }
    ensures is { result ≡ timer_within time sheet.now }
    ensures short { result ≤ 20000000000 }
{
    // The sheet is valid: the proof has it from its name.
    let _ = sheet.name();
    let jobs = (time + sheet.jitter()).div_ceil(sheet.period());
    jobs * sheet.node().release
}

// What the timers of all tasks take in a window.
fn timers_within(set: &Tabled<'_>, time: u64) -> u64
    requires { time ≤ PERIOD_TO }
    ensures { result ≡ timers_within set.now time }
{
    let mut total = 0;
    for sheet in set.sheets() {
        total += timer_within(sheet, time);
    }
    total
}

// The part of an interrupt in a window.
fn interruption_at(interrupt: Interrupt, time: u64) -> Interruption
    requires valid { IsInterrupt interrupt }
    requires time { time ≤ PERIOD_TO }
    ensures { result ≡ interruption_at time interrupt }
{
    let jobs = time.div_ceil(interrupt.period);
    Interruption {
        jobs,
        time: jobs * interrupt.cost,
    }
}

// Adds the parts of the interrupts on a task's account, in a window.
fn push_interruptions(
    parts: &mut Vec<Interruption>,
    sheet: &Sheet,
    time: u64,
) -> Result<(), AllocError>
    requires { time ≤ PERIOD_TO }
    ensures { OnOk result (parts.new.items ≡ parts.old.items
        ++ map (interruption_at time) sheet.now.interrupts) }
{
    for interrupt in sheet.interrupts() {
        parts.push(interruption_at(*interrupt, time))?;
    }
    Ok(())
}

// The parts of the interrupts of a set, by the rank of their tasks, in a window. The error is out of memory.
fn interrupt_parts(
    alloc: Global,
    set: &Tabled<'_>,
    time: u64,
) -> Result<Vec<Interruption>, AllocError>
    requires { time ≤ PERIOD_TO }
    ensures { IfOk result (λ parts. parts.items
        ≡ map (interruption_at time) (all_interrupts set.now)) }
{
    let mut parts = Vec::new(alloc);
    for sheet in set.sheets() {
        push_interruptions(&mut parts, sheet, time)?;
    }
    Ok(parts)
}

/// The parts of what a task demands in a window of `time` microseconds with these above it, and of its jitter; those
/// above are listed in their order. The error is out of memory.
pub fn parts_of(
    alloc: Global,
    set: &Tabled<'_>,
    task: usize,
    above: Members,
    order: &[usize],
    time: u64,
) -> Result<Parts, AllocError>
    requires task { task < length set.now }
    requires within { All (λ task. task < length set.now) order.now }
    requires time { time ≤ PERIOD_TO }
    ensures { IfOk result (λ parts. IsPartsOf set.now task
        (indexes_of above) order.now time parts) }
{
    let above_it = above_parts(alloc, set, order, time)?;
    let interrupts = interrupt_parts(alloc, set, time)?;
    let sheet = &set.sheets()[task];
    Ok(Parts {
        cost: sheet.cost(),
        jitter: sheet.jitter(),
        blocker: first_blocker(set, task, above),
        above: above_it,
        timers: timers_within(set, time),
        interrupts,
    })
}
