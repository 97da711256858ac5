//! The load of a set.
ghost use Rattle.std.specs.Prelude.{◌≡◌, ◌≤◌, ◌+◌, ◌++◌, All, IfOk, OnOk, length, map};
ghost use Rattle.explain.specs.Load.{interrupt_share, load_of, set_shares, shares_of, task_share, timer_share};
ghost use Rattle.loads.specs.Shares.{IsShare};
ghost use Rattle.task_sheet.specs.Sheet.{IsInterrupt};

use loads::{Share, load_in};
use std::alloc::{AllocError, Global};
use task_sheet::{Interrupt, Sheet, TaskSet};

// What a task takes in each of its periods.
fn task_share(sheet: &Sheet) -> Share
    ensures is { result ≡ task_share sheet.now }
    ensures valid { IsShare result }
{
    // The sheet is valid: the proof has it from its name.
    let _ = sheet.name();
    Share {
        cost: sheet.cost(),
        period: sheet.period(),
    }
}

// What its timer takes.
fn timer_share(sheet: &Sheet) -> Share
    ensures is { result ≡ timer_share sheet.now }
    ensures valid { IsShare result }
{
    // The sheet is valid: the proof has it from its name.
    let _ = sheet.name();
    Share {
        cost: sheet.node().release,
        period: sheet.period(),
    }
}

// Adds what interrupts take.
fn push_interrupts(shares: &mut Vec<Share>, interrupts: &[Interrupt]) -> Result<(), AllocError>
    requires valid { All IsShare shares.old.items }
    requires sound { All IsInterrupt interrupts.now }
    ensures are { OnOk result
        (shares.new.items ≡ shares.old.items ++ map interrupt_share interrupts.now) }
    ensures valid { OnOk result (All IsShare shares.new.items) }
{
    for interrupt in interrupts {
        shares.push(Share {
            cost: interrupt.cost,
            period: interrupt.period,
        })?;
    }
    Ok(())
}

// Adds what a task takes, its timer, and the interrupts on its account.
fn push_sheet(shares: &mut Vec<Share>, sheet: &Sheet) -> Result<(), AllocError>
    requires valid { All IsShare shares.old.items }
    ensures are { OnOk result (shares.new.items ≡ shares.old.items ++ shares_of sheet.now) }
    ensures valid { OnOk result (All IsShare shares.new.items) }
    ensures few { OnOk result (length shares.new.items ≤ length shares.old.items + 10) }
{
    shares.push(task_share(sheet))?;
    shares.push(timer_share(sheet))?;
    push_interrupts(shares, sheet.interrupts())
}

/// The load of a set: what its tasks, their timers and the interrupts take of the processor, each its cost in each of its
/// periods, in millionths, added exactly and then rounded up once. The error is out of memory.
pub fn load(alloc: Global, set: &TaskSet) -> Result<u64, AllocError>
    ensures { IfOk result (λ load. load ≡ load_of set.now) }
{
    let mut shares = Vec::new(alloc);
    for sheet in set.sheets() {
        push_sheet(&mut shares, sheet)?;
    }
    load_in(alloc, 1_000_000, &shares)
}
