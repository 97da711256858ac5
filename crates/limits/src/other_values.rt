//! Sets with another value of one number of a task.
ghost use Rattle.std.specs.Prelude.{◌≡◌, ◌↔◌, ◌+◌, ◌-◌, ◌<◌, ◌≤◌, ◌++◌, drop, length, slice_set, IfOk, IsTrue, OnOk};
ghost use Rattle.task_sheet.specs.Sheet.{AreInterrupts, IsValidSheet, interrupted, task_at};
ghost use Rattle.other_numbers.specs.Remade.{remade};
ghost use Rattle.limits.specs.Numbers.{KeepsSections, HasNumber, with_interrupt_cost, with_interrupt_period, moved, section_at, with_len, with_number, numbered, MayHave};

use crate::number::Number;
use ceilings::Tabled;
use other_numbers::{Times, copy_sections, remade, times_of};
use std::alloc::{AllocError, Global};
use task_sheet::{Interrupt, Section, SetCause, Sheet, TaskSet, copy_sheets};

// Where a section begins that is among the first so many, with so much more and so much less before it.
fn moved_at(along: usize, more: u64, less: u64, at: u64) -> u64
    requires { at + more < 18446744073709551616 }
    ensures none { along ≡ 0 → result ≡ at }
    ensures some { 0 < along → result ≡ at + more - less }
{
    if along == 0 {
        at
    } else {
        (at + more).saturating_sub(less)
    }
}

// Adds a task's sections from a place on, the first so many of them so.
fn push_moved(
    alloc: Global,
    others: &mut Vec<Section>,
    sheet: &Sheet,
    from: usize,
    along: usize,
    more: u64,
    less: u64,
) -> Result<(), AllocError>
    requires valid { IsValidSheet sheet.now }
    requires short { more ≤ 10000000 }
    ensures { OnOk result (others.new.items
        ≡ others.old.items ++ moved along more less (drop from sheet.now.sections)) }
{
    let sections = sheet.sections();
    let mut left = along;
    for index in from..sections.len() {
        let section = &sections[index];
        let locks = Vec::from_slice(alloc, &section.locks)?;
        let at = moved_at(left, more, less, section.at);
        let len = section.len;
        others.push(Section { locks, at, len })?;
        left = left.saturating_sub(1);
    }
    Ok(())
}

// The sections, with another length of the one at a place; none moves.
fn with_len_of(
    alloc: Global,
    sections: &[Section],
    place: usize,
    len: u64,
) -> Result<Vec<Section>, AllocError>
    requires { place < length sections.now }
    ensures { IfOk result (λ others. others.items
        ≡ slice_set sections.now place (record (section_at sections.now place) { len = len })) }
{
    let mut others = copy_sections(alloc, sections)?;
    others[place].len = len;
    Ok(others)
}

// A task's sections, with another length of the one at a place, with which so many of those behind it move along.
fn with_len(
    alloc: Global,
    sheet: &Sheet,
    place: usize,
    along: usize,
    len: u64,
) -> Result<Vec<Section>, AllocError>
    requires valid { IsValidSheet sheet.now }
    requires place { place < length sheet.now.sections }
    requires short { len ≤ 10000000 }
    ensures { IfOk result (λ others. others.items
        ≡ with_len sheet.now.sections place along len) }
{
    let sections = sheet.sections();
    let section = &sections[place];
    let less = section.len;
    let mut others = with_len_of(alloc, &sections[..place + 1], place, len)?;
    push_moved(alloc, &mut others, sheet, place + 1, along, len, less)?;
    Ok(others)
}

// The interrupts, with another cost of the one at a place.
fn with_interrupt_cost(
    alloc: Global,
    interrupts: &[Interrupt],
    place: usize,
    cost: u64,
) -> Result<Vec<Interrupt>, AllocError>
    requires { place < length interrupts.now }
    ensures { IfOk result (λ others. others.items ≡ with_interrupt_cost interrupts.now place cost) }
{
    let mut others = Vec::from_slice(alloc, interrupts)?;
    others[place].cost = cost;
    Ok(others)
}

// And with another period.
fn with_interrupt_period(
    alloc: Global,
    interrupts: &[Interrupt],
    place: usize,
    period: u64,
) -> Result<Vec<Interrupt>, AllocError>
    requires { place < length interrupts.now }
    ensures { IfOk result (λ others. others.items
        ≡ with_interrupt_period interrupts.now place period) }
{
    let mut others = Vec::from_slice(alloc, interrupts)?;
    others[place].period = period;
    Ok(others)
}

/// The sheet with these times and sections.
pub(crate) fn with_parts(
    alloc: Global,
    sheet: &Sheet,
    times: Times,
    sections: Vec<Section>,
) -> Result<Sheet, AllocError>
    requires { IsValidSheet (remade sheet.now times.period times.deadline times.cost times.jitter sections.items sheet.now.interrupts) }
    ensures { IfOk result (λ other. other
        ≡ remade sheet.now times.period times.deadline times.cost times.jitter sections.items sheet.now.interrupts) }
{
    let outranks = sheet.outranks().copy(alloc)?;
    let interrupts = Vec::from_slice(alloc, sheet.interrupts())?;
    Ok(remade(sheet, times, sections, outranks, interrupts))
}

// The sheet with these times.
fn with_times(alloc: Global, sheet: &Sheet, times: Times) -> Result<Sheet, AllocError>
    requires { IsValidSheet (remade sheet.now times.period times.deadline times.cost times.jitter sheet.now.sections sheet.now.interrupts) }
    ensures { IfOk result (λ other. other
        ≡ remade sheet.now times.period times.deadline times.cost times.jitter sheet.now.sections sheet.now.interrupts) }
{
    let sections = copy_sections(alloc, sheet.sections())?;
    with_parts(alloc, sheet, times, sections)
}

// The sheet with these interrupts on its account.
fn with_interrupts(
    alloc: Global,
    sheet: &Sheet,
    interrupts: Vec<Interrupt>,
) -> Result<Sheet, AllocError>
    requires { AreInterrupts interrupts.items }
    ensures { IfOk result (λ other. other ≡ interrupted sheet.now interrupts.items) }
{
    let other = sheet.copy(alloc)?;
    Ok(other.interrupted(interrupts))
}

// The sheet with another value of a number.
fn with_number(
    alloc: Global,
    sheet: &Sheet,
    number: Number,
    value: u64,
) -> Result<Sheet, AllocError>
    requires valid { IsValidSheet sheet.now }
    requires has { HasNumber sheet.now number }
    requires may { IsValidSheet (with_number number sheet.now value) }
    ensures { IfOk result (λ other. other ≡ with_number number sheet.now value) }
{
    let mut times = times_of(sheet);
    match number {
        Number::Cost => times.cost = value,
        Number::Period => {
            times.deadline = times.deadline.min(value);
            times.period = value;
        }
        Number::Deadline => {
            times.period = times.period.max(value);
            times.deadline = value;
        }
        Number::Jitter => times.jitter = value,
        Number::Len { place, along } => {
            let sections = with_len(alloc, sheet, place, along, value)?;
            return with_parts(alloc, sheet, times, sections);
        }
        Number::InterruptCost(place) => {
            let interrupts = with_interrupt_cost(alloc, sheet.interrupts(), place, value)?;
            return with_interrupts(alloc, sheet, interrupts);
        }
        Number::InterruptPeriod(place) => {
            let interrupts = with_interrupt_period(alloc, sheet.interrupts(), place, value)?;
            return with_interrupts(alloc, sheet, interrupts);
        }
    }
    with_times(alloc, sheet, times)
}

/// The set with another value of a number of one task. The error is out of memory.
pub fn numbered(
    alloc: Global,
    set: &Tabled<'_>,
    task: usize,
    number: Number,
    value: u64,
) -> Result<TaskSet, AllocError>
    requires task { task < length set.now }
    requires has { HasNumber (task_at set.now task) number }
    requires may { MayHave set.now task number value }
    ensures { IfOk result (λ other. other ≡ numbered set.now task number value) }
{
    let mut sheets = copy_sheets(alloc, set.sheets())?;
    sheets[task] = with_number(alloc, &set.sheets()[task], number, value)?;
    match TaskSet::new(alloc, sheets) {
        Ok(other) => Ok(other),
        Err(fault) => match fault.cause {
            SetCause::OutOfMemory => Err(AllocError),
            _ => unreachable!(),
        },
    }
}

/// Whether another value of the number leaves the sections as they are.
pub fn keeps_sections(number: Number) -> bool
    ensures { IsTrue result ↔ KeepsSections number }
{
    match number {
        Number::Cost => true,
        Number::Period => true,
        Number::Deadline => true,
        Number::Jitter => true,
        Number::Len { .. } => false,
        Number::InterruptCost(_) => true,
        Number::InterruptPeriod(_) => true,
    }
}
