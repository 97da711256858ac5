//! The values that a number of a sheet may have.
ghost use Rattle.std.specs.Prelude.{◌≡◌, ◌+◌, ◌-◌, ◌<◌, ◌≤◌, length};
ghost use Rattle.task_sheet.specs.Sheet.{IsValidSheet, task_at};
ghost use Rattle.task_sheet.specs.TaskSet.{IsTaskSet};
ghost use Rattle.limits.specs.Numbers.{HasNumber, IsSpan, at_distance, distance, value_of};
ghost use Rattle.limits.specs.Rooms.{most_len, room_end};

use crate::number::Number;
use ceilings::Tabled;
use other_numbers::last_end;
use task_sheet::{INTERRUPT_FROM, PERIOD_FROM, PERIOD_TO, Section, Sheet};

/// The values that a number may have, from the easiest on.
#[derive(Clone, Copy)]
pub struct Span {
    /// The easiest value.
    pub easiest: u64,
    /// How many there are beyond it.
    pub length: u64,
}

/// The value that is so far from the easiest one.
pub fn at_distance(number: Number, easiest: u64, far: u64) -> u64
    requires fits { easiest + far < 18446744073709551616 }
    ensures { result ≡ at_distance number easiest far }
{
    match number {
        Number::Cost | Number::Jitter | Number::Len { .. } | Number::InterruptCost(_) => easiest
            + far,
        Number::Period | Number::Deadline | Number::InterruptPeriod(_) => {
            easiest.saturating_sub(far)
        }
    }
}

/// How far a value is from the easiest one.
pub(crate) fn distance(number: Number, easiest: u64, value: u64) -> u64
    ensures { result ≡ distance number easiest value }
{
    match number {
        Number::Cost | Number::Jitter | Number::Len { .. } | Number::InterruptCost(_) => {
            value.saturating_sub(easiest)
        }
        Number::Period | Number::Deadline | Number::InterruptPeriod(_) => {
            easiest.saturating_sub(value)
        }
    }
}

/// What a number of a sheet is.
pub fn value_of(sheet: &Sheet, number: Number) -> u64
    requires { HasNumber sheet.now number }
    ensures { result ≡ value_of number sheet.now }
{
    match number {
        Number::Cost => sheet.cost(),
        Number::Period => sheet.period(),
        Number::Deadline => sheet.deadline(),
        Number::Jitter => sheet.jitter(),
        Number::Len { place, .. } => {
            let section = &sheet.sections()[place];
            section.len
        }
        Number::InterruptCost(place) => {
            let interrupt = sheet.interrupts()[place];
            interrupt.cost
        }
        Number::InterruptPeriod(place) => {
            let interrupt = sheet.interrupts()[place];
            interrupt.period
        }
    }
}

// How far the section at a place may reach: up to the next one, or the end of the task.
fn room_end(cost: u64, sections: &[Section], place: usize) -> u64
    requires { place < length sections.now }
    ensures { result ≡ room_end cost sections.now place }
{
    if place + 1 < sections.len() {
        let next = &sections[place + 1];
        next.at
    } else {
        cost
    }
}

/// The greatest length of the section at a place with which so many of those behind it move along, in microseconds: up to
/// where the last of these may reach.
pub fn most_len(sheet: &Sheet, place: usize, along: usize) -> u64
    requires valid { IsValidSheet sheet.now }
    requires place { place + along < length sheet.now.sections }
    ensures is { result ≡ most_len sheet.now.cost sheet.now.sections place along }
    ensures some { 1 ≤ result }
    ensures short { result ≤ 20000000 }
{
    let sections = sheet.sections();
    let section = &sections[place];
    let last = &sections[place + along];
    section.len + (room_end(sheet.cost(), sections, place + along) - (last.at + last.len))
}

// Which values a number of a sheet may have.
fn span_of(sheet: &Sheet, number: Number) -> Span
    requires valid { IsValidSheet sheet.now }
    requires has { HasNumber sheet.now number }
    ensures span { IsSpan sheet.now number result.easiest result.length }
    ensures short { result.easiest + result.length ≤ 20000000 }
{
    match number {
        Number::Cost => {
            let easiest = last_end(sheet).max(1);
            Span {
                easiest,
                length: sheet.period() - easiest,
            }
        }
        Number::Period => {
            let least = sheet.cost().max(sheet.jitter() + 1).max(PERIOD_FROM);
            Span {
                easiest: PERIOD_TO,
                length: PERIOD_TO - least,
            }
        }
        Number::Deadline => Span {
            easiest: PERIOD_TO,
            length: PERIOD_TO - (sheet.jitter() + 1),
        },
        Number::Jitter => Span {
            easiest: 0,
            length: sheet.deadline() - 1,
        },
        Number::Len { place, along } => Span {
            easiest: 1,
            length: most_len(sheet, place, along) - 1,
        },
        Number::InterruptCost(place) => {
            let interrupt = sheet.interrupts()[place];
            Span {
                easiest: 0,
                length: interrupt.period,
            }
        }
        Number::InterruptPeriod(place) => {
            let interrupt = sheet.interrupts()[place];
            Span {
                easiest: PERIOD_TO,
                length: PERIOD_TO - interrupt.cost.max(INTERRUPT_FROM),
            }
        }
    }
}

/// Which values a number of a task of a set may have.
pub fn span_in(set: &Tabled<'_>, task: usize, number: Number) -> Span
    requires task { task < length set.now }
    requires has { HasNumber (task_at set.now task) number }
    ensures span { IsSpan (task_at set.now task) number result.easiest result.length }
    ensures short { result.easiest + result.length ≤ 20000000 }
    ensures kept { IsTaskSet set.now }
{
    span_of(&set.sheets()[task], number)
}
