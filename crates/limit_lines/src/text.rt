//! The lines of a task, and the last one.
ghost use Rattle.std.specs.Prelude.{◌≡◌, ◌+◌, ◌++◌, ◌<◌, ◌==◌, ℕ, length, codes, option_map, IfOk, IfSome, OnOk, if◌then◌else◌, string_bytes};
ghost use Rattle.task_sheet.specs.declared.node.TheConstants.{INTERRUPT_FROM};
ghost use Rattle.task_sheet.specs.Sheet.{IsValidSheet, task_at};
ghost use Rattle.task_sheet.specs.Orders.{IsFeasible, IsOrder};
ghost use Rattle.task_sheet.specs.declared.sheet.TheConstants.{SECTION_LIMIT};
ghost use Rattle.lines.specs.Naming.{name_at};
ghost use Rattle.limits.specs.Numbers.{AnswersFurthest, HasNumber, MayHave, numbered, with_number};
ghost use Rattle.limit_lines.specs.LimitLines.{AnswersFactorIn, AnswersIn, AreTaskLines, IsLast, IsNumberLine, along_words, before_words, end_words, factor_line, held_words, helps_own, is_told, keeps_period, label_of, leaves_own, len_at, less_of, moved_words, node_part, number_at, number_line, slack_in, slack_line, slack_of, stays, word_if, written_if};

use assignment::Place;
use ceilings::Tabled;
use factor::{Slowdown, factor, greatest_slowdown};
use limits::{Number, furthest, furthest_from, furthest_in_order, most_len, value_of};
use lines::{push_name, push_some};
use owners::{Owner, along, is_clocked};
use std::alloc::{AllocError, Global};
use task_sheet::{INTERRUPT_FROM, PERIOD_FROM, Sheet, TaskSet};

// The length of the section at a place of a task, with those behind it that move along.
pub(crate) fn len_at(owners: &[Owner], sheet: &Sheet, place: usize) -> Number
    requires valid { IsValidSheet sheet.now }
    requires place { place < length sheet.now.sections }
    ensures same { result ≡ len_at owners.now sheet.now place }
    ensures has { HasNumber sheet.now result }
{
    let behind = sheet.sections().len() - (place + 1);
    let along = along(owners, sheet.name().bytes(), place, behind);
    Number::Len { place, along }
}

// The number of a task that stands at a place among its numbers, from 0.
fn number_at(owners: &[Owner], sheet: &Sheet, place: usize) -> Number
    requires valid { IsValidSheet sheet.now }
    requires place { place < 4 + length sheet.now.sections }
    ensures same { result ≡ number_at owners.now sheet.now place }
    ensures has { HasNumber sheet.now result }
{
    match place {
        0 => Number::Cost,
        1 => Number::Period,
        2 => Number::Deadline,
        3 => Number::Jitter,
        _ => len_at(owners, sheet, place - 4),
    }
}

// What a line calls a number.
pub(crate) fn push_label(text: &mut String, number: Number) -> Result<(), AllocError>
    requires { (place along : ℕ) → number ≡ Number.Len place along → place < SECTION_LIMIT }
    ensures { OnOk result (string_bytes text.new ≡ string_bytes text.old ++ label_of number) }
{
    match number {
        Number::Cost => text.push_str(" cost "),
        Number::Period => text.push_str(" period "),
        Number::Deadline => text.push_str(" deadline "),
        Number::Jitter => text.push_str(" jitter "),
        Number::Len { place, .. } => {
            let count = place as u64 + 1;
            write!(text, " section {count} len ")
        }
        Number::InterruptCost(_) => text.push_str(" cost "),
        Number::InterruptPeriod(_) => text.push_str(" period "),
    }
}

// What of a number of a task is the node's, in microseconds.
pub(crate) fn node_part(sheet: &Sheet, number: Number) -> u64
    requires valid { IsValidSheet sheet.now }
    requires has { HasNumber sheet.now number }
    ensures { result ≡ node_part number sheet.now }
{
    let node = sheet.node();
    match number {
        Number::Cost => sheet.overhead(),
        Number::Period | Number::Deadline => 0,
        Number::InterruptCost(_) | Number::InterruptPeriod(_) => 0,
        Number::Jitter => node.late,
        Number::Len { place, .. } => {
            let section = &sheet.sections()[place];
            node.lock * section.locks.len() as u64
        }
    }
}

// Less this, where there is a number.
fn less_of(part: u64, number: Option<u64>) -> Option<u64>
    ensures { result ≡ less_of part number }
{
    match number {
        Some(value) => Some(value.saturating_sub(part)),
        None => None,
    }
}

// Whether a value leaves a number of the task's own, where this is the node's.
pub(crate) fn leaves_own(number: Number, part: u64, value: u64) -> bool
    ensures { result ≡ leaves_own number part value }
{
    match number {
        Number::Cost | Number::Len { .. } => part < value,
        Number::Period | Number::Deadline => true,
        Number::Jitter => part <= value,
        Number::InterruptCost(_) | Number::InterruptPeriod(_) => true,
    }
}

// A number and a space; nothing for none.
fn push_before(text: &mut String, number: Option<u64>) -> Result<(), AllocError>
    ensures { OnOk result (string_bytes text.new ≡ string_bytes text.old ++ before_words number) }
{
    match number {
        Some(number) => write!(text, "{number} "),
        None => Ok(()),
    }
}

// A number stays as it was, where there is one.
fn stays(was: u64, number: Option<u64>) -> bool
    ensures { result ≡ stays was number }
{
    match number {
        Some(number) => number == was,
        None => true,
    }
}

// What another number is with these values; nothing where it stays as it was with both.
fn push_moved(
    text: &mut String,
    other: Number,
    was: u64,
    own: Option<u64>,
    most: u64,
) -> Result<(), AllocError>
    requires { (place along : ℕ) → other ≡ Number.Len place along → place < SECTION_LIMIT }
    ensures { OnOk result (string_bytes text.new ≡ string_bytes text.old
        ++ moved_words other was own most) }
{
    if stays(was, own) && most == was {
        return Ok(());
    }
    text.push_str(" with")?;
    push_label(text, other)?;
    push_before(text, own)?;
    write!(text, "{most}")
}

// The deadline that goes along with a period, if any.
fn deadline_with(sheet: &Sheet, period: Option<u64>) -> Option<u64>
    ensures { result ≡ option_map (λ value. (with_number Number.Period sheet.now value).deadline) period }
{
    match period {
        Some(period) => Some(sheet.deadline().min(period)),
        None => None,
    }
}

// The period that goes along with a deadline, if any.
fn period_with(sheet: &Sheet, deadline: Option<u64>) -> Option<u64>
    ensures { result ≡ option_map (λ value. (with_number Number.Deadline sheet.now value).period) deadline }
{
    match deadline {
        Some(deadline) => Some(sheet.period().max(deadline)),
        None => None,
    }
}

// What goes along with the furthest values of a number.
fn push_along(
    text: &mut String,
    sheet: &Sheet,
    number: Number,
    own: Option<u64>,
    most: u64,
) -> Result<(), AllocError>
    ensures { OnOk result (string_bytes text.new ≡ string_bytes text.old
        ++ along_words number sheet.now own most) }
{
    match number {
        Number::Period => {
            let was = sheet.deadline();
            push_moved(
                text,
                Number::Deadline,
                was,
                deadline_with(sheet, own),
                was.min(most),
            )
        }
        Number::Deadline => {
            let was = sheet.period();
            push_moved(
                text,
                Number::Period,
                was,
                period_with(sheet, own),
                was.max(most),
            )
        }
        Number::Cost | Number::Jitter | Number::Len { .. } => Ok(()),
        Number::InterruptCost(_) | Number::InterruptPeriod(_) => Ok(()),
    }
}

// The word, where it is so.
pub(crate) fn push_if(text: &mut String, holds: bool, word: &str) -> Result<(), AllocError>
    ensures { OnOk result (string_bytes text.new ≡ string_bytes text.old
        ++ word_if holds word.now) }
{
    if holds { text.push_str(word) } else { Ok(()) }
}

// What holds a cost at this value, in microseconds: the period, with its timer.
fn push_cost_held(text: &mut String, sheet: &Sheet, most: u64) -> Result<(), AllocError>
    requires { IsValidSheet sheet.now }
    ensures { OnOk result (string_bytes text.new ≡ string_bytes text.old
        ++ held_words Number.Cost sheet.now most) }
{
    let timer = sheet.node().release;
    push_if(
        text,
        most == sheet.period().saturating_sub(timer),
        " by period",
    )
}

// What holds a period at this value, in microseconds.
fn push_period_held(text: &mut String, sheet: &Sheet, most: u64) -> Result<(), AllocError>
    requires { IsValidSheet sheet.now }
    ensures { OnOk result (string_bytes text.new ≡ string_bytes text.old
        ++ held_words Number.Period sheet.now most) }
{
    if most == sheet.cost() + sheet.node().release {
        return text.push_str(" by cost");
    }
    if most == sheet.jitter() + 1 {
        return text.push_str(" by jitter");
    }
    push_if(text, most == PERIOD_FROM, " by 1000")
}

// What stands behind a section: the next one, or the end of the task.
fn push_end(text: &mut String, sheet: &Sheet, place: usize) -> Result<(), AllocError>
    requires valid { IsValidSheet sheet.now }
    requires place { place < length sheet.now.sections }
    ensures { OnOk result (string_bytes text.new ≡ string_bytes text.old
        ++ end_words sheet.now place) }
{
    if place + 1 < sheet.sections().len() {
        let count = place as u64 + 2;
        write!(text, " by section {count}")
    } else {
        text.push_str(" by cost")
    }
}

// What holds the length of a section at this value, in microseconds.
fn push_len_held(
    text: &mut String,
    sheet: &Sheet,
    place: usize,
    along: usize,
    most: u64,
) -> Result<(), AllocError>
    requires valid { IsValidSheet sheet.now }
    requires place { place + along < length sheet.now.sections }
    ensures { OnOk result (string_bytes text.new ≡ string_bytes text.old
        ++ held_words (Number.Len place along) sheet.now most) }
{
    if most == most_len(sheet, place, along) {
        push_end(text, sheet, place + along)
    } else {
        Ok(())
    }
}

// What holds the period of an interrupt at this value, in microseconds.
fn push_interrupt_held(text: &mut String, cost: u64, most: u64) -> Result<(), AllocError>
    ensures { OnOk result (string_bytes text.new ≡ string_bytes text.old
        ++ (if most == cost then codes " by cost"
        else word_if (most == INTERRUPT_FROM) (codes " by 100"))) }
{
    if most == cost {
        return text.push_str(" by cost");
    }
    push_if(text, most == INTERRUPT_FROM, " by 100")
}

// What holds a number at this value, where its sheet may have none further.
fn push_held(text: &mut String, sheet: &Sheet, number: Number, most: u64) -> Result<(), AllocError>
    requires valid { IsValidSheet sheet.now }
    requires has { HasNumber sheet.now number }
    ensures { OnOk result (string_bytes text.new ≡ string_bytes text.old
        ++ held_words number sheet.now most) }
{
    match number {
        Number::Cost => push_cost_held(text, sheet, most),
        Number::Period => push_period_held(text, sheet, most),
        Number::Deadline => push_if(text, most == sheet.jitter() + 1, " by jitter"),
        Number::Jitter => push_if(text, most == sheet.deadline() - 1, " by deadline"),
        Number::Len { place, along } => push_len_held(text, sheet, place, along, most),
        Number::InterruptCost(place) => {
            let interrupt = sheet.interrupts()[place];
            push_if(text, most == interrupt.period, " by period")
        }
        Number::InterruptPeriod(place) => {
            let interrupt = sheet.interrupts()[place];
            push_interrupt_held(text, interrupt.cost, most)
        }
    }
}

// The line of a number of a task, said to be of this, with what goes along and what holds it; nothing where no value helps,
// or none that leaves the task one of its own.
fn push_number(
    text: &mut String,
    whose: &str,
    set: &TaskSet,
    task: usize,
    number: Number,
    own: Option<u64>,
    most: Option<u64>,
) -> Result<(), AllocError>
    requires task { task < length set.now }
    requires has { HasNumber (task_at set.now task) number }
    ensures { OnOk result (string_bytes text.new ≡ string_bytes text.old
        ++ number_line whose.now (task_at set.now task) number own most) }
{
    let Some(most) = most else {
        return Ok(());
    };
    let sheet = &set.sheets()[task];
    let part = node_part(sheet, number);
    if !leaves_own(number, part, most) {
        return Ok(());
    }
    let value = value_of(sheet, number).saturating_sub(part);
    let left = most.saturating_sub(part);
    text.push_str(whose)?;
    push_label(text, number)?;
    write!(text, "{value} ")?;
    push_some(text, less_of(part, own))?;
    write!(text, " {left}")?;
    push_along(text, sheet, number, own, most)?;
    push_held(text, sheet, number, most)?;
    text.push_str("\n")
}

// The furthest value of a number with which an order passes that is given; none where none helps it, or none is given.
fn in_order(
    alloc: Global,
    set: &Tabled<'_>,
    order: Option<&[usize]>,
    task: usize,
    number: Number,
) -> Result<Option<u64>, AllocError>
    requires order { IfSome (option_map (λ o. o.now) order) (IsOrder set.now) }
    requires task { task < length set.now }
    requires has { HasNumber (task_at set.now task) number }
    ensures { IfOk result (λ own. AnswersIn set.now (option_map (λ o. o.now) order.entry) task number own) }
{
    match order {
        Some(order) => furthest_in_order(alloc, set, order, task, number),
        None => Ok(None),
    }
}

// Whether this furthest value leaves the task a number of its own.
fn helps_own(set: &TaskSet, task: usize, number: Number, own: Option<u64>) -> bool
    requires task { task < length set.now }
    requires has { HasNumber (task_at set.now task) number }
    ensures { result ≡ helps_own number (task_at set.now task) own }
{
    let sheet = &set.sheets()[task];
    let part = node_part(sheet, number);
    match own {
        Some(value) => leaves_own(number, part, value),
        None => false,
    }
}

// Whether a number has a line.
fn is_told(
    set: &TaskSet,
    task: usize,
    number: Number,
    order: Option<&[usize]>,
    own: Option<u64>,
) -> bool
    requires task { task < length set.now }
    requires has { HasNumber (task_at set.now task) number }
    ensures { result ≡ is_told number (task_at set.now task) (option_map (λ o. o.now) order.entry) own }
{
    match order {
        Some(_) => helps_own(set, task, number, own),
        None => true,
    }
}

// The furthest value of a number with which some order passes; none where none helps. It is sought
// from one on with which some order is known to pass, where there is one.
fn in_any(
    alloc: Global,
    set: &Tabled<'_>,
    task: usize,
    number: Number,
    known: Option<u64>,
) -> Result<Option<u64>, AllocError>
    requires task { task < length set.now }
    requires has { HasNumber (task_at set.now task) number }
    requires known { IfSome known (λ value. MayHave set.now task number value
        × IsFeasible (numbered set.now task number value)) }
    ensures { IfOk result (λ most. AnswersFurthest set.now task number most) }
{
    match known {
        Some(value) => {
            let most = furthest_from(alloc, set, task, number, value)?;
            Ok(Some(most))
        }
        None => furthest(alloc, set, task, number),
    }
}

// With this value of a number the task's period stays.
fn keeps_period(sheet: &Sheet, number: Number, value: u64) -> bool
    ensures { result ≡ keeps_period number sheet.now value }
{
    match number {
        Number::Period => value == sheet.period(),
        Number::Deadline => value <= sheet.period(),
        Number::Cost | Number::Jitter | Number::Len { .. } => true,
        Number::InterruptCost(_) | Number::InterruptPeriod(_) => true,
    }
}

// A value that may be written: of a task on a clock one with which its period stays, for another may be refused.
fn written_if(
    clocked: bool,
    set: &TaskSet,
    task: usize,
    number: Number,
    value: Option<u64>,
) -> Option<u64>
    requires { task < length set.now }
    ensures { result ≡ written_if clocked number (task_at set.now task) value }
{
    let sheet = &set.sheets()[task];
    match value {
        Some(value) if !clocked || keeps_period(sheet, number, value) => Some(value),
        _ => None,
    }
}

// The line of a number, said to be of this; nothing where it has none. The task may be on a clock.
pub(crate) fn number_text(
    alloc: Global,
    whose: &str,
    clocked: bool,
    set: &Tabled<'_>,
    order: Option<&[usize]>,
    task: usize,
    number: Number,
) -> Result<String, AllocError>
    requires order { IfSome (option_map (λ o. o.now) order) (IsOrder set.now) }
    requires task { task < length set.now }
    requires has { HasNumber (task_at set.now task) number }
    ensures { IfOk result (λ text. IsNumberLine whose.now clocked set.now (option_map (λ o. o.now) order.entry)
        task number (string_bytes text)) }
{
    let tasks = set.tasks();
    let own = in_order(alloc, set, order, task, number)?;
    let said = written_if(clocked, tasks, task, number, own);
    let mut text = String::new(alloc);
    if !is_told(tasks, task, number, order, said) {
        return Ok(text);
    }
    let furthest = in_any(alloc, set, task, number, own)?;
    let most = written_if(clocked, tasks, task, number, furthest);
    push_number(&mut text, whose, tasks, task, number, said, most)?;
    Ok(text)
}

// What the response of a task in these places leaves of its deadline.
fn slack_in(deadline: u64, places: &[Place], task: usize) -> Option<u64>
    ensures { result ≡ slack_in deadline places.now task }
{
    for place in places {
        if place.task == task {
            return Some(deadline.saturating_sub(place.response));
        }
    }
    None
}

// The same, where there are places.
fn slack_of(set: &TaskSet, places: Option<&[Place]>, task: usize) -> Option<u64>
    requires { task < length set.now }
    ensures { result ≡ slack_of set.now (option_map (λ p. p.now) places.entry) task }
{
    match places {
        Some(places) => slack_in(set.sheets()[task].deadline(), places, task),
        None => None,
    }
}

// The line of a slack; nothing for none.
fn push_slack(
    text: &mut String,
    set: &TaskSet,
    task: usize,
    slack: Option<u64>,
) -> Result<(), AllocError>
    ensures { OnOk result (string_bytes text.new ≡ string_bytes text.old
        ++ slack_line set.now task slack) }
{
    match slack {
        Some(slack) => {
            push_name(text, set, task)?;
            write!(text, " slack {slack}\n")
        }
        None => Ok(()),
    }
}

// The name of a task.
fn name_text(alloc: Global, set: &TaskSet, task: usize) -> Result<String, AllocError>
    ensures { IfOk result (λ name. string_bytes name ≡ name_at set.now task) }
{
    let mut name = String::new(alloc);
    push_name(&mut name, set, task)?;
    Ok(name)
}

/// The lines of a task: for each of its numbers that may help its value, the furthest with which an order passes that is
/// given, the lowest first, and the furthest with which some order does, each less what of it is the node's, what goes
/// along, and what holds the last; and its slack in places, where it has them. In an order only what helps that has a line:
/// each number where it passes. With a section those behind it move along that don't say where they begin. No line moves
/// the period of a task on a clock, for another may be refused. The error is out of memory.
pub fn task_text(
    alloc: Global,
    owners: &[Owner],
    set: &Tabled<'_>,
    order: Option<&[usize]>,
    places: Option<&[Place]>,
    task: usize,
) -> Result<String, AllocError>
    requires order { IfSome (option_map (λ o. o.now) order) (IsOrder set.now) }
    requires task { task < length set.now }
    ensures { IfOk result (λ text. AreTaskLines owners.now set.now (option_map (λ o. o.now) order.entry)
        (option_map (λ p. p.now) places.entry) task (string_bytes text)) }
{
    let sheet = &set.sheets()[task];
    let count = 4 + sheet.sections().len();
    let name = name_text(alloc, set.tasks(), task)?;
    let whose = name.as_str();
    let clocked = is_clocked(owners, task);
    let mut text = String::new(alloc);
    for place in 0..count {
        let number = number_at(owners, sheet, place);
        let line = number_text(alloc, whose, clocked, set, order, task, number)?;
        text.push_str(line.as_str())?;
    }
    let slack = slack_of(set.tasks(), places, task);
    push_slack(&mut text, set.tasks(), task, slack)?;
    Ok(text)
}

// The greatest factor with which an order passes that is given; none where none helps it, or none is given.
fn factor_in(set: &Tabled<'_>, order: Option<&[usize]>) -> Option<u64>
    requires some { 0 < length set.now }
    requires order { IfSome (option_map (λ o. o.now) order) (IsOrder set.now) }
    ensures { AnswersFactorIn set.now (option_map (λ o. o.now) order.entry) result }
{
    match order {
        Some(_) => factor(set, order),
        None => None,
    }
}

// The line of the greatest factors in an order and in any, with the task that fails first past the latter; or that none
// helps.
fn factor_text(
    alloc: Global,
    set: &TaskSet,
    own: Option<u64>,
    found: Option<Slowdown>,
) -> Result<String, AllocError>
    requires { IfSome found (λ slowdown. slowdown.task < length set.now) }
    ensures { IfOk result (λ text. string_bytes text ≡ factor_line set.now own found) }
{
    let mut text = String::new(alloc);
    match found {
        Some(found) => {
            text.push_str("all ")?;
            push_some(&mut text, own)?;
            let most = found.most;
            write!(text, " {most} ")?;
            push_name(&mut text, set, found.task)?;
            text.push_str("\n")?;
        }
        None => text.push_str("all - -\n")?,
    }
    Ok(text)
}

/// The line of the factors on all execution, in an order that is given, the lowest first, and in any; nothing for the empty
/// set. The error is out of memory.
pub(crate) fn last_text(
    alloc: Global,
    set: &Tabled<'_>,
    order: Option<&[usize]>,
) -> Result<String, AllocError>
    requires order { IfSome (option_map (λ o. o.now) order) (IsOrder set.now) }
    ensures { IfOk result (λ text. IsLast set.now (option_map (λ o. o.now) order.entry) (string_bytes text)) }
{
    if set.len() == 0 {
        return Ok(String::new(alloc));
    }
    let found = greatest_slowdown(set);
    let own = factor_in(set, order);
    factor_text(alloc, set.tasks(), own, found)
}
