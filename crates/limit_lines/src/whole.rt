//! All lines of a set, or those of one task.
ghost use Rattle.std.specs.Prelude.{◌≡◌, ◌++◌, ◌<◌, ◌==◌, ◌&&◌, not, length, None, option_map, IfOk, IfSome, OnOk, string_bytes};
ghost use Rattle.task_sheet.specs.Orders.{IsOrder};
ghost use Rattle.owners.specs.Clocks.{has_clock};
ghost use Rattle.limit_lines.specs.Whole.{AreEndLines, AreLimits, AreLines, AreNumbersOf, alone_line};

use crate::chained::chains_text;
use crate::common::common_text;
use crate::text::{last_text, push_if, task_text};
use assignment::Place;
use ceilings::Tabled;
use chain_tables::Chain;
use owners::{Owner, has_clock};
use std::alloc::{AllocError, Global};

// The lines of each task, by rank.
fn tasks_text(
    alloc: Global,
    owners: &[Owner],
    set: &Tabled<'_>,
    order: Option<&[usize]>,
    places: Option<&[Place]>,
) -> Result<String, AllocError>
    requires { IfSome (option_map (λ o. o.now) order) (IsOrder set.now) }
    ensures { IfOk result (λ text. AreLines owners.now set.now (option_map (λ o. o.now) order.entry)
        (option_map (λ p. p.now) places.entry) (length set.now) (string_bytes text)) }
{
    let mut text = String::new(alloc);
    for task in 0..set.len() {
        let lines = task_text(alloc, owners, set, order, places, task)?;
        text.push_str(lines.as_str())?;
    }
    Ok(text)
}

// Whether nothing has a line, with one more text, and no task is on a clock, whose period no line moves.
fn is_alone(is_silent: bool, text: &str, owners: &[Owner]) -> bool
    ensures { result ≡ ((is_silent && (length text.now == 0)) && not (has_clock owners.now)) }
{
    is_silent && text.is_empty() && !has_clock(owners)
}

// That no single change mends what has no places, where it holds.
fn push_alone(text: &mut String, is_alone: bool, places: Option<&[Place]>) -> Result<(), AllocError>
    ensures { OnOk result (string_bytes text.new ≡ string_bytes text.old
        ++ alone_line is_alone (option_map (λ p. p.now) places.entry)) }
{
    match places {
        Some(_) => Ok(()),
        None => push_if(text, is_alone, "no single change\n"),
    }
}

/// The lines behind those of the tasks, by whether these are none: those that are of no one task; that no single change mends
/// what has no places, where nothing has a line, unless a task is on a clock; and that of the factors. The error is out of
/// memory.
pub fn end_text(
    alloc: Global,
    owners: &[Owner],
    set: &Tabled<'_>,
    order: Option<&[usize]>,
    places: Option<&[Place]>,
    is_silent: bool,
) -> Result<String, AllocError>
    requires order { IfSome (option_map (λ o. o.now) order) (IsOrder set.now) }
    ensures { IfOk result (λ text. AreEndLines owners.now set.now (option_map (λ o. o.now) order.entry)
        (option_map (λ p. p.now) places.entry) is_silent (string_bytes text)) }
{
    let mut text = common_text(alloc, owners, set, order)?;
    let last = last_text(alloc, set, order)?;
    let is_alone = is_alone(is_silent, text.as_str(), owners);
    push_alone(&mut text, is_alone, places)?;
    text.push_str(last.as_str())?;
    Ok(text)
}

// The lines of each task, and those behind them.
fn all_text(
    alloc: Global,
    owners: &[Owner],
    set: &Tabled<'_>,
    order: Option<&[usize]>,
    places: Option<&[Place]>,
) -> Result<String, AllocError>
    requires order { IfSome (option_map (λ o. o.now) order) (IsOrder set.now) }
    ensures { IfOk result (λ text. AreNumbersOf owners.now set.now (option_map (λ o. o.now) order.entry)
        (option_map (λ p. p.now) places.entry) None (string_bytes text)) }
{
    let mut text = tasks_text(alloc, owners, set, order, places)?;
    let end = end_text(alloc, owners, set, order, places, text.is_empty())?;
    text.push_str(end.as_str())?;
    Ok(text)
}

// The same, or the lines of the task that is asked about.
fn numbers_text(
    alloc: Global,
    owners: &[Owner],
    set: &Tabled<'_>,
    order: Option<&[usize]>,
    places: Option<&[Place]>,
    asked: Option<usize>,
) -> Result<String, AllocError>
    requires order { IfSome (option_map (λ o. o.now) order) (IsOrder set.now) }
    requires asked { IfSome asked (λ task. task < length set.now) }
    ensures { IfOk result (λ text. AreNumbersOf owners.now set.now (option_map (λ o. o.now) order.entry)
        (option_map (λ p. p.now) places.entry) asked (string_bytes text)) }
{
    match asked {
        Some(task) => task_text(alloc, owners, set, order, places, task),
        None => all_text(alloc, owners, set, order, places),
    }
}

/// How far the numbers of a set may go in an order that is given, the lowest first, with its places where it passes, or in
/// none; or those of the task that is asked about; and then with each chain met. The error is out of memory.
pub fn limits_text(
    alloc: Global,
    owners: &[Owner],
    chains: &[Chain],
    set: &Tabled<'_>,
    order: Option<&[usize]>,
    places: Option<&[Place]>,
    asked: Option<usize>,
) -> Result<String, AllocError>
    requires order { IfSome (option_map (λ o. o.now) order) (IsOrder set.now) }
    requires asked { IfSome asked (λ task. task < length set.now) }
    ensures { IfOk result (λ text. AreLimits owners.now chains.now set.now (option_map (λ o. o.now) order.entry)
        (option_map (λ p. p.now) places.entry) asked (string_bytes text)) }
{
    let mut text = numbers_text(alloc, owners, set, order, places, asked)?;
    let chained = chains_text(alloc, owners, set, order, places, asked, chains)?;
    text.push_str(chained.as_str())?;
    Ok(text)
}
