//! The lines of chains in an order that passes: how far the numbers of a set may go with each chain met.
ghost use Rattle.std.specs.Prelude.{◌≡◌, ◌+◌, ◌++◌, ◌<◌, length, option_map, IfOk, IfSome, OnOk, string_bytes};
ghost use Rattle.task_sheet.specs.Sheet.{IsValidSheet, task_at};
ghost use Rattle.task_sheet.specs.Orders.{IsOrder};
ghost use Rattle.chains.specs.Parts.{bound_in};
ghost use Rattle.limits.specs.Numbers.{HasNumber};
ghost use Rattle.chain_limits.specs.Reaches.{Grows};
ghost use Rattle.limit_lines.specs.ChainReaches.{AreChainLines, AreChainsLines, AreLinesWithin, AreReaches, AreReachesOf, AreTaskWithin, IsReachLine, growing_at, left_line, left_of, reach_line};

use crate::text::{leaves_own, len_at, node_part, push_label};
use assignment::Place;
use ceilings::Tabled;
use chain_limits::{Reach, reach_in_order};
use chain_tables::Chain;
use chains::bound_of;
use least_chains::levels_at;
use limits::{Number, value_of};
use lines::push_name;
use owners::Owner;
use std::alloc::{AllocError, Global};
use task_sheet::{Sheet, TaskSet};

// The number that stands at a place among those of a task on which bounds depend, from 0.
fn growing_at(owners: &[Owner], sheet: &Sheet, place: usize) -> Number
    requires valid { IsValidSheet sheet.now }
    requires place { place < 2 + length sheet.now.sections }
    ensures same { result ≡ growing_at owners.now sheet.now place }
    ensures has { HasNumber sheet.now result }
    ensures grows { Grows result }
{
    match place {
        0 => Number::Cost,
        1 => Number::Jitter,
        _ => len_at(owners, sheet, place - 2),
    }
}

// The line of a number with a chain met; nothing where it has none.
fn push_reach(
    text: &mut String,
    chain: &Chain,
    set: &TaskSet,
    task: usize,
    number: Number,
    reach: Option<Reach>,
) -> Result<(), AllocError>
    requires task { task < length set.now }
    requires has { HasNumber (task_at set.now task) number }
    ensures { OnOk result (string_bytes text.new ≡ string_bytes text.old
        ++ reach_line chain.now set.now task number reach) }
{
    let Some(reach) = reach else {
        return Ok(());
    };
    let sheet = &set.sheets()[task];
    let part = node_part(sheet, number);
    if !reach.is_bound || !leaves_own(number, part, reach.furthest) {
        return Ok(());
    }
    let value = value_of(sheet, number).saturating_sub(part);
    let left = reach.furthest.saturating_sub(part);
    let name = chain.name;
    write!(text, "chain {name} ")?;
    push_name(text, set, task)?;
    push_label(text, number)?;
    writeln!(text, "{value} {left}")
}

// The same, for which the furthest value is sought.
fn reach_text(
    alloc: Global,
    set: &Tabled<'_>,
    order: &[usize],
    chain: &Chain,
    limit: u64,
    task: usize,
    number: Number,
) -> Result<String, AllocError>
    requires order { IsOrder set.now order.now }
    requires task { task < length set.now }
    requires has { HasNumber (task_at set.now task) number }
    requires grows { Grows number }
    ensures { IfOk result (λ text. IsReachLine chain.now limit set.now order.now task number (string_bytes text)) }
{
    let reach = reach_in_order(
        alloc,
        set,
        order,
        chain.writes,
        &chain.offsets,
        &chain.tasks,
        limit,
        task,
        number,
    )?;
    let mut text = String::new(alloc);
    push_reach(&mut text, chain, set.tasks(), task, number, reach)?;
    Ok(text)
}

// The lines of the numbers of a task with a chain met.
fn reaches_text(
    alloc: Global,
    owners: &[Owner],
    set: &Tabled<'_>,
    order: &[usize],
    chain: &Chain,
    limit: u64,
    task: usize,
) -> Result<String, AllocError>
    requires order { IsOrder set.now order.now }
    requires task { task < length set.now }
    ensures { IfOk result (λ text. AreReachesOf owners.now chain.now limit set.now order.now task (string_bytes text)) }
{
    let sheet = &set.sheets()[task];
    let count = 2 + sheet.sections().len();
    let mut text = String::new(alloc);
    for place in 0..count {
        let number = growing_at(owners, sheet, place);
        let line = reach_text(alloc, set, order, chain, limit, task, number)?;
        text.push_str(line.as_str())?;
    }
    Ok(text)
}

// Those of each task.
fn all_reaches(
    alloc: Global,
    owners: &[Owner],
    set: &Tabled<'_>,
    order: &[usize],
    chain: &Chain,
    limit: u64,
) -> Result<String, AllocError>
    requires { IsOrder set.now order.now }
    ensures { IfOk result (λ text. AreReaches owners.now chain.now limit set.now order.now (length set.now) (string_bytes text)) }
{
    let mut text = String::new(alloc);
    for task in 0..set.len() {
        let lines = reaches_text(alloc, owners, set, order, chain, limit, task)?;
        text.push_str(lines.as_str())?;
    }
    Ok(text)
}

// What a bound leaves of a limit, where it is within it.
fn left_of(bound: Option<u128>, limit: u64) -> Option<u64>
    ensures { result ≡ left_of bound limit }
{
    match bound {
        Some(bound) if bound <= limit as u128 => Some(limit - bound as u64),
        _ => None,
    }
}

// The line of that; nothing for none.
fn push_left(text: &mut String, chain: &Chain, left: Option<u64>) -> Result<(), AllocError>
    ensures { OnOk result (string_bytes text.new ≡ string_bytes text.old ++ left_line chain.now left) }
{
    match left {
        Some(left) => {
            let name = chain.name;
            writeln!(text, "chain {name} slack {left}")
        }
        None => Ok(()),
    }
}

// The lines of a chain in an order with these places; nothing where it has no limit.
fn all_text(
    alloc: Global,
    owners: &[Owner],
    set: &Tabled<'_>,
    order: &[usize],
    places: &[Place],
    chain: &Chain,
) -> Result<String, AllocError>
    requires { IsOrder set.now order.now }
    ensures { IfOk result (λ text. AreLinesWithin chain.now.limit owners.now chain.now set.now order.now places.now
        (string_bytes text)) }
{
    let mut text = String::new(alloc);
    let Some(limit) = chain.limit else {
        return Ok(text);
    };
    let reaches = all_reaches(alloc, owners, set, order, chain, limit)?;
    let levels = levels_at(alloc, places)?;
    let writes = chain.writes;
    let offsets = &chain.offsets;
    let bound = bound_of(alloc, set.tasks(), &levels, writes, offsets, &chain.tasks)?;
    push_left(&mut text, chain, left_of(bound, limit))?;
    text.push_str(reaches.as_str())?;
    Ok(text)
}

// Those of a task alone, without its slack.
fn task_text(
    alloc: Global,
    owners: &[Owner],
    set: &Tabled<'_>,
    order: &[usize],
    chain: &Chain,
    task: usize,
) -> Result<String, AllocError>
    requires order { IsOrder set.now order.now }
    requires task { task < length set.now }
    ensures { IfOk result (λ text. AreTaskWithin chain.now.limit owners.now chain.now set.now order.now task
        (string_bytes text)) }
{
    match chain.limit {
        Some(limit) => reaches_text(alloc, owners, set, order, chain, limit, task),
        None => Ok(String::new(alloc)),
    }
}

/// The lines of a chain with a limit in an order, the lowest first, with these places: what its bound leaves of the limit,
/// where it is within it; and of each cost, jitter and length of a section the furthest value with which the order passes and the
/// chain is met, where the order passes with a further one. Of a task that is asked about its lines alone, without the slack;
/// without places nothing. The error is out of memory.
pub fn chain_text(
    alloc: Global,
    owners: &[Owner],
    set: &Tabled<'_>,
    order: Option<&[usize]>,
    places: Option<&[Place]>,
    asked: Option<usize>,
    chain: &Chain,
) -> Result<String, AllocError>
    requires order { IfSome (option_map (λ o. o.now) order) (IsOrder set.now) }
    requires asked { IfSome asked (λ task. task < length set.now) }
    ensures { IfOk result (λ text. AreChainLines owners.now chain.now set.now (option_map (λ o. o.now) order.entry)
        (option_map (λ p. p.now) places.entry) asked (string_bytes text)) }
{
    let (Some(order), Some(places)) = (order, places) else {
        return Ok(String::new(alloc));
    };
    match asked {
        Some(task) => task_text(alloc, owners, set, order, chain, task),
        None => all_text(alloc, owners, set, order, places, chain),
    }
}

/// The lines of each chain. The error is out of memory.
pub(crate) fn chains_text(
    alloc: Global,
    owners: &[Owner],
    set: &Tabled<'_>,
    order: Option<&[usize]>,
    places: Option<&[Place]>,
    asked: Option<usize>,
    chains: &[Chain],
) -> Result<String, AllocError>
    requires order { IfSome (option_map (λ o. o.now) order) (IsOrder set.now) }
    requires asked { IfSome asked (λ task. task < length set.now) }
    ensures { IfOk result (λ text. AreChainsLines owners.now chains.now set.now (option_map (λ o. o.now) order.entry)
        (option_map (λ p. p.now) places.entry) asked (length chains.now) (string_bytes text)) }
{
    let mut text = String::new(alloc);
    for place in 0..chains.len() {
        let lines = chain_text(alloc, owners, set, order, places, asked, &chains[place])?;
        text.push_str(lines.as_str())?;
    }
    Ok(text)
}
