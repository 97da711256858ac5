//! `desk limits SET --at SETTINGS`.
ghost use Rattle.std.specs.Prelude.{◌<◌, length, All, IfOk, IfSome, option_map, string_bytes};
ghost use Rattle.task_sheet.specs.declared.set.TheConstants.{TASK_LIMIT};
ghost use Rattle.task_sheet.specs.Orders.{IsOrder};
ghost use Rattle.judge.specs.Judgements.{order_judged};
ghost use Rattle.two_input_commands.specs.LimitsAt.{ArePlacesOf, IsLimitsText, LimitsBoth, LimitsText};

use crate::in_order::{InOrder, answer_in, judge_asked};
use answering::{Answer, Both, CommandRefusal};
use assignment::Place;
use ceilings::{LockTable, Tabled};
use chain_tables::Chain;
use judge::{JudgedNode, first_text, order_of, places_of};
use limit_lines::limits_text;
use owners::Owner;
use std::alloc::{AllocError, Global};
use task_sheet::TaskSet;

// Whether all tasks of an order meet their deadlines, and how far its numbers may go, also with each chain met; the places
// are those of one that passes.
fn placed_text(
    alloc: Global,
    owners: &[Owner],
    chains: &[Chain],
    set: &TaskSet,
    node: &JudgedNode,
    places: Option<&[Place]>,
    asked: Option<usize>,
) -> Result<String, AllocError>
    requires within { All (λ j. j.task < TASK_LIMIT) node.now.judged.items }
    requires order { IsOrder set.now (order_judged node.now.judged.items) }
    requires places { ArePlacesOf node.now.judged.items (option_map (λ p. p.now) places) }
    requires asked { IfSome asked (λ task. task < length set.now) }
    ensures { IfOk result (λ text. IsLimitsText owners.now chains.now set.now node.now asked (string_bytes text)) }
{
    let table = LockTable::new(alloc, set)?;
    let tabled = Tabled::of(set, &table);
    let order = order_of(alloc, &node.judged)?;
    let lines = limits_text(alloc, owners, chains, &tabled, Some(&order), places, asked)?;
    let mut text = first_text(alloc, set, &node.judged)?;
    text.push_str(lines.as_str())?;
    Ok(text)
}

// The same of any order.
fn node_text(
    alloc: Global,
    owners: &[Owner],
    chains: &[Chain],
    set: &TaskSet,
    node: &JudgedNode,
    asked: Option<usize>,
) -> Result<String, AllocError>
    requires within { All (λ j. j.task < TASK_LIMIT) node.now.judged.items }
    requires order { IsOrder set.now (order_judged node.now.judged.items) }
    requires asked { IfSome asked (λ task. task < length set.now) }
    ensures { IfOk result (λ text. IsLimitsText owners.now chains.now set.now node.now asked (string_bytes text)) }
{
    let found = places_of(alloc, &node.judged)?;
    match found {
        Some(places) => placed_text(alloc, owners, chains, set, node, Some(&places), asked),
        None => placed_text(alloc, owners, chains, set, node, None, asked),
    }
}

// How far the numbers of a set may go in the order that the text of settings gives, or those of the task that is
// asked about, also with each of these chains met.
fn limits_at(
    alloc: Global,
    word: Option<&str>,
    owners: &[Owner],
    chains: &[Chain],
    tasks: &TaskSet,
    text: &[u8],
) -> Result<InOrder, CommandRefusal>
    ensures { LimitsText (option_map (λ w. w.now) word.entry) owners.now chains.now tasks.now text.now result }
{
    let (node, asked) = judge_asked(alloc, word, tasks, text)?;
    let text = node_text(alloc, owners, chains, tasks, &node, asked)?;
    Ok(InOrder { node, text })
}

/// The answer of `desk limits --at` on a set and the text of settings.
pub fn limit_both(alloc: Global, word: Option<&str>, both: &Both) -> Result<Answer, CommandRefusal>
    ensures { LimitsBoth (option_map (λ w. w.now) word.entry) both.now result }
{
    let (owners, chains) = (&both.owners, &both.chains);
    let found = limits_at(alloc, word, owners, chains, &both.tasks, &both.text)?;
    let answer = answer_in(alloc, both, found)?;
    Ok(answer)
}
