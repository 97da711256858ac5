//! `desk limits`.
ghost use Rattle.std.specs.Prelude.{◌≡◌, ◌<◌, length, IfOk, IfSome, option_map, string_bytes};
ghost use Rattle.limit_lines.specs.LimitLines.{order_given, order_in, places_in};
ghost use Rattle.limit_lines.specs.Whole.{AreLimits};
ghost use Rattle.set_commands.specs.Chained.{IsPlaced};
ghost use Rattle.set_commands.specs.Limits.{AreLimitsOf, LimitsSet};

use crate::chained::Placed;
use answering::{Answer, CommandRefusal, OrderPart, asked_task, placing_status, placing_text};
use assignment::{Placing, tasks_of_places};
use ceilings::{LockTable, Tabled};
use limit_lines::{limits_text, order_given, places_given};
use std::alloc::{AllocError, Global};

// The order of a placing, the lowest first; nothing after a no.
fn order_of(alloc: Global, placing: &Placing) -> Result<Vec<usize>, AllocError>
    ensures { IfOk result (λ order. order.items ≡ order_in placing.now) }
{
    match placing {
        Placing::Best(places) => tasks_of_places(alloc, places),
        Placing::Stuck(_) => Ok(Vec::new(alloc)),
    }
}

// How far the numbers of a set that was placed may go, or those of the task that is asked about.
fn numbers_text(alloc: Global, placed: &Placed, asked: Option<usize>) -> Result<String, AllocError>
    requires placed { IsPlaced placed.now }
    requires asked { IfSome asked (λ task. task < length placed.now.tasks) }
    ensures { IfOk result (λ text. AreLimits placed.now.owners.items placed.now.chains.items
        placed.now.tasks (order_given placed.now.placing) (places_in placed.now.placing) asked
        (string_bytes text)) }
{
    let placing = &placed.placing;
    let table = LockTable::new(alloc, &placed.tasks)?;
    let order = order_of(alloc, placing)?;
    limits_text(
        alloc,
        &placed.owners,
        &placed.chains,
        &Tabled::of(&placed.tasks, &table),
        order_given(placing, &order),
        places_given(placing),
        asked,
    )
}

// The first line of its placing, and then that.
fn limited_text(alloc: Global, placed: &Placed, asked: Option<usize>) -> Result<String, AllocError>
    requires placed { IsPlaced placed.now }
    requires asked { IfSome asked (λ task. task < length placed.now.tasks) }
    ensures { IfOk result (λ text. AreLimitsOf placed.now asked (string_bytes text)) }
{
    let lines = numbers_text(alloc, placed, asked)?;
    let mut text = placing_text(alloc, OrderPart::Count, &placed.tasks, &placed.placing)?;
    text.push_str(lines.as_str())?;
    Ok(text)
}

/// The answer of `desk limits` on a set that was placed, of the task that a word names.
pub fn limit_set(
    alloc: Global,
    word: Option<&str>,
    placed: &Placed,
) -> Result<Answer, CommandRefusal>
    requires { IsPlaced placed.now }
    ensures { LimitsSet (option_map (λ w. w.now) word.entry) placed.now result }
{
    let asked = asked_task(&placed.tasks, word)?;
    let text = limited_text(alloc, placed, asked)?;
    Ok(Answer::new(text, placing_status(&placed.placing)))
}
