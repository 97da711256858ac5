//! What becomes of the tasks of a set, `desk admit` and `desk settings`.
ghost use Rattle.std.specs.Prelude.{◌≡◌, ◌++◌, [], IfOk, string_bytes};
ghost use Rattle.assignment.specs.Placings.{IsPlacingOf};
ghost use Rattle.judge.specs.Levels.{placed_rows, rows_lines};
ghost use Rattle.judge.specs.Slack.{sorted_if};
ghost use Rattle.set_commands.specs.Admit.{AdmitsSet, SettlesSet, admitted_said, levels_said};
ghost use Rattle.set_commands.specs.Chained.{IsPlaced};
ghost use Rattle.set_commands.specs.OnSet.{Places};
ghost use Rattle.answering.specs.OrderParts.{placing_first, placing_said};
ghost use Rattle.answering.specs.Outcomes.{IsRead, failed_read};

use crate::chained::{Placed, chained_status, chained_text, leasts_of};
use answering::{Answer, Audience, CommandRefusal, OrderPart, placing_text, read_owned};
use assignment::{Place, Placing, place_all};
use ceilings::{LockTable, Tabled};
use chain_lines::{Telling, all_met};
use judge::{placed_rows, push_rows, sorted_if};
use least_chains::levels_of;
use preferences::Asking;
use std::alloc::{AllocError, Global};
use std::io::Read;
use streams::Watched;
use task_sheet::TaskSet;

/// The set that the reader has, whose its tasks are, what becomes of them, with nothing that shows it, and its chains; or why
/// there is none.
pub fn place<R: Read + Drop, P: Audience>(
    alloc: Global,
    asking: Asking,
    set: &mut Watched<R>,
    people: &mut P,
) -> Result<Placed, CommandRefusal>
    ensures answer { Places asking (R.remaining set.old.inner) result }
    ensures read { IsRead failed_read set.old set.new result }
{
    let (tasks, owners, chains) = read_owned(alloc, asking, set, people)?;
    let table = LockTable::new(alloc, &tasks)?;
    let tabled = Tabled::of(&tasks, &table);
    let placing = place_all(alloc, &tabled)?;
    let levels = levels_of(alloc, &placing)?;
    let leasts = leasts_of(alloc, &tabled, &placing, &levels, &chains)?;
    let are_met = all_met(alloc, &tasks, &levels, &chains)?;
    people.read(&tasks);
    people.placed(&tasks, &placing);
    Ok(Placed {
        tasks,
        owners,
        chains,
        placing,
        levels,
        leasts,
        are_met,
    })
}

// The levels of an order, by slack where it is asked for.
fn places_text(
    alloc: Global,
    sorted: bool,
    set: &TaskSet,
    places: &[Place],
) -> Result<String, AllocError>
    ensures { IfOk result (λ text. string_bytes text
        ≡ rows_lines [] set.now (sorted_if sorted set.now (placed_rows 1 places.now))) }
{
    let rows = placed_rows(alloc, places)?;
    let rows = sorted_if(alloc, sorted, set, rows)?;
    let mut text = String::new(alloc);
    push_rows(&mut text, &[], set, &rows)?;
    Ok(text)
}

// Those of the order of a placing; none where no order passes.
fn levels_text(
    alloc: Global,
    sorted: bool,
    set: &TaskSet,
    placing: &Placing,
) -> Result<String, AllocError>
    ensures { IfOk result (λ text. string_bytes text ≡ levels_said sorted set.now placing.now) }
{
    match placing {
        Placing::Best(places) => places_text(alloc, sorted, set, places),
        Placing::Stuck(_) => Ok(String::new(alloc)),
    }
}

// The first line of a placing, and then its levels.
fn placed_text(
    alloc: Global,
    sorted: bool,
    set: &TaskSet,
    placing: &Placing,
) -> Result<String, AllocError>
    requires { IsPlacingOf set.now placing.now }
    ensures { IfOk result (λ text. string_bytes text
        ≡ placing_first set.now placing.now ++ levels_said sorted set.now placing.now) }
{
    let mut text = placing_text(alloc, OrderPart::Count, set, placing)?;
    let levels = levels_text(alloc, sorted, set, placing)?;
    text.push_str(levels.as_str())?;
    Ok(text)
}

// That, and then each chain in the order.
fn admitted_text(alloc: Global, sorted: bool, placed: &Placed) -> Result<String, AllocError>
    requires { IsPlaced placed.now }
    ensures { IfOk result (λ text. string_bytes text ≡ admitted_said sorted placed.now) }
{
    let mut text = placed_text(alloc, sorted, &placed.tasks, &placed.placing)?;
    let chains = chained_text(alloc, Telling::Bound, placed)?;
    text.push_str(chains.as_str())?;
    Ok(text)
}

/// The answer of `desk admit` on a set that was placed, its levels by slack where it is asked for.
pub fn admit_set(alloc: Global, sorted: bool, placed: &Placed) -> Result<Answer, CommandRefusal>
    requires { IsPlaced placed.now }
    ensures { AdmitsSet sorted placed.now result }
{
    let text = admitted_text(alloc, sorted, placed)?;
    Ok(Answer::new(text, chained_status(placed)))
}

// What a node is set to for the order of a set that was placed, or the line of its obstruction.
fn settings_text(alloc: Global, base: u32, room: u32, placed: &Placed) -> Result<String, AllocError>
    requires { IsPlaced placed.now }
    ensures { IfOk result (λ text. string_bytes text
        ≡ placing_said (OrderPart.Settings base room) placed.now.tasks placed.now.placing) }
{
    let part = OrderPart::Settings { base, room };
    placing_text(alloc, part, &placed.tasks, &placed.placing)
}

/// The answer of `desk settings` on a set that was placed, where level 1 has this priority, with so much room beside each.
pub fn settle_set(
    alloc: Global,
    base: u32,
    room: u32,
    placed: &Placed,
) -> Result<Answer, CommandRefusal>
    requires { IsPlaced placed.now }
    ensures { SettlesSet base room placed.now result }
{
    let text = settings_text(alloc, base, room, placed)?;
    Ok(Answer::new(text, chained_status(placed)))
}
