//! `desk settings SET --keep SETTINGS`.
ghost use Rattle.std.specs.Prelude.{◌≡◌, IfOk, MatchResult, string_bytes};
ghost use Rattle.assignment.specs.Placings.{tasks_of_places};
ghost use Rattle.judge.specs.SettingFaults.{IsSettingsFault};
ghost use Rattle.judge.specs.KeptOrder.{kept_fault};
ghost use Rattle.judge.specs.Node.{AreNumbersIn};
ghost use Rattle.task_sheet.specs.Orders.{IsOrder};
ghost use Rattle.two_input_commands.specs.Keep.{HasOld, IsKeptIn, IsOldOf, KeepsBoth, KeepsText, are_kept_met, keeping_lines, keeping_status, parted_line};

use answering::{Answer, Both, CommandRefusal, Notes, Status, infeasible_text};
use assignment::{Place, tasks_of_places};
use ceilings::{LockTable, Tabled};
use chain_lines::all_met;
use chain_tables::Chain;
use judge::{SettingsFault, read_kept, read_kept_numbers};
use kept_order::{Keeping, keep_order};
use least_chains::levels_at;
use lines::push_name;
use settings::kept_text;
use std::alloc::{AllocError, Global};
use task_sheet::TaskSet;

// What becomes of a set that is to keep the order and the numbers of a node.
#[derive(Drop)]
pub(crate) struct KeptNode {
    keeping: Keeping,
    // The numbers that the threads of the kept order have, one by one, and 0 of a task that has none.
    old: Vec<u64>,
    // Whether the bound of each chain is within its limit in the kept order, where there is one.
    are_met: bool,
}

// The numbers that the threads of places have in the text of settings.
fn old_of_places(
    alloc: Global,
    set: &Tabled<'_>,
    text: &[u8],
    places: &[Place],
) -> Result<Vec<u64>, SettingsFault>
    requires { IsOrder set.now (tasks_of_places places.now) }
    ensures { MatchResult result
        (λ old. AreNumbersIn set.now text.now (tasks_of_places places.now) old.items)
        (λ fault. IsSettingsFault fault (kept_fault text.now)) }
{
    let order = tasks_of_places(alloc, places)?;
    read_kept_numbers(alloc, set, text, &order)
}

// The numbers that the threads of what is kept have in the text of settings; of what isn't none.
fn old_of(
    alloc: Global,
    set: &Tabled<'_>,
    text: &[u8],
    keeping: &Keeping,
) -> Result<Vec<u64>, SettingsFault>
    requires { IsKeptIn set.now keeping.now }
    ensures { MatchResult result
        (λ old. HasOld set.now text.now keeping.now old.items)
        (λ fault. IsSettingsFault fault (kept_fault text.now)) }
{
    match keeping {
        Keeping::Kept(places) => old_of_places(alloc, set, text, places),
        Keeping::Parted { .. } | Keeping::Stuck(_) => Ok(Vec::new(alloc)),
    }
}

// Whether the bound of each chain is within its limit in what is kept; of what isn't none is past it.
fn are_kept_met(
    alloc: Global,
    set: &TaskSet,
    chains: &[Chain],
    keeping: &Keeping,
) -> Result<bool, AllocError>
    ensures { IfOk result (λ met. met ≡ are_kept_met set.now chains.now keeping.now) }
{
    match keeping {
        Keeping::Kept(places) => {
            let levels = levels_at(alloc, places)?;
            all_met(alloc, set, &levels, chains)
        }
        Keeping::Parted { .. } | Keeping::Stuck(_) => Ok(true),
    }
}

// What becomes of a set that is to keep the order that the text of settings gives, and the numbers that it has, and of the
// set's chains.
fn keep_text(
    alloc: Global,
    chains: &[Chain],
    tasks: &TaskSet,
    text: &[u8],
) -> Result<KeptNode, CommandRefusal>
    ensures answer { KeepsText chains.now tasks.now text.now result }
    ensures order { IfOk result (λ node. IsKeptIn tasks.now node.keeping) }
    ensures old { IfOk result IsOldOf }
{
    let kept = match read_kept(alloc, tasks, text) {
        Ok(kept) => kept,
        Err(fault) => return Err(CommandRefusal::Settings(fault)),
    };
    let table = LockTable::new(alloc, tasks)?;
    let set = Tabled::of(tasks, &table);
    let keeping = keep_order(alloc, &set, &kept)?;
    let are_met = are_kept_met(alloc, tasks, chains, &keeping)?;
    match old_of(alloc, &set, text, &keeping) {
        Ok(old) => Ok(KeptNode {
            keeping,
            old,
            are_met,
        }),
        Err(fault) => Err(CommandRefusal::Settings(fault)),
    }
}

// The line of a pair that has to change.
fn parted_text(
    alloc: Global,
    tasks: &TaskSet,
    low: usize,
    high: usize,
) -> Result<String, AllocError>
    ensures { IfOk result (λ text. string_bytes text ≡ parted_line tasks.now low high) }
{
    let mut text = String::from_str(alloc, "parted ")?;
    push_name(&mut text, tasks, low)?;
    text.push_str(" ")?;
    push_name(&mut text, tasks, high)?;
    text.push_str("\n")?;
    Ok(text)
}

// The lines of what becomes of a set that is to keep an order and numbers, from the base on, with so much room beside those
// that are given anew.
fn keeping_text(
    alloc: Global,
    tasks: &TaskSet,
    base: u32,
    room: u32,
    node: &KeptNode,
) -> Result<String, AllocError>
    requires kept { IsKeptIn tasks.now node.now.keeping }
    requires old { IsOldOf node.now }
    ensures { IfOk result (λ text. string_bytes text
        ≡ keeping_lines tasks.now base room node.now) }
{
    match &node.keeping {
        Keeping::Kept(places) => kept_text(alloc, tasks, base, room, &node.old, places),
        Keeping::Parted { low, high } => parted_text(alloc, tasks, *low, *high),
        Keeping::Stuck(members) => infeasible_text(alloc, tasks, *members),
    }
}

// The exit status of what becomes of a set that is to keep an order, and of its chains.
fn keeping_status(node: &KeptNode) -> Status
    ensures { result ≡ keeping_status node.now }
{
    match &node.keeping {
        Keeping::Kept(_) if node.are_met => Status::Done,
        _ => Status::Infeasible,
    }
}

// What a person is told of it.
fn notes_of(node: &KeptNode) -> Notes {
    let mut notes = Notes::none();
    notes.is_keeping = true;
    notes.misses_here = !node.are_met;
    if let Keeping::Parted { low, high } = &node.keeping {
        notes.parted = Some((*low, *high));
    }
    notes
}

/// The answer of `desk settings --keep` on a set and the text of settings, from a base on, with room.
pub fn keep_both(alloc: Global, base: u32, room: u32, both: &Both) -> Result<Answer, CommandRefusal>
    ensures { KeepsBoth base room both.now result }
{
    let node = keep_text(alloc, &both.chains, &both.tasks, &both.text)?;
    let text = keeping_text(alloc, &both.tasks, base, room, &node)?;
    Ok(Answer {
        text: text.into_bytes(),
        status: keeping_status(&node),
        notes: notes_of(&node),
    })
}
