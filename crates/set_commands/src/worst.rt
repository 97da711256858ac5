//! `desk worst`.
ghost use Rattle.std.specs.Prelude.{◌≡◌, IfOk, option_map, string_bytes};
ghost use Rattle.assignment.specs.Placings.{IsPlacingOf};
ghost use Rattle.settings.specs.Settings.{settings_from};
ghost use Rattle.worst_lines.specs.Deciding.{IsDeciding};
ghost use Rattle.set_commands.specs.Chained.{IsPlaced};
ghost use Rattle.least_chains.specs.LeastBound.{levels_of};
ghost use Rattle.set_commands.specs.Worst.{AreLinesOfChain, WorstsChain, WorstsSet, WorstsTask};

use crate::chained::Placed;
use answering::{Answer, CommandRefusal, asked_task, find_chain, no_such_chain, placing_status};
use assignment::Placing;
use ceilings::{LockTable, Tabled};
use chain_tables::Chain;
use chain_worst::{chain_worst_text, no_bound_text};
use chains::Level;
use std::alloc::{AllocError, Global};
use task_sheet::TaskSet;
use worst_lines::{judge_deciding, settings_judged, worst_text};

// The settings of an order that decides.
fn deciding_settings(alloc: Global, set: &TaskSet) -> Result<String, AllocError>
    ensures { IfOk result (λ text. (order : _) × IsDeciding set.now order
        × (string_bytes text ≡ settings_from set.now 1 order)) }
{
    let table = LockTable::new(alloc, set)?;
    let judged = judge_deciding(alloc, &Tabled::of(set, &table))?;
    settings_judged(alloc, set, &judged)
}

// What is printed of a chain.
fn chain_text(
    alloc: Global,
    set: &TaskSet,
    placing: &Placing,
    levels: &[Level],
    chain: &Chain,
) -> Result<String, AllocError>
    requires placing { IsPlacingOf set.now placing.now }
    requires levels { levels.now ≡ levels_of placing.now }
    ensures { IfOk result (λ text. AreLinesOfChain set.now placing.now chain.now (string_bytes text)) }
{
    match placing {
        Placing::Best(_) => chain_worst_text(alloc, set, levels, "", chain),
        Placing::Stuck(_) => {
            let front = deciding_settings(alloc, set)?;
            no_bound_text(alloc, chain, front.as_str())
        }
    }
}

// The answer on the chain that a word names, or that there is none.
fn worst_chain(alloc: Global, word: &str, placed: &Placed) -> Result<Answer, CommandRefusal>
    requires { IsPlaced placed.now }
    ensures { WorstsChain word.now placed.now result }
{
    let Some(chain) = find_chain(&placed.chains, word) else {
        return Err(no_such_chain(word));
    };
    let text = chain_text(alloc, &placed.tasks, &placed.placing, &placed.levels, chain)?;
    Ok(Answer::new(text, placing_status(&placed.placing)))
}

// The answer on the task that a word names, or on the one that the set's verdict is about.
fn worst_task(alloc: Global, word: Option<&str>, placed: &Placed) -> Result<Answer, CommandRefusal>
    requires { IsPlaced placed.now }
    ensures { WorstsTask (option_map (λ w. w.now) word.entry) placed.now result }
{
    let asked = asked_task(&placed.tasks, word)?;
    let text = worst_text(alloc, &placed.tasks, &placed.placing, asked)?;
    Ok(Answer::new(text, placing_status(&placed.placing)))
}

/// The answer of `desk worst` on a set that was placed: of the chain that a word names; without one the worst case of a task,
/// of the one that a word names or else of the one that the set's verdict is about.
pub fn worst_set(
    alloc: Global,
    chain: Option<&str>,
    task: Option<&str>,
    placed: &Placed,
) -> Result<Answer, CommandRefusal>
    requires { IsPlaced placed.now }
    ensures { WorstsSet (option_map (λ w. w.now) chain.entry) (option_map (λ w. w.now) task.entry)
        placed.now result }
{
    match chain {
        Some(word) => worst_chain(alloc, word, placed),
        None => worst_task(alloc, task, placed),
    }
}
