//! `desk simulate --tasks`.
ghost use Rattle.std.specs.Prelude.{◌≡◌, IfOk, map, string_bytes};
ghost use Rattle.chain_runs.specs.RunChainLines.{run_chains_said};
ghost use Rattle.two_input_commands.specs.Simulate.{IsInOrder, ReachesText, chains_reached, level_of_bound};

use crate::simulate::{Run, Simulated, simulate_text};
use answering::{Both, CommandRefusal};
use chain_lines::all_met;
use chain_runs::run_chains_text;
use chain_tables::Chain;
use chains::Level;
use run_lines::TaskBound;
use std::alloc::{AllocError, Global};
use task_sheet::TaskSet;

// What is printed of a set's chains in a run.
#[derive(Drop)]
pub(crate) struct ReachedChains {
    pub(crate) text: String,
}

// The level of a task with a bound.
fn level_of_bound(entry: TaskBound) -> Level
    ensures { result ≡ level_of_bound entry }
{
    Level {
        task: entry.task,
        response: entry.bound,
    }
}

// The levels of an order's tasks.
pub(crate) fn levels_of(alloc: Global, bounds: &[TaskBound]) -> Result<Vec<Level>, AllocError>
    ensures { IfOk result (λ levels. levels.items ≡ map level_of_bound bounds.now) }
{
    let mut levels = Vec::with_capacity(alloc, bounds.len())?;
    for entry in bounds {
        levels.push(level_of_bound(*entry))?;
    }
    Ok(levels)
}

// The lines of chains in a run.
fn told_of(alloc: Global, set: &TaskSet, chains: &[Chain], run: &Run) -> Result<String, AllocError>
    ensures { IfOk result (λ text. string_bytes text
        ≡ run_chains_said set.now (map level_of_bound run.now.bounds.items) run.now.until run.now.trace chains.now) }
{
    let levels = levels_of(alloc, &run.bounds)?;
    run_chains_text(alloc, set, &levels, chains, run.until, &run.trace)
}

// The lines of chains in what a simulation came to.
fn lines_reached(
    alloc: Global,
    set: &TaskSet,
    chains: &[Chain],
    answer: &Simulated,
) -> Result<String, AllocError>
    ensures { IfOk result (λ text. string_bytes text ≡ chains_reached set.now chains.now answer.now) }
{
    match answer {
        Simulated::Ran(run) => told_of(alloc, set, chains, run),
        Simulated::Infeasible(_) => Ok(String::new(alloc)),
    }
}

// What a set and a release list's text come to, and the lines of these chains in the run.
pub(crate) fn reach_text(
    alloc: Global,
    chains: &[Chain],
    tasks: &TaskSet,
    text: &[u8],
) -> Result<(Simulated, ReachedChains), CommandRefusal>
    ensures answer { ReachesText chains.now tasks.now text.now result }
    ensures order { IfOk result (λ found. IsInOrder tasks.now found.0) }
{
    let answer = simulate_text(alloc, tasks, text)?;
    let text = lines_reached(alloc, tasks, chains, &answer)?;
    Ok((answer, ReachedChains { text }))
}

// Whether all tasks of a run meet their deadlines in an order that is not the best one, and a chain misses its limit there. The
// error is out of memory.
pub(crate) fn misses_listed(alloc: Global, both: &Both, run: &Run) -> Result<bool, AllocError> {
    let all_meet = run.bounds.iter().all(|entry| entry.bound.is_some());
    if both.chains.is_empty() || !run.is_listed || !all_meet {
        return Ok(false);
    }
    let levels = levels_of(alloc, &run.bounds)?;
    let are_met = all_met(alloc, &both.tasks, &levels, &both.chains)?;
    Ok(!are_met)
}
