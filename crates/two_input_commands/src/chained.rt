//! The chains of a set in an order that settings give.
ghost use Rattle.std.specs.Prelude.{◌≡◌, IfOk};
ghost use Rattle.chain_lines.specs.ChainLines.{all_met};
ghost use Rattle.two_input_commands.specs.Chained.{AreTold, chained_status, level_judged, levels_judged, response_judged};

use answering::{Both, Notes, Status};
use chain_lines::{Telling, all_met, chains_text};
use chain_tables::Chain;
use chains::Level;
use judge::{JudgedTask, Judgement, all_meet};
use std::alloc::{AllocError, Global};
use task_sheet::TaskSet;

// What is printed of a set's chains in an order, and whether the bound of each is within its limit.
#[derive(Drop)]
pub(crate) struct ChainsTold {
    pub(crate) text: String,
    pub(crate) are_met: bool,
}

/// The response of a task that meets its deadline.
pub(crate) fn response_judged(judgement: Judgement) -> Option<u64>
    ensures { result ≡ response_judged judgement }
{
    match judgement {
        Judgement::Meets { response } => Some(response),
        Judgement::Misses { .. } => None,
        Judgement::Below { .. } => None,
    }
}

// The level of a task that was judged.
fn level_judged(entry: JudgedTask) -> Level
    ensures { result ≡ level_judged entry }
{
    Level {
        task: entry.task,
        response: response_judged(entry.judgement),
    }
}

/// The levels of an order that was judged. The error is out of memory.
pub(crate) fn levels_judged(alloc: Global, judged: &[JudgedTask]) -> Result<Vec<Level>, AllocError>
    ensures { IfOk result (λ levels. levels.items ≡ levels_judged judged.now) }
{
    let mut levels = Vec::with_capacity(alloc, judged.len())?;
    for entry in judged {
        levels.push(level_judged(*entry))?;
    }
    Ok(levels)
}

// Whether the bound of each chain is within its limit in an order that was judged. The error is out of memory.
fn met_judged(
    alloc: Global,
    set: &TaskSet,
    chains: &[Chain],
    judged: &[JudgedTask],
) -> Result<bool, AllocError>
    ensures { IfOk result (λ met. met ≡ all_met set.now (levels_judged judged.now) chains.now) }
{
    let levels = levels_judged(alloc, judged)?;
    all_met(alloc, set, &levels, chains)
}

/// The lines of a set's chains in an order that was judged, and whether each is met. The error is out of memory.
pub(crate) fn tell_chains(
    alloc: Global,
    telling: Telling,
    set: &TaskSet,
    chains: &[Chain],
    judged: &[JudgedTask],
) -> Result<ChainsTold, AllocError>
    ensures { IfOk result (AreTold telling set.now chains.now judged.now) }
{
    let levels = levels_judged(alloc, judged)?;
    let text = chains_text(alloc, telling, set, &levels, &[], chains)?;
    let are_met = all_met(alloc, set, &levels, chains)?;
    Ok(ChainsTold { text, are_met })
}

/// The exit status of an order and the chains in it.
pub(crate) fn chained_status(judged: &[JudgedTask], are_met: bool) -> Status
    ensures { result ≡ chained_status judged.now are_met }
{
    if all_meet(judged) && are_met {
        Status::Done
    } else {
        Status::Infeasible
    }
}

// Whether all tasks meet their deadlines in an order that was judged, and a chain misses its limit. The error is out of memory.
fn misses_judged(alloc: Global, both: &Both, judged: &[JudgedTask]) -> Result<bool, AllocError> {
    if both.chains.is_empty() || !all_meet(judged) {
        return Ok(false);
    }
    let are_met = met_judged(alloc, &both.tasks, &both.chains, judged)?;
    Ok(!are_met)
}

/// What a person is told of an answer that is of an order that was judged. The error is out of memory.
pub(crate) fn notes_judged(
    alloc: Global,
    both: &Both,
    judged: &[JudgedTask],
) -> Result<Notes, AllocError> {
    let mut notes = Notes::none();
    notes.misses_here = misses_judged(alloc, both, judged)?;
    Ok(notes)
}
