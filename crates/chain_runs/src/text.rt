//! What is printed of the chains of a run.
ghost use Rattle.std.specs.Prelude.{◌≡◌, ◌++◌, IfOk, OnOk, string_bytes};
ghost use Rattle.lines.specs.Known.{some_words};
ghost use Rattle.chain_runs.specs.RunChainLines.{outcome_words, run_chain_lines, run_chains_said, run_line};

use crate::outcome::{ChainOutcome, outcome_of};
use crate::outputs::outputs_of;
use crate::strays::push_strays;
use ceiling_kernel::Trace;
use chain_tables::Chain;
use chains::{Level, bound_of};
use lines::{push_some, push_some_wide};
use std::alloc::{AllocError, Global};
use task_sheet::TaskSet;

// A word and a time, or that there is none.
fn push_time(text: &mut String, word: &str, time: Option<u64>) -> Result<(), AllocError>
    ensures { OnOk result (string_bytes text.new ≡ string_bytes text.old ++ word.now ++ some_words time) }
{
    text.push_str(word)?;
    push_some(text, time)
}

// What a chain came to.
fn push_outcome(text: &mut String, outcome: ChainOutcome) -> Result<(), AllocError>
    ensures { OnOk result (string_bytes text.new ≡ string_bytes text.old ++ outcome_words outcome) }
{
    let count = outcome.outputs;
    write!(text, " {count}")?;
    push_time(text, " age ", outcome.age)?;
    push_time(text, " reaction ", outcome.reaction)
}

/// The line of a chain that comes to this in a run, with this bound.
pub fn push_run_line(
    text: &mut String,
    chain: &Chain,
    outcome: ChainOutcome,
    bound: Option<u128>,
) -> Result<(), AllocError>
    ensures { OnOk result (string_bytes text.new ≡ string_bytes text.old ++ run_line chain.now outcome bound) }
{
    let name = chain.name;
    write!(text, "chain {name}")?;
    push_outcome(text, outcome)?;
    text.push_str(" bound ")?;
    push_some_wide(text, bound)?;
    text.push_str("\n")
}

// The lines of a chain in a run that ends at `until`.
fn push_chain(
    text: &mut String,
    set: &TaskSet,
    levels: &[Level],
    chain: &Chain,
    until: u64,
    trace: &Trace,
    alloc: Global,
) -> Result<(), AllocError>
    ensures { OnOk result (string_bytes text.new ≡ string_bytes text.old
        ++ run_chain_lines set.now levels.now until trace.now chain.now) }
{
    let (writes, tasks) = (chain.writes, chain.tasks.as_slice());
    let outputs = outputs_of(alloc, set, until, trace, writes, tasks)?;
    let outcome = outcome_of(until, &outputs);
    let bound = bound_of(alloc, set, levels, writes, &chain.offsets, tasks)?;
    push_run_line(text, chain, outcome, bound)?;
    push_strays(text, set, trace, &chain.offsets, tasks)
}

/// The lines of chains in a run that ends at `until`, in an order whose levels have these responses: of each how many outputs
/// came from a sample, the greatest age and the greatest reaction, and the chain's bound; and behind it each task of the chain
/// that isn't on its clock, where the run begins with that. The error is out of memory.
pub fn run_chains_text(
    alloc: Global,
    set: &TaskSet,
    levels: &[Level],
    chains: &[Chain],
    until: u64,
    trace: &Trace,
) -> Result<String, AllocError>
    ensures { IfOk result (λ text. string_bytes text
        ≡ run_chains_said set.now levels.now until trace.now chains.now) }
{
    let mut text = String::new(alloc);
    for chain in chains {
        push_chain(&mut text, set, levels, chain, until, trace, alloc)?;
    }
    Ok(text)
}
