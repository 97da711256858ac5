//! What is printed of the chains of a trace.
ghost use Rattle.std.specs.Prelude.{◌≡◌, ◌++◌, IfOk, OnOk, ◌&&◌, true, map, string_bytes};
ghost use Rattle.std.specs.List.{list_all};
ghost use Rattle.chain_traces.specs.TraceChainLines.{AreSeen, bound_of, bound_with, chain_line, held_of, chain_lines, is_fresh, is_old, level_of, lines_of, most_in, old_line, outcome_in, outputs_of, scene_in, scene_of, steady_line, steady_lines};

use crate::deadlines::deadline_outputs;
use crate::executions::executions_in;
use crate::lates::{most_of, offsets_held};
use crate::outputs::outputs_in;
use crate::scene::Scene;
use crate::steady::{any_unsteady, farthest, is_past, is_unsteady};
use chain_runs::{ChainOutcome, ChainOutput, outcome_of, push_run_line};
use chain_tables::Chain;
use chains::{Level, Writes, bound_of};
use lines::{push_some, push_some_wide};
use observed::{Observed, Promise, Seen, end_of};
use std::alloc::{AllocError, Global};
use task_sheet::{Name, TaskSet};
use trace_text::TraceLines;

/// What is printed of a set's chains in a trace, and whether none is ever too old and each job of their tasks is steady.
#[derive(Drop)]
pub struct ChainsSeen {
    pub text: String,
    pub are_kept: bool,
}

// The level of a promise.
fn level_of(promise: &Promise) -> Level
    ensures { result ≡ level_of promise.now }
{
    Level {
        task: promise.task,
        response: Some(promise.bound),
    }
}

// The levels of an order.
fn levels_of(alloc: Global, promises: &[Promise]) -> Result<Vec<Level>, AllocError>
    ensures { IfOk result (λ levels. levels.items ≡ map level_of promises.now) }
{
    let mut levels = Vec::with_capacity(alloc, promises.len())?;
    for promise in promises {
        levels.push(level_of(promise))?;
    }
    Ok(levels)
}

// An age is past what it is held against, by more than is let pass.
fn is_old(tolerance: u64, age: Option<u64>, most: Option<u128>) -> bool
    ensures { result ≡ is_old tolerance age most }
{
    match most {
        Some(most) => is_past(tolerance, most, age),
        None => false,
    }
}

// The line of one that is.
fn push_old(
    text: &mut String,
    tolerance: u64,
    name: Name,
    age: Option<u64>,
    most: Option<u128>,
) -> Result<(), AllocError>
    ensures { OnOk result (string_bytes text.new ≡ string_bytes text.old ++ old_line tolerance name age most) }
{
    if !is_old(tolerance, age, most) {
        return Ok(());
    }
    write!(text, "age {name} ")?;
    push_some(text, age)?;
    text.push_str(" of ")?;
    push_some_wide(text, most)?;
    text.push_str("\n")
}

// The lines of a chain that comes to this.
fn push_chain(
    text: &mut String,
    tolerance: u64,
    chain: &Chain,
    outcome: ChainOutcome,
    bound: Option<u128>,
    most: Option<u128>,
) -> Result<(), AllocError>
    ensures { OnOk result (string_bytes text.new ≡ string_bytes text.old
        ++ lines_of tolerance chain.now outcome bound most) }
{
    push_run_line(text, chain, outcome, bound)?;
    push_old(text, tolerance, chain.name, outcome.age, most)
}

// What comes of a chain.
fn outputs_of(
    alloc: Global,
    scene: &Scene<'_>,
    chain: &Chain,
) -> Result<Vec<ChainOutput>, AllocError>
    ensures { IfOk result (λ outputs. outputs.items
        ≡ outputs_of chain.now.writes (scene_of scene.now) chain.now.tasks) }
{
    match chain.writes {
        Writes::AtFinish => outputs_in(alloc, scene.end, scene.executions, &chain.tasks),
        Writes::AtDeadline => {
            deadline_outputs(alloc, scene.set, scene.end, &chain.tasks, scene.seen)
        }
    }
}

// The bound of a chain, with these offsets.
fn bound_with(
    alloc: Global,
    scene: &Scene<'_>,
    chain: &Chain,
    offsets: &[u64],
) -> Result<Option<u128>, AllocError>
    ensures { IfOk result (λ bound. bound ≡ bound_with offsets.now (scene_of scene.now) chain.now) }
{
    let (set, levels) = (scene.set, scene.levels);
    bound_of(alloc, set, levels, chain.writes, offsets, &chain.tasks)
}

// The lines of a chain of a trace, and whether it is never too old.
fn see_chain(
    alloc: Global,
    text: &mut String,
    scene: &Scene<'_>,
    chain: &Chain,
) -> Result<bool, AllocError>
    ensures lines { OnOk result (string_bytes text.new ≡ string_bytes text.old
        ++ chain_line (scene_of scene.now) chain.now) }
    ensures is { IfOk result (λ b. b ≡ is_fresh (scene_of scene.now) chain.now) }
{
    let outputs = outputs_of(alloc, scene, chain)?;
    let outcome = outcome_of(scene.end, &outputs);
    let bound = bound_with(alloc, scene, chain, &chain.offsets)?;
    let offsets = offsets_held(chain.writes, scene.seen, &chain.tasks, &chain.offsets);
    let held = bound_with(alloc, scene, chain, offsets)?;
    let most = most_of(scene, chain, held);
    push_chain(text, scene.tolerance, chain, outcome, bound, most)?;
    Ok(!is_old(scene.tolerance, outcome.age, most))
}

// The lines of chains of a trace, and whether none is ever too old.
fn see_all(
    alloc: Global,
    text: &mut String,
    scene: &Scene<'_>,
    chains: &[Chain],
) -> Result<bool, AllocError>
    ensures lines { OnOk result (string_bytes text.new ≡ string_bytes text.old
        ++ chain_lines (scene_of scene.now) chains.now) }
    ensures are { IfOk result (λ b. b ≡ list_all (is_fresh (scene_of scene.now)) chains.now) }
{
    let mut are_kept = true;
    for chain in chains {
        let is_kept = see_chain(alloc, text, scene, chain)?;
        are_kept = are_kept && is_kept;
    }
    Ok(are_kept)
}

// The line of a job of a chain's task that isn't steady.
fn push_steady(
    text: &mut String,
    tolerance: u64,
    chains: &[Chain],
    seen: &Seen,
) -> Result<(), AllocError>
    ensures { OnOk result (string_bytes text.new ≡ string_bytes text.old
        ++ steady_line tolerance chains.now seen.now) }
{
    if !is_unsteady(tolerance, chains, seen) {
        return Ok(());
    }
    let name = seen.promise.name;
    let arrival = seen.arrival;
    let most = farthest(seen);
    write!(text, "steady {name} {arrival} ")?;
    push_some(text, seen.gap)?;
    writeln!(text, " of {most}")
}

// Those of all.
fn push_unsteady(
    text: &mut String,
    tolerance: u64,
    chains: &[Chain],
    seen: &[Seen],
) -> Result<(), AllocError>
    ensures { OnOk result (string_bytes text.new ≡ string_bytes text.old
        ++ steady_lines tolerance chains.now seen.now) }
{
    for job in seen {
        push_steady(text, tolerance, chains, job)?;
    }
    Ok(())
}

/// What is printed of a set's chains in a trace, beside what it shows of the set's jobs, and whether none is ever too old and
/// each job of their tasks is steady, but for what is let pass. The error is out of memory.
pub fn see_chains(
    alloc: Global,
    tolerance: u64,
    set: &TaskSet,
    chains: &[Chain],
    observed: &Observed,
    trace: &TraceLines,
) -> Result<ChainsSeen, AllocError>
    ensures { IfOk result (AreSeen tolerance set.now chains.now observed.now.promises.items
        observed.now.seen.items trace.now) }
{
    let levels = levels_of(alloc, &observed.promises)?;
    let executions = executions_in(alloc, set, trace)?;
    let scene = Scene {
        tolerance,
        set,
        levels: &levels,
        seen: &observed.seen,
        executions: &executions,
        end: end_of(&trace.slices, &trace.jobs),
    };
    let mut text = String::new(alloc);
    push_unsteady(&mut text, tolerance, chains, &observed.seen)?;
    let are_fresh = see_all(alloc, &mut text, &scene, chains)?;
    let are_kept = are_fresh && !any_unsteady(tolerance, chains, &observed.seen);
    Ok(ChainsSeen { text, are_kept })
}
