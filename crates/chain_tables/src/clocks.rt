//! Chains whose tasks arrive on one clock.
ghost use Rattle.std.specs.Prelude.{◌≡◌, [], IfOk};
ghost use Rattle.chain_tables.specs.Chains.{bad_offset_in, clock_fault, clocks_fault, may_arrive, offset_in, offset_of, steps_in};

use crate::fault::ChainFault;
use crate::judging::index_of;
use crate::table::Written;
use chains::{Step, starts_of, step_of};
use std::alloc::{AllocError, Global};
use task_sheet::{Name, TaskSet};

// The offset that a chain of these tasks has of one, where it does.
fn offset_in(names: &[Name], times: &[u64], task: Name) -> Option<u64>
    ensures { result ≡ offset_in names.now times.now task }
{
    let mut tasks = names;
    let mut offsets = times;
    while let Some((own, others)) = tasks.split_first() {
        let (offset, later) = offsets.split_first()?;
        if *own == task {
            return Some(*offset);
        }
        tasks = others;
        offsets = later;
    }
    None
}

// That of the first of these chains that has one.
fn offset_of(chains: &[Written], task: Name) -> Option<u64>
    ensures { result ≡ offset_of chains.now task }
{
    for chain in chains {
        let offset = offset_in(&chain.tasks, &chain.offsets, task);
        if offset.is_some() {
            return offset;
        }
    }
    None
}

// Whether a task may arrive at an offset: below its period, and no other than the chains before have of it.
fn may_arrive(set: &TaskSet, before: &[Written], task: Name, offset: u64) -> bool
    ensures { result ≡ may_arrive set.now before.now task offset }
{
    let period = step_of(set, &[], index_of(set, task), 0).period;
    offset < period && offset_of(before, task).unwrap_or(offset) == offset
}

// The first of a chain's tasks that may not arrive at the offset that it has there.
fn bad_offset_in(set: &TaskSet, before: &[Written], chain: &Written) -> Option<ChainFault>
    ensures { result ≡ bad_offset_in set.now before.now chain.now.name chain.now.tasks chain.now.offsets }
{
    let mut tasks: &[Name] = &chain.tasks;
    let mut offsets: &[u64] = &chain.offsets;
    while let Some((task, others)) = tasks.split_first() {
        let (offset, later) = offsets.split_first()?;
        if !may_arrive(set, before, *task, *offset) {
            let (chain, task) = (chain.name, *task);
            return Some(ChainFault::BadOffset { chain, task });
        }
        tasks = others;
        offsets = later;
    }
    None
}

// The steps of its tasks, whatever their parts.
fn steps_in(alloc: Global, set: &TaskSet, chain: &Written) -> Result<Vec<Step>, AllocError>
    ensures { IfOk result (λ steps. steps.items ≡ steps_in set.now chain.now) }
{
    let mut steps = Vec::with_capacity(alloc, chain.tasks.len())?;
    let mut offsets: &[u64] = &chain.offsets;
    for task in &chain.tasks {
        steps.push(step_of(set, offsets, index_of(set, *task), 0))?;
        offsets = offsets.get(1..).unwrap_or(&[]);
    }
    Ok(steps)
}

// Why a chain's offsets are none on one clock with the chains before.
fn clock_fault(
    alloc: Global,
    set: &TaskSet,
    before: &[Written],
    chain: &Written,
) -> Result<Option<ChainFault>, AllocError>
    ensures { IfOk result (λ fault. fault ≡ clock_fault set.now before.now chain.now) }
{
    let fault = bad_offset_in(set, before, chain);
    if fault.is_some() {
        return Ok(fault);
    }
    let steps = steps_in(alloc, set, chain)?;
    match starts_of(&steps) {
        Some(_) => Ok(None),
        None => {
            let chain = chain.name;
            Ok(Some(ChainFault::TooManyArrivals { chain }))
        }
    }
}

/// The first chain whose offsets are none on one clock with those before it: `BadOffset`, `TooManyArrivals`. The error is
/// out of memory.
pub(crate) fn clocks_fault(
    alloc: Global,
    set: &TaskSet,
    chains: &[Written],
) -> Result<Option<ChainFault>, AllocError>
    ensures { IfOk result (λ fault. fault ≡ clocks_fault set.now [] chains.now) }
{
    for (i, chain) in chains.iter().enumerate() {
        let fault = clock_fault(alloc, set, &chains[..i], chain)?;
        if fault.is_some() {
            return Ok(fault);
        }
    }
    Ok(None)
}
