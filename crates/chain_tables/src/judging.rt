//! The chains of a set.
ghost use Rattle.std.specs.Prelude.{◌≡◌, map, IfOk, MatchResult};
ghost use Rattle.teams.specs.NodeDocument.{node_word};
ghost use Rattle.chain_tables.specs.Chains.{HasChains, HasNoChains, chain_of, index_of, strange, strange_in, taken, team_word, written_fault};

use crate::clocks::clocks_fault;
use crate::documents::{Repeat, first_repeat, read_written};
use crate::fault::{ChainFault, Whose};
use crate::table::Written;
use chains::Writes;
use std::alloc::{AllocError, Global};
use std::marker::Model;
use task_sheet::{Name, TaskSet};

/// The most chains of a set.
pub const CHAIN_LIMIT: usize = 16;

/// A chain of a set: its name, its tasks by index, the first one first, the limit of its bound in microseconds, if it has
/// one, the offsets of its tasks, none where they aren't known, and when its tasks write.
#[derive(Drop)]
pub struct Chain {
    pub name: Name,
    pub tasks: Vec<usize>,
    pub limit: Option<u64>,
    pub offsets: Vec<u64>,
    pub writes: Writes,
}

impl Model for Chain {
    ghost use Rattle.chain_tables.specs.Chains.{ChainData};

    ghost Value = { ChainData };

    ghost view = { λ c. record {
      name = c.name;
      tasks = c.tasks.items;
      limit = c.limit;
      offsets = c.offsets.items;
      writes = c.writes;
    } };
}

// What stands for the node in place of a team.
fn node_name() -> Name
    ensures { result ≡ node_word }
{
    match Name::read(b"node") {
        Ok(name) => name,
        Err(_) => unreachable!(),
    }
}

// What stands for a document in place of a team.
fn team_of(whose: Whose) -> Name
    ensures { result ≡ team_word whose }
{
    match whose {
        Whose::Alone | Whose::Node => node_name(),
        Whose::Team { team } => team,
    }
}

// The fault of a chain with the name of another document's.
fn taken(repeat: Repeat) -> ChainFault
    ensures { result ≡ taken repeat }
{
    ChainFault::Taken {
        team: team_of(repeat.whose),
        chain: repeat.name,
        other: team_of(repeat.other),
    }
}

// The first of a chain's tasks that a set doesn't have.
fn strange_in(set: &TaskSet, chain: Name, tasks: &[Name]) -> Option<ChainFault>
    ensures { result ≡ strange_in set.now chain tasks.now }
{
    for task in tasks {
        if set.find(*task).is_none() {
            let task = *task;
            return Some(ChainFault::NoSuchTask { chain, task });
        }
    }
    None
}

// The first of all chains' tasks.
fn strange(set: &TaskSet, chains: &[Written]) -> Option<ChainFault>
    ensures { result ≡ strange set.now chains.now }
{
    for chain in chains {
        let fault = strange_in(set, chain.name, &chain.tasks);
        if fault.is_some() {
            return fault;
        }
    }
    None
}

// Why chains are none together.
fn written_fault(
    alloc: Global,
    set: &TaskSet,
    chains: &[Written],
) -> Result<Option<ChainFault>, AllocError>
    ensures { IfOk result (λ fault. fault ≡ written_fault set.now chains.now) }
{
    if chains.len() > CHAIN_LIMIT {
        return Ok(Some(ChainFault::TooManyChains));
    }
    if let Some(repeat) = first_repeat(chains) {
        return Ok(Some(taken(repeat)));
    }
    match strange(set, chains) {
        Some(fault) => Ok(Some(fault)),
        None => clocks_fault(alloc, set, chains),
    }
}

// The index of a task; 0 where the set has none of the name.
pub(crate) fn index_of(set: &TaskSet, name: Name) -> usize
    ensures { result ≡ index_of set.now name }
{
    set.find(name).unwrap_or(0)
}

// The indexes of tasks.
fn indexes_of(alloc: Global, set: &TaskSet, names: &[Name]) -> Result<Vec<usize>, AllocError>
    ensures { IfOk result (λ tasks. tasks.items ≡ map (index_of set.now) names.now) }
{
    let mut tasks = Vec::with_capacity(alloc, names.len())?;
    for name in names {
        tasks.push(index_of(set, *name))?;
    }
    Ok(tasks)
}

// A chain that a document says.
fn chain_of(alloc: Global, set: &TaskSet, written: &Written) -> Result<Chain, AllocError>
    ensures { IfOk result (λ chain. chain ≡ chain_of set.now written.now) }
{
    let tasks = indexes_of(alloc, set, &written.tasks)?;
    let offsets = written.offsets.to_vec(alloc)?;
    Ok(Chain {
        name: written.name,
        tasks,
        limit: written.limit,
        offsets,
        writes: written.writes,
    })
}

// The chains that documents say.
fn chains_of(alloc: Global, set: &TaskSet, written: &[Written]) -> Result<Vec<Chain>, AllocError>
    ensures { IfOk result (λ chains. chains.items ≡ map (chain_of set.now) written.now) }
{
    let mut chains = Vec::with_capacity(alloc, written.len())?;
    for chain in written {
        chains.push(chain_of(alloc, set, chain)?)?;
    }
    Ok(chains)
}

/// The chains that a set's text says, in the order of its documents and within them as written; the text is the set's.
/// Refused in this order: document by document, the node's first, of each table `UnknownKey`, `MissingKey`, `WrongKind`,
/// `BadName`, `Length`, `TaskTwice`, `BadLimit`, `BadOffsets`, `BadWrites`, then `TooManyChains` and `SameName`; of all
/// together `TooManyChains`, `Taken`, `NoSuchTask`, and then chain by chain `BadOffset`, `TooManyArrivals`.
pub fn read_chains(alloc: Global, text: &[u8], set: &TaskSet) -> Result<Vec<Chain>, ChainFault>
    ensures { MatchResult result (λ chains. HasChains text.now set.now chains.items)
        (λ fault. HasNoChains text.now set.now fault) }
{
    let written = read_written(alloc, text)?;
    if let Some(fault) = written_fault(alloc, set, &written)? {
        return Err(fault);
    }
    let chains = chains_of(alloc, set, &written)?;
    Ok(chains)
}
