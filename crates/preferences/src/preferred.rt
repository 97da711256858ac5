//! Sets by a preference.
ghost use Rattle.std.specs.Prelude.{◌≡◌, ◌<◌, ◌≤◌, ◌⊎◌, length, position, IfOk, IfErr, IfSome};
ghost use Rattle.task_sheet.specs.declared.set.TheConstants.{TASK_LIMIT};
ghost use Rattle.task_sheet.specs.declared.sheet.TheConstants.{WEIGHT_LIMIT};
ghost use Rattle.task_sheet.specs.Rank.{IsByRank};
ghost use Rattle.task_sheet.specs.Sheet.{same_bytes, weighing};
ghost use Rattle.preferences.specs.Preferences.{longer_limits, tasks_from, place_by, place_in, place_of, is_behind, lower_tasks, weighed, weight_by, IsPreferred};
ghost use Rattle.preferences.specs.ReadsPreferred.{AreChainsFor, ReadsPreferred};

use crate::choice::Choice;
use chain_tables::{ChainFault, Written, read_written};
use chains::Writes;
use std::alloc::{AllocError, AllocFailed, Global};
use task_sheet::{Name, Preference, SetCause, Sheet, TaskSet};
use teams::{TeamsFault, read_text};

/// A set as it is by a preference, and who says so.
#[derive(Debug, Drop)]
pub struct Preferred {
    pub set: TaskSet,
    pub choice: Choice,
}

// How many tasks have a longer limit.
fn longer_limits(sheets: &[Sheet], limit: u64) -> u64
    ensures value { result ≡ longer_limits sheets.now limit }
    ensures limit { result ≤ length sheets.now }
{
    sheets.iter().filter(|sheet| limit < sheet.limit()).count() as u64
}

// Where a task stands in a list of names.
fn position_in(name: Name, names: &[Name]) -> Option<usize>
    ensures value { result ≡ position (λ n. same_bytes n name) names.now }
    ensures inside { IfSome result (λ k. k < length names.now) }
{
    names.iter().position(|other| *other == name)
}

// How many there are from there on.
fn tasks_from(names: &[Name], at: Option<usize>) -> u64
    requires { IfSome at (λ k. k < length names.now) }
    ensures { result ≡ tasks_from names.now at }
{
    match at {
        Some(k) => (names.len() - k) as u64,
        None => 0,
    }
}

// The place of a task from the end of a chain of these tasks; 0 where the chain doesn't have it, or its bound is the same in
// each order.
fn place_by(writes: Writes, name: Name, tasks: &[Name]) -> u64
    ensures { result ≡ place_by writes name tasks.now }
{
    match writes {
        Writes::AtFinish => tasks_from(tasks, position_in(name, tasks)),
        Writes::AtDeadline => 0,
    }
}

// The same of a chain.
fn place_in(name: Name, chain: &Written) -> u64
    ensures { result ≡ place_in name chain.now }
{
    place_by(chain.writes, name, &chain.tasks)
}

// Its greatest place from the end of a chain; 0 where it is in none.
fn place_of(chains: &[Written], sheet: &Sheet) -> u64
    ensures { result ≡ place_of chains.now sheet.now }
{
    let mut greatest = 0;
    for chain in chains {
        greatest = greatest.max(place_in(sheet.name(), chain));
    }
    greatest
}

// Whether the first task is wanted lower by chains.
fn is_behind(chains: &[Written], first: &Sheet, second: &Sheet) -> bool
    ensures { result ≡ is_behind chains.now first.now second.now }
{
    let place = place_of(chains, first);
    let other = place_of(chains, second);
    place < other || place == other && second.limit() < first.limit()
}

// How many tasks are wanted lower than one by chains.
fn lower_tasks(chains: &[Written], sheets: &[Sheet], sheet: &Sheet) -> u64
    ensures value { result ≡ lower_tasks chains.now sheets.now sheet.now }
    ensures limit { result ≤ length sheets.now }
{
    sheets
        .iter()
        .filter(|other| is_behind(chains, other, sheet))
        .count() as u64
}

// The weight of one of these tasks by a preference.
fn weight_by(preference: Preference, chains: &[Written], sheets: &[Sheet], sheet: &Sheet) -> u64
    requires few { length sheets.now ≤ TASK_LIMIT }
    ensures value { result ≡ weight_by preference chains.now sheets.now sheet.now }
    ensures limit { result ≤ WEIGHT_LIMIT }
{
    match preference {
        Preference::Weights => sheet.weight(),
        Preference::Deadline => longer_limits(sheets, sheet.limit()),
        Preference::Chains => lower_tasks(chains, sheets, sheet),
    }
}

// The sheet of one of these tasks, its weight so replaced.
fn weighed_sheet(
    alloc: Global,
    preference: Preference,
    chains: &[Written],
    sheets: &[Sheet],
    sheet: &Sheet,
) -> Result<Sheet, AllocError>
    requires few { length sheets.now ≤ TASK_LIMIT }
    ensures { IfOk result (λ other. other
        ≡ weighing sheet.now (weight_by preference chains.now sheets.now sheet.now)) }
{
    let weight = weight_by(preference, chains, sheets, sheet);
    Ok(sheet.copy(alloc)?.weighing(weight))
}

// These sheets, each weight so replaced.
fn weighed_sheets(
    alloc: Global,
    preference: Preference,
    chains: &[Written],
    sheets: &[Sheet],
) -> Result<Vec<Sheet>, AllocError>
    requires few { length sheets.now ≤ TASK_LIMIT }
    ensures { IfOk result (λ others. others.items
        ≡ weighed (weight_by preference chains.now sheets.now) sheets.now) }
{
    let mut others = Vec::with_capacity(alloc, sheets.len())?;
    for sheet in sheets {
        others.push(weighed_sheet(alloc, preference, chains, sheets, sheet)?)?;
    }
    Ok(others)
}

// The set with these weights. The error is out of memory.
#[tactic(auto, using(crate::proofs::WeightLaws::no_fault_weighed))]
fn weighed(
    alloc: Global,
    preference: Preference,
    chains: &[Written],
    set: &TaskSet,
) -> Result<TaskSet, AllocError>
    ensures { IfOk result (λ other. IsByRank
        (weighed (weight_by preference chains.now set.now) set.now) other) }
{
    let sheets = weighed_sheets(alloc, preference, chains, set.sheets())?;
    match TaskSet::new(alloc, sheets) {
        Ok(other) => Ok(other),
        Err(fault) => match fault.cause {
            SetCause::OutOfMemory => Err(AllocError),
            _ => unreachable!(),
        },
    }
}

/// The set by a preference and these chains. By weights it is as it is. By deadlines each weight is replaced by how many tasks
/// of the set have a longer limit: so the best of all passing orders bears most, it passes with whatever costs and sections
/// some order passes (Leung, Whitehead 1982; with jitter Zuhily, Burns 2007). By chains by how many are wanted lower: tasks of
/// no chain are lowest, then each the nearer it is to the end of a chain, and of one place by deadlines. The error is out of
/// memory, and hands the set back; by weights none is taken.
pub fn prefer(
    alloc: Global,
    set: TaskSet,
    preference: Preference,
    chains: &[Written],
) -> Result<TaskSet, AllocFailed<TaskSet>>
    ensures ok { IfOk result (λ other. IsPreferred preference chains.now set other) }
    ensures back { IfErr result (λ e. e.value ≡ set) }
    ensures memory { IfErr result (λ _. (preference ≡ Preference.Deadline)
        ⊎ (preference ≡ Preference.Chains)) }
{
    match preference {
        Preference::Weights => Ok(set),
        Preference::Deadline | Preference::Chains => {
            match weighed(alloc, preference, chains, &set) {
                Ok(other) => Ok(other),
                Err(_) => Err(AllocFailed { value: set }),
            }
        }
    }
}

// The chains by which the set of a text is preferred: those that it says, where it is by chains; none where they are faulty,
// which is refused later.
fn chains_for(
    alloc: Global,
    text: &[u8],
    preference: Preference,
) -> Result<Vec<Written>, AllocError>
    ensures { IfOk result (λ chains. AreChainsFor preference text.now chains.items) }
{
    match preference {
        Preference::Weights | Preference::Deadline => Ok(Vec::new(alloc)),
        Preference::Chains => match read_written(alloc, text) {
            Ok(chains) => Ok(chains),
            Err(ChainFault::OutOfMemory) => Err(AllocError),
            Err(_) => Ok(Vec::new(alloc)),
        },
    }
}

/// Reads a task set from a text, one TOML document or the documents of teams, as `teams::read_text` does, and takes it by
/// what the call prefers; where the call says nothing, by what the text prefers; else by weights. The refusals are those
/// of `read_text`: by chains a set whose chains are none is by deadlines.
pub fn read_preferred(
    alloc: Global,
    text: &[u8],
    call: Option<Preference>,
) -> Result<Preferred, TeamsFault>
    ensures { ReadsPreferred call text.now result }
{
    let document = read_text(alloc, text)?;
    let own = document.prefers;
    let choice = Choice { call, own };
    let preference = choice.preference();
    let chains = chains_for(alloc, text, preference)?;
    match prefer(alloc, document.set, preference, &chains) {
        Ok(set) => Ok(Preferred { set, choice }),
        Err(_) => Err(TeamsFault::OutOfMemory),
    }
}
