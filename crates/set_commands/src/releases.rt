//! `desk releases`.
ghost use Rattle.std.specs.Prelude.{◌≡◌, ◌++◌, drop, None, Some, IfOk, OnOk};
ghost use Rattle.answering.specs.Chosen.{asking_of};
ghost use Rattle.set_commands.specs.Releases.{Lists, ListsOf, SaysList, chained_tasks, steady_tasks};
ghost use Rattle.answering.specs.Outcomes.{IsCarriedOut, IsRead, failed_read};

use answering::{
    Audience, CommandRefusal, Status, Which, asking_of, print, read_owned, refuse, tell,
};
use ceiling_kernel::{Release, RunFault};
use chain_tables::Chain;
use command_line::Options;
use preferences::Asking;
use release_list::{SteadyTask, densest, list_text, random};
use std::alloc::{AllocError, Global};
use std::io::{Read, Write};
use streams::Watched;
use task_sheet::TaskSet;

// The offsets behind the first.
fn behind(offsets: &[u64]) -> &[u64]
    ensures { result.now ≡ drop 1 offsets.now }
{
    match offsets.split_first() {
        Some((_, others)) => others,
        None => offsets,
    }
}

// Adds tasks of a chain with these offsets.
fn push_steady(
    steady: &mut Vec<SteadyTask>,
    offsets: &[u64],
    tasks: &[usize],
) -> Result<(), AllocError>
    ensures { OnOk result (steady.new.items ≡ steady.old.items ++ steady_tasks offsets.now tasks.now) }
{
    let mut known = offsets;
    for task in tasks {
        steady.push(SteadyTask {
            task: *task,
            offset: known.first().copied(),
        })?;
        known = behind(known);
    }
    Ok(())
}

// The tasks of chains, with their offsets.
fn chained_tasks(alloc: Global, chains: &[Chain]) -> Result<Vec<SteadyTask>, AllocError>
    ensures { IfOk result (λ tasks. tasks.items ≡ chained_tasks chains.now) }
{
    let mut tasks = Vec::new(alloc);
    for chain in chains {
        push_steady(&mut tasks, &chain.offsets, &chain.tasks)?;
    }
    Ok(tasks)
}

// The random list of a seed, or why there is none: jobs of the chains' tasks come exactly a period apart.
fn random_list(
    alloc: Global,
    tasks: &TaskSet,
    chains: &[Chain],
    until: u64,
    seed: usize,
) -> Result<Vec<Release>, CommandRefusal>
    ensures { ListsOf (Some seed) until tasks.now chains.now result }
{
    let Ok(steady) = chained_tasks(alloc, chains) else {
        return Err(CommandRefusal::Run(RunFault::OutOfMemory));
    };
    match random(alloc, tasks, &steady, until, seed as u64) {
        Ok(releases) => Ok(releases),
        Err(fault) => Err(CommandRefusal::Run(fault)),
    }
}

// The densest list, or why there is none.
fn densest_list(
    alloc: Global,
    tasks: &TaskSet,
    chains: &[Chain],
    until: u64,
) -> Result<Vec<Release>, CommandRefusal>
    ensures { ListsOf None until tasks.now chains.now result }
{
    let Ok(steady) = chained_tasks(alloc, chains) else {
        return Err(CommandRefusal::Run(RunFault::OutOfMemory));
    };
    match densest(alloc, tasks, &steady, until) {
        Ok(releases) => Ok(releases),
        Err(fault) => Err(CommandRefusal::Run(fault)),
    }
}

// A set's list up to `until`: the random one of a seed, or else the densest; or why there is none.
fn list_of(
    alloc: Global,
    tasks: &TaskSet,
    chains: &[Chain],
    until: u64,
    seed: Option<usize>,
) -> Result<Vec<Release>, CommandRefusal>
    ensures { ListsOf seed until tasks.now chains.now result }
{
    match seed {
        Some(seed) => random_list(alloc, tasks, chains, until, seed),
        None => densest_list(alloc, tasks, chains, until),
    }
}

// The list of the set that the reader has, or why there is none.
fn list<R: Read + Drop, P: Audience>(
    alloc: Global,
    asking: Asking,
    set: &mut Watched<R>,
    until: u64,
    seed: Option<usize>,
    people: &mut P,
) -> Result<Vec<Release>, CommandRefusal>
    ensures answer { Lists asking seed until (R.remaining set.old.inner) result }
    ensures read { IsRead failed_read set.old set.new result }
{
    let (tasks, _owners, chains) = read_owned(alloc, asking, set, people)?;
    let releases = list_of(alloc, &tasks, &chains, until, seed);
    tell(&releases, &tasks, Which::First, b"", people);
    releases
}

/// `desk releases`: reads a task set, feasible or not, and prints a release list that it allows up to `until`, in
/// microseconds: the random one of the seed that is chosen, in which jobs of chains' tasks come exactly a period apart, or else
/// the densest, in which all do; in both these tasks arrive from their offsets on, where these are known. Or why the input, or
/// the list, was refused.
/// No kernel of the set refuses the list.
pub fn run_releases<R: Read + Drop, W: Write + Drop, P: Audience>(
    alloc: Global,
    options: Options<'_>,
    set: &mut Watched<R>,
    until: u64,
    output: &mut Watched<W>,
    people: &mut P,
) -> Status
    ensures { IsCarriedOut (SaysList (asking_of options.entry) options.entry.seed until)
        R.remaining W.contents set.old set.new output.old output.new result }
{
    let asking = asking_of(options);
    match list(alloc, asking, set, until, options.seed, people) {
        Ok(releases) => match list_text(alloc, until, &releases) {
            Ok(text) => print(text.as_bytes(), Status::Done, output),
            Err(_) => refuse(CommandRefusal::OutOfMemory, output),
        },
        Err(refusal) => refuse(refusal, output),
    }
}
