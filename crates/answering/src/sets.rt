//! Reading the inputs of a command: a set, or a set and a text.
ghost use Rattle.std.specs.Prelude.{◌≡◌, ◌≤◌, ◌++◌, List, Err, IfOk, MatchResult, OnOk};
ghost use Rattle.owners.specs.Owners.{AreOwners};
ghost use Rattle.preferences.specs.ReadsAsked.{SaysAsked};
ghost use Rattle.answering.specs.Chosen.{asking_of, base_of, is_sorted, room_of, team_chosen};
ghost use Rattle.answering.specs.OnBoth.{HaveBoth};
ghost use Rattle.answering.specs.Owning.{HasChained, HasOwned, IsTakenBy, SaysOwned, clocked_by, clocked_if};
ghost use Rattle.chain_tables.specs.Chains.{HasChains};
ghost use Rattle.answering.specs.Sets.{HasNoSet, HasSet, HaveNotBoth, IsNoSet, asked_refusal};
ghost use Rattle.answering.specs.Outcomes.{AreRead, IsRead, failed_read};
ghost use Rattle.streams.specs.Inputs.{IsLonger, IsReadUpTo};
ghost use Rattle.streams.specs.declared.input.TheConstants.{TRACE_LIMIT};

use crate::audience::{Audience, Which};
use crate::refusal::CommandRefusal;
use chain_tables::Chain;
use command_line::{MOST_PRIORITY, MOST_ROOM, MOST_TEAM, Options, Preferred};
use owners::{Owner, read_owners};
use preferences::{AskedFault, Asking, Preference, Strictness, read_asked};
use std::alloc::{AllocError, Global};
use std::io::Read;
use streams::{INPUT_LIMIT, InputFault, Watched, read_input};
use task_sheet::TaskSet;

/// A set, by what it was taken, whose its tasks are, its chains, and all that a second input has.
#[derive(Drop)]
pub struct Both {
    pub by: Preference,
    pub tasks: TaskSet,
    pub owners: Vec<Owner>,
    pub chains: Vec<Chain>,
    pub text: Vec<u8>,
}

// A set, by what it was taken, whose its tasks are, and its chains.
#[derive(Drop)]
struct Taken {
    by: Preference,
    tasks: TaskSet,
    owners: Vec<Owner>,
    chains: Vec<Chain>,
}

/// All that an input has, up to so many bytes; or why it was not read, which the audience is told.
pub fn read_told<R: Read + Drop, P: Audience>(
    alloc: Global,
    which: Which,
    most: usize,
    input: &mut Watched<R>,
    people: &mut P,
) -> Result<Vec<u8>, InputFault>
    requires { most ≤ TRACE_LIMIT }
    ensures whole { IfOk result (λ bytes. IsReadUpTo most (R.remaining input.old.inner) bytes.items) }
    ensures too_long { result ≡ Err InputFault.TooLong → IsLonger most (R.remaining input.old.inner) }
    ensures read { IsRead InputFault.ReadFailed input.old input.new result }
{
    let bytes = read_input(alloc, input, most);
    if let Err(fault) = &bytes {
        people.refused(which, b"", CommandRefusal::Input(*fault));
    }
    bytes
}

/// What a call's words ask of the sets that it reads.
pub fn asking_of(options: Options<'_>) -> Asking
    ensures { result ≡ asking_of options.entry }
{
    let prefer = match options.prefer {
        Some(Preferred::Deadline) => Some(Preference::Deadline),
        Some(Preferred::Chains) => Some(Preference::Chains),
        Some(Preferred::Weight) => Some(Preference::Weights),
        None => None,
    };
    let strictness = if options.is_strict {
        Strictness::Strict
    } else {
        Strictness::AsSaid
    };
    Asking { prefer, strictness }
}

// Why bytes say no set as it is asked for.
fn asked_refusal(fault: AskedFault) -> CommandRefusal
    ensures { result ≡ asked_refusal fault }
{
    match fault {
        AskedFault::Text(fault) => CommandRefusal::Set(fault),
        AskedFault::Doubt(doubt) => CommandRefusal::Doubtful(doubt),
        AskedFault::Chain(fault) => CommandRefusal::Chain(fault),
    }
}

/// The priority of level 1 that the words choose.
pub fn base_of(options: Options<'_>) -> u32
    ensures { result ≡ base_of options.entry }
{
    match options.base {
        Some(base) => base.min(MOST_PRIORITY) as u32,
        None => 1,
    }
}

/// Whether the words ask for lines of levels by slack.
pub fn is_sorted(options: Options<'_>) -> bool
    ensures { result ≡ is_sorted options.entry }
{
    options.sort.is_some()
}

/// How much room the words choose beside a number that is given anew.
pub fn room_of(options: Options<'_>) -> u32
    ensures { result ≡ room_of options.entry }
{
    match options.room {
        Some(room) => room.min(MOST_ROOM) as u32,
        None => 0,
    }
}

/// The number of a team that the words choose.
pub fn team_chosen(options: Options<'_>) -> Option<u64>
    ensures { result ≡ team_chosen options.entry }
{
    let team = options.team?;
    Some(team.min(MOST_TEAM).max(1) as u64)
}

// The set that bytes say, as the call asks for it, by what it is taken, and its chains; or why there is none. The
// audience is told either.
#[tactic(auto, using(crate::proofs::SetRefusals::refused_as))]
fn set_told<P: Audience>(
    alloc: Global,
    asking: Asking,
    bytes: &[u8],
    people: &mut P,
) -> Result<(TaskSet, Preference, Vec<Chain>), CommandRefusal>
    ensures { MatchResult result (λ taken. SaysAsked asking bytes.now taken.0
        × IsTakenBy asking bytes.now taken.1 × HasChains bytes.now taken.0 taken.2.items)
        (λ r. IsNoSet asking bytes.now r) }
{
    let read = read_asked(alloc, bytes, asking);
    match &read {
        Ok(preferred) => {
            people.preferred(&preferred.set, preferred.choice);
            people.chained(&preferred.chains);
        }
        Err(fault) => people.refused(Which::First, bytes, asked_refusal(*fault)),
    }
    match read {
        Ok(preferred) => {
            let by = preferred.choice.preference();
            Ok((preferred.set, by, preferred.chains))
        }
        Err(fault) => Err(asked_refusal(fault)),
    }
}

// Adds the tasks of a chain, where it has offsets.
fn push_clocked(owners: &mut Vec<Owner>, chain: &Chain) -> Result<(), AllocError>
    ensures { OnOk result (owners.new.items
        ≡ owners.old.items ++ clocked_if chain.now.offsets chain.now.tasks) }
{
    if chain.offsets.is_empty() {
        return Ok(());
    }
    for task in &chain.tasks {
        owners.push(Owner::Clocked { task: *task })?;
    }
    Ok(())
}

// What a set's text says beside the set, and which tasks arrive on a clock by the offsets of these chains.
fn owners_of(alloc: Global, bytes: &[u8], chains: &[Chain]) -> Result<Vec<Owner>, AllocError>
    ensures { IfOk result (λ owners. (whose : List Owner) × AreOwners bytes.now whose
        × (owners.items ≡ whose ++ clocked_by chains.now)) }
{
    let mut owners = read_owners(alloc, bytes)?;
    for chain in chains {
        push_clocked(&mut owners, chain)?;
    }
    Ok(owners)
}

// The same, with whose its tasks are.
fn taken_told<P: Audience>(
    alloc: Global,
    asking: Asking,
    bytes: &[u8],
    people: &mut P,
) -> Result<Taken, CommandRefusal>
    ensures { MatchResult result
        (λ taken. SaysOwned asking bytes.now taken.tasks taken.owners.items
        × IsTakenBy asking bytes.now taken.by × HasChains bytes.now taken.tasks taken.chains.items)
        (λ r. IsNoSet asking bytes.now r) }
{
    let (tasks, by, chains) = set_told(alloc, asking, bytes, people)?;
    let owners = owners_of(alloc, bytes, &chains)?;
    Ok(Taken {
        by,
        tasks,
        owners,
        chains,
    })
}

/// The set that the reader has, as the call asks for it; or why there is none, which the audience is told.
#[tactic(auto, using(crate::proofs::SetRefusals::one_refused))]
pub fn read_one<R: Read + Drop, P: Audience>(
    alloc: Global,
    asking: Asking,
    set: &mut Watched<R>,
    people: &mut P,
) -> Result<TaskSet, CommandRefusal>
    ensures answer { MatchResult result (λ tasks. HasSet asking
        (R.remaining set.old.inner) tasks)
        (λ r. HasNoSet asking (R.remaining set.old.inner) r) }
    ensures read { IsRead failed_read set.old set.new result }
{
    let bytes = read_told(alloc, Which::First, INPUT_LIMIT, set, people).map_err(
        CommandRefusal::Input,
    )?;
    match set_told(alloc, asking, &bytes, people) {
        Ok((tasks, _by, _chains)) => Ok(tasks),
        Err(refusal) => Err(refusal),
    }
}

/// The set that the reader has, as the call asks for it, whose its tasks are, and its chains; or why there is none, which
/// the audience is told.
#[tactic(auto, using(crate::proofs::SetRefusals::one_refused))]
pub fn read_owned<R: Read + Drop, P: Audience>(
    alloc: Global,
    asking: Asking,
    set: &mut Watched<R>,
    people: &mut P,
) -> Result<(TaskSet, Vec<Owner>, Vec<Chain>), CommandRefusal>
    ensures answer { MatchResult result
        (λ owned. HasOwned asking (R.remaining set.old.inner) owned.0 owned.1.items)
        (λ r. HasNoSet asking (R.remaining set.old.inner) r) }
    ensures chains { IfOk result
        (λ owned. HasChained (R.remaining set.old.inner) owned.0 owned.2.items) }
    ensures read { IsRead failed_read set.old set.new result }
{
    let bytes = read_told(alloc, Which::First, INPUT_LIMIT, set, people).map_err(
        CommandRefusal::Input,
    )?;
    match taken_told(alloc, asking, &bytes, people) {
        Ok(
            Taken {
                tasks,
                owners,
                chains,
                ..
            },
        ) => Ok((tasks, owners, chains)),
        Err(refusal) => Err(refusal),
    }
}

/// The set that the first reader has, as the call asks for it, whose its tasks are, its chains, and what the second has, up
/// to so many bytes; or why there are not both, which the audience is told. Both are read before the set's bytes are, the
/// first one first: where it is refused, nothing is read of the second.
pub fn read_two<R: Read + Drop, S: Read + Drop, P: Audience>(
    alloc: Global,
    asking: Asking,
    set: &mut Watched<R>,
    other: &mut Watched<S>,
    most: usize,
    people: &mut P,
) -> Result<Both, CommandRefusal>
    requires { most ≤ TRACE_LIMIT }
    ensures answer { MatchResult result
        (λ both. HaveBoth most asking (R.remaining set.old.inner) (S.remaining other.old.inner) both)
        (λ r. HaveNotBoth most asking (R.remaining set.old.inner) (S.remaining other.old.inner) r) }
    ensures read { AreRead failed_read R.remaining set.old set.new other.old other.new
        result }
{
    let bytes = read_told(alloc, Which::First, INPUT_LIMIT, set, people).map_err(
        CommandRefusal::Input,
    )?;
    let text = read_told(alloc, Which::Second, most, other, people).map_err(CommandRefusal::Input)?;
    match taken_told(alloc, asking, &bytes, people) {
        Ok(
            Taken {
                by,
                tasks,
                owners,
                chains,
            },
        ) => Ok(Both {
            by,
            tasks,
            owners,
            chains,
            text,
        }),
        Err(refusal) => Err(refusal),
    }
}

/// Tells what became of a set: that an answer on it follows, or that the text of an input, or a number beside the set,
/// was refused.
pub fn tell<T, P: Audience>(
    answer: &Result<T, CommandRefusal>,
    tasks: &TaskSet,
    which: Which,
    text: &[u8],
    people: &mut P,
) {
    match answer {
        Ok(_) => people.read(tasks),
        Err(CommandRefusal::OutOfMemory) => {}
        Err(refusal) => people.refused(which, text, *refusal),
    }
}
