//! `desk diff`.
ghost use Rattle.std.specs.Prelude.{◌≡◌, ◌++◌, IfOk, MatchResult, string_bytes};
ghost use Rattle.assignment.specs.Placings.{IsPlacingOf};
ghost use Rattle.chain_tables.specs.Chains.{HasChains};
ghost use Rattle.two_input_commands.specs.Diff.{AreCompared, ComparesBoth, ComparesText, IsNew, IsNoNew, both_lines, compared_lines, new_refusal};

use crate::chained::ChainsTold;
use answering::{
    Answer, Both, CommandRefusal, Notes, OrderPart, joined, placing_status, placing_text,
};
use assignment::{Placing, place_all};
use ceilings::{LockTable, Tabled};
use chain_lines::all_met;
use chain_tables::Chain;
use diff::{ChainSide, Side, chain_text, change_text, whole_text};
use least_chains::levels_of;
use owners::{Owner, read_owners};
use preferences::{AskedFault, Asking, Choice, Preference, read_asked};
use std::alloc::{AllocError, Global};
use task_sheet::TaskSet;

// What becomes of a set, and the set that it becomes.
#[derive(Drop)]
pub(crate) struct Compared {
    /// What became of the first set.
    pub was: Placing,
    /// The new set.
    pub set: TaskSet,
    /// Whose its tasks are.
    pub owners: Vec<Owner>,
    /// What becomes of it.
    pub is: Placing,
    /// By what the first set was taken.
    pub was_by: Preference,
    /// By what the new one is, and who says so.
    pub is_by: Preference,
    pub choice: Choice,
    /// What is printed of their chains, and whether the bound of each of the new set's is within its limit.
    pub chains: ChainsTold,
}

// A set's chains, with what becomes of the set.
#[derive(Clone, Copy)]
struct Linked<'a> {
    set: &'a TaskSet,
    placing: &'a Placing,
    chains: &'a [Chain],
}

// What becomes of a set's tasks.
fn place_set(alloc: Global, set: &TaskSet) -> Result<Placing, AllocError>
    ensures { IfOk result (λ placing. IsPlacingOf set.now placing) }
{
    let table = LockTable::new(alloc, set)?;
    place_all(alloc, &Tabled::of(set, &table))
}

// Why a text says no new set as it is asked for.
fn new_refusal(fault: AskedFault) -> CommandRefusal
    ensures { result ≡ new_refusal fault }
{
    match fault {
        AskedFault::Text(fault) => CommandRefusal::New(fault),
        AskedFault::Doubt(doubt) => CommandRefusal::NewDoubtful(doubt),
        AskedFault::Chain(fault) => CommandRefusal::NewChain(fault),
    }
}

// What a change does to a set's chains.
fn chains_compared(
    alloc: Global,
    old: &Linked<'_>,
    new: &Linked<'_>,
) -> Result<ChainsTold, AllocError>
    ensures { IfOk result (AreCompared old.now.chains.now old.now.set.now old.now.placing.now
        new.now.chains.now new.now.set.now new.now.placing.now) }
{
    let was = levels_of(alloc, old.placing)?;
    let is = levels_of(alloc, new.placing)?;
    let before = ChainSide {
        set: old.set,
        levels: &was,
        chains: old.chains,
    };
    let after = ChainSide {
        set: new.set,
        levels: &is,
        chains: new.chains,
    };
    let text = chain_text(alloc, &before, &after)?;
    let are_met = all_met(alloc, new.set, &is, new.chains)?;
    Ok(ChainsTold { text, are_met })
}

// The set that a text says, as the call asks for it, by what it is taken, its chains, and who says by what.
#[tactic(auto, using(crate::proofs::NewRefusals::new_refused_as))]
pub(crate) fn read_new(
    alloc: Global,
    asking: Asking,
    text: &[u8],
) -> Result<(TaskSet, Preference, Vec<Chain>, Choice), CommandRefusal>
    ensures { MatchResult result
        (λ new. IsNew asking text.now new.0 new.1 × HasChains text.now new.0 new.2.items)
        (λ r. IsNoNew asking text.now r) }
{
    match read_asked(alloc, text, asking) {
        Ok(new) => {
            let by = new.choice.preference();
            Ok((new.set, by, new.chains, new.choice))
        }
        Err(fault) => Err(new_refusal(fault)),
    }
}

// What becomes of a set with these chains, which was taken by a preference, and of the one that a text says.
#[tactic(auto, using(crate::proofs::NewRefusals::new_refused))]
fn compare_text(
    alloc: Global,
    asking: Asking,
    by: Preference,
    chains: &[Chain],
    tasks: &TaskSet,
    text: &[u8],
) -> Result<Compared, CommandRefusal>
    ensures { ComparesText asking by chains.now tasks.now text.now result }
{
    let (set, is_by, linked, choice) = read_new(alloc, asking, text)?;
    let owners = read_owners(alloc, text)?;
    let was = place_set(alloc, tasks)?;
    let is = place_set(alloc, &set)?;
    let old = Linked {
        set: tasks,
        placing: &was,
        chains,
    };
    let new = Linked {
        set: &set,
        placing: &is,
        chains: &linked,
    };
    let chains = chains_compared(alloc, &old, &new)?;
    Ok(Compared {
        was,
        set,
        owners,
        is,
        was_by: by,
        is_by,
        choice,
        chains,
    })
}

// What becomes of the new set, and what became of the old one.
fn both_text(alloc: Global, old: &Side<'_>, new: &Side<'_>) -> Result<String, AllocError>
    requires was { IsPlacingOf old.now.set.now old.now.placing.now }
    requires is { IsPlacingOf new.now.set.now new.now.placing.now }
    ensures { IfOk result (λ text. string_bytes text
        ≡ both_lines old.now.set.now old.now.placing.now new.now.set.now new.now.placing.now) }
{
    let mut text = placing_text(alloc, OrderPart::Count, new.set, new.placing)?;
    text.push_str("was ")?;
    let was = placing_text(alloc, OrderPart::Count, old.set, old.placing)?;
    text.push_str(was.as_str())?;
    Ok(text)
}

// Whose the tasks of the new set are, and then whose those of the old one.
fn all_owners(alloc: Global, new: &[Owner], old: &[Owner]) -> Result<Vec<Owner>, AllocError>
    ensures { IfOk result (λ all. all.items ≡ new.now ++ old.now) }
{
    let mut all = Vec::new(alloc);
    all.extend_from_slice(new)?;
    all.extend_from_slice(old)?;
    Ok(all)
}

// What becomes of the new set, what became of the old one, what of the change no task has, what becomes of the tasks, each
// with its team, and then what becomes of the chains.
fn compared_text(
    alloc: Global,
    owners: &[Owner],
    tasks: &TaskSet,
    compared: &Compared,
) -> Result<Vec<u8>, AllocError>
    requires was { IsPlacingOf tasks.now compared.now.was }
    requires is { IsPlacingOf compared.now.set compared.now.is }
    ensures { IfOk result (λ text. text.items ≡ compared_lines owners.now tasks.now compared.now) }
{
    let old = Side {
        preference: compared.was_by,
        set: tasks,
        owners,
        placing: &compared.was,
    };
    let new = Side {
        preference: compared.is_by,
        set: &compared.set,
        owners: &compared.owners,
        placing: &compared.is,
    };
    let first = both_text(alloc, &old, &new)?;
    let whole = whole_text(alloc, &old, &new)?;
    let all = all_owners(alloc, &compared.owners, owners)?;
    let change = change_text(alloc, &all, &old, &new)?;
    let front = joined(alloc, first.as_bytes(), whole.as_bytes())?;
    let lines = joined(alloc, &front, change.as_bytes())?;
    let text = joined(alloc, &lines, compared.chains.text.as_bytes())?;
    Ok(text)
}

// What a person is told of it.
fn notes_of(compared: Compared) -> Notes {
    let mut notes = Notes::none();
    notes.misses_in_new = match &compared.is {
        Placing::Best(_) => !compared.chains.are_met,
        Placing::Stuck(_) => false,
    };
    notes.new = Some((compared.set, compared.choice));
    notes
}

/// The answer of `desk diff` on a set and the text of a new one.
pub fn compare_both(alloc: Global, asking: Asking, both: &Both) -> Result<Answer, CommandRefusal>
    ensures { ComparesBoth asking both.now result }
{
    let (chains, tasks) = (&both.chains, &both.tasks);
    let compared = compare_text(alloc, asking, both.by, chains, tasks, &both.text)?;
    let text = compared_text(alloc, &both.owners, tasks, &compared)?;
    Ok(Answer {
        text,
        status: placing_status(&compared.is),
        notes: notes_of(compared),
    })
}
