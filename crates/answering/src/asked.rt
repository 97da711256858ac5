//! The task or the chain that a word names.
ghost use Rattle.std.specs.Prelude.{◌≡◌, ◌<◌, length, option_map, IfOk, IfSome};
ghost use Rattle.std.specs.List.{find};
ghost use Rattle.task_sheet.specs.Sheet.{same_bytes};
ghost use Rattle.answering.specs.Asked.{AsksTask, asked_chain, asked_task, no_such_task, no_such_chain};

use crate::refusal::CommandRefusal;
use chain_tables::Chain;
use lines::name_of;
use task_sheet::{Name, TaskSet};

// The index of the task that a word names.
fn find_task(set: &TaskSet, word: &str) -> Option<usize>
    ensures found { result ≡ asked_task set.now word.now }
    ensures within { IfSome result (λ task. task < length set.now) }
{
    match name_of(word.as_bytes()) {
        Some(name) => set.find(name),
        None => None,
    }
}

// That no task has the name that a word says.
fn no_such_task(word: &str) -> CommandRefusal
    ensures { result ≡ no_such_task word.now }
{
    CommandRefusal::NoSuchTask {
        name: name_of(word.as_bytes()),
    }
}

/// The task that is asked about, where a word names one.
pub fn asked_task(set: &TaskSet, word: Option<&str>) -> Result<Option<usize>, CommandRefusal>
    ensures answer { AsksTask set.now (option_map (λ w. w.now) word.entry) result }
    ensures within { IfOk result (λ asked. IfSome asked (λ task. task < length set.now)) }
{
    let Some(word) = word else {
        return Ok(None);
    };
    match find_task(set, word) {
        Some(task) => Ok(Some(task)),
        None => Err(no_such_task(word)),
    }
}

// The chain that has a name.
fn named_chain(chains: &[Chain], name: Name) -> Option<&Chain>
    ensures { option_map (λ c. c.now) result ≡ find (λ c. same_bytes c.name name) chains.now }
{
    chains.iter().find(|chain| chain.name == name)
}

/// The chain that a word names.
pub fn find_chain<'a>(chains: &'a [Chain], word: &str) -> Option<&'a Chain>
    ensures { option_map (λ c. c.now) result ≡ asked_chain chains.now word.now }
{
    match name_of(word.as_bytes()) {
        Some(name) => named_chain(chains, name),
        None => None,
    }
}

/// That no chain has the name that a word says.
pub fn no_such_chain(word: &str) -> CommandRefusal
    ensures { result ≡ no_such_chain word.now }
{
    CommandRefusal::NoSuchChain {
        name: name_of(word.as_bytes()),
    }
}
