//! That what a call asks for isn't there: a task, a chain, or a part of a run.

use crate::lists::{has_order, task_named, until_of};
use crate::told::{Told, between};
use chain_tables::Chain;
use lines::name_of;
use std::alloc::Global;
use task_sheet::{Name, TaskSet};

// The most tasks or chains of a set that a sentence names.
const MOST_NAMED: usize = 8;

// Whether a task of the set has the name that a word says.
fn has_task(set: &TaskSet, word: &str) -> bool {
    task_named(Some(set), word.as_bytes()).is_some()
}

// That no task of the set has the name, and which there are by rank, with how many more.
fn no_task(alloc: Global, set: &TaskSet, word: &str) -> Option<String> {
    let mut told = Told::new(alloc);
    told.quoted("no task is called ", word.as_bytes());
    if set.is_empty() {
        told.words(": the set has none");
        return told.whole();
    }
    told.words(": the set has");
    for (i, sheet) in set.sheets().iter().take(MOST_NAMED).enumerate() {
        told.name(between(i), sheet.name());
    }
    if set.len() > MOST_NAMED {
        told.numbers(" and {} more", &[(set.len() - MOST_NAMED) as u64]);
    }
    told.whole()
}

/// What a person is told where no task of a set has the name that a word says; none where one has it, or memory is
/// wanting.
pub fn of_task(alloc: Global, set: &TaskSet, word: &str) -> Option<String> {
    if has_task(set, word) {
        return None;
    }
    no_task(alloc, set, word)
}

/// What a person is told where no chain of a set has the name that a word says; none where one has it, or memory is
/// wanting.
pub fn of_chain(alloc: Global, chains: &[Chain], word: &str) -> Option<String> {
    let name = name_of(word.as_bytes());
    if chains.iter().any(|chain| Some(chain.name) == name) {
        return None;
    }
    let mut told = Told::new(alloc);
    told.quoted("no chain is called ", word.as_bytes());
    if chains.is_empty() {
        told.words(": the set has none");
        return told.whole();
    }
    told.words(": the set has");
    for (i, chain) in chains.iter().take(MOST_NAMED).enumerate() {
        told.name(between(i), chain.name);
    }
    if chains.len() > MOST_NAMED {
        told.numbers(" and {} more", &[(chains.len() - MOST_NAMED) as u64]);
    }
    told.whole()
}

/// The same of the first such name of a task, of names with a comma between two.
pub fn of_tasks(alloc: Global, set: &TaskSet, words: &str) -> Option<String> {
    for word in words.split(',') {
        if !has_task(set, word) {
            return no_task(alloc, set, word);
        }
    }
    None
}

/// What a person is told where neither of two sets has a task of a name that one of the words is, with a comma between two;
/// none where memory is wanting.
pub fn of_neither(alloc: Global, words: &str, name: Option<Name>) -> Option<String> {
    for word in words.split(',') {
        if name_of(word.as_bytes()) == name {
            let mut told = Told::new(alloc);
            told.quoted("no task of either set is called ", word.as_bytes());
            return told.whole();
        }
    }
    None
}

/// What a person is told where nothing of a list's run lies in the window that is asked for; none where memory runs out.
pub fn of_window(alloc: Global, bytes: &[u8], from: usize, to: Option<usize>) -> Option<String> {
    let mut told = Told::new(alloc);
    if has_order(bytes) {
        // (where such a run ends is not known here)
        told.number("nothing of its run lies from ", from as u64);
    } else {
        told.numbers(
            "its run ends at {}: nothing of it lies from {}",
            &[until_of(bytes), from as u64],
        );
    }
    match to {
        Some(to) => {
            told.number(" to ", to as u64);
            if to <= from {
                told.words("; --to has to be after --from");
            }
        }
        None => told.words(" on"),
    }
    told.whole()
}
