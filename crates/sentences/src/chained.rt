//! Why a set's text says no chains.

use crate::clocks::{tell_offset, tell_periods};
use crate::sets::{
    NAME_RULE, WRITES_RULE, tell_keys, tell_kind_in, tell_no_name, tell_twice, tell_unknown_key,
    tell_value,
};
use crate::told::Told;
use crate::tree::{items_at, line_of, number_at, table_at};
use crate::values::count_at;
use chain_tables::{CHAIN_LIMIT, CHAIN_TASKS, ChainCause, ChainFault, LONGEST_LIMIT, Whose};
use std::alloc::Global;
use task_sheet::{CHAIN_KEYS, Key, NAME_LIMIT, NEEDED_CHAIN_KEYS, Name};
use teams::{Part, first_part, is_gathered, node_part};
use toml::{Table, Value};

/// What a person is told of the fault of a set's chains, from the set's bytes; none where memory runs out. What is said of a
/// document of several names it as a file.
pub fn of_chains(alloc: Global, bytes: &[u8], fault: ChainFault) -> Option<String> {
    let mut told = Told::new(alloc);
    match fault {
        ChainFault::Document { whose, cause } => {
            tell_document(&mut told, alloc, bytes, whose, cause);
        }
        ChainFault::Taken { team, chain, other } => {
            told.name("", team);
            told.name(".toml: ", chain);
            told.name(" is the name of a chain of ", other);
            told.words(".toml, too; give one of them another name");
        }
        ChainFault::TooManyChains => told.numbers(
            "the documents have more than {} chains together",
            &[CHAIN_LIMIT as u64],
        ),
        ChainFault::NoSuchTask { chain, .. }
        | ChainFault::BadOffset { chain, .. }
        | ChainFault::TooManyArrivals { chain } => {
            tell_chain(&mut told, alloc, bytes, chain, fault);
        }
        ChainFault::OutOfMemory => told.give_up(),
    }
    told.whole()
}

// The document of a team, among those of teams.
fn text_of_team<'a>(bytes: &'a [u8], team: Name) -> &'a [u8] {
    let mut rest = bytes;
    while let Some((part, after)) = first_part(rest) {
        if part.team == team {
            return part.text;
        }
        rest = after;
    }
    b""
}

// Whether a document has a chain of a name.
fn has_chain(alloc: Global, text: &[u8], chain: Name) -> bool {
    match toml::table_from_slice(alloc, text) {
        Ok(root) => place_of_chain(&root, chain.as_str()).is_some(),
        Err(_) => false,
    }
}

// The first document of teams with a chain of a name.
fn part_with<'a>(alloc: Global, bytes: &'a [u8], chain: Name) -> Option<Part<'a>> {
    let mut rest = bytes;
    while let Some((part, after)) = first_part(rest) {
        if has_chain(alloc, part.text, chain) {
            return Some(part);
        }
        rest = after;
    }
    None
}

// The place, from 1, of the first chain of a name.
fn place_of_chain(root: &Table, name: &str) -> Option<usize> {
    for place in 1..=items_at(Key::Chain, root).len() {
        if let Some(Value::String(own)) = value_at(Key::Name, table_at(Key::Chain, place, root)) {
            if own.as_str() == name {
                return Some(place);
            }
        }
    }
    None
}

// What is wrong with a chain's tasks, from its table.
fn tell_tasks(told: &mut Told, alloc: Global, bytes: &[u8], table: &Table, fault: ChainFault) {
    match fault {
        ChainFault::NoSuchTask { task, .. } => {
            told.name("the set has no task ", task);
            told.words("; a chain's tasks are names of tasks, of any team");
        }
        ChainFault::BadOffset { task, .. } => tell_offset(told, alloc, bytes, table, task),
        ChainFault::TooManyArrivals { .. } => tell_periods(told, alloc, bytes, table),
        _ => {}
    }
}

// A chain of a document of a set's text: its place, and what is wrong with its tasks.
fn tell_chain_in(
    told: &mut Told,
    alloc: Global,
    bytes: &[u8],
    text: &[u8],
    chain: Name,
    fault: ChainFault,
) {
    let Ok(root) = toml::table_from_slice(alloc, text) else {
        return told.give_up();
    };
    let Some(place) = place_of_chain(&root, chain.as_str()) else {
        return told.give_up();
    };
    if let Some(table) = tell_place(told, alloc, text, &root, place) {
        tell_tasks(told, alloc, bytes, table, fault);
    }
}

// The same of a set's text, behind its document's file where there are several.
fn tell_chain(told: &mut Told, alloc: Global, bytes: &[u8], chain: Name, fault: ChainFault) {
    if !is_gathered(bytes) {
        return tell_chain_in(told, alloc, bytes, bytes, chain, fault);
    }
    let nothing: &[u8] = b"";
    let (node, teams) = node_part(bytes).unwrap_or((nothing, bytes));
    if has_chain(alloc, node, chain) {
        told.words("node.toml: ");
        return tell_chain_in(told, alloc, bytes, node, chain, fault);
    }
    match part_with(alloc, teams, chain) {
        Some(part) => {
            told.name("", part.team);
            told.words(".toml: ");
            tell_chain_in(told, alloc, bytes, part.text, chain, fault);
        }
        None => told.give_up(),
    }
}

// The document, behind its file's name where there are several.
fn tell_document(told: &mut Told, alloc: Global, bytes: &[u8], whose: Whose, cause: ChainCause) {
    let nothing: &[u8] = b"";
    let text = match whose {
        Whose::Alone => bytes,
        Whose::Node => {
            told.words("node.toml: ");
            let (node, _) = node_part(bytes).unwrap_or((nothing, bytes));
            node
        }
        Whose::Team { team } => {
            told.name("", team);
            told.words(".toml: ");
            let (_, teams) = node_part(bytes).unwrap_or((nothing, bytes));
            text_of_team(teams, team)
        }
    };
    match toml::table_from_slice(alloc, text) {
        Ok(root) => tell_cause(told, alloc, text, &root, cause),
        Err(_) => told.give_up(),
    }
}

// The place of a chain, with the line that heads it and its name where it has them.
fn tell_place<'a>(
    told: &mut Told,
    alloc: Global,
    text: &[u8],
    root: &'a Table,
    chain: usize,
) -> Option<&'a Table> {
    match line_of(alloc, text, Key::Chain, chain) {
        Ok(Some(line)) => told.numbers("line {}, ", &[line]),
        Ok(None) => {}
        Err(_) => told.give_up(),
    }
    told.number("chain ", chain as u64);
    let table = table_at(Key::Chain, chain, root);
    if let Some(Value::String(name)) = value_at(Key::Name, table) {
        told.shown(" (", name.as_str(), ")");
    }
    told.words(": ");
    table
}

// The value at a key of a table, where there is one.
fn value_at<'a>(key: Key, table: Option<&'a Table>) -> Option<&'a Value> {
    table?.get(key.word())
}

// What is wrong in a document.
fn tell_cause(told: &mut Told, alloc: Global, text: &[u8], root: &Table, cause: ChainCause) {
    match cause {
        ChainCause::UnknownKey { chain } => {
            let table = tell_place(told, alloc, text, root, chain);
            tell_unknown_key(told, &CHAIN_KEYS, table);
            tell_keys(told, "; a chain has", &CHAIN_KEYS);
        }
        ChainCause::MissingKey { chain, key } => {
            tell_place(told, alloc, text, root, chain);
            told.words("no key ");
            told.words(key.word());
            tell_keys(told, "; a chain needs", &NEEDED_CHAIN_KEYS);
        }
        ChainCause::WrongKind { chain, key } => {
            let table = tell_place(told, alloc, text, root, chain);
            tell_kind_in(told, table, key);
        }
        ChainCause::BadName { chain } => {
            let table = tell_place(told, alloc, text, root, chain);
            tell_bad_name(told, table);
        }
        ChainCause::Length { chain } => {
            let table = tell_place(told, alloc, text, root, chain);
            tell_length(told, table);
        }
        ChainCause::TaskTwice { chain } => {
            let table = tell_place(told, alloc, text, root, chain);
            told.words("a task stands twice in it");
            if let Some(table) = table {
                tell_twice(told, items_at(Key::Tasks, table));
            }
        }
        ChainCause::BadLimit { chain, key } => {
            let table = tell_place(told, alloc, text, root, chain);
            tell_limit(told, key, table);
        }
        ChainCause::BadOffsets { chain } => {
            let table = tell_place(told, alloc, text, root, chain);
            tell_offsets(told, table);
        }
        ChainCause::BadWrites { chain } => {
            let table = tell_place(told, alloc, text, root, chain);
            tell_writes(told, table);
        }
        ChainCause::TooManyChains => told.numbers(
            "more than {} chains: there are {}",
            &[CHAIN_LIMIT as u64, items_at(Key::Chain, root).len() as u64],
        ),
        ChainCause::SameName { chain } => {
            tell_place(told, alloc, text, root, chain);
            told.words("a chain before it has its name");
        }
    }
}

// The first of a chain's names that is none.
fn tell_bad_name(told: &mut Told, table: Option<&Table>) {
    if let Some(table) = table {
        if !tell_no_name(told, Key::Name, table) {
            tell_no_name(told, Key::Tasks, table);
        }
    }
    told.numbers(NAME_RULE, &[NAME_LIMIT as u64]);
}

// How many tasks a chain has.
fn tell_length(told: &mut Told, table: Option<&Table>) {
    told.numbers("a chain has 1 to {} tasks", &[CHAIN_TASKS as u64]);
    if let Some(table) = table {
        told.number("; it has ", items_at(Key::Tasks, table).len() as u64);
    }
}

// How many offsets a chain has, and how many tasks.
fn tell_offsets(told: &mut Told, table: Option<&Table>) {
    told.words("offsets has to have one number for each of tasks");
    if let Some(table) = table {
        told.numbers(
            "; it has {}, tasks has {}",
            &[count_at(Key::Offsets, table), count_at(Key::Tasks, table)],
        );
    }
}

// When tasks write that is said by no word of it.
fn tell_writes(told: &mut Told, table: Option<&Table>) {
    told.words("writes has to be ");
    told.words(WRITES_RULE);
    if let Some(value) = value_at(Key::Writes, table) {
        tell_value(told, "; it is ", value);
    }
}

// A limit past its own.
fn tell_limit(told: &mut Told, key: Key, table: Option<&Table>) {
    told.words(key.word());
    told.numbers(" has to be from 1 to {}", &[LONGEST_LIMIT]);
    if let Some(table) = table {
        told.number("; it is ", number_at(key, table));
    }
}
