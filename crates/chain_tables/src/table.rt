//! A chain's table.
ghost use Rattle.std.specs.Prelude.{◌≡◌, ◌≢◌, ℕ, true, false, None, Some, IfOk, IfErr, MatchOption, MatchResult, is_some, option_map};
ghost use Rattle.std.specs.List.{list_all};
ghost use Rattle.toml.specs.View.{table_view};
ghost use Rattle.task_sheet.specs.Name.{is_name};
ghost use Rattle.task_sheet.specs.Tree.{number_at, number_or_zero, value_at};
ghost use Rattle.chain_tables.specs.Tables.{are_each, are_numbers_or_none, chain_at, is_text_or_none, is_within, keys_fault, kinds_fault, lesser, name_said, numbers_at, offsets_said, table_fault, tasks_said, values_fault, writes_by, writes_of, writes_said};

use crate::fault::{ChainCause, ChainFault, Whose};
use crate::numbers::{numbers_at, read_numbers};
use chains::Writes;
use std::alloc::{AllocError, Global};
use std::marker::Model;
use task_sheet::{
    CHAIN_KEYS, Key, NEEDED_CHAIN_KEYS, Name, first_missing, has_repeat, number_at, number_of,
    only_keys, read_names, strings_at, text_at, value_at,
};
use toml::Table;

/// The most tasks of a chain.
pub const CHAIN_TASKS: usize = 8;

/// The longest limit of a chain, in microseconds.
pub const LONGEST_LIMIT: u64 = 1_000_000_000;

/// A chain as a document says it, its tasks by their names, the first one first, their offsets in microseconds, none where
/// they aren't known, and when they write.
#[derive(Drop)]
pub struct Written {
    pub whose: Whose,
    pub name: Name,
    pub tasks: Vec<Name>,
    pub limit: Option<u64>,
    pub offsets: Vec<u64>,
    pub writes: Writes,
}

impl Model for Written {
    ghost use Rattle.chain_tables.specs.Tables.{WrittenData};

    ghost Value = { WrittenData };

    ghost view = { λ w. record {
      whose = w.whose;
      name = w.name;
      tasks = w.tasks.items;
      limit = w.limit;
      offsets = w.offsets.items;
      writes = w.writes;
    } };
}

// The first fault of a table's keys.
fn keys_fault(chain: usize, table: &Table) -> Option<ChainCause>
    ensures { result ≡ keys_fault chain (table_view table.now) }
{
    if !only_keys(&CHAIN_KEYS, table) {
        return Some(ChainCause::UnknownKey { chain });
    }
    match first_missing(&NEEDED_CHAIN_KEYS, table) {
        Some(key) => Some(ChainCause::MissingKey { chain, key }),
        None => None,
    }
}

// Whether a number stands at a key, or nothing.
fn may_be_number(key: Key, table: &Table) -> bool
    ensures { result ≡ is_some (number_or_zero (value_at key (table_view table.now))) }
{
    match value_at(key, table) {
        Some(value) => number_of(value).is_some(),
        None => true,
    }
}

// Whether a string stands at a key, or nothing.
fn may_be_text(key: Key, table: &Table) -> bool
    ensures { result ≡ is_text_or_none key (table_view table.now) }
{
    text_at(key, table).is_some() || value_at(key, table).is_none()
}

// Whether an array of numbers stands at a key, or nothing.
fn may_be_numbers(key: Key, table: &Table) -> bool
    ensures { result ≡ are_numbers_or_none key (table_view table.now) }
{
    numbers_at(key, table).is_some() || value_at(key, table).is_none()
}

// The first of the values that is of another kind.
fn kinds_fault(chain: usize, table: &Table) -> Option<ChainCause>
    ensures { result ≡ kinds_fault chain (table_view table.now) }
{
    let key = if text_at(Key::Name, table).is_none() {
        Key::Name
    } else if strings_at(Key::Tasks, table).is_none() {
        Key::Tasks
    } else if !may_be_number(Key::Age, table) {
        Key::Age
    } else if !may_be_number(Key::Reaction, table) {
        Key::Reaction
    } else if !may_be_numbers(Key::Offsets, table) {
        Key::Offsets
    } else if !may_be_text(Key::Writes, table) {
        Key::Writes
    } else {
        return None;
    };
    Some(ChainCause::WrongKind { chain, key })
}

// Whether a limit, where one is there, is within its own limits.
fn is_within(limit: Option<u64>) -> bool
    ensures { result ≡ is_within limit }
{
    match limit {
        Some(limit) => 1 <= limit && limit <= LONGEST_LIMIT,
        None => true,
    }
}

// Whether offsets, where they are there, are one for each of so many tasks.
fn are_each(count: usize, table: &Table) -> bool
    ensures { result ≡ are_each count (numbers_at Key.Offsets (table_view table.now)) }
{
    match numbers_at(Key::Offsets, table) {
        Some(offsets) => offsets.len() == count,
        None => true,
    }
}

// When the tasks write that a word says; none where it is no such word.
fn writes_of(word: &str) -> Option<Writes>
    ensures { result ≡ writes_of word.now }
{
    if "finish" == word {
        Some(Writes::AtFinish)
    } else if "deadline" == word {
        Some(Writes::AtDeadline)
    } else {
        None
    }
}

// When those of a chain do: as they finish, where its table says nothing.
fn writes_said(table: &Table) -> Option<Writes>
    ensures { result ≡ writes_said (table_view table.now) }
{
    match text_at(Key::Writes, table) {
        Some(word) => writes_of(word),
        None => Some(Writes::AtFinish),
    }
}

// The first of what a chain of these tasks may not say.
fn values_fault(chain: usize, tasks: &[Name], table: &Table) -> Option<ChainCause>
    ensures { result ≡ values_fault chain tasks.now (table_view table.now) }
{
    if tasks.is_empty() || tasks.len() > CHAIN_TASKS {
        return Some(ChainCause::Length { chain });
    }
    if has_repeat(tasks) {
        return Some(ChainCause::TaskTwice { chain });
    }
    if !is_within(number_at(Key::Age, table)) {
        let key = Key::Age;
        return Some(ChainCause::BadLimit { chain, key });
    }
    if !is_within(number_at(Key::Reaction, table)) {
        let key = Key::Reaction;
        return Some(ChainCause::BadLimit { chain, key });
    }
    if !are_each(tasks.len(), table) {
        return Some(ChainCause::BadOffsets { chain });
    }
    if writes_said(table).is_none() {
        return Some(ChainCause::BadWrites { chain });
    }
    None
}

// The name that a table says; none where it is no name.
fn name_at(table: &Table) -> Option<Name>
    ensures { MatchOption result (is_name (name_said (table_view table.now)) ≡ false)
        (λ n. (is_name (name_said (table_view table.now)) ≡ true)
        × (n ≡ name_said (table_view table.now))) }
{
    let text = text_at(Key::Name, table).unwrap_or("");
    match Name::read(text.as_bytes()) {
        Ok(name) => Some(name),
        Err(_) => None,
    }
}

// The names of tasks that it says; none where one is no name.
fn tasks_at(alloc: Global, table: &Table) -> Result<Option<Vec<Name>>, AllocError>
    ensures { IfOk result (λ names. MatchOption names
        (list_all is_name (tasks_said (table_view table.now)) ≡ false)
        (λ v. (list_all is_name (tasks_said (table_view table.now)) ≡ true)
        × (v.items ≡ tasks_said (table_view table.now)))) }
{
    let items = strings_at(Key::Tasks, table).unwrap_or(&[]);
    read_names(alloc, items)
}

// The offsets that it says, none where it says none.
fn offsets_at(alloc: Global, table: &Table) -> Result<Vec<u64>, AllocError>
    ensures { IfOk result (λ offsets. offsets.items ≡ offsets_said (table_view table.now)) }
{
    let items = numbers_at(Key::Offsets, table).unwrap_or(&[]);
    read_numbers(alloc, items)
}

// The lesser of two limits, of which either may be absent.
fn lesser(one: Option<u64>, other: Option<u64>) -> Option<u64>
    ensures { result ≡ lesser one other }
{
    match (one, other) {
        (Some(one), Some(other)) => Some(one.min(other)),
        (Some(one), None) => Some(one),
        (None, other) => other,
    }
}

// The chain that a table says, or the first fault of it.
fn read_chain(
    alloc: Global,
    whose: &Whose,
    chain: usize,
    table: &Table,
) -> Result<Result<Written, ChainCause>, AllocError>
    ensures { IfOk result (λ r. MatchResult r
        (λ w. (table_fault chain (table_view table.now) ≡ None)
        × (w ≡ chain_at whose.now (table_view table.now)))
        (λ cause. table_fault chain (table_view table.now) ≡ Some cause)) }
{
    if let Some(cause) = keys_fault(chain, table) {
        return Ok(Err(cause));
    }
    if let Some(cause) = kinds_fault(chain, table) {
        return Ok(Err(cause));
    }
    let bad_name = ChainCause::BadName { chain };
    let Some(name) = name_at(table) else {
        return Ok(Err(bad_name));
    };
    let Some(tasks) = tasks_at(alloc, table)? else {
        return Ok(Err(bad_name));
    };
    if let Some(cause) = values_fault(chain, &tasks, table) {
        return Ok(Err(cause));
    }
    let limit = lesser(number_at(Key::Age, table), number_at(Key::Reaction, table));
    let offsets = offsets_at(alloc, table)?;
    let writes = writes_said(table).unwrap_or(Writes::AtFinish);
    Ok(Ok(Written {
        whose: *whose,
        name,
        tasks,
        limit,
        offsets,
        writes,
    }))
}

// The same, a fault with its document.
pub(crate) fn read_table(
    alloc: Global,
    whose: &Whose,
    chain: usize,
    table: &Table,
) -> Result<Written, ChainFault>
    ensures ok { IfOk result (λ w. (table_fault chain (table_view table.now) ≡ None)
        × (w ≡ chain_at whose.now (table_view table.now))) }
    ensures err { IfErr result (λ e. e ≢ ChainFault.OutOfMemory
        → option_map (ChainFault.Document whose.now) (table_fault chain (table_view table.now)) ≡ Some e) }
{
    match read_chain(alloc, whose, chain, table)? {
        Ok(written) => Ok(written),
        Err(cause) => {
            let whose = *whose;
            Err(ChainFault::Document { whose, cause })
        }
    }
}
