//! Offsets that are none on a clock.

use crate::told::{Told, between};
use crate::tree::{items_at, number_at, place_of_name, table_at};
use chains::ARRIVAL_LIMIT;
use std::alloc::Global;
use task_sheet::{Key, Name, number_of};
use teams::{first_part, is_gathered, node_part};
use toml::{Table, Value};

// What documents say of a task: its period, 0 where none has it, and the first chain with an offset of it, and that; all
// in microseconds.
#[derive(Clone, Copy)]
struct Seen {
    period: u64,
    first: Option<(Name, u64)>,
}

// The offset that a chain's table has of a task.
fn offset_at(table: &Table, task: Name) -> Option<u64> {
    for (i, item) in items_at(Key::Tasks, table).iter().enumerate() {
        if item.as_str() == Some(task.as_str()) {
            return number_of(items_at(Key::Offsets, table).get(i)?);
        }
    }
    None
}

// The name that a chain's table has.
fn name_at(table: &Table) -> Option<Name> {
    match table.get(Key::Name.word()) {
        Some(Value::String(name)) => Name::read(name.as_str().as_bytes()).ok(),
        _ => None,
    }
}

// The first chain of a document with an offset of a task, and that.
fn first_in(root: &Table, task: Name) -> Option<(Name, u64)> {
    for item in items_at(Key::Chain, root) {
        if let Value::Table(table) = item {
            if let (Some(name), Some(offset)) = (name_at(table), offset_at(table, task)) {
                return Some((name, offset));
            }
        }
    }
    None
}

// The period of a task of a document; 0 where it has none of the name.
fn period_in(root: &Table, task: Name) -> u64 {
    match place_of_name(root, task.as_str()) {
        Some(place) => match table_at(Key::Task, place, root) {
            Some(table) => number_at(Key::Period, table),
            None => 0,
        },
        None => 0,
    }
}

// What a document says behind others; none where memory runs out.
fn seen_in(alloc: Global, text: &[u8], task: Name, before: Seen) -> Option<Seen> {
    let root = toml::table_from_slice(alloc, text).ok()?;
    let first = if before.first.is_some() {
        before.first
    } else {
        first_in(&root, task)
    };
    Some(Seen {
        period: before.period.max(period_in(&root, task)),
        first,
    })
}

// What all documents of a set's text say.
fn seen_of(alloc: Global, bytes: &[u8], task: Name) -> Option<Seen> {
    let none = Seen {
        period: 0,
        first: None,
    };
    if !is_gathered(bytes) {
        return seen_in(alloc, bytes, task, none);
    }
    let nothing: &[u8] = b"";
    let (node, teams) = node_part(bytes).unwrap_or((nothing, bytes));
    let mut seen = seen_in(alloc, node, task, none)?;
    let mut rest = teams;
    while let Some((part, after)) = first_part(rest) {
        seen = seen_in(alloc, part.text, task, seen)?;
        rest = after;
    }
    Some(seen)
}

/// What is wrong with the offset that a chain's table has of a task: the task's period, or the chain before that has another.
pub(crate) fn tell_offset(told: &mut Told, alloc: Global, bytes: &[u8], table: &Table, task: Name) {
    let offset = offset_at(table, task).unwrap_or(0);
    let Some(seen) = seen_of(alloc, bytes, task) else {
        return told.give_up();
    };
    told.name("the offset of ", task);
    match seen.first {
        Some((chain, first)) if offset < seen.period => {
            told.numbers(" is {}, but {} in chain ", &[offset, first]);
            told.name("", chain);
            told.words(" before it; a task arrives on one clock");
        }
        _ => told.numbers(
            " has to be below its period, {}; it is {}",
            &[seen.period, offset],
        ),
    }
}

// The period of a task of a set's text.
fn tell_period(told: &mut Told, alloc: Global, bytes: &[u8], task: &str) {
    let Ok(name) = Name::read(task.as_bytes()) else {
        return told.give_up();
    };
    match seen_of(alloc, bytes, name) {
        Some(seen) => told.show(seen.period),
        None => told.give_up(),
    }
}

/// That the tasks of a chain's table arrive as at first too late, by their periods.
pub(crate) fn tell_periods(told: &mut Told, alloc: Global, bytes: &[u8], table: &Table) {
    told.numbers(
        "its first task arrives more than {} times until all its tasks arrive as at first; their periods are",
        &[ARRIVAL_LIMIT as u64],
    );
    for (i, item) in items_at(Key::Tasks, table).iter().enumerate() {
        told.words(between(i));
        if let Value::String(task) = item {
            tell_period(told, alloc, bytes, task.as_str());
        }
    }
}
