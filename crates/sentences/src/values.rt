//! The values of a task as a document or a line of a script gives them.

use crate::tree::{items_at, number_at, table_at};
use task_sheet::Key;
use toml::{Table, Value};

/// The numbers of a task; 0 where they are not at hand. Times are in microseconds.
#[derive(Clone, Copy)]
pub(crate) struct Numbers {
    pub(crate) weight: u64,
    pub(crate) period: u64,
    pub(crate) deadline: u64,
    pub(crate) cost: u64,
    pub(crate) jitter: u64,
    pub(crate) sections: u64,
}

/// The values of a section; 0 where they are not at hand.
#[derive(Clone, Copy)]
pub(crate) struct Span {
    pub(crate) at: u64,
    pub(crate) len: u64,
    pub(crate) locks: u64,
    /// The end of the section before it.
    pub(crate) from: u64,
}

/// Of a section of which nothing is at hand.
pub(crate) const NO_SPAN: Span = Span {
    at: 0,
    len: 0,
    locks: 0,
    from: 0,
};

/// How many items the array at a key has.
pub(crate) fn count_at(key: Key, table: &Table) -> u64 {
    items_at(key, table).len() as u64
}

/// How many locks a task's sections have together.
pub(crate) fn locks_in(table: &Table) -> u64 {
    let mut count = 0u64;
    for section in items_at(Key::Section, table) {
        if let Value::Table(section) = section {
            count = count.saturating_add(count_at(Key::Locks, section));
        }
    }
    count
}

/// Those of a task's table.
pub(crate) fn numbers_in(table: &Table) -> Numbers {
    Numbers {
        weight: number_at(Key::Weight, table),
        period: number_at(Key::Period, table),
        deadline: number_at(Key::Deadline, table),
        cost: number_at(Key::Cost, table),
        jitter: number_at(Key::Jitter, table),
        sections: count_at(Key::Section, table),
    }
}

// Where a section begins: at the end of the one before it, where it doesn't say where.
fn begin_of(before: u64, section: &Table) -> u64 {
    if section.get(Key::At.word()).is_some() {
        number_at(Key::At, section)
    } else {
        before
    }
}

// The end of the last of so many sections of a task's table; 0 of none.
fn end_at(count: usize, table: &Table) -> u64 {
    let mut end = 0u64;
    for section in items_at(Key::Section, table).iter().take(count) {
        if let Value::Table(section) = section {
            end = begin_of(end, section).saturating_add(number_at(Key::Len, section));
        }
    }
    end
}

/// Those of the section at a place of a task's table, from 1.
pub(crate) fn span_at(place: usize, table: &Table) -> Span {
    let from = end_at(place.saturating_sub(1), table);
    match table_at(Key::Section, place, table) {
        Some(section) => Span {
            at: begin_of(from, section),
            len: number_at(Key::Len, section),
            locks: count_at(Key::Locks, section),
            from,
        },
        None => NO_SPAN,
    }
}
