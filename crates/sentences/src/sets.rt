//! Why a document is no task set.

use crate::causes::{tell_cause, tell_jitter};
use crate::texts::line_at;
use crate::told::{Told, between};
use crate::tree::{
    Known, bad_name_in, is_name, items_at, name_of, number_at, place_of_name, repeated_in,
    table_at, table_of, tell_place, unknown_key,
};
use crate::values::{NO_SPAN, count_at, numbers_in, span_at};
use std::alloc::Global;
use task_sheet::{
    INTERRUPT_FROM, INTERRUPT_KEYS, INTERRUPT_LIMIT, Key, NAME_LIMIT, NODE_KEYS, OutranksCause,
    PERIOD_FROM, PERIOD_TO, ROOT_KEYS, SECTION_KEYS, SetFault, SheetCause, TASK_KEYS, TASK_LIMIT,
    number_of,
};
use toml::{Table, Value};

/// A set's fault, from the document's bytes.
pub(crate) fn tell_set(told: &mut Told, alloc: Global, bytes: &[u8], fault: SetFault) {
    match toml::table_from_slice(alloc, bytes) {
        Ok(root) => {
            let (task, section) = place_of(fault);
            tell_place(told, alloc, bytes, &root, task, section);
            tell_fault(told, &root, fault);
        }
        Err(error) => tell_syntax(told, bytes, &error),
    }
}

// The line and the column, from 1, behind so many bytes. A column counts characters.
fn position(bytes: &[u8], count: usize) -> (u64, u64) {
    let mut line = 1u64;
    let mut column = 1u64;
    for byte in bytes.iter().take(count) {
        if *byte == b'\n' {
            line = line.saturating_add(1);
            column = 1;
        } else if *byte & 0xC0 != 0x80 {
            column = column.saturating_add(1);
        }
    }
    (line, column)
}

/// What the parser says, and where, with the line.
pub(crate) fn tell_syntax(told: &mut Told, bytes: &[u8], error: &toml::de::Error) {
    match error.span() {
        Some(span) if !error.is_memory() => {
            let (line, column) = position(bytes, span.start);
            told.numbers("line {}, column {}: ", &[line, column]);
            told.words(error.message());
            told.quoted(", in ", line_at(bytes, line));
        }
        _ => told.give_up(),
    }
}

// The task and the section that a fault names, from 1; a sheet's cause names its section itself.
fn place_of(fault: SetFault) -> (usize, usize) {
    match fault {
        SetFault::UnknownKey { task, section } => (task, section),
        SetFault::MissingKey { task, section, .. } => (task, section),
        SetFault::WrongKind { task, section, .. } => (task, section),
        SetFault::BadName { task, section } => (task, section),
        SetFault::Sheet { task, .. } => (task, 0),
        SetFault::BadJitter { task } => (task, 0),
        SetFault::Outranks { task, .. } => (task, 0),
        SetFault::SameName { task } => (task, 0),
        SetFault::Syntax
        | SetFault::BadPreference
        | SetFault::UnknownOverhead
        | SetFault::BadOverhead { .. }
        | SetFault::BadInterrupt { .. }
        | SetFault::TooManyInterrupts
        | SetFault::TooManyTasks
        | SetFault::OutOfMemory => (0, 0),
    }
}

/// What is wrong at the fault's place.
pub(crate) fn tell_fault(told: &mut Told, root: &Table, fault: SetFault) {
    match fault {
        SetFault::UnknownKey { task, section } => tell_unknown(told, root, task, section),
        SetFault::MissingKey { section, key, .. } => tell_missing(told, section, key),
        SetFault::WrongKind { task, section, key } => tell_kind(told, root, task, section, key),
        SetFault::BadPreference => tell_kind_in(told, Some(root), Key::Prefer),
        SetFault::UnknownOverhead => tell_overhead(told, root),
        SetFault::BadOverhead { key } => tell_past_limit(told, root, key),
        SetFault::BadInterrupt { interrupt } => tell_interrupt(told, root, interrupt),
        SetFault::TooManyInterrupts => tell_count(told, root, INTERRUPT_LIMIT, Key::Interrupt),
        SetFault::BadName { task, section } => tell_bad_name(told, root, task, section),
        SetFault::Sheet { task, cause } => tell_sheet(told, root, task, cause),
        SetFault::BadJitter { task } => tell_bad_jitter(told, root, task),
        SetFault::Outranks { task, cause } => tell_outranks(told, root, task, cause),
        SetFault::SameName { task } => tell_same_name(told, root, task),
        SetFault::TooManyTasks => tell_count(told, root, TASK_LIMIT, Key::Task),
        SetFault::Syntax => {}
        SetFault::OutOfMemory => told.give_up(),
    }
}

// ---- keys

/// The words of keys, with commas, behind other words.
pub(crate) fn tell_keys(told: &mut Told, words: &str, keys: &[Key]) {
    told.words(words);
    for (i, key) in keys.iter().enumerate() {
        told.words(between(i));
        told.words(key.word());
    }
}

/// The first key of a table, where there is one, that is none of these.
pub(crate) fn tell_unknown_key<'a>(
    told: &mut Told,
    keys: &[Key],
    table: Option<&'a Table>,
) -> &'a str {
    let key = match table {
        Some(table) => unknown_key(Known::Keys(keys), table).unwrap_or(""),
        None => "",
    };
    told.shown("unknown key ", key, "");
    key
}

// A key that is not known, and what a table may have in its place.
fn tell_unknown(told: &mut Told, root: &Table, task: usize, section: usize) {
    let table = table_of(root, task, section);
    if task == 0 {
        let key = tell_unknown_key(told, &ROOT_KEYS, table);
        told.words(if key == Key::Section.word() {
            "; a section is headed [[task.section]]"
        } else {
            "; a set has tasks, each headed by [[task]], and may have prefer in front of them, [node], [[interrupt]] and [[chain]]"
        });
    } else if section > 0 {
        tell_unknown_key(told, &SECTION_KEYS, table);
        tell_keys(told, "; a section has", &SECTION_KEYS);
    } else if tell_unknown_key(told, &TASK_KEYS, table) == Key::Prefer.word() {
        told.words("; prefer stands in front of the first [[task]]");
    } else {
        tell_keys(told, "; a task has", &TASK_KEYS);
    }
}

// The node's table, where it is one.
fn node_table<'a>(root: &'a Table) -> Option<&'a Table> {
    match root.get(Key::Node.word()) {
        Some(Value::Table(node)) => Some(node),
        _ => None,
    }
}

// A key of the node's table that is not known, and those that are.
fn tell_overhead(told: &mut Told, root: &Table) {
    tell_unknown_key(told, &NODE_KEYS, node_table(root));
    tell_keys(told, "; [node] has", &NODE_KEYS);
}

// A number of the node's table that is past its limit.
fn tell_past_limit(told: &mut Told, root: &Table, key: Key) {
    told.words(key.word());
    if let Some(table) = node_table(root) {
        let number = number_at(key, table);
        match key {
            Key::Release => told.numbers(
                " has to be at most {} and at most job; it is {}, job {}",
                &[PERIOD_FROM, number, number_at(Key::Job, table)],
            ),
            _ => told.numbers(" has to be at most {}; it is {}", &[PERIOD_TO, number]),
        }
    }
}

// A key that a table lacks, and those that it needs.
fn tell_missing(told: &mut Told, section: usize, key: Key) {
    told.words("no key ");
    told.words(key.word());
    if section == 0 {
        let needed = [Key::Name, Key::Period, Key::Deadline, Key::Cost];
        tell_keys(told, "; a task needs", &needed);
    } else {
        tell_keys(told, "; a section needs", &[Key::Locks, Key::Len]);
    }
}

// ---- interrupts

// A table that says no interrupt: a key that is not known, or numbers past their limits.
fn tell_interrupt(told: &mut Told, root: &Table, place: usize) {
    told.numbers("interrupt {}: ", &[place as u64]);
    if let Some(table) = table_at(Key::Interrupt, place, root) {
        match unknown_key(Known::Keys(&INTERRUPT_KEYS), table) {
            Some(key) => {
                told.shown("unknown key ", key, "");
                tell_keys(told, "; an interrupt has", &INTERRUPT_KEYS);
            }
            None => tell_numbers(told, table),
        }
    }
}

// The first key of an interrupt that its table lacks, or whose value is no whole number from 0.
fn key_without_number(table: &Table) -> Option<Key> {
    for key in INTERRUPT_KEYS {
        match table.get(key.word()) {
            Some(Value::Integer(number)) if *number >= 0 => {}
            _ => return Some(key),
        }
    }
    None
}

// What the values of an interrupt have to be, and what its table has.
fn tell_numbers(told: &mut Told, table: &Table) {
    match key_without_number(table) {
        Some(key) if table.get(key.word()).is_none() => {
            told.words("no key ");
            told.words(key.word());
            tell_keys(told, "; an interrupt needs", &INTERRUPT_KEYS);
        }
        Some(key) => tell_kind_in(told, Some(table), key),
        None => {
            let (period, cost) = (number_at(Key::Period, table), number_at(Key::Cost, table));
            told.numbers(
                "period has to be from {} to {}, and cost at most period; period is {}, cost is {}",
                &[INTERRUPT_FROM, PERIOD_TO, period, cost],
            );
        }
    }
}

// ---- kinds

/// What a chain's table may say of when its tasks write.
pub(crate) const WRITES_RULE: &str = "\"finish\" or \"deadline\"";

// What a key's value has to be.
fn kind_of(key: Key) -> &'static str {
    match key {
        Key::Task => "an array of tables, each headed by [[task]]",
        Key::Section => "an array of tables, each headed by [[task.section]]",
        Key::Interrupt => "an array of tables, each headed by [[interrupt]]",
        Key::Chain => "an array of tables, each headed by [[chain]]",
        Key::Name => "a string, in quotes",
        Key::Offsets => "an array of whole numbers of microseconds from 0, as [0, 500]",
        Key::Writes => WRITES_RULE,
        Key::Prefer => "\"chains\", \"deadline\" or \"weight\"",
        Key::Node => "a table, headed by [node]",
        Key::Locks | Key::Tasks => "an array of strings, as [\"a\", \"b\"]",
        Key::Outranks => "an array of strings, as [\"a\", \"b\"], or the string \"all\"",
        Key::Weight => "a whole number from 0",
        Key::Period
        | Key::Deadline
        | Key::Cost
        | Key::Jitter
        | Key::At
        | Key::Len
        | Key::Job
        | Key::Lock
        | Key::Release
        | Key::Late => "a whole number of microseconds from 0, without quotes",
        Key::Age | Key::Reaction => "a whole number of microseconds from 1, without quotes",
    }
}

/// A value, or its kind, behind words.
pub(crate) fn tell_value(told: &mut Told, words: &str, value: &Value) {
    told.words(words);
    match value {
        Value::String(text) => told.shown("the string \"", text.as_str(), "\""),
        Value::Integer(number) => told.show(*number),
        Value::Float(_) => told.words("a number with a fraction"),
        Value::Boolean(true) => told.words("true"),
        Value::Boolean(false) => told.words("false"),
        Value::Datetime(_) => told.words("a date or time"),
        Value::Array(_) => told.words("an array"),
        Value::Table(_) => told.words("a single table"),
    }
}

// Whether an array at a key may hold a value.
fn may_hold(key: Key, item: &Value) -> bool {
    match key {
        Key::Task | Key::Section | Key::Interrupt | Key::Chain => item.is_table(),
        Key::Offsets => number_of(item).is_some(),
        _ => item.is_str(),
    }
}

// The first value that it may not hold.
fn stranger<'a>(key: Key, items: &'a [Value]) -> Option<&'a Value> {
    for item in items {
        if !may_hold(key, item) {
            return Some(item);
        }
    }
    None
}

// What stands at a key in place of what has to.
fn tell_found(told: &mut Told, key: Key, value: &Value) {
    tell_value(told, "; it is ", value);
    if let Value::Array(items) = value {
        if let Some(item) = stranger(key, items) {
            tell_value(told, " with ", item);
        }
    }
}

// A value of another kind, at the place of a fault.
fn tell_kind(told: &mut Told, root: &Table, task: usize, section: usize, key: Key) {
    let table = match key {
        Key::Job | Key::Lock | Key::Release | Key::Late => node_table(root),
        _ => table_of(root, task, section),
    };
    tell_kind_in(told, table, key);
}

/// The same, in a table.
pub(crate) fn tell_kind_in(told: &mut Told, table: Option<&Table>, key: Key) {
    told.words(key.word());
    told.words(" has to be ");
    told.words(kind_of(key));
    if let Some(table) = table {
        if let Some(value) = table.get(key.word()) {
            tell_found(told, key, value);
        }
    }
}

// ---- names

// The first string at a key that is no name.
fn bad_name_at<'a>(key: Key, table: &'a Table) -> Option<&'a str> {
    match table.get(key.word()) {
        Some(Value::String(text)) if !is_name(text.as_str()) => Some(text.as_str()),
        Some(Value::Array(items)) => bad_name_in(items.as_slice()),
        _ => None,
    }
}

/// The first string at a key that is no name, with the key; whether there is one.
pub(crate) fn tell_no_name(told: &mut Told, key: Key, table: &Table) -> bool {
    let Some(name) = bad_name_at(key, table) else {
        return false;
    };
    told.words(key.word());
    told.shown(": \"", name, "\" is no name; ");
    true
}

/// What a name is, of so many letters at most.
pub(crate) const NAME_RULE: &str =
    "a name is 1 to {} of the letters a to z and A to Z, digits, _ and -, a letter first";

// A string that is no name.
fn tell_bad_name(told: &mut Told, root: &Table, task: usize, section: usize) {
    if let Some(table) = table_of(root, task, section) {
        if section > 0 {
            tell_no_name(told, Key::Locks, table);
        } else if !tell_no_name(told, Key::Name, table) {
            tell_no_name(told, Key::Outranks, table);
        }
    }
    told.numbers(NAME_RULE, &[NAME_LIMIT as u64]);
}

// The name of a task before it.
fn tell_same_name(told: &mut Told, root: &Table, task: usize) {
    told.words("a task before it has its name");
    if let Some(name) = name_of(root, task) {
        if let Some(place) = place_of_name(root, name) {
            told.number(": task ", place as u64);
        }
    }
}

// ---- values

// A sheet's cause, with the values of its table.
fn tell_sheet(told: &mut Told, root: &Table, task: usize, cause: SheetCause) {
    let Some(table) = table_of(root, task, 0) else {
        return told.show(cause);
    };
    let span = match section_of(cause) {
        Some(place) => span_at(place, table),
        None => NO_SPAN,
    };
    tell_cause(told, cause, numbers_in(table), span);
    if let SheetCause::LockTwice { section } = cause {
        if let Some(section) = table_at(Key::Section, section, table) {
            tell_twice(told, items_at(Key::Locks, section));
        }
    }
}

/// The name that stands twice in an array.
pub(crate) fn tell_twice(told: &mut Told, items: &[Value]) {
    if let Some(name) = repeated_in(items) {
        told.shown(": ", name, "");
    }
}

// A task's jitter that isn't below its deadline.
fn tell_bad_jitter(told: &mut Told, root: &Table, task: usize) {
    if let Some(table) = table_of(root, task, 0) {
        tell_jitter(told, numbers_in(table));
    }
}

/// The section that a cause names, from 1.
pub(crate) fn section_of(cause: SheetCause) -> Option<usize> {
    match cause {
        SheetCause::NoLocks { section }
        | SheetCause::TooManyLocks { section }
        | SheetCause::LockTwice { section }
        | SheetCause::LenZero { section }
        | SheetCause::Overlap { section }
        | SheetCause::SectionPastCost { section } => Some(section),
        _ => None,
    }
}

// The names that a task outranks break a limit.
fn tell_outranks(told: &mut Told, root: &Table, task: usize, cause: OutranksCause) {
    told.words("outranks: ");
    told.show(cause);
    if let Some(table) = table_of(root, task, 0) {
        match cause {
            OutranksCause::TooManyOutranks => {
                told.number(": there are ", count_at(Key::Outranks, table));
            }
            OutranksCause::OutranksTwice => tell_twice(told, items_at(Key::Outranks, table)),
            OutranksCause::OutranksSelf => {}
        }
    }
}

// How many tables stand at a key, which are more than its limit.
fn tell_count(told: &mut Told, root: &Table, limit: usize, key: Key) {
    told.numbers("more than {} ", &[limit as u64]);
    told.words(key.word());
    told.number("s: there are ", count_at(key, root));
}
