//! Finding in a document what a fault names by its place.

use crate::texts::{MARK, is_line_end};
use crate::told::Told;
use std::alloc::{AllocError, Global};
use task_sheet::{Key, Name};
use toml::{Table, Value};

/// The items of the array at a key; none where there is no array.
pub(crate) fn items_at<'a>(key: Key, table: &'a Table) -> &'a [Value] {
    match table.get(key.word()) {
        Some(Value::Array(items)) => items,
        _ => &[],
    }
}

/// The table at a place of the array at a key, from 1.
pub(crate) fn table_at<'a>(key: Key, place: usize, table: &'a Table) -> Option<&'a Table> {
    match items_at(key, table).get(place.wrapping_sub(1)) {
        Some(Value::Table(own)) => Some(own),
        _ => None,
    }
}

/// The table that a fault names: the root where the task is 0, the task's own where the section is 0.
pub(crate) fn table_of<'a>(root: &'a Table, task: usize, section: usize) -> Option<&'a Table> {
    if task == 0 {
        return Some(root);
    }
    let own = table_at(Key::Task, task, root)?;
    if section == 0 {
        return Some(own);
    }
    table_at(Key::Section, section, own)
}

/// The number at a key; 0 where there is none.
pub(crate) fn number_at(key: Key, table: &Table) -> u64 {
    match table.get(key.word()) {
        Some(Value::Integer(number)) => u64::try_from(*number).unwrap_or(0),
        _ => 0,
    }
}

/// The place of a task, with the line that heads it and its name where it has them, and of a section.
pub(crate) fn tell_place(
    told: &mut Told,
    alloc: Global,
    bytes: &[u8],
    root: &Table,
    task: usize,
    section: usize,
) {
    if task == 0 {
        return;
    }
    match line_of(alloc, bytes, Key::Task, task) {
        Ok(Some(line)) => told.numbers("line {}, ", &[line]),
        Ok(None) => {}
        Err(_) => told.give_up(),
    }
    told.number("task ", task as u64);
    if let Some(name) = name_of(root, task) {
        told.shown(" (", name, ")");
    }
    if section > 0 {
        told.number(", section ", section as u64);
    }
    told.words(": ");
}

/// The name of a task.
pub(crate) fn name_of<'a>(root: &'a Table, task: usize) -> Option<&'a str> {
    match table_at(Key::Task, task, root)?.get(Key::Name.word()) {
        Some(Value::String(name)) => Some(name.as_str()),
        _ => None,
    }
}

/// What a line has between what opens and what closes a table's head; nothing where it is none.
pub(crate) fn head_in<'a>(line: &'a [u8], opens: &str, closes: &str) -> &'a str {
    let line = std::str::from_utf8(line).unwrap_or("");
    let inside = line.trim().strip_prefix(opens).unwrap_or("");
    match inside.split_once(closes) {
        Some((front, _)) => front,
        None => inside,
    }
}

// Whether a line heads a table of the array at a key.
fn heads(line: &[u8], key: Key) -> bool {
    let bare = line.strip_prefix(MARK).unwrap_or(line);
    head_in(bare, "[[", "]]").trim() == key.word()
}

// Where the line ends that heads such a table of a place, from 1, and its number, where no such line stands elsewhere.
fn header_of(bytes: &[u8], key: Key, place: usize) -> Option<(u64, usize)> {
    let mut left = place;
    let mut number = 0u64;
    let mut end = 0usize;
    for line in bytes.split(is_line_end) {
        number = number.saturating_add(1);
        end = end.saturating_add(line.len());
        if heads(line, key) {
            left = left.saturating_sub(1);
            if left == 0 {
                return Some((number, end));
            }
        }
        end = end.saturating_add(1);
    }
    None
}

// Whether a table has so many tables in the array at a key, the last of them without a key.
fn has_begun(root: &Table, key: Key, place: usize) -> bool {
    match table_at(key, place, root) {
        Some(own) => items_at(key, root).len() == place && own.is_empty(),
        None => false,
    }
}

/// The number of the line that heads a table of the array at a key, where the document up to that line says so: none heads a
/// table that stands in an array, and no line inside a string heads one.
pub(crate) fn line_of(
    alloc: Global,
    bytes: &[u8],
    key: Key,
    place: usize,
) -> Result<Option<u64>, AllocError> {
    let Some((number, end)) = header_of(bytes, key, place) else {
        return Ok(None);
    };
    // With the line's LF, which a CR needs behind it.
    let head = bytes.get(..end.saturating_add(1)).unwrap_or(bytes);
    match toml::table_from_slice(alloc, head) {
        Ok(root) if has_begun(&root, key, place) => Ok(Some(number)),
        Err(error) if error.is_memory() => Err(AllocError),
        _ => Ok(None),
    }
}

/// The keys that a table may have.
#[derive(Clone, Copy)]
pub(crate) enum Known<'a> {
    /// These.
    Keys(&'a [Key]),
    /// These words.
    Words(&'a [&'a str]),
    /// Each name.
    Names,
}

// Whether a text is one of the keys.
fn is_known(known: Known<'_>, text: &str) -> bool {
    match known {
        Known::Keys(keys) => {
            for key in keys {
                if key.word() == text {
                    return true;
                }
            }
            false
        }
        Known::Words(words) => {
            for word in words {
                if *word == text {
                    return true;
                }
            }
            false
        }
        Known::Names => is_name(text),
    }
}

/// The first key of a table that it may not have.
pub(crate) fn unknown_key<'a>(known: Known<'_>, table: &'a Table) -> Option<&'a str> {
    for (key, _) in table.iter() {
        if !is_known(known, key.as_str()) {
            return Some(key.as_str());
        }
    }
    None
}

/// Whether a text is a name.
pub(crate) fn is_name(text: &str) -> bool {
    Name::read(text.as_bytes()).is_ok()
}

/// The first string of some values that is no name.
pub(crate) fn bad_name_in<'a>(items: &'a [Value]) -> Option<&'a str> {
    for item in items {
        if let Value::String(text) = item {
            if !is_name(text.as_str()) {
                return Some(text.as_str());
            }
        }
    }
    None
}

/// The first string of some values that stands before, too.
pub(crate) fn repeated_in<'a>(items: &'a [Value]) -> Option<&'a str> {
    for (i, item) in items.iter().enumerate() {
        if let Value::String(text) = item {
            if has_text(items.get(..i).unwrap_or(items), text.as_str()) {
                return Some(text.as_str());
            }
        }
    }
    None
}

// Whether one of the values is this string.
fn has_text(items: &[Value], text: &str) -> bool {
    for item in items {
        if item.as_str() == Some(text) {
            return true;
        }
    }
    false
}

/// The place, from 1, of the first task of a name.
pub(crate) fn place_of_name(root: &Table, name: &str) -> Option<usize> {
    for place in 1..=items_at(Key::Task, root).len() {
        if name_of(root, place) == Some(name) {
            return Some(place);
        }
    }
    None
}
