//! The values at a table's keys, where they are of the right kind.
ghost use Rattle.std.specs.Prelude.{◌≡◌, None, Some, true, MatchOption, option_map, is_some};
ghost use Rattle.toml.specs.View.{view, table_view, items_view};
ghost use Rattle.task_sheet.specs.Tree.{value_at, number_of, number_at, number_or, number_or_zero, text_at, all_strings, strings_in, strings_of, strings_at, outranks_in, outranks_or_none, said_of, all_tables, tables_in, tables_at};

use crate::keys::{Key, value_at};
use toml::{Table, Value};

/// An integer that is not negative.
pub fn number_of(value: &Value) -> Option<u64>
    ensures { result ≡ number_of (view value.now) }
{
    match value.as_integer() {
        Some(n) if n >= 0 => Some(n as u64),
        _ => None,
    }
}

/// The number at a key.
pub fn number_at(key: Key, table: &Table) -> Option<u64>
    ensures { result ≡ number_at key (table_view table.now) }
{
    number_of(value_at(key, table)?)
}

// The number at a key, which is this one where it is absent.
pub(crate) fn number_or(absent: u64, key: Key, table: &Table) -> Option<u64>
    ensures value { result ≡ number_or absent (value_at key (table_view table.now)) }
    ensures kind { is_some result ≡ is_some (number_or_zero (value_at key (table_view table.now))) }
{
    match value_at(key, table) {
        Some(value) => number_of(value),
        None => Some(absent),
    }
}

// The number at a key, which is 0 where it is absent.
pub(crate) fn number_or_zero(key: Key, table: &Table) -> Option<u64>
    ensures { result ≡ number_or_zero (value_at key (table_view table.now)) }
{
    number_or(0, key, table)
}

/// The text at a key.
pub fn text_at<'a>(key: Key, table: &'a Table) -> Option<&'a str>
    ensures { option_map (λ s. s.now) result ≡ text_at key (table_view table.now) }
{
    value_at(key, table)?.as_str()
}

// All of the values are strings.
fn are_strings(items: &[Value]) -> bool
    ensures { result ≡ all_strings (items_view items.now) }
{
    for item in items {
        if item.as_str().is_none() {
            return false;
        }
    }
    true
}

// All of the values are tables.
fn are_tables(items: &[Value]) -> bool
    ensures { result ≡ all_tables (items_view items.now) }
{
    for item in items {
        if !item.is_table() {
            return false;
        }
    }
    true
}

// An array of strings.
fn strings_of<'a>(value: &'a Value) -> Option<&'a [Value]>
    ensures { MatchOption result (strings_of (view value.now) ≡ None)
        (λ s. (all_strings (items_view s.now) ≡ true)
        × (strings_of (view value.now) ≡ Some (strings_in (items_view s.now)))) }
{
    match value.as_array() {
        Some(items) if are_strings(items) => Some(items),
        _ => None,
    }
}

/// The array of strings at a key.
pub fn strings_at<'a>(key: Key, table: &'a Table) -> Option<&'a [Value]>
    ensures { MatchOption result (strings_at key (table_view table.now) ≡ None)
        (λ s. (all_strings (items_view s.now) ≡ true)
        × (strings_at key (table_view table.now) ≡ Some (strings_in (items_view s.now)))) }
{
    strings_of(value_at(key, table)?)
}

/// Above which tasks a document says that one must stand.
#[derive(Clone, Copy)]
pub(crate) enum Said<'a> {
    /// Those that these strings name.
    Strings(&'a [Value]),
    /// All others.
    All,
}

// What a value says: the word of all others, or an array of strings.
fn said_in<'a>(value: &'a Value) -> Option<Said<'a>>
    ensures { option_map said_of result ≡ outranks_in (view value.now) }
{
    match value.as_str() {
        Some(word) if "all" == word => Some(Said::All),
        Some(_) => None,
        None => match strings_of(value) {
            Some(items) => Some(Said::Strings(items)),
            None => None,
        },
    }
}

// What the value at a key says, which is no name where it is absent.
pub(crate) fn said_or_none<'a>(key: Key, table: &'a Table) -> Option<Said<'a>>
    ensures { option_map said_of result ≡ outranks_or_none (value_at key (table_view table.now)) }
{
    match value_at(key, table) {
        Some(value) => said_in(value),
        None => Some(Said::Strings(&[])),
    }
}

/// The array of tables at a key, which is empty where it is absent.
pub fn tables_at<'a>(key: Key, table: &'a Table) -> Option<&'a [Value]>
    ensures { MatchOption result (tables_at key (table_view table.now) ≡ None)
        (λ s. (all_tables (items_view s.now) ≡ true)
        × (tables_at key (table_view table.now) ≡ Some (tables_in (items_view s.now)))) }
{
    let Some(value) = value_at(key, table) else {
        return Some(&[]);
    };
    match value.as_array() {
        Some(items) if are_tables(items) => Some(items),
        _ => None,
    }
}
