//! Arrays of numbers.
ghost use Rattle.std.specs.Prelude.{◌≡◌, true, None, Some, IfOk, MatchOption};
ghost use Rattle.toml.specs.View.{items_view, table_view, view};
ghost use Rattle.chain_tables.specs.Tables.{all_numbers, numbers_at, numbers_in, numbers_of};

use std::alloc::{AllocError, Global};
use task_sheet::{Key, number_of, value_at};
use toml::{Table, Value};

// All of the values are numbers.
fn are_numbers(items: &[Value]) -> bool
    ensures { result ≡ all_numbers (items_view items.now) }
{
    for item in items {
        if number_of(item).is_none() {
            return false;
        }
    }
    true
}

// An array of numbers.
fn numbers_of<'a>(value: &'a Value) -> Option<&'a [Value]>
    ensures { MatchOption result (numbers_of (view value.now) ≡ None)
        (λ s. (all_numbers (items_view s.now) ≡ true)
        × (numbers_of (view value.now) ≡ Some (numbers_in (items_view s.now)))) }
{
    match value.as_array() {
        Some(items) if are_numbers(items) => Some(items),
        _ => None,
    }
}

/// The array of numbers at a key.
pub(crate) fn numbers_at<'a>(key: Key, table: &'a Table) -> Option<&'a [Value]>
    ensures { MatchOption result (numbers_at key (table_view table.now) ≡ None)
        (λ s. (all_numbers (items_view s.now) ≡ true)
        × (numbers_at key (table_view table.now) ≡ Some (numbers_in (items_view s.now)))) }
{
    numbers_of(value_at(key, table)?)
}

/// The numbers among some values. The error is out of memory.
pub(crate) fn read_numbers(alloc: Global, items: &[Value]) -> Result<Vec<u64>, AllocError>
    ensures { IfOk result (λ numbers. numbers.items ≡ numbers_in (items_view items.now)) }
{
    let mut numbers = Vec::with_capacity(alloc, items.len())?;
    for item in items {
        if let Some(number) = number_of(item) {
            numbers.push(number)?;
        }
    }
    Ok(numbers)
}
