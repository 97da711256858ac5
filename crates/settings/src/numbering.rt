//! The numbers of an order's threads.
ghost use Rattle.std.specs.Prelude.{◌≡◌, ◌+◌, ◌<◌, ◌≤◌, ◌^◌, ℕ, length, nat_le, All, IfOk};
ghost use Rattle.std.specs.List.{list_all};
ghost use Rattle.task_sheet.specs.declared.set.TheConstants.{TASK_LIMIT};
ghost use Rattle.settings.specs.Numbering.{anew_below, filled, next_staying, number_above, numbers_of, start_of, staying, step_of, top_of};

use crate::staying::{MOST_FIFO, MOST_NUMBER, staying};
use std::alloc::{AllocError, Global};

// How many are given anew up to the first that stays.
fn anew_below(numbers: &[u64]) -> usize
    ensures { result ≡ anew_below numbers.now }
{
    for (place, number) in numbers.iter().enumerate() {
        if *number != 0 {
            return place;
        }
    }
    numbers.len()
}

// The first that stays; else the number past the most.
fn next_staying(most: u64, numbers: &[u64]) -> u64
    requires { most ≤ MOST_NUMBER }
    ensures { result ≡ next_staying most numbers.now }
{
    for number in numbers {
        if *number != 0 {
            return *number;
        }
    }
    most + 1
}

// How far apart so many stand between two numbers.
fn step_of(room: u64, from: u64, to: u64, count: usize) -> u64
    requires room { room < 2 ^ 32 }
    requires count { count ≤ TASK_LIMIT }
    ensures { result ≡ step_of room from to count }
{
    (room + 1).min(to.saturating_sub(from) / (count as u64 + 1))
}

// The number of the lowest, above one.
fn number_above(room: u64, most: u64, from: u64, number: u64, numbers: &[u64]) -> u64
    requires room { room < 2 ^ 32 }
    requires most { most ≤ MOST_NUMBER }
    requires few { length numbers.now < TASK_LIMIT }
    requires from { from ≤ 2 ^ 32 }
    ensures { result ≡ number_above room most from number numbers.now }
{
    if number != 0 {
        return number;
    }
    let next = next_staying(most, numbers);
    from + step_of(room, from, next, anew_below(numbers) + 1)
}

// Numbers with those that are given anew, above one.
fn filled(
    alloc: Global,
    room: u64,
    most: u64,
    from: u64,
    stay: &[u64],
) -> Result<Vec<u64>, AllocError>
    requires room { room < 2 ^ 32 }
    requires most { most ≤ MOST_NUMBER }
    requires few { length stay.now ≤ TASK_LIMIT }
    requires from { from ≤ 2 ^ 32 }
    requires within { All (λ n. n ≤ 2 ^ 32) stay.now }
    ensures { IfOk result (λ numbers. numbers.items ≡ filled room most from stay.now) }
{
    let mut numbers = Vec::with_capacity(alloc, stay.len())?;
    let mut below = from;
    for place in 0..stay.len() {
        below = number_above(room, most, below, stay[place], &stay[place + 1..]);
        numbers.push(below)?;
    }
    Ok(numbers)
}

// Where to fill numbers from.
fn start_of(room: u64, least: u64, most: u64, stay: &[u64]) -> u64
    requires room { room < 2 ^ 32 }
    requires most { most ≤ MOST_NUMBER }
    requires few { length stay.now ≤ TASK_LIMIT }
    ensures { result ≡ start_of room least most stay.now }
{
    let anew = anew_below(stay);
    let lowest = least.saturating_sub(1);
    if anew == stay.len() {
        return lowest;
    }
    let next = next_staying(most, stay);
    next.saturating_sub((anew as u64 + 1) * step_of(room, lowest, next, anew))
}

/// The numbers of an order's threads, from the least to the most, the lowest first, with so much room beside those that are
/// given anew: as many as can keep the old one, which is 0 where a task has none. The error is out of memory.
pub fn numbers_of(
    alloc: Global,
    room: u64,
    least: u64,
    most: u64,
    old: &[u64],
) -> Result<Vec<u64>, AllocError>
    requires room { room < 2 ^ 32 }
    requires least { least < 2 ^ 32 }
    requires most { most ≤ MOST_NUMBER }
    requires few { length old.now ≤ TASK_LIMIT }
    ensures { IfOk result (λ numbers. numbers.items ≡ numbers_of room least most old.now) }
{
    let stay = staying(alloc, least, most, old)?;
    let start = start_of(room, least, most, &stay);
    filled(alloc, room, most, start, &stay)
}

// None of the numbers is above the highest priority that Linux has.
fn are_below(old: &[u64]) -> bool
    ensures { result ≡ list_all (λ n. nat_le n MOST_FIFO) old.now }
{
    old.iter().all(|number| *number <= MOST_FIFO)
}

/// The greatest number that is given to a thread of an order: 99, the highest priority that Linux has for `SCHED_FIFO`,
/// where all have room below it and none is above it yet.
pub fn top_of(least: u64, old: &[u64]) -> u64
    requires least { least < 2 ^ 32 }
    requires few { length old.now ≤ TASK_LIMIT }
    ensures is { result ≡ top_of least old.now }
    ensures within { result ≤ MOST_NUMBER }
{
    if least + old.len() as u64 <= MOST_FIFO + 1 && are_below(old) {
        MOST_FIFO
    } else {
        MOST_NUMBER
    }
}
