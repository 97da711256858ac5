//! Up to when the densest release list of a set has no more releases than a list may have.

use crate::told::Told;
use ceiling_kernel::{HORIZON, RELEASE_LIMIT};
use chain_tables::Chain;
use std::alloc::Global;
use task_sheet::{Sheet, TaskSet};

// How often the search halves what is left of the horizon, which is below 2^26.
const STEPS: usize = 26;

// The instant at which all tasks without an offset become ready together.
fn instant_of(sheets: &[Sheet]) -> u64 {
    let mut instant = 0;
    for sheet in sheets {
        instant = instant.max(sheet.jitter());
    }
    instant
}

// The offset that a chain has of the task of a rank, where it does.
fn offset_in(chain: &Chain, rank: usize) -> Option<u64> {
    for (i, task) in chain.tasks.iter().enumerate() {
        if *task == rank {
            return chain.offsets.get(i).copied();
        }
    }
    None
}

// The offset that some chain has of it: all that do have the same.
fn offset_of(chains: &[Chain], rank: usize) -> Option<u64> {
    for chain in chains {
        let offset = offset_in(chain, rank);
        if offset.is_some() {
            return offset;
        }
    }
    None
}

// How many jobs of a task are ready before `until`, where the first one arrives at a time, as late as it may be, and each
// further one a period after the one before.
fn jobs_before(sheet: &Sheet, first: u64, until: u64) -> u64 {
    if until <= first.saturating_add(sheet.jitter()) {
        return 0;
    }
    let span = until.saturating_sub(first).saturating_sub(1);
    let later = span.checked_div(sheet.period()).unwrap_or(0);
    later.saturating_add(1)
}

// How many releases the densest list up to `until` has: a task whose offset is known arrives from there on.
fn releases_in(sheets: &[Sheet], chains: &[Chain], until: u64) -> u64 {
    let instant = instant_of(sheets);
    let mut count = 0u64;
    for (rank, sheet) in sheets.iter().enumerate() {
        let dense = instant.saturating_sub(sheet.jitter());
        let first = offset_of(chains, rank).unwrap_or(dense);
        count = count.saturating_add(jobs_before(sheet, first, until));
    }
    count
}

/// The greatest end up to which the densest list of a set with these chains has no more releases than a list may have.
pub fn greatest_until(set: &TaskSet, chains: &[Chain]) -> u64 {
    let mut until = 0u64;
    let mut beyond = HORIZON.saturating_add(1);
    for _ in 0..STEPS {
        let middle = until.saturating_add(beyond.saturating_sub(until) / 2);
        if releases_in(set.sheets(), chains, middle) <= RELEASE_LIMIT as u64 {
            until = middle;
        } else {
            beyond = middle;
        }
    }
    until
}

/// What a person is told where the densest list has too many releases; none where memory runs out.
pub fn of_density(alloc: Global, until: u64) -> Option<String> {
    let mut told = Told::new(alloc);
    told.numbers(
        "more than {} releases; UNTIL may be {} at most",
        &[RELEASE_LIMIT as u64, until],
    );
    told.whole()
}
