//! What the lines of all teams run on.

use book_lock::Desk;
use std::alloc::Global;
use std::sync::ledger::Ledger;

/// The desk on which lines run, and at most so many workers for each commit.
#[derive(Drop)]
pub(crate) struct Site<'a, L: Ledger, R> {
    pub(crate) rt: &'a R,
    pub(crate) alloc: Global,
    pub(crate) desk: &'a Desk<L>,
    pub(crate) workers: usize,
}
