//! Which tasks below a level execute, and for how long.
ghost use Rattle.std.specs.Prelude.{◌≡◌, ◌<◌, ◌≤◌, length, IfOk, OnOk};
ghost use Rattle.observed.specs.Culprits.{culprit_at, culprits_below, placed, with_culprit};

use crate::pieces::Piece;
use crate::promises::Promise;
use crate::shares::{Whom, time_in};
use std::alloc::{AllocError, Global};
use task_sheet::Name;

/// A task that executed while a job of a level above it waited, and for how long, in microseconds.
#[derive(Clone, Copy)]
pub struct Culprit {
    /// Counted from 0, the lowest.
    pub level: usize,
    pub name: Name,
    pub time: u128,
}

// The task of a level, and for how long it executes between two times.
fn culprit_at(promises: &[Promise], from: u128, to: u128, pieces: &[Piece], level: usize) -> Culprit
    requires { level < length promises.now }
    ensures { result ≡ culprit_at promises.now from to pieces.now level }
{
    let own = Whom::Level(level);
    Culprit {
        level,
        name: promises[level].name,
        time: time_in(&own, from, to, pieces),
    }
}

// One more among others, before the first that executes for less.
fn place(culprits: &mut Vec<Culprit>, culprit: Culprit) -> Result<(), AllocError>
    ensures { OnOk result (culprits.new.items ≡ placed culprit culprits.old.items) }
{
    let mut place = 0;
    while place < culprits.len() && culprit.time <= culprits[place].time {
        place += 1;
    }
    culprits.insert(place, culprit)?;
    Ok(())
}

// The same, where it executes at all.
fn add(culprits: &mut Vec<Culprit>, culprit: Culprit) -> Result<(), AllocError>
    ensures { OnOk result (culprits.new.items ≡ with_culprit culprit culprits.old.items) }
{
    if 0 < culprit.time {
        place(culprits, culprit)
    } else {
        Ok(())
    }
}

// The tasks below a level that execute between two times, who does so longest first.
pub(crate) fn culprits_below(
    alloc: Global,
    promises: &[Promise],
    from: u128,
    to: u128,
    pieces: &[Piece],
    level: usize,
) -> Result<Vec<Culprit>, AllocError>
    requires { level ≤ length promises.now }
    ensures { IfOk result (λ culprits. culprits.items ≡ culprits_below promises.now from to pieces.now level) }
{
    let mut culprits = Vec::new(alloc);
    for below in 0..level {
        add(&mut culprits, culprit_at(promises, from, to, pieces, below))?;
    }
    Ok(culprits)
}
