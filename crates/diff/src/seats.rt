//! Where a task stands in a placing.
ghost use Rattle.std.specs.Prelude.{◌≡◌, ◌+◌, ◌-◌};
ghost use Rattle.task_sheet.specs.Sheet.{task_at};
ghost use Rattle.diff.specs.Seats.{seat_at, seat_in, seat_of};

use crate::side::Side;
use assignment::{Place, Placing};
use task_sheet::TaskSet;

/// A task's place in the best order. Times are in microseconds.
#[derive(Clone, Copy, Debug, PartialEq, Eq)]
pub struct Seat {
    /// From 1, the lowest.
    pub level: usize,
    /// The response, from the arrival.
    pub bound: u64,
    /// What it leaves of the deadline.
    pub slack: u64,
}

// The seat at a level, of a task with this deadline.
fn seat_at(level: usize, deadline: u64, bound: u64) -> Seat
    ensures { result ≡ seat_at level deadline bound }
{
    Seat {
        level,
        bound,
        slack: deadline.saturating_sub(bound),
    }
}

// The deadline of the task at an index, in microseconds; 0 past the end of the set.
fn deadline_of(set: &TaskSet, task: usize) -> u64
    ensures { result ≡ (task_at set.now task).deadline }
{
    match set.get(task) {
        Some(sheet) => sheet.deadline(),
        None => 0,
    }
}

// The seat of a task in an order, the lowest first; none where it has none there.
fn seat_in(places: &[Place], deadline: u64, task: usize) -> Option<Seat>
    ensures { result ≡ seat_in 1 deadline places.now task }
{
    for (below, place) in places.iter().enumerate() {
        if place.task == task {
            return Some(seat_at(below + 1, deadline, place.response));
        }
    }
    None
}

// The seat of the task at an index; none where no order passes.
pub(crate) fn seat_of(side: &Side<'_>, task: usize) -> Option<Seat>
    ensures { result ≡ seat_of side.now.set.now side.now.placing.now task }
{
    match side.placing {
        Placing::Best(places) => seat_in(places, deadline_of(side.set, task), task),
        Placing::Stuck(_) => None,
    }
}
