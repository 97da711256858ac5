//! The best order of a set with its responses, with nothing kept that shows it best (Audsley 1991).
ghost use Rattle.std.specs.Prelude.{◌≡◌, ◌<◌, length, IfOk, IfSome, IfNone};
ghost use Rattle.task_sheet.specs.Indexes.{indexes_of, without_index, IsPart};
ghost use Rattle.task_sheet.specs.Demand.{IsResponseOf};
ghost use Rattle.task_sheet.specs.Orders.{all_of, Stands};
ghost use Rattle.task_sheet.specs.Levels.{IsChosen, NoneStands};
ghost use Rattle.assignment.specs.Placings.{IsPlacingOf, tasks_of_places};

use crate::outcome::must_outrank_any;
use ceilings::Tabled;
use response_time::response_in_time;
use std::alloc::{AllocError, Global};
use std::marker::Model;
use task_sheet::Members;

/// A level: the index of its task, and the task's response there in microseconds from the arrival.
#[derive(Clone, Copy)]
pub struct Place {
    pub task: usize,
    pub response: u64,
}

impl Model for Place {
    ghost use Rattle.assignment.specs.Places.{PlaceData};

    ghost Value = { PlaceData };

    ghost view = { λ p. record { task = p.task; response = p.response } };

    ghost inverse = { λ d. record { task = d.task; response = d.response } };
}

/// What becomes of a set's tasks.
#[derive(Drop)]
pub enum Placing {
    /// The best order, the lowest first.
    Best(Vec<Place>),
    /// No order passes: the members of the greatest obstruction.
    Stuck(Members),
}

/// The tasks of places, in their order. The error is out of memory.
pub fn tasks_of_places(alloc: Global, places: &[Place]) -> Result<Vec<usize>, AllocError>
    ensures { IfOk result (λ order. order.items ≡ tasks_of_places places.now) }
{
    let mut order = Vec::with_capacity(alloc, places.len())?;
    for place in places {
        order.push(place.task)?;
    }
    Ok(order)
}

// The response of a task with these above it, where it may stand there.
fn response_below(set: &Tabled<'_>, task: usize, above: Members) -> Option<u64>
    requires task { task < length set.now }
    requires part { IsPart (indexes_of above) (all_of set.now) }
    ensures some { IfSome result
        (λ response. IsResponseOf set.now task (indexes_of above) response) }
    ensures stands { IfSome result (λ _. Stands set.now task (indexes_of above)) }
    ensures none { IfNone result (¬ Stands set.now task (indexes_of above)) }
{
    if must_outrank_any(set, task, above) {
        return None;
    }
    response_in_time(set, task, above)
}

// Of the tasks that are left, the one of least rank that may stand below the others; none where none may.
fn lowest(set: &Tabled<'_>, left: Members) -> Option<Place>
    requires { IsPart (indexes_of left) (all_of set.now) }
    ensures chosen { IfSome result (λ place. IsChosen set.now (indexes_of left) place.task) }
    ensures response { IfSome result (λ place.
        IsResponseOf set.now place.task (without_index (indexes_of left) place.task)
        place.response) }
    ensures none { IfNone result (NoneStands set.now (indexes_of left)) }
{
    for task in 0..set.len() {
        if left.has(task) {
            if let Some(response) = response_below(set, task, left.without(task)) {
                return Some(Place { task, response });
            }
        }
    }
    None
}

/// The best order of a set with its responses, or its greatest obstruction: what `assign` says, without what shows it.
/// It takes no memory but for its levels; the error is out of memory.
pub fn place_all(alloc: Global, set: &Tabled<'_>) -> Result<Placing, AllocError>
    ensures { IfOk result (λ placing. IsPlacingOf set.now placing) }
{
    let mut left = Members::all(set.sheets().len());
    let mut places = Vec::with_capacity(alloc, left.len())?;
    while !left.is_empty() {
        match lowest(set, left) {
            Some(place) => {
                left = left.without(place.task);
                places.push(place)?;
            }
            None => return Ok(Placing::Stuck(left)),
        }
    }
    Ok(Placing::Best(places))
}
